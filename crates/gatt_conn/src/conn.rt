ghost use Rattle.std.specs.Prelude.{◌≡◌, ◌≤◌, false, [], IfOk};
ghost use Rattle.att_table.specs.ConfigRow.{IsRowOf};
ghost use Rattle.att_writes.specs.Applied.{applied_to, written_to};
ghost use Rattle.att_writes.specs.Leaves.{LeavesStored};
ghost use Rattle.att_writes.specs.Outcome.{write_outcome};
ghost use Rattle.att_writes.specs.Queue.{prepare_fault, queue_after, prepare_outcome, touched_by};
ghost use Rattle.gatt_conn.specs.Answer.{entry_at};
ghost use Rattle.gatt_conn.specs.Connection.{new_connection, after_exchange};
ghost use Rattle.gatt_conn.specs.Transcript.{TranscriptTells};
ghost use Rattle.att_pdu.specs.declared.pdu_buf.TheConstants.{MAX_MTU};
ghost use Rattle.att_numbers.specs.declared.opcode.TheConstants.{EXECUTE_WRITE_REQUEST};

use att_numbers::Refusal;
use att_pdu::MIN_MTU;
use att_policy::{Access, Standing};
use att_table::{ConfigRow, Table};
use att_writes::{Queue, Touched};
use std::alloc::{AllocError, Global};
use std::marker::Model;

/// The default of the server's MTU, the largest PDU that it receives, in octets (this profile's
/// own).
pub const RX_MTU: u16 = 247;

const UNKNOWN: Standing = Standing {
    key: None,
    key_known: false,
    until: 0,
    now: 0,
};

/// The server's state of one connection.
#[derive(Drop)]
pub struct Conn {
    standing: Standing,
    mtu: u16,
    /// The server's MTU.
    rx_mtu: u16,
    /// The client's MTU was exchanged.
    exchanged: bool,
    queue: Queue,
}

impl Model for Conn {
    ghost use Rattle.std.specs.Prelude.{◌≤◌};
    ghost use Rattle.att_pdu.specs.declared.pdu_buf.TheConstants.{MAX_MTU, MIN_MTU};
    ghost use Rattle.gatt_conn.specs.Connection.{Bearer};

    ghost Value = { Bearer };

    ghost view = { λ conn.
        record {
          standing = conn.standing;
          mtu = conn.mtu;
          rx_mtu = conn.rx_mtu;
          exchanged = conn.exchanged;
          queue = conn.queue;
        } };

    ghost invariant = { λ conn. (MIN_MTU ≤ conn.mtu) × (conn.mtu ≤ MAX_MTU)
        × (MIN_MTU ≤ conn.rx_mtu) × (conn.rx_mtu ≤ MAX_MTU) };
}

impl Conn {
    /// Creates a connection of an unknown peer on an unencrypted link.
    ///
    /// The ATT_MTU is `MIN_MTU`. Allocates all memory that the connection will need.
    #[tactic(auto, using(crate::proofs::Transcripts::transcript_tells))]
    pub fn new(alloc: Global) -> Result<Conn, AllocError>
        ensures conn { IfOk result (λ conn. conn ≡ new_connection RX_MTU) }
        // Whatever happens, the connection's own transcript decides its ATT_MTU and queue.
        ensures transcript { TranscriptTells }
    {
        Ok(Conn {
            standing: UNKNOWN,
            mtu: MIN_MTU,
            rx_mtu: RX_MTU,
            exchanged: false,
            queue: Queue::new(alloc)?,
        })
    }

    /// Sets the server's MTU in octets; only before an exchange.
    pub fn limit(&mut self, rx_mtu: u16)
        requires least { MIN_MTU ≤ rx_mtu }
        requires most { rx_mtu ≤ MAX_MTU }
        requires not_exchanged { self.old.exchanged ≡ false }
        ensures { self.new ≡ record self.old { rx_mtu = rx_mtu } }
    {
        self.rx_mtu = rx_mtu;
    }

    /// Sets the security state for the policy.
    pub fn stand(&mut self, standing: Standing)
        ensures { self.new ≡ record self.old { standing = standing } }
    {
        self.standing = standing;
    }

    /// Clears the queue of prepared writes.
    pub fn cancel(&mut self)
        ensures { self.new ≡ record self.old { queue = [] } }
    {
        att_writes::cancel(&mut self.queue);
    }

    /// Returns the ATT_MTU in octets.
    pub fn mtu(&self) -> u16
        ensures mtu { result ≡ self.now.mtu }
        ensures least { MIN_MTU ≤ result }
        ensures most { result ≤ MAX_MTU }
    {
        self.mtu
    }

    pub(crate) fn rx_mtu(&self) -> u16
        ensures { result ≡ self.now.rx_mtu }
    {
        self.rx_mtu
    }

    /// Processes the client's MTU in octets; only the first counts.
    pub(crate) fn exchange(&mut self, client_rx_mtu: u16)
        ensures { self.new ≡ after_exchange self.old client_rx_mtu }
    {
        if !self.exchanged {
            self.mtu = client_rx_mtu.min(self.rx_mtu).max(MIN_MTU);
            self.exchanged = true;
        }
    }

    /// Resets the connection except the server's MTU; allocates nothing.
    pub fn renew(&mut self)
        ensures { self.new ≡ new_connection self.old.rx_mtu }
    {
        self.standing = UNKNOWN;
        self.mtu = MIN_MTU;
        self.exchanged = false;
        self.cancel();
    }

    pub(crate) fn standing(&self) -> &Standing
        ensures { result.now ≡ self.now.standing }
    {
        &self.standing
    }

    pub(crate) fn prepare(
        &mut self,
        table: &Table,
        handle: u16,
        offset: u16,
        part: &[u8],
    ) -> Result<(), Refusal>
        ensures outcome { result ≡ prepare_outcome (entry_at handle offset part.now)
            (prepare_fault table.now.attributes self.old.standing self.old.queue
            (entry_at handle offset part.now)) }
        ensures conn { self.new ≡ record self.old {
          queue = queue_after self.old.queue (entry_at handle offset part.now)
              (prepare_fault table.now.attributes self.old.standing self.old.queue
              (entry_at handle offset part.now));
        } }
    {
        att_writes::prepare(table, &self.standing, &mut self.queue, handle, offset, part)
    }

    /// Executes all prepared writes or rejects them; empties the queue.
    pub(crate) fn execute(
        &mut self,
        table: &mut Table,
        row: &mut ConfigRow,
        touched: &mut Touched,
    ) -> Result<(), Refusal>
        requires row { IsRowOf table.old.attributes row.old }
        ensures outcome { result
            ≡ write_outcome EXECUTE_WRITE_REQUEST
            (applied_to Access.Write table.old row.old self.old.standing self.old.queue) }
        ensures left { LeavesStored
            (written_to Access.Write table.old row.old self.old.standing self.old.queue) table.old
            table.new row.new }
        ensures touched { touched.new.items
            ≡ touched_by self.old.queue
            (applied_to Access.Write table.old row.old self.old.standing self.old.queue) }
        ensures conn { self.new ≡ record self.old { queue = [] } }
    {
        att_writes::execute(table, row, &self.standing, &mut self.queue, touched)
    }
}
