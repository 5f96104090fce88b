ghost use Rattle.std.specs.Prelude.{◌≡◌, ℕ, false, IfOk, IfErr, IfSome, IsOk, IsSome, Some, None, Ok};
ghost use Rattle.gatt_laws.specs.machine.Controller as laws;
ghost use Rattle.gatt_laws.specs.machine.Event.{Credit, Connected, Disconnected};
ghost use Rattle.gatt_laws.specs.machine.Packets.{completed_event, status_event, status_of, is_awaited, init_fault, following_of};
ghost use Rattle.gatt_laws.specs.machine.State.{advertising_after, is_refusal};
ghost use Rattle.gatt_host.specs.Answers.{answered_by, following_if, following_stop, stop_of, told_fault};
ghost use Rattle.gatt_host.specs.Owing.{OwesTheFirstCommand};
ghost use Rattle.host_connections.specs.Slots.{Place};
ghost use Rattle.le_hci.specs.Init.{command_awaited, first_state, init_outcome};
ghost use Rattle.le_hci.specs.InitTold.{AreUsable, told_in};
ghost use Rattle.le_hci.specs.declared.peer.Peer.{Peer};

use crate::host_fault::HostFault;
use arrayvec::ArrayVec;
use le_acl::MIN_ACL_LEN;
use le_hci::event_code::COMMAND_COMPLETE;
use le_hci::{Buffers, Init, InitFault, MAX_ADVERTISING_DATA, opcode};
use std::marker::Model;
use std::mem;

/// The host's knowledge of its controller.
#[derive(Drop)]
pub struct Controller {
    /// Number of commands that the controller accepts now.
    pub(crate) credit: u8,
    pub(crate) init: Init,
    /// True if the command that initialisation awaits was sent.
    pub(crate) awaiting: bool,
    /// True if the controller advertises, as far as the host knows.
    pub(crate) advertising: bool,
    /// True if it refused to advertise since the last disconnection.
    pub(crate) refused: bool,
}

impl Model for Controller {
    ghost use Rattle.gatt_laws.specs.machine.Controller as laws;

    ghost Value = { laws.Controller };

    ghost use Rattle.le_hci.specs.InitTold.{KnowsUsable};

    ghost view = { λ c. record {
      credit = c.credit;
      init = c.init;
      awaiting = c.awaiting;
      advertising = c.advertising;
      refused = c.refused;
    } };

    // The buffers that it reported are enough for a peripheral.
    ghost invariant = { λ c. KnowsUsable c.init };
}

impl Controller {
    /// Creates a controller that is not initialised. It accepts one command before it answers any
    /// (Core 5.0, Vol 2 Part E, 4.4).
    #[tactic(auto, using(crate::proofs::places::Entering::owes_the_first_command))]
    pub fn new(
        address: Option<[u8; 6]>,
        advertising: ArrayVec<u8, MAX_ADVERTISING_DATA>,
    ) -> Controller
        ensures new { result
            ≡ record {
              credit = 1;
              init = first_state address advertising;
              awaiting = false;
              advertising = false;
              refused = false;
            } }
        // The first command is then pending.
        ensures owing { OwesTheFirstCommand }
    {
        Controller {
            credit: 1,
            init: Init::new(address, advertising),
            awaiting: false,
            advertising: false,
            refused: false,
        }
    }

    /// Returns true if the controller is initialised.
    pub fn is_ready(&self) -> bool
        ensures { result ≡ laws.is_ready self.now }
    {
        self.init.command().is_none()
    }

    /// Records a new connection, which ends advertising.
    pub fn note_connected(&mut self)
        ensures { (handle : ℕ) (peer : Peer) → self.new
            ≡ advertising_after (Connected handle peer) self.old }
    {
        self.advertising = false;
    }

    /// Records the end of a connection: advertising may be enabled again.
    pub fn note_disconnected(&mut self)
        ensures { self.new ≡ advertising_after Disconnected self.old }
    {
        self.refused = false;
    }

    pub(crate) fn awaits(&self, opcode: u16) -> bool
        ensures { result ≡ is_awaited self.now opcode }
    {
        if !self.awaiting {
            return false;
        }
        let Some(command) = self.init.command() else {
            return false;
        };
        opcode == command.opcode()
    }

    /// Returns the buffers that it reported, which are enough for a peripheral.
    pub fn buffers(&self) -> Option<Buffers>
        ensures buffers { result ≡ told_in self.now.init }
        // The reported buffers are enough for a peripheral.
        ensures usable { IfSome result AreUsable }
    {
        buffers_in(&self.init)
    }

    /// Handles Command Complete. `allowed` is the number of commands that the controller accepts
    /// now. Returns true if initialisation enters another state.
    pub fn command_complete(
        &mut self,
        allowed: u8,
        opcode: u16,
        returned: &[u8],
    ) -> Result<bool, HostFault>
        // A Command Complete means exactly this event.
        ensures event { IfOk result
            (λ followed. completed_event {C = Place} self.old allowed opcode returned.now ≡ Ok
            (Credit allowed opcode (status_of returned.now) (following_if followed self.new))) }
        // It leaves exactly this.
        ensures after { IfOk result (λ followed. self.new ≡ answered_by self.old allowed opcode
            (status_of returned.now) (following_if followed self.new)) }
        // Or it stops the host for exactly this fault, and changes nothing.
        ensures stops { IfErr result
            (λ fault. stop_of (completed_event self.old allowed opcode returned.now)
            ≡ Some fault) }
        ensures unchanged { IfErr result (λ fault. self.new ≡ self.old) }
    {
        if self.awaits(opcode) {
            self.advance(allowed, returned)?;
            return Ok(true);
        }
        self.credited(allowed, opcode, returned.first().copied());
        Ok(false)
    }

    /// Handles Command Status. `allowed` is the number of commands that the controller accepts now.
    /// A status of 0 only means that the command is being executed. Returns an error if the
    /// controller refuses the awaited command.
    #[tactic(auto, using(crate::proofs::places::Refusing::stops_where_refused))]
    pub fn command_status(&mut self, status: u8, allowed: u8, opcode: u16) -> Result<(), HostFault>
        // A Command Status means exactly this event.
        ensures event { IsOk result
            → status_event {C = Place} self.old status allowed opcode
            ≡ Ok (Credit allowed opcode (Some status) None) }
        // It leaves exactly this.
        ensures after { IsOk result
            → self.new ≡ answered_by self.old allowed opcode (Some status) None }
        // Or it stops the host for exactly this fault, and changes nothing.
        ensures stops { IfErr result
            (λ fault. stop_of (status_event self.old status allowed opcode) ≡ Some fault) }
        ensures unchanged { IfErr result (λ fault. self.new ≡ self.old) }
    {
        if self.awaits(opcode) && status != 0 {
            return Err(HostFault::Init(InitFault::Refused(opcode, status)));
        }
        self.credited(allowed, opcode, Some(status));
        Ok(())
    }

    fn advance(&mut self, allowed: u8, returned: &[u8]) -> Result<(), HostFault>
        requires { IsSome (command_awaited self.old.init) }
        ensures follows { IsOk result
            → following_of (init_outcome self.old.init returned.now) ≡ Ok (Some self.new.init) }
        ensures after { IsOk result
            → self.new
            ≡ record self.old { credit = allowed; init = self.new.init; awaiting = false } }
        ensures stops { IfErr result (λ fault. following_stop
            (following_of (init_outcome self.old.init returned.now)) ≡ Some fault) }
        ensures unchanged { IfErr result (λ fault. self.new ≡ self.old) }
    {
        let init = mem::replace(&mut self.init, NO_STATE);
        match init.complete(returned) {
            Ok(following) => {
                self.init = following;
                self.credit = allowed;
                self.awaiting = false;
                Ok(())
            }
            Err((fault, init)) => {
                self.init = init;
                Err(host_fault(fault))
            }
        }
    }

    /// Stores the number of accepted commands, and a refusal to advertise.
    fn credited(&mut self, allowed: u8, opcode: u16, status: Option<u8>)
        ensures { self.new ≡ answered_by self.old allowed opcode status None }
    {
        if self.is_ready() && is_refusal(opcode, status) {
            self.advertising = false;
            self.refused = true;
        }
        self.credit = allowed;
    }
}

/// Placeholder while the state of initialisation is moved out.
const NO_STATE: Init = Init::Ready {
    length: MIN_ACL_LEN,
    packets: 1,
};

fn buffers_in(init: &Init) -> Option<Buffers>
    ensures { result ≡ told_in init.now }
{
    match init {
        Init::Addressing { buffers, .. }
        | Init::Describing { buffers, .. }
        | Init::Filling { buffers, .. }
        | Init::Enabling { buffers } => Some(*buffers),
        Init::Ready { length, packets } => Some(Buffers {
            length: *length,
            packets: *packets,
        }),
        _ => None,
    }
}

fn is_refusal(opcode: u16, status: Option<u8>) -> bool
    ensures { result ≡ is_refusal opcode status }
{
    opcode == opcode::LE_SET_ADVERTISE_ENABLE && status.is_some_and(|status| status != 0)
}

/// Maps a fault of initialisation: a completion that is too short is a bad event.
fn host_fault(fault: InitFault) -> HostFault
    ensures { result ≡ told_fault (init_fault fault) }
{
    match fault {
        InitFault::Short => HostFault::BadEvent(COMMAND_COMPLETE),
        fault => HostFault::Init(fault),
    }
}
