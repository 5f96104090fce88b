//! Initialisation of the controller, and new connections.

ghost use Rattle.std.specs.Prelude.{◌≡◌, ◌<◌, ◌^◌, length, Some, IsSome, IsOk, IsOkAnd, IfErr, OnErr};
ghost use Rattle.gatt_host.specs.Answers.{following_if, stop_of};
ghost use Rattle.gatt_host.specs.ServerState.{after_connection_complete, opened};
ghost use Rattle.gatt_host.specs.Meaning.{IsAfter};
ghost use Rattle.gatt_laws.specs.machine.Packets.{completed_event, status_event};
ghost use Rattle.le_acl.specs.Shares.{acl_len, share};
ghost use Rattle.le_hci.specs.InitTold.{told_in};

use crate::host_fault::HostFault;
use crate::last_event::LastEvent;
use crate::server::Server;
use le_acl::MAX_ACL_LEN;
use le_hci::Peer;

impl Server {
    pub(crate) fn connect(&mut self, place: usize, handle: u16, peer: Peer)
        requires place { place < length self.old.slots }
        requires handle { handle < 2 ^ 12 }
        requires buffers { IsSome (told_in self.old.controller.init) }
        ensures { self.new ≡ after_connection_complete place handle peer self.old }
    {
        let Some(buffers) = self.controller.buffers() else {
            unreachable!()
        };
        let share = share(self.slots.len(), buffers.packets);
        let acl_len = acl_len(buffers.length);
        let key_known = self.keys.known(&peer);
        self.slots.connect(place, handle, peer, key_known, self.rx_mtu, share, acl_len);
        self.controller.note_connected();
        self.end_event(LastEvent::Connected { handle, peer });
    }

    #[tactic(auto, using(crate::proofs::places::Crediting::credited))]
    pub(crate) fn command_complete(
        &mut self,
        allowed: u8,
        opcode: u16,
        returned: &[u8],
    ) -> Result<(), HostFault>
        ensures after { IsOk result
            → IsOkAnd (completed_event self.old.controller allowed opcode returned.now)
            (λ happening. IsAfter happening self.old self.new) }
        ensures stops { IfErr result (λ fault. stop_of
            (completed_event self.old.controller allowed opcode returned.now) ≡ Some fault) }
        ensures unchanged { OnErr result (self.new ≡ self.old) }
    {
        let followed = self.controller.command_complete(allowed, opcode, returned)?;
        self.open_slots(followed);
        self.end_event(LastEvent::Quiet);
        Ok(())
    }

    #[tactic(auto, using(crate::proofs::places::Crediting::credited))]
    pub(crate) fn command_status(
        &mut self,
        status: u8,
        allowed: u8,
        opcode: u16,
    ) -> Result<(), HostFault>
        ensures after { IsOk result
            → IsOkAnd (status_event self.old.controller status allowed opcode)
            (λ happening. IsAfter happening self.old self.new) }
        ensures stops { IfErr result (λ fault. stop_of
            (status_event self.old.controller status allowed opcode) ≡ Some fault) }
        ensures unchanged { OnErr result (self.new ≡ self.old) }
    {
        self.controller.command_status(status, allowed, opcode)?;
        self.end_event(LastEvent::Quiet);
        Ok(())
    }

    /// Limits the slots to the controller's packets when it becomes initialised.
    fn open_slots(&mut self, followed: bool)
        ensures { self.new ≡ record self.old {
          slots = opened (following_if followed self.old.controller) self.old.slots;
        } }
    {
        if !followed || !self.controller.is_ready() {
            return;
        }
        if let Some(buffers) = self.controller.buffers() {
            let count = self.slots.len().min(usize::from(buffers.packets));
            self.slots.truncate(count);
        }
    }
}

/// Returns how many packets of one connection may be outstanding.
fn share(slots: usize, packets: u16) -> u16
    requires slots { 0 < slots }
    requires packets { 0 < packets }
    ensures share { result ≡ share slots packets }
    ensures some { 0 < result }
{
    (usize::from(packets) / slots.min(usize::from(packets))) as u16
}

fn acl_len(told: u16) -> u16
    ensures { result ≡ acl_len told }
{
    told.min(MAX_ACL_LEN)
}
