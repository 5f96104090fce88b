//! The pending commands and packets of slots.

ghost use Rattle.std.specs.Prelude.{◌≡◌, ◌<◌, false, is_none, is_some, length, take, Some, IfSome, ◌≤◌};
ghost use Rattle.std.specs.Bool.{OnTrue, OnFalse};
ghost use Rattle.std.specs.List.{list_any, position};
ghost use Rattle.std.specs.Option.{option_and_then, option_map};
ghost use Rattle.le_hci.specs.Command.{command_of};
ghost use Rattle.host_connections.specs.Commands.{command_due, gives, has_command, slot_packet, slot_without_command, slot_without_packet};
ghost use Rattle.host_connections.specs.Slots.{slot_state_at, slots_at};
ghost use Rattle.le_h4.specs.declared.packet_buf.TheConstants.{MAX_PACKET_OUT};

use crate::places::{Due, first_due};
use crate::slot::{Slot, Use};
use crate::slots::Slots;
use le_h4::PacketBuf;
use le_hci::Command;

impl Slot {
    /// Returns the pending command: a Disconnect, else the reply to the request for the key.
    pub fn command(&self) -> Option<Command<'static>>
        ensures { option_map command_of result ≡ command_due self.now }
    {
        if self.used == Use::Free {
            return None;
        }
        let handle = self.handle;
        match (self.reason, self.reply) {
            (Some(reason), _) => Some(Command::Disconnect { handle, reason }),
            (None, Some(Some(key))) => Some(Command::LeLongTermKeyRequestReply { handle, key }),
            (None, Some(None)) => Some(Command::LeLongTermKeyRequestNegativeReply { handle }),
            (None, None) => None,
        }
    }

    pub(crate) fn has_command(&self) -> bool
        ensures { result ≡ is_some (command_due self.now) }
    {
        self.used != Use::Free && (self.reason.is_some() || self.reply.is_some())
    }

    pub(crate) fn command_sent(&mut self)
        ensures { self.new ≡ option_map slot_without_command self.old }
    {
        if self.reason.is_some() {
            self.reason = None;
        } else {
            self.reply = None;
        }
    }

    pub(crate) fn is_free(&self) -> bool
        ensures { result ≡ is_none self.now }
    {
        self.used == Use::Free
    }

    pub(crate) fn gives(&self) -> bool
        ensures { result ≡ gives self.now }
    {
        self.used != Use::Free && self.sender.may_give()
    }

    /// Cheap check: false means that no packet may be given.
    pub(crate) fn may_give(&self) -> bool
        ensures { OnFalse result (gives self.now ≡ false) }
    {
        self.sender.may_give()
    }

    /// Cheap check of the share alone: false means that no packet may be given.
    pub(crate) fn is_below_share(&self) -> bool
        ensures { OnFalse result (gives self.now ≡ false) }
    {
        self.sender.is_below_share()
    }

    #[inline(always)]
    pub(crate) fn next_packet(&mut self, out: &mut PacketBuf) -> bool
        ensures gives { result ≡ gives self.old }
        ensures packet { OnTrue result (option_and_then slot_packet self.old ≡ Some out.new) }
        ensures after { OnTrue result (self.new ≡ option_map slot_without_packet self.old) }
        ensures unchanged { OnFalse result (self.new ≡ self.old) }
        ensures out_unchanged { OnFalse result (out.new ≡ out.old) }
    {
        self.used != Use::Free && self.sender.next_packet(self.handle, out)
    }

    pub(crate) fn next_into(&mut self, out: &mut [u8]) -> Option<usize>
        requires room { MAX_PACKET_OUT ≤ length out.old }
        ensures gives { is_some result ≡ gives self.old }
        ensures packet { IfSome result
            (λ count. option_and_then slot_packet self.old ≡ Some (take count out.new)) }
        ensures within { IfSome result (λ count. count ≤ length out.old) }
        ensures after { OnTrue (is_some result)
            (self.new ≡ option_map slot_without_packet self.old) }
        ensures unchanged { OnFalse (is_some result) (self.new ≡ self.old) }
        ensures out_unchanged { OnFalse (is_some result) (out.new ≡ out.old) }
    {
        if self.used == Use::Free {
            return None;
        }
        self.sender.next_into(self.handle, out)
    }
}

impl Slots {
    /// Returns true if a slot is free.
    pub fn has_room(&mut self) -> bool
        ensures room { result ≡ list_any (λ slot. is_none slot) self.old }
        ensures unchanged { self.new ≡ self.old }
    {
        if self.marks.free {
            self.marks.free = any_free(self.slots.as_slice());
        }
        self.marks.free
    }

    /// Cheap check: false means that no slot is free.
    pub fn may_have_room(&self) -> bool
        ensures { OnFalse result (list_any (λ slot. is_none slot) self.now ≡ false) }
    {
        self.marks.free
    }

    /// Cheap check: false means that no command is pending.
    pub fn may_have_command(&self) -> bool
        ensures { OnFalse result (list_any has_command self.now ≡ false) }
    {
        !self.marks.commands.is_empty()
    }

    /// Cheap check: false means that no packet may be given.
    pub fn may_give(&self) -> bool
        ensures { OnFalse result (list_any gives self.now ≡ false) }
    {
        !self.marks.packets.is_empty()
    }

    /// Returns the first slot with a pending command.
    pub fn first_with_command(&mut self) -> Option<usize>
        ensures place { result ≡ position has_command self.old }
        ensures within { IfSome result (λ place. place < length self.old) }
        ensures unchanged { self.new ≡ self.old }
    {
        // A slot that was lent has a marked command, and no handle is noted.
        self.handles.note_again(self.slots.as_slice());
        first_due(
            self.slots.as_slice(),
            Due::Command,
            &mut self.marks.commands,
        )
    }

    /// Returns the first slot that may give a packet.
    #[inline(always)]
    pub fn first_that_gives(&mut self) -> Option<usize>
        ensures place { result ≡ position gives self.old }
        ensures within { IfSome result (λ place. place < length self.old) }
        ensures unchanged { self.new ≡ self.old }
    {
        first_due(self.slots.as_slice(), Due::Packet, &mut self.marks.packets)
    }

    /// Writes the next packet of a slot to `out`. Returns false, and changes nothing, if none may
    /// be given.
    #[inline(always)]
    pub fn next_packet(&mut self, place: usize, out: &mut PacketBuf) -> bool
        requires { place < length self.old }
        ensures gives { result ≡ gives (slot_state_at self.old place) }
        ensures packet { OnTrue result
            (option_and_then slot_packet (slot_state_at self.old place) ≡ Some out.new) }
        ensures after { OnTrue result (self.new ≡ slots_at place slot_without_packet self.old) }
        ensures unchanged { OnFalse result (self.new ≡ self.old) }
        ensures out_unchanged { OnFalse result (out.new ≡ out.old) }
    {
        let slot = &mut self.slots[place];
        let given = slot.next_packet(out);
        let giving = slot.may_give();
        self.marks.mark_giving(place, giving);
        given
    }

    /// Writes the next packet of a slot to the start of `out`, and returns its length in octets.
    /// `None`: none may be given, and nothing changes.
    pub fn next_into(&mut self, place: usize, out: &mut [u8]) -> Option<usize>
        requires place { place < length self.old }
        requires room { MAX_PACKET_OUT ≤ length out.old }
        ensures gives { is_some result ≡ gives (slot_state_at self.old place) }
        ensures packet { IfSome result (λ count.
            option_and_then slot_packet (slot_state_at self.old place)
            ≡ Some (take count out.new)) }
        ensures within { IfSome result (λ count. count ≤ length out.old) }
        ensures after { OnTrue (is_some result)
            (self.new ≡ slots_at place slot_without_packet self.old) }
        ensures unchanged { OnFalse (is_some result) (self.new ≡ self.old) }
        ensures out_unchanged { OnFalse (is_some result) (out.new ≡ out.old) }
    {
        let slot = &mut self.slots[place];
        let given = slot.next_into(out);
        let giving = slot.may_give();
        self.marks.mark_giving(place, giving);
        given
    }

    /// Returns true if a command is pending.
    pub fn has_command(&self) -> bool
        ensures { result ≡ list_any has_command self.now }
    {
        self.slots.iter().any(|slot| slot.has_command())
    }

    /// Returns true if a packet may be given.
    pub fn gives(&self) -> bool
        ensures { result ≡ list_any gives self.now }
    {
        self.slots.iter().any(|slot| slot.gives())
    }

    /// Returns true if a slot is free.
    pub fn has_free(&self) -> bool
        ensures { result ≡ list_any (λ slot. is_none slot) self.now }
    {
        any_free(self.slots.as_slice())
    }
}

fn any_free(slots: &[Slot]) -> bool
    ensures { result ≡ list_any (λ slot. is_none slot) slots.now }
{
    slots.iter().any(|slot| slot.is_free())
}
