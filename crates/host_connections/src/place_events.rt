//! Events, except requests, of the connection at a place. Only what may then be pending is marked.

ghost use Rattle.std.specs.Prelude.{◌≡◌, ◌<◌, ◌≤◌, ◌^◌, length, None, Some, IfSome};
ghost use Rattle.att_pdu.specs.declared.pdu_buf.TheConstants.{MAX_MTU, MIN_MTU};
ghost use Rattle.gatt_laws.specs.machine.Effect.{channel_answer, gained_encryption};
ghost use Rattle.host_connections.specs.Commands.{slot_without_command};
ghost use Rattle.host_connections.specs.SlotEffects.{new_slot_state, after_key_asked, after_link_step, has_no_room, slot_after_other_channel};
ghost use Rattle.host_connections.specs.Slots.{at_place, slot_state_at, slots_at};
ghost use Rattle.le_acl.specs.declared.sender.TheConstants.{MAX_ACL_LEN, MIN_ACL_LEN};
ghost use Rattle.le_security.specs.Keys.{key_asked_for};
ghost use Rattle.le_security.specs.Link.{Encryption, Refresh, after_step};

use crate::slots::Slots;
use le_hci::Peer;
use le_security::Keys;

impl Slots {
    /// Connects a peer. The server receives PDUs of `rx_mtu` octets; the controller may have
    /// `share` packets with at most `acl_len` octets of data each.
    pub fn connect(
        &mut self,
        place: usize,
        handle: u16,
        peer: Peer,
        key_known: bool,
        rx_mtu: u16,
        share: u16,
        acl_len: u16,
    )
        requires place { place < length self.old }
        requires handle { handle < 2 ^ 12 }
        requires rx_mtu_least { MIN_MTU ≤ rx_mtu }
        requires rx_mtu_most { rx_mtu ≤ MAX_MTU }
        requires share { 0 < share }
        requires acl_len_least { MIN_ACL_LEN ≤ acl_len }
        requires acl_len_most { acl_len ≤ MAX_ACL_LEN }
        ensures { self.new ≡ at_place place
            (λ slot. Some (new_slot_state handle peer key_known rx_mtu share acl_len)) self.old }
    {
        // Nothing is pending on a new connection.
        self.slots[place].connect(handle, peer, key_known, rx_mtu, share, acl_len);
        self.handles.note_all(self.slots.as_slice());
    }

    /// Frees the slot of a disconnected connection.
    pub fn free(&mut self, place: usize)
        requires { place < length self.old }
        ensures { self.new ≡ at_place place (λ slot. None) self.old }
    {
        self.slots[place].free();
        self.marks.leave();
        self.handles.note_all(self.slots.as_slice());
    }

    /// Looks up a link's key; the reply is then pending.
    pub fn ask_key(&mut self, place: usize, keys: &Keys, random_number: [u8; 8], diversifier: u16)
        requires { place < length self.old }
        ensures { self.new ≡ slots_at place (λ slot_state. after_key_asked
            (key_asked_for keys.now slot_state.peer random_number diversifier) slot_state)
            self.old }
    {
        self.slots[place].ask_key(keys, random_number, diversifier);
        self.marks.happen(place, true);
    }

    /// Handles an encryption change, also a failed one. Returns true if the link gained a key; ends
    /// the connection if it lost its key.
    pub fn encrypt(&mut self, place: usize, status: u8, enabled: u8) -> bool
        requires { place < length self.old }
        ensures after { self.new
            ≡ slots_at place (after_link_step (Encryption status enabled)) self.old }
        ensures gained { IfSome (slot_state_at self.old place)
            (λ slot_state. result ≡ gained_encryption slot_state.link.key
            (after_step slot_state.link (Encryption status enabled)).key) }
    {
        let slot = &mut self.slots[place];
        let gained = slot.encrypt(status, enabled);
        let commanded = slot.has_command();
        self.marks.happen(place, commanded);
        gained
    }

    /// Handles a key refresh, also a failed one. Returns and ends as `encrypt` does.
    pub fn refresh(&mut self, place: usize, status: u8) -> bool
        requires { place < length self.old }
        ensures after { self.new ≡ slots_at place (after_link_step (Refresh status)) self.old }
        ensures gained { IfSome (slot_state_at self.old place)
            (λ slot_state. result ≡ gained_encryption slot_state.link.key
            (after_step slot_state.link (Refresh status)).key) }
    {
        let slot = &mut self.slots[place];
        let gained = slot.refresh(status);
        let commanded = slot.has_command();
        self.marks.happen(place, commanded);
        gained
    }

    /// Answers a payload of LE signalling or the Security Manager. Returns true if lack of space
    /// ends the connection.
    pub fn other_channel(&mut self, place: usize, channel: u16, payload: &[u8]) -> bool
        requires { place < length self.old }
        ensures after { self.new
            ≡ slots_at place (slot_after_other_channel channel payload.now) self.old }
        ensures ended { IfSome (slot_state_at self.old place)
            (λ slot_state. result
            ≡ has_no_room (channel_answer channel payload.now) slot_state) }
    {
        let slot = &mut self.slots[place];
        let ended = slot.other_channel(channel, payload);
        let commanded = slot.has_command();
        self.marks.happen(place, commanded);
        ended
    }

    /// Marks the connection's pending command as sent.
    pub fn command_sent(&mut self, place: usize)
        requires { place < length self.old }
        ensures { self.new ≡ slots_at place slot_without_command self.old }
    {
        let slot = &mut self.slots[place];
        slot.command_sent();
        let giving = slot.may_give();
        self.marks.mark_giving(place, giving);
    }
}
