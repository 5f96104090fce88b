//! Selects the next output: a pending command if the controller accepts one, else a packet of the
//! first slot that may send one.

ghost use Rattle.std.specs.Prelude.{◌≡◌, ◌≢◌, ◌<◌, ◌≤◌, length, take, IfSome, List, ◌&&◌, not, nat_lt, is_some, true, None, Some, ◌∷◌, []};
ghost use Rattle.std.specs.Bool.{OnTrue, OnFalse};
ghost use Rattle.std.specs.Option.{option_map};
ghost use Rattle.gatt_laws.specs.machine.Controller.{controller_after};
ghost use Rattle.gatt_laws.specs.machine.State.{State, command_octets};
ghost use Rattle.host_connections.specs.Commands.{command_due, gives, has_command, slot_without_command, slot_without_packet};
ghost use Rattle.host_connections.specs.Slots.{slot_state_at, slots_at};
ghost use Rattle.gatt_host.specs.GoingOut.{first_slot_command, command_next, controller_then, init_command, is_drained, next_out, first_slot_packet, slots_commanded, slots_then, with_first};
ghost use Rattle.gatt_host.specs.Owing.{IsAllSent, IsOwing, OwesTheRest, OwesWhatAnEventBrings};
ghost use Rattle.octet_io.specs.Number.{Octets};
ghost use Rattle.le_hci.specs.Command.{Commanded, LeSetAdvertiseEnable, command_of, opcode_of};
ghost use Rattle.le_h4.specs.declared.packet_buf.TheConstants.{MAX_PACKET_OUT};

use crate::controller::Controller;
use arrayvec::ArrayVec;
use host_connections::Slots;
use le_h4::PacketBuf;
use le_hci::{Command, opcode};

impl Controller {
    fn takes(&self) -> bool
        ensures { result ≡ nat_lt 0 self.now.credit }
    {
        self.credit > 0
    }

    /// Marks the command with this opcode as sent.
    fn sent(&mut self, opcode: u16)
        requires { nat_lt 0 self.old.credit ≡ true }
        ensures { (command : Commanded) → opcode ≡ opcode_of command
            → self.new ≡ controller_after self.old (command ∷ []) }
    {
        if self.init.command().is_some() {
            self.awaiting = true;
        }
        if opcode == opcode::LE_SET_ADVERTISE_ENABLE {
            self.advertising = true;
        }
        self.credit -= 1;
    }

    /// Writes the pending command of initialisation and marks it as sent. Returns false if there is
    /// none.
    fn init_command_out(&mut self, out: &mut PacketBuf) -> bool
        requires { nat_lt 0 self.old.credit ≡ true }
        ensures some { result ≡ is_some (init_command self.old) }
        ensures octets { OnTrue result
            (option_map command_octets (init_command self.old) ≡ Some out.new) }
        ensures after { (command : Commanded) → init_command self.old ≡ Some command
            → self.new ≡ controller_after self.old (command ∷ []) }
        ensures unchanged { OnFalse result (self.new ≡ self.old) }
        ensures out_unchanged { OnFalse result (out.new ≡ out.old) }
    {
        if !self.has_init_command() {
            return false;
        }
        self.write_init_command(out);
        true
    }

    #[cold]
    #[inline(never)]
    fn write_init_command(&mut self, out: &mut PacketBuf)
        requires credit { nat_lt 0 self.old.credit ≡ true }
        requires due { is_some (init_command self.old) ≡ true }
        ensures octets { option_map command_octets (init_command self.old) ≡ Some out.new }
        ensures after { (command : Commanded) → init_command self.old ≡ Some command
            → self.new ≡ controller_after self.old (command ∷ []) }
    {
        let Some(command) = self.init.command() else {
            unreachable!()
        };
        write_command(&command, out);
        let opcode = command.opcode();
        self.sent(opcode);
    }

    fn has_init_command(&self) -> bool
        ensures { result ≡ is_some (init_command self.now) }
    {
        !self.awaiting && !self.is_ready()
    }

    fn is_to_advertise(&self, free: bool) -> bool
        ensures { result ≡ (free && not self.now.advertising && not self.now.refused) }
    {
        free && !self.advertising && !self.refused
    }

    #[cold]
    #[inline(never)]
    fn write_enabling(&mut self, out: &mut PacketBuf)
        requires { nat_lt 0 self.old.credit ≡ true }
        ensures octets { out.new ≡ command_octets LeSetAdvertiseEnable }
        ensures after { self.new ≡ controller_after self.old (LeSetAdvertiseEnable ∷ []) }
    {
        write_command(&Command::LeSetAdvertiseEnable, out);
        self.sent(opcode::LE_SET_ADVERTISE_ENABLE);
    }
}

/// Replaces the contents of `out` with a command.
fn write_command(command: &Command<'_>, out: &mut PacketBuf)
    ensures { out.new ≡ command_octets (command_of command.now) }
{
    let mut packet = ArrayVec::new();
    le_hci::write_command(command, &mut packet);
    out.command(packet.as_slice());
}

/// Writes a packet of the first slot that may send one. Returns false if none may.
#[inline(always)]
pub(crate) fn packet_out(slots: &mut Slots, out: &mut PacketBuf) -> bool
    ensures some { result ≡ is_some (first_slot_packet slots.old) }
    ensures octets { OnTrue result (first_slot_packet slots.old ≡ Some out.new) }
    ensures after { slots.new ≡ with_first gives (option_map slot_without_packet) slots.old }
    ensures unchanged { OnFalse result (slots.new ≡ slots.old) }
    ensures out_unchanged { OnFalse result (out.new ≡ out.old) }
{
    let Some(place) = slots.first_that_gives() else {
        return false;
    };
    slots.next_packet(place, out)
}

/// Writes the first pending command of a slot and returns its opcode.
#[cold]
#[inline(never)]
fn slot_command_out(slots: &mut Slots, out: &mut PacketBuf) -> Option<u16>
    ensures opcode { result ≡ option_map opcode_of (first_slot_command slots.old) }
    ensures octets { (command : Commanded) → first_slot_command slots.old ≡ Some command
        → out.new ≡ command_octets command }
    ensures after { slots.new
        ≡ with_first has_command (option_map slot_without_command) slots.old }
    ensures unchanged { OnFalse (is_some result) (slots.new ≡ slots.old) }
    ensures out_unchanged { OnFalse (is_some result) (out.new ≡ out.old) }
{
    match slots.first_with_command() {
        Some(place) => Some(command_at_out(slots, place, out)),
        None => None,
    }
}

#[cold]
#[inline(never)]
fn command_at_out(slots: &mut Slots, place: usize, out: &mut PacketBuf) -> u16
    requires place { place < length slots.old }
    requires due { has_command (slot_state_at slots.old place) ≡ true }
    ensures opcode { Some result
        ≡ option_map opcode_of (command_due (slot_state_at slots.old place)) }
    ensures octets { (command : Commanded) → command_due (slot_state_at slots.old place)
        ≡ Some command
        → out.new ≡ command_octets command }
    ensures after { slots.new ≡ slots_at place slot_without_command slots.old }
{
    let Some(command) = slots.get(place).command() else {
        unreachable!()
    };
    write_command(&command, out);
    slots.command_sent(place);
    command.opcode()
}

/// Writes the next pending command and marks it as sent. Returns false if none is pending or the
/// controller accepts none.
#[inline(always)]
fn command_out(controller: &mut Controller, slots: &mut Slots, out: &mut PacketBuf) -> bool
    ensures some { result ≡ is_some (command_next controller.old slots.old) }
    ensures octets { OnTrue result
        (option_map command_octets (command_next controller.old slots.old) ≡ Some out.new) }
    ensures controller { controller.new ≡ controller_then controller.old slots.old }
    ensures controller_unchanged { OnFalse result (controller.new ≡ controller.old) }
    ensures slots { OnTrue result (slots.new ≡ slots_commanded controller.old slots.old) }
    ensures unchanged { OnFalse result (slots.new ≡ slots.old) }
    ensures out_unchanged { OnFalse result (out.new ≡ out.old) }
{
    if !may_have_command(controller, slots) {
        return false;
    }
    if !controller.takes() {
        return false;
    }
    if controller.init_command_out(out) {
        return true;
    }
    if let Some(opcode) = slot_command_out(slots, out) {
        controller.sent(opcode);
        return true;
    }
    // Usually these cheap checks decide.
    if !slots.may_have_room() || controller.advertising || controller.refused {
        return false;
    }
    if !slots.has_room() {
        return false;
    }
    controller.write_enabling(out);
    true
}

/// Replaces the contents of `out` with the next output. This is a pending command if the controller
/// accepts one, else a packet of the first slot that may send one. Returns false, with nothing
/// changed, if there is no output.
#[inline(always)]
#[tactic(auto, using(crate::proofs::places::Entering::owes_what_an_event_brings))]
pub fn next_out(controller: &mut Controller, slots: &mut Slots, out: &mut PacketBuf) -> bool
    ensures some { result ≡ is_some (next_out controller.old slots.old) }
    // Commands come first, as far as the controller accepts them, then packets by slots.
    ensures octets { OnTrue result (next_out controller.old slots.old ≡ Some out.new) }
    ensures controller { controller.new ≡ controller_then controller.old slots.old }
    ensures slots { slots.new ≡ slots_then controller.old slots.old }
    // True: this was the first pending output. False: none is pending.
    ensures first { (final : State) (owed : List Octets)
        → IsOwing final owed controller.old slots.old
        → OnTrue result (OwesTheRest final owed out.new controller.new slots.new) }
    ensures done { (final : State) (owed : List Octets)
        → IsOwing final owed controller.old slots.old
        → OnFalse result (IsAllSent final owed controller.old slots.old) }
    ensures controller_unchanged { OnFalse result (controller.new ≡ controller.old) }
    ensures slots_unchanged { OnFalse result (slots.new ≡ slots.old) }
    ensures out_unchanged { OnFalse result (out.new ≡ out.old) }
    // The output of an event is pending until its commands are sent.
    ensures events { OwesWhatAnEventBrings }
{
    either_out(controller, slots, out)
}

#[inline(always)]
fn either_out(controller: &mut Controller, slots: &mut Slots, out: &mut PacketBuf) -> bool
    ensures some { result ≡ is_some (next_out controller.old slots.old) }
    ensures octets { OnTrue result (next_out controller.old slots.old ≡ Some out.new) }
    ensures controller { controller.new ≡ controller_then controller.old slots.old }
    ensures slots { slots.new ≡ slots_then controller.old slots.old }
    ensures controller_unchanged { OnFalse result (controller.new ≡ controller.old) }
    ensures slots_unchanged { OnFalse result (slots.new ≡ slots.old) }
    ensures out_unchanged { OnFalse result (out.new ≡ out.old) }
{
    if command_out(controller, slots, out) {
        return true;
    }
    packet_out(slots, out)
}

/// Writes a packet of the first slot that may send one to the start of `out`. Returns its length.
fn packet_into(slots: &mut Slots, out: &mut [u8]) -> Option<usize>
    requires room { MAX_PACKET_OUT ≤ length out.old }
    ensures some { is_some result ≡ is_some (first_slot_packet slots.old) }
    ensures octets { IfSome result
        (λ count. first_slot_packet slots.old ≡ Some (take count out.new)) }
    ensures within { IfSome result (λ count. count ≤ length out.old) }
    ensures after { slots.new ≡ with_first gives (option_map slot_without_packet) slots.old }
    ensures unchanged { OnFalse (is_some result) (slots.new ≡ slots.old) }
    ensures out_unchanged { OnFalse (is_some result) (out.new ≡ out.old) }
{
    let Some(place) = slots.first_that_gives() else {
        return None;
    };
    slots.next_into(place, out)
}

/// Writes the next output to the start of `out` and returns its length; a command goes through
/// `packet`. Returns `None` if there is no output.
pub(crate) fn next_into(
    controller: &mut Controller,
    slots: &mut Slots,
    packet: &mut PacketBuf,
    out: &mut [u8],
) -> Option<usize>
    requires room { MAX_PACKET_OUT ≤ length out.old }
    ensures some { is_some result ≡ is_some (next_out controller.old slots.old) }
    ensures octets { IfSome result
        (λ count. next_out controller.old slots.old ≡ Some (take count out.new)) }
    ensures within { IfSome result (λ count. count ≤ length out.old) }
    ensures controller { controller.new ≡ controller_then controller.old slots.old }
    ensures slots { slots.new ≡ slots_then controller.old slots.old }
    ensures controller_unchanged { OnFalse (is_some result) (controller.new ≡ controller.old) }
    ensures slots_unchanged { OnFalse (is_some result) (slots.new ≡ slots.old) }
    ensures out_unchanged { OnFalse (is_some result) (out.new ≡ out.old) }
{
    if command_out(controller, slots, packet) {
        return Some(copy(packet.as_slice(), out));
    }
    packet_into(slots, out)
}

pub(crate) fn copy(octets: &[u8], out: &mut [u8]) -> usize
    requires { length octets.now ≤ length out.old }
    ensures copied { take result out.new ≡ octets.now }
    ensures count { result ≡ length octets.now }
{
    out[..octets.len()].copy_from_slice(octets);
    octets.len()
}

fn has_command(controller: &Controller, slots: &Slots) -> bool
    ensures { result ≡ is_some (command_next controller.now slots.now) }
{
    if !controller.takes() {
        return false;
    }
    if controller.has_init_command() {
        return true;
    }
    if slots.has_command() {
        return true;
    }
    controller.is_to_advertise(slots.has_free())
}

/// Returns true if there is no output now.
pub fn is_drained(controller: &Controller, slots: &Slots) -> bool
    ensures drained { result ≡ is_drained controller.now slots.now }
    // True: no output is pending. False: some is.
    ensures done { (final : State) (owed : List Octets)
        → IsOwing final owed controller.now slots.now
        → OnTrue result (IsAllSent final owed controller.now slots.now) }
    ensures owing { (final : State) (owed : List Octets)
        → IsOwing final owed controller.now slots.now → OnFalse result (owed ≢ []) }
{
    none_waits(controller, slots)
}

/// Implements `is_drained`. Separate function: keeps the proof small.
fn none_waits(controller: &Controller, slots: &Slots) -> bool
    ensures { result ≡ is_drained controller.now slots.now }
{
    if has_command(controller, slots) {
        return false;
    }
    !slots.gives()
}

/// Cheap check without the slots: false means that no command is pending.
pub(crate) fn may_have_command(controller: &Controller, slots: &Slots) -> bool
    ensures { OnFalse result (command_next controller.now slots.now ≡ None) }
{
    if controller.has_init_command() || slots.may_have_command() {
        return true;
    }
    controller.is_to_advertise(slots.may_have_room())
}

/// Cheap check without the slots: false means that there is no output.
pub(crate) fn may_owe(controller: &Controller, slots: &Slots) -> bool
    ensures { OnFalse result (is_drained controller.now slots.now ≡ true) }
{
    if may_have_command(controller, slots) {
        return true;
    }
    slots.may_give()
}

/// Does the same as `next_out` before the controller is initialised: no slot has a connection.
pub(crate) fn init_out(controller: &mut Controller, out: &mut PacketBuf) -> bool
    ensures some { result ≡ is_some (next_out controller.old []) }
    ensures octets { OnTrue result (next_out controller.old [] ≡ Some out.new) }
    ensures controller { controller.new ≡ controller_then controller.old [] }
    ensures controller_unchanged { OnFalse result (controller.new ≡ controller.old) }
    ensures out_unchanged { OnFalse result (out.new ≡ out.old) }
{
    if !controller.takes() {
        return false;
    }
    controller.init_command_out(out)
}

pub(crate) fn is_init_drained(controller: &Controller) -> bool
    ensures { result ≡ is_drained controller.now [] }
{
    !(controller.takes() && controller.has_init_command())
}
