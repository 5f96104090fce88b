//! The next output of the whole host state.

ghost use Rattle.std.specs.Prelude.{◌≡◌, ◌≤◌, is_some, length, take, true, false, Some, None, IfSome};
ghost use Rattle.std.specs.Bool.{OnFalse, OnTrue};
ghost use Rattle.gatt_host.specs.GoingOut.{is_drained};
ghost use Rattle.gatt_host.specs.ServerState.{open_slots, next_packet_out, after_out, OwesPacketsAlone};
ghost use Rattle.le_h4.specs.declared.packet_buf.TheConstants.{MAX_PACKET_OUT};

use crate::going_out::{
    copy, init_out, is_drained, is_init_drained, may_have_command, may_owe, next_into, next_out,
    packet_out,
};
use crate::server::Server;
use le_h4::PacketBuf;

impl Server {
    /// Replaces the contents of `out` with the next packet and marks it as sent. Returns false if
    /// there is none.
    #[inline(always)]
    pub(crate) fn next_out(&mut self, out: &mut PacketBuf) -> bool
        ensures some { result ≡ is_some (next_packet_out self.old) }
        ensures octets { OnTrue result (next_packet_out self.old ≡ Some out.new) }
        ensures after { self.new ≡ after_out self.old }
        ensures unchanged { OnFalse result (self.new ≡ self.old) }
        ensures out_unchanged { OnFalse result (out.new ≡ out.old) }
    {
        if self.controller.is_ready() {
            return next_out(&mut self.controller, &mut self.slots, out);
        }
        init_out(&mut self.controller, out)
    }

    /// Cheap check: false means that only packets of connections can go out.
    #[inline(always)]
    pub(crate) fn may_have_command(&self) -> bool
        ensures { OnFalse result (OwesPacketsAlone self.now) }
    {
        !self.controller.is_ready() || may_have_command(&self.controller, &self.slots)
    }

    /// Does the same as `next_out` if no command is pending.
    #[inline(always)]
    pub(crate) fn next_packet(&mut self, out: &mut PacketBuf) -> bool
        requires { OwesPacketsAlone self.old }
        ensures some { result ≡ is_some (next_packet_out self.old) }
        ensures octets { OnTrue result (next_packet_out self.old ≡ Some out.new) }
        ensures after { self.new ≡ after_out self.old }
        ensures packets { OwesPacketsAlone self.new }
        ensures unchanged { OnFalse result (self.new ≡ self.old) }
        ensures out_unchanged { OnFalse result (out.new ≡ out.old) }
    {
        packet_out(&mut self.slots, out)
    }

    /// Does the same as `next_out`. Without `COMMANDS`, no command may be pending.
    #[inline(always)]
    pub(crate) fn next_pending<const COMMANDS: bool>(&mut self, out: &mut PacketBuf) -> bool
        requires { COMMANDS ≡ false → OwesPacketsAlone self.old }
        ensures some { result ≡ is_some (next_packet_out self.old) }
        ensures octets { OnTrue result (next_packet_out self.old ≡ Some out.new) }
        ensures after { self.new ≡ after_out self.old }
        ensures packets { COMMANDS ≡ false → OwesPacketsAlone self.new }
        ensures unchanged { OnFalse result (self.new ≡ self.old) }
    {
        if COMMANDS {
            self.next_out(out)
        } else {
            self.next_packet(out)
        }
    }

    /// Writes the next packet to the start of `out` and returns its length; a command goes through
    /// `packet`.
    pub(crate) fn next_into(&mut self, packet: &mut PacketBuf, out: &mut [u8]) -> Option<usize>
        requires room { MAX_PACKET_OUT ≤ length out.old }
        ensures some { is_some result ≡ is_some (next_packet_out self.old) }
        ensures octets { IfSome result
            (λ count. next_packet_out self.old ≡ Some (take count out.new)) }
        ensures within { IfSome result (λ count. count ≤ length out.old) }
        ensures after { self.new ≡ after_out self.old }
        ensures unchanged { result ≡ None → self.new ≡ self.old }
        ensures out_unchanged { result ≡ None → out.new ≡ out.old }
    {
        if self.controller.is_ready() {
            return next_into(&mut self.controller, &mut self.slots, packet, out);
        }
        if !init_out(&mut self.controller, packet) {
            return None;
        }
        Some(copy(packet.as_slice(), out))
    }

    pub(crate) fn may_owe(&self) -> bool
        ensures { OnFalse result
            (is_drained self.now.controller (open_slots self.now) ≡ true) }
    {
        if !self.controller.is_ready() {
            return true;
        }
        may_owe(&self.controller, &self.slots)
    }

    pub(crate) fn is_drained(&self) -> bool
        ensures { result ≡ is_drained self.now.controller (open_slots self.now) }
    {
        if !self.may_owe() {
            return true;
        }
        if self.controller.is_ready() {
            is_drained(&self.controller, &self.slots)
        } else {
            is_init_drained(&self.controller)
        }
    }
}
