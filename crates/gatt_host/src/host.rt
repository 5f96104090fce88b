//! A host that processes packets, calls and tables.

ghost use Rattle.std.specs.Prelude.{◌≡◌, ◌<◌, ◌≤◌, ◌∷◌, [], length, not, false, true, is_some, ◌||◌, List, Some, None, Ok, Err, IsSome, IfOk, IfErr, IfSome, OnErr, take};
ghost use Rattle.std.specs.Bool.{OnTrue, OnFalse};
ghost use Rattle.std.specs.Result.{result_err};
ghost use Rattle.gatt_laws.specs.machine.Input.{run, call_refusal, replacement_refusal, Item, APacket, ACall, ATable};
ghost use Rattle.gatt_laws.specs.machine.Start.{Start};
ghost use Rattle.gatt_host.specs.Calls.{call_of};
ghost use Rattle.gatt_host.specs.Asked.{refusal_in_result, replacing_refusal_of};
ghost use Rattle.gatt_host.specs.Credits.{most_out};
ghost use Rattle.gatt_host.specs.Feeding.{items_taken, TakesUpToAPacket};
ghost use Rattle.gatt_host.specs.GoingOut.{is_drained};
ghost use Rattle.gatt_host.specs.ServerState.{after_out, next_packet_out, open_slots};
ghost use Rattle.gatt_host.specs.Packet.{frames_after_any, frames_after_octets};
ghost use Rattle.gatt_host.specs.Promises.{ContinuesApart, ContinuesByThePolicy};
ghost use Rattle.gatt_host.specs.HostModel.{all_out, is_own_fault, fault_outcome, Refines, RefinesRun, Takes};
ghost use Rattle.gatt_host.specs.Telling.{notices_told, silent, TellsOf, TellsOfAll};
ghost use Rattle.le_h4.specs.Division.{is_long};
ghost use Rattle.le_h4.specs.Packet.{packet_of_ref};
ghost use Rattle.octet_io.specs.Number.{Octets};
ghost use Rattle.le_h4.specs.declared.packet_buf.TheConstants.{MAX_PACKET_OUT};

use crate::frames::Frames;
use crate::host_fault::HostFault;
use crate::server::Server;
use crate::{packet, stream_packets};
use att_table::Table;
use host_api::{App, AppFault};
use le_h4::{Deframer, MAX_ACL_DATA, PacketBuf, PacketOctets, PacketRef};
use octet_io::overwrite;
use std::marker::Model;

/// The host half of a Bluetooth Low Energy peripheral: an ATT and GATT server. It exchanges the
/// packets of a controller as bytes. After `open` it allocates no memory.
#[derive(Drop)]
pub struct Host {
    pub(crate) server: Server,
    pub(crate) frames: Frames,
    pub(crate) stream: Deframer,
    pub(crate) fault: Option<HostFault>,
    /// Buffer for an outgoing packet. Its contents mean nothing between two calls.
    pub(crate) packet: PacketBuf,
}

impl Model for Host {
    ghost use Rattle.gatt_host.specs.HostModel.{HostModel, IsReached};

    ghost Value = { HostModel };

    ghost view = { λ h. record {
      server = h.server;
      frames = h.frames;
      stream = h.stream;
      fault = h.fault;
    } };

    // Some start and some input lead to this host.
    ghost invariant = { λ h. IsReached
        (record { server = h.server; frames = h.frames; stream = h.stream; fault = h.fault }) };
}

impl Host {
    /// Returns true if no packet may be sent to the controller now, or the host has stopped.
    /// Packets beyond a connection's share, and commands that it does not accept yet, may still be
    /// queued.
    pub fn drained(&self) -> bool
        // Nothing is pending exactly if nothing may be sent or there is a fault.
        ensures out { result ≡ all_out self.now }
        // Then all output of its input has been sent.
        ensures all { (start : Start) (input : List Item) (sent : List Octets)
            → RefinesRun (run start input) sent self.now → self.now.fault ≡ None
            → OnTrue result ((run start input).sent ≡ sent) }
    {
        is_out(&self.server, self.fault)
    }

    /// Cheap check: false means that no packet is pending; true may be a false alarm.
    pub fn may_owe(&self) -> bool
        // If the marks say that nothing may be pending, nothing is.
        ensures { OnFalse result (all_out self.now ≡ true) }
    {
        self.server.may_owe()
    }

    /// Replaces the contents of `out` with the next packet for the controller. The packet then
    /// counts as sent. Returns false if `drained`.
    pub fn next_out(&mut self, out: &mut PacketOctets) -> bool
        // A packet is returned exactly if one may be sent.
        ensures some { result ≡ not (all_out self.old) }
        // It is the run's next unsent packet.
        ensures refines { OnTrue result (Refines [] (out.new.items ∷ []) self.old self.new) }
        // A loop of these calls ends.
        ensures fewer { OnTrue result (most_out self.new.server < most_out self.old.server) }
        // A host with a fault sends nothing.
        ensures no_fault { OnTrue result (self.new.fault ≡ None) }
        // The notices stay until the next input.
        ensures notices { notices_told self.new ≡ notices_told self.old }
        // Output leaves the table as it is.
        ensures table { self.new.server.table ≡ self.old.server.table }
        // Output changes no ordinal, and no time at which a connection was last heard.
        ensures frames { self.new.frames ≡ self.old.frames }
        ensures unchanged { OnFalse result (self.new ≡ self.old) }
        ensures out_unchanged { OnFalse result (out.new.items ≡ out.old.items) }
    {
        if self.fault.is_some() {
            return false;
        }
        copy_next(&mut self.server, &mut self.packet, out)
    }

    /// Writes the next packet for the controller to the start of `out`. The packet then counts as
    /// sent. Returns its length, or `None` if `drained`. `out` has at least `MAX_PACKET_OUT` bytes.
    pub fn next_into(&mut self, out: &mut [u8]) -> Option<usize>
        requires room { MAX_PACKET_OUT ≤ length out.old }
        // A packet is returned exactly if one may be sent.
        ensures some { is_some result ≡ not (all_out self.old) }
        // It is the run's next unsent packet, at the start of the slice.
        ensures refines { IfSome result
            (λ count. Refines [] (take count out.new ∷ []) self.old self.new) }
        ensures within { IfSome result (λ count. count ≤ length out.old) }
        ensures fewer { IsSome result → most_out self.new.server < most_out self.old.server }
        ensures no_fault { IsSome result → self.new.fault ≡ None }
        ensures notices { notices_told self.new ≡ notices_told self.old }
        ensures table { self.new.server.table ≡ self.old.server.table }
        ensures frames { self.new.frames ≡ self.old.frames }
        ensures unchanged { result ≡ None → self.new ≡ self.old }
        ensures out_unchanged { result ≡ None → out.new ≡ out.old }
    {
        if self.fault.is_some() {
            return None;
        }
        next_into(&mut self.server, &mut self.packet, out)
    }

    /// Processes one whole packet from the controller. The host must be `drained`. An ACL packet
    /// with more than 1,024 octets of data only clears the notices. After a fault it returns that
    /// fault and changes nothing.
    pub fn packet(&mut self, packet: PacketRef<'_>) -> Result<(), HostFault>
        requires drained { all_out self.old ≡ true }
        // A whole packet is processed as the next item. One that is too long changes only the
        // notices.
        ensures takes { self.old.fault ≡ None
            → Takes (APacket (packet_of_ref packet.entry)) self.old self.new }
        ensures told { TellsOf (APacket (packet_of_ref packet.entry)) self.old self.new }
        // Only an ACL packet of a served connection changes when it was last heard: now. An
        // accepted connection gets the next ordinal, and was heard now.
        ensures frames { self.old.fault ≡ None → self.new.frames
            ≡ frames_after_any self.old.server (packet_of_ref packet.entry) self.old.frames }
        // The answer is the host's fault, if it has one then.
        ensures outcome { result ≡ fault_outcome self.new.fault }
        // A packet causes no fault of the host's own: `Read`, `Write` or `Turns`.
        ensures not_own { self.old.fault ≡ None
            → IfErr result (λ fault. is_own_fault fault ≡ false) }
        ensures stopped { IsSome self.old.fault → self.new ≡ self.old }
        ensures policy { ContinuesByThePolicy (APacket (packet_of_ref packet.entry) ∷ []) self.old
            self.new }
        ensures apart { ContinuesApart (APacket (packet_of_ref packet.entry) ∷ []) self.old
            self.new }
    {
        if let Some(fault) = self.fault {
            return Err(fault);
        }
        if is_long(&packet) {
            self.server.forget();
            return Ok(());
        }
        let taken = packet::packet(&mut self.server, &mut self.frames, packet);
        self.fault = taken.err();
        taken
    }

    /// Processes bytes of the controller's stream up to the end of the next packet. It processes
    /// all of them if no packet ends in them. The host must be `drained`. Returns the number of
    /// bytes used. After a fault it returns that fault and changes nothing.
    pub fn take(&mut self, octets: &[u8]) -> Result<usize, HostFault>
        requires drained { all_out self.old ≡ true }
        // The octets up to the end of a packet, or all if none ends, are processed as items.
        ensures takes { self.old.fault ≡ None
            → Refines (items_taken octets.now result) [] self.old self.new }
        ensures told { TellsOfAll (items_taken octets.now result) self.old self.new }
        // They end one packet, or are all octets and end none.
        ensures up_to { IfOk result (λ used. TakesUpToAPacket octets.now used self.old) }
        ensures frames { IfOk result (λ used. self.new.frames
            ≡ frames_after_octets self.old.server self.old.stream (take used octets.now)
            self.old.frames) }
        ensures within { IfOk result (λ used. used ≤ length octets.now) }
        // At least one octet is taken if there is one.
        ensures some { IfOk result (λ used. 0 < length octets.now → 0 < used) }
        ensures outcome { result_err result ≡ self.new.fault }
        // Octets cause no fault of the host's own: `Read`, `Write` or `Turns`.
        ensures not_own { self.old.fault ≡ None
            → IfErr result (λ fault. is_own_fault fault ≡ false) }
        // If the host stops, connections and table stay as they were.
        ensures server { OnErr result (self.new.server ≡ self.old.server) }
        ensures stopped { IsSome self.old.fault → self.new ≡ self.old }
        ensures policy { ContinuesByThePolicy (items_taken octets.now result) self.old self.new }
        ensures apart { ContinuesApart (items_taken octets.now result) self.old self.new }
    {
        if let Some(fault) = self.fault {
            return Err(fault);
        }
        stream_packets::take(self, octets)
    }

    /// Executes a call of the application. The host must be `drained`. A refused call only clears
    /// the notices.
    pub fn app(&mut self, call: App<'_>) -> Result<(), AppFault>
        requires drained { all_out self.old ≡ true }
        // A call is processed as the next item.
        ensures takes { self.old.fault ≡ None
            → Takes (ACall (call_of call.entry)) self.old self.new }
        ensures told { TellsOf (ACall (call_of call.entry)) self.old self.new }
        // It is refused exactly if the run refuses it, and for the same reason.
        ensures refused { (start : Start) (input : List Item) (sent : List Octets)
            → RefinesRun (run start input) sent self.old → self.old.fault ≡ None
            → refusal_in_result result
            ≡ call_refusal (run start input).intake (call_of call.entry) }
        ensures stopped { IsSome self.old.fault → result ≡ Err AppFault.Stopped }
        // A call changes no ordinal, and no time at which a connection was last heard.
        ensures frames { self.new.frames ≡ self.old.frames }
        // A call causes no fault.
        ensures fault { self.new.fault ≡ self.old.fault }
        // A refused call changes nothing, except that no notice is there.
        ensures unchanged { OnErr result (self.new ≡ silent self.old) }
        ensures policy { ContinuesByThePolicy (ACall (call_of call.entry) ∷ []) self.old self.new }
        ensures apart { ContinuesApart (ACall (call_of call.entry) ∷ []) self.old self.new }
    {
        if self.fault.is_some() {
            return Err(AppFault::Stopped);
        }
        self.server.app(call)
    }

    /// Replaces the table and returns the old one with its values. The host must be `drained`. A
    /// refusal returns the new table and the reason, and only clears the notices.
    pub fn replace(&mut self, table: Table) -> Result<Table, (AppFault, Table)>
        requires drained { all_out self.old ≡ true }
        // A table is processed as the next item.
        ensures takes { self.old.fault ≡ None → Takes (ATable table) self.old self.new }
        ensures told { TellsOf (ATable table) self.old self.new }
        // It is refused exactly if the run refuses it, and for the same reason.
        ensures refused { (start : Start) (input : List Item) (sent : List Octets)
            → RefinesRun (run start input) sent self.old → self.old.fault ≡ None
            → replacing_refusal_of result ≡ replacement_refusal (run start input).intake table }
        // The table before is returned as it was.
        ensures given { IfOk result (λ old. old ≡ self.old.server.table) }
        // A refused table is returned with the fault.
        ensures given_back { IfErr result (λ refused. refused.1 ≡ table) }
        ensures stopped { IsSome self.old.fault → result ≡ Err (AppFault.Stopped, table) }
        ensures frames { self.new.frames ≡ self.old.frames }
        // A replacement causes no fault.
        ensures fault { self.new.fault ≡ self.old.fault }
        // A refused table changes nothing, except that no notice is there.
        ensures unchanged { OnErr result (self.new ≡ silent self.old) }
        ensures policy { ContinuesByThePolicy (ATable table ∷ []) self.old self.new }
        ensures apart { ContinuesApart (ATable table ∷ []) self.old self.new }
    {
        if self.fault.is_some() {
            return Err((AppFault::Stopped, table));
        }
        self.server.replace_table(table)
    }
}

fn copy_next(server: &mut Server, packet: &mut PacketBuf, out: &mut PacketOctets) -> bool
    ensures some { result ≡ is_some (next_packet_out server.old) }
    ensures octets { OnTrue result (next_packet_out server.old ≡ Some out.new.items) }
    ensures after { server.new ≡ after_out server.old }
    ensures unchanged { OnFalse result (server.new ≡ server.old) }
    ensures out_unchanged { OnFalse result (out.new.items ≡ out.old.items) }
{
    if !server.next_out(packet) {
        return false;
    }
    overwrite(out, packet.as_slice(), &[], &[]);
    true
}

fn next_into(server: &mut Server, packet: &mut PacketBuf, out: &mut [u8]) -> Option<usize>
    requires room { MAX_PACKET_OUT ≤ length out.old }
    ensures some { is_some result ≡ is_some (next_packet_out server.old) }
    ensures octets { IfSome result
        (λ count. next_packet_out server.old ≡ Some (take count out.new)) }
    ensures within { IfSome result (λ count. count ≤ length out.old) }
    ensures after { server.new ≡ after_out server.old }
    ensures unchanged { result ≡ None → server.new ≡ server.old }
    ensures out_unchanged { result ≡ None → out.new ≡ out.old }
{
    server.next_into(packet, out)
}

fn is_long(packet: &PacketRef<'_>) -> bool
    ensures { result ≡ is_long (packet_of_ref packet.now) }
{
    match packet {
        PacketRef::Acl { octets, .. } => octets.len() > MAX_ACL_DATA,
        _ => false,
    }
}

fn is_out(server: &Server, fault: Option<HostFault>) -> bool
    ensures { result ≡ (is_some fault || is_drained server.now.controller (open_slots server.now)) }
{
    fault.is_some() || server.is_drained()
}
