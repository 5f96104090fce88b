//! Packets from the controller as events of the host state.

ghost use Rattle.std.specs.Bool.{OnTrue};
ghost use Rattle.std.specs.Prelude.{◌≡◌, ◌<◌, ◌≤◌, false, true, length, IsSome, IsOk, IfErr, Ok, Some, OnErr};
ghost use Rattle.std.specs.Result.{result_err, result_map_both};
ghost use Rattle.std.specs.Option.{option_and_then, option_map_or};
ghost use Rattle.gatt_laws.specs.machine.Packets.{fragment_event, frame_event, of_frame};
ghost use Rattle.gatt_host.specs.GoingOut.{is_drained};
ghost use Rattle.gatt_host.specs.ServerState.{open_slots};
ghost use Rattle.gatt_host.specs.HostModel.{is_own_fault, RefinesPacket};
ghost use Rattle.gatt_host.specs.Meaning.{recombination, once_heard, with_fragment, IsOfItsTable, IsAfter};
ghost use Rattle.le_h4.specs.Packet.{packet_of_ref};
ghost use Rattle.gatt_host.specs.Packet.{acl_happening, packet_stop, TakesPacket, event_stop, fragment_left, frame_given, frames_after_acl, frames_after_event, frames_after_packet, TakesEvent};
ghost use Rattle.gatt_host.specs.Telling.{TellsOfPacket};
ghost use Rattle.host_connections.specs.Slots.{IsThere};
ghost use Rattle.le_acl.specs.Fragment.{fragment_of, Beginning};
ghost use Rattle.le_acl.specs.Frame.{is_frame};
ghost use Rattle.le_acl.specs.Reassembler.{assembled_of, no_assembly};
ghost use Rattle.le_hci.specs.Event.{event_of, report_of};
ghost use Rattle.le_l2cap.specs.Frame.{frame_contents, frame_of};

use crate::frames::Frames;
use crate::host_fault::HostFault;
use crate::last_event::LastEvent;
use crate::server::Server;
use le_acl::boundary::{CONTINUATION, FIRST, FIRST_NOT_FLUSHED};
use le_acl::{Piece, Reassembler, is_frame};
use le_h4::PacketRef;
use le_hci::event_code::{self, NUMBER_OF_COMPLETED_PACKETS};
use le_hci::{BadEvent, Event, read_event};
use le_l2cap::channel::{ATT, LE_SIGNALLING, SECURITY_MANAGER};
use le_l2cap::{Frame, Skip, read_frame};

impl Server {
    pub(crate) fn event(&mut self, frames: &mut Frames, octets: &[u8]) -> Result<(), HostFault>
        requires enough { length self.old.slots ≤ length frames.old.assembled }
        requires of_table { IsOfItsTable self.old }
        ensures taken { IsOk result → TakesEvent (event_of octets.now) self.old self.new }
        ensures frames { frames.new
            ≡ frames_after_event self.old (event_of octets.now) frames.old }
        ensures stops { IfErr result
            (λ fault. event_stop (event_of octets.now) self.old ≡ Some fault) }
        ensures unchanged { OnErr result (self.new ≡ self.old) }
        ensures frames_unchanged { OnErr result (frames.new ≡ frames.old) }
    {
        // `take_event` is inlined here for the most frequent event, without tests for others.
        match octets.first() {
            Some(&NUMBER_OF_COMPLETED_PACKETS) => self.take_event(frames, octets),
            _ => self.take_other_event(frames, octets),
        }
    }

    /// Handles an event other than Number Of Completed Packets. A host ignores most kinds.
    #[inline(never)]
    fn take_other_event(&mut self, frames: &mut Frames, octets: &[u8]) -> Result<(), HostFault>
        requires enough { length self.old.slots ≤ length frames.old.assembled }
        requires of_table { IsOfItsTable self.old }
        ensures taken { IsOk result → TakesEvent (event_of octets.now) self.old self.new }
        ensures frames { frames.new
            ≡ frames_after_event self.old (event_of octets.now) frames.old }
        ensures stops { IfErr result
            (λ fault. event_stop (event_of octets.now) self.old ≡ Some fault) }
        ensures unchanged { OnErr result (self.new ≡ self.old) }
        ensures frames_unchanged { OnErr result (frames.new ≡ frames.old) }
    {
        if tells_nothing(octets) {
            return self.take_reported(frames, &Event::Other);
        }
        self.take_rare_event(frames, octets)
    }

    #[inline(never)]
    fn take_rare_event(&mut self, frames: &mut Frames, octets: &[u8]) -> Result<(), HostFault>
        requires enough { length self.old.slots ≤ length frames.old.assembled }
        requires of_table { IsOfItsTable self.old }
        ensures taken { IsOk result → TakesEvent (event_of octets.now) self.old self.new }
        ensures frames { frames.new
            ≡ frames_after_event self.old (event_of octets.now) frames.old }
        ensures stops { IfErr result
            (λ fault. event_stop (event_of octets.now) self.old ≡ Some fault) }
        ensures unchanged { OnErr result (self.new ≡ self.old) }
        ensures frames_unchanged { OnErr result (frames.new ≡ frames.old) }
    {
        // Each arm inlines `take_event` for one kind, without tests for others.
        match octets.first() {
            Some(&event_code::COMMAND_COMPLETE) => self.take_event(frames, octets),
            Some(&event_code::LE_META) => self.take_event(frames, octets),
            Some(&event_code::DISCONNECTION_COMPLETE) => self.take_event(frames, octets),
            Some(&event_code::ENCRYPTION_CHANGE) => self.take_event(frames, octets),
            _ => self.take_event(frames, octets),
        }
    }

    #[inline(always)]
    fn take_event(&mut self, frames: &mut Frames, octets: &[u8]) -> Result<(), HostFault>
        requires enough { length self.old.slots ≤ length frames.old.assembled }
        requires of_table { IsOfItsTable self.old }
        ensures taken { IsOk result → TakesEvent (event_of octets.now) self.old self.new }
        ensures frames { frames.new
            ≡ frames_after_event self.old (event_of octets.now) frames.old }
        ensures stops { IfErr result
            (λ fault. event_stop (event_of octets.now) self.old ≡ Some fault) }
        ensures unchanged { OnErr result (self.new ≡ self.old) }
        ensures frames_unchanged { OnErr result (frames.new ≡ frames.old) }
    {
        match read_event(octets) {
            Ok(event) => self.take_reported(frames, &event),
            Err(BadEvent(code)) => Err(HostFault::BadEvent(code)),
        }
    }

    #[inline(always)]
    fn take_reported(&mut self, frames: &mut Frames, event: &Event<'_>) -> Result<(), HostFault>
        requires enough { length self.old.slots ≤ length frames.old.assembled }
        requires of_table { IsOfItsTable self.old }
        ensures taken { IsOk result → TakesEvent (Ok (report_of event.now)) self.old self.new }
        ensures frames { frames.new
            ≡ frames_after_event self.old (Ok (report_of event.now)) frames.old }
        ensures stops { IfErr result
            (λ fault. event_stop (Ok (report_of event.now)) self.old ≡ Some fault) }
        ensures unchanged { OnErr result (self.new ≡ self.old) }
        ensures frames_unchanged { OnErr result (frames.new ≡ frames.old) }
    {
        match *event {
            Event::CommandComplete {
                allowed,
                opcode,
                parameters,
            } => self.command_complete(allowed, opcode, parameters),
            Event::CommandStatus {
                status,
                allowed,
                opcode,
            } => self.command_status(status, allowed, opcode),
            Event::HardwareError { code } => Err(HostFault::Hardware(code)),
            _ => {
                self.reported(frames, event);
                Ok(())
            }
        }
    }

    fn frame(&mut self, place: usize, octets: &[u8])
        requires there { IsThere self.old.slots place }
        requires of_table { IsOfItsTable self.old }
        ensures { IsAfter
            (frame_event place (of_frame (frame_of octets.now))) self.old self.new }
    {
        self.handle_frame(place, read_frame(octets));
    }

    #[inline(always)]
    fn handle_frame(&mut self, place: usize, read: Result<Frame<'_>, Skip>)
        requires there { IsThere self.old.slots place }
        requires of_table { IsOfItsTable self.old }
        ensures { IsAfter (frame_event place
            (of_frame (result_map_both frame_contents (λ skip. skip) read.entry))) self.old
            self.new }
    {
        match read {
            Ok(frame) => match frame.cid {
                ATT => self.serve_pdu(place, frame.payload),
                LE_SIGNALLING | SECURITY_MANAGER => self.other_channel(
                    place,
                    frame.cid,
                    frame.payload,
                ),
                _ => self.end_event(LastEvent::Quiet),
            },
            Err(_) => self.end_event(LastEvent::Quiet),
        }
    }
}

/// Returns true for a well-formed event of a kind that a host ignores.
fn tells_nothing(octets: &[u8]) -> bool
    ensures { OnTrue result (event_of octets.now ≡ Ok (report_of Event.Other)) }
{
    let [code, length, parameters @ ..] = octets else {
        return false;
    };
    match *code {
        event_code::DISCONNECTION_COMPLETE
        | event_code::ENCRYPTION_CHANGE
        | event_code::COMMAND_COMPLETE
        | event_code::COMMAND_STATUS
        | event_code::HARDWARE_ERROR
        | event_code::NUMBER_OF_COMPLETED_PACKETS
        | event_code::ENCRYPTION_KEY_REFRESH_COMPLETE
        | event_code::LE_META => false,
        _ => parameters.len() == usize::from(*length),
    }
}

/// Handles an ACL packet, which is ignored if its connection does not serve.
pub(crate) fn acl(
    server: &mut Server,
    frames: &mut Frames,
    handle: u16,
    pb: u8,
    bc: u8,
    octets: &[u8],
)
    requires enough { length server.old.slots ≤ length frames.old.assembled }
    requires of_table { IsOfItsTable server.old }
    ensures after { IsAfter
        (acl_happening server.old handle pb bc octets.now frames.old) server.old server.new }
    ensures frames { frames.new ≡ frames_after_acl server.old handle pb bc octets.now frames.old }
{
    match server.slots.find_serving(handle) {
        Some(place) => {
            frames.arrivals.note_packet(place, server.time);
            fragment(server, &mut frames.assembled[place], place, pb, bc, octets);
        }
        None => server.end_event(LastEvent::Quiet),
    }
}

/// Handles a fragment. A frame that it completes is handled and dropped.
#[tactic(auto, using(crate::proofs::packets::WholeFrames::nothing_left))]
fn fragment(
    server: &mut Server,
    frame: &mut Reassembler,
    place: usize,
    pb: u8,
    bc: u8,
    octets: &[u8],
)
    requires there { IsThere server.old.slots place }
    requires of_table { IsOfItsTable server.old }
    ensures after { IsAfter (fragment_event place (recombination frame.old)
        (fragment_of pb bc octets.now)) server.old server.new }
    ensures left { frame.new ≡ fragment_left (fragment_of pb bc octets.now) frame.old }
{
    if is_whole(pb, bc, octets) {
        // Most frames are whole in one packet and are handled in place. Reading before `clear`
        // computes the length only once.
        let read = read_frame(octets);
        frame.clear();
        return server.handle_frame(place, read);
    }
    join_fragment(server, frame, place, pb, bc, octets);
}

#[inline(never)]
fn join_fragment(
    server: &mut Server,
    frame: &mut Reassembler,
    place: usize,
    pb: u8,
    bc: u8,
    octets: &[u8],
)
    requires there { IsThere server.old.slots place }
    requires of_table { IsOfItsTable server.old }
    ensures after { IsAfter (fragment_event place (recombination frame.old)
        (fragment_of pb bc octets.now)) server.old server.new }
    ensures left { frame.new ≡ fragment_left (fragment_of pb bc octets.now) frame.old }
{
    match join(frame, pb, bc, octets) {
        Piece::Frame => {
            server.frame(place, frame.frame());
            frame.clear();
        }
        Piece::Nothing => server.end_event(LastEvent::Quiet),
    }
}

#[tactic(auto, using(crate::proofs::packets::WholeFrames::gives_frame, crate::proofs::packets::WholeFrames::leaves_nothing))]
fn is_whole(pb: u8, bc: u8, octets: &[u8]) -> bool
    ensures begins { OnTrue result (fragment_of pb bc octets.now ≡ Some (Beginning octets.now)) }
    ensures frame { OnTrue result ((assembled_of octets.now).frame ≡ Some octets.now) }
    ensures left { OnTrue result (once_heard (assembled_of octets.now) ≡ no_assembly) }
{
    bc == 0 && (pb == FIRST || pb == FIRST_NOT_FLUSHED) && is_frame(octets)
}

fn join(frame: &mut Reassembler, pb: u8, bc: u8, octets: &[u8]) -> Piece
    ensures after { frame.new
        ≡ option_map_or (with_fragment frame.old) (fragment_of pb bc octets.now) frame.old }
    ensures given { frame_given result frame.new
        ≡ option_and_then (λ fragment. (with_fragment frame.old fragment).frame)
        (fragment_of pb bc octets.now) }
    ensures whole { result ≡ Piece.Frame → IsSome frame.new.frame }
{
    if bc != 0 {
        return Piece::Nothing;
    }
    match pb {
        FIRST | FIRST_NOT_FLUSHED => frame.start(octets),
        CONTINUATION => frame.more(octets),
        _ => Piece::Nothing,
    }
}

/// Handles a packet, or returns the fault for which the host stops for good.
pub(crate) fn packet(
    server: &mut Server,
    frames: &mut Frames,
    packet: PacketRef<'_>,
) -> Result<(), HostFault>
    requires enough { length server.old.slots ≤ length frames.old.assembled }
    requires of_table { IsOfItsTable server.old }
    requires drained { is_drained server.old.controller (open_slots server.old) ≡ true }
    ensures refines { RefinesPacket (packet_of_ref packet.entry) server.old frames.old server.new
        frames.new
        (result_err result) }
    ensures told { IsOk result
        → TellsOfPacket (packet_of_ref packet.entry) server.old frames.old server.new }
    ensures frames { frames.new
        ≡ frames_after_packet server.old (packet_of_ref packet.entry) frames.old }
    ensures not_own { IfErr result (λ fault. is_own_fault fault ≡ false) }
    ensures unchanged { OnErr result (server.new ≡ server.old) }
{
    take_packet(server, frames, packet)
}

/// Implements `packet`. Separate function: keeps the proof small.
fn take_packet(
    server: &mut Server,
    frames: &mut Frames,
    packet: PacketRef<'_>,
) -> Result<(), HostFault>
    requires enough { length server.old.slots ≤ length frames.old.assembled }
    requires of_table { IsOfItsTable server.old }
    ensures taken { IsOk result
        → TakesPacket (packet_of_ref packet.entry) server.old frames.old server.new frames.new }
    ensures frames { frames.new
        ≡ frames_after_packet server.old (packet_of_ref packet.entry) frames.old }
    ensures stops { IfErr result
        (λ fault. packet_stop (packet_of_ref packet.entry) server.old ≡ Some fault) }
    ensures unchanged { OnErr result (server.new ≡ server.old) }
    ensures frames_unchanged { OnErr result (frames.new ≡ frames.old) }
{
    match packet {
        PacketRef::Acl {
            handle,
            pb,
            bc,
            octets,
        } => {
            acl(server, frames, handle, pb, bc, octets);
            Ok(())
        }
        PacketRef::Event(octets) => server.event(frames, octets),
        PacketRef::Sco => {
            server.end_event(LastEvent::Quiet);
            Ok(())
        }
    }
}
