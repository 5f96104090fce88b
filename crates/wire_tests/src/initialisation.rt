//! A whole initialisation, from stream to stream.

ghost use Rattle.std.specs.Prelude.{◌<◌, ◌↔◌, IsSome, IsTrue};
ghost use Rattle.le_hci.specs.Init.{command_awaited};

use super::cases::assert_case;
use arrayvec::ArrayVec;
use le_h4::{Deframer, PacketRef};
use le_hci::{Command, Event, Init, Peer, RANDOM_ADDRESS, read_event};
use std::process::Abort;

const RESET: [u8; 4] = [0x01, 0x03, 0x0C, 0x00];

/// A packet of the controller, and the packet of the host in response, if any.
type Exchange = (&'static [u8], &'static [u8]);

const UP_TO_SIZING: &[Exchange] = &[
    (
        &[0x04, 0x0E, 0x04, 0x01, 0x03, 0x0C, 0x00],
        &[
            0x01, 0x01, 0x0C, 0x08, 0xFF, 0xFF, 0xFF, 0xFF, 0xFF, 0x9F, 0x00, 0x20,
        ],
    ),
    (
        &[0x04, 0x0E, 0x04, 0x01, 0x01, 0x0C, 0x00],
        &[
            0x01, 0x01, 0x20, 0x08, 0x1F, 0x00, 0x00, 0x00, 0x00, 0x00, 0x00, 0x00,
        ],
    ),
    (
        &[0x04, 0x0E, 0x04, 0x01, 0x01, 0x20, 0x00],
        &[0x01, 0x02, 0x20, 0x00],
    ),
];

const WITH_A_PUBLIC_ADDRESS: &[Exchange] = &[(
    &[0x04, 0x0E, 0x07, 0x01, 0x02, 0x20, 0x00, 0x1B, 0x00, 0x04],
    &[
        0x01, 0x06, 0x20, 0x0F, 0xA0, 0x00, 0xA0, 0x00, 0x00, 0x00, 0x00, 0x00, 0x00, 0x00, 0x00,
        0x00, 0x00, 0x07, 0x00,
    ],
)];

const WITH_SHARED_BUFFERS_AND_A_RANDOM_ADDRESS: &[Exchange] = &[
    (
        &[0x04, 0x0E, 0x07, 0x01, 0x02, 0x20, 0x00, 0x00, 0x00, 0x00],
        &[0x01, 0x05, 0x10, 0x00],
    ),
    (
        &[
            0x04, 0x0E, 0x0B, 0x01, 0x05, 0x10, 0x00, 0xFB, 0x00, 0x40, 0x08, 0x01, 0x02, 0x00,
        ],
        &[0x01, 0x05, 0x20, 0x06, 0x0A, 0x00, 0x00, 0x00, 0x00, 0xC0],
    ),
    (
        &[0x04, 0x0E, 0x04, 0x01, 0x05, 0x20, 0x00],
        &[
            0x01, 0x06, 0x20, 0x0F, 0xA0, 0x00, 0xA0, 0x00, 0x00, 0x01, 0x00, 0x00, 0x00, 0x00,
            0x00, 0x00, 0x00, 0x07, 0x00,
        ],
    ),
];

/// After the connection the host advertises again.
const ADVERTISING_AND_A_CONNECTION: &[Exchange] = &[
    (
        &[0x04, 0x0E, 0x04, 0x01, 0x06, 0x20, 0x00],
        &[
            0x01, 0x08, 0x20, 0x20, 0x03, 0x02, 0x01, 0x06, 0x00, 0x00, 0x00, 0x00, 0x00, 0x00,
            0x00, 0x00, 0x00, 0x00, 0x00, 0x00, 0x00, 0x00, 0x00, 0x00, 0x00, 0x00, 0x00, 0x00,
            0x00, 0x00, 0x00, 0x00, 0x00, 0x00, 0x00, 0x00,
        ],
    ),
    (
        &[0x04, 0x0E, 0x04, 0x01, 0x08, 0x20, 0x00],
        &[0x01, 0x0A, 0x20, 0x01, 0x01],
    ),
    (&[0x04, 0x0E, 0x04, 0x01, 0x0A, 0x20, 0x00], &[]),
    (
        &[
            0x04, 0x3E, 0x13, 0x01, 0x00, 0x40, 0x00, 0x01, 0x01, 0x0A, 0x00, 0x00, 0x00, 0x00,
            0xC0, 0x18, 0x00, 0x00, 0x00, 0x48, 0x00, 0x00,
        ],
        &[0x01, 0x0A, 0x20, 0x01, 0x01],
    ),
];

const RANDOM: [u8; 6] = [0x0A, 0x00, 0x00, 0x00, 0x00, 0xC0];

/// Returns advertising data: general discoverable mode, LE only.
fn advertising() -> ArrayVec<u8, 31> {
    let mut advertising = ArrayVec::new();
    advertising.push(0x02);
    advertising.push(0x01);
    advertising.push(0x06);
    advertising
}

fn write(command: &Command<'_>, written: &mut ArrayVec<u8, 260>) {
    let mut octets = ArrayVec::new();
    le_hci::write_command(command, &mut octets);
    le_h4::write_command(octets.as_slice(), written);
}

fn write_next(init: &Init, written: &mut ArrayVec<u8, 260>) {
    if let Some(command) = init.command() {
        write(&command, written);
    }
}

fn assert_awaits(rt: &impl Abort, init: &Init, opcode: u16)
    ensures awaiting { IsSome (command_awaited init.now) }
{
    let Some(awaited) = init.command() else {
        panic!(rt; "nothing is awaited");
    };
    assert!(rt; awaited.opcode() == opcode);
}

fn complete(rt: &impl Abort, init: Init, opcode: u16, parameters: &[u8]) -> Init {
    assert_awaits(rt, &init, opcode);
    match init.complete(parameters) {
        Ok(next) => next,
        Err(_) => panic!(rt; "the command is not completed"),
    }
}

fn follow(
    rt: &impl Abort,
    init: Init,
    packet: PacketRef<'_>,
    written: &mut ArrayVec<u8, 260>,
) -> Init {
    if let Some((opcode, parameters)) = completion_in(rt, packet) {
        let next = complete(rt, init, opcode, parameters);
        write_next(&next, written);
        next
    } else {
        write(&Command::LeSetAdvertiseEnable, written);
        init
    }
}

/// Returns `None` for the connection.
fn completion_in<'a>(rt: &impl Abort, packet: PacketRef<'a>) -> Option<(u16, &'a [u8])> {
    match event_in(packet) {
        Some(
            Event::CommandComplete {
                opcode,
                parameters,
                ..
            },
        ) => Some((opcode, parameters)),
        Some(
            Event::ConnectionComplete {
                handle: 0x0040,
                peer: Peer {
                    kind: RANDOM_ADDRESS,
                    ..
                },
                ..
            },
        ) => None,
        _ => panic!(rt; "neither a completion nor the connection"),
    }
}

fn event_in(packet: PacketRef<'_>) -> Option<Event<'_>> {
    match packet {
        PacketRef::Event(octets) => read_event(octets).ok(),
        _ => None,
    }
}

fn ends_packet(rt: &impl Abort, deframer: &mut Deframer, piece: &[u8]) -> bool
    ensures { IsTrue result ↔ IsSome deframer.new.marked }
{
    match deframer.feed(piece) {
        Ok(fed) if fed.used == piece.len() => fed.packet,
        _ => panic!(rt; "not all of {piece:?} is taken"),
    }
}

fn take(
    rt: &impl Abort,
    deframer: &mut Deframer,
    init: Init,
    piece: &[u8],
    written: &mut ArrayVec<u8, 260>,
) -> Init {
    if ends_packet(rt, deframer, piece) {
        follow(rt, init, deframer.packet(), written)
    } else {
        init
    }
}

fn take_all(
    rt: &impl Abort,
    deframer: &mut Deframer,
    first: Init,
    size: usize,
    packet: &[u8],
    written: &mut ArrayVec<u8, 260>,
) -> Init
    requires { 0 < size }
{
    let mut init = first;
    for piece in packet.chunks(size) {
        init = take(rt, deframer, init, piece, written);
    }
    init
}

/// Feeds a packet in pieces of at most `size` octets, and checks the response.
fn exchange(
    rt: &impl Abort,
    deframer: &mut Deframer,
    init: Init,
    size: usize,
    packet: &[u8],
    wanted: &[u8],
) -> Init
    requires { 0 < size }
{
    let mut written = ArrayVec::new();
    let next = take_all(rt, deframer, init, size, packet, &mut written);
    assert_case(rt, written.as_slice() == wanted, packet);
    next
}

fn exchange_all(rt: &impl Abort, first: Init, size: usize, exchanges: &[Exchange]) -> Init
    requires { 0 < size }
{
    let mut deframer = Deframer::new();
    let mut init = first;
    for (packet, wanted) in exchanges {
        init = exchange(rt, &mut deframer, init, size, packet, wanted);
    }
    init
}

fn assert_first(rt: &impl Abort, init: &Init) {
    let mut written = ArrayVec::new();
    write_next(init, &mut written);
    assert!(rt; written.as_slice() == RESET.as_slice());
}

fn is_ready(init: &Init, wanted: (u16, u16)) -> bool {
    match init {
        Init::Ready { length, packets } => (*length, *packets) == wanted,
        _ => false,
    }
}

/// Length and number of the packets that the controller has space for.
fn initialise(
    rt: &impl Abort,
    address: Option<[u8; 6]>,
    size: usize,
    exchanges: &[Exchange],
    wanted: (u16, u16),
)
    requires { 0 < size }
{
    let first = Init::new(address, advertising());
    assert_first(rt, &first);
    let sizing = exchange_all(rt, first, size, UP_TO_SIZING);
    let advertising = exchange_all(rt, sizing, size, exchanges);
    let last = exchange_all(rt, advertising, size, ADVERTISING_AND_A_CONNECTION);
    assert!(rt; is_ready(&last, wanted));
}

#[test]
fn with_a_public_address(rt: HostRuntime) {
    initialise(&rt, None, 64, WITH_A_PUBLIC_ADDRESS, (27, 4));
    initialise(&rt, None, 1, WITH_A_PUBLIC_ADDRESS, (27, 4));
}

#[test]
fn with_shared_buffers_and_a_random_address(rt: HostRuntime) {
    let exchanges = WITH_SHARED_BUFFERS_AND_A_RANDOM_ADDRESS;
    initialise(&rt, Some(RANDOM), 64, exchanges, (251, 264));
    initialise(&rt, Some(RANDOM), 1, exchanges, (251, 264));
}
