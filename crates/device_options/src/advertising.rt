//! Advertising data (Core 5.0, Vol 3 Part C, 11, and the Supplement to the Core Specification, Part
//! A).

ghost use Rattle.std.specs.Prelude.{◌≡◌, ◌≤◌, ℕ, length, map, take, None, Some, IfSome};
ghost use Rattle.std.specs.Option.{option_map};
ghost use Rattle.device_options.specs.Advertising.{Advertises, IsNamed, before_name, with_part, with_service, with_services};

use arrayvec::ArrayVec;
use att_table::{is_of_16_bits, read_type, type_octets};
use le_hci::MAX_ADVERTISING_DATA;

/// Advertising data.
pub type Data = ArrayVec<u8, MAX_ADVERTISING_DATA>;

/// Flags for general discovery, without BR/EDR.
const FLAGS: [u8; 3] = [0x02, 0x01, 0x06];

const SERVICES_OF_16_BITS: u8 = 0x03;

const SERVICES_OF_128_BITS: u8 = 0x07;

const SHORTENED_NAME: u8 = 0x08;

const COMPLETE_NAME: u8 = 0x09;

/// Builds flags, service UUIDs, and the name, shortened to what fits.
///
/// Returns `None` if the services do not fit or one of them is no UUID.
pub(crate) fn data(services: &[&str], name: &str) -> Option<Data>
    ensures data { IfSome result
        (λ built. Advertises (map (λ word. word.now) services.now) name.now built.items) }
    ensures none { before_name (map (λ word. word.now) services.now) ≡ None → result ≡ None }
{
    let mut packet = with_services(services)?;
    add_name(&mut packet, name)?;
    Some(packet)
}

/// Returns the flags and the services.
fn with_services(words: &[&str]) -> Option<Data>
    ensures { option_map (λ built. built.items) result
        ≡ before_name (map (λ word. word.now) words.now) }
{
    let mut short = Data::new();
    let mut long = Data::new();
    add_services(words, &mut short, &mut long)?;
    let mut packet = ArrayVec::new();
    packet.try_extend_from_slice(&FLAGS).ok()?;
    add_part(&mut packet, SERVICES_OF_16_BITS, short.as_slice())?;
    add_part(&mut packet, SERVICES_OF_128_BITS, long.as_slice())?;
    Some(packet)
}

/// Adds the UUIDs of services, those of 16 bits and those of 128 bits.
fn add_services(words: &[&str], short: &mut Data, long: &mut Data) -> Option<()>
    ensures added { IfSome result (λ _. with_services
        (record { short = short.old.items; long = long.old.items })
        (map (λ word. word.now) words.now)
        ≡ Some (record { short = short.new.items; long = long.new.items })) }
    ensures none { result ≡ None → with_services
        (record { short = short.old.items; long = long.old.items })
        (map (λ word. word.now) words.now)
        ≡ None }
{
    for word in words {
        add_service(read_type(word)?, short, long)?;
    }
    Some(())
}

fn add_service(kind: u128, short: &mut Data, long: &mut Data) -> Option<()>
    ensures added { IfSome result (λ _. with_service
        (record { short = short.old.items; long = long.old.items }) kind
        ≡ Some (record { short = short.new.items; long = long.new.items })) }
    ensures none { result ≡ None → with_service
        (record { short = short.old.items; long = long.old.items }) kind ≡ None }
{
    let octets = type_octets(kind);
    if is_of_16_bits(kind) {
        short.try_extend_from_slice(octets.as_slice()).ok()
    } else {
        long.try_extend_from_slice(octets.as_slice()).ok()
    }
}

/// Adds a part, or nothing if it has no data.
fn add_part(packet: &mut Data, kind: u8, octets: &[u8]) -> Option<()>
    ensures added { IfSome result
        (λ _. with_part packet.old.items kind octets.now ≡ Some packet.new.items) }
    ensures none { result ≡ None → with_part packet.old.items kind octets.now ≡ None }
{
    if octets.is_empty() {
        return Some(());
    }
    if octets.len() + 2 > packet.remaining_capacity() {
        return None;
    }
    packet.push(octets.len() as u8 + 1);
    packet.push(kind);
    packet.try_extend_from_slice(octets).ok()
}

/// Adds a name, or the prefix that fits, cut between two characters.
fn add_name(packet: &mut Data, name: &str) -> Option<()>
    ensures { IfSome result (λ _. IsNamed name.now packet.old.items packet.new.items) }
{
    let room = packet.remaining_capacity().saturating_sub(2);
    if name.len() <= room {
        add_part(packet, COMPLETE_NAME, name.as_bytes())
    } else {
        add_part(packet, SHORTENED_NAME, front_of(name, room))
    }
}

/// Returns the longest prefix of at most `room` octets that ends between two characters.
fn front_of(name: &str, room: usize) -> &[u8]
    requires { room ≤ length name.now }
    ensures { (front : ℕ) × (result.now ≡ take front name.now) }
{
    let mut front = room;
    while front > 0 && name.get(..front).is_none() {
        front -= 1;
    }
    &name.as_bytes()[..front]
}
