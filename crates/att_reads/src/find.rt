//! Find requests (Core 5.0, Vol 3 Part F, 3.4.3).

ghost use Rattle.std.specs.Prelude.{◌≡◌, ◌-◌, ◌<◌, ◌≤◌, ◌+◌, ◌*◌, ◌/◌, ◌∷◌, ◌++◌, [], map, filter, length, take, drop, IsSome};
ghost use Rattle.std.specs.List.{list_any};
ghost use Rattle.std.specs.Bool.{OnTrue};
ghost use Rattle.att_numbers.specs.declared.opcode.TheConstants.{FIND_INFORMATION_REQUEST, FIND_INFORMATION_RESPONSE, FIND_BY_TYPE_VALUE_REQUEST};
ghost use Rattle.att_numbers.specs.declared.error_code.TheConstants.{ATTRIBUTE_NOT_FOUND};
ghost use Rattle.att_pdu.specs.PduBuf.{contents, mtu_of, IsSameBuffer, AppendsWhereFits};
ghost use Rattle.att_pdu.specs.declared.pdu_buf.TheConstants.{MAX_MTU};
ghost use Rattle.att_pdu.specs.Response.{OfAttribute, element_octets, sent, ErrorResponse, FindInformationResponse, FindByTypeValueResponse};
ghost use Rattle.att_attributes.specs.Attributes.{attribute_at};
ghost use Rattle.att_reads.specs.Answer.{is_match, with_groups, group_of, information_of, information_format};
ghost use Rattle.att_reads.specs.Listing.{size_of_first, elements_within, with_listed, PutsOver};
ghost use Rattle.att_reads.specs.Refusals.{unless_refused, not_found};

use crate::list::fitting;
use crate::reader::Reader;
use att_numbers::{Refusal, error_code, opcode};
use att_pdu::PduBuf;
use att_table::{Attr, Table, is_of_16_bits};

/// The formats for 16-bit and, below, 128-bit types (Core 5.0, Vol 3 Part F, 3.4.3.2).
const SHORT_TYPES: u8 = 1;

const LONG_TYPES: u8 = 2;

/// Responds to a Find Information Request; needs no permission. The attributes begin at `start`.
pub fn information(attributes: &[Attr], start: u16, out: &mut PduBuf<'_>)
    ensures answer { let types = map information_of attributes.now in
        contents out.new ≡ sent
        (unless_refused FIND_INFORMATION_REQUEST (not_found start types ∷ [])
        (FindInformationResponse (information_format (size_of_first types))
        (elements_within (mtu_of out.old) types))) }
    ensures same_buffer { IsSameBuffer out.old out.new }
{
    let Some(first) = attributes.first() else {
        out.error(Refusal {
            opcode: opcode::FIND_INFORMATION_REQUEST,
            handle: start,
            code: error_code::ATTRIBUTE_NOT_FOUND,
        });
        return;
    };
    // Inlined once per size, so neither copy tests for the other.
    if is_of_16_bits(first.kind) {
        list(attributes, SHORT_TYPES, 4, out);
    } else {
        list(attributes, LONG_TYPES, 18, out);
    }
}

/// Lists attributes up to the first of another size or without space.
#[inline(always)]
fn list(attributes: &[Attr], format: u8, size: usize, out: &mut PduBuf<'_>)
    requires size { 0 < size }
    requires most { size ≤ MAX_MTU }
    ensures listed { contents out.new
        ≡ with_listed (mtu_of out.old) size (FIND_INFORMATION_RESPONSE ∷ format ∷ [])
        (map information_of attributes.now) }
    ensures same_buffer { IsSameBuffer out.old out.new }
{
    let count = fitting(attributes.len(), size as u16, out.mtu() - 2);
    out.resize(2 + size * count);
    let end = put_list(&attributes[..count], format, size, out.octets_mut());
    out.truncate(end);
}

/// Writes opcode, format and attributes up to the first of another size; returns the end.
#[inline(always)]
fn put_list(attributes: &[Attr], format: u8, size: usize, octets: &mut [u8]) -> usize
    requires size { 0 < size }
    requires room { 2 + size * length attributes.now ≤ length octets.old }
    ensures listed { take result octets.new
        ≡ with_listed (length octets.old) size (FIND_INFORMATION_RESPONSE ∷ format ∷ [])
        (map information_of attributes.now) }
    ensures within { result ≤ 2 + size * length attributes.now }
    ensures held { length octets.new ≡ length octets.old }
{
    write(octets, 0, &[opcode::FIND_INFORMATION_RESPONSE, format]);
    put_all(attributes, size, octets)
}

/// Writes the attributes after the header, likewise.
#[inline(always)]
fn put_all(attributes: &[Attr], size: usize, octets: &mut [u8]) -> usize
    requires size { 0 < size }
    requires room { 2 + size * length attributes.now ≤ length octets.old }
    ensures listed { take result octets.new
        ≡ with_listed (length octets.old) size (take 2 octets.old)
        (map information_of attributes.now) }
    ensures within { result ≤ 2 + size * length attributes.now }
    ensures held { length octets.new ≡ length octets.old }
{
    let mut place = 2;
    for attr in attributes {
        if !put_next(attr, size, place, octets) {
            return place;
        }
        place += size;
    }
    place
}

/// Writes an attribute if it has this size.
#[inline(always)]
fn put_next(attr: &Attr, size: usize, place: usize, octets: &mut [u8]) -> bool
    requires { place + size ≤ length octets.old }
    ensures { PutsOver octets.old octets.new place size (information_of attr.now) result }
{
    if is_of_16_bits(attr.kind) {
        if size != 4 {
            return false;
        }
        let [low, high] = attr.handle.to_le_bytes();
        let [kind_low, kind_high] = ((attr.kind >> 96) as u16).to_le_bytes();
        write(octets, place, &[low, high, kind_low, kind_high]);
        return true;
    }
    if size != 18 {
        return false;
    }
    write_pair(octets, place, attr.handle, &attr.kind.to_le_bytes());
    true
}

#[inline(always)]
fn write(octets: &mut [u8], place: usize, more: &[u8])
    requires { place + length more.now ≤ length octets.old }
    ensures front { take (place + length more.now) octets.new
        ≡ take place octets.old ++ more.now }
    ensures held { length octets.new ≡ length octets.old }
{
    octets[place..place + more.len()].copy_from_slice(more);
}

#[inline(always)]
fn write_pair(octets: &mut [u8], place: usize, handle: u16, more: &[u8])
    requires { place + 2 + length more.now ≤ length octets.old }
    ensures front { take (place + 2 + length more.now) octets.new
        ≡ take place octets.old ++ element_octets (OfAttribute handle more.now) }
    ensures held { length octets.new ≡ length octets.old }
{
    write_both(octets, place, &handle.to_le_bytes(), more);
}

#[inline(always)]
fn write_both(octets: &mut [u8], place: usize, first: &[u8], second: &[u8])
    requires { place + length first.now + length second.now ≤ length octets.old }
    ensures { octets.new ≡ take place octets.old ++ first.now ++ second.now
        ++ drop (place + length first.now + length second.now) octets.old }
{
    let middle = place + first.len();
    octets[place..middle].copy_from_slice(first);
    octets[middle..middle + second.len()].copy_from_slice(second);
}

/// Responds to a Find By Type Value Request. `handles` have the requested type.
pub fn by_type_value(
    reader: Reader<'_>,
    handles: &[u16],
    start: u16,
    value: &[u8],
    out: &mut PduBuf<'_>,
)
    ensures answer { let found = filter
        (is_match reader.entry.table.now reader.entry.row.now reader.entry.standing.now value.now)
        handles.now in
        contents out.new ≡ sent
        (unless_refused FIND_BY_TYPE_VALUE_REQUEST (not_found start found ∷ [])
        (FindByTypeValueResponse
        (map (group_of reader.entry.table.now) (take ((mtu_of out.old - 1) / 4) found)))) }
    ensures same_buffer { IsSameBuffer out.old out.new }
{
    out.replace(&[opcode::FIND_BY_TYPE_VALUE_RESPONSE], &[]);
    if !append_matches(reader, handles, value, out) {
        find_none(start, out);
    }
}

/// Reports Attribute Not Found, out of line: saves registers in the loop.
#[inline(never)]
fn find_none(start: u16, out: &mut PduBuf<'_>)
    ensures error { contents out.new
        ≡ sent (ErrorResponse FIND_BY_TYPE_VALUE_REQUEST start ATTRIBUTE_NOT_FOUND) }
    ensures same_buffer { IsSameBuffer out.old out.new }
{
    out.error(Refusal {
        opcode: opcode::FIND_BY_TYPE_VALUE_REQUEST,
        handle: start,
        code: error_code::ATTRIBUTE_NOT_FOUND,
    });
}

/// Appends the groups that match, if they fit; returns true if any matches.
fn append_matches(reader: Reader<'_>, handles: &[u16], value: &[u8], out: &mut PduBuf<'_>) -> bool
    ensures any { result
        ≡ list_any (is_match reader.entry.table.now reader.entry.row.now reader.entry.standing.now
        value.now) handles.now }
    ensures appended { contents out.new
        ≡ with_groups reader.entry.table.now (mtu_of out.old) (contents out.old)
        (filter (is_match reader.entry.table.now reader.entry.row.now reader.entry.standing.now
        value.now) handles.now) }
    ensures same_buffer { IsSameBuffer out.old out.new }
{
    let mut found = false;
    for &handle in handles {
        if is_match(reader, handle, value) {
            found = true;
            if !append_group(reader.table, handle, out) {
                return true;
            }
        }
    }
    found
}

fn append_group(table: &Table, handle: u16, out: &mut PduBuf<'_>) -> bool
    requires { IsSome (attribute_at table.now.attributes handle) }
    ensures { AppendsWhereFits out.old out.new (element_octets (group_of table.now handle)) result }
{
    out.numbers(handle, table.group_end(handle))
}

/// Returns true if the client may read the attribute and its whole value is `value`.
fn is_match(reader: Reader<'_>, handle: u16, value: &[u8]) -> bool
    ensures is { result ≡ is_match reader.entry.table.now reader.entry.row.now
        reader.entry.standing.now value.now handle }
    ensures exists { OnTrue result
        (IsSome (attribute_at reader.entry.table.now.attributes handle)) }
{
    match reader.read(handle) {
        Ok(own) => own == value,
        Err(_) => false,
    }
}
