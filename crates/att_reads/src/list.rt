//! Responses that list values of one type and length (Core 5.0, Vol 3 Part F, 3.4.4.1, 3.4.4.2,
//! 3.4.4.9 and 3.4.4.10).

ghost use Rattle.std.specs.Prelude.{◌≡◌, ◌+◌, ◌*◌, ◌/◌, ◌≤◌, ◌<◌, ◌∷◌, ◌++◌, min, map, length, take, IsSome};
ghost use Rattle.att_pdu.specs.PduBuf.{contents, mtu_of, IsSameBuffer};
ghost use Rattle.att_pdu.specs.Response.{element_octets, sent};
ghost use Rattle.att_pdu.specs.declared.pdu_buf.TheConstants.{MIN_MTU};
ghost use Rattle.att_attributes.specs.Attributes.{attribute_at};
ghost use Rattle.att_reads.specs.List.{listing_request, head_of, cut_of, element_of, candidate_of, list_answer};
ghost use Rattle.att_reads.specs.Listing.{with_listed, PutsNext};

use crate::reader::Reader;
use att_numbers::{Refusal, error_code, opcode};
use att_pdu::PduBuf;
use att_table::Table;

/// The largest element of a list, because one octet has its length (Core 5.0, Vol 3 Part F, 3.4.4.2
/// and 3.4.4.10).
pub const MAX_ELEMENT: u16 = 255;

/// The content of a list.
#[derive(Clone, Copy)]
pub enum Listing {
    /// Attributes, as handle and value.
    Values,
    /// Groups, as first handle, last handle and value.
    Groups,
}

impl Listing {
    fn request(self) -> u8
        ensures { result ≡ listing_request self }
    {
        match self {
            Listing::Values => opcode::READ_BY_TYPE_REQUEST,
            Listing::Groups => opcode::READ_BY_GROUP_TYPE_REQUEST,
        }
    }

    /// Returns the octets before each value.
    fn head(self) -> u16
        ensures { result ≡ head_of self }
    {
        match self {
            Listing::Values => 2,
            Listing::Groups => 4,
        }
    }

    /// Returns how many octets of a value are listed at an ATT_MTU.
    #[inline(always)]
    fn cut(self, mtu: u16) -> usize
        requires { MIN_MTU ≤ mtu }
        ensures { result ≡ cut_of self mtu }
    {
        usize::from(mtu.min(2 + MAX_ELEMENT)) - usize::from(2 + self.head())
    }

    /// Overwrites the PDU from `place` on with an element.
    #[inline(always)]
    fn put(self, table: &Table, handle: u16, front: &[u8], place: usize, out: &mut PduBuf<'_>)
        requires exists { IsSome (attribute_at table.now.attributes handle) }
        requires room { place + (head_of self + length front.now) ≤ length (contents out.old) }
        ensures put { take (place + (head_of self + length front.now)) (contents out.new)
            ≡ take place (contents out.old)
            ++ element_octets (element_of self table.now handle front.now) }
        ensures size { length (contents out.new) ≡ length (contents out.old) }
        ensures same_buffer { IsSameBuffer out.old out.new }
    {
        match self {
            Listing::Values => out.put_pair(place, handle, front),
            Listing::Groups => {
                let [low, high] = handle.to_le_bytes();
                let [end_low, end_high] = table.group_end(handle).to_le_bytes();
                out.put_both(place, &[low, high, end_low, end_high], front);
            }
        }
    }
}

/// Returns how many of `count` elements fit into `room` octets.
pub(crate) fn fitting(count: usize, size: u16, room: u16) -> usize
    requires { 0 < size }
    ensures count { result ≡ min count (room / size) }
    ensures fits { size * result ≤ room }
{
    count.min(usize::from(room / size))
}

/// Lists the attributes at `handles`, which have the requested type.
#[inline(always)]
pub fn answer(
    listing: Listing,
    reader: Reader<'_>,
    handles: &[u16],
    start: u16,
    out: &mut PduBuf<'_>,
)
    ensures answer { contents out.new ≡ sent
        (list_answer listing reader.entry.table.now reader.entry.row.now reader.entry.standing.now
        (mtu_of out.old) start handles.now) }
    ensures same_buffer { IsSameBuffer out.old out.new }
{
    let [first, rest @ ..] = handles else {
        out.error(Refusal {
            opcode: listing.request(),
            handle: start,
            code: error_code::ATTRIBUTE_NOT_FOUND,
        });
        return;
    };
    match reader.read(*first) {
        Ok(value) => {
            let cut = listing.cut(out.mtu());
            let front = front(value, cut);
            let size = usize::from(listing.head()) + front.len();
            let more = fitting(rest.len(), size as u16, out.mtu() - (2 + size) as u16);
            out.resize(2 + size + size * more);
            begin(listing, reader.table, *first, front, out);
            put_all(listing, reader, &rest[..more], cut, size, out);
        }
        Err(code) => out.error(Refusal {
            opcode: listing.request(),
            handle: *first,
            code,
        }),
    }
}

#[inline(always)]
fn front(value: &[u8], most: usize) -> &[u8]
    ensures { result.now ≡ take most value.now }
{
    &value[..value.len().min(most)]
}

/// Writes the opcode, the element size and the first element.
#[inline(always)]
fn begin(listing: Listing, table: &Table, handle: u16, front: &[u8], out: &mut PduBuf<'_>)
    requires exists { IsSome (attribute_at table.now.attributes handle) }
    requires cut { length front.now ≤ cut_of listing (mtu_of out.old) }
    requires room { 2 + (head_of listing + length front.now) ≤ length (contents out.old) }
    ensures begun { take (2 + (head_of listing + length front.now)) (contents out.new)
        ≡ (listing_request listing + 1) ∷ (head_of listing + length front.now)
        ∷ element_octets
        (element_of listing table.now handle front.now) }
    ensures size { length (contents out.new) ≡ length (contents out.old) }
    ensures same_buffer { IsSameBuffer out.old out.new }
{
    let size = (usize::from(listing.head()) + front.len()) as u8;
    let [low, high] = handle.to_le_bytes();
    match listing {
        Listing::Values => {
            out.put_both(0, &[opcode::READ_BY_TYPE_RESPONSE, size, low, high], front);
        }
        Listing::Groups => {
            let [end_low, end_high] = table.group_end(handle).to_le_bytes();
            let head = [
                opcode::READ_BY_GROUP_TYPE_RESPONSE,
                size,
                low,
                high,
                end_low,
                end_high,
            ];
            out.put_both(0, &head, front);
        }
    }
}

/// Writes the other elements.
///
/// Ends the PDU before the first that is not permitted or has another size.
#[inline(always)]
fn put_all(
    listing: Listing,
    reader: Reader<'_>,
    handles: &[u16],
    cut: usize,
    size: usize,
    out: &mut PduBuf<'_>,
)
    requires cut { cut ≡ cut_of listing (mtu_of out.old) }
    requires size { 0 < size }
    requires room { 2 + size + size * length handles.now ≡ length (contents out.old) }
    ensures listed { contents out.new
        ≡ with_listed (mtu_of out.old) size (take (2 + size) (contents out.old))
        (map (candidate_of listing reader.entry.table.now reader.entry.row.now
        reader.entry.standing.now (mtu_of out.old)) handles.now) }
    ensures same_buffer { IsSameBuffer out.old out.new }
{
    let mut place = 2 + size;
    for &handle in handles {
        if !put_next(listing, reader, handle, cut, size, place, out) {
            out.truncate(place);
            return;
        }
        place += size;
    }
}

/// Writes an element if it is permitted and has this size.
#[inline(always)]
fn put_next(
    listing: Listing,
    reader: Reader<'_>,
    handle: u16,
    cut: usize,
    size: usize,
    place: usize,
    out: &mut PduBuf<'_>,
) -> bool
    requires cut { cut ≡ cut_of listing (mtu_of out.old) }
    requires room { place + size ≤ length (contents out.old) }
    ensures { PutsNext out.old out.new place size
        (candidate_of listing reader.entry.table.now reader.entry.row.now reader.entry.standing.now
        (mtu_of out.old) handle) result }
{
    let Ok(value) = reader.read(handle) else {
        return false;
    };
    let front = front(value, cut);
    let is_listed = usize::from(listing.head()) + front.len() == size;
    if is_listed {
        listing.put(reader.table, handle, front, place, out);
    }
    is_listed
}
