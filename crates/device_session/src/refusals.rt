//! The refusals of rights that a device sends to its clients, counted for its log.

ghost use Rattle.std.specs.Prelude.{◌≡◌, [], filter, length};
ghost use Rattle.device_session.specs.Refusals.{after_refusal, asks_to_write, count_of_kind, counts_kind, current_tallies, ended_tallies, has_tally, is_att_data, is_code_of_rights, is_current, is_first_refusal, is_same_kind, is_same_refusal, is_tally_of, kind_of_refusal, may_have_tally, plus_tally, refusal_by, right_refused_by, refused_connection, with_one_more, without_kind, CountsEach, LogsFirstOnce};

use app_lines::Names;
use arrayvec::ArrayVec;
use att_numbers::{error_code, opcode};
use le_h4::indicator;

/// The octets of ACL data with an Error Response, and of the PDU itself.
const DATA_SIZE: u16 = 9;

const PDU_SIZE: u16 = 5;

/// The channel of the Attribute Protocol.
const ATT_CHANNEL: u16 = 4;

/// The most refusals of one connection that are counted one by one.
const MOST_KINDS: usize = 64;

/// The most tallies: of the connections before a turn, of those after it, and of those that began
/// and ended in it. Each may have one more, of the refusals beyond `MOST_KINDS`.
pub(crate) const MOST_TALLIES: usize = 17 * 65;

/// A refusal of a right.
#[derive(Clone, Copy, Default)]
pub struct Refusal {
    /// Set if the client asked to write, else it asked to read.
    pub is_write: bool,
    pub attribute: u16,
    /// The error code of the Attribute Protocol.
    pub code: u8,
}

impl Refusal {
    fn is(&self, other: &Refusal) -> bool
        ensures { result ≡ is_same_refusal self.now other.now }
    {
        let is_same_operation = if self.is_write {
            other.is_write
        } else {
            !other.is_write
        };
        is_same_operation && self.attribute == other.attribute && self.code == other.code
    }
}

/// A refusal and the HCI handle of its connection.
#[derive(Clone, Copy)]
pub struct SentRefusal {
    pub handle: u16,
    pub refusal: Refusal,
}

impl SentRefusal {
    /// Returns the refusal that an H4 packet of a host is, if it is one.
    pub fn of(packet: &[u8]) -> Option<SentRefusal>
        ensures { result ≡ right_refused_by packet.now }
    {
        let [
            indicator,
            low,
            high,
            size_low,
            size_high,
            pdu_low,
            pdu_high,
            channel_low,
            channel_high,
            pdu @ ..,
        ] = packet
        else {
            return None;
        };
        let size = u16::from_le_bytes([*size_low, *size_high]);
        let pdu_size = u16::from_le_bytes([*pdu_low, *pdu_high]);
        let channel = u16::from_le_bytes([*channel_low, *channel_high]);
        if !is_att_data(*indicator, size, pdu_size, channel) {
            return None;
        }
        let refusal = refusal_by(pdu)?;
        Some(SentRefusal {
            handle: u16::from_le_bytes([*low, *high]) & 0x0FFF,
            refusal,
        })
    }
}

fn is_att_data(indicator: u8, size: u16, pdu: u16, channel: u16) -> bool
    ensures { result ≡ is_att_data indicator size pdu channel }
{
    indicator == indicator::ACL && size == DATA_SIZE && pdu == PDU_SIZE && channel == ATT_CHANNEL
}

/// Returns the refusal that a PDU of the Attribute Protocol is, if it is one.
fn refusal_by(pdu: &[u8]) -> Option<Refusal>
    ensures { result ≡ refusal_by pdu.now }
{
    let [opcode, request, attribute_low, attribute_high, code] = pdu else {
        return None;
    };
    if *opcode != opcode::ERROR_RESPONSE || !is_code_of_rights(*code) {
        return None;
    }
    Some(Refusal {
        is_write: asks_to_write(*request),
        attribute: u16::from_le_bytes([*attribute_low, *attribute_high]),
        code: *code,
    })
}

fn is_code_of_rights(code: u8) -> bool
    ensures { result ≡ is_code_of_rights code }
{
    code == error_code::READ_NOT_PERMITTED
        || code == error_code::WRITE_NOT_PERMITTED
        || code == error_code::INSUFFICIENT_AUTHENTICATION
        || code == error_code::INSUFFICIENT_AUTHORIZATION
        || code == error_code::INSUFFICIENT_ENCRYPTION_KEY_SIZE
        || code == error_code::INSUFFICIENT_ENCRYPTION
}

fn asks_to_write(request: u8) -> bool
    ensures { result ≡ asks_to_write request }
{
    request == opcode::WRITE_REQUEST
        || request == opcode::PREPARE_WRITE_REQUEST
        || request == opcode::EXECUTE_WRITE_REQUEST
}

/// The number of refusals of one kind to a connection.
#[derive(Clone, Copy, Default)]
pub(crate) struct Tally {
    /// The name of the connection.
    pub(crate) connection: u64,
    /// `None` for all refusals beyond those that are counted one by one.
    pub(crate) refusal: Option<Refusal>,
    pub(crate) count: u64,
}

impl Tally {
    fn counts(&self, connection: u64, kind: Option<Refusal>) -> bool
        ensures { result ≡ counts_kind connection kind self.now }
    {
        self.connection == connection && is_same_kind(self.refusal, kind)
    }

    fn is_current(&self, names: &Names) -> bool
        ensures { result ≡ is_current names.now.named self.now }
    {
        names.handle_of(self.connection).is_some()
    }
}

fn is_same_kind(one: Option<Refusal>, other: Option<Refusal>) -> bool
    ensures { result ≡ is_same_kind one other }
{
    match (one, other) {
        (Some(one), Some(other)) => one.is(&other),
        (None, None) => true,
        _ => false,
    }
}

/// The refusals to the connections that have not ended, or whose end is not logged yet.
#[derive(Drop)]
pub(crate) struct Refusals {
    tallies: ArrayVec<Tally, MOST_TALLIES>,
    /// The names of the connections before the turn.
    before: Names,
}

impl Refusals {
    pub(crate) fn none() -> Refusals
        ensures none { result.tallies.items ≡ [] }
        // After any refusals and ends of connections:
        ensures once { LogsFirstOnce }
        ensures counts { CountsEach }
    {
        Refusals {
            tallies: ArrayVec::new(),
            before: Names::new(),
        }
    }

    pub(crate) fn is_none(&self) -> bool {
        self.tallies.is_empty()
    }

    /// Returns the name of a connection in the turn: 0 if it both began and ended in it.
    pub(crate) fn name_of(&self, handle: u16, names: &Names) -> u64
        ensures { result ≡ refused_connection handle names.now.named self.now.before.named }
    {
        match names.name_of(handle) {
            Some(name) => name,
            None => self.before.name_of(handle).unwrap_or(0),
        }
    }

    /// Counts a refusal to a connection. Returns true if it is logged, as the first of its kind.
    pub(crate) fn note(&mut self, connection: u64, refusal: Refusal) -> bool
        ensures first { result ≡ is_first_refusal connection refusal self.old.tallies.items }
        ensures counted { self.new.tallies.items
            ≡ after_refusal connection refusal self.old.tallies.items }
        ensures before { self.new.before ≡ self.old.before }
    {
        let is_first = is_first_refusal(&self.tallies, connection, refusal);
        let kind = kind_of_refusal(&self.tallies, connection, refusal);
        add_one(&mut self.tallies, connection, kind);
        is_first
    }

    /// Ends a turn: removes the tallies of the connections that have ended, and returns them.
    pub(crate) fn take_ended(&mut self, names: &Names) -> ArrayVec<Tally, MOST_TALLIES>
        ensures ended { result.items ≡ ended_tallies names.now.named self.old.tallies.items }
        ensures current { self.new.tallies.items
            ≡ current_tallies names.now.named self.old.tallies.items }
        ensures before { self.new.before ≡ names.now }
    {
        self.before = names.copy();
        let mut ended = ArrayVec::new();
        ended
            .try_extend_from_slice(self.tallies.as_slice())
            .unwrap();
        retain_ended(&mut ended, names);
        retain_current(&mut self.tallies, names);
        ended
    }
}

fn retain_current(tallies: &mut ArrayVec<Tally, MOST_TALLIES>, names: &Names)
    ensures { tallies.new.items ≡ current_tallies names.now.named tallies.old.items }
{
    tallies.retain(|tally| tally.is_current(names));
}

fn retain_ended(tallies: &mut ArrayVec<Tally, MOST_TALLIES>, names: &Names)
    ensures { tallies.new.items ≡ ended_tallies names.now.named tallies.old.items }
{
    tallies.retain(|tally| !tally.is_current(names));
}

fn is_first_refusal(
    tallies: &ArrayVec<Tally, MOST_TALLIES>,
    connection: u64,
    refusal: Refusal,
) -> bool
    ensures { result ≡ is_first_refusal connection refusal tallies.now.items }
{
    !has_tally(tallies.as_slice(), connection, Some(refusal))
        && may_have_tally(tallies.as_slice(), connection)
}

/// Returns the kind that counts a refusal: its own one, or that of all others.
fn kind_of_refusal(
    tallies: &ArrayVec<Tally, MOST_TALLIES>,
    connection: u64,
    refusal: Refusal,
) -> Option<Refusal>
    ensures { result ≡ kind_of_refusal connection refusal tallies.now.items }
{
    if has_tally(tallies.as_slice(), connection, Some(refusal))
        || may_have_tally(tallies.as_slice(), connection)
    {
        Some(refusal)
    } else {
        None
    }
}

fn has_tally(tallies: &[Tally], connection: u64, kind: Option<Refusal>) -> bool
    ensures { result ≡ has_tally connection kind tallies.now }
{
    tallies.iter().any(|tally| tally.counts(connection, kind))
}

fn may_have_tally(tallies: &[Tally], connection: u64) -> bool
    ensures { result ≡ may_have_tally connection tallies.now }
{
    count_tallies(tallies, connection) < MOST_KINDS && tallies.len() < MOST_TALLIES
}

fn count_tallies(tallies: &[Tally], connection: u64) -> usize
    ensures { result ≡ length (filter (is_tally_of connection) tallies.now) }
{
    tallies
        .iter()
        .filter(|tally| tally.connection == connection)
        .count()
}

fn count_of_kind(tallies: &[Tally], connection: u64, kind: Option<Refusal>) -> u64
    ensures { result ≡ count_of_kind connection kind tallies.now }
{
    let mut count = 0;
    for tally in tallies {
        count = plus_tally(count, tally, connection, kind);
    }
    count
}

fn plus_tally(count: u64, tally: &Tally, connection: u64, kind: Option<Refusal>) -> u64
    ensures { result ≡ plus_tally connection kind count tally.now }
{
    if tally.counts(connection, kind) {
        count.saturating_add(tally.count)
    } else {
        count
    }
}

/// Counts one more refusal of a kind.
fn add_one(tallies: &mut ArrayVec<Tally, MOST_TALLIES>, connection: u64, kind: Option<Refusal>)
    ensures { tallies.new.items ≡ with_one_more connection kind tallies.old.items }
{
    let count = count_of_kind(tallies.as_slice(), connection, kind).saturating_add(1);
    without_kind(tallies, connection, kind);
    if tallies.len() < MOST_TALLIES {
        tallies.push(Tally {
            connection,
            refusal: kind,
            count,
        });
    }
}

fn without_kind(tallies: &mut ArrayVec<Tally, MOST_TALLIES>, connection: u64, kind: Option<Refusal>)
    ensures { tallies.new.items ≡ without_kind connection kind tallies.old.items }
{
    tallies.retain(|tally| !tally.counts(connection, kind));
}
