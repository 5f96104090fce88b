ghost use Rattle.std.specs.Prelude.{◌≡◌, ◌-◌, ◌≤◌, ◌++◌, length, slice_get, IfSome};
ghost use Rattle.le_h4.specs.Progress.{progress_of, data_progress, short_progress, LacksAtMost, acl_size, short_size, stated_size, IsSizeOf};

use crate::indicator;
use crate::write::HEADER;

/// Maximum octets of data of an ACL packet. Longer packets are skipped.
pub const MAX_ACL_DATA: usize = 1_024;

/// Maximum octets of a packet that is not skipped.
pub const MAX_PACKET_IN: usize = HEADER + MAX_ACL_DATA;

/// Progress of a packet, of which some octets are there.
#[derive(Clone, Copy, PartialEq, Eq)]
pub(crate) enum Progress {
    /// Minimum number of missing octets.
    Lacks(usize),
    /// Complete packet.
    Whole,
    /// Number of missing octets of a packet that is too long.
    Long(usize),
    /// Indicator that no packet has.
    Desync(u8),
}

/// Returns the progress of a packet, from its indicator on.
pub(crate) fn progress_at(octets: &[u8]) -> Progress
    requires { length octets.now ≤ MAX_PACKET_IN }
    ensures exact { result ≡ progress_of octets.now }
    ensures fits { LacksAtMost (MAX_PACKET_IN - length octets.now) result }
{
    let [indicator, rest @ ..] = octets else {
        return Progress::Lacks(1);
    };
    match *indicator {
        indicator::ACL => match rest {
            [_, _, low, high, data @ ..] => {
                with_data(usize::from(u16::from_le_bytes([*low, *high])), data.len())
            }
            header => Progress::Lacks(4 - header.len()),
        },
        indicator::SCO => match rest {
            [_, _, size, data @ ..] => with_short_data(usize::from(*size), data.len()),
            header => Progress::Lacks(3 - header.len()),
        },
        indicator::EVENT => match rest {
            [_, size, parameters @ ..] => with_short_data(usize::from(*size), parameters.len()),
            header => Progress::Lacks(2 - header.len()),
        },
        other => Progress::Desync(other),
    }
}

/// Returns the size of the packet in `first` followed by `second`. Without the complete header it
/// is the size of the header. Returns `None` if no packet begins so, or if it is too long.
#[inline(always)]
pub(crate) fn known_size(first: &[u8], second: &[u8]) -> Option<usize>
    ensures { IfSome result (IsSizeOf (first.now ++ second.now)) }
{
    let size = stated_size(first, second)?;
    if size < MAX_PACKET_IN {
        Some(size + 1)
    } else {
        None
    }
}

#[inline(always)]
fn stated_size(first: &[u8], second: &[u8]) -> Option<usize>
    ensures { result ≡ stated_size (first.now ++ second.now) }
{
    match octet_at(first, second, 0)? {
        indicator::ACL => Some(acl_size(octet_at(first, second, 3), octet_at(first, second, 4))),
        indicator::SCO => Some(short_size(3, octet_at(first, second, 3))),
        indicator::EVENT => Some(short_size(2, octet_at(first, second, 2))),
        _ => None,
    }
}

#[inline(always)]
fn acl_size(low: Option<u8>, high: Option<u8>) -> usize
    ensures { result ≡ acl_size low high }
{
    let Some(high) = high else {
        return 4;
    };
    let Some(low) = low else {
        return 4;
    };
    4 + usize::from(u16::from_le_bytes([low, high]))
}

#[inline(always)]
fn short_size(header: usize, size: Option<u8>) -> usize
    requires { header ≤ 3 }
    ensures { result ≡ short_size header size }
{
    match size {
        Some(size) => header + usize::from(size),
        None => header,
    }
}

#[inline(always)]
fn octet_at(first: &[u8], second: &[u8], index: usize) -> Option<u8>
    ensures { result ≡ slice_get (first.now ++ second.now) index }
{
    if index < first.len() {
        Some(first[index])
    } else {
        let octet = second.get(index - first.len())?;
        Some(*octet)
    }
}

fn with_data(size: usize, count: usize) -> Progress
    ensures { result ≡ data_progress size count }
{
    if size <= count || size <= MAX_ACL_DATA {
        with_short_data(size, count)
    } else {
        Progress::Long(size - count)
    }
}

fn with_short_data(size: usize, count: usize) -> Progress
    ensures { result ≡ short_progress size count }
{
    if size <= count {
        Progress::Whole
    } else {
        Progress::Lacks(size - count)
    }
}
