//! The words for a fault in the texts that a host is opened with.

ghost use Rattle.std.specs.Prelude.{◌≡◌, ◌≢◌, ◌≤◌, length, take, IfOk, IfSome};
ghost use Rattle.gihandop_c.specs.Explaining.{first_faulty, name_of, BeginsWith};
ghost use Rattle.gihandop_c.specs.Statuses.{explain_status, room_status};
ghost use Rattle.gihandop_c.specs.declared.status.TheConstants.{DONE, OUT_OF_MEMORY, SHORT_BUFFER};

use crate::faulty_text::{FaultyText, first_faulty};
use crate::{status, stream};
use saved_values::BadLine;
use std::alloc::{AllocError, Global};
use std::str;

pub(crate) fn explain(
    alloc: Global,
    table: &[u8],
    keys: &[u8],
    rows: &[u8],
    values: &[u8],
    out: &mut [u8],
    count: &mut usize,
) -> u32
    ensures status { result ≢ OUT_OF_MEMORY → result ≡ explain_status
        (first_faulty table.now keys.now rows.now values.now) count.new (length out.old) }
    ensures names { result ≡ DONE → IfSome (first_faulty table.now keys.now rows.now values.now)
        (λ faulty. BeginsWith (name_of faulty) (take count.new out.new)) }
    ensures within { result ≡ DONE → count.new ≤ length out.old }
    ensures none { result ≢ DONE → result ≢ SHORT_BUFFER → count.new ≡ 0 }
    ensures untouched { result ≢ DONE → out.new ≡ out.old }
{
    *count = 0;
    match first_faulty(alloc, table, keys, rows, values) {
        Ok(Some(faulty)) => {
            let octets = match faulty {
                FaultyText::Table => table,
                FaultyText::Keys => keys,
                FaultyText::Rows => rows,
                FaultyText::Values(_) => values,
            };
            put_words(alloc, faulty, octets, out, count)
        }
        Ok(None) => status::NOTHING,
        Err(AllocError) => status::OUT_OF_MEMORY,
    }
}

fn put_words(
    alloc: Global,
    faulty: FaultyText,
    octets: &[u8],
    out: &mut [u8],
    count: &mut usize,
) -> u32
    ensures status { result ≢ OUT_OF_MEMORY → result ≡ room_status count.new (length out.old) }
    ensures names { result ≡ DONE → BeginsWith (name_of faulty) (take count.new out.new) }
    ensures within { result ≡ DONE → count.new ≤ length out.old }
    ensures none { result ≢ DONE → result ≢ SHORT_BUFFER → count.new ≡ 0 }
    ensures untouched { result ≢ DONE → out.new ≡ out.old }
{
    *count = 0;
    match words(alloc, faulty, octets) {
        Ok(words) => stream::copy(words.as_slice(), out, count),
        Err(AllocError) => status::OUT_OF_MEMORY,
    }
}

fn words(alloc: Global, faulty: FaultyText, octets: &[u8]) -> Result<Vec<u8>, AllocError>
    ensures { IfOk result (λ words. BeginsWith (name_of faulty) words.items) }
{
    let place = place(alloc, faulty, octets)?;
    let mut words = Vec::new(alloc);
    words.extend_from_slice(faulty.name())?;
    words.extend_from_slice(place.as_slice())?;
    Ok(words)
}

/// Returns the place and the kind of a fault. Fails if memory is refused.
fn place(alloc: Global, faulty: FaultyText, octets: &[u8]) -> Result<Vec<u8>, AllocError> {
    let mut text = Vec::new(alloc);
    match faulty {
        FaultyText::Table => file_faults::add_table_fault(alloc, &mut text, octets)?,
        FaultyText::Keys => file_faults::add_keys_fault(alloc, &mut text, octets)?,
        FaultyText::Values(line) if str::from_utf8(octets).is_ok() => {
            text.extend_from_slice(format!(in alloc; "{}", BadLine(line))?.as_bytes())?;
        }
        // For a text that is not UTF-8, the place is that of a subscriptions file.
        FaultyText::Rows | FaultyText::Values(_) => {
            file_faults::add_rows_fault(alloc, &mut text, octets)?;
        }
    }
    Ok(text)
}
