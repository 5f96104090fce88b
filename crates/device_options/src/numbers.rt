//! The numbers among the options.

ghost use Rattle.std.specs.Prelude.{◌≡◌, ◌≤◌};
ghost use Rattle.std.specs.Option.{option_map};
ghost use Rattle.std.specs.Result.{result_ok};
ghost use Rattle.device_options.specs.Numbers.{limit_of, number_up_to, size_of, slots_of};

use host_api::MAX_SLOTS;
use text_words::read_u64;

/// The default number of clients connected at once.
const SLOTS: usize = 4;

/// The default limit of a capture: 100 MiB.
const CAPTURE_SIZE: u64 = 104_857_600;

/// Reads a number of seconds, from 1 to 4,294,967,295, and returns it in milliseconds.
pub(crate) fn read_seconds(
    word: Option<&str>,
    wrong: &'static str,
) -> Result<Option<u64>, &'static str>
    ensures { result_ok result ≡ limit_of (option_map (λ word. word.now) word.entry) }
{
    let Some(word) = word else {
        return Ok(None);
    };
    match read_up_to(4_294_967_295, word) {
        Some(seconds) => Ok(Some(seconds * 1_000)),
        None => Err(wrong),
    }
}

pub(crate) fn read_slots(word: Option<&str>) -> Result<usize, &'static str>
    ensures { result_ok result ≡ slots_of (option_map (λ word. word.now) word.entry) }
{
    let Some(word) = word else {
        return Ok(SLOTS);
    };
    match read_up_to(MAX_SLOTS as u64, word) {
        Some(slots) => Ok(slots as usize),
        None => Err("--slots: a number from 1 to 8"),
    }
}

pub(crate) fn read_size(word: Option<&str>) -> Result<u64, &'static str>
    ensures { result_ok result ≡ size_of (option_map (λ word. word.now) word.entry) }
{
    let Some(word) = word else {
        return Ok(CAPTURE_SIZE);
    };
    match read_up_to(u64::MAX, word) {
        Some(size) => Ok(size),
        None => Err("--capture-size: a number of bytes"),
    }
}

/// Reads a number from 1 to `most`.
fn read_up_to(most: u64, word: &str) -> Option<u64>
    ensures { result ≡ number_up_to most word.now }
{
    let number = read_u64(word)?;
    if number > 0 && number <= most {
        Some(number)
    } else {
        None
    }
}
