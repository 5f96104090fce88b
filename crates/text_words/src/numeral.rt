//! Decimal numbers.

ghost use Rattle.std.specs.Prelude.{◌≡◌, ◌^◌};
ghost use Rattle.text_words.specs.Numeral.{numeral_of};

/// Reads a number below 65,536.
#[tactic(auto, unfolding(crate::specs::Numeral::numeral_of))]
pub fn read_u16(word: &str) -> Option<u16>
    ensures { result ≡ numeral_of (2 ^ 16) word.now }
{
    match word.as_bytes() {
        [b'0'..=b'9', ..] => word.parse::<u16>().ok(),
        _ => None,
    }
}

/// Reads a number of 64 bits.
#[tactic(auto, unfolding(crate::specs::Numeral::numeral_of))]
pub fn read_u64(word: &str) -> Option<u64>
    ensures { result ≡ numeral_of (2 ^ 64) word.now }
{
    match word.as_bytes() {
        [b'0'..=b'9', ..] => word.parse::<u64>().ok(),
        _ => None,
    }
}
