//! Quoted texts of files, always one line of printable ASCII, without the digits of keys.

use crate::report::Report;

/// The largest number of quoted characters.
const LONGEST: usize = 60;

/// The least number of hexadecimal digits that may be a part of a key.
const SECRET: usize = 16;

/// Adds the first 60 characters of a text, and `..` if it has more.
///
/// Escapes all except printable ASCII as `escape_default` does, for example `\u{1b}`. A text that
/// may have the digits of a key is replaced.
pub fn add_quoted(report: &mut Report<'_>, quoted: &str) {
    if may_be_secret(quoted) {
        return report.add(b"[hexadecimal digits]");
    }
    let mut left = LONGEST;
    for character in quoted.chars() {
        if left == 0 {
            report.add(b"..");
            return;
        }
        left -= 1;
        add_escaped(report, character);
    }
}

/// Returns true if a text has 16 hexadecimal digits with no other letter or digit among them.
fn may_be_secret(text: &str) -> bool {
    let mut digits: usize = 0;
    for character in text.chars() {
        if character.is_ascii_hexdigit() {
            digits = digits.saturating_add(1);
        } else if character.is_alphanumeric() {
            digits = 0;
        }
        if digits >= SECRET {
            return true;
        }
    }
    false
}

fn add_escaped(report: &mut Report<'_>, character: char) {
    for escaped in character.escape_default() {
        let mut octets = [0; 4];
        report.add(escaped.encode_utf8(&mut octets).as_bytes());
    }
}
