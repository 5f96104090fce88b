//! Lines of notices.

ghost use Rattle.std.specs.Prelude.{◌≡◌, ◌++◌, ◌∷◌, [], OnOk};
ghost use Rattle.std.specs.Fmt.{decimal};
ghost use Rattle.gatt_subs.specs.RowsText.{peer_text};
ghost use Rattle.app_lines.specs.NoticeText.{connection_of, digit_of, facts_text, named_line, notice_line, notice_text, of_attribute, of_connection, value_text};

use att_policy::KeyFacts;
use gatt_subs::address_text;
use host_api::Notice;
use itoa::Buffer;
use le_hci::Peer;
use std::alloc::AllocError;
use text_words::add_hex;

/// Appends the line of a notice, with the connection's handle as its name.
#[tactic(auto, unfolding(crate::specs::NoticeText::notice_line))]
pub fn add_line(text: &mut Vec<u8>, notice: &Notice<'_>) -> Result<(), AllocError>
    ensures ok { OnOk result (text.new.items ≡ text.old.items ++ notice_line notice.now) }
{
    add_named_line(text, u64::from(connection_of(notice)), notice)
}

/// Appends the line of a notice, with the connection's `name`.
#[tactic(auto, unfolding(crate::specs::NoticeText::named_line))]
pub fn add_named_line(text: &mut Vec<u8>, name: u64, notice: &Notice<'_>) -> Result<(), AllocError>
    ensures ok { OnOk result (text.new.items ≡ text.old.items ++ named_line name notice.now) }
{
    add_notice(text, name, notice)?;
    text.extend_from_slice(b"\n")
}

/// Returns the connection handle of a notice.
pub fn connection_of(notice: &Notice<'_>) -> u16
    ensures { result ≡ connection_of notice.now }
{
    match *notice {
        Notice::Connected { handle, .. }
        | Notice::Disconnected { handle }
        | Notice::Secured { handle, .. }
        | Notice::Unsecured { handle }
        | Notice::Written { handle, .. }
        | Notice::Configured { handle, .. }
        | Notice::Confirmed { handle, .. }
        | Notice::TimedOut { handle }
        | Notice::Ending { handle, .. }
        | Notice::Skipped { handle, .. } => handle,
    }
}

fn add_notice(text: &mut Vec<u8>, name: u64, notice: &Notice<'_>) -> Result<(), AllocError>
    ensures ok { OnOk result (text.new.items ≡ text.old.items ++ notice_text name notice.now) }
{
    match notice {
        Notice::Connected { peer, .. } => {
            add_connection(text, b"+ connected ", name)?;
            add_peer(text, peer)
        }
        Notice::Disconnected { .. } => add_connection(text, b"+ disconnected ", name),
        Notice::Secured { facts, .. } => {
            add_connection(text, b"+ secured ", name)?;
            add_facts(text, facts)
        }
        Notice::Unsecured { .. } => add_connection(text, b"+ unsecured ", name),
        Notice::Written {
            attribute,
            value,
            ..
        } => {
            add_attribute(text, b"+ written ", name, *attribute)?;
            add_value(text, value)
        }
        Notice::Configured {
            attribute,
            bits,
            ..
        } => {
            add_attribute(text, b"+ configured ", name, *attribute)?;
            add_number(text, u64::from(*bits))
        }
        Notice::Confirmed { attribute, .. } => {
            add_attribute(text, b"+ confirmed ", name, *attribute)
        }
        Notice::TimedOut { .. } => add_connection(text, b"+ timed-out ", name),
        Notice::Ending { reason, .. } => {
            add_connection(text, b"+ ending ", name)?;
            text.extend_from_slice(b" ")?;
            add_hex(text, &[*reason])
        }
        Notice::Skipped { attribute, .. } => {
            add_attribute(text, b"+ skipped ", name, *attribute)
        }
    }
}

fn add_connection(text: &mut Vec<u8>, word: &[u8], name: u64) -> Result<(), AllocError>
    ensures ok { OnOk result (text.new.items ≡ text.old.items ++ of_connection word.now name) }
{
    text.extend_from_slice(word)?;
    let mut digits = Buffer::new();
    text.extend_from_slice(digits.format(name).as_bytes())
}

fn add_attribute(
    text: &mut Vec<u8>,
    word: &[u8],
    name: u64,
    attribute: u16,
) -> Result<(), AllocError>
    ensures ok { OnOk result
        (text.new.items ≡ text.old.items ++ of_attribute word.now name attribute) }
{
    add_connection(text, word, name)?;
    add_number(text, u64::from(attribute))
}

/// Appends a space and a decimal number.
pub fn add_number(text: &mut Vec<u8>, number: u64) -> Result<(), AllocError>
    ensures ok { OnOk result (text.new.items ≡ text.old.items ++ 32 ∷ decimal number) }
{
    text.extend_from_slice(b" ")?;
    let mut digits = Buffer::new();
    text.extend_from_slice(digits.format(number).as_bytes())
}

/// Appends a space and the key's size, authentication and LE Secure Connections.
fn add_facts(text: &mut Vec<u8>, facts: &KeyFacts) -> Result<(), AllocError>
    ensures ok { OnOk result (text.new.items ≡ text.old.items ++ 32 ∷ facts_text facts.now) }
{
    add_number(text, u64::from(facts.size))?;
    text.extend_from_slice(&[
        b' ',
        digit_of(facts.authenticated),
        b' ',
        digit_of(facts.secure),
    ])
}

fn digit_of(is_so: bool) -> u8
    ensures { result ≡ digit_of is_so }
{
    if is_so { b'1' } else { b'0' }
}

/// Appends a space and a hexadecimal value, or a hyphen for none.
pub fn add_value(text: &mut Vec<u8>, value: &[u8]) -> Result<(), AllocError>
    ensures ok { OnOk result (text.new.items ≡ text.old.items ++ 32 ∷ value_text value.now) }
{
    text.extend_from_slice(b" ")?;
    if value.is_empty() {
        text.extend_from_slice(b"-")
    } else {
        add_hex(text, value)
    }
}

/// Appends a space and a peer as in a subscriptions file.
fn add_peer(text: &mut Vec<u8>, peer: &Peer) -> Result<(), AllocError>
    ensures ok { OnOk result (text.new.items ≡ text.old.items ++ 32 ∷ peer_text peer.now) }
{
    add_number(text, u64::from(peer.kind))?;
    text.extend_from_slice(b" ")?;
    text.extend_from_slice(&address_text(peer.address))
}
