//! Types as texts.

ghost use Rattle.std.specs.Prelude.{◌≡◌, ◌++◌, OnOk};
ghost use Rattle.std.specs.Option.{option_map};
ghost use Rattle.policy_words.specs.TypeText.{handle_and_type, long_text, space_and_name, type_text, uuid_text};

use crate::type_names::name_of;
use att_table::type_octets;
use std::alloc::AllocError;
use text_words::{add_octets, add_right_number};

/// Adds a type, given as the octets of a value.
///
/// A 16-bit type is four hexadecimal digits and its name, another the text of a 128-bit UUID.
#[tactic(auto, unfolding(crate::specs::TypeText::type_text))]
pub fn add_type(text: &mut Vec<u8>, octets: &[u8]) -> Result<(), AllocError>
    ensures ok { OnOk result (text.new.items ≡ text.old.items ++ type_text octets.now) }
{
    match octets {
        [low, high] => {
            let mut digits = [0; 4];
            hex::encode_to_slice([*high, *low], &mut digits).unwrap();
            add_octets(text, &digits)?;
            add_name(text, name_of(u16::from_le_bytes([*low, *high])))
        }
        _ => add_long(text, octets),
    }
}

/// Adds the handle and the type of an attribute. On `Err` memory was refused.
#[tactic(auto, unfolding(crate::specs::TypeText::handle_and_type))]
pub fn add_handle_and_type(text: &mut Vec<u8>, handle: u16, kind: u128) -> Result<(), AllocError>
    ensures ok { OnOk result (text.new.items ≡ text.old.items ++ handle_and_type handle kind) }
{
    add_right_number(text, u64::from(handle), 5)?;
    add_octets(text, b"  ")?;
    add_type(text, type_octets(kind).as_slice())
}

fn add_long(text: &mut Vec<u8>, octets: &[u8]) -> Result<(), AllocError>
    ensures ok { OnOk result (text.new.items ≡ text.old.items ++ long_text octets.now) }
{
    match <[u8; 16]>::try_from(octets) {
        Ok(octets) => add_octets(text, &uuid_text(octets)),
        Err(_) => Ok(()),
    }
}

fn add_name(text: &mut Vec<u8>, name: Option<&str>) -> Result<(), AllocError>
    ensures ok { OnOk result (text.new.items
        ≡ text.old.items ++ space_and_name (option_map (λ given. given.now) name.entry)) }
{
    match name {
        Some(name) => {
            add_octets(text, b" ")?;
            add_octets(text, name.as_bytes())
        }
        None => Ok(()),
    }
}

#[tactic(auto, unfolding(crate::specs::TypeText::uuid_text))]
fn uuid_text(octets: [u8; 16]) -> [u8; 36]
    ensures { result ≡ uuid_text octets }
{
    let [a, b, c, d, e, f, g, h, i, j, k, l, m, n, o, p] = octets;
    let mut digits = [0; 32];
    hex::encode_to_slice(
        [p, o, n, m, l, k, j, i, h, g, f, e, d, c, b, a],
        &mut digits,
    )
    .unwrap();
    let [
        p1,
        p0,
        o1,
        o0,
        n1,
        n0,
        m1,
        m0,
        l1,
        l0,
        k1,
        k0,
        j1,
        j0,
        i1,
        i0,
        h1,
        h0,
        g1,
        g0,
        f1,
        f0,
        e1,
        e0,
        d1,
        d0,
        c1,
        c0,
        b1,
        b0,
        a1,
        a0,
    ] = digits;
    [
        p1, p0, o1, o0, n1, n0, m1, m0, b'-', l1, l0, k1, k0, b'-', j1, j0, i1, i0, b'-', h1, h0,
        g1, g0, b'-', f1, f0, e1, e0, d1, d0, c1, c0, b1, b0, a1, a0,
    ]
}
