//! All kinds of keys that a link can have.

ghost use Rattle.std.specs.Prelude.{◌≡◌, ◌++◌, IfOk, OnOk};
ghost use Rattle.policy_rights.specs.Kinds.{every_kind, kinds_of_every_size};
ghost use Rattle.policy_rights.specs.Laws.{HasEveryKind};

use att_policy::KeyFacts;
use std::alloc::{AllocError, Global};

/// Returns no key, and each kind of key: its size of 7 to 16 octets, authenticated or not, of LE
/// Secure Connections or not.
///
/// On `Err` memory was refused.
#[tactic(auto, unfolding(crate::specs::Kinds::every_kind), using(crate::proofs::Sizes::has_every_kind))]
pub fn every_kind(alloc: Global) -> Result<Vec<Option<KeyFacts>>, AllocError>
    ensures kinds { IfOk result (λ kinds. kinds.items ≡ every_kind) }
    // No key of a link is of another kind.
    ensures all { HasEveryKind }
{
    let mut kinds = Vec::new(alloc);
    kinds.push(None)?;
    add_sizes(&mut kinds, false, false)?;
    add_sizes(&mut kinds, true, false)?;
    add_sizes(&mut kinds, false, true)?;
    add_sizes(&mut kinds, true, true)?;
    Ok(kinds)
}

/// Adds the keys of 7 to 16 octets with these properties.
fn add_sizes(
    kinds: &mut Vec<Option<KeyFacts>>,
    authenticated: bool,
    secure: bool,
) -> Result<(), AllocError>
    ensures ok { OnOk result (kinds.new.items
        ≡ kinds.old.items ++ kinds_of_every_size authenticated secure) }
{
    for size in 7..17 {
        kinds.push(Some(KeyFacts {
            size,
            authenticated,
            secure,
        }))?;
    }
    Ok(())
}
