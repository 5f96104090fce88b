ghost use Rattle.std.specs.Prelude.{◌≡◌, ◌↔◌, Some, None, IsTrue, IsNone, IfSome};
ghost use Rattle.std.specs.Option.{option_copied};
ghost use Rattle.att_policy.specs.Policy.{property_of, need_of, not_permitted_code, first_unmet_rule_of, first_broken_rule_of, first_broken_of, is_open_of, may_hear_of, code_of, IsFirstBroken, IsPermitted, MayHear};

use crate::guard::{Guard, Need, Properties};
use crate::standing::Standing;
use att_numbers::error_code;
use bitflags::Flags;

/// The kind of an access to an attribute.
#[derive(Clone, Copy, Debug, PartialEq, Eq)]
pub enum Access {
    Read,
    /// A Write Request, or a prepared write and its execution.
    Write,
    /// A Write Command.
    Command,
}

impl Access {
    fn property(self) -> Properties
        ensures { result ≡ property_of self }
    {
        match self {
            Access::Read => Properties::READ,
            Access::Write => Properties::WRITE,
            Access::Command => Properties::WRITE_WITHOUT_RESPONSE,
        }
    }

    fn need(self, guard: &Guard) -> &Need
        ensures { result.now ≡ need_of self guard.now }
    {
        match self {
            Access::Read => &guard.read,
            Access::Write | Access::Command => &guard.write,
        }
    }

    fn not_permitted(self) -> u8
        ensures { result ≡ not_permitted_code self }
    {
        match self {
            Access::Read => error_code::READ_NOT_PERMITTED,
            Access::Write | Access::Command => error_code::WRITE_NOT_PERMITTED,
        }
    }
}

/// A rule of the policy, in the order of checking; those after `Property` apply if required.
#[derive(Clone, Copy, Debug, PartialEq, Eq)]
pub enum Rule {
    /// The handle has an attribute.
    HandleExists,
    /// The attribute has the property of the access.
    Property,
    Encryption,
    Authentication,
    KeySize,
    SecureConnections,
    Authorization,
}

/// Returns the first rule that an access breaks and its ATT error code.
///
/// `None`: the access is permitted. `guard` is `None` if the handle has no attribute.
#[inline(always)]
pub fn first_broken(
    access: Access,
    guard: Option<&Guard>,
    standing: &Standing,
) -> Option<(Rule, u8)>
    // An access is permitted, or refused by the first broken rule of seven, with its error code.
    ensures exact { result
        ≡ first_broken_of access (option_copied guard.entry) standing.entry.now }
    // There is none exactly if the access is permitted.
    ensures permitted { IsNone result ↔ IsPermitted access
        (option_copied guard.entry) standing.entry.now }
    ensures first { IfSome result
        (λ r. IsFirstBroken access (option_copied guard.entry) standing.entry.now r.0) }
    ensures code { IfSome result (λ r. r.1 ≡ code_of access standing.entry.now r.0) }
{
    let rule = first_broken_rule::<true>(access, guard, standing)?;
    Some((rule, code(rule, access, standing)))
}

/// Does the same as `first_broken`, inlined: faster for a request of one attribute.
#[inline(always)]
pub fn first_broken_in_place(
    access: Access,
    guard: Option<&Guard>,
    standing: &Standing,
) -> Option<(Rule, u8)>
    ensures exact { result
        ≡ first_broken_of access (option_copied guard.entry) standing.entry.now }
    ensures permitted { IsNone result ↔ IsPermitted access
        (option_copied guard.entry) standing.entry.now }
    ensures first { IfSome result
        (λ r. IsFirstBroken access (option_copied guard.entry) standing.entry.now r.0) }
    ensures code { IfSome result (λ r. r.1 ≡ code_of access standing.entry.now r.0) }
{
    let rule = first_broken_rule::<false>(access, guard, standing)?;
    Some((rule, code(rule, access, standing)))
}

/// Returns true if every connection is permitted this access.
#[inline(always)]
pub fn is_open(access: Access, guard: &Guard) -> bool
    ensures exact { result ≡ is_open_of access guard.now }
    ensures permitted { IsTrue result
        → (standing : Standing) → first_broken_of access (Some guard.now) standing ≡ None }
{
    let need = access.need(guard);
    guard.properties.contains(access.property()) && !(need.needs_encryption() | need.authorized)
}

/// Returns true if a client with these CCCD bits may be notified of a value.
///
/// Requires the property of a set bit (Core 5.0, Vol 3 Part G, 3.3.3.3), and what reading requires.
pub fn may_hear(guard: &Guard, bits: u8, standing: &Standing) -> bool
    ensures exact { result ≡ may_hear_of guard.now bits standing.entry.now }
    // True exactly if the connection may be notified of the value.
    ensures heard { IsTrue result ↔ MayHear guard.now bits standing.entry.now }
{
    bits & guard.properties.configuration_bits() != 0
        && first_unmet_rule(&guard.read, standing).is_none()
}

/// Returns the first broken rule. `APART` checks the guard out of line.
#[inline(always)]
fn first_broken_rule<const APART: bool>(
    access: Access,
    guard: Option<&Guard>,
    standing: &Standing,
) -> Option<Rule>
    ensures { result ≡ first_broken_rule_of access (option_copied guard.entry)
        standing.entry.now }
{
    let Some(guard) = guard else {
        return Some(Rule::HandleExists);
    };
    if !guard.properties.contains(access.property()) {
        return Some(Rule::Property);
    }
    let need = access.need(guard);
    if need.needs_encryption() || need.authorized {
        return if APART {
            first_unmet_rule_apart(need, standing)
        } else {
            first_unmet_rule(need, standing)
        };
    }
    None
}

/// Does the same as `first_unmet_rule`, out of line: most attributes require nothing.
#[inline(never)]
fn first_unmet_rule_apart(need: &Need, standing: &Standing) -> Option<Rule>
    ensures { result ≡ first_unmet_rule_of need.now standing.entry.now }
{
    first_unmet_rule(need, standing)
}

#[inline(always)]
fn first_unmet_rule(need: &Need, standing: &Standing) -> Option<Rule>
    ensures { result ≡ first_unmet_rule_of need.now standing.entry.now }
{
    if standing.key.is_none() && need.needs_encryption() {
        return Some(Rule::Encryption);
    }
    if let Some(key) = standing.key {
        if need.needs_authentication() && !key.authenticated {
            return Some(Rule::Authentication);
        }
        if need.least_key_size() > key.size {
            return Some(Rule::KeySize);
        }
        if need.secure && !key.secure {
            return Some(Rule::SecureConnections);
        }
    }
    if need.authorized && standing.until <= standing.now {
        return Some(Rule::Authorization);
    }
    None
}

fn code(rule: Rule, access: Access, standing: &Standing) -> u8
    ensures { result ≡ code_of access standing.entry.now rule }
{
    match rule {
        Rule::HandleExists => error_code::INVALID_HANDLE,
        Rule::Property => access.not_permitted(),
        // A peer with a key can encrypt the link (Core 5.0, Vol 3 Part C, 10.3.1).
        Rule::Encryption if standing.key_known => error_code::INSUFFICIENT_ENCRYPTION,
        Rule::Encryption | Rule::Authentication | Rule::SecureConnections => {
            error_code::INSUFFICIENT_AUTHENTICATION
        }
        Rule::KeySize => error_code::INSUFFICIENT_ENCRYPTION_KEY_SIZE,
        Rule::Authorization => error_code::INSUFFICIENT_AUTHORIZATION,
    }
}
