//! Expectations of attributes, and whether a link is meant to have a right.

ghost use Rattle.std.specs.Prelude.{◌≡◌, is_none};
ghost use Rattle.att_policy.specs.Policy.{first_unmet_rule_of};
ghost use Rattle.policy_rights.specs.Rights.{standing_with_key};
ghost use Rattle.policy_expectations.specs.Meant.{is_meant, meant_for};

use att_policy::{Access, Guard, KeyFacts, Need, Properties, first_broken};
use policy_rights::{Right, standing_of};

/// An expectation: the attributes that it names, and what each use of them requires.
///
/// A use without a need is for nobody.
#[derive(Clone, Copy)]
pub struct Expectation {
    /// The place in the file, from 1.
    pub place: u16,
    pub characteristic: u128,
    /// The type of the service, or `None` for any.
    pub service: Option<u128>,
    /// Which of the characteristics that fit, from 1, or `None` for all.
    pub number: Option<u16>,
    /// The type of the descriptor that is meant in place of the value.
    pub descriptor: Option<u128>,
    pub read: Option<Need>,
    pub write: Option<Need>,
    pub command: Option<Need>,
    /// To be sent notifications by the host.
    pub notify: Option<Need>,
    /// To be sent indications by the host.
    pub indicate: Option<Need>,
    /// To write the client configuration.
    pub subscribe: Option<Need>,
}

/// Returns what a use requires, or `None` if it is for nobody.
pub(crate) fn meant_for(expected: &Expectation, right: Right) -> Option<Need>
    ensures { result ≡ meant_for expected.now right }
{
    match right {
        Right::Read => expected.read,
        Right::Write => expected.write,
        Right::Command => expected.command,
        Right::Notify => expected.notify,
        Right::Indicate => expected.indicate,
        Right::Subscribe => expected.subscribe,
    }
}

/// Returns true if a link is meant to have a right with this need.
pub(crate) fn is_meant(meant: Option<Need>, key: Option<KeyFacts>, is_authorized: bool) -> bool
    ensures { result ≡ is_meant meant (standing_with_key key is_authorized) }
{
    match meant {
        Some(need) => is_met(need, key, is_authorized),
        None => false,
    }
}

/// Returns true if a link meets a need, by the policy for an attribute that has it.
fn is_met(need: Need, key: Option<KeyFacts>, is_authorized: bool) -> bool
    ensures { result
        ≡ is_none (first_unmet_rule_of need (standing_with_key key is_authorized)) }
{
    let guard = Guard {
        properties: Properties::READ,
        read: need,
        write: Need::NONE,
    };
    let standing = standing_of(key, is_authorized);
    match first_broken(Access::Read, Some(&guard), &standing) {
        Some(_) => false,
        None => true,
    }
}
