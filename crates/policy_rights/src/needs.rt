//! The requirements of an attribute, and whether they fit each other.

ghost use Rattle.std.specs.Prelude.{◌≡◌};
ghost use Rattle.policy_rights.specs.Needs.{asks_less, asks_more, asks_nothing, has_idle_read_rule, has_idle_write_rule, has_no_property, is_notified_or_indicated, is_heard, is_written, trusts_an_address, trusts_address};

use att_policy::{Guard, Need, Properties};
use bitflags::Flags;

/// Returns true if a property permits what needs the rule for reading.
pub fn is_heard(properties: Properties) -> bool
    ensures { result ≡ is_heard properties }
{
    properties.contains(Properties::READ) || is_notified_or_indicated(properties)
}

/// Returns true if a property permits notifications or indications.
pub fn is_notified_or_indicated(properties: Properties) -> bool
    ensures { result ≡ is_notified_or_indicated properties }
{
    properties.contains(Properties::NOTIFY) || properties.contains(Properties::INDICATE)
}

/// Returns true if a property permits what needs the rule for writing.
pub fn is_written(properties: Properties) -> bool
    ensures { result ≡ is_written properties }
{
    properties.contains(Properties::WRITE)
        || properties.contains(Properties::WRITE_WITHOUT_RESPONSE)
}

/// Returns true if no property permits any use.
pub(crate) fn has_no_property(properties: Properties) -> bool
    ensures { result ≡ has_no_property properties }
{
    !is_heard(properties) && !is_written(properties)
}

fn asks_nothing(need: &Need) -> bool
    ensures { result ≡ asks_nothing need.now }
{
    !need.needs_encryption() && !need.authorized
}

/// Returns true if one need has a part that the other lacks.
pub(crate) fn asks_more(one: &Need, other: &Need) -> bool
    ensures { result ≡ asks_more one.now other.now }
{
    (one.needs_encryption() && !other.needs_encryption())
        || (one.needs_authentication() && !other.needs_authentication())
        || other.least_key_size() < one.least_key_size()
        || (one.secure && !other.secure)
        || (one.authorized && !other.authorized)
}

/// Returns true if a need is met by an authorization alone, without encryption.
pub(crate) fn trusts_address(need: &Need) -> bool
    ensures { result ≡ trusts_address need.now }
{
    need.authorized && !need.needs_encryption()
}

/// Returns true if to write asks for less than to read.
pub(crate) fn asks_less(guard: &Guard) -> bool
    ensures { result ≡ asks_less guard.now }
{
    is_heard(guard.properties)
        && is_written(guard.properties)
        && asks_more(&guard.read, &guard.write)
}

/// Returns true if the rule for reading concerns no property.
pub(crate) fn has_idle_read_rule(guard: &Guard) -> bool
    ensures { result ≡ has_idle_read_rule guard.now }
{
    !is_heard(guard.properties) && !asks_nothing(&guard.read)
}

/// Returns true if the rule for writing concerns no property.
pub(crate) fn has_idle_write_rule(guard: &Guard) -> bool
    ensures { result ≡ has_idle_write_rule guard.now }
{
    !is_written(guard.properties) && !asks_nothing(&guard.write)
}

/// Returns true if a use is authorized by the peer's address alone, which can be forged.
pub(crate) fn trusts_an_address(guard: &Guard) -> bool
    ensures { result ≡ trusts_an_address guard.now }
{
    (is_heard(guard.properties) && trusts_address(&guard.read))
        || (is_written(guard.properties) && trusts_address(&guard.write))
}
