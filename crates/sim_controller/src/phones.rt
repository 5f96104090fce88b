//! The clients of a controller, by number.

ghost use Rattle.std.specs.Prelude.{◌≡◌, ◌<◌, length, replicate, IfSome, IfOk};
ghost use Rattle.sim_controller.specs.Answers.{phone_here};
ghost use Rattle.sim_controller.specs.Phone.{absent_phone};
ghost use Rattle.sim_controller.specs.declared.handle.TheConstants.{PHONES};

use crate::handle::{PHONES, phone_with};
use crate::phone::Phone;
use std::alloc::{AllocError, Global};

pub(crate) fn absent_phones(alloc: Global) -> Result<Vec<Phone>, AllocError>
    ensures { IfOk result (λ phones. phones.items ≡ replicate PHONES absent_phone) }
{
    let mut phones = Vec::with_capacity(alloc, usize::from(PHONES))?;
    for _ in 0..PHONES {
        phones.push(Phone::new(alloc)?)?;
    }
    Ok(phones)
}

/// Returns the connected client with a connection handle.
pub(crate) fn here_with(phones: &[Phone], handle: u16) -> Option<u8>
    requires { length phones.now ≡ PHONES }
    ensures exact { result ≡ phone_here phones.now handle }
    ensures below { IfSome result (λ phone. phone < PHONES) }
{
    let phone = phone_with(handle)?;
    if phones[usize::from(phone)].is_here() {
        Some(phone)
    } else {
        None
    }
}
