ghost use Rattle.std.specs.Prelude.{◌≡◌, ◌<◌, IfSome};
ghost use Rattle.sim_controller.specs.Phones.{handle_of_phone, phone_with};
ghost use Rattle.sim_controller.specs.declared.handle.TheConstants.{PHONES};

/// The number of clients of the simulated controller.
pub const PHONES: u8 = 8;

/// Connection handle of client 0. The others have the following handles.
const FIRST_HANDLE: u16 = 0x0040;

pub(crate) fn handle_of(phone: u8) -> u16
    ensures { result ≡ handle_of_phone phone }
{
    FIRST_HANDLE + u16::from(phone)
}

pub(crate) fn phone_with(handle: u16) -> Option<u8>
    ensures exact { result ≡ phone_with handle }
    ensures below { IfSome result (λ phone. phone < PHONES) }
{
    if handle >= FIRST_HANDLE && handle < FIRST_HANDLE + u16::from(PHONES) {
        Some((handle - FIRST_HANDLE) as u8)
    } else {
        None
    }
}
