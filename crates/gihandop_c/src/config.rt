//! The configuration of a host, as C gives it.

ghost use Rattle.std.specs.Prelude.{◌≡◌, false, true, IfSome, IsNone, IsSome};
ghost use Rattle.gihandop_c.specs.Opening.{config_given, is_unreadable};

use arrayvec::ArrayVec;
use gatt_host::{Config, MAX_ADVERTISING_DATA};

/// The connections, the largest PDU, and the advertising of a host.
#[repr(C)]
pub struct HostConfig {
    /// The size of the caller's structure, in bytes: at least `CONFIG_SIZE`.
    pub size: usize,
    /// The largest number of connections at once: 1 to 8.
    pub slots: usize,
    /// The largest ATT PDU that is received, in octets: 23 to 517.
    pub rx_mtu: u16,
    /// 0 for the public address of the controller, any other number for `address`.
    pub is_random: u8,
    /// A static random address, least significant octet first, whose two highest bits are set (Core
    /// 5.0, Vol 6 Part B, 1.3.2.1).
    pub address: [u8; 6],
    /// The length of the advertising data, in octets: 0 to 31.
    pub advertising_length: u8,
    /// Advertising data (Core 5.0, Vol 3 Part C, 11). Octets past the length are not read.
    pub advertising: [u8; MAX_ADVERTISING_DATA],
}

const CONFIG_SIZE: usize = size_of::<HostConfig>();

/// Converts a configuration. Returns `None` if the structure is too small or the data too long.
pub(crate) fn to_config(config: &HostConfig) -> Option<Config>
    ensures config { IfSome result (λ given. given ≡ config_given config.now) }
    ensures readable { IsSome result → is_unreadable config.now ≡ false }
    ensures unreadable { IsNone result → is_unreadable config.now ≡ true }
{
    if config.size < CONFIG_SIZE {
        return None;
    }
    let octets = config
        .advertising
        .get(..usize::from(config.advertising_length))?;
    let mut advertising = ArrayVec::new();
    advertising.try_extend_from_slice(octets).ok()?;
    Some(Config {
        slots: config.slots,
        rx_mtu: config.rx_mtu,
        address: address(config),
        advertising,
    })
}

fn address(config: &HostConfig) -> Option<[u8; 6]>
    ensures { result ≡ (config_given config.now).address }
{
    if config.is_random == 0 {
        None
    } else {
        Some(config.address)
    }
}
