//! The ATT_MTU that the host of a script can receive.

ghost use Rattle.std.specs.Prelude.{◌≡◌};
ghost use Rattle.std.specs.Option.{option_map};
ghost use Rattle.gatt_commands.specs.Opening.{rx_mtu_of};

use att_pdu::{MAX_MTU, MIN_MTU};
use gatt_host::RX_MTU;
use std::marker::Model;
use text_words::read_u64;

/// The largest ATT PDU that a host receives, in octets: 23 to 517.
#[derive(Clone, Copy)]
pub struct RxMtu(u16);

impl Model for RxMtu {
    ghost use Rattle.std.specs.Prelude.{ℕ, ◌≤◌};
    ghost use Rattle.att_pdu.specs.declared.pdu_buf.TheConstants.{MAX_MTU, MIN_MTU};

    ghost Value = { ℕ };

    ghost view = { λ mtu. mtu.0 };

    ghost invariant = { λ mtu. (MIN_MTU ≤ mtu.0) × (mtu.0 ≤ MAX_MTU) };

    ghost inverse = { λ octets. record { 0 = octets } };
}

impl RxMtu {
    /// Returns the MTU of a host if none is named.
    pub fn usual() -> RxMtu
        ensures { result ≡ RX_MTU }
    {
        RxMtu(RX_MTU)
    }

    /// Reads a decimal number from 23 to 517.
    pub fn read(word: Option<&str>) -> Option<RxMtu>
        ensures { result ≡ rx_mtu_of (option_map (λ word. word.now) word.entry) }
    {
        let Some(word) = word else {
            return Some(RxMtu::usual());
        };
        let octets = read_u64(word)?;
        if octets >= u64::from(MIN_MTU) && octets <= u64::from(MAX_MTU) {
            Some(RxMtu(octets as u16))
        } else {
            None
        }
    }

    pub(crate) fn octets(self) -> u16
        ensures { result ≡ self }
    {
        self.0
    }
}
