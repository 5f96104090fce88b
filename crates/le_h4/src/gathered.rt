ghost use Rattle.std.specs.Prelude.{◌≡◌, ◌+◌, ◌≤◌, [], ◌++◌, length, ◌==◌};

use crate::progress::MAX_PACKET_IN;
use std::marker::Model;

/// The octets of one packet so far. Old contents are not cleared.
#[derive(Drop)]
pub(crate) struct Gathered {
    octets: [u8; MAX_PACKET_IN],
    len: usize,
}

impl Model for Gathered {
    ghost use Rattle.octet_io.specs.Number.{Octets};

    ghost Value = { Octets };

    ghost use Rattle.std.specs.Prelude.{◌≤◌, take};
    ghost use Rattle.le_h4.specs.declared.progress.TheConstants.{MAX_PACKET_IN};

    ghost view = { λ g. take g.len g.octets };

    ghost invariant = { λ g. g.len ≤ MAX_PACKET_IN };
}

impl Gathered {
    pub(crate) fn new() -> Self
        ensures { result ≡ [] }
    {
        Gathered {
            octets: [0; MAX_PACKET_IN],
            len: 0,
        }
    }

    #[inline(always)]
    pub(crate) fn as_slice(&self) -> &[u8]
        ensures value { result.now ≡ self.now }
        ensures fits { length result.now ≤ MAX_PACKET_IN }
    {
        &self.octets[..self.len]
    }

    #[inline(always)]
    pub(crate) fn is_empty(&self) -> bool
        ensures { result ≡ (length self.now == 0) }
    {
        self.len == 0
    }

    #[inline(always)]
    pub(crate) fn clear(&mut self)
        ensures { self.new ≡ [] }
    {
        self.len = 0;
    }

    #[inline(always)]
    pub(crate) fn append(&mut self, octets: &[u8])
        requires { length self.old + length octets.now ≤ MAX_PACKET_IN }
        ensures { self.new ≡ self.old ++ octets.now }
    {
        let start = self.len;
        let end = start + octets.len();
        self.len = end;
        self.octets[start..end].copy_from_slice(octets);
    }
}
