//! The octets of one packet so far, and none after it.

ghost use Rattle.std.specs.Prelude.{◌≡◌, ◌≤◌, ◌++◌, [], length, take, drop};
ghost use Rattle.btsnoop.specs.Packet.{Progresses};

use crate::packet::{Progress, progress_at};
use arrayvec::ArrayVec;
use le_h4::MAX_PACKET_IN;
use std::marker::Model;

#[derive(Drop)]
pub(crate) struct Begun {
    octets: ArrayVec<u8, MAX_PACKET_IN>,
}

impl Model for Begun {
    ghost use Rattle.octet_io.specs.Number.{Octets};

    ghost Value = { Octets };

    ghost use Rattle.btsnoop.specs.Packet.{IsBegunPacket};

    ghost view = { λ begun. begun.octets.items };

    ghost invariant = { λ begun. IsBegunPacket begun.octets.items };
}

impl Begun {
    pub(crate) fn new() -> Self
        ensures { result ≡ [] }
    {
        Begun {
            octets: ArrayVec::new(),
        }
    }

    pub(crate) fn as_slice(&self) -> &[u8]
        ensures octets { result.now ≡ self.now }
        ensures few { length result.now ≤ MAX_PACKET_IN }
    {
        self.octets.as_slice()
    }

    pub(crate) fn progress(&self) -> Progress
        ensures { Progresses self.now result }
    {
        progress_at(self.octets.as_slice())
    }

    /// Appends at most `missing` octets and returns the rest.
    #[tactic(auto, using(crate::proofs::Beginning::goes_on))]
    pub(crate) fn fill<'a>(&mut self, missing: usize, octets: &'a [u8]) -> &'a [u8]
        requires { Progresses self.old (Progress.Lacks missing) }
        ensures begun { self.new ≡ self.old ++ take missing octets.now }
        ensures rest { result.now ≡ drop missing octets.now }
    {
        let (now, later) = octets.split_at(missing.min(octets.len()));
        self.octets.try_extend_from_slice(now).unwrap();
        later
    }

    pub(crate) fn clear(&mut self)
        ensures { self.new ≡ [] }
    {
        self.octets.clear();
    }
}
