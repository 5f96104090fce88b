ghost use Rattle.std.specs.Prelude.{◌≡◌, ◌++◌, ◌≤◌, length, is_some};
ghost use Rattle.le_acl.specs.Reassembler.{assembled_of};
ghost use Rattle.sim_controller.specs.Assembled.{assembly, assembly_by};

use arrayvec::ArrayVec;
use le_acl::MAX_FRAME;
use std::cmp::Ordering;

#[derive(Drop)]
pub(crate) enum Assembled {
    /// No unfinished frame.
    Nothing,
    Unfinished(ArrayVec<u8, MAX_FRAME>),
    Frame(ArrayVec<u8, MAX_FRAME>),
}

impl Assembled {
    pub(crate) fn is_frame(&self) -> bool
        ensures { result ≡ is_some (assembly self.now).frame }
    {
        matches!(self, Assembled::Frame(_))
    }
}

#[derive(Clone, Copy)]
enum State {
    /// The header or payload is incomplete.
    Short,
    Whole,
    Long,
}

/// Appends a fragment to an unfinished frame (Core 5.0, Vol 3 Part A, 3.1). Returns `Nothing` if it
/// exceeds its stated length or `MAX_FRAME`.
pub(crate) fn assemble(earlier: &[u8], fragment: &[u8]) -> Assembled
    ensures { assembly result ≡ assembled_of (earlier.now ++ fragment.now) }
{
    let mut octets = ArrayVec::new();
    if octets.try_extend_from_slice(earlier).is_err() {
        return Assembled::Nothing;
    }
    if octets.try_extend_from_slice(fragment).is_err() {
        return Assembled::Nothing;
    }
    match state_of(&octets) {
        State::Short => Assembled::Unfinished(octets),
        State::Whole => Assembled::Frame(octets),
        State::Long => Assembled::Nothing,
    }
}

fn state_of(octets: &[u8]) -> State
    requires { length octets.now ≤ MAX_FRAME }
    ensures { assembly_by result octets.now ≡ assembled_of octets.now }
{
    let [low, high, _, _, payload @ ..] = octets else {
        return State::Short;
    };
    let size = usize::from(u16::from_le_bytes([*low, *high]));
    match payload.len().cmp(&size) {
        Ordering::Less => State::Short,
        Ordering::Equal => State::Whole,
        Ordering::Greater => State::Long,
    }
}
