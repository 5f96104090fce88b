ghost use Rattle.std.specs.Prelude.{◌≡◌, ◌≤◌, ◌↔◌, ◌++◌, length, take, Some, IsSome};
ghost use Rattle.le_acl.specs.Frame.{FragmentsMakeTheirFrame, is_frame};
ghost use Rattle.le_acl.specs.Reassembler.{GivesFrames, no_assembly, assembled_of, with_continuation, assembly_of};

use crate::frame::{HEADER, MAX_FRAME};
use octet_io::MAX_PDU;
use std::marker::Model;

/// Result of a fragment.
#[derive(Clone, Copy, PartialEq, Eq)]
pub enum Piece {
    /// No frame is complete.
    Nothing,
    /// A frame is complete.
    Frame,
}

/// State of the stored frame.
#[derive(Clone, Copy, PartialEq, Eq)]
enum State {
    Idle,
    Unfinished,
    Whole,
}

/// A reassembler of the L2CAP frames of one connection, of at most `MAX_FRAME` octets with header
/// (Core 5.0, Vol 3 Part A, 3.1).
#[derive(Drop)]
pub struct Reassembler {
    octets: [u8; MAX_FRAME],
    /// Number of stored octets.
    len: usize,
    state: State,
}

impl Model for Reassembler {
    ghost use Rattle.le_acl.specs.Reassembler.{Assembly};

    ghost Value = { Assembly };

    ghost use Rattle.std.specs.Prelude.{◌≤◌, take};
    ghost use Rattle.le_acl.specs.Reassembler.{assembly_of};
    ghost use Rattle.le_acl.specs.declared.frame.TheConstants.{MAX_FRAME};

    ghost view = { λ r. assembly_of r.state (take r.len r.octets) };

    ghost invariant = { λ r. r.len ≤ MAX_FRAME };
}

impl Reassembler {
    /// Creates an empty reassembler.
    #[tactic(auto, using(crate::proofs::Frames::assembled_frame, crate::proofs::Frames::fragments_frame))]
    pub fn new() -> Self
        ensures nothing { result ≡ no_assembly }
        // `start` and `more` find the frames of any fragments.
        ensures frames { GivesFrames }
        ensures fragments { FragmentsMakeTheirFrame }
    {
        Reassembler {
            octets: [0; MAX_FRAME],
            len: 0,
            state: State::Idle,
        }
    }

    /// Accepts a fragment that begins a frame. Drops an unfinished frame.
    pub fn start(&mut self, octets: &[u8]) -> Piece
        ensures after { self.new ≡ assembled_of octets.now }
        ensures frame { (result ≡ Piece.Frame) ↔ IsSome self.new.frame }
    {
        self.len = 0;
        self.state = join(&mut self.octets, &mut self.len, octets);
        self.piece()
    }

    /// Accepts a fragment that continues a frame. Ignores it if no frame is unfinished.
    pub fn more(&mut self, octets: &[u8]) -> Piece
        ensures after { self.new ≡ with_continuation self.old octets.now }
        ensures frame { (result ≡ Piece.Frame) ↔ IsSome self.new.frame }
    {
        self.state = match self.state {
            State::Unfinished => join(&mut self.octets, &mut self.len, octets),
            State::Idle | State::Whole => State::Idle,
        };
        self.piece()
    }

    /// Returns the frame that the last fragment completed.
    pub fn frame(&self) -> &[u8]
        requires { IsSome self.now.frame }
        ensures { self.now.frame ≡ Some result.now }
    {
        &self.octets[..self.len]
    }

    /// Drops the stored octets.
    pub fn clear(&mut self)
        ensures { self.new ≡ no_assembly }
    {
        self.state = State::Idle;
    }

    fn piece(&self) -> Piece
        ensures { (result ≡ Piece.Frame) ↔ IsSome self.now.frame }
    {
        match self.state {
            State::Whole => Piece::Frame,
            State::Idle | State::Unfinished => Piece::Nothing,
        }
    }
}

/// Returns true if `octets` are exactly one frame, of at most `MAX_FRAME` octets.
#[inline(always)]
pub fn is_frame(octets: &[u8]) -> bool
    ensures { result ≡ is_frame octets.now }
{
    match octets.len().checked_sub(HEADER) {
        Some(count) if count <= MAX_PDU => state_of(octets) == State::Whole,
        _ => false,
    }
}

#[inline(always)]
fn join(octets: &mut [u8; MAX_FRAME], len: &mut usize, fragment: &[u8]) -> State
    requires { len.old ≤ MAX_FRAME }
    ensures joined { assembly_of result (take len.new octets.new)
        ≡ assembled_of (take len.old octets.old ++ fragment.now) }
    ensures within { len.new ≤ MAX_FRAME }
{
    if fragment.len() > MAX_FRAME - *len {
        return State::Idle;
    }
    let end = *len + fragment.len();
    octets[*len..end].copy_from_slice(fragment);
    *len = end;
    state_of(&octets[..end])
}

#[inline(always)]
fn state_of(octets: &[u8]) -> State
    requires { length octets.now ≤ MAX_FRAME }
    ensures { assembly_of result octets.now ≡ assembled_of octets.now }
{
    let [low, high, _, _, payload @ ..] = octets else {
        return State::Unfinished;
    };
    let size = usize::from(u16::from_le_bytes([*low, *high]));
    // Most frames are complete, so this is checked first.
    if payload.len() == size {
        State::Whole
    } else if payload.len() < size {
        State::Unfinished
    } else {
        State::Idle
    }
}
