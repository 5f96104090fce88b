ghost use Rattle.std.specs.Prelude.{◌≡◌, ℕ, ◌+◌, ◌-◌, ◌<◌, ◌≤◌, ◌↔◌, [], ◌++◌, length, take, drop, ◌∷◌, Some, None, true, IsTrue, IsSome, IsNone, IfOk, IfSome, OnOk, if◌then◌else◌};
ghost use Rattle.std.specs.Option.{option_map};
ghost use Rattle.octet_io.specs.Number.{Octets};
ghost use Rattle.le_h4.specs.Packet.{packet_of_ref, first_of, Spells};
ghost use Rattle.le_h4.specs.Division.{unfinished, lost, before, kept_first};
ghost use Rattle.le_h4.specs.Deframer.{deframing_at_start, lost_at, still, marks, EndsWith, MarksTheDivision};
ghost use Rattle.le_h4.specs.Progress.{IsWithinFirst, packet_in};
ghost use Rattle.le_h4.specs.Gathering.{Gathers, GoesOn, fed_of};
ghost use Rattle.le_h4.specs.Held.{deframing_of, unless_marked};
ghost use Rattle.le_h4.specs.Whole.{lying_in, is_at_border};
ghost use Rattle.le_h4.specs.declared.progress.TheConstants.{MAX_PACKET_IN};

use crate::gathered::Gathered;
use crate::packet::{PacketRef, WholePacket, first_packet, read_packet};
use crate::progress::{Progress, known_size, progress_at};
use std::marker::Model;

/// Part of a piece that `feed` consumed.
#[derive(Clone, Copy, Debug, PartialEq, Eq)]
pub struct Fed {
    /// Octets consumed.
    pub used: usize,
    /// True if they end a packet, which is then marked.
    pub packet: bool,
}

/// Reason why a stream cannot be divided further.
#[derive(Clone, Copy, Debug, PartialEq, Eq)]
pub enum H4Fault {
    /// An octet in the place of an indicator that no packet has.
    Desync(u8),
}

/// A deframer, which finds the packets of a stream that arrives in pieces. It stores one packet, of
/// at most 1,029 octets.
#[derive(Drop)]
pub struct Deframer {
    /// The marked packet, or the octets of the next one so far.
    gathered: Gathered,
    marked: bool,
    /// Octets of a long ACL packet still to skip.
    skipping: usize,
    /// True if no packet is unfinished or being skipped.
    at_border: bool,
}

impl Model for Deframer {
    ghost use Rattle.le_h4.specs.Deframer.{Deframing};

    ghost Value = { Deframing };

    ghost use Rattle.std.specs.Prelude.{◌≡◌};
    ghost use Rattle.le_h4.specs.Held.{deframing_of, IsHeld};
    ghost use Rattle.le_h4.specs.Whole.{is_at_border};

    ghost view = { λ d. deframing_of d.skipping d.gathered d.marked };

    ghost invariant = { λ d. IsHeld d.skipping d.gathered d.marked
        × (d.at_border ≡ is_at_border (deframing_of d.skipping d.gathered d.marked)) };
}

impl Deframer {
    /// Creates a deframer at the start of a stream.
    #[tactic(auto, using(crate::proofs::Laws::packets_feeds))]
    pub fn new() -> Self
        ensures at_start { result ≡ deframing_at_start }
        // However the stream is cut, `feed` and `whole_packet` find the same packets.
        ensures division { MarksTheDivision }
    {
        Deframer {
            gathered: Gathered::new(),
            marked: false,
            skipping: 0,
            at_border: true,
        }
    }

    /// Consumes octets up to the end of the next packet, and marks it. If no packet ends, consumes
    /// all octets.
    ///
    /// Skips ACL packets with more than 1,024 octets of data. After `Desync`, each call returns the
    /// same error and changes nothing.
    pub fn feed(&mut self, octets: &[u8]) -> Result<Fed, H4Fault>
        // The marked packet comes first, whatever octets follow.
        ensures divided { IfOk result
            (λ fed. (rest : Octets) → still self.old (take fed.used octets.now ++ rest)
            ≡ before (marks self.new) (still self.new rest)) }
        ensures marked { IfOk result (λ fed. IsTrue fed.packet ↔ IsSome self.new.marked) }
        ensures spelled { IfOk result (λ fed. IfSome self.new.marked
            (EndsWith (self.old.gathered ++ take fed.used octets.now))) }
        ensures used { IfOk result (λ fed. fed.used ≤ length octets.now) }
        ensures used_some { IfOk result (λ fed. IsSome self.new.marked → 0 < fed.used) }
        ensures used_all { IfOk result
            (λ fed. IsNone self.new.marked → fed.used ≡ length octets.now) }
        // No whole packet is held back.
        ensures unfinished { OnOk result (still self.new [] ≡ unfinished) }
        // The stream is lost exactly at an octet that begins no packet.
        ensures desync { (indicator : ℕ)
            → (result ≡ Err (H4Fault.Desync indicator)) ↔
            (still self.old octets.now ≡ lost indicator) }
        ensures desynced { (indicator : ℕ) → result ≡ Err (H4Fault.Desync indicator)
            → self.new ≡ lost_at indicator }
    {
        forget(&mut self.gathered, self.marked);
        match gather(&mut self.gathered, &mut self.skipping, octets) {
            Ok(fed) => {
                self.marked = fed.packet;
                self.at_border = is_at_border(&self.gathered, self.skipping, fed.packet);
                Ok(fed)
            }
            Err(fault) => {
                self.marked = false;
                self.at_border = is_at_border(&self.gathered, self.skipping, false);
                Err(fault)
            }
        }
    }

    /// Returns the packet at the start of `octets`, and leaves the deframer unchanged. The caller
    /// then feeds the octets after the packet.
    ///
    /// Returns `None` inside a packet, or if the packet is incomplete or would be skipped: `feed`
    /// these octets.
    #[inline(always)]
    pub fn whole_packet<'a>(&self, octets: &'a [u8]) -> Option<WholePacket<'a>>
        ensures first { option_map (lying_in octets.now) result
            ≡ (if is_at_border self.now then kept_first (first_of octets.now) else None) }
        ensures divided { IfSome result
            (λ whole. (rest : Octets) → still self.now (take whole.used octets.now ++ rest)
            ≡ before (packet_of_ref whole.packet ∷ []) (still self.now rest)) }
        ensures spelled { IfSome result
            (λ whole. Spells (take whole.used octets.now) (packet_of_ref whole.packet)) }
        ensures used { IfSome result (λ whole. whole.used ≤ length octets.now) }
        ensures used_some { IfSome result (λ whole. 0 < whole.used) }
        ensures unfinished { IfSome result (λ whole. still self.now [] ≡ unfinished) }
    {
        if self.at_border {
            first_packet(octets)
        } else {
            None
        }
    }

    /// Returns the packet that the last call of `feed` marked.
    pub fn packet(&self) -> PacketRef<'_>
        requires { IsSome self.now.marked }
        ensures { self.now.marked ≡ Some (packet_of_ref result) }
    {
        read_packet(self.gathered.as_slice())
    }
}

fn is_at_border(gathered: &Gathered, skipping: usize, marked: bool) -> bool
    requires { marked ≡ true → skipping ≡ 0 }
    ensures { result ≡ is_at_border (deframing_of skipping gathered.now marked) }
{
    marked || (skipping == 0 && gathered.is_empty())
}

fn forget(gathered: &mut Gathered, marked: bool)
    ensures { gathered.new ≡ unless_marked marked gathered.old }
{
    if marked {
        gathered.clear();
    }
}

/// Gathers octets up to the end of a packet, or all. A known size allows one copy.
fn gather(gathered: &mut Gathered, skipping: &mut usize, octets: &[u8]) -> Result<Fed, H4Fault>
    requires fits { IsWithinFirst gathered.old }
    requires unfinished { packet_in (first_of gathered.old) ≡ None }
    requires passes { 0 < skipping.old → gathered.old ≡ [] }
    ensures gathers { Gathers skipping.old gathered.old octets.now result skipping.new
        gathered.new }
{
    if *skipping == 0 {
        if gathered.is_empty() {
            if let Some(size) = known_size(&[], octets) {
                return Ok(fill_up(gathered, size, octets));
            }
        } else if let Some(missing) = go_on(gathered, octets) {
            return Ok(fed_of(missing, octets));
        }
    }
    gather_by_parts(gathered, skipping, octets)
}

/// Continues the gathered packet. Returns how many octets it lacked, if its size is known. Not
/// inlined, so that whole packets save no registers for it.
#[inline(never)]
fn go_on(gathered: &mut Gathered, octets: &[u8]) -> Option<usize>
    requires { packet_in (first_of gathered.old) ≡ None }
    ensures goes_on { IfSome result
        (λ missing. GoesOn gathered.old octets.now missing gathered.new) }
    ensures unchanged { IsNone result → gathered.new ≡ gathered.old }
{
    let so_far = gathered.as_slice();
    let size = known_size(so_far, octets)?;
    let missing = size - so_far.len();
    fill(gathered, missing, octets);
    Some(missing)
}

#[inline(always)]
fn fill_up(gathered: &mut Gathered, missing: usize, octets: &[u8]) -> Fed
    requires { length gathered.old + missing ≤ MAX_PACKET_IN }
    ensures gathered { gathered.new ≡ gathered.old ++ take missing octets.now }
    ensures fed { result ≡ fed_of missing (length octets.now) }
{
    if missing <= octets.len() {
        gathered.append(&octets[..missing]);
    } else {
        gathered.append(octets);
    }
    fed_of(missing, octets)
}

#[inline(always)]
fn fed_of(missing: usize, octets: &[u8]) -> Fed
    ensures { result ≡ fed_of missing (length octets.now) }
{
    if missing <= octets.len() {
        Fed {
            used: missing,
            packet: true,
        }
    } else {
        Fed {
            used: octets.len(),
            packet: false,
        }
    }
}

/// Gathers header and data separately, and skips long packets.
#[cold]
#[inline(never)]
fn gather_by_parts(
    gathered: &mut Gathered,
    skipping: &mut usize,
    octets: &[u8],
) -> Result<Fed, H4Fault>
    requires fits { IsWithinFirst gathered.old }
    requires unfinished { packet_in (first_of gathered.old) ≡ None }
    requires passes { 0 < skipping.old → gathered.old ≡ [] }
    ensures gathers { Gathers skipping.old gathered.old octets.now result skipping.new
        gathered.new }
{
    let mut rest = octets;
    'packets: loop {
        rest = skip(skipping, rest);
        match progress_at(gathered.as_slice()) {
            Progress::Whole => {
                return Ok(Fed {
                    used: octets.len() - rest.len(),
                    packet: true,
                });
            }
            Progress::Desync(indicator) => return Err(H4Fault::Desync(indicator)),
            Progress::Long(missing) => {
                gathered.clear();
                *skipping = missing;
            }
            Progress::Lacks(_) if rest.is_empty() => {
                return Ok(Fed {
                    used: octets.len(),
                    packet: false,
                });
            }
            Progress::Lacks(missing) => rest = fill(gathered, missing, rest),
        }
    }
}

fn skip<'a>(skipping: &mut usize, octets: &'a [u8]) -> &'a [u8]
    ensures left { skipping.new ≡ skipping.old - length octets.now }
    ensures rest { result.now ≡ drop skipping.old octets.now }
{
    let count = octets.len().min(*skipping);
    *skipping -= count;
    &octets[count..]
}

/// Gathers at most `missing` octets and returns the rest.
fn fill<'a>(gathered: &mut Gathered, missing: usize, octets: &'a [u8]) -> &'a [u8]
    requires { length gathered.old + missing ≤ MAX_PACKET_IN }
    ensures gathered { gathered.new ≡ gathered.old ++ take missing octets.now }
    ensures rest { result.now ≡ drop missing octets.now }
{
    let (now, later) = octets.split_at(missing.min(octets.len()));
    gathered.append(now);
    later
}
