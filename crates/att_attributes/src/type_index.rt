//! Binary search for the attributes of a type (Core 5.0, Vol 3 Part F, 3.2.1).

ghost use Rattle.std.specs.Prelude.{◌≡◌, ℕ, ◌+◌, ◌-◌, ◌/◌, ◌%◌, ◌^◌, ◌<◌, ◌≤◌, min, length, drop, take, slice_index_or, IfOk};
ghost use Rattle.att_attributes.specs.Attributes.{type_at, IsNumbered};
ghost use Rattle.att_attributes.specs.OfType.{handles_of_type, handles_by_type, runs_by_type};
ghost use Rattle.att_attributes.specs.TypeIndex.{place_of, place_from, handles_within, reach, IsAscending, IsIndex};
ghost use Rattle.att_numbers.specs.declared.limit.TheConstants.{MAX_ATTRIBUTES};

use crate::attr::Attr;
use std::alloc::{AllocError, Global};

/// A counter for the comparisons of a look-up.
pub trait Steps {
    ghost use Rattle.std.specs.Prelude.{ℕ};

    ghost count: { Self → ℕ };

    fn tick(&mut self)
        ensures counts { count self.new ≤ count self.old + 1 };
}

/// Counts nothing.
#[derive(Clone, Copy)]
pub struct Uncounted;

impl Steps for Uncounted {
    ghost count = { λ steps. 0 };

    fn tick(&mut self) {}
}

/// Counts comparisons, saturating.
#[derive(Clone, Copy)]
pub struct Counted {
    pub count: u32,
}

impl Steps for Counted {
    ghost count = { λ steps. steps.count };

    fn tick(&mut self)
        ensures counts { self.new.count ≤ self.old.count + 1 }
        ensures one_more { self.new.count ≡ min (self.old.count + 1) (2 ^ 32 - 1) }
    {
        self.count = self.count.saturating_add(1);
    }
}

/// The places of the handles of one type in an index.
#[derive(Clone, Copy)]
pub struct Run {
    /// The first place.
    pub begin: u16,
    /// The place after the last.
    pub end: u16,
}

/// Sorts the handles by type, those of one type ascending.
pub fn by_type(alloc: Global, attributes: &[Attr]) -> Result<Vec<u16>, AllocError>
    requires { IsNumbered attributes.now }
    ensures { IfOk result (λ index. index.items ≡ handles_by_type attributes.now) }
{
    let mut index = Vec::with_capacity(alloc, attributes.len())?;
    for place in (0..attributes.len()).rev() {
        let attr = attributes[place];
        let first = place_of(&index, attributes, attr.kind);
        index.insert(first, attr.handle)?;
    }
    Ok(index)
}

/// Returns the run of the type of each handle in the index.
pub fn runs_by_type(
    alloc: Global,
    attributes: &[Attr],
    index: &[u16],
) -> Result<Vec<Run>, AllocError>
    requires numbered { IsNumbered attributes.now }
    requires index { index.now ≡ handles_by_type attributes.now }
    ensures { IfOk result (λ runs. runs.items ≡ runs_by_type attributes.now) }
{
    let mut runs = Vec::with_capacity(alloc, index.len())?;
    let mut run = Run { begin: 0, end: 0 };
    for place in 0..index.len() {
        if usize::from(run.end) == place {
            run = Run {
                begin: run.end,
                end: end_from(index, attributes, run.end),
            };
        }
        runs.push(run)?;
    }
    Ok(runs)
}

fn place_of(index: &[u16], attributes: &[Attr], kind: u128) -> usize
    requires { IsIndex (type_at attributes.now) (length attributes.now) index.now }
    ensures place { result ≡ place_of (type_at attributes.now) index.now kind }
    ensures within { result ≤ length index.now }
{
    let mut low = 0;
    let mut high = index.len();
    while low < high {
        let middle = (low + high) / 2;
        if type_of(attributes, index[middle]) < kind {
            low = middle + 1;
        } else {
            high = middle;
        }
    }
    low
}

fn end_from(index: &[u16], attributes: &[Attr], place: u16) -> u16
    requires inside { place < length index.now }
    requires most { length index.now ≤ MAX_ATTRIBUTES }
    requires index { IsIndex (type_at attributes.now) (length attributes.now) index.now }
    ensures { result ≡ place_of (type_at attributes.now) index.now
        (type_at attributes.now (slice_index_or index.now place 0) + 1) }
{
    let kind = type_of(attributes, index[usize::from(place)]);
    let mut end = place + 1;
    while usize::from(end) < index.len() && type_of(attributes, index[usize::from(end)]) <= kind {
        end += 1;
    }
    end
}

/// Returns the handles of a type from `first` to `last`.
pub fn of_type<'a, S: Steps>(
    index: &'a [u16],
    runs: &[Run],
    attributes: &[Attr],
    kind: u128,
    first: u16,
    last: u16,
    steps: &mut S,
) -> &'a [u16]
    requires numbered { IsNumbered attributes.now }
    requires index { index.now ≡ handles_by_type attributes.now }
    requires runs { runs.now ≡ runs_by_type attributes.now }
    // The handles of the type in the range, in order.
    ensures handles { result.now ≡ handles_of_type attributes.now kind first last }
    // They are found with at most 22 comparisons, as they are counted.
    ensures steps { S.count steps.new ≤ S.count steps.old + 22 }
{
    let (upper, lower) = halves(kind);
    let mut low = 0;
    let mut high = index.len();
    while low < high {
        let middle = (low + high) / 2;
        // Counted as one comparison; the upper halves usually decide.
        let (own_upper, own_lower) = halves(type_of(attributes, index[middle]));
        steps.tick();
        if own_upper < upper {
            low = usize::from(runs[middle].end);
        } else if own_upper > upper {
            high = usize::from(runs[middle].begin);
        } else if own_lower < lower {
            low = usize::from(runs[middle].end);
        } else if own_lower > lower {
            high = usize::from(runs[middle].begin);
        } else {
            return in_range(in_run(index, runs[middle]), first, last, steps);
        }
    }
    &[]
}

#[inline(always)]
fn in_run(index: &[u16], run: Run) -> &[u16]
    requires begin { run.begin ≤ run.end }
    requires end { run.end ≤ length index.now }
    ensures { result.now ≡ drop run.begin (take run.end index.now) }
{
    &index[usize::from(run.begin)..usize::from(run.end)]
}

#[inline(always)]
fn in_range<'a, S: Steps>(handles: &'a [u16], first: u16, last: u16, steps: &mut S) -> &'a [u16]
    requires some { 0 < length handles.now }
    requires ascending { IsAscending handles.now }
    ensures handles { result.now ≡ handles_within first last handles.now }
    ensures steps { (turns : ℕ) → 0 < turns → length handles.now ≤ reach turns + 1
        → S.count steps.new ≤ S.count steps.old + 1 + turns + turns }
{
    let highest = handles.len() - 1;
    steps.tick();
    if handles[highest] <= last {
        // Usually the whole run is in range.
        steps.tick();
        if first <= handles[0] {
            return handles;
        }
        let start = first_from(handles, u32::from(first), 1, handles.len(), steps);
        return &handles[start..];
    }
    let end = first_from(handles, u32::from(last) + 1, 0, highest, steps);
    let start = first_from(handles, u32::from(first), 0, end, steps);
    &handles[start..end]
}

/// Returns how many ascending handles are below `handle`, capped at `most`.
///
/// At least `least` must be.
#[inline(always)]
fn first_from<S: Steps>(
    handles: &[u16],
    handle: u32,
    least: usize,
    most: usize,
    steps: &mut S,
) -> usize
    requires ascending { IsAscending handles.now }
    requires least { least ≤ place_from handles.now handle }
    requires before { least ≤ most }
    requires inside { most ≤ length handles.now }
    ensures place { result ≡ min (place_from handles.now handle) most }
    ensures steps { (turns : ℕ) → most - least ≤ reach turns
        → S.count steps.new ≤ S.count steps.old + turns }
{
    let mut low = least;
    let mut high = most;
    while low < high {
        let middle = (low + high) / 2;
        steps.tick();
        if u32::from(handles[middle]) < handle {
            low = middle + 1;
        } else {
            high = middle;
        }
    }
    low
}

#[inline(always)]
fn type_of(attributes: &[Attr], own: u16) -> u128
    requires first { 0 < own }
    requires last { own ≤ length attributes.now }
    ensures { result ≡ type_at attributes.now own }
{
    attributes[usize::from(own) - 1].kind
}

#[inline(always)]
fn halves(kind: u128) -> (u64, u64)
    ensures upper { result.0 ≡ kind / 2 ^ 64 }
    ensures lower { result.1 ≡ kind % 2 ^ 64 }
{
    ((kind >> 64) as u64, (kind % (1 << 64)) as u64)
}
