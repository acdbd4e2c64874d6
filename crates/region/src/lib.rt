// Region arithmetic: power of two, one region, the overlap of two ranges, a region list.
// From mpu.rs. Every routine takes any input and refuses as the paper does.
#![tactic(auto)]

mod lists;
#[cfg(test)]
mod tests;

ghost use Rattle.std.specs.Prelude.{◌≡◌, Some, ◌+◌, ◌^◌, ◌<◌, ◌≤◌, ltb, length, map};
ghost use Rattle.std.specs.Fmt.{decimal};
ghost use Rattle.laws.specs.Pick.{pick};
ghost use Rattle.laws.specs.Power.{is_pow2};
ghost use Rattle.refusal.specs.Refusal.{no_of};
ghost use Rattle.region.specs.declared.Range.{Range};
ghost use Rattle.region.specs.Sound.{region_no};
ghost use Rattle.region.specs.Overlap.{overlaps, passes, overlap_answer, overlap_of};
ghost use Rattle.region.specs.List.{range_at, range_in, record_at, records, unsound_of, pair_of, pair_found, judged, list_no, list_places, number_of, places_of, judged_by, fault_no};

pub use lists::{RegionList, validate_list};
use refusal::{Numbered, Refusal};
use std::error::Error;
use std::fmt;

pub const MIN_REGION_SIZE: u32 = 32;

const LAST_BYTE: u64 = 4294967295;

// Above the end of every range.
const ENDS: u64 = 8589934592;

#[derive(Clone, Copy)]
pub struct Range {
    pub base: u32,
    pub size: u32,
}

// Why a region list is not valid.
#[derive(Clone, Copy, Debug, PartialEq, Eq)]
pub enum Fault {
    // The count is beyond the whole records.
    Short,
    // The lowest unsound record, and why it is refused.
    Unsound { at: u32, why: Refusal },
    // The first pair that overlaps.
    Pair { i: u32, j: u32 },
}

impl Numbered for Fault {
    ghost number_of = { fault_no };

    fn number(&self) -> u32 {
        match self {
            Fault::Short => Refusal::Short.number(),
            Fault::Unsound { why, .. } => why.number(),
            Fault::Pair { .. } => Refusal::Overlap.number(),
        }
    }
}

impl fmt::Display for Fault {
    ghost output = { λ e. Some (decimal (fault_no e)) };

    fn fmt<W: fmt::Write>(&self, f: &mut fmt::Formatter<W>) -> fmt::Result {
        write!(f, "{}", self.number())
    }
}

impl Error for Fault {}

// One record of a list of regions, and where its region lies.
pub trait Record: Copy {
    ghost range_of: { Self → Range };

    fn range(self) -> Range
        ensures { result ≡ range_of self };
}

// Three flat words: base, size and attr, which is never read.
impl Record for [u32; 3] {
    ghost range_of = { range_in };

    fn range(self) -> Range {
        Range {
            base: self[0],
            size: self[1],
        }
    }
}

// Is n a power of two?
// Stays: document 01 gives this place its form (counting ones) with a later request.
#[tactic(auto, using(laws::proofs::PowerLaws::zero_no_power, laws::proofs::PowerLaws::mask_test))]
pub fn is_power_of_two(n: u32) -> bool
    ensures { result ≡ is_pow2 n }
{
    if n == 0 {
        return false;
    }
    (n & (n - 1)) == 0
}

// Is this region sound? If not, the first reason why not.
#[tactic(auto, using(laws::proofs::PowerLaws::pow2_exactly, laws::proofs::PowerLaws::mask_mod), unfolding(crate::specs::Sound::region_no, crate::specs::Sound::soundness))]
pub fn validate_region(base: u32, size: u32) -> Result<(), Refusal>
    ensures { no_of result ≡ region_no base size }
{
    if !is_power_of_two(size) {
        return Err(Refusal::NoPowerOfTwo);
    }
    if size < MIN_REGION_SIZE {
        return Err(Refusal::TooSmall);
    }
    if base & (size - 1) != 0 {
        return Err(Refusal::Misaligned);
    }
    fits(Range { base, size })
}

// Do the two ranges share ground?
#[tactic(auto, unfolding(crate::specs::Overlap::overlap_answer))]
pub fn regions_overlap(a: Range, b: Range) -> Result<bool, Refusal>
    ensures { overlap_of result ≡ overlap_answer a b }
{
    fits(a)?;
    fits(b)?;
    Ok(ranges_meet(a, b))
}

// The yes or no beside that answer's number: no where it is refused.
pub fn yes_of(answer: Result<bool, Refusal>) -> bool
    ensures { result ≡ (overlap_of answer).yes }
{
    answer.unwrap_or(false)
}

// Is this a valid list, each region sound and no two overlapping? Records of three words, base, size and attr; the first `count` are judged.
pub fn validate_region_set(words: &[u32], count: u32) -> Result<(), Fault>
    ensures answer { judged_by result ≡ judged (record_at words.now) (records words.now) count }
    ensures number { number_of (judged_by result) ≡ list_no (record_at words.now) (records words.now) count }
    ensures places { places_of (judged_by result) ≡ list_places (record_at words.now) (records words.now) count }
{
    let (whole, _) = words.as_chunks::<3>();
    validate_slice(whole, count)
}

// The same question of a slice of any records.
#[tactic(auto, unfolding(crate::specs::List::judged, crate::specs::List::unsound_of))]
pub fn validate_slice<R: Record>(list: &[R], count: u32) -> Result<(), Fault>
    ensures { judged_by result ≡ judged (range_at (map R.range_of list.now)) (length list.now) count }
{
    if list.len() < count as usize {
        return Err(Fault::Short);
    }
    each_sound(list, count)?;
    match first_pair(list, count) {
        Some((i, j)) => Err(Fault::Pair { i, j }),
        None => Ok(()),
    }
}

// Is each of the first n records sound? If not, the lowest that is not.
#[tactic(auto, using(laws::proofs::SearchLaws::lowest_here, laws::proofs::SearchLaws::lowest_next, laws::proofs::SearchLaws::lowest_end), unfolding(crate::specs::List::unsound_of))]
fn each_sound<R: Record>(list: &[R], n: u32) -> Result<(), Fault>
    requires { n ≤ length list.now }
    ensures { judged_by result ≡ unsound_of (range_at (map R.range_of list.now)) n }
{
    for i in 0..n {
        let r = range_at(list, i);
        validate_region(r.base, r.size).map_err(|why| Fault::Unsound { at: i, why })?;
    }
    Ok(())
}

// The first pair that overlaps: lowest i, then lowest j.
#[tactic(auto, using(laws::proofs::SearchLaws::lowest_next, laws::proofs::SearchLaws::lowest_end, laws::proofs::PairLaws::pair_next, crate::proofs::FoundLaws::pair_there, crate::proofs::FoundLaws::pair_end))]
fn first_pair<R: Record>(list: &[R], n: u32) -> Option<(u32, u32)>
    requires { n ≤ length list.now }
    ensures { pair_found result ≡ pair_of (range_at (map R.range_of list.now)) n }
{
    'pairs: {
        for i in 0..n {
            let a = range_at(list, i);
            for j in i + 1..n {
                if ranges_meet(a, range_at(list, j)) {
                    break 'pairs Some((i, j));
                }
            }
        }
        None
    }
}

// Range i of the list.
#[tactic(auto, using(crate::proofs::RecordLaws::range_there))]
fn range_at<R: Record>(list: &[R], i: u32) -> Range
    requires { i < length list.now }
    ensures { result ≡ range_at (map R.range_of list.now) i }
{
    list[i as usize].range()
}

// The formula of the paper alone, in whole numbers: no sum wraps, nothing is refused. Each test of it is a number, 0 where it holds and 1 where it fails,
// so that the two are one test: which of them fails is chance, and a wrong guess at a branch costs more than a sum.
// Stays: the two tests joined by `&&` miss the bar of speed (docs/PROVING.md, "Speed").
#[tactic(auto, unfolding(crate::specs::Overlap::overlaps))]
pub fn ranges_meet(a: Range, b: Range) -> bool
    ensures { result ≡ overlaps a b }
{
    not_below(a.base, end_of(b)) + not_below(b.base, end_of(a)) == 0
}

// 0 where the base is below the end, 1 where it is not.
fn not_below(base: u32, end: u64) -> u64
    requires { end < 2 ^ 33 }
    ensures { (result ≤ 1) × (result ≡ pick (ltb base end) 0 1) }
{
    (ENDS + (base as u64) - end) / ENDS
}

// Does the range end at 4294967295 or before?
fn fits(a: Range) -> Result<(), Refusal>
    ensures { no_of result ≡ pick (passes a) 5 0 }
{
    if LAST_BYTE < end_of(a) {
        return Err(Refusal::TooFar);
    }
    Ok(())
}

fn end_of(a: Range) -> u64
    ensures { result ≡ a.base + a.size }
{
    (a.base as u64) + (a.size as u64)
}
