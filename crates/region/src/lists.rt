// Any list of regions that tells how many whole records it has and where each lies, though they lie in no slice.
ghost use Rattle.std.specs.Prelude.{◌≡◌, ℕ, ◌<◌, ◌≤◌};
ghost use Rattle.region.specs.declared.Range.{Range};
ghost use Rattle.region.specs.List.{record_at, records, unsound_of, pair_of, pair_found, judged, judged_by};

use crate::{Fault, Range, ranges_meet, validate_region};

const WORDS_EACH: usize = 3;

// A list of regions that is lent: how many whole records it has, and where each lies.
pub trait RegionList: Copy {
    ghost held: { Self → ℕ };

    ghost range_at: { Self → ℕ → Range };

    fn count(self) -> usize
        ensures { result ≡ held self };

    // Asked only for records that there are: on that a list of a caller's own may rely.
    fn range(self, i: u32) -> Range
        requires { i < held self }
        ensures { result ≡ range_at self i };
}

// Flat words, three a record: base, size and attr, which is never read. They answer for any i, with 0 where no word lies.
impl<'a> RegionList for &'a [u32] {
    ghost held = { λ ws. records ws.now };

    ghost range_at = { λ ws. record_at ws.now };

    fn count(self) -> usize
        ensures { result ≡ records self.now }
    {
        self.len() / WORDS_EACH
    }

    fn range(self, i: u32) -> Range
        ensures { result ≡ record_at self.now i }
    {
        let at = WORDS_EACH * i as usize;
        Range {
            base: self.get(at).copied().unwrap_or(0),
            size: self.get(at + 1).copied().unwrap_or(0),
        }
    }
}

// Are the first `count` records of any list valid, and if not, which are to blame?
// Stays: the searches of a slice stand beside these, since a slice is judged by what the programs run, and that is not to change (docs/LOOK-BACK.md, "Brought back").
#[tactic(auto, unfolding(crate::specs::List::judged, crate::specs::List::unsound_of))]
pub fn validate_list<L: RegionList>(list: L, count: u32) -> Result<(), Fault>
    ensures { judged_by result ≡ judged (L.range_at list) (L.held list) count }
{
    if list.count() < count as usize {
        return Err(Fault::Short);
    }
    each_sound(list, count)?;
    match first_pair(list, count) {
        Some((i, j)) => Err(Fault::Pair { i, j }),
        None => Ok(()),
    }
}

// Is each of the first n records sound? If not, the lowest that is not.
#[tactic(auto, using(laws::proofs::SearchLaws::lowest_here, laws::proofs::SearchLaws::lowest_next, laws::proofs::SearchLaws::lowest_end), unfolding(crate::specs::List::unsound_of))]
fn each_sound<L: RegionList>(list: L, n: u32) -> Result<(), Fault>
    requires { n ≤ L.held list }
    ensures { judged_by result ≡ unsound_of (L.range_at list) n }
{
    for i in 0..n {
        let r = list.range(i);
        validate_region(r.base, r.size).map_err(|why| Fault::Unsound { at: i, why })?;
    }
    Ok(())
}

// The first pair that overlaps: lowest i, then lowest j.
#[tactic(auto, using(laws::proofs::SearchLaws::lowest_next, laws::proofs::SearchLaws::lowest_end, laws::proofs::PairLaws::pair_next, crate::proofs::FoundLaws::pair_there, crate::proofs::FoundLaws::pair_end))]
fn first_pair<L: RegionList>(list: L, n: u32) -> Option<(u32, u32)>
    requires { n ≤ L.held list }
    ensures { pair_found result ≡ pair_of (L.range_at list) n }
{
    'pairs: {
        for i in 0..n {
            let a = list.range(i);
            for j in i + 1..n {
                if ranges_meet(a, list.range(j)) {
                    break 'pairs Some((i, j));
                }
            }
        }
        None
    }
}
