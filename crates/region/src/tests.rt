// Any list is judged: one of a caller's own, which lies in no slice of records, and flat words.
ghost use Rattle.std.specs.Prelude.{length, get_or};

use crate::{Fault, Range, RegionList, validate_list};
use refusal::Refusal;

// Regions of 32 bytes, of which only the bases lie somewhere.
#[derive(Clone, Copy)]
struct Bases<'a>(&'a [u32]);

impl<'a> RegionList for Bases<'a> {
    ghost held = { λ b. length b.0.now };

    ghost range_at = { λ b i. record { base = get_or b.0.now i 0; size = 32 } };

    fn count(self) -> usize {
        self.0.len()
    }

    fn range(self, i: u32) -> Range {
        Range {
            base: self.0[i as usize],
            size: 32,
        }
    }
}

#[test]
fn judges_a_list_that_is_no_slice(rt: HostRuntime) {
    let row = [0u32, 32, 64, 33, 32];
    assert_eq!(rt; validate_list(Bases(&row[..3]), 3), Ok(()));
    assert_eq!(rt; validate_list(Bases(&row), 0), Ok(()));
    assert_eq!(rt; validate_list(Bases(&row), 6), Err(Fault::Short));
    assert_eq!(rt; validate_list(Bases(&row), u32::MAX), Err(Fault::Short));
    let why = Refusal::Misaligned;
    assert_eq!(rt;
        validate_list(Bases(&row), 5),
        Err(Fault::Unsound { at: 3, why })
    );
    let met = [64u32, 0, 32, 0, 64];
    assert_eq!(rt;
        validate_list(Bases(&met), 5),
        Err(Fault::Pair { i: 0, j: 4 })
    );
    assert_eq!(rt;
        validate_list(Bases(&met), 4),
        Err(Fault::Pair { i: 1, j: 3 })
    );
}

#[test]
fn judges_flat_words(rt: HostRuntime) {
    let words = [0u32, 64, 7, 32, 32, 7, 64, 33, 7, 64];
    assert_eq!(rt; validate_list(&words[..6], 1), Ok(()));
    assert_eq!(rt; validate_list(&words[..5], 2), Err(Fault::Short));
    assert_eq!(rt;
        validate_list(&words[..6], 2),
        Err(Fault::Pair { i: 0, j: 1 })
    );
    let why = Refusal::NoPowerOfTwo;
    assert_eq!(rt;
        validate_list(&words[..], 3),
        Err(Fault::Unsound { at: 2, why })
    );
    assert_eq!(rt; validate_list(&words[..], 4), Err(Fault::Short));
}

#[test]
fn answers_past_the_last_word(rt: HostRuntime) {
    let words = [0u32, 64, 7, 32];
    for (i, base, size) in [(0u32, 0, 64), (1, 32, 0), (2, 0, 0), (u32::MAX, 0, 0)] {
        let r = (&words[..]).range(i);
        assert_eq!(rt; (r.base, r.size), (base, size), "record {i}");
    }
}
