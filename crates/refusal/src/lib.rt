// Why the box says no: a case for each number of the paper, and what a refused request hands back.
#![tactic(auto)]

ghost use Rattle.std.specs.Prelude.{◌≡◌, ℕ, Some};
ghost use Rattle.std.specs.Fmt.{decimal};
ghost use Rattle.refusal.specs.Refusal.{number, answer_no, held_by};

use std::error::Error;
use std::fmt;

// The paper's numbers, each with when it is given.
#[derive(Clone, Copy, Debug, PartialEq, Eq)]
pub enum Refusal {
    // The partition is above 3.
    NoPartition = 1,
    // The size is no power of two.
    NoPowerOfTwo = 2,
    // The size is below 32.
    TooSmall = 3,
    // The base is not a multiple of the size.
    Misaligned = 4,
    // Base + size is above 4294967295.
    TooFar = 5,
    // It overlaps an enabled entry of the partition, or two of a list overlap.
    Overlap = 6,
    // All slots of the partition are enabled.
    Full = 7,
    // The count is above the number of whole records lent.
    Short = 8,
    // The table is not lawful.
    Unlawful = 9,
    // The register is neither a slot's nor the control's.
    NoRegister = 10,
    // A slot's RBAR has bit 4 set.
    ValidBit = 11,
    // The control value is not 0, 1, 4 or 5.
    BadControl = 12,
}

// A refusal that hands back what it was given.
#[derive(Clone, Copy)]
pub struct Refused<T> {
    pub why: Refusal,
    pub held: T,
}

// What has one of the paper's numbers.
pub trait Numbered {
    ghost number_of: { Self → ℕ };

    fn number(&self) -> u32
        ensures { result ≡ number_of self.now };
}

impl Numbered for Refusal {
    ghost number_of = { number };

    fn number(&self) -> u32 {
        *self as u32
    }
}

impl<T> Numbered for Refused<T> {
    ghost number_of = { λ r. number r.why };

    fn number(&self) -> u32 {
        self.why.number()
    }
}

// An answer's number is its refusal's, and 0 where nothing is refused.
impl<T, E: Numbered> Numbered for Result<T, E> {
    ghost number_of = { answer_no E.number_of };

    fn number(&self) -> u32 {
        match self {
            Ok(_) => 0,
            Err(e) => e.number(),
        }
    }
}

// The reason alone, so that `?` lets go of what was handed back.
impl<T: Copy> From<Refused<T>> for Refusal {
    ghost from_gives = { λ r why. why ≡ r.why };

    fn from(r: Refused<T>) -> Refusal {
        r.why
    }
}

impl fmt::Display for Refusal {
    ghost output = { λ e. Some (decimal (number e)) };

    fn fmt<W: fmt::Write>(&self, f: &mut fmt::Formatter<W>) -> fmt::Result {
        write!(f, "{}", self.number())
    }
}

impl Error for Refusal {}

// What stands after an answer: the new value, or the one handed back.
pub fn settled<T>(answer: Result<T, Refused<T>>) -> T
    ensures { result ≡ held_by answer }
{
    match answer {
        Ok(x) => x,
        Err(e) => e.held,
    }
}
