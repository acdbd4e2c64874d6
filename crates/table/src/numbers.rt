// A partition's number and a slot's number: each a type of its own, made within its bound by `new` and `at`, read by `number`, joined in `flat`
// alone. No other file can make one.
ghost use Rattle.std.specs.Prelude.{◌≡◌, ◌<◌};
ghost use Rattle.table.specs.Numbers.{parts, slots, flat_index, parted, slotted};

pub const PARTS: u32 = 4;

pub const SLOTS: u32 = 8;

// The places of a table: a slot of each partition.
pub const CELLS: usize = 32;

// Stays: two types of one shape, as document 01 says: "two tuple structs over u32 with bounded constructors".
// Stays: their bound is no invariant, and functions ask for it: the contract of `Table::entry` promises an empty entry for any number, by the law `entry_beyond`.
#[derive(Clone, Copy)]
pub struct Part(u32);

#[derive(Clone, Copy)]
pub struct Slot(u32);

impl Part {
    // The partition of this number, if there is one.
    pub fn new(n: u32) -> Option<Part>
        ensures { result ≡ parted n }
    {
        (n < PARTS).then_some(Part(n))
    }

    pub(crate) fn at(n: u32) -> Part
        requires { n < parts }
        ensures { result.0 ≡ n }
    {
        Part(n)
    }

    pub fn number(self) -> u32
        ensures { result ≡ self.0 }
    {
        self.0
    }
}

impl Slot {
    // The slot of this number, if there is one.
    pub fn new(n: u32) -> Option<Slot>
        ensures { result ≡ slotted n }
    {
        (n < SLOTS).then_some(Slot(n))
    }

    pub(crate) fn at(n: u32) -> Slot
        requires { n < slots }
        ensures { result.0 ≡ n }
    {
        Slot(n)
    }

    pub fn number(self) -> u32
        ensures { result ≡ self.0 }
    {
        self.0
    }
}

// The flat index, the one place where the two numbers meet.
pub(crate) fn flat(p: Part, s: Slot) -> usize
    ensures { result ≡ flat_index slots p.0 s.0 }
{
    (SLOTS as usize) * (p.0 as usize) + (s.0 as usize)
}
