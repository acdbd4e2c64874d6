// The table: what each partition is granted. The empty table, the builder, covering. From mpu_switch.rs.
#![tactic(auto)]

mod numbers;

ghost use Rattle.std.specs.Prelude.{◌≡◌, Bool, ◌<◌};
ghost use Rattle.laws.specs.Search.{lowest, some};
ghost use Rattle.table.specs.Numbers.{parts, slots, cells, slotted};
ghost use Rattle.table.specs.Table.{with_entry, empty_table, entry_at, slot_entry, entry_answer, cell_answer};
ghost use Rattle.table.specs.Entries.{range_of, is_unsound, meets, covers_byte, slot_asked, Computes};
ghost use Rattle.table.specs.Lawful.{clash_at, lawful_part, lawful};
ghost use Rattle.table.specs.Covers.{cover_answer, covered_of};
ghost use Rattle.table.specs.Builder.{wanted, try_add, added_of, answered};

pub use numbers::{CELLS, Part, Slot};
use numbers::{PARTS, SLOTS, flat};
use refusal::{Refusal, Refused};
use region::Range;

// The four arrays of the source, flat: slot s of partition p lies at 8 x p + s.
// Stays: document 01 says "zero and false in all four arrays".
#[derive(Clone, Copy)]
pub struct Table {
    pub base: [u32; CELLS],
    pub size: [u32; CELLS],
    pub enabled: [bool; CELLS],
    pub writable: [bool; CELLS],
}

// What stands at one place of the table; by default zeros, not enabled.
#[derive(Clone, Copy, Default)]
pub struct Entry {
    pub base: u32,
    pub size: u32,
    pub enabled: bool,
    pub writable: bool,
}

// What a partition asks for.
#[derive(Clone, Copy)]
pub struct Request {
    pub base: u32,
    pub size: u32,
    pub writable: bool,
}

// The yes or no beside the number that `covers_addr` answers: no where it is refused.
pub fn yes_of(answer: Result<bool, Refusal>) -> bool
    ensures { result ≡ (covered_of answer).yes }
{
    answer.unwrap_or(false)
}

impl Entry {
    // Is it enabled, and no sound region?
    fn is_unsound(self) -> bool
        ensures { result ≡ is_unsound self }
    {
        self.enabled && region::validate_region(self.base, self.size).is_err()
    }

    // Is it enabled, and does it overlap this range?
    fn meets(self, r: Range) -> bool
        ensures { result ≡ meets r self }
    {
        self.enabled && region::ranges_meet(r, Range::from(self))
    }

    // Is it enabled, and base <= a < base + size? No sum is made that could wrap.
    fn covers(self, a: u32) -> bool
        ensures { result ≡ covers_byte a self }
    {
        self.enabled && self.base <= a && a - self.base < self.size
    }
}

// The bytes of an entry.
impl From<Entry> for Range {
    ghost from_gives = { λ e r. r ≡ range_of e };

    fn from(e: Entry) -> Range {
        Range {
            base: e.base,
            size: e.size,
        }
    }
}

// The bytes that a request asks for.
impl From<Request> for Range {
    ghost from_gives = { λ q r. r ≡ wanted q };

    fn from(q: Request) -> Range {
        Range {
            base: q.base,
            size: q.size,
        }
    }
}

impl Table {
    // Nothing is granted.
    pub fn new() -> Table
        ensures { result ≡ empty_table slots }
    {
        Table {
            base: [0; CELLS],
            size: [0; CELLS],
            enabled: [false; CELLS],
            writable: [false; CELLS],
        }
    }

    // Grants a request, in the lowest free slot of its partition, or says why not and hands the table back.
    // Stays: by value, here and in `covers_addr`: document 01 says "`&self` and `&mut self` on the table become values in and out".
    pub fn try_add_region(self, part: u32, q: Request) -> Result<Table, Refused<Table>>
        ensures { added_of result ≡ try_add slots self part q }
    {
        self.added(part, q)
            .map_err(|why| Refused { why, held: self })
    }

    // Does some enabled entry of the partition contain this byte?
    pub fn covers_addr(self, part: u32, address: u32) -> Result<bool, Refusal>
        ensures { covered_of result ≡ cover_answer slots self part address }
    {
        let p = Part::new(part).ok_or(Refusal::NoPartition)?;
        Ok(self.some_slot(p, 0, |e| e.covers(address)))
    }

    // Is every enabled entry sound, and do no two of one partition overlap?
    pub fn lawful(&self) -> bool
        ensures { result ≡ lawful slots self.now }
    {
        (0..PARTS).all(|p| self.lawful_part(Part::at(p)))
    }

    // The entry of a slot; an empty one where the partition or the slot is out of range.
    pub fn entry(&self, p: Part, s: Slot) -> Entry
        ensures { result ≡ entry_answer slots self.now p.0 s.0 }
    {
        if PARTS <= p.number() {
            return Entry::default();
        }
        if SLOTS <= s.number() {
            return Entry::default();
        }
        self.peek(p, s)
    }

    // What the four arrays hold at a place, counted through all partitions; an empty entry beyond the last place.
    pub fn cell(&self, at: u32) -> Entry
        ensures { result ≡ cell_answer slots self.now at }
    {
        let i = at as usize;
        if CELLS <= i {
            return Entry::default();
        }
        self.entry_at(i)
    }

    // The table with the request granted, or why not.
    fn added(&self, part: u32, q: Request) -> Result<Table, Refusal>
        ensures { answered self.now result ≡ try_add slots self.now part q }
    {
        let p = Part::new(part).ok_or(Refusal::NoPartition)?;
        if !self.lawful() {
            return Err(Refusal::Unlawful);
        }
        region::validate_region(q.base, q.size)?;
        let wanted = Range::from(q);
        if self.some_slot(p, 0, |e| e.meets(wanted)) {
            return Err(Refusal::Overlap);
        }
        let free = self.first_slot(p, 0, |e| !e.enabled).ok_or(Refusal::Full)?;
        Ok(self.with(
            flat(p, free),
            Entry {
                base: q.base,
                size: q.size,
                enabled: true,
                writable: q.writable,
            },
        ))
    }

    fn lawful_part(&self, p: Part) -> bool
        requires { p.0 < parts }
        ensures { result ≡ lawful_part slots self.now p.0 }
    {
        !self.some_slot(p, 0, Entry::is_unsound)
            && !(0..SLOTS).any(|s| self.clashes_at(p, Slot::at(s)))
    }

    // Is this entry enabled, and does a later one of the partition meet it?
    fn clashes_at(&self, p: Part, s: Slot) -> bool
        requires { (p.0 < parts) × (s.0 < slots) }
        ensures { result ≡ clash_at slots self.now p.0 s.0 }
    {
        let e = self.peek(p, s);
        let r = Range::from(e);
        e.enabled && self.some_slot(p, s.number() + 1, |later| later.meets(r))
    }

    // Is there a slot from this one on whose entry passes the test?
    fn some_slot<F: Fn(Entry) -> bool>(&self, p: Part, from: u32, test: F) -> bool
        requires within { p.0 < parts }
        requires callable { F.IsAlwaysCallable test }
        ensures { (f : Entry → Bool) → Computes (F.post test) f → result ≡ some (slot_asked slots self.now p.0 f) from slots }
    {
        self.first_slot(p, from, test).is_some()
    }

    // The lowest slot from this one on whose entry passes the test, if one does.
    fn first_slot<F: Fn(Entry) -> bool>(&self, p: Part, from: u32, test: F) -> Option<Slot>
        requires within { p.0 < parts }
        requires callable { F.IsAlwaysCallable test }
        ensures { (f : Entry → Bool) → Computes (F.post test) f → result ≡ slotted (lowest (slot_asked slots self.now p.0 f) from slots) }
    {
        for s in from..SLOTS {
            let slot = Slot::at(s);
            if test(self.peek(p, slot)) {
                return Some(slot);
            }
        }
        None
    }

    fn peek(&self, p: Part, s: Slot) -> Entry
        requires { (p.0 < parts) × (s.0 < slots) }
        ensures { result ≡ slot_entry slots self.now p.0 s.0 }
    {
        self.entry_at(flat(p, s))
    }

    fn entry_at(&self, i: usize) -> Entry
        requires { i < cells }
        ensures { result ≡ entry_at self.now i }
    {
        Entry {
            base: self.base[i],
            size: self.size[i],
            enabled: self.enabled[i],
            writable: self.writable[i],
        }
    }

    fn with(&self, i: usize, e: Entry) -> Table
        requires { i < cells }
        ensures { result ≡ with_entry self.now i e }
    {
        let mut t = *self;
        t.base[i] = e.base;
        t.size[i] = e.size;
        t.enabled[i] = e.enabled;
        t.writable[i] = e.writable;
        t
    }
}
