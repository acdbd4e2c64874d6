// The modelled MPU: one register write, and the answer to one byte access.
// From the ARMv7-M manual, as the paper narrows it. Every routine takes any value of its types.
#![tactic(auto)]

ghost use Rattle.std.specs.Prelude.{◌≡◌, ◌<◌, ◌/◌, Some, ◌%◌, reverse};
ghost use Rattle.std.specs.List.{find, list_any};
ghost use Rattle.device.specs.Registers.{slot_count, allowed, enabled, size_field};
ghost use Rattle.device.specs.RegisterWrite.{triple_no, pair_of, refused_no, write_no, stored, write_register, written_of};
ghost use Rattle.device.specs.Permission.{row_at, row_answer, answered};
ghost use Rattle.device.specs.Packing.{packed, unpacked};
ghost use Rattle.device.specs.Decision.{bad, matches, private_bus, unmatched, judged, decision, number_of, decision_no, word_of};

use refusal::{Refusal, Refused};
use std::fmt;

pub const SLOTS: usize = 8;

// The register number that names the control.
pub const CTRL: u32 = 4294967295;

const PRIVATE_FIRST: u32 = 0xE000_0000;

const PRIVATE_LAST: u32 = 0xE00F_FFFF;

const LEAST_SIZE: u32 = 4;

// Where a field begins, as the value of its lowest bit. RBAR:
const VALID_AT: u32 = 16;

// RASR:
const SIZE_AT: u32 = 2;

const SUBREGIONS_AT: u32 = 256;

const AP_AT: u32 = 16777216;

// Control:
const PRIVDEFENA_AT: u32 = 4;

// A right of a permission row is one octal digit: read 1, read and write 3, undefined 4.
const UNDEFINED: u32 = 4;

// By AP: the unprivileged right, then the privileged.
// Stays: document 01 names a constant array of eight packed rows.
const ROWS: [u32; 8] = [0o00, 0o03, 0o13, 0o33, 0o44, 0o01, 0o11, 0o44];

// What one register write sends.
#[derive(Clone, Copy, Debug, Default, PartialEq, Eq)]
pub struct Write {
    pub rnr: u32,
    pub rbar: u32,
    pub rasr: u32,
}

// One slot.
#[derive(Clone, Copy, Debug, Default, PartialEq, Eq)]
pub struct Pair {
    pub rbar: u32,
    pub rasr: u32,
}

// What a write sends to a slot.
impl From<Write> for Pair {
    ghost from_gives = { λ w p. p ≡ pair_of w };

    fn from(w: Write) -> Pair {
        Pair {
            rbar: w.rbar,
            rasr: w.rasr,
        }
    }
}

#[derive(Clone, Copy, Debug, Default, PartialEq, Eq)]
pub struct Mpu {
    pub slots: [Pair; SLOTS],
    pub control: u32,
}

#[derive(Clone, Copy, Debug, PartialEq, Eq)]
pub enum Kind {
    Read,
    Write,
}

// An access of one byte.
#[derive(Clone, Copy, Debug, PartialEq, Eq)]
pub struct Access {
    pub address: u32,
    pub kind: Kind,
    pub privileged: bool,
}

#[derive(Clone, Copy, Debug, PartialEq, Eq)]
pub enum Answer {
    // The private bus, not judged.
    Private,
    Unchecked,
    Undefined,
    Permitted,
    Denied,
}

// The console's word for it.
impl fmt::Display for Answer {
    ghost output = { λ a. Some (word_of a) };

    fn fmt<W: fmt::Write>(&self, f: &mut fmt::Formatter<W>) -> fmt::Result {
        f.write_str(match self {
            Answer::Private => "private",
            Answer::Unchecked => "unchecked",
            Answer::Undefined => "undefined",
            Answer::Permitted => "permitted",
            Answer::Denied => "denied",
        })
    }
}

// May the MPU hold this control value?
#[tactic(auto, unfolding(crate::specs::Registers::allowed))]
pub fn is_allowed(control: u32) -> bool
    ensures { result ≡ allowed control }
{
    matches!(control, 0 | 1 | 4 | 5)
}

// Why would an MPU whose control is allowed refuse this write? The first reason.
#[tactic(auto, unfolding(crate::specs::RegisterWrite::triple_no, crate::specs::RegisterWrite::triple_refusals))]
pub fn refused_write(w: Write) -> Option<Refusal>
    ensures { refused_no result ≡ triple_no slot_count w }
{
    if (w.rnr as usize) < SLOTS {
        return (w.rbar / VALID_AT % 2 == 1).then_some(Refusal::ValidBit);
    }
    if w.rnr != CTRL {
        return Some(Refusal::NoRegister);
    }
    (!is_allowed(w.rasr)).then_some(Refusal::BadControl)
}

// Make one register write; a refused one hands back the MPU as it was.
#[tactic(auto, unfolding(crate::specs::RegisterWrite::write_register))]
pub fn write_register(m: Mpu, w: Write) -> Result<Mpu, Refused<Mpu>>
    ensures { written_of result ≡ write_register slot_count m w }
{
    match m.refuses(w) {
        Some(why) => Err(Refused { why, held: m }),
        None => Ok(m.store(w)),
    }
}

// What does the MPU answer to this access?
#[tactic(auto, using(crate::proofs::JudgedLaws::bad_found), unfolding(crate::specs::Decision::decision, crate::specs::Decision::decision_no))]
pub fn decide(m: Mpu, a: Access) -> Result<Answer, Refusal>
    ensures answer { result ≡ decision slot_count m a }
    ensures number { number_of result ≡ decision_no m }
{
    if !is_allowed(m.control) {
        return Err(Refusal::BadControl);
    }
    if is_private(a.address) {
        return Ok(Answer::Private);
    }
    if m.control % 2 == 0 {
        return Ok(Answer::Unchecked);
    }
    if m.has_bad() {
        return Ok(Answer::Undefined);
    }
    Ok(m.judge(a))
}

fn is_private(address: u32) -> bool
    ensures { result ≡ private_bus address }
{
    (PRIVATE_FIRST..=PRIVATE_LAST).contains(&address)
}

impl Mpu {
    // Why is this write refused? A bad held control comes first.
    #[tactic(auto, unfolding(crate::specs::RegisterWrite::write_no, crate::specs::RegisterWrite::triple_no, crate::specs::RegisterWrite::triple_refusals))]
    fn refuses(&self, w: Write) -> Option<Refusal>
        ensures { refused_no result ≡ write_no slot_count self.now w }
    {
        if !is_allowed(self.control) {
            return Some(Refusal::BadControl);
        }
        refused_write(w)
    }

    // The write stored in its one place, a slot or the control.
    #[tactic(auto, unfolding(crate::specs::RegisterWrite::stored))]
    fn store(mut self, w: Write) -> Mpu
        ensures { result ≡ stored slot_count self w }
    {
        let i = w.rnr as usize;
        if i < SLOTS {
            self.slots[i] = Pair::from(w);
        } else {
            self.control = w.rasr;
        }
        self
    }

    // Is some enabled slot one whose answer the paper leaves open?
    fn has_bad(&self) -> bool
        ensures { result ≡ list_any bad self.now.slots }
    {
        self.slots.iter().any(|p| p.is_bad())
    }

    // The highest slot that matches.
    fn deciding(&self, address: u32) -> Option<Pair>
        ensures { result ≡ find (matches address) (reverse self.now.slots) }
    {
        self.slots
            .iter()
            .rev()
            .find(|p| p.is_match(address))
            .copied()
    }

    // What the highest matching slot answers, or the background where none matches.
    #[tactic(auto, using(crate::proofs::JudgedLaws::judged_found))]
    fn judge(&self, a: Access) -> Answer
        ensures { result ≡ judged slot_count self.now a }
    {
        match self.deciding(a.address) {
            Some(p) => by_row(p.rasr / AP_AT % 8, a),
            None => background(self.control, a.privileged),
        }
    }
}

impl Pair {
    fn is_enabled(&self) -> bool
        ensures { result ≡ enabled self.now }
    {
        self.rasr % 2 == 1
    }

    fn size_field(&self) -> u32
        ensures { result ≡ size_field self.now }
    {
        self.rasr / SIZE_AT % 32
    }

    #[tactic(auto, unfolding(crate::specs::Decision::bad))]
    fn is_bad(&self) -> bool
        ensures { result ≡ bad self.now }
    {
        self.is_enabled()
            && (self.size_field() < LEAST_SIZE || self.rasr / SUBREGIONS_AT % 256 != 0)
    }

    // Two shifts divide by 2^(SIZE + 1), also where that is 2^32.
    #[tactic(auto, using(crate::proofs::BlockLaws::shifted), unfolding(crate::specs::Decision::matches))]
    fn is_match(&self, address: u32) -> bool
        ensures { result ≡ matches address self.now }
    {
        let size = self.size_field();
        self.is_enabled() && (address >> size) >> 1 == (self.rbar >> size) >> 1
    }
}

// What the row of this AP answers.
#[tactic(auto, unfolding(crate::specs::Permission::row_answer))]
fn by_row(ap: u32, a: Access) -> Answer
    requires { ap < 8 }
    ensures { result ≡ row_answer ap a.privileged a.kind }
{
    let row = row_of(ap);
    let kind = a.kind;
    if a.privileged {
        grant(row % 8, kind)
    } else {
        grant(row / 8, kind)
    }
}

fn row_of(ap: u32) -> u32
    requires { ap < 8 }
    ensures { result ≡ packed (row_at ap) }
{
    ROWS[ap as usize]
}

fn grant(right: u32, kind: Kind) -> Answer
    ensures { result ≡ unpacked right kind }
{
    if right == UNDEFINED {
        return Answer::Undefined;
    }
    match kind {
        Kind::Read => permit(right % 2 == 1),
        Kind::Write => permit(right / 2 % 2 == 1),
    }
}

// What is answered where no slot matches.
fn background(control: u32, privileged: bool) -> Answer
    ensures { result ≡ unmatched control privileged }
{
    permit(privileged && control / PRIVDEFENA_AT % 2 == 1)
}

fn permit(yes: bool) -> Answer
    ensures { result ≡ answered yes }
{
    if yes {
        Answer::Permitted
    } else {
        Answer::Denied
    }
}
