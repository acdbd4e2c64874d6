// Two forms that work on what they are lent: an MPU record, of which one place is written, and a list of region records, only read. Both are thin: what decides is by value.
#![tactic(auto)]

ghost use Rattle.std.specs.Prelude.{◌≡◌, take};
ghost use Rattle.refusal.specs.Refusal.{no_of};
ghost use Rattle.device.specs.Registers.{slot_count};
ghost use Rattle.device.specs.RegisterWrite.{write_register, written_of};
ghost use Rattle.region.specs.List.{judged_by};
ghost use Rattle.lent.specs.Records.{range_of, judged_of};

use device::{Mpu, Pair, Write};
use refusal::{Refusal, Refused};
use region::{Fault, Range, Record};

// How many records a list passed by value has.
pub const HELD: usize = 64;

// One record of a region list. attr is never read.
#[derive(Clone, Copy)]
pub struct MpuRegion {
    pub base: u32,
    pub size: u32,
    pub attr: u32,
}

impl From<MpuRegion> for Range {
    ghost from_gives = { λ r a. a ≡ range_of r };

    fn from(r: MpuRegion) -> Range {
        Range {
            base: r.base,
            size: r.size,
        }
    }
}

impl Record for MpuRegion {
    ghost range_of = { range_of };

    fn range(self) -> Range {
        Range::from(self)
    }
}

// Make this write in the MPU that I lend you; if you refuse it, leave the MPU alone.
// The write by value decides; what is accepted is stored in its one place, a slot or the control.
#[tactic(auto, unfolding(device::specs::RegisterWrite::write_register, device::specs::RegisterWrite::stored))]
pub fn write_lent(m: &mut Mpu, w: Write) -> Result<(), Refusal>
    ensures { (no_of result ≡ (write_register slot_count m.old w).no) × (m.new ≡ (write_register slot_count m.old w).mpu) }
{
    device::write_register(*m, w)?;
    // Stays: document 01 says "a thin function over the proved by-value write stores one slot or control", so the store stands here once more.
    let i = w.rnr as usize;
    if i < device::SLOTS {
        m.slots[i] = Pair::from(w);
    } else {
        m.control = w.rasr;
    }
    Ok(())
}

// Make this write in an MPU that I hold, and hand it back, with your reason where you refuse it.
// Stays: docs/PROMISES.md promises it, beside `device::write_register`, which says the same of the write by value.
pub fn write_through(m: Mpu, w: Write) -> Result<Mpu, Refused<Mpu>>
    ensures { written_of result ≡ write_register slot_count m w }
{
    let mut n = m;
    match write_lent(&mut n, w) {
        Ok(()) => Ok(n),
        Err(why) => Err(Refused { why, held: n }),
    }
}

// Are the first `count` of these records a valid list, and if not, which are to blame?
#[tactic(auto, using(crate::proofs::WordsLaws::as_records))]
pub fn validate_records(regions: &[MpuRegion], count: u32) -> Result<(), Fault>
    ensures { judged_by result ≡ judged_of regions.now count }
{
    region::validate_slice(regions, count)
}

// The same question of records that I hold.
// Stays: docs/PROMISES.md promises both forms by value, this and `validate_given`, of which the law `given` speaks; each is thin over the lent one.
pub fn validate_held(rs: [MpuRegion; HELD], count: u32) -> Result<(), Fault>
    ensures { judged_by result ≡ judged_of rs count }
{
    validate_records(&rs, count)
}

// The same question where only the first `have` of the records are given.
pub fn validate_given(rs: [MpuRegion; HELD], have: usize, count: u32) -> Result<(), Fault>
    ensures { judged_by result ≡ judged_of (take have rs) count }
{
    validate_records(&rs[..have.min(HELD)], count)
}
