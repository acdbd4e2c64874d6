// The ten register writes that switch the MPU to a partition. From mpu_switch.rs.
#![tactic(auto)]

ghost use Rattle.std.specs.Prelude.{◌≡◌, true, ◌<◌};
ghost use Rattle.region.specs.Sound.{region_no};
ghost use Rattle.device.specs.Registers.{ctrl};
ghost use Rattle.table.specs.Numbers.{parts, slots};
ghost use Rattle.table.specs.Lawful.{lawful};
ghost use Rattle.sequence.specs.Sequence.{triple, slot_write, write_at, writes, sequence, sequence_of};

use device::Write;
use fields::Attributes;
use refusal::Refusal;
use std::array;
use table::{Entry, Part, Slot, Table};

pub const WRITES: usize = 10;

const DISABLE: u32 = 0;

const ENABLE: u32 = 1;

// Which writes switch the MPU to this partition?
#[tactic(auto, unfolding(crate::specs::Sequence::sequence, crate::specs::Sequence::sequence_no))]
pub fn program_partition(t: Table, part: u32) -> Result<[Write; WRITES], Refusal>
    ensures { sequence_of result ≡ sequence slots t part }
{
    let p = Part::new(part).ok_or(Refusal::NoPartition)?;
    if !t.lawful() {
        return Err(Refusal::Unlawful);
    }
    Ok(all_writes(&t, p))
}

// The ten writes beside that answer's number: zeros where it is refused.
pub fn writes_of(answer: Result<[Write; WRITES], Refusal>) -> [Write; WRITES]
    ensures { result ≡ (sequence_of answer).writes }
{
    answer.unwrap_or([Write::default(); WRITES])
}

fn all_writes(t: &Table, p: Part) -> [Write; WRITES]
    requires { (p.0 < parts) × (lawful slots t.now ≡ true) }
    ensures { result ≡ writes slots t.now p.0 }
{
    array::from_fn(|i| write_at(t, p, i as u32))
}

#[tactic(auto, using(crate::proofs::SoundWrites::made_sound, crate::proofs::SoundWrites::made_write), unfolding(crate::specs::Sequence::write_at))]
fn write_at(t: &Table, p: Part, i: u32) -> Write
    requires { (p.0 < parts) × (lawful slots t.now ≡ true) }
    ensures { result ≡ write_at slots t.now p.0 i }
{
    if i == 0 {
        return control(DISABLE);
    }
    match Slot::new(i - 1) {
        Some(s) => slot_write(s, t.entry(p, s)),
        None => control(ENABLE),
    }
}

fn control(value: u32) -> Write
    ensures { result ≡ triple ctrl 0 value }
{
    Write {
        rnr: device::CTRL,
        rbar: 0,
        rasr: value,
    }
}

#[tactic(auto, unfolding(crate::specs::Sequence::slot_write))]
fn slot_write(s: Slot, e: Entry) -> Write
    requires { e.enabled ≡ true → region_no e.base e.size ≡ 0 }
    ensures { result ≡ slot_write s.0 e }
{
    let rnr = s.number();
    if !e.enabled {
        return Write {
            rnr,
            ..Write::default()
        };
    }
    let a = Attributes {
        size: e.size,
        writable: e.writable,
    };
    Write {
        rnr,
        rbar: e.base,
        rasr: fields::rasr_for(a).unwrap(),
    }
}
