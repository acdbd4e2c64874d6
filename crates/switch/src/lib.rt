// A switch to a partition: stepwise and whole, with a log of what was written. From mpu_switch.rs.
#![tactic(auto)]

ghost use Rattle.std.specs.Prelude.{◌≡◌};
ghost use Rattle.device.specs.RegisterWrite.{refused_no};
ghost use Rattle.table.specs.Numbers.{slots};
ghost use Rattle.sequence.specs.Sequence.{sequence_of};
ghost use Rattle.switch.specs.Switch.{no_log, sent, fresh, started, stepped, step_no, step_due, whole, started_of, stepped_of};
ghost use Rattle.switch.specs.Applied.{bad_no, applied_no, write_all, applied, applied_of};

use device::{Mpu, Write};
use refusal::{Refusal, Refused};
use sequence::WRITES;
use table::Table;

// A switch under way: the MPU, the ten triples, how many of them were written, and what was.
// Stays: document 01 names the form of `position` beside `log`, "a position and a log of ten places", and "The log's length is the position".
#[derive(Clone, Copy)]
pub struct Switch {
    pub mpu: Mpu,
    pub writes: [Write; WRITES],
    pub position: u32,
    pub log: [Write; WRITES],
}

// What one step did, with the switch after it.
#[derive(Clone, Copy)]
pub enum Progress {
    Wrote(Switch),
    Finished(Switch),
}

// The MPU after ten triples, and what was written.
#[derive(Clone, Copy)]
pub struct Logged {
    pub mpu: Mpu,
    pub log: [Write; WRITES],
}

// A switch of this MPU that has written nothing and has nothing to write: zeros.
pub fn idle(m: Mpu) -> Switch
    ensures { result ≡ fresh slots m (no_log slots) }
{
    let none = [Write::default(); WRITES];
    Switch {
        mpu: m,
        writes: none,
        position: 0,
        log: none,
    }
}

// Begin a switch of this MPU to a partition: nothing is written yet. A refusal hands back a switch of this MPU that holds zeros.
#[tactic(auto, unfolding(crate::specs::Switch::started))]
pub fn start(m: Mpu, t: Table, part: u32) -> Result<Switch, Refused<Switch>>
    ensures { started_of result ≡ started slots m t part }
{
    let writes = writes_for(m, t, part).map_err(|why| Refused { why, held: idle(m) })?;
    Ok(Switch { writes, ..idle(m) })
}

// Make the next write of a switch, and only that.
#[tactic(auto, unfolding(crate::specs::Switch::stepped, crate::specs::Switch::step_due))]
pub fn step(s: Switch) -> Result<Progress, Refused<Switch>>
    ensures answer { stepped_of result ≡ stepped slots s }
    ensures number { step_no (stepped_of result).did ≡ step_due slots s }
{
    let at = s.position as usize;
    if WRITES <= at {
        return Ok(Progress::Finished(s));
    }
    let w = s.writes[at];
    let mpu = device::write_register(s.mpu, w).map_err(|e| Refused {
        why: e.why,
        held: s,
    })?;
    let mut next = s;
    next.mpu = mpu;
    next.position += 1;
    next.log[at] = w;
    Ok(Progress::Wrote(next))
}

// Switch this MPU to a partition: start, and all ten steps. No step of a switch that was started is refused, so the ten writes are made at once, and
// each is logged: a switch is not copied for each step.
#[tactic(auto, using(crate::proofs::RunLaws::whole_err, crate::proofs::RunLaws::whole_ok))]
pub fn switch_to_partition(m: Mpu, t: Table, part: u32) -> Result<Switch, Refused<Switch>>
    ensures { started_of result ≡ whole slots m t part }
{
    let s = start(m, t, part)?;
    Ok(Switch {
        mpu: write_all(m, &s.writes),
        writes: s.writes,
        position: WRITES as u32,
        log: s.writes,
    })
}

// Write ten triples that a hand made, if none of them is bad.
#[tactic(auto, unfolding(crate::specs::Applied::applied))]
pub fn apply_program(m: Mpu, ws: [Write; WRITES]) -> Result<Logged, Refused<Mpu>>
    ensures { applied_of result ≡ applied slots m ws }
{
    match refused_program(&m, &ws) {
        Some(why) => Err(Refused { why, held: m }),
        None => Ok(Logged {
            mpu: write_all(m, &ws),
            log: ws,
        }),
    }
}

// The log beside that answer's number: zeros where the triples are refused.
pub fn log_of(answer: Result<Logged, Refused<Mpu>>) -> [Write; WRITES]
    ensures { result ≡ (applied_of answer).log }
{
    match answer {
        Ok(done) => done.log,
        Err(_) => [Write::default(); WRITES],
    }
}

// The writes that switch this MPU to a partition, if it may take them.
#[tactic(auto, using(crate::proofs::StartNo::sent_err, crate::proofs::StartNo::sent_12, crate::proofs::StartNo::sent_0))]
fn writes_for(m: Mpu, t: Table, part: u32) -> Result<[Write; WRITES], Refusal>
    ensures { sequence_of result ≡ sent slots m t part }
{
    let writes = sequence::program_partition(t, part)?;
    if !device::is_allowed(m.control) {
        return Err(Refusal::BadControl);
    }
    Ok(writes)
}

// Why are triples made by hand refused? The held control comes first, and then the first bad triple.
#[tactic(auto, unfolding(crate::specs::Applied::applied_no))]
fn refused_program(m: &Mpu, ws: &[Write; WRITES]) -> Option<Refusal>
    ensures { refused_no result ≡ applied_no slots m.now ws.now }
{
    if !device::is_allowed(m.control) {
        return Some(Refusal::BadControl);
    }
    first_bad(ws)
}

// Why would the first bad triple be refused?
fn first_bad(ws: &[Write; WRITES]) -> Option<Refusal>
    ensures { refused_no result ≡ bad_no slots ws.now }
{
    ws.iter().find_map(|w| device::refused_write(*w))
}

// Each triple written in turn, in the MPU where it stands: handed on by value, the MPU was copied for each of the ten, and a switch of an empty table took twice the time.
#[tactic(auto, using(crate::proofs::AppliedLaws::write_next, crate::proofs::AppliedLaws::write_end))]
fn write_all(m: Mpu, ws: &[Write; WRITES]) -> Mpu
    ensures { result ≡ write_all slots m ws.now }
{
    let mut now = m;
    for w in ws {
        let _ = lent::write_lent(&mut now, *w);
    }
    now
}
