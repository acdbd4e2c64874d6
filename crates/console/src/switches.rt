// The switch record: the ten writes, a switch whole or in steps, triples made by hand.
use crate::print;
use commands::{Console, ToSwitch};
use refusal::{Refused, settled};
use std::io;
use switch::{Progress, Switch};
use table::Table;

// Zeros where they are refused.
pub fn writes(rt: &impl Print, t: Table, part: u32) -> io::Result<()> {
    let answer = sequence::program_partition(t, part);
    print::number(rt, &answer)?;
    print::log(rt, sequence::writes_of(answer))
}

pub fn show(rt: &impl Print, s: &Switch) -> io::Result<()> {
    println!(rt; "at={}", s.position)?;
    print::log(rt, s.writes)?;
    print::log(rt, s.log)
}

// The answer to a change of this console's switch.
pub fn change(rt: &impl Print, k: ToSwitch, c: &Console) -> io::Result<()> {
    let m = c.switch.mpu;
    match k {
        ToSwitch::Start(part) => print::number(rt, &switch::start(m, c.table, part)),
        ToSwitch::Step => step(rt, switch::step(c.switch)),
        ToSwitch::Whole(part) => whole(rt, switch::switch_to_partition(m, c.table, part)),
        ToSwitch::HandTriple(..) | ToSwitch::HandAt(_) => print::done(rt),
    }
}

fn whole(rt: &impl Print, answer: Result<Switch, Refused<Switch>>) -> io::Result<()> {
    print::number(rt, &answer)?;
    print::log(rt, settled(answer).log)
}

fn step(rt: &impl Print, answer: Result<Progress, Refused<Switch>>) -> io::Result<()> {
    match answer {
        Ok(Progress::Wrote(s)) => println!(rt; "wrote at={}", s.position),
        Ok(Progress::Finished(s)) => println!(rt; "finished at={}", s.position),
        Err(e) => println!(rt; "no={} at={}", e.why, e.held.position),
    }
}
