// The MPU of the switch record: asked and shown; one register write, ten triples and a hand change it.
use crate::print;
use commands::ToMpu;
use device::{Access, Mpu, Write};
use sequence::WRITES;
use std::io;

pub fn ask(rt: &impl Print, m: Mpu, a: Access) -> io::Result<()> {
    match device::decide(m, a) {
        Ok(answer) => println!(rt; "answer={answer}"),
        Err(why) => println!(rt; "no={why}"),
    }
}

pub fn show(rt: &impl Print, m: &Mpu) -> io::Result<()> {
    println!(rt; "ctrl={}", m.control)?;
    for (i, p) in m.slots.iter().enumerate() {
        println!(rt; "slot={i} rbar={} rasr={}", p.rbar, p.rasr)?;
    }
    Ok(())
}

// The answer to a change of this MPU.
pub fn change(rt: &impl Print, k: ToMpu, m: Mpu, text: &[u8]) -> io::Result<()> {
    match k {
        ToMpu::Reg(w) => print::number(rt, &lent::write_through(m, w)),
        ToMpu::HandSlot(..) | ToMpu::HandCtrl(_) => print::done(rt),
        ToMpu::Apply => apply(rt, m, commands::triples_of(text)),
    }
}

// The log is zeros where the triples are refused.
fn apply(rt: &impl Print, m: Mpu, ws: [Write; WRITES]) -> io::Result<()> {
    let answer = switch::apply_program(m, ws);
    print::number(rt, &answer)?;
    print::log(rt, switch::log_of(answer))
}
