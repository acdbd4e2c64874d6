// Answers that several commands give, to standard output.
use device::Write;
use refusal::{Numbered, Refusal};
use std::io;

pub fn bad(rt: &impl Print, line: u64) -> io::Result<()> {
    println!(rt; "bad line={line}")
}

// Done, where nothing can refuse.
pub fn done(rt: &impl Print) -> io::Result<()> {
    println!(rt; "no=0")
}

// The answer's number, 0 where nothing is refused.
pub fn number<A: Numbered>(rt: &impl Print, answer: &A) -> io::Result<()> {
    println!(rt; "no={}", answer.number())
}

// The number, and the yes or no beside it.
pub fn yes(rt: &impl Print, answer: Result<bool, Refusal>, yes: bool) -> io::Result<()> {
    println!(rt; "no={} yes={}", answer.number(), u32::from(yes))
}

pub fn value(rt: &impl Print, answer: Result<u32, Refusal>) -> io::Result<()> {
    println!(rt; "no={} value={}", answer.number(), fields::value_of(answer))
}

// Ten register writes, a line each.
pub fn log(rt: &impl Print, writes: [Write; journal::LINES]) -> io::Result<()> {
    let mut text = [0u8; journal::LONGEST_LOG];
    if let Some(n) = journal::put_log(&mut text, 0, writes) {
        rt.write_all(&text[..n])?;
    }
    Ok(())
}
