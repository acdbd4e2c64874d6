// Commands from standard input, one a line, and the answer to each on standard output: a table and a switch, tried by hand.
// What a line asks for and what it changes is the library's (`commands`); here it is read, and its answer printed from what was held before it.
#![tactic(auto)]

mod print;
mod regions;
mod registers;
mod switches;
mod tables;

ghost use Rattle.std.specs.Prelude.{◌≡◌, length};
ghost use Rattle.commands.specs.Reading.{taken_all};

use commands::{Command, Console, Reading, Tell};
use std::io::{self, Read};

// A longer line is a bad one.
const LONGEST_LINE: usize = 4095;

const LONGEST_PIECE: usize = 4096;

// A proved loop ends: no input has more pieces.
fn main(rt: HostRuntime) -> io::Result<()> {
    let mut input = rt.stdin();
    let mut line = no_line();
    let mut r = commands::nothing_read();
    for _ in 0..u64::MAX {
        if next_piece(&rt, &mut input, &mut r, &mut line)? == 0 {
            break;
        }
    }
    finish(&rt, &r)
}

fn no_line() -> [u8; LONGEST_LINE]
    ensures { 4095 ≡ length result }
{
    [0; LONGEST_LINE]
}

// Reads a piece of the input, of whatever length it comes, and answers the lines that end in it. A piece of no bytes is the end.
fn next_piece(
    rt: &impl Print,
    input: &mut impl Read,
    r: &mut Reading,
    line: &mut [u8],
) -> io::Result<usize> {
    let mut piece = [0; LONGEST_PIECE];
    let n = input.read(&mut piece)?;
    run(rt, r, line, &piece[..n])?;
    Ok(n)
}

// The whole piece is read, whether or not its answers could be printed.
fn run(rt: &impl Print, r: &mut Reading, line: &mut [u8], piece: &[u8]) -> io::Result<()>
    ensures { (r.new ≡ (taken_all piece.now (record { reading = r.old; line = line.old })).reading) × (line.new ≡ (taken_all piece.now (record { reading = r.old; line = line.old })).line) }
{
    let mut printed = Ok(());
    for byte in piece {
        printed = hear(rt, printed, r, line, *byte);
        commands::take_byte_lent(r, line, *byte);
    }
    printed
}

// A newline ends a line, which is answered, unless an answer before it could not be printed.
fn hear(
    rt: &impl Print,
    printed: io::Result<()>,
    r: &Reading,
    line: &[u8],
    byte: u8,
) -> io::Result<()> {
    printed?;
    if byte == b'\n' {
        answer(rt, r, line)?;
    }
    Ok(())
}

// A last line without its newline is a bad one.
fn finish(rt: &impl Print, r: &Reading) -> io::Result<()> {
    if 0 < r.held {
        print::bad(rt, commands::next_number(r.lines))?;
    }
    Ok(())
}

fn answer(rt: &impl Print, r: &Reading, line: &[u8]) -> io::Result<()> {
    let c = &r.console;
    let text = commands::held_part(line, r.held);
    match commands::line_command(line, r.held) {
        Command::Bad => print::bad(rt, commands::next_number(r.lines)),
        Command::Silent => Ok(()),
        Command::Tell(q) => tell(rt, q, c, text),
        Command::Table(k) => tables::change(rt, k, c.table),
        Command::Mpu(k) => registers::change(rt, k, c.switch.mpu, text),
        Command::Switch(k) => switches::change(rt, k, c),
    }
}

fn tell(rt: &impl Print, q: Tell, c: &Console, text: &[u8]) -> io::Result<()> {
    match q {
        Tell::Pow2(n) => regions::pow2(rt, n),
        Tell::Region(r) => regions::region(rt, r),
        Tell::Overlap(a, b) => regions::overlap(rt, a, b),
        Tell::Records(count) => regions::records(rt, text, count),
        Tell::Size(size) => print::value(rt, fields::size_field(size)),
        Tell::Rasr(a) => print::value(rt, fields::rasr_for(a)),
        Tell::Covers(part, address) => tables::covers(rt, c.table, part, address),
        Tell::EntryAt(at) => tables::entry(rt, &c.table, at),
        Tell::Writes(part) => switches::writes(rt, c.table, part),
        Tell::Ask(a) => registers::ask(rt, c.switch.mpu, a),
        Tell::Pairs => registers::show(rt, &c.switch.mpu),
        Tell::Record => switches::show(rt, &c.switch),
    }
}
