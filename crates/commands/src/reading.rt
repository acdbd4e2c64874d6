// The console between two bytes of its input: what a byte does.
ghost use Rattle.std.specs.Prelude.{◌≡◌, take};
ghost use Rattle.commands.specs.Reading.{counted, ended, taken, nothing_read};

use crate::{Console, line_command, nothing_held, obey, triples_of};

const NEWLINE: u8 = b'\n';

// What is read so far: how many bytes of its line are held, and how many lines were ended.
// Stays: the line's bytes lie beside it, as `take_byte`, `line_command` and `held_part` have them in their contracts, and `taken_all` and the laws of reading.
#[derive(Clone, Copy)]
pub struct Reading {
    pub console: Console,
    pub held: usize,
    pub lines: u64,
}

pub fn nothing_read() -> Reading
    ensures { result ≡ nothing_read }
{
    Reading {
        console: nothing_held(),
        held: 0,
        lines: 0,
    }
}

// A byte of the input: a newline ends the line that is held, and its command is obeyed; any other is held.
pub fn take_byte(r: Reading, line: &mut [u8], byte: u8) -> Reading
    ensures { (result ≡ (taken (record { reading = r; line = line.old }) byte).reading) × (line.new ≡ (taken (record { reading = r; line = line.old }) byte).line) }
{
    let mut n = r;
    take_byte_lent(&mut n, line, byte);
    n
}

// The same of a reading that is lent: a byte that is held changes one number of it, and the console is copied at a newline alone.
pub fn take_byte_lent(r: &mut Reading, line: &mut [u8], byte: u8)
    ensures { (r.new ≡ (taken (record { reading = r.old; line = line.old }) byte).reading) × (line.new ≡ (taken (record { reading = r.old; line = line.old }) byte).line) }
{
    if byte == NEWLINE {
        *r = end_line(*r, line);
    } else {
        r.held = form::gather(line, r.held, byte);
    }
}

// The number of the line after so many. No input has as many lines as there are numbers.
pub fn next_number(lines: u64) -> u64
    ensures { result ≡ counted lines }
{
    lines.saturating_add(1)
}

fn end_line(r: Reading, line: &[u8]) -> Reading
    ensures { result ≡ ended r line.now }
{
    let k = line_command(line, r.held);
    let ws = triples_of(held_part(line, r.held));
    Reading {
        console: obey(r.console, k, ws),
        held: 0,
        lines: next_number(r.lines),
    }
}

// The line that is held, as far as there is room for it.
pub fn held_part(line: &[u8], held: usize) -> &[u8]
    ensures { result.now ≡ take held line.now }
{
    line.get(..held).unwrap_or(line)
}
