// The console's commands: what a line asks for, and what it does to a table and a switch. Nothing here reads or writes.
#![tactic(auto)]

mod change;
mod given;
mod reading;

ghost use Rattle.std.specs.Prelude.{◌≡◌};
ghost use Rattle.form.specs.Form.{form_of};
ghost use Rattle.commands.specs.Command.{numbers_in, region_rows, table_rows, register_rows, switch_rows, rows, among, meant, below, is_list, is_apply, list_count, is_silent, command_of, line_command};

pub use change::{Console, nothing_held, obey};
use device::{Access, Kind, Pair, SLOTS, Write};
use fields::Attributes;
pub use given::{record_count, records_of, triples_of};
use lent::HELD;
pub use reading::{Reading, held_part, next_number, nothing_read, take_byte, take_byte_lent};
use region::Range;
use sequence::WRITES;
use table::{CELLS, Entry, Request};

const COMMENT: u8 = b'#';

// What a line asks for, with its numbers. A bad line and a silent one are commands too: they ask for nothing.
// Stays: `Bad` is a case, and no `None`: the definition `command_of` and the laws `other_bad`, `bad_keeps`, `bad_line` say it of every line that is none.
#[derive(Clone, Copy)]
pub enum Command {
    Bad,
    Silent,
    Tell(Tell),
    Table(ToTable),
    Mpu(ToMpu),
    Switch(ToSwitch),
}

// What is told; nothing changes.
#[derive(Clone, Copy)]
pub enum Tell {
    Pow2(u32),
    Region(Range),
    Overlap(Range, Range),
    Records(u32),
    Size(u32),
    Rasr(Attributes),
    Covers(u32, u32),
    EntryAt(u32),
    Writes(u32),
    Ask(Access),
    Pairs,
    Record,
}

// What changes the table.
#[derive(Clone, Copy)]
pub enum ToTable {
    Empty,
    Add(u32, Request),
    Hand(u32, Entry),
}

// What changes the MPU of the switch record. The ten triples of `Apply` stand beside it.
#[derive(Clone, Copy)]
pub enum ToMpu {
    Reg(Write),
    HandSlot(u32, Pair),
    HandCtrl(u32),
    Apply,
}

// What changes the switch record.
#[derive(Clone, Copy)]
pub enum ToSwitch {
    Start(u32),
    Step,
    Whole(u32),
    HandTriple(u32, Write),
    HandAt(u32),
}

// The numbers of a line, in turn; zeros beyond its own.
type Numbers = (u32, u32, u32, u32, u32);

// The command, where its index is within its range.
fn below(i: u32, n: usize, c: Command) -> Command
    ensures { result ≡ below i n c }
{
    if (i as usize) < n { c } else { Command::Bad }
}

// The command of a line, which is without its newline.
#[tactic(auto, unfolding(crate::specs::Command::command_of))]
pub fn command_of(line: &[u8]) -> Command
    ensures { result ≡ command_of line.now }
{
    if is_silent(line) {
        return Command::Silent;
    }
    if is_list(line) {
        return Command::Tell(Tell::Records(list_count(line)));
    }
    if is_apply(line) {
        return Command::Mpu(ToMpu::Apply);
    }
    by_form(line)
}

// The command of a line that is held: its first bytes, so many. One that is too long is bad.
#[tactic(auto, unfolding(crate::specs::Command::line_command))]
pub fn line_command(line: &[u8], held: usize) -> Command
    ensures { result ≡ line_command line.now held }
{
    line.get(..held).map_or(Command::Bad, command_of)
}

// Is this an empty line, or a comment?
fn is_silent(line: &[u8]) -> bool
    ensures { result ≡ is_silent line.now }
{
    matches!(line.first(), None | Some(&COMMENT))
}

// A count, and as many records as follow it, up to those that are held.
fn is_list(line: &[u8]) -> bool
    ensures { result ≡ is_list line.now }
{
    record_count(line) <= HELD
}

fn list_count(line: &[u8]) -> u32
    ensures { result ≡ list_count line.now }
{
    let [count, ..] = form::values_of(form::read_form(line, 0, b"list count=#"));
    count
}

fn is_apply(line: &[u8]) -> bool
    ensures { result ≡ is_apply line.now }
{
    form::count_repeats(line, b"apply", b" rnr=# rbar=# rasr=#", WRITES + 1) == WRITES
}

// The command of a line that has one of the forms; a line of none is bad.
#[tactic(auto, using(crate::proofs::AmongLaws::meant_rows))]
fn by_form(line: &[u8]) -> Command
    ensures { result ≡ meant rows line.now }
{
    region_form(line)
        .or_else(|| table_form(line))
        .or_else(|| register_form(line))
        .or_else(|| switch_form(line))
        .unwrap_or(Command::Bad)
}

// The forms by subject, asked in turn: a form and its command stand together, as in a row of `rows`. First regions and register fields.
fn region_form(line: &[u8]) -> Option<Command>
    ensures { result ≡ among region_rows line.now }
{
    if let Some((n, ..)) = numbers(line, b"pow2 n=#") {
        return Some(Command::Tell(Tell::Pow2(n)));
    }
    if let Some((base, size, ..)) = numbers(line, b"region base=# size=#") {
        return Some(Command::Tell(Tell::Region(Range { base, size })));
    }
    if let Some((b, s, base, size, _)) = numbers(line, b"overlap base=# size=# base=# size=#") {
        let first = Range { base: b, size: s };
        return Some(Command::Tell(Tell::Overlap(first, Range { base, size })));
    }
    if let Some((size, ..)) = numbers(line, b"size size=#") {
        return Some(Command::Tell(Tell::Size(size)));
    }
    if let Some((size, write, ..)) = numbers(line, b"rasr size=# write=!") {
        let writable = write == 1;
        return Some(Command::Tell(Tell::Rasr(Attributes { size, writable })));
    }
    None
}

// The table.
fn table_form(line: &[u8]) -> Option<Command>
    ensures { result ≡ among table_rows line.now }
{
    if let Some(_) = numbers(line, b"empty") {
        return Some(Command::Table(ToTable::Empty));
    }
    if let Some((part, base, size, write, _)) = numbers(line, b"add part=# base=# size=# write=!") {
        let writable = write == 1;
        let asked = Request {
            base,
            size,
            writable,
        };
        return Some(Command::Table(ToTable::Add(part, asked)));
    }
    if let Some((part, addr, ..)) = numbers(line, b"covers part=# addr=#") {
        return Some(Command::Tell(Tell::Covers(part, addr)));
    }
    if let Some((at, ..)) = numbers(line, b"entry at=#") {
        return Some(below(at, CELLS, Command::Tell(Tell::EntryAt(at))));
    }
    if let Some((at, mark, base, size, write)) = numbers(
        line,
        b"hand at=# enabled=! base=# size=# write=!",
    ) {
        let e = Entry {
            base,
            size,
            enabled: mark == 1,
            writable: write == 1,
        };
        return Some(below(at, CELLS, Command::Table(ToTable::Hand(at, e))));
    }
    None
}

// The writes of a partition, and the MPU.
fn register_form(line: &[u8]) -> Option<Command>
    ensures { result ≡ among register_rows line.now }
{
    if let Some((part, ..)) = numbers(line, b"writes part=#") {
        return Some(Command::Tell(Tell::Writes(part)));
    }
    if let Some((address, mark, ..)) = numbers(line, b"ask kind=read addr=# priv=!") {
        let asked = Access {
            address,
            kind: Kind::Read,
            privileged: mark == 1,
        };
        return Some(Command::Tell(Tell::Ask(asked)));
    }
    if let Some((address, mark, ..)) = numbers(line, b"ask kind=write addr=# priv=!") {
        let asked = Access {
            address,
            kind: Kind::Write,
            privileged: mark == 1,
        };
        return Some(Command::Tell(Tell::Ask(asked)));
    }
    if let Some((rnr, rbar, rasr, ..)) = numbers(line, b"reg rnr=# rbar=# rasr=#") {
        return Some(Command::Mpu(ToMpu::Reg(Write { rnr, rbar, rasr })));
    }
    if let Some(_) = numbers(line, b"mpu") {
        return Some(Command::Tell(Tell::Pairs));
    }
    if let Some((slot, rbar, rasr, ..)) = numbers(line, b"hand-slot slot=# rbar=# rasr=#") {
        let pair = Pair { rbar, rasr };
        return Some(below(slot, SLOTS, Command::Mpu(ToMpu::HandSlot(slot, pair))));
    }
    if let Some((ctrl, ..)) = numbers(line, b"hand-ctrl ctrl=#") {
        return Some(Command::Mpu(ToMpu::HandCtrl(ctrl)));
    }
    None
}

// The switch record.
fn switch_form(line: &[u8]) -> Option<Command>
    ensures { result ≡ among switch_rows line.now }
{
    if let Some((part, ..)) = numbers(line, b"start part=#") {
        return Some(Command::Switch(ToSwitch::Start(part)));
    }
    if let Some(_) = numbers(line, b"step") {
        return Some(Command::Switch(ToSwitch::Step));
    }
    if let Some((part, ..)) = numbers(line, b"whole part=#") {
        return Some(Command::Switch(ToSwitch::Whole(part)));
    }
    if let Some(_) = numbers(line, b"switch") {
        return Some(Command::Tell(Tell::Record));
    }
    if let Some((n, rnr, rbar, rasr, _)) = numbers(line, b"hand-triple n=# rnr=# rbar=# rasr=#") {
        let w = Write { rnr, rbar, rasr };
        return Some(below(n, WRITES, Command::Switch(ToSwitch::HandTriple(n, w))));
    }
    if let Some((at, ..)) = numbers(line, b"hand-at at=#") {
        return Some(Command::Switch(ToSwitch::HandAt(at)));
    }
    None
}

// The numbers of a line that has this form.
fn numbers(line: &[u8], form: &[u8]) -> Option<Numbers>
    ensures { result ≡ numbers_in (form_of line.now form.now) }
{
    Some(Numbers::from(form::read_whole(line, form)?.values))
}
