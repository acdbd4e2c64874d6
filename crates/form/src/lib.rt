// Lines of commands: a line gathered byte by byte, and its numbers read where it has a given form.
// A form is the line itself, with `#` where a number stands and `!` where a mark does, 0 or 1: `add part=# base=# size=# write=!`.
#![tactic(auto)]

ghost use Rattle.std.specs.Prelude.{◌≡◌, ◌+◌, ◌<◌, ◌^◌, length, set};
ghost use Rattle.form.specs.Form.{begun, takes_number, no_mark, value_at, stands_at, kept, moved_on, read_on, form_at, form_of, values_of};
ghost use Rattle.form.specs.Gather.{gathered};
ghost use Rattle.form.specs.Choice.{chosen, onward, whole, repeats};

use text::{self, Read};

// The most numbers of a form that are kept.
pub const VALUES: usize = 5;

const NUMBER: u8 = b'#';

const MARK: u8 = b'!';

// A form that is read: the place after it, how many numbers are kept, and these in turn.
// Stays: `count` stands beside `values`, since the definition `kept` and the laws `kept_all_lem`, `form_back`, `line_back` speak of list and count; no heap.
#[derive(Clone, Copy)]
pub struct Formed {
    pub next: usize,
    pub count: usize,
    pub values: [u32; VALUES],
}

impl Formed {
    // With one more number, where there is room for it; next is the place after it.
    #[tactic(auto, unfolding(crate::specs::Form::kept))]
    fn keep(self, v: u32, next: usize) -> Formed
        ensures { result ≡ kept self v next }
    {
        let mut f = Formed { next, ..self };
        if self.count < VALUES {
            f.values[self.count] = v;
            f.count += 1;
        }
        f
    }

    // Past a byte of the line.
    fn step_over(self) -> Formed
        requires { self.next + 1 < 2 ^ 64 }
        ensures { result ≡ moved_on self }
    {
        Formed {
            next: self.next + 1,
            ..self
        }
    }
}

// Which of several forms a line has, counted from 0, and the numbers in turn.
#[derive(Clone, Copy)]
pub struct Chosen {
    pub at: usize,
    pub values: [u32; VALUES],
}

// Adds a byte to a line of which so many bytes are held. A line that is too long is told by one more than there is room for.
// Stays: the number one above the room is what `gathered` and the law `gather_long` say, and what `line_command` of `commands` compares.
// Stays: line and held are two values, as the definitions `Gathering`, `gather_one` here and `line_command`, `taken` of `commands` have them.
#[tactic(auto, unfolding(crate::specs::Gather::gathered))]
pub fn gather(line: &mut [u8], held: usize, byte: u8) -> usize
    ensures { (result ≡ gathered (length line.old) held) × (line.new ≡ set line.old held byte) }
{
    if held < line.len() {
        line[held] = byte;
        return held + 1;
    }
    line.len() + 1
}

// The numbers of a line that has this form, from its first byte to its last.
pub fn read_whole(line: &[u8], form: &[u8]) -> Option<Formed>
    ensures { result ≡ form_of line.now form.now }
{
    let f = read_form(line, 0, form)?;
    (f.next == line.len()).then_some(f)
}

// The numbers of a form, where it stands at a place.
pub fn read_form(bytes: &[u8], at: usize, form: &[u8]) -> Option<Formed>
    ensures { result ≡ form_at bytes.now at form.now }
{
    let mut f = Formed {
        next: at,
        count: 0,
        values: [0; VALUES],
    };
    for c in form {
        f = read_next(bytes, f, *c)?;
    }
    Some(f)
}

// The first of these forms that the line has. The forms are a text, each ended by a newline.
// Stays: a `while let`, since `split` also gives what follows the last newline, which is no form: a loop over it needs one more test and is no plainer.
#[tactic(auto, using(crate::proofs::ChoiceLaws::newline_within))]
pub fn read_any(line: &[u8], forms: &[u8]) -> Option<Chosen>
    ensures { result ≡ chosen line.now forms.now }
{
    let mut at = 0;
    let mut from = 0;
    while let Some(end) = text::line_end(forms, from) {
        if let Some(f) = read_whole(line, &forms[from..end]) {
            let values = f.values;
            return Some(Chosen { at, values });
        }
        at += 1;
        from = end + 1;
    }
    None
}

// How often the form follows the head in this line, which has nothing more, if that is below m; m where it is no such line.
// Stays: the number m for no such line is what `repeats` says, by the laws' `lowest`, and `list_exactly` of `commands` with it.
pub fn count_repeats(line: &[u8], head: &[u8], form: &[u8], m: usize) -> usize
    ensures { result ≡ repeats line.now head.now form.now m }
{
    let mut f = read_form(line, 0, head);
    for n in 0..m {
        if is_whole(line, f) {
            return n;
        }
        f = read_onward(line, f, form);
    }
    m
}

// Reads a form after what was read.
#[tactic(auto, unfolding(crate::specs::Choice::onward))]
pub fn read_onward(line: &[u8], f: Option<Formed>, form: &[u8]) -> Option<Formed>
    ensures { result ≡ onward line.now form.now f }
{
    read_form(line, f?.next, form)
}

// The numbers of a form; zeros where it is not there.
// Stays: `map_or` with a closure was tried, and its proof didn't close: of an array that a closure takes out of a struct the check learns nothing.
pub fn values_of(f: Option<Formed>) -> [u32; VALUES]
    ensures { result ≡ values_of f }
{
    match f {
        Some(f) => f.values,
        None => [0; VALUES],
    }
}

fn is_whole(line: &[u8], f: Option<Formed>) -> bool
    ensures { result ≡ whole line.now f }
{
    f.is_some_and(|f| f.next == line.len())
}

// Reads on by one byte of a form.
#[tactic(auto, unfolding(crate::specs::Form::read_on))]
fn read_next(bytes: &[u8], f: Formed, c: u8) -> Option<Formed>
    ensures { result ≡ read_on bytes.now f c }
{
    if takes_number(c) {
        let (v, p) = read_value(bytes, f.next, c)?;
        return Some(f.keep(v, p));
    }
    if !stands(bytes, f.next, c) {
        return None;
    }
    Some(f.step_over())
}

// Does this byte of a form stand for a number, or a mark?
fn takes_number(c: u8) -> bool
    ensures { result ≡ takes_number c }
{
    matches!(c, NUMBER | MARK)
}

// The number at a place; 0 or 1 where the form asks for a mark.
#[tactic(auto, unfolding(crate::specs::Form::value_at))]
fn read_value(bytes: &[u8], at: usize, c: u8) -> Read<u32>
    ensures { result ≡ value_at c bytes.now at }
{
    let (v, p) = text::read_number(bytes, at)?;
    if no_mark(c, v) {
        return None;
    }
    Some((v, p))
}

// Is a mark asked for, and this none?
fn no_mark(c: u8, v: u32) -> bool
    ensures { result ≡ no_mark c v }
{
    c == MARK && 1 < v
}

// Does this byte stand at a place?
fn stands(bytes: &[u8], at: usize, c: u8) -> bool
    ensures { result ≡ stands_at bytes.now at c }
{
    bytes.get(at).is_some_and(|b| *b == c)
}
