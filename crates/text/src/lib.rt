// Decimal numbers, words and the log's lines, into and out of lent bytes.
// Every routine takes any input. What does not fit is not begun, and a buffer that is refused is left as it was.
// Stays: bytes and a place in them are two parameters, as `put`, `after`, `word_at` and `number_at` have them in every public contract and law.
#![tactic(auto)]

ghost use Rattle.std.specs.Prelude.{◌≡◌, ◌++◌, ◌+◌, ◌≤◌, ◌==◌, ◌&&◌, not, length, take, drop};
ghost use Rattle.std.specs.List.{position};
ghost use Rattle.text.specs.Digits.{most_digits, digits, run};
ghost use Rattle.text.specs.Put.{over, put, after};
ghost use Rattle.text.specs.Read.{any, leading_zero, sized, number_at, word_at, newline, newline_from};
ghost use Rattle.text.specs.Line.{field, line_text, field_at, line_at};

const ZERO: u8 = b'0';

const NEWLINE: u8 = b'\n';

const MOST_DIGITS: usize = 10;

// The words of a line, and the most digits for each of its numbers.
const LONGEST_LINE: usize = 60;

// What is read, and the place after it.
pub type Read<T> = Option<(T, usize)>;

// One line of the log: a register write and its count.
#[derive(Clone, Copy)]
pub struct Line {
    pub n: u32,
    pub rnr: u32,
    pub rbar: u32,
    pub rasr: u32,
}

// Puts the word into the buffer, at a place; the place after it. Nothing where it does not fit.
#[tactic(auto, unfolding(crate::specs::Put::put, crate::specs::Put::after))]
pub fn put_bytes(out: &mut [u8], at: usize, word: &[u8]) -> Option<usize>
    ensures { (result ≡ put out.old at word.now) × (out.new ≡ after out.old at word.now) }
{
    let end = at.checked_add(word.len())?;
    if out.len() < end {
        return None;
    }
    Some(copy(out, at, word))
}

// Puts the number's digits into the buffer, at a place.
pub fn put_number(out: &mut [u8], at: usize, n: u32) -> Option<usize>
    ensures { (result ≡ put out.old at (digits n)) × (out.new ≡ after out.old at (digits n)) }
{
    let mut text = [ZERO; MOST_DIGITS];
    put_bytes(out, at, spell(&mut text, n))
}

// Puts a line of the log into the buffer, at a place.
pub fn put_line(out: &mut [u8], at: usize, l: Line) -> Option<usize>
    ensures { (result ≡ put out.old at (line_text l)) × (out.new ≡ after out.old at (line_text l)) }
{
    let mut text = [0u8; LONGEST_LINE];
    let a = put_field(&mut text, 0, b"n=", l.n);
    let b = put_field(&mut text, a, b" rnr=", l.rnr);
    let c = put_field(&mut text, b, b" rbar=", l.rbar);
    let d = put_field(&mut text, c, b" rasr=", l.rasr);
    let e = copy(&mut text, d, b"\n");
    put_bytes(out, at, &text[..e])
}

// The number at a place: the longest run of digits there, if it has the form and the size of one.
#[tactic(auto, using(crate::proofs::NumberLaws::number_beyond))]
pub fn read_number(bytes: &[u8], at: usize) -> Read<u32>
    ensures { result ≡ number_at bytes.now at }
{
    if !begins_number(bytes.get(at..)?) {
        return None;
    }
    sized_number(bytes, at)
}

// The place after a given word, where it stands at a place.
#[tactic(auto, using(crate::proofs::WordLaws::word_beyond))]
pub fn read_word(bytes: &[u8], at: usize, word: &[u8]) -> Option<usize>
    ensures { result ≡ word_at bytes.now at word.now }
{
    if !bytes.get(at..)?.starts_with(word) {
        return None;
    }
    Some(at + word.len())
}

// The number behind a given key, where the key stands at a place.
#[tactic(auto, unfolding(crate::specs::Line::field_at))]
pub fn read_field(bytes: &[u8], at: usize, key: &[u8]) -> Read<u32>
    ensures { result ≡ field_at bytes.now at key.now }
{
    read_number(bytes, read_word(bytes, at, key)?)
}

// The place of the first newline from a place on.
#[tactic(auto, using(crate::proofs::NewlineLaws::newline_beyond))]
pub fn line_end(bytes: &[u8], from: usize) -> Option<usize>
    ensures { result ≡ newline_from bytes.now from }
{
    let i = first_newline(bytes.get(from..)?)?;
    Some(from + i)
}

fn first_newline(bytes: &[u8]) -> Option<usize>
    ensures { result ≡ position (λ b. b == newline) bytes.now }
{
    bytes.iter().position(|b| *b == NEWLINE)
}

// The line of a log that stands at a place.
#[tactic(auto, unfolding(crate::specs::Line::line_at))]
pub fn read_line(bytes: &[u8], at: usize) -> Read<Line>
    ensures { result ≡ line_at bytes.now at }
{
    let (n, a) = read_field(bytes, at, b"n=")?;
    let (rnr, b) = read_field(bytes, a, b" rnr=")?;
    let (rbar, c) = read_field(bytes, b, b" rbar=")?;
    let (rasr, d) = read_field(bytes, c, b" rasr=")?;
    let next = read_word(bytes, d, b"\n")?;
    Some((Line { n, rnr, rbar, rasr }, next))
}

// Do the bytes begin as a number: with a digit, and no zero before another?
#[tactic(auto, unfolding(crate::specs::Digits::run))]
fn begins_number(bytes: &[u8]) -> bool
    ensures { result ≡ (any (run bytes.now) && not (leading_zero (run bytes.now))) }
{
    match bytes {
        [ZERO, next, ..] => !next.is_ascii_digit(),
        [first, ..] => first.is_ascii_digit(),
        [] => false,
    }
}

// The number that the digits at a place say, if it is not too large. The first digit that makes it so is the last that is looked at.
fn sized_number(bytes: &[u8], at: usize) -> Read<u32>
    requires { at ≤ length bytes.now }
    ensures { result ≡ sized (run (drop at bytes.now)) at }
{
    let mut value = 0u32;
    for (i, b) in bytes[at..].iter().enumerate() {
        if !b.is_ascii_digit() {
            return Some((value, at + i));
        }
        value = value.checked_mul(10)?.checked_add(u32::from(*b - ZERO))?;
    }
    Some((value, bytes.len()))
}

// A key and its value after what stands before the place, where there is room for the longest; the place after them.
fn put_field(out: &mut [u8], at: usize, key: &[u8], n: u32) -> usize
    requires { at + length key.now + most_digits ≤ length out.old }
    ensures { (result ≤ at + length key.now + most_digits) × (take result out.new ≡ take at out.old ++ field key.now n) }
{
    let mut text = [ZERO; MOST_DIGITS];
    let value = copy(out, at, key);
    copy(out, value, spell(&mut text, n))
}

// The word, where there is room for it; the place after it.
fn copy(out: &mut [u8], at: usize, word: &[u8]) -> usize
    requires { at + length word.now ≤ length out.old }
    ensures { (result ≡ at + length word.now) × (out.new ≡ over out.old at word.now) }
{
    let end = at + word.len();
    out[at..end].copy_from_slice(word);
    end
}

// The number's digits, written at the end of the text.
fn spell(text: &mut [u8; MOST_DIGITS], n: u32) -> &[u8]
    ensures { result.now ≡ digits n }
{
    let mut rest = n;
    for i in (0..MOST_DIGITS).rev() {
        text[i] = ZERO + (rest % 10) as u8;
        rest /= 10;
        if rest == 0 {
            return &text[i..];
        }
    }
    // Ten places are enough for any number, so that the loop has returned.
    &text[..]
}
