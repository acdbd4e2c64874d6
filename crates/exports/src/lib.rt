// The boundary to programs in other languages: each call does many operations, on words that the caller lends.
// Every routine takes any input: a word beyond the end of a slice reads as 0.
#![tactic(auto)]

ghost use Rattle.std.specs.Prelude.{◌≡◌, ◌^◌, ◌<◌, ◌≤◌, length};
ghost use Rattle.laws.specs.Listed.{listed};
ghost use Rattle.region.specs.List.{judged_by};
ghost use Rattle.device.specs.Registers.{slot_count};
ghost use Rattle.device.specs.Decision.{decision};
ghost use Rattle.table.specs.Numbers.{slots};
ghost use Rattle.table.specs.Builder.{try_add, added_of};
ghost use Rattle.exports.specs.Words.{word_at, mpu_of, access_at, kind_of, held_no, case_no, part_at, request_at, end_of, found_word, found_words, switch_word};
ghost use Rattle.exports.specs.Many.{case_at, added_at, table_by, switch_after, switched_at, found_word_at};

use device::{Access, Answer, Kind, Mpu, Pair};
use refusal::{Numbered, Refusal, Refused, settled};
use region::Fault;
use std::array;
use switch::Switch;
use table::{Request, Table};

// The words of a request: partition, base, size, and 0 for read-only.
const REQUEST: usize = 4;

// The words of an MPU: eight pairs, then the control.
const CONTROL_AT: usize = 16;

// After the MPU's words, the ten writes of a log.
const LOG_AT: usize = 17;

const LOG_END: usize = 47;

// The case where there is none.
const NO_CASE: u32 = 6;

// The words of a list's record.
const RECORD: usize = 3;

// The words of a list's answer: the number, then the places i and j.
const FOUND: usize = 3;

// What does this MPU answer to each access? It gives the number: 0, or 12 where the held control is not 0, 1, 4 or 5.
// An access is two words: the address, then 1 for a write, with 2 more where it is privileged.
// Its case is one word: 1 private bus, 2 unchecked, 3 undefined, 4 permitted, 5 denied; 6, for none, where the number is 12.
#[unsafe(no_mangle)]
pub extern "C" fn decide_many(mpu: &[u32], asks: &[u32], cases: &mut [u32]) -> u32
    ensures number { result ≡ held_no (mpu_of mpu.now) }
    ensures cases { cases.new ≡ listed (case_at mpu.now asks.now) 0 (length cases.old) }
{
    let m = mpu_of(mpu);
    let no = held_no(m);
    // Stays: a lent slice is filled by its index, here and in the loops below, since after `iter_mut().enumerate()` a proof knows nothing of the elements.
    for i in 0..cases.len() {
        cases[i] = case_of(m, no, access_at(asks, i));
    }
    no
}

// What does the builder say to each request, one after the other from the empty table on?
#[unsafe(no_mangle)]
pub extern "C" fn fill_many(requests: &[u32], numbers: &mut [u32])
    ensures { numbers.new ≡ listed (λ i. (added_at requests.now i).no) 0 (length numbers.old) }
{
    // Stays: this and switch_each have a loop each, since one routine that takes the step as a closure was tried, and a request took 1.5 of plain Rust with it where it takes 0.7.
    let mut t = Table::new();
    for i in 0..numbers.len() {
        let done = add_at(t, requests, i);
        numbers[i] = done.number();
        t = settled(done);
    }
}

// Switches this MPU to one partition after the other: the number of each switch, then the MPU and the log of the last.
#[unsafe(no_mangle)]
pub extern "C" fn switch_many(
    requests: &[u32],
    mpu: &[u32],
    parts: &[u32],
    numbers: &mut [u32],
    last: &mut [u32],
)
    ensures numbers { numbers.new ≡ listed (λ i. (switched_at (table_by requests.now) (mpu_of mpu.now) parts.now i).no) 0 (length numbers.old) }
    ensures last { last.new ≡ listed (switch_word (switch_after (table_by requests.now) (mpu_of mpu.now) parts.now (length numbers.old))) 0 (length last.old) }
{
    let s = switch_each(mpu_of(mpu), table_of(requests), parts, numbers);
    put_switch(&s, last);
}

// What is each list found to be? The lists, of `count` records each, lie one after the other.
// An answer is three words: the number, then the places that it names: none, the record, or the pair; 0 where there is none. A word left over stays.
#[unsafe(no_mangle)]
pub extern "C" fn list_many(words: &[u32], count: u32, answers: &mut [u32])
    ensures { answers.new ≡ found_words (found_word_at words.now count) answers.old }
{
    let each = RECORD * (count as usize);
    // Stays: `at` goes beside i, as the laws `part_is` and `rest_is` have a list begin where the one before ends; each * i may leave 64 bits.
    let mut at = 0;
    for i in 0..answers.len() / FOUND {
        let end = end_of(words.len(), at, each);
        let [no, first, second] = told(region::validate_region_set(&words[at..end], count));
        answers[FOUND * i] = no;
        answers[FOUND * i + 1] = first;
        answers[FOUND * i + 2] = second;
        at = end;
    }
}

fn word(words: &[u32], i: usize) -> u32
    ensures { result ≡ word_at words.now i }
{
    words.get(i).copied().unwrap_or(0)
}

fn mpu_of(words: &[u32]) -> Mpu
    ensures { result ≡ mpu_of words.now }
{
    Mpu {
        slots: array::from_fn(|i| Pair {
            rbar: word(words, 2 * i),
            rasr: word(words, 2 * i + 1),
        }),
        control: word(words, CONTROL_AT),
    }
}

// Stays: the C interface has a word for the kind of an access and its privilege, which `kind_of` takes apart too.
fn access_at(asks: &[u32], i: usize) -> Access
    requires { i < 2 ^ 61 }
    ensures { result ≡ access_at asks.now i }
{
    let how = word(asks, 2 * i + 1);
    Access {
        address: word(asks, 2 * i),
        kind: kind_of(how),
        privileged: how / 2 % 2 == 1,
    }
}

fn kind_of(how: u32) -> Kind
    ensures { result ≡ kind_of how }
{
    if how % 2 == 1 {
        Kind::Write
    } else {
        Kind::Read
    }
}

// The number of every decision of one MPU: no access changes it.
// Stays: the C interface has one word for it, 0 or 12.
fn held_no(m: Mpu) -> u32
    ensures { result ≡ held_no m }
{
    if device::is_allowed(m.control) {
        0
    } else {
        Refusal::BadControl.number()
    }
}

// The case of one access. An MPU that refuses is not asked: told apart after each answer, its refusal made a decision take twice as long.
#[tactic(auto, unfolding(device::specs::Decision::decision))]
fn case_of(m: Mpu, no: u32, a: Access) -> u32
    requires { no ≡ held_no m }
    ensures { result ≡ case_no (decision slot_count m a) }
{
    if no != 0 {
        return NO_CASE;
    }
    case_no(device::decide(m, a))
}

// Stays: the C interface has one word for each answer.
fn case_no(a: Result<Answer, Refusal>) -> u32
    ensures { result ≡ case_no a }
{
    match a {
        Ok(Answer::Private) => 1,
        Ok(Answer::Unchecked) => 2,
        Ok(Answer::Undefined) => 3,
        Ok(Answer::Permitted) => 4,
        Ok(Answer::Denied) => 5,
        Err(_) => NO_CASE,
    }
}

// What the builder says to one of the requests.
fn add_at(t: Table, requests: &[u32], i: usize) -> Result<Table, Refused<Table>>
    requires { i < 2 ^ 61 }
    ensures { added_of result ≡ try_add slots t (part_at requests.now i) (request_at requests.now i) }
{
    let at = REQUEST * i;
    let q = Request {
        base: word(requests, at + 1),
        size: word(requests, at + 2),
        writable: word(requests, at + 3) != 0,
    };
    t.try_add_region(word(requests, at), q)
}

// The table that the requests build, each refused one being passed over.
fn table_of(requests: &[u32]) -> Table
    ensures { result ≡ table_by requests.now }
{
    (0..requests.len() / REQUEST).fold(Table::new(), |t, i| settled(add_at(t, requests, i)))
}

// The switches, each from the MPU that the one before left.
fn switch_each(m: Mpu, t: Table, parts: &[u32], numbers: &mut [u32]) -> Switch
    ensures value { result ≡ switch_after t m parts.now (length numbers.old) }
    ensures numbers_after { numbers.new ≡ listed (λ i. (switched_at t m parts.now i).no) 0 (length numbers.old) }
{
    let mut s = switch::idle(m);
    for i in 0..numbers.len() {
        let done = switch::switch_to_partition(s.mpu, t, word(parts, i));
        numbers[i] = done.number();
        s = settled(done);
    }
    s
}

fn put_switch(s: &Switch, out: &mut [u32])
    ensures { out.new ≡ listed (switch_word s.now) 0 (length out.old) }
{
    for k in 0..out.len() {
        out[k] = switch_word(s, k);
    }
}

#[tactic(auto, unfolding(crate::specs::Words::switch_word))]
fn switch_word(s: &Switch, k: usize) -> u32
    ensures { result ≡ switch_word s.now k }
{
    if k < CONTROL_AT {
        let p = s.mpu.slots[k / 2];
        return if k % 2 == 0 { p.rbar } else { p.rasr };
    }
    if k == CONTROL_AT {
        return s.mpu.control;
    }
    if LOG_END <= k {
        return 0;
    }
    let w = s.log[(k - LOG_AT) / 3];
    match (k - LOG_AT) % 3 {
        0 => w.rnr,
        1 => w.rbar,
        _ => w.rasr,
    }
}

// The words of a list's answer.
// Stays: the C interface has three words for each answer, 0 where it names no place.
fn told(found: Result<(), Fault>) -> [u32; FOUND]
    ensures { result ≡ listed (found_word (judged_by found)) 0 3 }
{
    let no = found.number();
    match found {
        Ok(()) | Err(Fault::Short) => [no, 0, 0],
        Err(Fault::Unsound { at, .. }) => [no, at, 0],
        Err(Fault::Pair { i, j }) => [no, i, j],
    }
}

// Where a part of n words ends that begins at a place: there, or with the words.
fn end_of(len: usize, at: usize, n: usize) -> usize
    requires { at ≤ len }
    ensures { (at ≤ result) × (result ≤ len) × (result ≡ end_of len at n) }
{
    if len - at < n { len } else { at + n }
}
