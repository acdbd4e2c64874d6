// What a line that goes on gives, one after the other.
ghost use Rattle.std.specs.Prelude.{◌≡◌, ◌<◌, ℕ, suc, length, get_or};
ghost use Rattle.form.specs.Form.{form_at};
ghost use Rattle.form.specs.Choice.{times};
ghost use Rattle.commands.specs.Given.{write_of, record_of, triples_of, records_of, record_count};

use device::Write;
use form::Formed;
use lent::{HELD, MpuRegion};
use sequence::WRITES;

// The triples of an `apply`; zeros where it gives no more.
pub fn triples_of(line: &[u8]) -> [Write; WRITES]
    ensures { result ≡ triples_of line.now }
{
    taken(line, b"apply", b" rnr=# rbar=# rasr=#", write_of)
}

// The records of a `list`; zeros where it gives no more.
pub fn records_of(line: &[u8]) -> [MpuRegion; HELD]
    ensures { result ≡ records_of line.now }
{
    taken(line, b"list count=#", b" base=# size=# attr=#", record_of)
}

// How many records a `list` gives; 65 where the line is none.
// Stays: the number 65 for no such line is what `repeats` says, and `is_list` and the law `list_exactly` with it.
pub fn record_count(line: &[u8]) -> usize
    ensures { result ≡ record_count line.now }
{
    form::count_repeats(line, b"list count=#", b" base=# size=# attr=#", HELD + 1)
}

// What is made of each form that follows a head, one after the other; of none where there is no more.
fn taken<T: Copy, const N: usize, F: Fn(Option<Formed>) -> T>(
    line: &[u8],
    head: &[u8],
    form: &[u8],
    make: F,
) -> [T; N]
    requires { F.IsAlwaysCallable make }
    ensures long { length result ≡ N }
    ensures each { (k : ℕ) (z : T) → k < N → F.post make (times line.now form.now (suc k) (form_at line.now 0 head.now)) (get_or result k z) }
{
    let mut all = [make(None); N];
    let mut f = form::read_form(line, 0, head);
    for place in &mut all {
        f = form::read_onward(line, f, form);
        *place = make(f);
    }
    all
}

fn write_of(f: Option<Formed>) -> Write
    ensures { result ≡ write_of f }
{
    let [rnr, rbar, rasr, ..] = form::values_of(f);
    Write { rnr, rbar, rasr }
}

fn record_of(f: Option<Formed>) -> MpuRegion
    ensures { result ≡ record_of f }
{
    let [base, size, attr, ..] = form::values_of(f);
    MpuRegion { base, size, attr }
}
