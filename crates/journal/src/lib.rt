// A switch's log as text, into lent bytes. All of it or nothing: where fewer bytes are left than ten lines can take, nothing is written.
#![tactic(auto)]

ghost use Rattle.std.specs.Prelude.{◌≡◌, ◌+◌, ◌≤◌, IfSome, length};
ghost use Rattle.text.specs.Put.{over};
ghost use Rattle.journal.specs.Journal.{longest_line, longest_log, write_text, log_of, put_log, after_log};

use device::Write;
use text::Line;

pub const LINES: usize = 10;

// Ten lines of at most 60 bytes.
pub const LONGEST_LOG: usize = 600;

// Puts a switch's log into the buffer, at a place; the place after it. Nothing where there is no room.
#[tactic(auto, unfolding(crate::specs::Journal::put_log, crate::specs::Journal::after_log))]
pub fn put_log(out: &mut [u8], at: usize, log: [Write; LINES]) -> Option<usize>
    ensures value { result ≡ put_log out.old at log }
    ensures out_after { out.new ≡ after_log out.old at log }
    ensures within { IfSome result (λ n. n ≤ length out.new) }
{
    if out.len() < at.checked_add(LONGEST_LOG)? {
        return None;
    }
    Some(put_lines(out, at, log))
}

// The lines of a log, where there is room for the longest; the place after them.
fn put_lines(out: &mut [u8], at: usize, log: [Write; LINES]) -> usize
    requires { at + longest_log ≤ length out.old }
    ensures { (result ≡ at + length (log_of log)) × (out.new ≡ over out.old at (log_of log)) }
{
    let mut p = at;
    for (i, w) in log.iter().enumerate() {
        p = put_write(out, p, i as u32, *w);
    }
    p
}

// The line of one write, where there is room for the longest; the place after it.
fn put_write(out: &mut [u8], at: usize, n: u32, w: Write) -> usize
    requires { at + longest_line ≤ length out.old }
    ensures { (result ≡ at + length (write_text n w)) × (result ≤ at + longest_line) × (out.new ≡ over out.old at (write_text n w)) }
{
    let l = Line {
        n,
        rnr: w.rnr,
        rbar: w.rbar,
        rasr: w.rasr,
    };
    text::put_line(out, at, l).unwrap_or(at)
}
