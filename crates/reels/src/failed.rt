// report FILE REPORTFILE
ghost use Rattle.std.specs.Prelude.{◌≡◌, ◌+◌, ◌≤◌, length};

use commands::{answers, asked, files};
use fails::Unanswered;
use lines::LINE;
use streams::{ROWS, System};
use tokens::Refusal;

// No report of 65,536 bytes has more answers: each has at least two bytes of it.
const FAILS: usize = 32_768;

// A page with less room than a line is written, and filled from its front again.
fn emptied(rt: &impl System, page: &[u8], end: usize) -> usize
    ensures { result + 128 ≤ 1048576 }
{
    if end <= ROWS - LINE {
        return end;
    }
    streams::write(rt, page, end);
    0
}

// A line with a letter, if there is one.
fn put_fail(page: &mut [u8], at: usize, cycle: u64, signal: u64, letter: u8) -> usize
    requires { at + 128 ≤ length page.old }
{
    if letter == 0 {
        return lines::fail(page, at, cycle, signal);
    }
    lines::stated(page, at, cycle, signal, letter)
}

// FAILS k, and a line for each of them.
fn put_fails(
    rt: &impl System,
    page: &mut [u8],
    cycles: &[u64],
    signals: &[u64],
    letters: &[u8],
    k: usize,
)
    requires { (length page.old ≡ 1048576) × (length cycles.now ≡ 32768) × (length signals.now ≡ 32768) × (length letters.now ≡ 32768) × (k ≤ 32768) }
{
    let mut end = lines::fails(page, 0, k);
    for i in 0..k {
        let at = emptied(rt, page, end);
        end = put_fail(page, at, cycles[i], signals[i], letters[i]);
    }
    streams::write(rt, page, end);
}

fn tell(rt: &impl System, cycles: &[u64], signals: &[u64], letters: &[u8], k: usize)
    requires { (length cycles.now ≡ 32768) × (length signals.now ≡ 32768) × (length letters.now ≡ 32768) }
{
    if FAILS < k {
        return streams::broken(rt, b"more answers than there is room for\n");
    }
    let mut page = streams::rows();
    put_fails(rt, &mut page, cycles, signals, letters, k);
}

// The report's refusal says that it is the report's.
fn faulty(rt: &impl System, report: &[u8], refusal: Refusal) {
    answers::line(rt, |page| {
        lines::hurt(page, 0, b"REPORT", report, refusal.no, refusal.place)
    });
}

fn answer<'a>(rt: &impl System, text: &'a [u8], report: &'a [u8]) {
    let mut cycles = [0u64; FAILS];
    let mut signals = [0u64; FAILS];
    let mut letters = [0u8; FAILS];
    match fails::report(text, report, &mut cycles, &mut signals, &mut letters) {
        Ok(k) => tell(rt, &cycles, &signals, &letters, k),
        Err(Unanswered::Text(refusal)) => answers::refused(rt, text, refusal),
        Err(Unanswered::Report(refusal)) => faulty(rt, report, refusal),
    }
}

fn both(rt: &impl System) {
    let mut text = streams::room();
    let Some(n) = files::text(rt, 2, &mut text) else {
        return;
    };
    let mut report = streams::room();
    if let Some(m) = files::text(rt, 3, &mut report) {
        answer(rt, &text[..n], &report[..m]);
    }
}

pub fn report(rt: &impl System) {
    let words = asked::given(rt);
    if words < 3 {
        return asked::missing(rt, b"FILE");
    }
    if words < 4 {
        return asked::missing(rt, b"REPORTFILE");
    }
    if asked::no_more(rt, 4) {
        both(rt);
    }
}
