// A page that is filled from its front until it is full: bytes, numbers and times one behind the other. Once something has no room, nothing more is written.
#![tactic(auto)]

ghost use Rattle.std.specs.Prelude.{◌≤◌, List, ◌++◌};
ghost use Rattle.pages.specs.Pages.{decimal};
ghost use Rattle.folded.specs.Layout.{timed};
ghost use Rattle.meaning.specs.Timing.{uncounted};
ghost use Rattle.pens.specs.Pens.{signed_timed, Writes};

use words::START;

// How many bytes stand in the page; none if there was no room for all.
#[derive(Clone, Copy)]
pub struct Pen {
    pub at: Option<usize>,
}

// Picoseconds of a nanosecond.
const NANO: u64 = 1_000;

// Bytes.
pub fn add(page: &mut [u8], pen: Pen, bytes: &[u8]) -> Pen
    ensures { Writes page.old pen bytes.now page.new result }
{
    let Some(at) = pen.at else {
        return pen;
    };
    if page.len() < at || page.len() - at < bytes.len() {
        return Pen { at: None };
    }
    let end = pages::put(page, at, bytes);
    Pen { at: Some(end) }
}

// A number's digits.
pub fn add_number(page: &mut [u8], pen: Pen, n: u64) -> Pen
    ensures { Writes page.old pen (decimal n) page.new result }
{
    let mut digits = [0u8; pages::DIGITS];
    let end = pages::put_number(&mut digits, 0, n);
    add(page, pen, &digits[..end])
}

// A time in ps, as it is written.
pub fn add_time(page: &mut [u8], pen: Pen, time: u64) -> Pen
    ensures { Writes page.old pen (timed time) page.new result }
{
    if time % NANO == 0 {
        let p = add_number(page, pen, time / NANO);
        return add(page, p, b"ns");
    }
    let p = add_number(page, pen, time);
    add(page, p, b"ps")
}

// An event's time, as it is written: with a `-` where it lies before the cycle's start.
pub fn add_signed(page: &mut [u8], pen: Pen, time: u64) -> Pen
    ensures { Writes page.old pen (signed_timed (uncounted time)) page.new result }
{
    if time < START {
        let p = add(page, pen, b"-");
        return add_time(page, p, START - time);
    }
    add_time(page, pen, time - START)
}
