// window FILE FIRST COUNT [MARK]
ghost use Rattle.std.specs.Prelude.{◌+◌, ◌*◌, ◌≤◌, ◌<◌, length};
ghost use Rattle.meaning.specs.Bounds.{signals_most};

use commands::{answers, asked, files};
use streams::{ROWS, System};

// The mark for an unassigned pin where none is chosen: `?`.
const QUESTION: u8 = 63;

// min(wanted, cycles left).
fn due(cycles: usize, first: usize, wanted: usize) -> usize
    ensures { first + result ≤ 18446744073709551615 }
{
    wanted.min(cycles.saturating_sub(first))
}

// Of the rows that are left, as many as a page holds.
fn fitting(left: usize, width: usize) -> usize
    requires { (2 ≤ width) × (width ≤ signals_most + 2) }
    ensures { (result ≤ left) × (result * width ≤ 1048576) × (0 < left → 0 < result) }
{
    left.min(ROWS / width)
}

// The rows of n cycles from the cycle `first` on, and the visits at that cycle; none where the rows could not be written.
fn some_rows(
    rt: &impl System,
    text: &[u8],
    first: usize,
    n: usize,
    width: usize,
    mark: u8,
    page: &mut [u8],
) -> Option<usize>
    requires { n * width ≤ length page.old }
{
    match views::window(text, first, n, mark, page) {
        Ok(rows) => {
            if rows.count != n {
                streams::broken(rt, b"fewer rows than are due\n");
                return None;
            }
            streams::write(rt, page, n * width).then_some(rows.visits)
        }
        Err(refusal) => {
            answers::refused(rt, text, refusal);
            None
        }
    }
}

// Windows laid end to end, all with one mark, then the visits of the first.
fn rows(rt: &impl System, text: &[u8], first: usize, due: usize, width: usize, mark: u8)
    requires { (2 ≤ width) × (width ≤ signals_most + 2) × (first + due ≤ 18446744073709551615) }
{
    let mut space = streams::rows();
    let page: &mut [u8] = &mut space;
    let mut done = fitting(due, width);
    let Some(visits) = some_rows(rt, text, first, done, width, mark, page) else {
        return;
    };
    while done < due {
        let n = fitting(due - done, width);
        let piece = some_rows(rt, text, first + done, n, width, mark, page);
        if piece.is_none() {
            return;
        }
        done += n;
    }
    answers::visits(rt, visits);
}

fn answer(rt: &impl System, text: &[u8], first: usize, wanted: usize, mark: u8) {
    match services::check(text) {
        Ok(counts) => {
            if sets::MOST < counts.signals {
                return streams::broken(rt, b"more signals than a text has\n");
            }
            rows(
                rt,
                text,
                first,
                due(counts.cycles, first, wanted),
                counts.signals + 2,
                mark,
            );
        }
        Err(refusal) => answers::refused(rt, text, refusal),
    }
}

// The mark that was chosen, or else `?`.
fn mark(rt: &impl System) -> Option<u8> {
    if asked::given(rt) < 6 {
        return Some(QUESTION);
    }
    asked::byte(rt, 5)
}

fn file(rt: &impl System) {
    let Some(first) = asked::number(rt, 3) else {
        return;
    };
    let Some(wanted) = asked::number(rt, 4) else {
        return;
    };
    let Some(mark) = mark(rt) else {
        return;
    };
    let mut text = streams::room();
    if let Some(n) = files::text(rt, 2, &mut text) {
        answer(rt, &text[..n], first, wanted, mark);
    }
}

pub fn window(rt: &impl System) {
    let words = asked::given(rt);
    if words < 3 {
        return asked::missing(rt, b"FILE");
    }
    if words < 4 {
        return asked::missing(rt, b"FIRST");
    }
    if words < 5 {
        return asked::missing(rt, b"COUNT");
    }
    if asked::no_more(rt, 6) {
        file(rt);
    }
}
