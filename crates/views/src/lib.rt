// The service Window, for any text, any numbers and any buffer.
#![tactic(auto)]

ghost use Rattle.std.specs.Prelude.{◌≡◌, ◌-◌, min};
ghost use Rattle.meaning.specs.Services.{bad_mark, window as window_of};
ghost use Rattle.verdicts.specs.Found.{SomeFound};
ghost use Rattle.verdicts.specs.Buffers.{spared};
ghost use Rattle.views.specs.Views.{Views};

use heads::Declared;
use plays::Ground;
use texts::Verdict;
use tokens::Refusal;
use words::{BAD_DATA, NO_ROOM};

// How many rows were written, and the visits.
#[derive(Clone, Copy)]
pub struct Rows {
    pub count: usize,
    pub visits: usize,
}

// min(wanted, cycles left).
fn rows_due(cycles: usize, first: usize, wanted: usize) -> usize
    ensures { result ≡ min wanted (cycles - first) }
{
    wanted.min(cycles.saturating_sub(first))
}

// Is it a letter, a digit or LF?
fn is_no_mark(b: u8) -> bool
    ensures { result ≡ bad_mark b }
{
    (65 <= b) & (b <= 90) | (97 <= b) & (b <= 122) | (48 <= b) & (b <= 57) | (b == 10)
}

// A text that 1 to 16 leave: 17, 12 for its mark, 19, or the rows. There is room for what else is handed out (`spare`), or that is 19 too.
fn view<'a>(
    text: &'a [u8],
    places: &'a [usize],
    lists: &'a [u16],
    tplaces: &'a [usize],
    waves: &'a [u8],
    book: &'a [usize],
    rows: &'a [u16],
    list: &'a [usize],
    used: &'a [u8],
    v: Verdict,
    first: usize,
    wanted: usize,
    mark: u8,
    spare: bool,
    buffer: &mut [u8],
) -> Result<Rows, Refusal>
    requires { SomeFound text.now places.now lists.now tplaces.now waves.now book.now rows.now list.now used.now v }
    ensures { Views (spared spare (window_of text.now first wanted mark buffer.old)) buffer.old buffer.new result }
{
    let parts = v.parts;
    let total = v.total;
    verdicts::failing(
        text, places, lists, tplaces, waves, book, rows, list, used, v,
    )?;
    if is_no_mark(mark) {
        return Err(Refusal {
            no: BAD_DATA,
            place: 0,
        });
    }
    let due = rows_due(total.cycles, first, wanted);
    if !spare | (buffer.len() < due * (parts.signals + 2)) {
        return Err(Refusal {
            no: NO_ROOM,
            place: 0,
        });
    }
    let ground = Ground {
        declared: Declared {
            text,
            places,
            lists,
            tplaces,
            book,
            rows,
            known: parts.known,
        },
        waves,
        signals: parts.signals,
    };
    let visits = windows::window(
        &ground,
        list,
        parts.listed,
        parts.patterns,
        total.size,
        first,
        due,
        mark,
        buffer,
    );
    Ok(Rows { count: due, visits })
}

// Any text.
pub fn viewed(
    text: &[u8],
    first: usize,
    wanted: usize,
    mark: u8,
    spare: bool,
    buffer: &mut [u8],
) -> Result<Rows, Refusal>
    ensures { Views (spared spare (window_of text.now first wanted mark buffer.old)) buffer.old buffer.new result }
{
    let mut places = [0usize; signals::PLACES];
    let mut lists = [0u16; signals::LISTS];
    let mut tplaces = [0usize; timing::PLACES];
    let mut waves = [0u8; timing::WAVES];
    let mut book = [0usize; measures::BOOK];
    let mut rows = [0u16; measures::ROWS];
    let mut list = [0usize; bursts::LISTED];
    let mut used = [0u8; noted::USED];
    let v = texts::decide(
        text,
        &mut places,
        &mut lists,
        &mut tplaces,
        &mut waves,
        &mut book,
        &mut rows,
        &mut list,
        verdicts::nowhere(),
        &mut used,
    )?;
    view(
        text, &places, &lists, &tplaces, &waves, &book, &rows, &list, &used, v, first, wanted,
        mark, spare, buffer,
    )
}

// The rows of so many cycles from the cycle `first` on, as far as there are so many, to the front of the buffer; the mark stands for an unassigned pin.
pub fn window(
    text: &[u8],
    first: usize,
    wanted: usize,
    mark: u8,
    buffer: &mut [u8],
) -> Result<Rows, Refusal>
    ensures { Views (window_of text.now first wanted mark buffer.old) buffer.old buffer.new result }
{
    viewed(text, first, wanted, mark, true, buffer)
}
