// The service Fold: a text folded flat, for any text and any buffer. The listed patterns are played once, window by window, and their Patterns written to a
// page of their own, since the burst's line before them has their count.
#![tactic(auto)]

ghost use Rattle.std.specs.Prelude.{◌≡◌, true, false, ◌++◌, [], ◌+◌, ◌*◌, ◌-◌, ◌≤◌, min, length};
ghost use Rattle.tokens.specs.Refusals.{text_most};
ghost use Rattle.meaning.specs.Meaning.{Meaning};
ghost use Rattle.plays.specs.Plays.{ground_of};
ghost use Rattle.verdicts.specs.Found.{SomeFound};
ghost use Rattle.folded.specs.Fold.{fold as fold_of};
ghost use Rattle.pens.specs.Pens.{Holds, Writes};
ghost use Rattle.flats.specs.Meant.{Window, Shows, Listed, Parts, Run, Patterned, Bodied, SomeMeant};
ghost use Rattle.verdicts.specs.Buffers.{spared};
ghost use Rattle.flats.specs.Flattens.{row_most, SomeHead, Heads, Joins, Puts, Flattens, Folds};

use heads::Declared;
use pens::Pen;
use plays::Ground;
use stretches::{Folding, Names, TAIL};
use texts::{PATTERNS, Verdict};
use tokens::{Refusal, TEXT_MOST};
use words::NO_ROOM;

// Bytes of a window: many rows, since each window reads the text anew.
const WINDOW: usize = 262_144;

// Bytes of a row: a character for each signal, the table's digit, and LF.
const ROW: usize = 258;

const CYCLES: usize = 1_000_000;

// Refusals.
const MANY_PATTERNS: u8 = 22;

const MANY_CYCLES: u8 = 23;

// What an unassigned pin is shown as: no character is 0.
const MARK: u8 = 0;

// The Patterns so far: the pen behind them, and how many they are.
#[derive(Clone, Copy)]
pub struct Part {
    pub pen: Pen,
    pub pattern: usize,
}

// ---- the Patterns

// So many cycles of the run from the cycle `first` on, folded.
fn window<'a>(
    page: &mut [u8],
    f: Folding,
    ground: &'a Ground<'a>,
    list: &'a [usize],
    listed: usize,
    patterns: usize,
    size: usize,
    first: usize,
    due: usize,
    hand: &mut [u8],
    buffer: &mut [u8],
) -> Folding
    requires { Window (ground_of ground.now) list.now listed patterns size first due f hand.old buffer.old }
    ensures { Shows (ground_of ground.now) list.now listed patterns size first due page.old f hand.old page.new result hand.new }
{
    windows::window(
        ground, list, listed, patterns, size, first, due, MARK, buffer,
    );
    let names = Names {
        text: ground.declared.text,
        places: ground.declared.places,
        tplaces: ground.declared.tplaces,
        tables: ground.declared.known.tables,
        signals: ground.signals,
    };
    stretches::rows(page, f, names, hand, buffer, due)
}

// A listed pattern: `count` cycles from the cycle `first` on, window by window, in Patterns from number i on.
fn pattern<'a>(
    page: &mut [u8],
    pen: Pen,
    i: usize,
    ground: &'a Ground<'a>,
    list: &'a [usize],
    listed: usize,
    patterns: usize,
    size: usize,
    first: usize,
    count: usize,
    hand: &mut [u8],
    buffer: &mut [u8],
) -> Part
    requires { Listed (ground_of ground.now) list.now listed patterns size first count i hand.old buffer.old }
    ensures { Parts (ground_of ground.now) list.now listed patterns size first count page.old pen i page.new result }
{
    let most = buffer.len() / (ground.signals + TAIL);
    let mut f = stretches::begin(page, pen, i);
    let mut done = 0;
    while done < count {
        let due = sets::least(most, count - done);
        f = window(
            page,
            f,
            ground,
            list,
            listed,
            patterns,
            size,
            first + done,
            due,
            hand,
            buffer,
        );
        done += due;
    }
    let names = Names {
        text: ground.declared.text,
        places: ground.declared.places,
        tplaces: ground.declared.tplaces,
        tables: ground.declared.known.tables,
        signals: ground.signals,
    };
    let p = stretches::finish(page, f, names, hand);
    Part {
        pen: p,
        pattern: f.pattern + 1,
    }
}

// All listed patterns.
fn patterns_of<'a>(
    page: &mut [u8],
    ground: &'a Ground<'a>,
    list: &'a [usize],
    listed: usize,
    patterns: usize,
    size: usize,
    hand: &mut [u8],
    buffer: &mut [u8],
) -> Part
    requires { Run (ground_of ground.now) list.now listed patterns size hand.old buffer.old }
    ensures { Patterned (ground_of ground.now) list.now listed patterns size page.old page.new result }
{
    let mut part = Part {
        pen: Pen { at: Some(0) },
        pattern: 0,
    };
    let mut first = 0;
    let mut k = 0;
    while k < listed {
        let share = index::listed_at(
            ground.declared.text,
            ground.declared.book,
            list,
            patterns,
            k,
        );
        part = pattern(
            page,
            part.pen,
            part.pattern,
            ground,
            list,
            listed,
            patterns,
            size,
            first,
            share.cycles,
            hand,
            buffer,
        );
        first += share.cycles;
        k += 1;
    }
    part
}

// All Patterns; where none is listed one without statements, which is not counted.
fn all_patterns<'a>(
    page: &mut [u8],
    ground: &'a Ground<'a>,
    list: &'a [usize],
    listed: usize,
    patterns: usize,
    size: usize,
    hand: &mut [u8],
    buffer: &mut [u8],
) -> Part
    requires { Run (ground_of ground.now) list.now listed patterns size hand.old buffer.old }
    ensures { Bodied (ground_of ground.now) list.now listed patterns size page.old page.new result }
{
    if listed == 0 {
        let p = pens::add(page, Pen { at: Some(0) }, b"Pattern p0{\n}\n");
        return Part { pen: p, pattern: 0 };
    }
    patterns_of(page, ground, list, listed, patterns, size, hand, buffer)
}

// ---- the whole text

// The lines before the Patterns, of which there are so many.
fn head<'a>(
    page: &mut [u8],
    text: &'a [u8],
    places: &'a [usize],
    signals: usize,
    count: usize,
) -> Pen
    requires { SomeHead text.now places.now signals }
    ensures { Heads text.now places.now signals count page.old page.new result }
{
    let a = pens::add(page, Pen { at: Some(0) }, b"STIL 1.0;\n");
    let b = folds::signals(page, a, text, places, signals);
    let c = timings::timing(page, b, text);
    let d = folds::burst(page, c, count);
    folds::exec(page, d)
}

// What stands on another page, behind what stands on this one: 19, or how much that is.
fn join(page: &mut [u8], pen: Pen, other: &[u8], q: Pen) -> Result<usize, Refusal>
    ensures { Joins page.old pen other.now q page.new result }
{
    let no_room = Refusal {
        no: NO_ROOM,
        place: 0,
    };
    let Some(length) = q.at else {
        return Err(no_room);
    };
    let p = pens::add(page, pen, words::bytes_of(other, 0, length));
    p.at.ok_or(no_room)
}

// Room for a text; made here alone, so that a caller's proof sees its length and no zeros.
fn room() -> [u8; TEXT_MOST]
    ensures { length result ≡ text_most }
{
    [0; TEXT_MOST]
}

// Room for a window.
fn window_room() -> [u8; WINDOW]
    ensures { row_most ≤ length result }
{
    [0; WINDOW]
}

// An accepted text folded flat, to the front of a page: 22, 19, or its length.
fn put<'a>(
    page: &mut [u8],
    ground: &'a Ground<'a>,
    list: &'a [usize],
    listed: usize,
    patterns: usize,
    size: usize,
) -> Result<usize, Refusal>
    requires { SomeMeant (ground_of ground.now) list.now listed patterns size × (length page.old ≡ text_most) }
    ensures { Puts (ground_of ground.now) list.now listed patterns size page.new result }
{
    let mut body = room();
    let mut hand = [0u8; ROW];
    let mut buffer = window_room();
    let part = all_patterns(
        &mut body,
        ground,
        list,
        listed,
        patterns,
        size,
        &mut hand,
        &mut buffer,
    );
    if PATTERNS < part.pattern {
        return Err(Refusal {
            no: MANY_PATTERNS,
            place: 0,
        });
    }
    let pen = head(
        page,
        ground.declared.text,
        ground.declared.places,
        ground.signals,
        part.pattern,
    );
    join(page, pen, &body, part.pen)
}

// A text that 1 to 16 leave: 17, 25, 23, 22, 19, or its folded text's length.
fn flat_found<'a>(
    page: &mut [u8],
    text: &'a [u8],
    places: &'a [usize],
    lists: &'a [u16],
    tplaces: &'a [usize],
    waves: &'a [u8],
    book: &'a [usize],
    rows: &'a [u16],
    list: &'a [usize],
    used: &'a [u8],
    v: Verdict,
) -> Result<usize, Refusal>
    requires { SomeFound text.now places.now lists.now tplaces.now waves.now book.now rows.now list.now used.now v × (length page.old ≡ text_most) }
    ensures { Flattens text.now page.new result }
{
    let parts = v.parts;
    let total = v.total;
    verdicts::failing(
        text, places, lists, tplaces, waves, book, rows, list, used, v,
    )?;
    if CYCLES < total.cycles {
        return Err(Refusal {
            no: MANY_CYCLES,
            place: 0,
        });
    }
    let ground = Ground {
        declared: Declared {
            text,
            places,
            lists,
            tplaces,
            book,
            rows,
            known: parts.known,
        },
        waves,
        signals: parts.signals,
    };
    put(
        page,
        &ground,
        list,
        parts.listed,
        parts.patterns,
        total.size,
    )
}

// Any text.
fn flatten(page: &mut [u8], text: &[u8]) -> Result<usize, Refusal>
    requires { length page.old ≡ text_most }
    ensures { Flattens text.now page.new result }
{
    let mut places = [0usize; signals::PLACES];
    let mut lists = [0u16; signals::LISTS];
    let mut tplaces = [0usize; timing::PLACES];
    let mut waves = [0u8; timing::WAVES];
    let mut book = [0usize; measures::BOOK];
    let mut rows = [0u16; measures::ROWS];
    let mut list = [0usize; bursts::LISTED];
    let mut used = [0u8; noted::USED];
    let v = texts::decide(
        text,
        &mut places,
        &mut lists,
        &mut tplaces,
        &mut waves,
        &mut book,
        &mut rows,
        &mut list,
        verdicts::nowhere(),
        &mut used,
    )?;
    flat_found(
        page, text, &places, &lists, &tplaces, &waves, &book, &rows, &list, &used, v,
    )
}

// ---- the service

// There is room for what else is handed out (`spare`), or that is 19 too.
pub fn fold_text(text: &[u8], spare: bool, buffer: &mut [u8]) -> Result<usize, Refusal>
    ensures { Folds (spared spare (fold_of text.now buffer.old)) buffer.old buffer.new result }
{
    let mut page = room();
    let n = flatten(&mut page, text)?;
    if !spare | (buffer.len() < n) {
        return Err(Refusal {
            no: NO_ROOM,
            place: 0,
        });
    }
    pages::put(buffer, 0, words::bytes_of(&page, 0, n));
    Ok(n)
}

// A text folded flat, to the front of the buffer.
pub fn fold(text: &[u8], buffer: &mut [u8]) -> Result<usize, Refusal>
    ensures { Folds (fold_of text.now buffer.old) buffer.old buffer.new result }
{
    fold_text(text, true, buffer)
}
