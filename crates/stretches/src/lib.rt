// The rows of a listed pattern, folded one after the other into the statements of Patterns, into a page. A row is a character for each signal, 0 for a pin
// without a value, the table's digit and LF.
#![tactic(auto)]

ghost use Rattle.std.specs.Prelude.{◌≡◌, [], ◌∷◌, ◌++◌, true, false, ◌+◌, ◌*◌, ◌-◌, ◌≤◌, ◌<◌, suc, length, get_or};
ghost use Rattle.meaning.specs.Bounds.{cycles_most};
ghost use Rattle.words.specs.Table.{name_of};
ghost use Rattle.folded.specs.Pieces.{laid};
ghost use Rattle.folded.specs.Flat.{loses as loses_of, same_row, chooses, repeats, valued};
ghost use Rattle.folded.specs.Layout.{name_at, vector_put, line_put};
ghost use Rattle.folded.specs.Walk.{opened, closed, flushed};
ghost use Rattle.pens.specs.Pens.{Writes};
ghost use Rattle.stretches.specs.Rows.{row_in, rows_in, words_in, signal_words, table_words, value_bytes};
ghost use Rattle.stretches.specs.Folding.{in_force, Taking, Follows, Takes, Opens, Ends};

use pens::Pen;

// Bytes of a row behind its pins: the table's digit, and LF.
pub const TAIL: usize = 2;

const UNASSIGNED: u8 = 0;

const ZERO: u8 = 48;

// Where folding stands in a listed pattern: the pen, the number of the Pattern, the table in force if one was chosen, and how often the row in hand came; 0
// before the first row.
#[derive(Clone, Copy)]
pub struct Folding {
    pub pen: Pen,
    pub pattern: usize,
    pub table: Option<usize>,
    pub times: usize,
}

// A text's signals and tables by the places of their names, and how many there are.
#[derive(Clone, Copy)]
pub struct Names<'a> {
    pub text: &'a [u8],
    pub places: &'a [usize],
    pub tplaces: &'a [usize],
    pub tables: usize,
    pub signals: usize,
}

// ---- rows

// Does some pin go from assigned to unassigned?
fn loses(old: &[u8], new: &[u8]) -> bool
    ensures { result ≡ loses_of old.now new.now }
{
    old.iter()
        .zip(new)
        .any(|(o, n)| (*o != UNASSIGNED) & (*n == UNASSIGNED))
}

// The number of a row's table.
fn table_of(row: &[u8], signals: usize) -> usize
    requires { signals < length row.now }
    ensures { result ≡ get_or row.now signals 0 - 48 }
{
    row[signals].saturating_sub(ZERO) as usize
}

// Do two rows show the same?
fn same_row(old: &[u8], new: &[u8], signals: usize) -> bool
    requires { (signals < length old.now) × (signals < length new.now) }
    ensures { result ≡ same_row (row_in signals old.now) (row_in signals new.now) }
{
    let same = words::equal(&old[..signals], &new[..signals]);
    (table_of(old, signals) == table_of(new, signals)) & same
}

// ---- statements

// NAME=CHARACTER; of a pin that has a value.
fn value<'a>(page: &mut [u8], pen: Pen, text: &'a [u8], places: &'a [usize], s: usize, c: u8) -> Pen
    ensures { Writes page.old pen (value_bytes (name_of text.now places.now s).word c) page.new result }
{
    if c == UNASSIGNED {
        return pen;
    }
    let p = pens::add(page, pen, words::name_bytes(text, places, s));
    let assigned = [b'=', c, b';'];
    pens::add(page, p, &assigned)
}

// V{NAME=CHARACTER;..}
fn vector<'a>(page: &mut [u8], pen: Pen, text: &'a [u8], places: &'a [usize], pins: &[u8]) -> Pen
    ensures { Writes page.old pen (laid (vector_put (words_in text.now places.now (length pins.now)) (valued 0 pins.now) [])) page.new result }
{
    let mut p = pens::add(page, pen, b"V{");
    for (s, c) in pins.iter().enumerate() {
        p = value(page, p, text, places, s, *c);
    }
    pens::add(page, p, b"}")
}

// A row's V alone, or in a Loop from 2 times on.
fn repeat<'a>(
    page: &mut [u8],
    pen: Pen,
    text: &'a [u8],
    places: &'a [usize],
    times: usize,
    pins: &[u8],
) -> Pen
    ensures { Writes page.old pen (laid (line_put (words_in text.now places.now (length pins.now)) [] (repeats times (valued 0 pins.now)) [])) page.new result }
{
    if times < 2 {
        let v = vector(page, pen, text, places, pins);
        return pens::add(page, v, b"\n");
    }
    let p = pens::add(page, pen, b"Loop ");
    let q = pens::add_number(page, p, times as u64);
    let s = pens::add(page, q, b"{");
    let v = vector(page, s, text, places, pins);
    pens::add(page, v, b"}\n")
}

// The name of a table, if there is one of this number.
fn table_name<'a>(text: &'a [u8], tplaces: &'a [usize], tables: usize, k: usize) -> &'a [u8]
    ensures { result.now ≡ name_at (words_in text.now tplaces.now tables) k }
{
    if k < tables {
        return words::name_bytes(text, tplaces, k);
    }
    &text[0..0]
}

// W NAME;
fn choose<'a>(
    page: &mut [u8],
    pen: Pen,
    text: &'a [u8],
    tplaces: &'a [usize],
    tables: usize,
    k: usize,
) -> Pen
    ensures { Writes page.old pen (laid (line_put [] (words_in text.now tplaces.now tables) (chooses k) [])) page.new result }
{
    let p = pens::add(page, pen, b"W ");
    let q = pens::add(page, p, table_name(text, tplaces, tables, k));
    pens::add(page, q, b";\n")
}

// The row in hand: its table if that is not in force, then its V or Loop.
fn flush<'a>(page: &mut [u8], f: Folding, names: Names<'a>, hand: &[u8]) -> Pen
    requires { names.signals < length hand.now }
    ensures { Writes page.old f.pen (laid (flushed (signal_words names.entry) (table_words names.entry) (in_force f.table) (row_in names.entry.signals hand.now) f.times [])) page.new result }
{
    let pen = f.pen;
    if pen.at.is_none() {
        return pen;
    }
    let table = table_of(hand, names.signals);
    if f.table == Some(table) {
        return repeat(
            page,
            pen,
            names.text,
            names.places,
            f.times,
            &hand[..names.signals],
        );
    }
    let p = choose(page, pen, names.text, names.tplaces, names.tables, table);
    repeat(
        page,
        p,
        names.text,
        names.places,
        f.times,
        &hand[..names.signals],
    )
}

// ---- Patterns

// Pattern pN{
fn open(page: &mut [u8], pen: Pen, i: usize) -> Pen
    ensures { Writes page.old pen (laid (opened i [])) page.new result }
{
    let p = pens::add(page, pen, b"Pattern p");
    let q = pens::add_number(page, p, i as u64);
    pens::add(page, q, b"{\n")
}

// The Pattern of number i begins, and has no row yet.
pub fn begin(page: &mut [u8], pen: Pen, i: usize) -> Folding
    ensures { Opens page.old pen i page.new result }
{
    let p = open(page, pen, i);
    Folding {
        pen: p,
        pattern: i,
        table: None,
        times: 0,
    }
}

// A Pattern's end, and the next one's beginning.
fn part(page: &mut [u8], pen: Pen, i: usize) -> Pen
    ensures { Writes page.old pen (laid (closed (opened i []))) page.new result }
{
    let p = pens::add(page, pen, b"}\n");
    open(page, p, i)
}

// Another row than the one in hand, which is written; where a pin loses its value a Pattern begins.
fn next<'a>(page: &mut [u8], f: Folding, names: Names<'a>, hand: &[u8], row: &[u8]) -> Folding
    requires { Taking names.signals f 1 hand.now × (length row.now ≡ names.signals + 2) × (1 ≤ f.times) × (same_row (row_in names.signals hand.now) (row_in names.signals row.now) ≡ false) }
    ensures { Follows (signal_words names.entry) (table_words names.entry) page.old f (row_in names.entry.signals hand.now) (row_in names.entry.signals row.now) page.new result }
{
    let p = flush(page, f, names, hand);
    if loses(&hand[..names.signals], &row[..names.signals]) {
        let i = f.pattern + 1;
        let q = part(page, p, i);
        return Folding {
            pen: q,
            pattern: i,
            table: None,
            times: 1,
        };
    }
    let table = table_of(hand, names.signals);
    Folding {
        pen: p,
        pattern: f.pattern,
        table: Some(table),
        times: 1,
    }
}

// One row: the first, the same once more, or another.
fn step<'a>(page: &mut [u8], f: Folding, names: Names<'a>, hand: &[u8], row: &[u8]) -> Folding
    requires { Taking names.signals f 1 hand.now × (length row.now ≡ names.signals + 2) }
    ensures { Follows (signal_words names.entry) (table_words names.entry) page.old f (row_in names.entry.signals hand.now) (row_in names.entry.signals row.now) page.new result }
{
    if f.times == 0 {
        return Folding { times: 1, ..f };
    }
    if same_row(hand, row, names.signals) {
        return Folding {
            times: f.times + 1,
            ..f
        };
    }
    next(page, f, names, hand, row)
}

// One row, and then it is in hand.
fn turn<'a>(page: &mut [u8], f: Folding, names: Names<'a>, hand: &mut [u8], row: &[u8]) -> Folding
    requires { Taking names.signals f 1 hand.old × (length row.now ≡ names.signals + 2) }
    ensures { Takes (signal_words names.entry) (table_words names.entry) names.entry.signals page.old f hand.old (row_in names.entry.signals row.now ∷ []) page.new result hand.new }
{
    let g = step(page, f, names, hand, row);
    if 1 < g.times {
        return g;
    }
    pages::put(hand, 0, row);
    g
}

// So many rows that stand one behind the other in a buffer.
pub fn rows<'a>(
    page: &mut [u8],
    f: Folding,
    names: Names<'a>,
    hand: &mut [u8],
    buffer: &[u8],
    count: usize,
) -> Folding
    requires { Taking names.signals f count hand.old × (count * (names.signals + 2) ≤ length buffer.now) }
    ensures { Takes (signal_words names.entry) (table_words names.entry) names.entry.signals page.old f hand.old (rows_in names.entry.signals buffer.now 0 count) page.new result hand.new }
{
    let mut g = f;
    for r in 0..count {
        let at = r * (names.signals + TAIL);
        let end = at + (names.signals + TAIL);
        g = turn(page, g, names, hand, &buffer[at..end]);
    }
    g
}

// The last row, and the Pattern's end.
pub fn finish<'a>(page: &mut [u8], f: Folding, names: Names<'a>, hand: &[u8]) -> Pen
    requires { names.signals < length hand.now }
    ensures { Ends (signal_words names.entry) (table_words names.entry) names.entry.signals page.old f hand.now page.new result }
{
    let pen = f.pen;
    if f.times == 0 {
        return pens::add(page, pen, b"}\n");
    }
    let p = flush(page, f, names, hand);
    pens::add(page, p, b"}\n")
}
