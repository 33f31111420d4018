// A fail report: read once for its own faults, and again record by record.
#![tactic(auto)]

ghost use Rattle.std.specs.Prelude.{◌≡◌, List, [], get_or};
ghost use Rattle.meaning.specs.Reader.{until};
ghost use Rattle.words.specs.Cursor.{ahead, Goes};
ghost use Rattle.words.specs.Table.{names};
ghost use Rattle.words.specs.Values.{value_of};
ghost use Rattle.reports.specs.Report.{is_state, state as state_due, offset as offset_due, head as head_due, Record, one_record, closing as closing_due};
ghost use Rattle.reports.specs.Read.{Passes, earlier, outside_at, Places, Opens, Decides};

use tokens::Refusal;
use words::{BAD_NUMBER, Cursor, NOT_HERE, UNKNOWN};

const OFFSET_MOST: u64 = 1_099_511_627_776;

// A state letter, and the cursor behind its quotes.
#[derive(Clone, Copy)]
struct Stated {
    cursor: Cursor,
    letter: u8,
}

// An offset's number and letter (0 for none), and the cursor behind it. Its place is that of the cursor before it.
#[derive(Clone, Copy)]
pub struct Counted {
    pub cursor: Cursor,
    pub n: u64,
    pub letter: u8,
}

// A record's signal, and the cursor behind it. Its reference is the token ahead of the cursor before it.
#[derive(Clone, Copy)]
pub struct Headed {
    pub cursor: Cursor,
    pub signal: usize,
}

// A record's offsets: how many there are, where the first stands that falls outside the pattern, and the cursor behind the record.
#[derive(Clone, Copy)]
pub struct Placed {
    pub cursor: Cursor,
    pub count: usize,
    pub outside: Option<usize>,
}

// The pattern's name by its place and end; the place behind `FailData {` and the cursor there.
#[derive(Clone, Copy)]
struct Opened {
    cursor: Cursor,
    at: usize,
    end: usize,
    records: usize,
}

// A report that is sound as a text of its own: its pattern's name by its place and end, and the place behind `FailData {`.
#[derive(Clone, Copy)]
pub struct Sound {
    pub at: usize,
    pub end: usize,
    pub records: usize,
}

// ---- offsets

fn is_state(w: &[u8]) -> bool
    ensures { result ≡ is_state w.now }
{
    words::equal(w, b"H") | words::equal(w, b"L") | words::equal(w, b"T") | words::equal(w, b"X")
}

fn first_byte(w: &[u8]) -> u8
    ensures { result ≡ get_or w.now 0 0 }
{
    if 0 < w.len() { w[0] } else { 0 }
}

// A state letter in quotes.
fn state(report: &[u8], c: Cursor) -> Stated
    ensures { Goes report.now c state_due result.cursor result.letter }
{
    let a = words::due(report, c, b"'");
    let w = words::bytes_of(report, a.at, a.end);
    let right = is_state(w);
    let letter = first_byte(w);
    let b = words::expect(report, a, right);
    let cursor = words::due(report, b, b"'");
    Stated { cursor, letter }
}

// An offset is due.
pub fn offset(report: &[u8], c: Cursor) -> Counted
    ensures { Goes report.now c offset_due result.cursor (record { at = c.at; n = result.n; letter = result.letter }) }
{
    let at = c.at;
    let v = words::number_up_to(words::bytes_of(report, at, c.end), OFFSET_MOST);
    let n = v.unwrap_or(0);
    let d = words::word(report, c);
    let e = words::refuse_if(d, v.is_none(), BAD_NUMBER, at);
    if words::is(report, e, b"'") {
        let s = state(report, e);
        let cursor = s.cursor;
        return Counted {
            cursor,
            n,
            letter: s.letter,
        };
    }
    Counted {
        cursor: e,
        n,
        letter: 0,
    }
}

// ---- records

// REFERENCE SIGNAL, for one of `count` signals of the text.
pub fn head<'a>(
    report: &'a [u8],
    c: Cursor,
    text: &'a [u8],
    places: &'a [usize],
    count: usize,
) -> Headed
    ensures { Goes report.now c (head_due (names text.now places.now count)) result.cursor (ahead report.now c, result.signal) }
{
    let a = words::name(report, c);
    let at = a.at;
    let signal = words::find(text, words::bytes_of(report, at, a.end), places, count);
    let b = words::name(report, a);
    let cursor = words::refuse_if(b, !(signal < count), UNKNOWN, at);
    Headed { cursor, signal }
}

// Where the first stands of those that fall outside, with one offset more, where `left` cycles of the pattern are left.
fn first_outside(f: Option<usize>, n: u64, at: usize, left: u64) -> Option<usize>
    ensures { value_of result ≡ earlier (value_of f) (outside_at left n at) }
{
    match f {
        None if left <= n => Some(at),
        _ => f,
    }
}

// Offsets up to `;`, where `left` cycles of the pattern are left behind the reference.
pub fn count_offsets(report: &[u8], c: Cursor, left: u64) -> Placed
    ensures { Places report.now c left result }
{
    let mut cursor = c;
    let mut count = 0;
    let mut outside = None;
    while words::until(report, cursor, b";") {
        let at = cursor.at;
        let o = offset(report, cursor);
        outside = first_outside(outside, o.n, at, left);
        count += 1;
        cursor = o.cursor;
    }
    let end = words::due(report, cursor, b";");
    Placed {
        cursor: end,
        count,
        outside,
    }
}

// REFERENCE SIGNAL OFFSET .. ;
fn one_record<'a>(
    report: &'a [u8],
    c: Cursor,
    text: &'a [u8],
    places: &'a [usize],
    count: usize,
) -> Cursor
    ensures { (l : List Record) → Passes report.now c (one_record (names text.now places.now count) l) result }
{
    let h = head(report, c, text, places, count);
    let a = h.cursor;
    let p = count_offsets(report, a, 0);
    p.cursor
}

// Records up to `}`.
fn all_records<'a>(
    report: &'a [u8],
    c: Cursor,
    text: &'a [u8],
    places: &'a [usize],
    count: usize,
) -> Cursor
    ensures { Passes report.now c (until "}" (one_record (names text.now places.now count)) []) result }
{
    let mut cursor = c;
    while words::until(report, cursor, b"}") {
        cursor = one_record(report, cursor, text, places, count);
    }
    words::due(report, cursor, b"}")
}

// ---- the report

// PatternFailReport { Pattern NAME; FailData {
fn opening(report: &[u8], c: Cursor) -> Opened
    ensures { Opens report.now c result }
{
    let a = words::due(report, c, b"PatternFailReport");
    let b = words::due(report, a, b"{");
    let d = words::due(report, b, b"Pattern");
    let e = words::name(report, d);
    let f = words::due(report, e, b";");
    let g = words::due(report, f, b"FailData");
    let cursor = words::due(report, g, b"{");
    Opened {
        cursor,
        at: d.at,
        end: d.end,
        records: g.end,
    }
}

// The last `}`, and then nothing.
fn closing(report: &[u8], c: Cursor) -> Cursor
    ensures { Goes report.now c closing_due result tt }
{
    let a = words::due(report, c, b"}");
    let at = a.at;
    words::refuse_if(a, at < a.end, NOT_HERE, at)
}

// The report's own faults, 1 to 9, where the text has `count` signals.
pub fn reported<'a>(
    report: &'a [u8],
    text: &'a [u8],
    places: &'a [usize],
    count: usize,
) -> Result<Sound, Refusal>
    ensures { Decides (names text.now places.now count) report.now result }
{
    tokens::fault_in(report)?;
    let c = words::cursor_at(report, 0);
    let o = opening(report, c);
    let b = all_records(report, o.cursor, text, places, count);
    let e = closing(report, b);
    if e.no != 0 {
        return Err(Refusal {
            no: e.no,
            place: e.at,
        });
    }
    Ok(Sound {
        at: o.at,
        end: o.end,
        records: o.records,
    })
}
