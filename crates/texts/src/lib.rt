// A whole text: all its blocks in order, read into tables that the caller lends; and what refuses it before it is played, 1 to 16.
#![tactic(auto)]

ghost use Rattle.std.specs.Prelude.{◌≡◌, List, [], ℕ, ◌+◌, ◌*◌, ◌≤◌, length};
ghost use Rattle.tokens.specs.Tokens.{Tok, toks};
ghost use Rattle.tokens.specs.Refusals.{text_most};
ghost use Rattle.meaning.specs.Bounds.{signals_most, patterns_most, list_most};
ghost use Rattle.meaning.specs.Reader.{refuse};
ghost use Rattle.meaning.specs.Statements.{Decls, Env};
ghost use Rattle.meaning.specs.Document.{Read, document as document_due, patterns as patterns_due, pattern as pattern_due};
ghost use Rattle.meaning.specs.Meaning.{given, refused, answering, run_of};
ghost use Rattle.words.specs.Cursor.{stop_no};
ghost use Rattle.timing.specs.Marks.{table_size};
ghost use Rattle.timing.specs.Makes.{Makes};
ghost use Rattle.declared.specs.Declarations.{Blank};
ghost use Rattle.measures.specs.Uses.{row_length};
ghost use Rattle.measures.specs.Book.{book_length, rows_length, first_pattern, Entry, Listed};
ghost use Rattle.noted.specs.Noted.{Grows};
ghost use Rattle.heads.specs.Known.{Describes, Described};
ghost use Rattle.bursts.specs.Listed.{listed_in, list_length};
ghost use Rattle.texts.specs.Texts.{sound, counts_of};
ghost use Rattle.texts.specs.Patterns.{Patterned, Begun, ending as ending_due, Ends};
ghost use Rattle.texts.specs.Tables.{stopped_at, Reads, NotesRead, Decides};
ghost use Rattle.texts.specs.Run.{Tells, sound_of, Recorded, ReadAs};
ghost use Rattle.texts.specs.Told.{decided_of, Packs};

use heads::{Declared, Known};
use measures::{CYCLES_MOST, DEPTH, Measure, SIZE_MOST};
use timing::Watch;
use tokens::{Refusal, TEXT_MOST, TOO_LONG};
use words::{Cursor, NOT_HERE, TOO_MANY};

// The most patterns of a text.
pub const PATTERNS: usize = 16;

// Refusals.
const NOT_DEFINED: u8 = 15;

const TOO_LARGE: u8 = 16;

const NO_ROOM: usize = words::NO_ROOM as usize;

// The blocks of a text: the cursor behind them, how many there are of what they declare, and where the watched waveform is.
#[derive(Clone, Copy)]
pub struct Parts {
    pub cursor: Cursor,
    pub signals: usize,
    pub known: Known,
    pub listed: usize,
    pub patterns: usize,
    pub sight: Option<usize>,
}

// How many patterns were read, and the cursor behind them.
#[derive(Clone, Copy)]
struct Counted {
    cursor: Cursor,
    count: usize,
}

// The blocks behind the bodies: the cursor behind them, how many names the burst lists, how many patterns there are, and what their statements know.
#[derive(Clone, Copy)]
struct Ended {
    cursor: Cursor,
    listed: usize,
    patterns: usize,
    known: Known,
}

// What was decided of a text that is not refused: the blocks, and the measure of the run.
#[derive(Clone, Copy)]
pub struct Verdict {
    pub parts: Parts,
    pub total: Measure,
}

// ---- patterns

// Pattern NAME { statements }, behind `count` others.
fn pattern<'a>(
    text: &'a [u8],
    c: Cursor,
    places: &'a [usize],
    lists: &'a [u16],
    tplaces: &'a [usize],
    book: &mut [usize],
    rows: &'a [u16],
    known: Known,
    count: usize,
    row: &mut [u16],
    args: &mut [usize],
    used: &mut [u8],
) -> Cursor
    requires { Described text.now places.now lists.now tplaces.now book.old rows.now known × (count ≤ patterns_most) × (length row.old ≡ row_length) × (length args.old ≡ signals_most * 2) × (length used.old ≡ table_size) }
    ensures { (length row.new ≡ row_length) × (length args.new ≡ signals_most * 2) × ((used₀ : List ℕ) (e : Env) (b : Tok) (ps : Decls) → Patterned text.now places.now lists.now tplaces.now book.old rows.now known count e b used₀ used.old ps → Makes text.now c (pattern_due e b ps) result (Patterned text.now places.now lists.now tplaces.now book.new rows.now known (count + 1) e b used₀ used.new)) × Grows used.old used.new }
{
    let a = words::due(text, c, b"Pattern");
    let b = words::refuse_if(a, PATTERNS <= count, TOO_MANY, c.at);
    let d = words::new_name(text, b, &book[measures::BODIES * 2..], count + 1);
    let e = words::due(text, d, b"{");
    let declared = Declared {
        text,
        places,
        lists,
        tplaces,
        book,
        rows,
        known,
    };
    let x = bodies::statements(&declared, e, false, DEPTH, row, args, used);
    let r = x.cursor;
    if r.no != 0 {
        return r;
    }
    let m = x.measure;
    measures::keep(book, measures::PATTERNS + count, b, d.end, m);
    r
}

// One or more, to the end of the text.
fn patterns<'a>(
    text: &'a [u8],
    c: Cursor,
    places: &'a [usize],
    lists: &'a [u16],
    tplaces: &'a [usize],
    book: &mut [usize],
    rows: &'a [u16],
    known: Known,
    used: &mut [u8],
) -> Counted
    requires { Begun text.now places.now lists.now tplaces.now book.old rows.now known used.old × (length used.old ≡ table_size) }
    ensures { ((e : Env) (b : Tok) → Patterned text.now places.now lists.now tplaces.now book.old rows.now known 0 e b used.old used.old [] → Makes text.now c (patterns_due e b) result.cursor (Patterned text.now places.now lists.now tplaces.now book.new rows.now known result.count e b used.old used.new)) × Grows used.old used.new }
{
    let mut row = [0u16; measures::ROW];
    let mut args = [0usize; measures::ROW];
    let mut cursor = pattern(
        text, c, places, lists, tplaces, book, rows, known, 0, &mut row, &mut args, used,
    );
    let mut count = 1;
    while (cursor.no == 0) & (cursor.at < cursor.end) {
        cursor = pattern(
            text, cursor, places, lists, tplaces, book, rows, known, count, &mut row, &mut args,
            used,
        );
        count += 1;
    }
    Counted { cursor, count }
}

// ---- all blocks

// PatternBurst, PatternExec and the patterns, whose names and X names differ. (A text above 65,536 bytes is refused for that.)
fn ending<'a>(
    text: &'a [u8],
    c: Cursor,
    places: &'a [usize],
    lists: &'a [u16],
    tplaces: &'a [usize],
    book: &mut [usize],
    rows: &'a [u16],
    list: &mut [usize],
    known: Known,
    used: &mut [u8],
) -> Ended
    requires { Described text.now places.now lists.now tplaces.now book.old rows.now known × (length list.old ≡ list_length) × (length used.old ≡ table_size) }
    ensures { (length text.now ≤ text_most → (e : Env) → Describes text.now places.now lists.now tplaces.now book.old rows.now known e → Makes text.now c (ending_due e) result.cursor (Ends text.now places.now lists.now tplaces.now book.new rows.now list.new known result e used.old used.new)) × Grows used.old used.new }
{
    let n = bursts::burst(text, c, list);
    let a = n.cursor;
    let name = Cursor {
        no: 0,
        fault: 0,
        at: n.at,
        end: n.end,
    };
    measures::keep(book, measures::BODIES, name, 0, measures::nothing());
    let x = bursts::exec(text, a, n.at, n.end);
    let b = x.cursor;
    let inside = Known {
        names: known.names,
        tables: known.tables,
        macros: known.macros,
        procs: known.procs,
        pattern: true,
    };
    let p = patterns(text, b, places, lists, tplaces, book, rows, inside, used);
    let all = p.cursor;
    let cursor = labels::each_once(text, words::bytes_of(text, n.at, n.end), b, all);
    Ended {
        cursor,
        listed: n.count,
        patterns: p.count,
        known: inside,
    }
}

// Reading was refused.
fn stopped(cursor: Cursor, known: Known) -> Parts
    ensures { result ≡ stopped_at cursor known }
{
    Parts {
        cursor,
        signals: 0,
        known,
        listed: 0,
        patterns: 0,
        sight: None,
    }
}

// All of them, of a text of at most 65,536 bytes. Where one waveform stands that is wanted is watched for. What the statements assign is noted.
pub fn document(
    text: &[u8],
    places: &mut [usize],
    lists: &mut [u16],
    tplaces: &mut [usize],
    waves: &mut [u8],
    book: &mut [usize],
    rows: &mut [u16],
    list: &mut [usize],
    watch: Watch,
    used: &mut [u8],
) -> Parts
    requires { Blank places.old lists.old tplaces.old waves.old × (length book.old ≡ book_length) × (length rows.old ≡ rows_length) × (length list.old ≡ list_length) × (length used.old ≡ table_size) }
    ensures { (length text.now ≤ text_most → Reads text.now watch places.new lists.new tplaces.new waves.new book.new rows.new list.new result) × (length text.now ≤ text_most → NotesRead text.now used.new result) }
{
    let c = words::cursor_at(text, 0);
    let d = declared::declarations(text, c, places, lists, tplaces, waves, watch);
    let a = d.cursor;
    let first = Known {
        names: d.names,
        tables: d.tables,
        macros: 0,
        procs: 0,
        pattern: false,
    };
    if a.no != 0 {
        return stopped(a, first);
    }
    let m = bodies::bodies(text, a, places, lists, tplaces, book, rows, first, used);
    let b = m.cursor;
    let known = m.known;
    if b.no != 0 {
        return stopped(b, known);
    }
    let e = ending(
        text, b, places, lists, tplaces, book, rows, list, known, used,
    );
    let cursor = e.cursor;
    let inside = e.known;
    Parts {
        cursor,
        signals: d.signals,
        known: inside,
        listed: e.listed,
        patterns: e.patterns,
        sight: d.sight,
    }
}

// ---- the run

// The measure of the listed patterns as one run: the first that is not defined is refused.
fn run_of<'a>(
    text: &'a [u8],
    book: &'a [usize],
    list: &'a [usize],
    listed: usize,
    patterns: usize,
) -> Result<Measure, Refusal>
    requires { (length book.now ≡ book_length) × (length list.now ≡ list_length) × (listed ≤ list_most) × (patterns ≤ patterns_most) }
    ensures { (ps : Decls) → Listed (Entry text.now book.now) first_pattern ps → length ps ≡ patterns → Tells (run_of ps (listed_in text.now list.now listed)) (λ b. b) result }
{
    let names = &book[measures::PATTERNS * 2..];
    let mut measure = measures::nothing();
    for k in 0..listed {
        let i = words::find(text, words::name_bytes(text, list, k), names, patterns);
        if patterns <= i {
            return Err(Refusal {
                no: NOT_DEFINED,
                place: list[k * 2],
            });
        }
        let x = measures::measure_at(book, measures::PATTERNS + i);
        measure = measures::plus(measure, measures::used(0, x));
    }
    Ok(measure)
}

// ---- 1 to 16

// What refuses a text that could not be read: a fault of its bytes comes first.
fn unread(text: &[u8], c: Cursor) -> Refusal
    ensures { document_due (toks text.now 0) ≡ refuse c.no c.at → sound text.now ≡ refused result.no result.place }
{
    match tokens::fault_in(text) {
        Ok(()) => Refusal {
            no: c.no,
            place: c.at,
        },
        Err(fault) => fault,
    }
}

// The number with which the tokens stop: 4 where the text ends, or that of a fault.
fn stop_no(c: Cursor) -> u8
    ensures { result ≡ stop_no c }
{
    if c.fault == 0 { NOT_HERE } else { c.fault }
}

// What refuses a text that was read to its end: a fault where its tokens stop, a listed pattern that isn't there, a run that is too large.
fn judged<'a>(
    text: &'a [u8],
    book: &'a [usize],
    list: &'a [usize],
    parts: Parts,
) -> Result<Measure, Refusal>
    requires { (length book.now ≡ book_length) × (length list.now ≡ list_length) × (parts.listed ≤ list_most) × (parts.patterns ≤ patterns_most) }
    ensures { length text.now ≤ text_most → (d : Read) → Recorded text.now book.now list.now parts d → Tells (sound text.now) (sound_of d) result }
{
    let c = parts.cursor;
    let no = stop_no(c);
    if no != NOT_HERE {
        return Err(Refusal { no, place: c.at });
    }
    let total = run_of(text, book, list, parts.listed, parts.patterns)?;
    if (total.size <= SIZE_MOST) & (total.cycles <= CYCLES_MOST) {
        return Ok(total);
    }
    Err(Refusal {
        no: TOO_LARGE,
        place: 0,
    })
}

// The measure of the run of a text of which these parts were read, or what refuses it.
fn measured<'a>(
    text: &'a [u8],
    book: &'a [usize],
    list: &'a [usize],
    parts: Parts,
) -> Result<Measure, Refusal>
    requires { (length book.now ≡ book_length) × (length list.now ≡ list_length) × (length text.now ≤ text_most → parts.cursor.no ≡ 0 → (parts.listed ≤ list_most) × (parts.patterns ≤ patterns_most)) }
    ensures { (d : Read) → (length text.now ≤ text_most → ReadAs text.now book.now list.now parts d) → Tells (sound text.now) (sound_of d) result }
{
    if TEXT_MOST < text.len() {
        return Err(Refusal {
            no: TOO_LONG,
            place: 0,
        });
    }
    let c = parts.cursor;
    if c.no != 0 {
        return Err(unread(text, c));
    }
    judged(text, book, list, parts)
}

// 1 to 16. Where nothing is refused the tables hold the text, and what its statements assign is noted.
pub fn decide(
    text: &[u8],
    places: &mut [usize],
    lists: &mut [u16],
    tplaces: &mut [usize],
    waves: &mut [u8],
    book: &mut [usize],
    rows: &mut [u16],
    list: &mut [usize],
    watch: Watch,
    used: &mut [u8],
) -> Result<Verdict, Refusal>
    requires { Blank places.old lists.old tplaces.old waves.old × (length book.old ≡ book_length) × (length rows.old ≡ rows_length) × (length list.old ≡ list_length) × (length used.old ≡ table_size) }
    ensures { Decides text.now watch places.new lists.new tplaces.new waves.new book.new rows.new list.new used.new result }
{
    let parts = document(
        text, places, lists, tplaces, waves, book, rows, list, watch, used,
    );
    let total = measured(text, book, list, parts)?;
    Ok(Verdict { parts, total })
}

// ---- for a caller without tables

// Signals, tables, listed patterns, cycles, and the size of the run.
#[derive(Clone, Copy)]
pub struct Counts {
    pub signals: usize,
    pub tables: usize,
    pub listed: usize,
    pub cycles: usize,
    pub size: usize,
}

// 1 to 16 of any text.
pub fn decided(text: &[u8]) -> Result<Counts, Refusal>
    ensures { decided_of result ≡ answering (sound text.now) (λ x. given (counts_of x)) }
{
    let mut places = [0usize; signals::PLACES];
    let mut lists = [0u16; signals::LISTS];
    let mut tplaces = [0usize; timing::PLACES];
    let mut waves = [0u8; timing::WAVES];
    let mut book = [0usize; measures::BOOK];
    let mut rows = [0u16; measures::ROWS];
    let mut list = [0usize; bursts::LISTED];
    let mut used = [0u8; noted::USED];
    let nothing = Watch {
        table: timing::TABLES,
        signal: 0,
        char: 0,
    };
    let v = decide(
        text,
        &mut places,
        &mut lists,
        &mut tplaces,
        &mut waves,
        &mut book,
        &mut rows,
        &mut list,
        nothing,
        &mut used,
    )?;
    let parts = v.parts;
    let known = parts.known;
    let total = v.total;
    Ok(Counts {
        signals: parts.signals,
        tables: known.tables,
        listed: parts.listed,
        cycles: total.cycles,
        size: total.size,
    })
}

// The same for a caller in C or Rust. 0: five numbers stand at the front of the buffer; else 32 times the refusal's place and its number, and the buffer
// is as it was. A buffer of less than five numbers is 19. (A place past the longest text, which no refusal has, would not be told.)
#[unsafe(no_mangle)]
pub extern "C" fn lutemeteor_sound(text: &[u8], numbers: &mut [usize]) -> usize
    ensures { Packs (answering (sound text.now) (λ x. given (counts_of x))) numbers.old result numbers.new }
{
    match decided(text) {
        Err(refusal) => {
            if refusal.place <= TEXT_MOST {
                return refusal.place * 32 + refusal.no as usize;
            }
            refusal.no as usize
        }
        Ok(counts) => {
            if numbers.len() < 5 {
                return NO_ROOM;
            }
            numbers[..5].copy_from_slice(&[
                counts.signals,
                counts.tables,
                counts.listed,
                counts.cycles,
                counts.size,
            ]);
            0
        }
    }
}
