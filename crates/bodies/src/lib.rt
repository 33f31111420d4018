// Bodies: statements up to their `}`, and the macros and procedures of a text, kept in a book.
#![tactic(auto)]

ghost use Rattle.std.specs.Prelude.{◌≡◌, ◌&&◌, ℕ, ◌+◌, ◌*◌, ◌<◌, ◌≤◌, length};
ghost use Rattle.tokens.specs.Written.{bytes};
ghost use Rattle.meaning.specs.Bounds.{signals_most, depth_most, bodies_most};
ghost use Rattle.meaning.specs.Reader.{Reader, ahead_of, option};
ghost use Rattle.meaning.specs.Body.{Assigns, done, vec};
ghost use Rattle.meaning.specs.Statements.{Env, Head, head as head_due, in_shift as in_shift_due, statements as statements_due};
ghost use Rattle.meaning.specs.Document.{bodies as bodies_due};
ghost use Rattle.timing.specs.Marks.{table_size};
ghost use Rattle.timing.specs.Makes.{Makes, Brings};
ghost use Rattle.words.specs.Cursor.{alive, stream};
ghost use Rattle.signals.specs.Names.{names_of};
ghost use Rattle.assigns.specs.Given.{Ready};
ghost use Rattle.measures.specs.Uses.{row_length, Given};
ghost use Rattle.measures.specs.Book.{book_length, rows_length};
ghost use Rattle.noted.specs.Noted.{Grows};
ghost use Rattle.heads.specs.Known.{Described, Describing, DescribingSome};
ghost use Rattle.bodies.specs.Bodies.{Notes, Counted, Summed, HeadIs, Held, went as went_on, last as last_of, Turned, Begun};
ghost use Rattle.bodies.specs.Blocks.{one_more, one_of as one_due, opening, block_of, word_of, Declares};

use data::BAD_ARGUMENT;
use heads::{Declared, Known};
use measures::{DEPTH, Measure};
use words::{Cursor, TOO_MANY};

// The cursor behind statements, and their measure.
#[derive(Clone, Copy)]
pub struct Measured {
    pub cursor: Cursor,
    pub measure: Measure,
}

// One statement was read: the cursor behind it, the measure with it; was it `}`, and has a Shift come? Where `turns` is not 0 it is a Loop of so
// many turns, of which the head was read.
#[derive(Clone, Copy)]
struct Turn {
    cursor: Cursor,
    measure: Measure,
    ends: bool,
    seen: bool,
    turns: usize,
}

// The cursor behind MacroDefs and Procedures, and how many there are.
#[derive(Clone, Copy)]
pub struct Blocks {
    pub cursor: Cursor,
    pub known: Known,
}

// ---- statements

// What a Shift holds: one V with `#`, and `}`. Its uses go to the row, and it is noted.
fn in_shift<'a>(
    text: &'a [u8],
    c: Cursor,
    places: &'a [usize],
    lists: &'a [u16],
    names: usize,
    row: &mut [u16],
    used: &mut [u8],
) -> Cursor
    requires { Ready text.now places.now lists.now names × (length row.old ≡ row_length) × (length used.old ≡ table_size) }
    ensures { Makes text.now c (in_shift_due (names_of text.now places.now lists.now names)) result (Held row.old row.new used.new) × Grows used.old used.new }
{
    let mut given = [0; sets::MOST];
    let a = words::due(text, c, b"V");
    let b = assigns::assigns(text, a, places, lists, names, true, &mut given);
    let d = words::due(text, b, b"}");
    let r = words::refuse_if(d, !measures::has_mark(&given), BAD_ARGUMENT, b.at);
    if r.no != 0 {
        return r;
    }
    measures::mark_uses(&given, row);
    noted::note(&given, used);
    r
}

// The uses of a V, where it is the body's own.
fn count(own: bool, given: &[u8], row: &mut [u16])
    requires { (length given.now ≡ signals_most) × (length row.old ≡ row_length) }
    ensures { (p : ℕ) (a : Assigns) → Given a given.now → Counted own row.old (vec p a done) row.new }
{
    if own {
        measures::count_uses(given, row);
    }
}

// A statement was read, and others may follow.
fn went(cursor: Cursor, measure: Measure, seen: bool) -> Turn
    ensures { result ≡ went_on cursor measure seen }
{
    Turn {
        cursor,
        measure,
        ends: false,
        seen,
        turns: 0,
    }
}

// None follows: it was `}`, or reading was refused.
fn last(cursor: Cursor, measure: Measure) -> Turn
    ensures { result ≡ last_of cursor measure }
{
    Turn {
        cursor,
        measure,
        ends: true,
        seen: false,
        turns: 0,
    }
}

// Behind a statement's head h, which gives these characters or has these arguments: what else is read of it, unless it is a Loop. What it assigns is noted.
fn behind<'a>(
    text: &'a [u8],
    h: heads::Headed,
    places: &'a [usize],
    lists: &'a [u16],
    names: usize,
    book: &'a [usize],
    own: bool,
    seen: bool,
    before: Measure,
    given: &'a [u8],
    args: &'a [usize],
    row: &mut [u16],
    used: &mut [u8],
) -> Turn
    requires ready { Ready text.now places.now lists.now names × (length row.old ≡ row_length) × (length given.now ≡ signals_most) × (length book.now ≡ book_length) × (length args.now ≡ signals_most * 2) × (length used.old ≡ table_size) }
    requires by_index { (c : Cursor) × (m : Reader Head) × (tables : ℕ) × HeadIs text.now book.now given.now args.now tables c m h }
    ensures { ((e : Env) (d : ℕ) (c : Cursor) (tables : ℕ) → e.names ≡ names_of text.now places.now lists.now names → HeadIs text.now book.now given.now args.now tables c (head_due e own d seen) h → Begun text.now e own d c seen before row.old result row.new (Notes tables e used.old used.new)) × Grows used.old used.new }
{
    let cursor = h.cursor;
    if cursor.no != 0 {
        return last(cursor, before);
    }
    let what = h.what;
    match what {
        heads::What::Ends => last(cursor, before),
        heads::What::Vector(p) => {
            count(own, given, row);
            noted::note(given, used);
            went(cursor, measures::plus(before, measures::vector()), seen)
        }
        heads::What::Assigns => {
            noted::note(given, used);
            went(cursor, measures::plus(before, measures::setting()), seen)
        }
        heads::What::Chooses(k) => went(cursor, measures::plus(before, measures::setting()), seen),
        heads::What::Loops(n) => Turn {
            cursor,
            measure: before,
            ends: false,
            seen,
            turns: n,
        },
        heads::What::Shifts => {
            let r = in_shift(text, cursor, places, lists, names, row, used);
            went(r, measures::plus(before, measures::shift()), true)
        }
        heads::What::Uses(i, t) => {
            noted::note_args(text, given, args, used);
            let x = measures::used(t, measures::measure_at(book, i));
            went(cursor, measures::plus(before, x), seen)
        }
    }
}

// One statement, but of a Loop only its head.
fn begin<'a>(
    declared: &'a Declared<'a>,
    c: Cursor,
    own: bool,
    d: usize,
    seen: bool,
    before: Measure,
    row: &mut [u16],
    args: &mut [usize],
    used: &mut [u8],
) -> Turn
    requires { DescribingSome declared.now × (d ≤ depth_most) × (length row.old ≡ row_length) × (length args.old ≡ signals_most * 2) × (length used.old ≡ table_size) }
    ensures { ((e : Env) → Describing declared.now e → Begun declared.now.text.now e own d c seen before row.old result row.new (Notes declared.now.known.tables e used.old used.new)) × Grows used.old used.new }
{
    let mut given = [0; sets::MOST];
    let h = heads::head(declared, c, own, d, seen, &mut given, args);
    let names = declared.known.names;
    behind(
        declared.text,
        h,
        declared.places,
        declared.lists,
        names,
        declared.book,
        own,
        seen,
        before,
        &given,
        args,
        row,
        used,
    )
}

// One statement, behind others of this measure.
#[cycle(statement_statements)]
fn statement<'a>(
    declared: &'a Declared<'a>,
    c: Cursor,
    own: bool,
    d: usize,
    seen: bool,
    before: Measure,
    row: &mut [u16],
    args: &mut [usize],
    used: &mut [u8],
) -> Turn
    requires { DescribingSome declared.now × (d ≤ depth_most) × (length row.old ≡ row_length) × (length args.old ≡ signals_most * 2) × (length used.old ≡ table_size) }
    ensures { ((e : Env) → Describing declared.now e → Turned declared.now.text.now e own d c seen before row.old result row.new (Notes declared.now.known.tables e used.old used.new)) × Grows used.old used.new }
{
    let t = begin(declared, c, own, d, seen, before, row, args, used);
    let n = t.turns;
    if n == 0 {
        return t;
    }
    let b = t.cursor;
    let x = statements(declared, b, false, d - 1, row, args, used);
    let inner = x.measure;
    let r = x.cursor;
    went(r, measures::plus(before, measures::looped(n, inner)), seen)
}

// Statements and their `}`, in which bodies may stand d levels deep. `own`: they are a macro's or procedure's own, and `row` counts their uses of `#`. What
// they assign is noted in `used`.
#[cycle(statement_statements)]
pub fn statements<'a>(
    declared: &'a Declared<'a>,
    c: Cursor,
    own: bool,
    d: usize,
    row: &mut [u16],
    args: &mut [usize],
    used: &mut [u8],
) -> Measured
    requires { DescribingSome declared.now × (d ≤ depth_most) × (length row.old ≡ row_length) × (length args.old ≡ signals_most * 2) × (length used.old ≡ table_size) }
    ensures { (length row.new ≡ row_length) × (length args.new ≡ signals_most * 2) × ((e : Env) → Describing declared.now e → Makes declared.now.text.now c (statements_due e d own) result.cursor (Summed own row.old row.new result.measure (Notes declared.now.known.tables e used.old used.new))) × Grows used.old used.new }
{
    let mut cursor = c;
    let mut measure = measures::nothing();
    let mut seen = false;
    let mut ends = false;
    while (cursor.no == 0) & !ends {
        let t = statement(declared, cursor, own, d, seen, measure, row, args, used);
        cursor = t.cursor;
        measure = t.measure;
        seen = t.seen;
        ends = t.ends;
    }
    Measured { cursor, measure }
}

// ---- macros and procedures

// How many are declared with one more macro or procedure.
fn one_more(known: Known, macros: bool) -> Known
    requires { known.macros + known.procs < bodies_most }
    ensures { result ≡ one_more known macros }
{
    if macros {
        return Known {
            names: known.names,
            tables: known.tables,
            macros: known.macros + 1,
            procs: known.procs,
            pattern: known.pattern,
        };
    }
    Known {
        names: known.names,
        tables: known.tables,
        macros: known.macros,
        procs: known.procs + 1,
        pattern: known.pattern,
    }
}

// NAME { statements }, behind the complete ones of its kind.
fn one_body<'a>(
    text: &'a [u8],
    c: Cursor,
    places: &'a [usize],
    lists: &'a [u16],
    tplaces: &'a [usize],
    book: &mut [usize],
    rows: &mut [u16],
    known: Known,
    macros: bool,
    args: &mut [usize],
    used: &mut [u8],
) -> Blocks
    requires { Described text.now places.now lists.now tplaces.now book.old rows.old known × (length args.old ≡ signals_most * 2) × (length used.old ≡ table_size) }
    ensures { Declares text.now places.now lists.now tplaces.now book.old rows.old used.old known c (one_due macros) book.new rows.new used.new result × Grows used.old used.new }
{
    let part = heads::part_of(known, macros);
    let first = part.first;
    let count = part.count;
    let a = words::new_name(text, c, &book[first * 2..], count);
    let many = measures::PROCEDURES <= known.macros + known.procs;
    let b = words::refuse_if(a, many, TOO_MANY, c.at);
    let d = words::due(text, b, b"{");
    let mut row = [0u16; measures::ROW];
    let declared = Declared {
        text,
        places,
        lists,
        tplaces,
        book,
        rows,
        known,
    };
    let x = statements(&declared, d, true, DEPTH, &mut row, args, used);
    let end = x.cursor;
    if end.no != 0 {
        return Blocks { cursor: end, known };
    }
    let measure = x.measure;
    measures::keep(book, first + count, c, b.end, measure);
    measures::keep_row(rows, first + count, &row);
    let more = one_more(known, macros);
    Blocks {
        cursor: end,
        known: more,
    }
}

// Is the block's word ahead?
fn begins(text: &[u8], c: Cursor, macros: bool) -> bool
    ensures { result ≡ (alive c && ahead_of (bytes (word_of macros)) (stream text.now c)) }
{
    if macros {
        return words::is(text, c, b"MacroDefs");
    }
    words::is(text, c, b"Procedures")
}

// Past its word and `{`.
fn opened(text: &[u8], c: Cursor, macros: bool) -> Cursor
    ensures { (k : Reader Env) → Brings text.now c (opening macros k) result k }
{
    if macros {
        let a = words::due(text, c, b"MacroDefs");
        return words::due(text, a, b"{");
    }
    let a = words::due(text, c, b"Procedures");
    words::due(text, a, b"{")
}

// MacroDefs or Procedures, which may be missing: its word, and { NAME { statements } .. }
fn block<'a>(
    text: &'a [u8],
    c: Cursor,
    places: &'a [usize],
    lists: &'a [u16],
    tplaces: &'a [usize],
    book: &mut [usize],
    rows: &mut [u16],
    known: Known,
    macros: bool,
    args: &mut [usize],
    used: &mut [u8],
) -> Blocks
    requires { Described text.now places.now lists.now tplaces.now book.old rows.old known × (length args.old ≡ signals_most * 2) × (length used.old ≡ table_size) }
    ensures { Declares text.now places.now lists.now tplaces.now book.old rows.old used.old known c (option (word_of macros) (block_of macros)) book.new rows.new used.new result × Grows used.old used.new }
{
    if !begins(text, c, macros) {
        return Blocks { cursor: c, known };
    }
    let mut cursor = opened(text, c, macros);
    let mut all = known;
    while words::until(text, cursor, b"}") {
        let x = one_body(
            text, cursor, places, lists, tplaces, book, rows, all, macros, args, used,
        );
        cursor = x.cursor;
        all = x.known;
    }
    let end = words::due(text, cursor, b"}");
    Blocks {
        cursor: end,
        known: all,
    }
}

// MacroDefs and Procedures, each at most once, in either order.
pub fn bodies<'a>(
    text: &'a [u8],
    c: Cursor,
    places: &'a [usize],
    lists: &'a [u16],
    tplaces: &'a [usize],
    book: &mut [usize],
    rows: &mut [u16],
    known: Known,
    used: &mut [u8],
) -> Blocks
    requires { Described text.now places.now lists.now tplaces.now book.old rows.old known × (length used.old ≡ table_size) }
    ensures { (length book.new ≡ book_length) × (length rows.new ≡ rows_length) × Declares text.now places.now lists.now tplaces.now book.old rows.old used.old known c bodies_due book.new rows.new used.new result × Grows used.old used.new }
{
    let mut args = [0usize; measures::ROW];
    let macros = begins(text, c, true);
    let m = block(
        text, c, places, lists, tplaces, book, rows, known, macros, &mut args, used,
    );
    let cursor = m.cursor;
    if cursor.no != 0 {
        return m;
    }
    let more = m.known;
    block(
        text, cursor, places, lists, tplaces, book, rows, more, !macros, &mut args, used,
    )
}
