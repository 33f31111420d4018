// The head of one statement, up to where the statements in it or behind it begin. The check and the player both read statements by it.
#![tactic(auto)]

ghost use Rattle.std.specs.Prelude.{◌≡◌, List, [], ℕ, ◌*◌, ◌≤◌, length};
ghost use Rattle.meaning.specs.Bounds.{signals_most, depth_most};
ghost use Rattle.meaning.specs.Meaning.{firsts};
ghost use Rattle.meaning.specs.Reader.{one_of};
ghost use Rattle.meaning.specs.Timing.{Tables};
ghost use Rattle.meaning.specs.Body.{Kind};
ghost use Rattle.meaning.specs.Statements.{Env, Decls, head as head_due, used as used_due, chosen as chosen_due, looping as looping_due, shift_head as shift_due, label_head as label_due};
ghost use Rattle.words.specs.Table.{names as names_in};
ghost use Rattle.signals.specs.Names.{names_of};
ghost use Rattle.timing.specs.Makes.{Makes};
ghost use Rattle.assigns.specs.Given.{Gave, Ready};
ghost use Rattle.measures.specs.Book.{book_length, rows_length};
ghost use Rattle.heads.specs.Known.{Describing, DescribingSome};
ghost use Rattle.heads.specs.Heads.{Tells, Plainly, OfKind, SomeKind, part_of, last_heads, others};

use data::BAD_ARGUMENT;
use words::{Cursor, NOT_HERE};

// Refusal: bodies in bodies beyond the levels that are left.
const TOO_DEEP: u8 = 14;

// The most turns of a Loop.
const LOOP_MOST: u32 = 16_777_215;

// How many names, tables, macros and procedures are declared; and do the statements stand in a pattern?
#[derive(Clone, Copy)]
pub struct Known {
    pub names: usize,
    pub tables: usize,
    pub macros: usize,
    pub procs: usize,
    pub pattern: bool,
}

// What is declared before a statement, as the tables of a text have it: names and their signals, the names of tables, the bodies and what those use.
#[derive(Clone, Copy)]
pub struct Declared<'a> {
    pub text: &'a [u8],
    pub places: &'a [usize],
    pub lists: &'a [u16],
    pub tplaces: &'a [usize],
    pub book: &'a [usize],
    pub rows: &'a [u16],
    pub known: Known,
}

// Where the bodies of one kind stand in the book: the number of the first, and how many there are.
#[derive(Clone, Copy)]
pub struct Part {
    pub first: usize,
    pub count: usize,
}

// A statement's head. The characters of `V` and `C` are in a table beside it, and so are the arguments of a used body.
#[derive(Clone, Copy)]
pub enum What {
    // `}`
    Ends,
    // `V { .. }`, at its place
    Vector(usize),
    // `C { .. }`, or `X NAME;`, which assigns nothing
    Assigns,
    // `W NAME;`, by the table's number
    Chooses(usize),
    // `Loop N {`
    Loops(usize),
    // `Shift {`
    Shifts,
    // `Macro` or `Call`: the body's number, and how often its Shift plays
    Uses(usize, usize),
}

#[derive(Clone, Copy)]
pub struct Headed {
    pub cursor: Cursor,
    pub what: What,
}

// `W` is read: NAME;
fn chosen<'a>(text: &'a [u8], c: Cursor, tplaces: &'a [usize], tables: usize) -> Headed
    ensures { (tabs : Tables) → firsts tabs ≡ firsts (names_in text.now tplaces.now tables) → Plainly text.now c (chosen_due tabs) tables result }
{
    let x = words::old_name(text, c, tplaces, tables);
    let a = x.cursor;
    let cursor = words::due(text, a, b";");
    Headed {
        cursor,
        what: What::Chooses(x.number),
    }
}

// `Loop` is read, at p: N {
fn looping(text: &[u8], c: Cursor, d: usize, p: usize) -> Headed
    ensures { (tables : ℕ) → Plainly text.now c (looping_due d p) tables result }
{
    let a = words::refuse_if(c, d == 0, TOO_DEEP, p);
    let n = words::number_in(text, a, 1, LOOP_MOST);
    let b = n.cursor;
    let cursor = words::due(text, b, b"{");
    Headed {
        cursor,
        what: What::Loops(n.n as usize),
    }
}

// `Shift` is read, at p: {
fn shifting(text: &[u8], c: Cursor, may: bool, d: usize, p: usize) -> Headed
    ensures { (tables : ℕ) → Plainly text.now c (shift_due may d p) tables result }
{
    let a = words::refuse_if(c, !may, NOT_HERE, p);
    let b = words::refuse_if(a, d == 0, TOO_DEEP, p);
    let cursor = words::due(text, b, b"{");
    Headed {
        cursor,
        what: What::Shifts,
    }
}

// `X` is read, at p: NAME;
fn labelling(text: &[u8], c: Cursor, may: bool, p: usize) -> Headed
    ensures { (tables : ℕ) (book rows given args : List ℕ) → Gave [] given → Makes text.now c (label_due may p) result.cursor (Tells text.now book rows given args tables result.what) }
{
    let a = words::refuse_if(c, !may, NOT_HERE, p);
    let b = words::name(text, a);
    let cursor = words::due(text, b, b";");
    Headed {
        cursor,
        what: What::Assigns,
    }
}

// Where the macros stand in the book, or the procedures.
pub fn part_of(known: Known, macros: bool) -> Part
    ensures { result ≡ part_of known macros }
{
    if macros {
        return Part {
            first: 0,
            count: known.macros,
        };
    }
    Part {
        first: measures::PROCEDURES,
        count: known.procs,
    }
}

// `Macro` or `Call` is read: NAME and arguments. The bodies of its kind stand where `part` says.
fn used<'a>(
    text: &'a [u8],
    c: Cursor,
    places: &'a [usize],
    lists: &'a [u16],
    names: usize,
    book: &'a [usize],
    rows: &'a [u16],
    part: Part,
    d: usize,
    given: &mut [u8],
    args: &mut [usize],
) -> Headed
    requires { Ready text.now places.now lists.now names × SomeKind text.now book.now rows.now part × (length book.now ≡ book_length) × (length rows.now ≡ rows_length) × (d ≤ depth_most) × Gave [] given.old × (length args.old ≡ signals_most * 2) }
    ensures { (k : Kind) (ds : Decls) (tables : ℕ) → OfKind text.now book.now rows.now part k ds → Makes text.now c (used_due k d (names_of text.now places.now lists.now names) ds) result.cursor (λ h. Tells text.now book.now rows.now given.new args.new tables result.what h) }
{
    let first = part.first;
    let bodies = &book[first * 2..];
    let x = words::old_name(text, c, bodies, part.count);
    let a = x.cursor;
    if a.no != 0 {
        return Headed {
            cursor: a,
            what: What::Ends,
        };
    }
    let i = first + x.number;
    let m = measures::measure_at(book, i);
    let b = words::refuse_if(a, d <= m.depth, TOO_DEEP, c.at);
    let row = &rows[i * measures::ROW..i * measures::ROW + measures::ROW];
    let g = arguments::arguments(text, b, places, lists, names, row, given, args);
    let e = g.cursor;
    let f = arguments::fitted(row, given, args);
    let cursor = words::refuse_if(e, f.is_none(), BAD_ARGUMENT, g.last);
    Headed {
        cursor,
        what: What::Uses(i, f.unwrap_or(0)),
    }
}

// The head of a Shift, or `}`; any other token is not allowed here. The token w at `at` is read, up to `behind`.
fn shift_or_end(text: &[u8], w: &[u8], at: usize, behind: Cursor, may: bool, d: usize) -> Headed
    ensures { (tables : ℕ) → Plainly text.now behind (one_of (last_heads may d) (record { at = at; word = w.now })) tables result }
{
    if words::equal(w, b"Shift") {
        return shifting(text, behind, may, d, at);
    }
    let cursor = words::refuse_if(behind, !words::equal(w, b"}"), NOT_HERE, at);
    Headed {
        cursor,
        what: What::Ends,
    }
}

// The heads behind those of V, C, W and Loop. The token w at `at` is read, up to `behind`. `may`: may a Shift stand here?
fn further<'a>(
    declared: &'a Declared<'a>,
    w: &'a [u8],
    at: usize,
    behind: Cursor,
    may: bool,
    d: usize,
    given: &mut [u8],
    args: &mut [usize],
) -> Headed
    requires { DescribingSome declared.now × (d ≤ depth_most) × Gave [] given.old × (length args.old ≡ signals_most * 2) }
    ensures { (e : Env) → Describing declared.now e → Makes declared.now.text.now behind (one_of (others e may d) (record { at = at; word = w.now })) result.cursor (λ h. Tells declared.now.text.now declared.now.book.now declared.now.rows.now given.new args.new declared.now.known.tables result.what h) }
{
    let macros = words::equal(w, b"Macro");
    if macros | words::equal(w, b"Call") {
        let names = declared.known.names;
        let part = part_of(declared.known, macros);
        return used(
            declared.text,
            behind,
            declared.places,
            declared.lists,
            names,
            declared.book,
            declared.rows,
            part,
            d,
            given,
            args,
        );
    }
    if words::equal(w, b"X") {
        return labelling(declared.text, behind, declared.known.pattern, at);
    }
    shift_or_end(declared.text, w, at, behind, may, d)
}

// One statement's head. `own`: it stands directly in a macro or procedure; d: how many levels of bodies may stand in this one; `seen`: a Shift came before.
pub fn head<'a>(
    declared: &'a Declared<'a>,
    c: Cursor,
    own: bool,
    d: usize,
    seen: bool,
    given: &mut [u8],
    args: &mut [usize],
) -> Headed
    requires { DescribingSome declared.now × (d ≤ depth_most) × Gave [] given.old × (length args.old ≡ signals_most * 2) }
    ensures { (length given.new ≡ signals_most) × (length args.new ≡ signals_most * 2) × ((e : Env) → Describing declared.now e → Makes declared.now.text.now c (head_due e own d seen) result.cursor (λ h. Tells declared.now.text.now declared.now.book.now declared.now.rows.now given.new args.new declared.now.known.tables result.what h)) }
{
    let at = c.at;
    let w = words::bytes_of(declared.text, at, c.end);
    let behind = words::step(declared.text, c);
    if words::equal(w, b"V") {
        let cursor = assigns::assigns(
            declared.text,
            behind,
            declared.places,
            declared.lists,
            declared.known.names,
            own,
            given,
        );
        return Headed {
            cursor,
            what: What::Vector(at),
        };
    }
    if words::equal(w, b"C") {
        let cursor = assigns::assigns(
            declared.text,
            behind,
            declared.places,
            declared.lists,
            declared.known.names,
            false,
            given,
        );
        return Headed {
            cursor,
            what: What::Assigns,
        };
    }
    if words::equal(w, b"W") {
        return chosen(
            declared.text,
            behind,
            declared.tplaces,
            declared.known.tables,
        );
    }
    if words::equal(w, b"Loop") {
        return looping(declared.text, behind, d, at);
    }
    further(declared, w, at, behind, own & !seen, d, given, args)
}
