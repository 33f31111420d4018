// Is it plain that no cycle of a text's run fails? It is from the marks of all that the text assigns, where every table has a waveform for each and every listed
// pattern begins with a table. Else every body that the run uses is summed up once, where the text holds it: what it asks of the state in which it begins. Where no
// listed pattern asks for anything that isn't there, no cycle fails. The sums may ask for too much; then nothing is said, and the run is played.
#![tactic(auto)]

ghost use Rattle.std.specs.Prelude.{◌≡◌, true, false, ℕ, ◌+◌, ◌*◌, ◌≤◌, List, length};
ghost use Rattle.std.proofs.Math.Option.{none};
ghost use Rattle.words.specs.Cursor.{alive, stream};
ghost use Rattle.meaning.specs.Bounds.{signals_most, tables_most, patterns_most};
ghost use Rattle.meaning.specs.Timing.{Tables};
ghost use Rattle.meaning.specs.Body.{Assigns, Body};
ghost use Rattle.meaning.specs.Run.{cycles_of};
ghost use Rattle.meaning.specs.Meaning.{first_failing};
ghost use Rattle.meaning.specs.Document.{Read};
ghost use Rattle.held.specs.Held.{All};
ghost use Rattle.texts.specs.declared.Parts.{Parts};
ghost use Rattle.plays.specs.Plays.{ground_of, Summed};
ghost use Rattle.plays.specs.Run.{Runs, RunsOn, SomeRunOn};
ghost use Rattle.timing.specs.Marks.{table_size};
ghost use Rattle.measures.specs.Uses.{Given};
ghost use Rattle.measures.specs.Book.{book_length};
ghost use Rattle.noted.specs.Noted.{Noted};
ghost use Rattle.sums.specs.Sums.{Sum};
ghost use Rattle.sums.specs.Parts.{Assigned, Cycled, Looped as LoopedSum};
ghost use Rattle.tallies.specs.Rows.{row_size, sum_at, Only, Marked};
ghost use Rattle.grants.specs.Grants.{Unknown, Sized, Stood, Promised, Stepped, LoopStood, Looped, ShiftStood, Shifted, UseStood, Used, BodyStood, Bodied, SomePattern, Patterned, ListedFirst, Marking};

use heads::Known;
use measures::DEPTH;
use plays::Ground;
use words::Cursor;

// Rows of sums: one for each macro and procedure, that of a listed pattern, and one for each Loop around a place.
const PATTERN: usize = measures::BODIES;

const LOOPS: usize = PATTERN + 1;

pub const SUMS: usize = (LOOPS + DEPTH) * tallies::ROW;

// What is known of a body: nothing (0), its sum (see tallies), or that it is being summed up.
const BEGUN: u8 = 3;

// The cursor behind what was summed up; was it the `}`, was there a Shift, and were there two?
#[derive(Clone, Copy)]
pub struct Tallied {
    pub cursor: Cursor,
    pub ends: bool,
    pub shifts: bool,
    pub twice: bool,
}

// ---- one statement

// V { .. }: its assignments, and a cycle.
fn vector(given: &[u8], waves: &[u8], signals: usize, r: usize, sums: &mut [u8])
    requires { (r * row_size + row_size ≤ length sums.old) × (length given.now ≡ signals_most) × (length waves.now ≡ tables_most * table_size) × (signals ≤ signals_most) }
    ensures { Only r sums.old sums.new × ((tabs : Tables) (a : Assigns) → Marked waves.now tabs → Given a given.now → (A : Sum) × Assigned signals a (sum_at sums.old r) A × Cycled tabs signals A (sum_at sums.new r)) }
{
    tallies::assign(sums, r, given);
    tallies::cycle(sums, r, waves, signals);
}

// Shift { V { .. } }: as its V, where it plays at all.
fn shift<'a>(ground: &'a Ground<'a>, c: Cursor, r: usize, sums: &mut [u8]) -> Tallied
    requires { (alive c ≡ true) × ShiftStood (ground_of ground.now) (stream ground.now.declared.text.now c) r sums.old }
    ensures { (more : ℕ) (marks : List ℕ) → Sized (ground_of ground.now) more r marks sums.old → Shifted (ground_of ground.now) (stream ground.now.declared.text.now c) more r marks sums.old sums.new result }
{
    let mut given = [0; sets::MOST];
    let mut args = [0usize; measures::ROW];
    let h = heads::head(
        &ground.declared,
        c,
        true,
        DEPTH,
        false,
        &mut given,
        &mut args,
    );
    vector(&given, ground.waves, ground.signals, r, sums);
    let behind = h.cursor;
    let cursor = words::due(ground.declared.text, behind, b"}");
    Tallied {
        cursor,
        ends: false,
        shifts: true,
        twice: false,
    }
}

// A Loop's body, summed up in a row, is entered once, or twice where there is a second turn.
fn turns(text: &[u8], waves: &[u8], signals: usize, n: usize, r: usize, row: usize, sums: &mut [u8])
    requires { (r * row_size + row_size ≤ length sums.old) × (row * row_size + row_size ≤ length sums.old) × (row ≡ r → ⊥) × (length waves.now ≡ tables_most * table_size) × (signals ≤ signals_most) × (1 ≤ n) }
    ensures { Only r sums.old sums.new × ((tabs : Tables) → Marked waves.now tabs → (sum_at sums.new r).bad ≡ false → LoopedSum tabs signals n (sum_at sums.old r) (sum_at sums.old row) (sum_at sums.new r)) }
{
    let given = [0u8; sets::MOST];
    let args = [0usize; measures::ROW];
    tallies::in_place(text, sums, r, row, waves, signals, &given, &args);
    if n < 2 {
        return;
    }
    tallies::in_place(text, sums, r, row, waves, signals, &given, &args);
}

// Loop N { .. }: its body is summed up in a row of its own, and entered.
#[cycle(body_looped_statement_tally_used)]
fn looped<'a>(
    ground: &'a Ground<'a>,
    c: Cursor,
    depth: usize,
    n: usize,
    r: usize,
    marks: &mut [u8],
    sums: &mut [u8],
) -> Tallied
    requires { (alive c ≡ true) × LoopStood (ground_of ground.now) (stream ground.now.declared.text.now c) depth n r marks.old sums.old }
    ensures { Looped (ground_of ground.now) (stream ground.now.declared.text.now c) depth n r marks.old marks.new sums.old sums.new result }
{
    let row = LOOPS + DEPTH - depth;
    tallies::clear(sums, row);
    let x = tally(ground, c, depth - 1, row, marks, sums);
    turns(
        ground.declared.text,
        ground.waves,
        ground.signals,
        n,
        r,
        row,
        sums,
    );
    let cursor = x.cursor;
    Tallied {
        cursor,
        ends: false,
        shifts: x.shifts,
        twice: false,
    }
}

// The body of number i is summed up in its row, unless that was begun before.
#[cycle(body_looped_statement_tally_used)]
fn body<'a>(ground: &'a Ground<'a>, depth: usize, i: usize, marks: &mut [u8], sums: &mut [u8])
    requires { BodyStood (ground_of ground.now) depth i marks.old sums.old }
    ensures { Bodied (ground_of ground.now) depth i marks.old marks.new sums.old sums.new }
{
    if marks[i] != 0 {
        return;
    }
    marks[i] = BEGUN;
    tallies::clear(sums, i);
    let c = words::cursor_at(
        ground.declared.text,
        measures::start_at(ground.declared.book, i),
    );
    let x = tally(ground, c, depth, i, marks, sums);
    if x.twice {
        return;
    }
    if x.shifts {
        marks[i] = tallies::SHIFTED;
        return;
    }
    marks[i] = tallies::SUMMED;
}

// Macro or Call: the body of number i, with its Shift played t times, behind the row r.
#[cycle(body_looped_statement_tally_used)]
fn used<'a>(
    ground: &'a Ground<'a>,
    depth: usize,
    i: usize,
    t: usize,
    r: usize,
    given: &[u8],
    args: &[usize],
    marks: &mut [u8],
    sums: &mut [u8],
)
    requires { UseStood (ground_of ground.now) depth i t r given.now args.now marks.old sums.old }
    ensures { Used (ground_of ground.now) depth i t r given.now args.now marks.old marks.new sums.old sums.new }
{
    body(ground, depth - 1, i, marks, sums);
    if !tallies::usable(marks[i], t) {
        tallies::spoil(sums, r);
        return;
    }
    if i < measures::PROCEDURES {
        tallies::in_place(
            ground.declared.text,
            sums,
            r,
            i,
            ground.waves,
            ground.signals,
            given,
            args,
        );
        return;
    }
    tallies::called(
        ground.declared.text,
        sums,
        r,
        i,
        ground.waves,
        ground.signals,
        given,
        args,
    );
}

// A statement without a Shift ends there.
fn behind(cursor: Cursor) -> Tallied
    ensures { result ≡ record { cursor = cursor; ends = false; shifts = false; twice = false } }
{
    Tallied {
        cursor,
        ends: false,
        shifts: false,
        twice: false,
    }
}

// The statement at the cursor, or the `}` there, behind the row r.
#[cycle(body_looped_statement_tally_used)]
fn statement<'a>(
    ground: &'a Ground<'a>,
    c: Cursor,
    depth: usize,
    r: usize,
    marks: &mut [u8],
    sums: &mut [u8],
) -> Tallied
    requires { (alive c ≡ true) × Stood (ground_of ground.now) (stream ground.now.declared.text.now c) depth r marks.old sums.old }
    ensures { Stepped (ground_of ground.now) (stream ground.now.declared.text.now c) depth r marks.old marks.new sums.old sums.new result }
{
    let mut given = [0; sets::MOST];
    let mut args = [0usize; measures::ROW];
    let h = heads::head(
        &ground.declared,
        c,
        true,
        DEPTH,
        false,
        &mut given,
        &mut args,
    );
    let cursor = h.cursor;
    let what = h.what;
    match what {
        heads::What::Ends => Tallied {
            cursor,
            ends: true,
            shifts: false,
            twice: false,
        },
        heads::What::Vector(place) => {
            vector(&given, ground.waves, ground.signals, r, sums);
            behind(cursor)
        }
        heads::What::Assigns => {
            tallies::assign(sums, r, &given);
            behind(cursor)
        }
        heads::What::Chooses(k) => {
            tallies::choose(sums, r, k);
            behind(cursor)
        }
        heads::What::Loops(n) => looped(ground, cursor, depth, n, r, marks, sums),
        heads::What::Shifts => shift(ground, cursor, r, sums),
        heads::What::Uses(i, t) => {
            used(ground, depth, i, t, r, &given, &args, marks, sums);
            behind(cursor)
        }
    }
}

// ---- statements

// Statements from the cursor on, up to their `}`, behind the row r.
#[cycle(body_looped_statement_tally_used)]
fn tally<'a>(
    ground: &'a Ground<'a>,
    c: Cursor,
    depth: usize,
    r: usize,
    marks: &mut [u8],
    sums: &mut [u8],
) -> Tallied
    requires { (alive c ≡ true) × Stood (ground_of ground.now) (stream ground.now.declared.text.now c) depth r marks.old sums.old }
    ensures { Promised (ground_of ground.now) (stream ground.now.declared.text.now c) depth r marks.old marks.new sums.old sums.new result }
{
    let mut cursor = c;
    let mut shifts = false;
    let mut twice = false;
    loop {
        let x = statement(ground, cursor, depth, r, marks, sums);
        cursor = x.cursor;
        twice = twice | x.twice | (shifts & x.shifts);
        shifts = shifts | x.shifts;
        if x.ends {
            return Tallied {
                cursor,
                ends: true,
                shifts,
                twice,
            };
        }
    }
}

// ---- the run

// Does the listed pattern of number k ask for nothing that isn't there where it begins?
fn pattern<'a>(
    ground: &'a Ground<'a>,
    list: &'a [usize],
    patterns: usize,
    k: usize,
    marks: &mut [u8],
    sums: &mut [u8],
) -> bool
    requires { SomePattern (ground_of ground.now) list.now patterns k marks.old sums.old }
    ensures { Patterned (ground_of ground.now) list.now patterns k marks.old marks.new sums.old sums.new result }
{
    let names = &ground.declared.book[measures::PATTERNS * 2..];
    let i = words::find(
        ground.declared.text,
        words::name_bytes(ground.declared.text, list, k),
        names,
        patterns,
    );
    let c = words::cursor_at(
        ground.declared.text,
        measures::start_at(ground.declared.book, measures::PATTERNS + i),
    );
    tallies::clear(sums, PATTERN);
    let x = tally(ground, c, DEPTH, PATTERN, marks, sums);
    if x.shifts {
        return false;
    }
    tallies::grants(sums, PATTERN, ground.signals)
}

// Does no listed pattern ask for anything that isn't there where it begins? Behind it the marks and sums of every body that the run uses are known.
pub fn granted<'a>(
    ground: &'a Ground<'a>,
    list: &'a [usize],
    listed: usize,
    patterns: usize,
    marks: &mut [u8],
    sums: &mut [u8],
) -> bool
    requires { SomeRunOn (ground_of ground.now) list.now listed patterns × Unknown marks.old sums.old }
    ensures { (length marks.new ≡ length marks.old) × (length sums.new ≡ length sums.old) × ((p : Parts) (d : Read) (run : Body) (h : RunsOn (ground_of ground.now) list.now listed patterns p d run) → Summed (ground_of ground.now) marks.new sums.new h.tabled.parts.env × (result ≡ true → first_failing d.tables (cycles_of (length d.signals) run) ≡ none)) }
{
    let mut all = true;
    for k in 0..listed {
        let one = pattern(ground, list, patterns, k, marks, sums);
        all &= one;
    }
    all
}

// ---- by what the text assigns at all

// Does the listed pattern of number k choose a table before all else?
fn chooses<'a>(
    text: &'a [u8],
    book: &'a [usize],
    list: &'a [usize],
    patterns: usize,
    k: usize,
) -> bool
    requires { (length book.now ≡ book_length) × (patterns ≤ patterns_most) }
    ensures { result ≡ true → ListedFirst text.now book.now list.now patterns k }
{
    let names = &book[measures::PATTERNS * 2..];
    let i = words::find(text, words::name_bytes(text, list, k), names, patterns);
    if patterns <= i {
        return false;
    }
    let c = words::cursor_at(text, measures::start_at(book, measures::PATTERNS + i));
    words::is(text, c, b"W")
}

// Is it plain from the marks alone? Every table has a waveform for each, and a table is chosen before all else; then nothing is summed up.
pub fn plain<'a>(
    text: &'a [u8],
    book: &'a [usize],
    list: &'a [usize],
    waves: &'a [u8],
    used: &'a [u8],
    known: Known,
    listed: usize,
    patterns: usize,
) -> bool
    requires { Marking book.now waves.now used.now known.tables patterns }
    ensures { result ≡ true → (places lists tplaces rows : List ℕ) (signals : ℕ) (p : Parts) (d : Read) (run : Body) → Runs text.now places lists tplaces waves.now book.now rows list.now known signals listed patterns p d run → All (λ x. Noted known.tables used.now x.1.body) d.patterns → first_failing d.tables (cycles_of (length d.signals) run) ≡ none }
{
    if !noted::fine(used, waves, known.tables) {
        return false;
    }
    for k in 0..listed {
        if !chooses(text, book, list, patterns, k) {
            return false;
        }
    }
    true
}
