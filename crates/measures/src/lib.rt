// What is kept of a body: its depth, its size, its cycles, and its uses of `#`. Each number is held up to one above its bound, so that nothing wraps.
#![tactic(auto)]

ghost use Rattle.std.specs.Prelude.{◌≡◌, not, ℕ, ◌+◌, ◌*◌, ◌<◌, min, length};
ghost use Rattle.meaning.specs.Bounds.{signals_most};
ghost use Rattle.meaning.specs.Lists.{empty};
ghost use Rattle.meaning.specs.Body.{Assigns, Args, Kind, Setting, looped as looped_way, shifted, entered, Body, done, vec, set', inner, marked};
ghost use Rattle.measures.specs.Measures.{Measures, joined, Around};
ghost use Rattle.measures.specs.Uses.{row_length, Uses, Given};
ghost use Rattle.measures.specs.Book.{entries, book_length, rows_length, bodies as bodies_in, start_at, measure_at, Kept, KeptRow};

use words::Cursor;

// Bounds: bodies in bodies, the statements and the cycles of a run.
pub const DEPTH: usize = 8;

pub const SIZE_MOST: usize = 65_536;

pub const CYCLES_MOST: usize = 1_099_511_627_776;

// One above them, and above the characters of an argument.
const DEPTH_CAP: usize = DEPTH + 1;

const SIZE_CAP: usize = SIZE_MOST + 1;

const CYCLES_CAP: usize = CYCLES_MOST + 1;

const USES_CAP: u16 = 4_097;

// `#`, in place of a character.
pub const MARK: u8 = 35;

// The book: entries of macros, procedures, the burst and patterns.
pub const PROCEDURES: usize = 32;

pub const BODIES: usize = 64;

pub const PATTERNS: usize = 65;

pub const ENTRIES: usize = 81;

pub const BOOK: usize = 567;

pub const ROW: usize = sets::MOST * 2;

pub const ROWS: usize = BODIES * ROW;

const NUMBERS: usize = 5;

// A body's depth, size and cycles; `shifts` is what a turn of its Shift adds to them.
#[derive(Clone, Copy)]
pub struct Measure {
    pub depth: usize,
    pub size: usize,
    pub cycles: usize,
    pub shifts: usize,
}

// ---- capped sums and products

fn sum(a: usize, b: usize, cap: usize) -> usize
    ensures { result ≡ min cap (a + b) }
{
    a.saturating_add(b).min(cap)
}

fn product(a: usize, b: usize, cap: usize) -> usize
    ensures { result ≡ min cap (a * b) }
{
    a.saturating_mul(b).min(cap)
}

// ---- the measure of statements

// No statement.
pub fn nothing() -> Measure
    ensures { Measures done result }
{
    Measure {
        depth: 0,
        size: 0,
        cycles: 0,
        shifts: 0,
    }
}

// V.
pub fn vector() -> Measure
    ensures { (p : ℕ) (a : Assigns) → Measures (vec p a done) result }
{
    Measure {
        depth: 0,
        size: 1,
        cycles: 1,
        shifts: 0,
    }
}

// C or W.
pub fn setting() -> Measure
    ensures { (x : Setting) → Measures (set' x done) result }
{
    Measure {
        depth: 0,
        size: 1,
        cycles: 0,
        shifts: 0,
    }
}

// Shift, which holds one V.
pub fn shift() -> Measure
    ensures { (p : ℕ) (a : Assigns) → Measures (inner shifted (vec p a done) done) result }
{
    Measure {
        depth: 1,
        size: 2,
        cycles: 0,
        shifts: 1,
    }
}

// A statement with a body in it: one level and one statement more.
fn around(x: Measure, cycles: usize, shifts: usize) -> Measure
    ensures { Around x cycles shifts result }
{
    Measure {
        depth: sum(x.depth, 1, DEPTH_CAP),
        size: sum(x.size, 1, SIZE_CAP),
        cycles,
        shifts,
    }
}

// Loop N over a body.
pub fn looped(n: usize, x: Measure) -> Measure
    ensures { (b : Body) → Measures b x → Measures (inner (looped_way n) b done) result }
{
    let cycles = product(n, x.cycles, CYCLES_CAP);
    let shifts = product(n, x.shifts, CYCLES_CAP);
    around(x, cycles, shifts)
}

// A body entered once, its Shift played t times.
pub fn used(t: usize, x: Measure) -> Measure
    ensures { (k : Kind) (a : Args) (b : Body) → Measures b x → Measures (inner (entered k t a) b done) result }
{
    let shifted = product(t, x.shifts, CYCLES_CAP);
    around(x, sum(x.cycles, shifted, CYCLES_CAP), 0)
}

// Statements, and others behind them.
pub fn plus(x: Measure, y: Measure) -> Measure
    ensures { (a b : Body) → Measures a x → Measures b y → Measures (joined a b) result }
{
    Measure {
        depth: x.depth.max(y.depth),
        size: sum(x.size, y.size, SIZE_CAP),
        cycles: sum(x.cycles, y.cycles, CYCLES_CAP),
        shifts: sum(x.shifts, y.shifts, CYCLES_CAP),
    }
}

// ---- uses of `#`

// Does `#` stand there?
pub fn has_mark(given: &[u8]) -> bool
    ensures { (a : Assigns) → Given a given.now → result ≡ not (empty (marked a)) }
{
    words::holds(given, MARK)
}

// The uses of a V outside the Shift. By number: characters and counts are walked at one index.
pub fn count_uses(given: &[u8], row: &mut [u16])
    requires { (length given.now ≡ signals_most) × (length row.old ≡ row_length) }
    ensures { (p : ℕ) (a : Assigns) (b : Body) → Given a given.now → Uses b row.old → Uses (joined b (vec p a done)) row.new }
{
    let n = words::zeros_from(given);
    for s in 0..n {
        if given[s] == MARK && row[s] < USES_CAP {
            row[s] += 1;
        }
    }
}

// Those of the Shift's V.
pub fn mark_uses(given: &[u8], row: &mut [u16])
    requires { (length given.now ≡ signals_most) × (length row.old ≡ row_length) }
    ensures { (p : ℕ) (a : Assigns) (b : Body) → Given a given.now → Uses b row.old → Uses (joined b (inner shifted (vec p a done) done)) row.new }
{
    let n = words::zeros_from(given);
    for s in 0..n {
        if given[s] == MARK {
            row[sets::MOST + s] = 1;
        }
    }
}

// ---- the book

// Where the body of number i begins.
pub fn start_at(book: &[usize], i: usize) -> usize
    ensures { i < entries → result ≡ start_at book.now i }
{
    if i < ENTRIES {
        words::number_at(book, ENTRIES * 2 + i * NUMBERS)
    } else {
        0
    }
}

pub fn measure_at(book: &[usize], i: usize) -> Measure
    requires { (length book.now ≡ book_length) × (i < entries) }
    ensures { result ≡ measure_at book.now i }
{
    let at = ENTRIES * 2 + i * NUMBERS;
    Measure {
        depth: book[at + 1],
        size: book[at + 2],
        cycles: book[at + 3],
        shifts: book[at + 4],
    }
}

// The body of number i: its name is the token ahead of c, it begins at `start`, and x is its measure.
pub fn keep(book: &mut [usize], i: usize, c: Cursor, start: usize, x: Measure)
    requires { (length book.old ≡ book_length) × (i < entries) }
    ensures { Kept book.old i c start x book.new }
{
    book[i * 2] = c.at;
    book[i * 2 + 1] = c.end;
    let at = ENTRIES * 2 + i * NUMBERS;
    book[at] = start;
    book[at + 1] = x.depth;
    book[at + 2] = x.size;
    book[at + 3] = x.cycles;
    book[at + 4] = x.shifts;
}

// Its row.
pub fn keep_row(rows: &mut [u16], i: usize, row: &[u16])
    requires { (length rows.old ≡ rows_length) × (length row.now ≡ row_length) × (i < bodies_in) }
    ensures { KeptRow rows.old i row.now rows.new }
{
    let at = i * ROW;
    rows[at..at + ROW].copy_from_slice(row);
}
