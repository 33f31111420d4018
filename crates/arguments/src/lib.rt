// Arguments of a used body: `;`, or `{ NAME = DATA; .. }`, held against the uses of `#` in it.
#![tactic(auto)]

ghost use Rattle.std.specs.Prelude.{◌≡◌, true, ◌&&◌, List, [], ◌++◌, ℕ, ◌+◌, ◌*◌, ◌≤◌, ◌<◌, length, get_or};
ghost use Rattle.meaning.specs.Bounds.{signals_most};
ghost use Rattle.meaning.specs.Lists.{has, inside};
ghost use Rattle.meaning.specs.Body.{Args, Body, outside, shifting, arg_of};
ghost use Rattle.meaning.specs.Data.{is_one, argument as argument_due, arguments as arguments_due};
ghost use Rattle.signals.specs.Names.{names_most, row_length as list_length, list_at, names_of};
ghost use Rattle.sets.proofs.Tidy.{TidyBelow};
ghost use Rattle.timing.specs.Makes.{Makes};
ghost use Rattle.assigns.specs.Given.{Ready, Gave};
ghost use Rattle.measures.specs.Uses.{row_length, Uses};
ghost use Rattle.arguments.specs.Supplied.{Supplied, UsedRow, Fits, TurnsBy, block_size, Idle, BlockFits, fits_at};

use data::BAD_ARGUMENT;
use words::{BAD_DATA, Cursor};

// The most characters of an argument.
const ARGUMENT_MOST: usize = 4_096;

// So many signals are looked at together.
const BLOCK: usize = 16;

// The cursor behind the arguments, and where their last token stands.
#[derive(Clone, Copy)]
pub struct Closed {
    pub cursor: Cursor,
    pub last: usize,
}

// Has signal s a `#` in the body of this row?
fn needed(row: &[u16], s: usize) -> bool
    requires { (length row.now ≡ row_length) × (s < signals_most) }
    ensures { (b : Body) → Uses b row.now → result ≡ has s (outside b ++ shifting b) }
{
    (row[s] != 0) | (row[sets::MOST + s] != 0)
}

// Is the name of number i one signal, with a `#` in the body?
fn suits(lists: &[u16], i: usize, row: &[u16]) -> bool
    requires { (length lists.now ≡ names_most * list_length) × (i < names_most) × TidyBelow signals_most (list_at lists.now i) × (length row.now ≡ row_length) }
    ensures { (b : Body) → Uses b row.now → result ≡ (is_one (list_at lists.now i) && inside (list_at lists.now i) (outside b ++ shifting b)) }
{
    let signals = assigns::signals_of(lists, i);
    if signals.len() != 1 {
        return false;
    }
    needed(row, signals[0] as usize)
}

// NAME = DATA; behind other arguments.
fn argument<'a>(
    text: &'a [u8],
    c: Cursor,
    places: &'a [usize],
    lists: &'a [u16],
    names: usize,
    row: &'a [u16],
    given: &mut [u8],
    args: &mut [usize],
) -> Cursor
    requires { Ready text.now places.now lists.now names × UsedRow row.now × (length given.old ≡ signals_most) × (length args.old ≡ signals_most * 2) }
    ensures { (b : Body) (xs : Args) → Uses b row.now → Supplied text.now xs given.old args.old → Makes text.now c (argument_due (names_of text.now places.now lists.now names) b xs) result (λ ys. Supplied text.now ys given.new args.new) }
{
    let x = signals::old_name(text, c, places, names);
    let a = x.cursor;
    let i = x.number;
    if a.no != 0 {
        return a;
    }
    let b = words::refuse_if(a, assigns::met(lists, i, given), BAD_DATA, c.at);
    let d = words::refuse_if(b, !suits(lists, i, row), BAD_ARGUMENT, c.at);
    if d.no != 0 {
        return d;
    }
    let s = lists[i * signals::ROW + 1] as usize;
    let e = words::due(text, d, b"=");
    let mut chars = [0u8; ARGUMENT_MOST];
    let f = data::data(text, e, false, &mut chars);
    let g = f.cursor;
    let r = words::refuse_if(g, ARGUMENT_MOST < f.n, BAD_DATA, f.last);
    if r.no != 0 {
        return r;
    }
    given[s] = 1;
    args[s] = f.n;
    args[sets::MOST + s] = d.end;
    r
}

// What follows a used name.
pub fn arguments<'a>(
    text: &'a [u8],
    c: Cursor,
    places: &'a [usize],
    lists: &'a [u16],
    names: usize,
    row: &'a [u16],
    given: &mut [u8],
    args: &mut [usize],
) -> Closed
    requires { Ready text.now places.now lists.now names × UsedRow row.now × Gave [] given.old × (length args.old ≡ signals_most * 2) }
    ensures { (b : Body) → Uses b row.now → Makes text.now c (arguments_due (names_of text.now places.now lists.now names) b) result.cursor (λ x. (x.1 ≡ result.last) × Supplied text.now x.0 given.new args.new) }
{
    if words::is(text, c, b";") {
        let cursor = words::step(text, c);
        return Closed { cursor, last: c.at };
    }
    if words::is(text, c, b"{") {
        let mut cursor = words::step(text, c);
        while words::until(text, cursor, b"}") {
            cursor = argument(text, cursor, places, lists, names, row, given, args);
        }
        let last = cursor.at;
        let end = words::due(text, cursor, b"}");
        return Closed { cursor: end, last };
    }
    let cursor = words::expect(text, c, false);
    Closed { cursor, last: 0 }
}

// How many characters signal s has: none without an argument.
fn supply(given: &[u8], args: &[usize], s: usize) -> usize
    requires { (length given.now ≡ signals_most) × (length args.now ≡ signals_most * 2) × (s < signals_most) }
    ensures { (text : List ℕ) (xs : Args) → Supplied text xs given.now args.now → result ≡ length (arg_of s xs) }
{
    if given[s] != 0 { args[s] } else { 0 }
}

// Has no signal a `#` in the Shift? No turn leaves the loop early, so that many signals are looked at together.
fn unshifted(row: &[u16]) -> bool
    requires { length row.now ≡ row_length }
    ensures { result ≡ true → (k : ℕ) → k < signals_most → get_or row.now (signals_most + k) 0 ≡ 0 }
{
    let marks = &row[sets::MOST..];
    let mut shifted = false;
    for mark in marks {
        shifted |= *mark != 0;
    }
    !shifted
}

// T: the characters that the lowest signal with `#` in the Shift has beyond its other uses.
fn shift_turns(row: &[u16], given: &[u8], args: &[usize]) -> usize
    requires { (length row.now ≡ row_length) × (length given.now ≡ signals_most) × (length args.now ≡ signals_most * 2) }
    ensures { (text : List ℕ) (b : Body) (xs : Args) → Uses b row.now → Supplied text xs given.now args.now → TurnsBy b xs result }
{
    for s in 0..sets::MOST {
        if row[sets::MOST + s] != 0 {
            let n = supply(given, args, s);
            return n.saturating_sub(row[s] as usize);
        }
    }
    0
}

// T, which is 0 where no signal has a `#` in the Shift.
fn turns(row: &[u16], given: &[u8], args: &[usize]) -> usize
    requires { (length row.now ≡ row_length) × (length given.now ≡ signals_most) × (length args.now ≡ signals_most * 2) }
    ensures { (text : List ℕ) (b : Body) (xs : Args) → Uses b row.now → Supplied text xs given.now args.now → TurnsBy b xs result }
{
    if unshifted(row) {
        return 0;
    }
    shift_turns(row, given, args)
}

// Has signal s the characters that it needs, where the Shift plays t times?
fn fitting(row: &[u16], given: &[u8], args: &[usize], s: usize, t: usize) -> bool
    requires { (length row.now ≡ row_length) × (length given.now ≡ signals_most) × (length args.now ≡ signals_most * 2) × (s < signals_most) }
    ensures { (text : List ℕ) (b : Body) (xs : Args) → Uses b row.now → Supplied text xs given.now args.now → result ≡ fits_at b xs t s }
{
    let u = row[s] as usize;
    let shifted = row[sets::MOST + s] != 0;
    if given[s] == 0 {
        return (u == 0) & !shifted;
    }
    let n = args[s];
    if !shifted {
        return n == u;
    }
    if n < u {
        return false;
    }
    n - u == t
}

// Have the signals of a block neither `#` nor an argument? They are looked at together, as above.
fn idle(row: &[u16], given: &[u8], from: usize) -> bool
    requires { (length row.now ≡ row_length) × (length given.now ≡ signals_most) × (from + block_size ≤ signals_most) }
    ensures { result ≡ true → Idle row.now given.now from block_size }
{
    let mut busy = false;
    for k in 0..BLOCK {
        let s = from + k;
        busy |= (row[s] != 0) | (row[sets::MOST + s] != 0) | (given[s] != 0);
    }
    !busy
}

// Has each signal of a block the characters that it needs, where the Shift plays t times?
fn block_fits(row: &[u16], given: &[u8], args: &[usize], from: usize, t: usize) -> bool
    requires { (length row.now ≡ row_length) × (length given.now ≡ signals_most) × (length args.now ≡ signals_most * 2) × (from + block_size ≤ signals_most) }
    ensures { (text : List ℕ) (b : Body) (xs : Args) → Uses b row.now → Supplied text xs given.now args.now → BlockFits b xs t from result }
{
    if idle(row, given, from) {
        return true;
    }
    for k in 0..BLOCK {
        if !fitting(row, given, args, from + k, t) {
            return false;
        }
    }
    true
}

// The arguments against the body's uses: how often does the Shift play, if they fit?
pub fn fitted(row: &[u16], given: &[u8], args: &[usize]) -> Option<usize>
    requires { (length row.now ≡ row_length) × (length given.now ≡ signals_most) × (length args.now ≡ signals_most * 2) }
    ensures { (text : List ℕ) (b : Body) (xs : Args) → Uses b row.now → Supplied text xs given.now args.now → Fits b xs result }
{
    let t = turns(row, given, args);
    for block in 0..sets::MOST / BLOCK {
        if !block_fits(row, given, args, block * BLOCK, t) {
            return None;
        }
    }
    Some(t)
}
