// Sums of bodies, a row of bytes each: what a body asks of the state in which it begins, so that no cycle of it fails, and what it leaves.
#![tactic(auto)]

ghost use Rattle.std.specs.Prelude.{◌≡◌, true, false, not, ◌||◌, ◌&&◌, eqb, List, ℕ, ◌+◌, ◌*◌, ◌<◌, ◌≤◌, length, get_or, IfSome};
ghost use Rattle.std.proofs.Math.Option.{none, some};
ghost use Rattle.meaning.specs.Bounds.{signals_most, tables_most};
ghost use Rattle.meaning.specs.Timing.{Tables};
ghost use Rattle.meaning.specs.Meaning.{has_wave, table_at};
ghost use Rattle.meaning.specs.Lists.{has};
ghost use Rattle.meaning.specs.Run.{State};
ghost use Rattle.meaning.specs.Body.{Assigns, Args, mark, arg_of};
ghost use Rattle.timing.specs.Marks.{table_size};
ghost use Rattle.measures.specs.Uses.{Given};
ghost use Rattle.arguments.specs.Supplied.{Supplied, DataAt};
ghost use Rattle.sums.specs.Parts.{Nothing, Assigned, Chosen, Shows, Cycled, InPlace, Called, Alone, last_of, behind};
ghost use Rattle.pins.specs.Shown.{table_of};
ghost use Rattle.sums.specs.Sums.{before, ok_at, or_table};
ghost use Rattle.tallies.specs.Rows.{slots, row_size, byte_at, flag_at, flag_in, shown_of, sum_at, Only, Stored, More, Marked, Inherits, Needed, Tabled, Asked, ShownWhere, FedWhere, Passed, OnSignal, Retabled, is_summed, is_shifted, Grants, Holds, FitsWhere, FedFits, OnPin, Suits, bytes, SeenWord, ShownFed, FitsFed};

use measures::MARK;
use timing::CHARS;

const BYTES: usize = 256;
// The text's tables, and the one before.
const SLOTS: usize = timing::TABLES + 1;

const GIVEN: usize = sets::MOST * SLOTS;

const PINS: usize = GIVEN * 2;

const FINE: usize = PINS + sets::MOST;

const BAD: usize = FINE + timing::TABLES;

const NEEDS: usize = BAD + 1;

const TABLE: usize = BAD + 2;

pub const ROW: usize = BAD + 3;

// What is known of a body by its mark: its sum; its sum where its Shift plays at all.
pub const SUMMED: u8 = 1;

pub const SHIFTED: u8 = 2;

// Is it known of a body with that mark what it asks, with its Shift played t times?
pub fn usable(mark: u8, t: usize) -> bool
    ensures { result ≡ (eqb mark is_summed || (eqb mark is_shifted && not (eqb t 0))) }
{
    (mark == SUMMED) | ((mark == SHIFTED) & (t != 0))
}

// ---- a byte of a row: a row goes by its number in the buffer of all, since one is read while another is written

fn byte(sums: &[u8], r: usize, p: usize) -> u8
    requires { (r * row_size + row_size ≤ length sums.now) × (p < row_size) }
    ensures { result ≡ byte_at sums.now r p }
{
    sums[r * ROW + p]
}

fn store(sums: &mut [u8], r: usize, p: usize, b: u8)
    requires { (r * row_size + row_size ≤ length sums.old) × (p < row_size) }
    ensures { Stored r p b sums.old sums.new }
{
    sums[r * ROW + p] = b;
}

// Is any of these slots marked? No branch for each, so that they are looked at together.
fn any_marked(slots: &[u8]) -> bool
    ensures { result ≡ false → (k : ℕ) → k < length slots.now → get_or slots.now k 0 ≡ 0 }
{
    let mut any = false;
    for &b in slots {
        any |= b != 0;
    }
    any
}

// ---- one row

// Nothing was played.
pub fn clear(sums: &mut [u8], r: usize)
    requires { r * row_size + row_size ≤ length sums.old }
    ensures { Only r sums.old sums.new × ((n : ℕ) → Nothing n (sum_at sums.new r)) }
{
    let row = &mut sums[r * ROW..r * ROW + ROW];
    row.fill(0);
    row[FINE..FINE + timing::TABLES].fill(1);
    row[TABLE] = timing::TABLES as u8;
}

// Assignments: each signal has its character, or the next of its argument.
pub fn assign(sums: &mut [u8], r: usize, given: &[u8])
    requires { (r * row_size + row_size ≤ length sums.old) × (length given.now ≡ signals_most) }
    ensures { Only r sums.old sums.new × ((n : ℕ) (a : Assigns) → Given a given.now → Assigned n a (sum_at sums.old r) (sum_at sums.new r)) }
{
    for (s, &c) in given.iter().enumerate() {
        if c != 0 {
            store(sums, r, PINS + s, c);
        }
    }
}

pub fn choose(sums: &mut [u8], r: usize, k: usize)
    requires { (r * row_size + row_size ≤ length sums.old) × (k < tables_most) }
    ensures { Only r sums.old sums.new × ((n : ℕ) → Chosen n k (sum_at sums.old r) (sum_at sums.new r)) }
{
    store(sums, r, TABLE, k as u8);
}

// A cycle of it may fail, whatever stood before.
pub fn spoil(sums: &mut [u8], r: usize)
    requires { r * row_size + row_size ≤ length sums.old }
    ensures { More r sums.old sums.new × ((sum_at sums.new r).bad ≡ true) }
{
    store(sums, r, BAD, 1);
}

pub fn is_bad(sums: &[u8], r: usize) -> bool
    requires { r * row_size + row_size ≤ length sums.now }
    ensures { result ≡ (sum_at sums.now r).bad }
{
    byte(sums, r, BAD) != 0
}

// ---- what is shown

// Has the character a waveform in the table?
fn has(waves: &[u8], k: usize, s: usize, c: u8) -> bool
    requires { (length waves.now ≡ tables_most * table_size) × (k < tables_most) × (s < signals_most) }
    ensures { (tabs : Tables) → Marked waves.now tabs → result ≡ has_wave s c (table_at tabs k) }
{
    let b = c as usize;
    if CHARS <= b {
        return false;
    }
    waves[(k * sets::MOST + s) * CHARS + b] == 1
}

// A character is shown under the table before, whichever that is.
fn show_before(sums: &mut [u8], r: usize, waves: &[u8], s: usize, x: u8)
    requires { (r * row_size + row_size ≤ length sums.old) × (length waves.now ≡ tables_most * table_size) × (s < signals_most) }
    ensures { More r sums.old sums.new × ((tabs : Tables) → Marked waves.now tabs → Inherits tabs s x (sum_at sums.new r)) }
{
    store(sums, r, NEEDS, 1);
    for k in 0..timing::TABLES {
        if !has(waves, k, s, x) {
            store(sums, r, FINE + k, 0);
        }
    }
}

// Something is shown on a signal under a table, by its slot: what stood there before, its argument, or a character, which has its waveform there or not.
fn show(sums: &mut [u8], r: usize, waves: &[u8], s: usize, x: u8, t: usize)
    requires { (r * row_size + row_size ≤ length sums.old) × (length waves.now ≡ tables_most * table_size) × (s < signals_most) × (t < slots) }
    ensures { More r sums.old sums.new × ((tabs : Tables) → Marked waves.now tabs → Shows tabs s (shown_of x) (table_of t) (sum_at sums.new r)) }
{
    if x == 0 {
        store(sums, r, s * SLOTS + t, 1);
        return;
    }
    if x == MARK {
        store(sums, r, GIVEN + (s * SLOTS + t), 1);
        return;
    }
    if timing::TABLES <= t {
        show_before(sums, r, waves, s, x);
        return;
    }
    if !has(waves, t, s, x) {
        spoil(sums, r);
    }
}

// The slot of the row's table: any byte that is no table's stands for the one before.
fn in_force(sums: &[u8], r: usize) -> usize
    requires { r * row_size + row_size ≤ length sums.now }
    ensures { (result < slots) × (table_of result ≡ (sum_at sums.now r).table) }
{
    table_behind(sums, r, timing::TABLES)
}

// The same; where it is the one before, that is asked for.
fn need_table(sums: &mut [u8], r: usize) -> usize
    requires { r * row_size + row_size ≤ length sums.old }
    ensures { More r sums.old sums.new × Needed result sums.old sums.new r }
{
    let t = in_force(sums, r);
    if t == timing::TABLES {
        store(sums, r, NEEDS, 1);
    }
    t
}

// A cycle: all that stands on the signals is shown under the table in force.
pub fn cycle(sums: &mut [u8], r: usize, waves: &[u8], signals: usize)
    requires { (r * row_size + row_size ≤ length sums.old) × (length waves.now ≡ tables_most * table_size) × (signals ≤ signals_most) }
    ensures { Only r sums.old sums.new × ((tabs : Tables) → Marked waves.now tabs → Cycled tabs signals (sum_at sums.old r) (sum_at sums.new r)) }
{
    let t = need_table(sums, r);
    for s in 0..signals {
        let x = byte(sums, r, PINS + s);
        show(sums, r, waves, s, x, t);
    }
}

// ---- what a body asks by itself, behind the row `to`

// Only those tables are fine before that are so for both.
fn narrow(sums: &mut [u8], to: usize, from: usize)
    requires { (to * row_size + row_size ≤ length sums.old) × (from * row_size + row_size ≤ length sums.old) × (from ≡ to → ⊥) }
    ensures { More to sums.old sums.new × ((k : ℕ) → (sum_at sums.new to).fine k ≡ true → (sum_at sums.old from).fine k ≡ true) }
{
    for k in 0..timing::TABLES {
        if byte(sums, from, FINE + k) == 0 {
            store(sums, to, FINE + k, 0);
        }
    }
}

// What it shows under the table before it.
fn ask_table(sums: &mut [u8], to: usize, from: usize)
    requires { (to * row_size + row_size ≤ length sums.old) × (from * row_size + row_size ≤ length sums.old) × (from ≡ to → ⊥) }
    ensures { More to sums.old sums.new × Tabled (sum_at sums.old to) (sum_at sums.old from) (sum_at sums.new to) }
{
    let t = need_table(sums, to);
    if timing::TABLES <= t {
        narrow(sums, to, from);
        return;
    }
    if byte(sums, from, FINE + t) == 0 {
        spoil(sums, to);
    }
}

fn ask_good(sums: &mut [u8], to: usize, from: usize)
    requires { (to * row_size + row_size ≤ length sums.old) × (from * row_size + row_size ≤ length sums.old) × (from ≡ to → ⊥) }
    ensures { More to sums.old sums.new × ((sum_at sums.new to).bad ≡ false → (sum_at sums.old from).bad ≡ false) }
{
    if byte(sums, from, BAD) != 0 {
        spoil(sums, to);
    }
}

fn ask(sums: &mut [u8], to: usize, from: usize)
    requires { (to * row_size + row_size ≤ length sums.old) × (from * row_size + row_size ≤ length sums.old) × (from ≡ to → ⊥) }
    ensures { More to sums.old sums.new × Asked (sum_at sums.old to) (sum_at sums.old from) (sum_at sums.new to) }
{
    ask_good(sums, to, from);
    if byte(sums, from, NEEDS) != 0 {
        ask_table(sums, to, from);
    }
}

// ---- what it shows of a signal

// Something is shown under each table whose slot the body's row marks, from a place on. Mostly none is marked, which one look tells.
fn show_tables(sums: &mut [u8], to: usize, from: usize, place: usize, waves: &[u8], s: usize, x: u8)
    requires { (to * row_size + row_size ≤ length sums.old) × (from * row_size + row_size ≤ length sums.old) × (from ≡ to → ⊥) × (place + slots ≤ row_size) × (length waves.now ≡ tables_most * table_size) × (s < signals_most) }
    ensures { More to sums.old sums.new × ((tabs : Tables) → Marked waves.now tabs → (k : ℕ) → k < tables_most → flag_at sums.old from (place + k) ≡ true → Shows tabs s (shown_of x) (some k) (sum_at sums.new to)) }
{
    let first = from * ROW + place;
    if !any_marked(&sums[first..first + timing::TABLES]) {
        return;
    }
    for t in 0..timing::TABLES {
        if byte(sums, from, place + t) != 0 {
            show(sums, to, waves, s, x, t);
        }
    }
}

// Something is shown under the table in force.
fn show_in_force(sums: &mut [u8], to: usize, waves: &[u8], s: usize, x: u8)
    requires { (to * row_size + row_size ≤ length sums.old) × (length waves.now ≡ tables_most * table_size) × (s < signals_most) }
    ensures { More to sums.old sums.new × ((tabs : Tables) → Marked waves.now tabs → Shows tabs s (shown_of x) (sum_at sums.old to).table (sum_at sums.new to)) }
{
    show(sums, to, waves, s, x, in_force(sums, to));
}

// Something is shown wherever the body shows what stood on a signal before, or its argument: `place` is where the slots of that stand in its row.
fn show_where(sums: &mut [u8], to: usize, from: usize, place: usize, waves: &[u8], s: usize, x: u8)
    requires { (to * row_size + row_size ≤ length sums.old) × (from * row_size + row_size ≤ length sums.old) × (from ≡ to → ⊥) × (place + slots ≤ row_size) × (length waves.now ≡ tables_most * table_size) × (s < signals_most) }
    ensures { More to sums.old sums.new × ((tabs : Tables) → Marked waves.now tabs → ShownWhere tabs to from place s (shown_of x) sums.old sums.new) }
{
    show_tables(sums, to, from, place, waves, s, x);
    if byte(sums, from, place + timing::TABLES) != 0 {
        show_in_force(sums, to, waves, s, x);
    }
}

// The bytes of a word of a signal's argument: each that was not seen yet is shown wherever the body shows the argument. The answer is the last one; without any, `before`.
fn feed_word(
    w: &[u8],
    seen: &mut [u8],
    sums: &mut [u8],
    to: usize,
    from: usize,
    waves: &[u8],
    s: usize,
    before: u8,
) -> u8
    requires { (length seen.old ≡ bytes) × (to * row_size + row_size ≤ length sums.old) × (from * row_size + row_size ≤ length sums.old) × (from ≡ to → ⊥) × (length waves.now ≡ tables_most * table_size) × (s < signals_most) }
    ensures { (result ≡ last_of w.now before) × More to sums.old sums.new × SeenWord w.now seen.old seen.new (ShownFed waves.now to from s sums.old sums.new) }
{
    let mut last = before;
    for &c in w {
        last = c;
        if seen[c as usize] == 0 {
            show_where(sums, to, from, GIVEN + s * SLOTS, waves, s, c);
            seen[c as usize] = 1;
        }
    }
    last
}

// A signal's argument, word by word: each character is shown, once, wherever the body shows the argument. The answer is the last one, 0 for none.
fn feed(
    text: &[u8],
    sums: &mut [u8],
    to: usize,
    from: usize,
    waves: &[u8],
    s: usize,
    place: usize,
) -> u8
    requires { (to * row_size + row_size ≤ length sums.old) × (from * row_size + row_size ≤ length sums.old) × (from ≡ to → ⊥) × (length waves.now ≡ tables_most * table_size) × (s < signals_most) }
    ensures { More to sums.old sums.new × ((cs : List ℕ) → DataAt text.now place cs → (result ≡ last_of cs 0) × ((tabs : Tables) → Marked waves.now tabs → FedWhere tabs to from s cs sums.old sums.new)) }
{
    let mut seen = [0u8; BYTES];
    let mut at = place;
    let mut last = 0;
    loop {
        let word = feeds::next_word(text, at);
        if word.end <= word.at {
            return last;
        }
        let w = words::bytes_of(text, word.at, word.end);
        last = feed_word(w, &mut seen, sums, to, from, waves, s, last);
        at = word.end;
    }
}

// The same, where the signal has one.
fn feed_signal(
    text: &[u8],
    sums: &mut [u8],
    to: usize,
    from: usize,
    waves: &[u8],
    s: usize,
    given: &[u8],
    args: &[usize],
) -> u8
    requires { (to * row_size + row_size ≤ length sums.old) × (from * row_size + row_size ≤ length sums.old) × (from ≡ to → ⊥) × (length waves.now ≡ tables_most * table_size) × (s < signals_most) × (length given.now ≡ signals_most) × (length args.now ≡ signals_most * 2) }
    ensures { More to sums.old sums.new × ((xs : Args) → Supplied text.now xs given.now args.now → (result ≡ last_of (arg_of s xs) 0) × ((tabs : Tables) → Marked waves.now tabs → FedWhere tabs to from s (arg_of s xs) sums.old sums.new)) }
{
    if given[s] == 0 {
        return 0;
    }
    feed(text, sums, to, from, waves, s, args[sets::MOST + s])
}

// ---- a body entered in place: a macro, or a Loop's

// What it leaves on a signal; `last` is its argument's last character. Without one nothing is known of `#`.
fn leave(sums: &mut [u8], to: usize, from: usize, s: usize, last: u8)
    requires { (to * row_size + row_size ≤ length sums.old) × (from * row_size + row_size ≤ length sums.old) × (from ≡ to → ⊥) × (s < signals_most) }
    ensures { Passed to s sums.old sums.new × ((cs : List ℕ) → last ≡ last_of cs 0 → has mark cs ≡ false → (sum_at sums.new to).bad ≡ false → (sum_at sums.new to).pin s ≡ behind ((sum_at sums.old to).pin s) ((sum_at sums.old from).pin s) cs) }
{
    let u = byte(sums, from, PINS + s);
    if u == 0 {
        return;
    }
    if u != MARK {
        store(sums, to, PINS + s, u);
        return;
    }
    if last == 0 {
        spoil(sums, to);
        return;
    }
    store(sums, to, PINS + s, last);
}

// As a signal sees it.
fn enter(
    text: &[u8],
    sums: &mut [u8],
    to: usize,
    from: usize,
    waves: &[u8],
    s: usize,
    given: &[u8],
    args: &[usize],
)
    requires { (to * row_size + row_size ≤ length sums.old) × (from * row_size + row_size ≤ length sums.old) × (from ≡ to → ⊥) × (length waves.now ≡ tables_most * table_size) × (s < signals_most) × (length given.now ≡ signals_most) × (length args.now ≡ signals_most * 2) }
    ensures { Passed to s sums.old sums.new × ((xs : Args) → Supplied text.now xs given.now args.now → (tabs : Tables) → Marked waves.now tabs → OnSignal tabs to from s (arg_of s xs) sums.old sums.new) }
{
    let x = byte(sums, to, PINS + s);
    show_where(sums, to, from, s * SLOTS, waves, s, x);
    let last = feed_signal(text, sums, to, from, waves, s, given, args);
    leave(sums, to, from, s, last);
}

fn retable(sums: &mut [u8], to: usize, from: usize)
    requires { (to * row_size + row_size ≤ length sums.old) × (from * row_size + row_size ≤ length sums.old) × (from ≡ to → ⊥) }
    ensures { Retabled to (sum_at sums.old from) sums.old sums.new }
{
    let k = byte(sums, from, TABLE);
    if (k as usize) < timing::TABLES {
        store(sums, to, TABLE, k);
    }
}

// What it asks is asked behind the row `to`, and what it leaves is left there.
pub fn in_place(
    text: &[u8],
    sums: &mut [u8],
    to: usize,
    from: usize,
    waves: &[u8],
    signals: usize,
    given: &[u8],
    args: &[usize],
)
    requires { (to * row_size + row_size ≤ length sums.old) × (from * row_size + row_size ≤ length sums.old) × (from ≡ to → ⊥) × (length waves.now ≡ tables_most * table_size) × (signals ≤ signals_most) × (length given.now ≡ signals_most) × (length args.now ≡ signals_most * 2) }
    ensures { Only to sums.old sums.new × ((sum_at sums.old to).bad ≡ true → (sum_at sums.new to).bad ≡ true) × ((xs : Args) → Supplied text.now xs given.now args.now → (tabs : Tables) → Marked waves.now tabs → (sum_at sums.new to).bad ≡ false → InPlace tabs signals (sum_at sums.old to) (sum_at sums.old from) (λ i. arg_of i xs) (sum_at sums.new to)) }
{
    ask(sums, to, from);
    for s in 0..signals {
        enter(text, sums, to, from, waves, s, given, args);
    }
    retable(sums, to, from);
}

// ---- a procedure

// A signal begins unassigned; where the body shows that under the table before, there must be one.
fn show_unassigned(sums: &mut [u8], to: usize, from: usize, s: usize)
    requires { (to * row_size + row_size ≤ length sums.old) × (from * row_size + row_size ≤ length sums.old) × (from ≡ to → ⊥) × (s < signals_most) }
    ensures { More to sums.old sums.new × ((sum_at sums.old from).under s none ≡ true → (sum_at sums.old to).table ≡ none → (sum_at sums.new to).needs ≡ true) }
{
    if byte(sums, from, s * SLOTS + timing::TABLES) != 0 {
        need_table(sums, to);
    }
}

// What it asks is asked behind the row `to`, and nothing else is left there.
pub fn called(
    text: &[u8],
    sums: &mut [u8],
    to: usize,
    from: usize,
    waves: &[u8],
    signals: usize,
    given: &[u8],
    args: &[usize],
)
    requires { (to * row_size + row_size ≤ length sums.old) × (from * row_size + row_size ≤ length sums.old) × (from ≡ to → ⊥) × (length waves.now ≡ tables_most * table_size) × (signals ≤ signals_most) × (length given.now ≡ signals_most) × (length args.now ≡ signals_most * 2) }
    ensures { More to sums.old sums.new × ((xs : Args) → Supplied text.now xs given.now args.now → (tabs : Tables) → Marked waves.now tabs → Called tabs signals (sum_at sums.old to) (sum_at sums.old from) (λ i. arg_of i xs) (sum_at sums.new to)) }
{
    ask(sums, to, from);
    for s in 0..signals {
        show_unassigned(sums, to, from, s);
        feed_signal(text, sums, to, from, waves, s, given, args);
    }
}

// ---- a listed pattern

// Does it ask nothing that isn't there, without a table and with every signal unassigned?
pub fn grants(sums: &[u8], r: usize, signals: usize) -> bool
    requires { (r * row_size + row_size ≤ length sums.now) × (signals ≤ signals_most) }
    ensures { result ≡ true → Alone signals (sum_at sums.now r) }
{
    if byte(sums, r, BAD) != 0 {
        return false;
    }
    if byte(sums, r, NEEDS) != 0 {
        return false;
    }
    for s in 0..signals {
        if byte(sums, r, s * SLOTS + timing::TABLES) != 0 {
            return false;
        }
    }
    true
}

// ---- what a body does to a signal, whatever its characters

// Does it show what stood there before under the table of a slot?
pub fn shows(sums: &[u8], r: usize, s: usize, t: usize) -> bool
    requires { (r * row_size + row_size ≤ length sums.now) × (s < signals_most) × (t < slots) }
    ensures { result ≡ (sum_at sums.now r).under s (table_of t) }
{
    byte(sums, r, s * SLOTS + t) != 0
}

// Does it assign it?
pub fn assigns(sums: &[u8], r: usize, s: usize) -> bool
    requires { (r * row_size + row_size ≤ length sums.now) × (s < signals_most) }
    ensures { (result ≡ true → (sum_at sums.now r).pin s ≡ before → ⊥) × (result ≡ false → (sum_at sums.now r).pin s ≡ before) }
{
    byte(sums, r, PINS + s) != 0
}

// ---- a body entered from a state: its row is lent by itself

// Can the character be shown on a signal under the table of a slot? An unassigned signal can under every table; without one nothing can.
pub fn fits(waves: &[u8], t: usize, s: usize, x: u8) -> bool
    requires { (length waves.now ≡ tables_most * table_size) × (s < signals_most) }
    ensures { (tabs : Tables) → Marked waves.now tabs → result ≡ ok_at tabs (table_of t) s x }
{
    if timing::TABLES <= t {
        return false;
    }
    if x == 0 {
        return true;
    }
    has(waves, t, s, x)
}

// Can it where the byte at a place of the row marks that slot?
fn fits_slot(row: &[u8], p: usize, waves: &[u8], t: usize, s: usize, x: u8) -> bool
    requires { (length row.now ≡ row_size) × (p < row_size) × (length waves.now ≡ tables_most * table_size) × (s < signals_most) }
    ensures { result ≡ true → (tabs : Tables) → Marked waves.now tabs → flag_in row.now p ≡ true → ok_at tabs (table_of t) s x ≡ true }
{
    if row[p] == 0 {
        return true;
    }
    fits(waves, t, s, x)
}

// Can it wherever the row shows what stood on the signal before, or its argument? `place` is where the slots of that stand. Mostly no table's is marked, which one look
// tells.
fn fits_where(row: &[u8], place: usize, waves: &[u8], s: usize, x: u8, table: usize) -> bool
    requires { (length row.now ≡ row_size) × (place + slots ≤ row_size) × (length waves.now ≡ tables_most * table_size) × (s < signals_most) }
    ensures { result ≡ true → (tabs : Tables) → Marked waves.now tabs → FitsWhere tabs place s x (table_of table) row.now }
{
    if any_marked(&row[place..place + timing::TABLES]) {
        for t in 0..timing::TABLES {
            if !fits_slot(row, place + t, waves, t, s, x) {
                return false;
            }
        }
    }
    fits_slot(row, place + timing::TABLES, waves, table, s, x)
}

// So each byte of a word of an argument that was not seen yet? Then the last one is the pin, without any `before`.
fn fits_word(
    word: &[u8],
    seen: &mut [u8],
    row: &[u8],
    waves: &[u8],
    s: usize,
    before: u8,
    table: usize,
) -> Option<u8>
    requires { (length seen.old ≡ bytes) × (length row.now ≡ row_size) × (length waves.now ≡ tables_most * table_size) × (s < signals_most) }
    ensures { IfSome result (λ pin. (pin ≡ last_of word.now before) × SeenWord word.now seen.old seen.new (FitsFed waves.now s (table_of table) row.now)) }
{
    let mut last = before;
    for &c in word {
        last = c;
        if seen[c as usize] == 0 {
            if !fits_where(row, GIVEN + s * SLOTS, waves, s, c, table) {
                return None;
            }
            seen[c as usize] = 1;
        }
    }
    Some(last)
}

// So each character of an argument, word by word? Then the last of them is the pin, 0 for none. Each is looked at once.
fn fed_fits(
    text: &[u8],
    row: &[u8],
    waves: &[u8],
    s: usize,
    place: usize,
    table: usize,
) -> Option<u8>
    requires { (length row.now ≡ row_size) × (length waves.now ≡ tables_most * table_size) × (s < signals_most) }
    ensures { IfSome result (λ pin. (cs : List ℕ) → DataAt text.now place cs → (pin ≡ last_of cs 0) × ((tabs : Tables) → Marked waves.now tabs → FedFits tabs s cs (table_of table) row.now)) }
{
    let mut seen = [0u8; BYTES];
    let mut at = place;
    let mut last = 0;
    loop {
        let word = feeds::next_word(text, at);
        if word.end <= word.at {
            return Some(last);
        }
        let w = words::bytes_of(text, word.at, word.end);
        last = fits_word(w, &mut seen, row, waves, s, last, table)?;
        at = word.end;
    }
}

// The same, where the signal has one.
fn signal_fits(
    text: &[u8],
    row: &[u8],
    waves: &[u8],
    s: usize,
    given: &[u8],
    args: &[usize],
    table: usize,
) -> Option<u8>
    requires { (length row.now ≡ row_size) × (length waves.now ≡ tables_most * table_size) × (s < signals_most) × (length given.now ≡ signals_most) × (length args.now ≡ signals_most * 2) }
    ensures { IfSome result (λ pin. (xs : Args) → Supplied text.now xs given.now args.now → (pin ≡ last_of (arg_of s xs) 0) × ((tabs : Tables) → Marked waves.now tabs → FedFits tabs s (arg_of s xs) (table_of table) row.now)) }
{
    if given[s] == 0 {
        return Some(0);
    }
    fed_fits(text, row, waves, s, args[sets::MOST + s], table)
}

// A signal with the character x before, if that and its argument can be shown wherever the row shows them: the pin that the row leaves on it.
fn on_signal(
    text: &[u8],
    row: &[u8],
    waves: &[u8],
    s: usize,
    x: u8,
    given: &[u8],
    args: &[usize],
    table: usize,
) -> Option<u8>
    requires { (length row.now ≡ row_size) × (length waves.now ≡ tables_most * table_size) × (s < signals_most) × (length given.now ≡ signals_most) × (length args.now ≡ signals_most * 2) }
    ensures { IfSome result (λ pin. (xs : Args) → Supplied text.now xs given.now args.now → OnPin waves.now s x (arg_of s xs) (table_of table) row.now pin) }
{
    if !fits_where(row, s * SLOTS, waves, s, x, table) {
        return None;
    }
    let last = signal_fits(text, row, waves, s, given, args, table)?;
    let u = row[PINS + s];
    if u == 0 {
        return Some(x);
    }
    if u == MARK {
        return Some(last);
    }
    Some(u)
}

// Is the table in force one that the row asks for?
fn suits(row: &[u8], table: usize) -> bool
    requires { length row.now ≡ row_size }
    ensures { result ≡ true → Suits row.now (table_of table) }
{
    if row[BAD] != 0 {
        return false;
    }
    if row[NEEDS] == 0 {
        return true;
    }
    if timing::TABLES <= table {
        return false;
    }
    row[FINE + table] != 0
}

// Does the state grant all that the row asks: these pins, the table, these arguments? Then `left` are the pins that it leaves.
pub fn asks(
    text: &[u8],
    sums: &[u8],
    r: usize,
    waves: &[u8],
    signals: usize,
    given: &[u8],
    args: &[usize],
    table: usize,
    pins: &[u8],
    left: &mut [u8],
) -> bool
    requires { (r * row_size + row_size ≤ length sums.now) × (length waves.now ≡ tables_most * table_size) × (signals ≤ signals_most) × (length given.now ≡ signals_most) × (length args.now ≡ signals_most * 2) × (signals_most ≤ length pins.now) × (length left.old ≡ signals_most) }
    ensures { (length left.new ≡ signals_most) × (result ≡ true → (tabs : Tables) (s : State) → Marked waves.now tabs → Holds text.now pins.now given.now args.now signals table s → Grants tabs signals (sum_at sums.now r) s left.new) }
{
    let row = &sums[r * ROW..r * ROW + ROW];
    if !suits(row, table) {
        return false;
    }
    for s in 0..signals {
        let Some(pin) = on_signal(text, row, waves, s, pins[s], given, args, table) else {
            return false;
        };
        left[s] = pin;
    }
    true
}

// The table in force behind the row, where `table` was before.
pub fn table_behind(sums: &[u8], r: usize, table: usize) -> usize
    requires { r * row_size + row_size ≤ length sums.now }
    ensures { (table_of result ≡ or_table (sum_at sums.now r).table (table_of table)) × (table < slots → result < slots) }
{
    let k = byte(sums, r, TABLE) as usize;
    if k < timing::TABLES {
        return k;
    }
    table
}
