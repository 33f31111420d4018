// Uses that were played before, in which no cycle failed: rows of numbers, each of one use, from a table to a table and pins. A use is a statement with a body in it: Macro,
// Call, or Loop. While a use is played it is
// tracked, for each signal, under which tables what stood there before is shown, and whether it is assigned: so a row holds for all pins that could be shown so.
#![tactic(auto)]

ghost use Rattle.std.specs.Prelude.{◌≡◌, true, false, ℕ, ◌+◌, ◌*◌, ◌%◌, ◌<◌, ◌≤◌, length, get_or, set, IfSome};
ghost use Rattle.meaning.specs.Bounds.{signals_most, depth_most};
ghost use Rattle.memos.specs.Tracks.{bit_of, is_marked, assigned_mark, marks_most, Marks, Joins, shown_marks, tracks_length, marks_from, marks_at};
ghost use Rattle.memos.specs.Memo.{row_at, memo_row, before_at, picture_size, Short, Near, Notes, Points, Traces, Pictures, pins_of, Restores, Writes, AtLevel, telling, Remembered, Finds, Brings};

use words::Cursor;

// A statement with a body in it, where it stands in the text, and how many second turns may be open in it.
#[derive(Clone, Copy)]
pub struct Use {
    pub seconds: usize,
    pub fault: usize,
    pub at: usize,
    pub end: usize,
}

// The table and the cursor behind a use.
#[derive(Clone, Copy)]
pub struct Recalled {
    pub table: usize,
    pub cursor: Cursor,
}

// Marks of a signal: those of tables, and behind them the one that it was assigned.
const ASSIGNED: usize = 8;

const MARKS: u16 = 512;

// For each level of bodies in each other and each signal, what is tracked of the use that is played there.
const LEVELS: usize = 9;

const TRACKS: usize = LEVELS * sets::MOST;

// What a row is found by, the cursor behind the use, the table before it with each signal's marks, and the table and pins behind it.
const POINTS: usize = 5;

const BEFORE: usize = POINTS + 3;

const PICTURE: usize = 1 + sets::MOST;

const BEHIND: usize = BEFORE + PICTURE;

const MEMO_ROW: usize = BEHIND + PICTURE;

// So many rows are kept. A prime: uses at regular distances have rows of their own.
pub const MEMO: usize = TRACKS + 337 * MEMO_ROW;

// Numbers below it are kept.
const KEPT: usize = 65_536;

// Tables, and none: each has a row of its own for a use.
const STARTS: usize = 9;

// Bytes of `Call` and `Loop`: a statement with a shorter word first has no body in it, and is not looked for.
const SHORTEST: usize = 4;

// ---- numbers

// Where the row of a use at this place from this table begins, in a memo of this length.
fn memo_row(long: usize, at: usize, table: usize) -> usize
    requires { tracks_length ≤ long }
    ensures { (j : ℕ) × (result ≡ row_at j) × (result ≤ long) }
{
    let rows = (long - TRACKS) / MEMO_ROW;
    if rows == 0 {
        return TRACKS;
    }
    let n = (at % KEPT) * STARTS + table % STARTS;
    TRACKS + (n % rows) * MEMO_ROW
}

// A number, as the memo keeps it.
fn short(n: usize) -> u16
    ensures { n < 65_536 → result ≡ n }
{
    (n % KEPT) as u16
}

// The byte that was kept.
fn byte_of(n: u16) -> u8
    ensures { result ≡ n % 256 }
{
    (n % 256) as u8
}

// ---- marks of a signal

fn bit_of(t: usize) -> u16
    requires { t ≤ assigned_mark }
    ensures { (result ≡ bit_of t) × (0 < result) × (result ≤ 256) }
{
    1u16 << t
}

pub fn is_marked(m: u16, t: usize) -> bool
    requires { t ≤ assigned_mark }
    ensures { result ≡ is_marked m t }
{
    (m >> t) % 2 == 1
}

// One mark more.
fn with_mark(m: u16, t: usize) -> u16
    requires { (m < marks_most) × (t ≤ assigned_mark) }
    ensures { Marks m t result }
{
    m | bit_of(t)
}

// The same if it is asked for.
pub fn marked_if(m: u16, t: usize, is: bool) -> u16
    requires { (m < marks_most) × (t ≤ assigned_mark) }
    ensures { (result < marks_most) × (is ≡ true → Marks m t result) × (is ≡ false → result ≡ m) }
{
    if is {
        return with_mark(m, t);
    }
    m
}

// The marks of a signal behind what marks it with b: once it is assigned, what stood there before is shown no more.
fn join(a: u16, b: u16) -> u16
    requires { (a < marks_most) × (b < marks_most) }
    ensures { (result < marks_most) × Joins a b result }
{
    if 256 <= a {
        return a;
    }
    a | b
}

// What a V under the table t marks on each signal that it gives nothing.
fn table_mark(t: usize) -> u16
    ensures { (result ≡ shown_marks 0 t) × (result < marks_most) }
{
    if t < ASSIGNED {
        return bit_of(t);
    }
    0
}

// On one that it gives g; 0 is nothing.
fn shown_marks(g: u8, shown: u16) -> u16
    requires { shown < marks_most }
    ensures { ((t : ℕ) → shown ≡ shown_marks 0 t → result ≡ shown_marks g t) × (result < marks_most) }
{
    if g != 0 {
        return bit_of(ASSIGNED);
    }
    shown
}

// The marks at a place.
pub fn marks(memo: &[u16], i: usize) -> u16
    requires { i < length memo.now }
    ensures { (result ≡ get_or memo.now i 0 % marks_most) × (result < marks_most) }
{
    memo[i] % MARKS
}

// ---- what is tracked at a level

// Is anything? Nothing is at the level of a pattern, which is no use.
pub fn tracks(memo: &[u16], level: usize) -> bool
    ensures { (result ≡ true → (0 < level) × (tracks_length ≤ length memo.now)) × (result ≡ false → 0 < level → tracks_length ≤ length memo.now → ⊥) }
{
    (level != 0) & (TRACKS <= memo.len())
}

// What marks a signal with b follows.
pub fn join_at(memo: &mut [u16], level: usize, s: usize, b: u16)
    requires { (level ≤ depth_most) × (s < signals_most) × (tracks_length ≤ length memo.old) × (b < marks_most) }
    ensures { (r : ℕ) × (memo.new ≡ set memo.old (level * signals_most + s) r) × (r < marks_most) × Joins (marks_at memo.old level s) b r }
{
    let i = level * sets::MOST + s;
    memo[i] = join(marks(memo, i), b);
}

// Nothing was played yet.
pub fn fresh(memo: &mut [u16], level: usize, signals: usize)
    requires { (level ≤ depth_most) × (signals ≤ signals_most) }
    ensures { AtLevel memo.old memo.new level × (tracks_length ≤ length memo.old → (s : ℕ) → s < signals → marks_at memo.new level s ≡ 0) }
{
    if memo.len() < TRACKS {
        return;
    }
    let first = level * sets::MOST;
    memo[first..first + signals].fill(0);
}

// Assignments, and a cycle under a table: what is given no character is shown, unless it was assigned before. Assignments alone stand under no table.
pub fn mark(memo: &mut [u16], level: usize, given: &[u8], table: usize, signals: usize)
    requires { (level ≤ depth_most) × (signals ≤ signals_most) × (length given.now ≡ signals_most) }
    ensures { AtLevel memo.old memo.new level × (0 < level → tracks_length ≤ length memo.old → (s : ℕ) → s < signals → Joins (marks_at memo.old level s) (shown_marks (get_or given.now s 0) table) (marks_at memo.new level s)) }
{
    if (level == 0) | (memo.len() < TRACKS) {
        return;
    }
    let shown = table_mark(table);
    for s in 0..signals {
        let i = level * sets::MOST + s;
        memo[i] = join(marks(memo, i), shown_marks(given[s], shown));
    }
}

// What is tracked from a place on follows: that of a body, whose signals are those of the level.
fn merge(memo: &mut [u16], level: usize, from: usize, signals: usize)
    requires { (0 < level) × (level ≤ depth_most) × (signals ≤ signals_most) × (level * signals_most + signals_most ≤ from) × (from + signals ≤ length memo.old) }
    ensures { AtLevel memo.old memo.new level × ((s : ℕ) → s < signals → Joins (marks_at memo.old level s) (marks_from memo.old from s) (marks_at memo.new level s)) }
{
    for s in 0..signals {
        let i = level * sets::MOST + s;
        memo[i] = join(marks(memo, i), marks(memo, from + s));
    }
}

// A use one level deeper was played.
pub fn rise(memo: &mut [u16], level: usize, signals: usize)
    requires { (level < depth_most) × (signals ≤ signals_most) }
    ensures { AtLevel memo.old memo.new level × (0 < level → tracks_length ≤ length memo.old → (s : ℕ) → s < signals → Joins (marks_at memo.old level s) (marks_at memo.old (level + 1) s) (marks_at memo.new level s)) }
{
    if (level == 0) | (memo.len() < TRACKS) {
        return;
    }
    merge(memo, level, (level + 1) * sets::MOST, signals);
}

// The use of the row at o was played before.
pub fn again(memo: &mut [u16], level: usize, o: usize, signals: usize)
    requires { (level ≤ depth_most) × (signals ≤ signals_most) × (tracks_length ≤ o) × (o + memo_row ≤ length memo.old) }
    ensures { AtLevel memo.old memo.new level × (0 < level → (s : ℕ) → s < signals → Joins (marks_at memo.old level s) (marks_from memo.old (o + before_at + 1) s) (marks_at memo.new level s)) }
{
    if level == 0 {
        return;
    }
    merge(memo, level, o + BEFORE + 1, signals);
}

// ---- what a row is found by

// Is the row for this use?
fn is_noted(memo: &[u16], o: usize, u: Use) -> bool
    requires { o + memo_row ≤ length memo.now }
    ensures { result ≡ true → Notes memo.now o u }
{
    (memo[o] == 1)
        & (u.seconds <= usize::from(memo[o + 1]))
        & (usize::from(memo[o + 2]) == u.fault)
        & (usize::from(memo[o + 3]) == u.at)
        & (usize::from(memo[o + 4]) == u.end)
}

// Can it be?
fn is_short(u: Use) -> bool
    ensures { result ≡ true → Short u }
{
    (u.seconds < KEPT) & (u.fault < KEPT) & (u.at < KEPT) & (u.end < KEPT)
}

// Now it is.
fn note(memo: &mut [u16], o: usize, u: Use)
    requires { (o + memo_row ≤ length memo.old) × Short u }
    ensures { Writes memo.old memo.new o (o + 5) × Notes memo.new o u × (get_or memo.new (o + 1) 0 ≡ u.seconds) }
{
    memo[o] = 1;
    memo[o + 1] = short(u.seconds);
    memo[o + 2] = short(u.fault);
    memo[o + 3] = short(u.at);
    memo[o + 4] = short(u.end);
}

// ---- the cursor behind a use

fn is_near(b: Cursor) -> bool
    ensures { result ≡ true → Near b }
{
    (b.no == 0) & (b.at < KEPT) & (b.end < KEPT)
}

fn point(memo: &mut [u16], o: usize, b: Cursor)
    requires { (o + 3 ≤ length memo.old) × Near b }
    ensures { Writes memo.old memo.new o (o + 3) × Points memo.new o b }
{
    memo[o] = u16::from(b.fault);
    memo[o + 1] = short(b.at);
    memo[o + 2] = short(b.end);
}

fn pointed(memo: &[u16], o: usize) -> Cursor
    requires { o + 3 ≤ length memo.now }
    ensures { Points memo.now o result }
{
    Cursor {
        no: 0,
        fault: byte_of(memo[o]),
        at: usize::from(memo[o + 1]),
        end: usize::from(memo[o + 2]),
    }
}

// ---- a table and marks, a table and pins

// The table, and the marks that stand from a place on.
fn trace(memo: &mut [u16], o: usize, table: usize, from: usize, signals: usize)
    requires { (table < 65_536) × (o + picture_size ≤ length memo.old) × (signals < picture_size) × (from + signals ≤ o) }
    ensures { Writes memo.old memo.new o (o + picture_size) × Traces memo.new o signals table (marks_from memo.old from) }
{
    memo[o] = short(table);
    // One by one: the library's copy becomes memmove here, which the archive for C does not want (include/stil.h).
    for s in 0..signals {
        memo[o + 1 + s] = memo[from + s];
    }
}

// The table and the pins.
fn picture(memo: &mut [u16], o: usize, table: usize, values: &[u8], signals: usize)
    requires { (table < 65_536) × (o + picture_size ≤ length memo.old) × (signals < picture_size) × (signals ≤ length values.now) }
    ensures { Writes memo.old memo.new o (o + picture_size) × Pictures memo.new o signals table (pins_of values.now) }
{
    memo[o] = short(table);
    for s in 0..signals {
        memo[o + 1 + s] = u16::from(values[s]);
    }
}

// The marks of a signal in the row at o.
pub fn marks_of(memo: &[u16], o: usize, s: usize) -> u16
    requires { (o + memo_row ≤ length memo.now) × (s < signals_most) }
    ensures { result ≡ marks_from memo.now (o + before_at + 1) s }
{
    marks(memo, o + BEFORE + 1 + s)
}

// A signal with these marks behind a use: what was assigned, or what stood there before.
fn left_on(m: u16, before: u8, behind: u8) -> u8
    ensures { (is_marked m assigned_mark ≡ true → result ≡ behind) × (is_marked m assigned_mark ≡ false → result ≡ before) }
{
    if is_marked(m, ASSIGNED) {
        return behind;
    }
    before
}

// What the use of the row at o assigned is on the pins.
fn restore(memo: &[u16], o: usize, values: &mut [u8], signals: usize)
    requires { (o + memo_row ≤ length memo.now) × (signals < picture_size) × (signals ≤ length values.old) }
    ensures { Restores memo.now o signals values.old values.new }
{
    for s in 0..signals {
        let m = marks_of(memo, o, s);
        values[s] = left_on(m, values[s], byte_of(memo[o + BEHIND + 1 + s]));
    }
}

// ---- a row

// Where the row of a use from this table begins, if it is remembered.
pub fn find(memo: &[u16], u: Use, table: usize) -> Option<usize>
    ensures { IfSome result (λ at. Finds memo.now u table at) }
{
    if (u.end <= u.at) | (memo.len() < TRACKS) {
        return None;
    }
    if u.end - u.at < SHORTEST {
        return None;
    }
    let o = memo_row(memo.len(), u.at, table);
    if memo.len() < o + MEMO_ROW {
        return None;
    }
    if !is_noted(memo, o, u) {
        return None;
    }
    if usize::from(memo[o + BEFORE]) != table {
        return None;
    }
    Some(o)
}

// What the use of a row left is left.
pub fn bring(memo: &[u16], o: usize, values: &mut [u8], signals: usize) -> Recalled
    requires { (o + memo_row ≤ length memo.now) × (signals < picture_size) × (signals ≤ length values.old) }
    ensures { Brings memo.now signals o values.old values.new result }
{
    restore(memo, o, values, signals);
    let cursor = pointed(memo, o + POINTS);
    Recalled {
        table: usize::from(memo[o + BEHIND]),
        cursor,
    }
}

// A use that was played a level deeper, in which no cycle failed, from a table to a table and pins; b is the cursor behind it.
pub fn remember(
    memo: &mut [u16],
    u: Use,
    b: Cursor,
    level: usize,
    table: usize,
    behind: usize,
    values: &[u8],
    signals: usize,
)
    requires { (level ≤ depth_most) × (signals ≤ signals_most) × (signals ≤ length values.now) }
    ensures { Remembered memo.old memo.new signals (telling u b table (marks_at memo.old level) behind (pins_of values.now)) }
{
    if (memo.len() < TRACKS) | (KEPT <= table) | (KEPT <= behind) {
        return;
    }
    let o = memo_row(memo.len(), u.at, table);
    if memo.len() < o + MEMO_ROW {
        return;
    }
    if !is_short(u) {
        return;
    }
    if !is_near(b) {
        return;
    }
    note(memo, o, u);
    point(memo, o + POINTS, b);
    trace(memo, o + BEFORE, table, level * sets::MOST, signals);
    picture(memo, o + BEHIND, behind, values, signals);
}

// Where the marks of a row begin, behind its table.
pub const MARKED: usize = BEFORE + 1;
