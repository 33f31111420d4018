// Playing bodies where the text holds them, to find the first cycle that fails: one without a table, or with an assigned character that has no waveform
// in it. A used body whose sum is known (`marks`, `sums`) and granted is passed; only one that may fail is entered, and once for each table, as long as that is remembered:
// what it shows of the pins before it and what it assigns is tracked (`memos`), so that it is known for which other pins it would play as well. A Loop is remembered as a use
// is; it plays its first turn, which is tracked so too, and its second where fewer than two second turns are open and the first would not play as well from what it left.
#![tactic(auto)]

ghost use Rattle.std.specs.Prelude.{◌≡◌, true, false, List, ℕ, ◌+◌, ◌-◌, ◌*◌, ◌%◌, ◌<◌, ◌≤◌, length, get_or, IfSome};
ghost use Rattle.pins.specs.Shown.{table_of};
ghost use Rattle.sums.specs.Sums.{ok_at};
ghost use Rattle.tokens.specs.Tokens.{toks};
ghost use Rattle.words.specs.Cursor.{alive, stream};
ghost use Rattle.turns.specs.Few.{loop_few, play_few};
ghost use Rattle.meaning.specs.Bounds.{signals_most, tables_most};
ghost use Rattle.meaning.specs.Body.{Body};
ghost use Rattle.meaning.specs.Document.{Read};
ghost use Rattle.meaning.proofs.Turns.{Plain};
ghost use Rattle.timing.specs.Marks.{table_size};
ghost use Rattle.measures.specs.Book.{bodies};
ghost use Rattle.pins.specs.Shown.{values_length};
ghost use Rattle.texts.specs.declared.Parts.{Parts};
ghost use Rattle.plays.specs.Run.{SomeListed, PlaysListed, SomeRunOn, RunsOn, Decides};
ghost use Rattle.plays.specs.Plays.{ground_of, arrays, Heads, Behind, LoopAt, Stood, Used, Promised, nest_of, Looping, PromisedWhere, Begins, Stepped, Shifted, ShiftedOn, Entered, Performed, SomeInvoked, Served, Summed, use_at, Settles, Passing, Recalls, SumMarks, PassedMarks};
ghost use Rattle.tallies.specs.Rows.{row_size, sum_at, Marked};
ghost use Rattle.timing.specs.Held.{Held};
ghost use Rattle.meaning.specs.Timing.{Tables};
ghost use Rattle.meaning.specs.Bounds.{depth_most};
ghost use Rattle.memos.specs.Tracks.{is_marked, assigned_mark, marks_most, Joins, shown_marks, tracks_length, marks_from, marks_at, Granted};
ghost use Rattle.memos.specs.Memo.{memo_row, before_at, AtLevel, Brings};

use heads::Declared;
use measures::DEPTH;
use memos::Use;
use words::Cursor;

// Second turns that may be open at once: a failing cycle is decided by one pin and the table.
const SECONDS: usize = 2;

// A text, and what the code has of it: what is declared, which characters have waveforms in the tables, and how many signals there are.
#[derive(Clone, Copy)]
pub struct Ground<'a> {
    pub declared: Declared<'a>,
    pub waves: &'a [u8],
    pub signals: usize,
}

// How a body is played: with so many second turns open in it at most, its Shift so often, in so many levels of bodies at most, at a level of its own.
// What is tracked of it stands DEPTH - depth deep, in the nest of Loops and uses around it.
#[derive(Clone, Copy)]
pub struct Frame {
    pub seconds: usize,
    pub turns: usize,
    pub depth: usize,
    pub level: usize,
}

// The cursor behind what was played, whether a cycle of it failed and where its V stands, the table in force; and was it the `}`?
#[derive(Clone, Copy)]
pub struct Played {
    pub cursor: Cursor,
    pub failed: bool,
    pub place: usize,
    pub table: usize,
    pub ends: bool,
}

// ---- one statement

// A statement was played in which no cycle fails, and statements go on.
fn goes_on(cursor: Cursor, table: usize) -> Played
    ensures { result ≡ record { cursor = cursor; failed = false; place = 0; table = table; ends = false } }
{
    Played {
        cursor,
        failed: false,
        place: 0,
        table,
        ends: false,
    }
}

// The statement at the cursor, as it is remembered.
fn use_at(seconds: usize, c: Cursor) -> Use
    ensures { result ≡ use_at seconds c }
{
    Use {
        seconds,
        fault: c.fault as usize,
        at: c.at,
        end: c.end,
    }
}

// What t turns of a V mark: the same as one, and nothing where there is none.
fn mark_turns(memo: &mut [u16], level: usize, given: &[u8], table: usize, t: usize, signals: usize)
    requires { (level ≤ depth_most) × (signals ≤ signals_most) × (length given.now ≡ signals_most) }
    ensures { AtLevel memo.old memo.new level × (t ≡ 0 → memo.new ≡ memo.old) × (0 < level → tracks_length ≤ length memo.old → 0 < t → (s : ℕ) → s < signals → Joins (marks_at memo.old level s) (shown_marks (get_or given.now s 0) table) (marks_at memo.new level s)) }
{
    if t == 0 {
        return;
    }
    memos::mark(memo, level, given, table, signals);
}

// Shift { V { .. } }: the V as often as the frame says, and the `}` behind it; what it shows and assigns is tracked.
fn shift_on<'a>(
    ground: &'a Ground<'a>,
    c: Cursor,
    frame: Frame,
    table: usize,
    values: &mut [u8],
    feeds: &mut [usize],
    args: &mut [usize],
    memo: &mut [u16],
) -> Played
    requires { (alive c ≡ true) × Stood (ground_of ground.now) (stream ground.now.declared.text.now c) frame.depth frame.level table (arrays values.old feeds.old args.old) }
    ensures { ShiftedOn (ground_of ground.now) memo.old memo.new (stream ground.now.declared.text.now c) frame.depth frame.level table (arrays values.old feeds.old args.old) (arrays values.new feeds.new args.new) frame.seconds frame.turns result }
{
    let mut given = [0; sets::MOST];
    let h = heads::head(&ground.declared, c, true, DEPTH, false, &mut given, args);
    let nest = DEPTH - frame.depth;
    mark_turns(memo, nest, &given, table, frame.turns, ground.signals);
    let failed = pins::vectors(
        ground.declared.text,
        &given,
        values,
        feeds,
        frame.level,
        ground.signals,
        ground.waves,
        table,
        frame.turns,
    );
    let behind = h.cursor;
    let cursor = words::due(ground.declared.text, behind, b"}");
    Played {
        cursor,
        failed,
        place: c.at,
        table,
        ends: false,
    }
}

// Shift { V { .. } }: the V as often as the frame says, and the `}` behind it.
pub fn shift<'a>(
    ground: &'a Ground<'a>,
    c: Cursor,
    frame: Frame,
    table: usize,
    values: &mut [u8],
    feeds: &mut [usize],
    args: &mut [usize],
) -> Played
    requires { (alive c ≡ true) × Stood (ground_of ground.now) (stream ground.now.declared.text.now c) frame.depth frame.level table (arrays values.old feeds.old args.old) }
    ensures { Shifted (ground_of ground.now) (stream ground.now.declared.text.now c) frame.depth frame.level table (arrays values.old feeds.old args.old) (arrays values.new feeds.new args.new) frame.seconds frame.turns result }
{
    let mut memo = [0u16; 0];
    shift_on(ground, c, frame, table, values, feeds, args, &mut memo)
}

// Loop N { .. }: those of its two turns that are needed. Where what is tracked of the first says that it would play as well from what it left, no cycle of the second fails,
// and it leaves the same.
#[cycle(body_of_looped_needed_turns_play_body_statement_statements_used_uses)]
fn needed_turns<'a>(
    ground: &'a Ground<'a>,
    c: Cursor,
    marks: &'a [u8],
    sums: &'a [u8],
    frame: Frame,
    n: usize,
    table: usize,
    values: &mut [u8],
    feeds: &mut [usize],
    args: &mut [usize],
    memo: &mut [u16],
) -> Played
    requires { (alive c ≡ true) × (0 < n) × (0 < frame.depth) × (h : Stood (ground_of ground.now) (stream ground.now.declared.text.now c) (frame.depth - 1) frame.level table (arrays values.old feeds.old args.old)) × Heads (ground_of ground.now) memo.old h.env }
    ensures { PromisedWhere (Looping ground.now.signals (nest_of (frame.depth - 1)) memo.old) (ground_of ground.now) marks.now sums.now memo.old memo.new (stream ground.now.declared.text.now c) (frame.depth - 1) frame.level (nest_of (frame.depth - 1)) table (arrays values.old feeds.old args.old) (arrays values.new feeds.new args.new) (λ b. loop_few n frame.seconds (λ j. play_few j frame.turns b)) result }
{
    let first = Frame {
        seconds: frame.seconds,
        turns: frame.turns,
        depth: frame.depth - 1,
        level: frame.level,
    };
    let a = statements(
        ground, c, marks, sums, first, table, values, feeds, args, memo,
    );
    if a.failed | (n < 2) | (frame.seconds == 0) {
        return a;
    }
    if begins_again(
        memo,
        DEPTH - first.depth,
        ground.waves,
        values,
        ground.signals,
        table,
        a.table,
    ) {
        return a;
    }
    let after = a.table;
    let second = Frame {
        seconds: frame.seconds - 1,
        turns: frame.turns,
        depth: frame.depth - 1,
        level: frame.level,
    };
    statements(
        ground, c, marks, sums, second, after, values, feeds, args, memo,
    )
}

// Loop N { .. } at the cursor head, its body at c: what its turns show and assign is tracked in the nest of its own, and then in the one around it; it is remembered where no
// cycle fails.
#[cycle(body_of_looped_needed_turns_play_body_statement_statements_used_uses)]
fn looped<'a>(
    ground: &'a Ground<'a>,
    head: Cursor,
    c: Cursor,
    marks: &'a [u8],
    sums: &'a [u8],
    frame: Frame,
    n: usize,
    table: usize,
    values: &mut [u8],
    feeds: &mut [usize],
    args: &mut [usize],
    memo: &mut [u16],
) -> Played
    requires { (alive c ≡ true) × (0 < n) × (0 < frame.depth) × (frame.depth ≤ depth_most) × (h : Stood (ground_of ground.now) (stream ground.now.declared.text.now c) (frame.depth - 1) frame.level table (arrays values.old feeds.old args.old)) × Heads (ground_of ground.now) memo.old h.env × LoopAt (ground_of ground.now) head c n }
    ensures { (result.ends ≡ false) × PromisedWhere Plain (ground_of ground.now) marks.now sums.now memo.old memo.new (stream ground.now.declared.text.now c) (frame.depth - 1) frame.level (nest_of frame.depth) table (arrays values.old feeds.old args.old) (arrays values.new feeds.new args.new) (λ b. loop_few n frame.seconds (λ j. play_few j frame.turns b)) result }
{
    let inside = DEPTH - (frame.depth - 1);
    memos::fresh(memo, inside, ground.signals);
    let turned = needed_turns(
        ground, c, marks, sums, frame, n, table, values, feeds, args, memo,
    );
    let behind = turned.cursor;
    if turned.failed {
        return Played {
            cursor: behind,
            failed: true,
            place: turned.place,
            table: turned.table,
            ends: false,
        };
    }
    let u = use_at(frame.seconds, head);
    memos::remember(
        memo,
        u,
        behind,
        inside,
        table,
        turned.table,
        values,
        ground.signals,
    );
    let around = DEPTH - frame.depth;
    memos::rise(memo, around, ground.signals);
    goes_on(behind, turned.table)
}

// Loop N { .. }, whatever its body: its first turn, and its second where there is one and a second turn may be open.
pub fn turns<'a>(
    ground: &'a Ground<'a>,
    c: Cursor,
    marks: &'a [u8],
    sums: &'a [u8],
    frame: Frame,
    n: usize,
    table: usize,
    values: &mut [u8],
    feeds: &mut [usize],
    args: &mut [usize],
) -> Played
    requires { (alive c ≡ true) × (0 < n) × (0 < frame.depth) × Stood (ground_of ground.now) (stream ground.now.declared.text.now c) (frame.depth - 1) frame.level table (arrays values.old feeds.old args.old) }
    ensures { Promised (ground_of ground.now) marks.now sums.now (stream ground.now.declared.text.now c) (frame.depth - 1) frame.level table (arrays values.old feeds.old args.old) (arrays values.new feeds.new args.new) (λ b. loop_few n frame.seconds (λ j. play_few j frame.turns b)) result }
{
    let mut memo = [0u16; 0];
    needed_turns(
        ground, c, marks, sums, frame, n, table, values, feeds, args, &mut memo,
    )
}

// Macro or Call: the body of number i, its Shift played t times, from its own first byte. A macro runs in place; from a procedure the caller's pins and
// table come back.
#[cycle(body_of_looped_needed_turns_play_body_statement_statements_used_uses)]
fn play_body<'a>(
    ground: &'a Ground<'a>,
    marks: &'a [u8],
    sums: &'a [u8],
    frame: Frame,
    i: usize,
    t: usize,
    table: usize,
    values: &mut [u8],
    feeds: &mut [usize],
    args: &mut [usize],
    memo: &mut [u16],
) -> Played
    requires { (h : Used (ground_of ground.now) i frame.depth frame.level table (arrays values.old feeds.old args.old)) × Heads (ground_of ground.now) memo.old h.env }
    ensures { Performed (ground_of ground.now) marks.now sums.now memo.old memo.new i frame.depth frame.level table (arrays values.old feeds.old args.old) (arrays values.new feeds.new args.new) frame.seconds t result }
{
    let inner = Frame {
        seconds: frame.seconds,
        turns: t,
        depth: frame.depth - 1,
        level: frame.level + 1,
    };
    let start = measures::start_at(ground.declared.book, i);
    let body = &ground.declared.text[start..];
    if i < measures::PROCEDURES {
        return body_of(
            ground, body, marks, sums, inner, table, values, feeds, args, memo,
        );
    }
    pins::leave(values, inner.level);
    let r = body_of(
        ground, body, marks, sums, inner, table, values, feeds, args, memo,
    );
    pins::come_back(values, inner.level);
    memos::fresh(memo, DEPTH - inner.depth, ground.signals);
    let cursor = r.cursor;
    Played {
        cursor,
        failed: r.failed,
        place: r.place,
        table,
        ends: false,
    }
}

// Macro or Call of the body of number i, of which nothing is remembered.
pub fn enter<'a>(
    ground: &'a Ground<'a>,
    marks: &'a [u8],
    sums: &'a [u8],
    frame: Frame,
    i: usize,
    t: usize,
    table: usize,
    values: &mut [u8],
    feeds: &mut [usize],
    args: &mut [usize],
) -> Played
    requires { Used (ground_of ground.now) i frame.depth frame.level table (arrays values.old feeds.old args.old) }
    ensures { Entered (ground_of ground.now) marks.now sums.now i frame.depth frame.level table (arrays values.old feeds.old args.old) (arrays values.new feeds.new args.new) frame.seconds t result }
{
    let mut memo = [0u16; 0];
    play_body(
        ground, marks, sums, frame, i, t, table, values, feeds, args, &mut memo,
    )
}

// A body's pins are those that it leaves.
fn settle(values: &mut [u8], left: &[u8], signals: usize)
    requires { (length values.old ≡ values_length) × (length left.now ≡ signals_most) × (signals ≤ signals_most) }
    ensures { Settles signals left.now values.old values.new }
{
    values[..signals].copy_from_slice(&left[..signals]);
}

// Macro or Call of the body of number i, whose sum may be known: where the state grants what that asks, no cycle of the body fails, and what it leaves is left.
// The table in force behind it, if it is passed.
fn pass<'a>(
    ground: &'a Ground<'a>,
    marks: &'a [u8],
    sums: &'a [u8],
    i: usize,
    t: usize,
    given: &[u8],
    args: &[usize],
    table: usize,
    values: &mut [u8],
) -> Option<usize>
    requires { (length ground.now.waves.now ≡ tables_most * table_size) × (ground.now.signals ≤ signals_most) × (i < bodies) × (length given.now ≡ signals_most) × (length args.now ≡ signals_most * 2) × (length values.old ≡ values_length) }
    ensures { Passing (ground_of ground.now) marks.now sums.now i t table given.now args.now values.old values.new result }
{
    if (marks.len() <= i) | (sums.len() < i * tallies::ROW + tallies::ROW) {
        return None;
    }
    if !tallies::usable(marks[i], t) {
        return None;
    }
    let mut left = [0; sets::MOST];
    if i < measures::PROCEDURES {
        if !tallies::asks(
            ground.declared.text,
            sums,
            i,
            ground.waves,
            ground.signals,
            given,
            args,
            table,
            values,
            &mut left,
        ) {
            return None;
        }
        settle(values, &left, ground.signals);
        return Some(tallies::table_behind(sums, i, table));
    }
    let bare = [0; sets::MOST];
    if !tallies::asks(
        ground.declared.text,
        sums,
        i,
        ground.waves,
        ground.signals,
        given,
        args,
        table,
        &bare,
        &mut left,
    ) {
        return None;
    }
    Some(table)
}

// The marks of a signal behind a body whose sum is known, before those of tables that the body chooses: is it assigned, and is what stood there before shown under the
// table before?
fn first_marks(assigned: bool, shown: bool, table: usize) -> u16
    ensures { (result < marks_most) × (is_marked result assigned_mark ≡ assigned) × (shown ≡ true → table < tables_most → is_marked result table ≡ true) }
{
    let m = memos::marked_if(0, timing::TABLES, assigned);
    if table < timing::TABLES {
        return memos::marked_if(m, table, shown);
    }
    m
}

// All of them.
fn sum_marks(sums: &[u8], r: usize, s: usize, table: usize) -> u16
    requires { (r * row_size + row_size ≤ length sums.now) × (s < signals_most) }
    ensures { (result < marks_most) × SumMarks (sum_at sums.now r) (table_of table) s result }
{
    let assigned = tallies::assigns(sums, r, s);
    let mut m = first_marks(assigned, tallies::shows(sums, r, s, timing::TABLES), table);
    for t in 0..timing::TABLES {
        m = memos::marked_if(m, t, tallies::shows(sums, r, s, t));
    }
    m
}

// What a passed body of number i shows and assigns is tracked; a procedure does nothing to its caller's signals.
fn mark_passed(memo: &mut [u16], level: usize, sums: &[u8], i: usize, table: usize, signals: usize)
    requires { (level ≤ depth_most) × (signals ≤ signals_most) × (i * row_size + row_size ≤ length sums.now) }
    ensures { AtLevel memo.old memo.new level × ((s : ℕ) → (b : ℕ) × (0 < level → tracks_length ≤ length memo.old → s < signals → PassedMarks sums.now i table s b × Joins (marks_at memo.old level s) b (marks_at memo.new level s))) }
{
    if (measures::PROCEDURES <= i) | !memos::tracks(memo, level) {
        return;
    }
    for s in 0..signals {
        memos::join_at(memo, level, s, sum_marks(sums, i, s, table));
    }
}

// ---- uses and Loops that were played before

// Can the character be shown on a signal under the table t, if that is the first of these marks?
fn mark_granted(waves: &[u8], m: u16, t: usize, s: usize, x: u8) -> bool
    requires { (length waves.now ≡ tables_most * table_size) × (s < signals_most) × (t < tables_most) }
    ensures { result ≡ true → is_marked m 0 ≡ true → (tabs : Tables) → Marked waves.now tabs → ok_at tabs (table_of t) s x ≡ true }
{
    if !memos::is_marked(m, 0) {
        return true;
    }
    tallies::fits(waves, t, s, x)
}

// Under each that is? An unassigned signal can under every table, and behind the last table's mark nothing is asked.
fn pin_granted(waves: &[u8], m: u16, s: usize, x: u8) -> bool
    requires { (length waves.now ≡ tables_most * table_size) × (s < signals_most) × (m < marks_most) }
    ensures { result ≡ true → (tabs : Tables) → Marked waves.now tabs → Granted tabs m s x }
{
    if x == 0 {
        return true;
    }
    let mut rest = m % 256;
    let mut t = 0;
    while rest != 0 {
        if !mark_granted(waves, rest, t, s, x) {
            return false;
        }
        rest /= 2;
        t += 1;
    }
    true
}

// Does what is tracked, with the marks that stand from a place on, hold for these pins?
fn pins_granted(memo: &[u16], from: usize, waves: &[u8], values: &[u8], signals: usize) -> bool
    requires { (from + signals ≤ length memo.now) × (length waves.now ≡ tables_most * table_size) × (signals ≤ signals_most) × (signals ≤ length values.now) }
    ensures { result ≡ true → (tabs : Tables) → Marked waves.now tabs → (i : ℕ) → i < signals → Granted tabs (marks_from memo.now from i) i (get_or values.now i 0) }
{
    for s in 0..signals {
        if !pin_granted(waves, memos::marks(memo, from + s), s, values[s]) {
            return false;
        }
    }
    true
}

// Would what was played at this nest from a table on play as well from the table and the pins behind it?
fn begins_again(
    memo: &[u16],
    nest: usize,
    waves: &[u8],
    values: &[u8],
    signals: usize,
    table: usize,
    after: usize,
) -> bool
    requires { (nest ≤ depth_most) × (length waves.now ≡ tables_most * table_size) × (signals ≤ signals_most) × (signals ≤ length values.now) }
    ensures { result ≡ true → Begins waves.now memo.now signals nest table after values.now }
{
    if (after != table) | !memos::tracks(memo, nest) {
        return false;
    }
    pins_granted(memo, nest * sets::MOST, waves, values, signals)
}

// The row of a statement from this table, if it is remembered and holds for these pins.
fn recall(
    memo: &[u16],
    waves: &[u8],
    u: Use,
    table: usize,
    values: &[u8],
    signals: usize,
) -> Option<usize>
    requires { (length waves.now ≡ tables_most * table_size) × (signals ≤ signals_most) × (signals ≤ length values.now) }
    ensures { IfSome result (λ at. Recalls waves.now memo.now signals u table values.now at) }
{
    let at = memos::find(memo, u, table)?;
    if !pins_granted(memo, at + memos::MARKED, waves, values, signals) {
        return None;
    }
    Some(at)
}

// Macro or Call at the cursor c, with another behind it, of the body of number i: it is played, and remembered where no cycle fails; what it shows and
// assigns is tracked, a level deeper and then here.
#[cycle(body_of_looped_needed_turns_play_body_statement_statements_used_uses)]
fn used<'a>(
    ground: &'a Ground<'a>,
    c: Cursor,
    past: Cursor,
    marks: &'a [u8],
    sums: &'a [u8],
    frame: Frame,
    i: usize,
    t: usize,
    given: &[u8],
    table: usize,
    values: &mut [u8],
    feeds: &mut [usize],
    args: &mut [usize],
    memo: &mut [u16],
) -> Played
    requires { (h : SomeInvoked (ground_of ground.now) c i t frame.depth frame.level table given.now (arrays values.old feeds.old args.old)) × Heads (ground_of ground.now) memo.old h.env × Behind (ground_of ground.now) c past }
    ensures { Served (ground_of ground.now) marks.now sums.now memo.old memo.new c i t frame.depth frame.level table given.now (arrays values.old feeds.old args.old) (arrays values.new feeds.new args.new) frame.seconds result }
{
    let within = DEPTH - (frame.depth - 1);
    memos::fresh(memo, within, ground.signals);
    pins::supply(given, args, feeds, frame.level + 1);
    let left = play_body(
        ground, marks, sums, frame, i, t, table, values, feeds, args, memo,
    );
    if left.failed {
        return left;
    }
    let u = use_at(frame.seconds, c);
    memos::remember(
        memo,
        u,
        past,
        within,
        table,
        left.table,
        values,
        ground.signals,
    );
    memos::rise(memo, DEPTH - frame.depth, ground.signals);
    left
}

// Macro or Call at the cursor c, with another past it, of the body of number i: it is passed where its sum is known and granted, else played.
#[cycle(body_of_looped_needed_turns_play_body_statement_statements_used_uses)]
fn uses<'a>(
    ground: &'a Ground<'a>,
    c: Cursor,
    past: Cursor,
    marks: &'a [u8],
    sums: &'a [u8],
    frame: Frame,
    i: usize,
    t: usize,
    given: &[u8],
    table: usize,
    values: &mut [u8],
    feeds: &mut [usize],
    args: &mut [usize],
    memo: &mut [u16],
) -> Played
    requires { (h : SomeInvoked (ground_of ground.now) c i t frame.depth frame.level table given.now (arrays values.old feeds.old args.old)) × Heads (ground_of ground.now) memo.old h.env × Behind (ground_of ground.now) c past }
    ensures { (result.cursor ≡ past) × (result.ends ≡ false) × Served (ground_of ground.now) marks.now sums.now memo.old memo.new c i t frame.depth frame.level table given.now (arrays values.old feeds.old args.old) (arrays values.new feeds.new args.new) frame.seconds result }
{
    if let Some(behind) = pass(ground, marks, sums, i, t, given, args, table, values) {
        mark_passed(memo, DEPTH - frame.depth, sums, i, table, ground.signals);
        return goes_on(past, behind);
    }
    let r = used(
        ground, c, past, marks, sums, frame, i, t, given, table, values, feeds, args, memo,
    );
    Played {
        cursor: past,
        failed: r.failed,
        place: r.place,
        table: r.table,
        ends: false,
    }
}

// A statement whose row begins at o was played before: what it assigned is left, and what it shows and assigns is tracked.
fn repeated(memo: &mut [u16], nest: usize, o: usize, values: &mut [u8], signals: usize) -> Played
    requires { (nest ≤ depth_most) × (signals ≤ signals_most) × (signals ≤ length values.old) × (tracks_length ≤ o) × (o + memo_row ≤ length memo.old) }
    ensures { (result.failed ≡ false) × (result.ends ≡ false) × Brings memo.old signals o values.old values.new (record { table = result.table; cursor = result.cursor }) × AtLevel memo.old memo.new nest × (0 < nest → (s : ℕ) → s < signals → Joins (marks_at memo.old nest s) (marks_from memo.old (o + before_at + 1) s) (marks_at memo.new nest s)) }
{
    let q = memos::bring(memo, o, values, signals);
    memos::again(memo, nest, o, signals);
    let past = q.cursor;
    goes_on(past, q.table)
}

// The statement at the cursor, or the `}` there. A use or a Loop that was played from this table before, with pins that these could stand for, is not read again: what
// it assigned is left.
#[cycle(body_of_looped_needed_turns_play_body_statement_statements_used_uses)]
fn statement<'a>(
    ground: &'a Ground<'a>,
    c: Cursor,
    marks: &'a [u8],
    sums: &'a [u8],
    frame: Frame,
    table: usize,
    values: &mut [u8],
    feeds: &mut [usize],
    args: &mut [usize],
    memo: &mut [u16],
) -> Played
    requires { (alive c ≡ true) × (h : Stood (ground_of ground.now) (stream ground.now.declared.text.now c) frame.depth frame.level table (arrays values.old feeds.old args.old)) × Heads (ground_of ground.now) memo.old h.env }
    ensures { Stepped (ground_of ground.now) marks.now sums.now memo.old memo.new (stream ground.now.declared.text.now c) frame.depth frame.level table (arrays values.old feeds.old args.old) (arrays values.new feeds.new args.new) frame.seconds frame.turns result }
{
    let u = use_at(frame.seconds, c);
    if let Some(at) = recall(memo, ground.waves, u, table, values, ground.signals) {
        return repeated(memo, DEPTH - frame.depth, at, values, ground.signals);
    }
    let mut given = [0; sets::MOST];
    let h = heads::head(&ground.declared, c, true, DEPTH, false, &mut given, args);
    let cursor = h.cursor;
    let what = h.what;
    match what {
        heads::What::Ends => Played {
            cursor,
            failed: false,
            place: 0,
            table,
            ends: true,
        },
        heads::What::Vector(place) => {
            memos::mark(memo, DEPTH - frame.depth, &given, table, ground.signals);
            let failed = pins::vectors(
                ground.declared.text,
                &given,
                values,
                feeds,
                frame.level,
                ground.signals,
                ground.waves,
                table,
                1,
            );
            Played {
                cursor,
                failed,
                place,
                table,
                ends: false,
            }
        }
        heads::What::Assigns => {
            memos::mark(
                memo,
                DEPTH - frame.depth,
                &given,
                pins::NONE,
                ground.signals,
            );
            pins::put(
                ground.declared.text,
                &given,
                values,
                feeds,
                frame.level,
                ground.signals,
            );
            goes_on(cursor, table)
        }
        heads::What::Chooses(k) => goes_on(cursor, k),
        heads::What::Loops(n) => looped(
            ground, c, cursor, marks, sums, frame, n, table, values, feeds, args, memo,
        ),
        heads::What::Shifts => shift_on(ground, cursor, frame, table, values, feeds, args, memo),
        heads::What::Uses(i, t) => uses(
            ground, c, cursor, marks, sums, frame, i, t, &given, table, values, feeds, args, memo,
        ),
    }
}

// ---- statements

// Statements from the cursor on, up to their `}`.
#[cycle(body_of_looped_needed_turns_play_body_statement_statements_used_uses)]
fn statements<'a>(
    ground: &'a Ground<'a>,
    c: Cursor,
    marks: &'a [u8],
    sums: &'a [u8],
    frame: Frame,
    table: usize,
    values: &mut [u8],
    feeds: &mut [usize],
    args: &mut [usize],
    memo: &mut [u16],
) -> Played
    requires { (alive c ≡ true) × (h : Stood (ground_of ground.now) (stream ground.now.declared.text.now c) frame.depth frame.level table (arrays values.old feeds.old args.old)) × Heads (ground_of ground.now) memo.old h.env }
    ensures { PromisedWhere (λ b. Unit {0}) (ground_of ground.now) marks.now sums.now memo.old memo.new (stream ground.now.declared.text.now c) frame.depth frame.level (nest_of frame.depth) table (arrays values.old feeds.old args.old) (arrays values.new feeds.new args.new) (play_few frame.seconds frame.turns) result }
{
    let mut cursor = c;
    let mut chosen = table;
    loop {
        let r = statement(
            ground, cursor, marks, sums, frame, chosen, values, feeds, args, memo,
        );
        if r.failed | r.ends {
            return r;
        }
        cursor = r.cursor;
        chosen = r.table;
    }
}

// The statements of a body, which is the part of the text that begins with it.
#[cycle(body_of_looped_needed_turns_play_body_statement_statements_used_uses)]
fn body_of<'a>(
    ground: &'a Ground<'a>,
    body: &'a [u8],
    marks: &'a [u8],
    sums: &'a [u8],
    frame: Frame,
    table: usize,
    values: &mut [u8],
    feeds: &mut [usize],
    args: &mut [usize],
    memo: &mut [u16],
) -> Played
    requires { (length body.now ≤ length ground.now.declared.text.now) × (h : Stood (ground_of ground.now) (toks ground.now.declared.text.now (length ground.now.declared.text.now - length body.now)) frame.depth frame.level table (arrays values.old feeds.old args.old)) × Heads (ground_of ground.now) memo.old h.env }
    ensures { PromisedWhere (λ b. Unit {0}) (ground_of ground.now) marks.now sums.now memo.old memo.new (toks ground.now.declared.text.now (length ground.now.declared.text.now - length body.now)) frame.depth frame.level (nest_of frame.depth) table (arrays values.old feeds.old args.old) (arrays values.new feeds.new args.new) (play_few frame.seconds frame.turns) result }
{
    let c = words::cursor_at(
        ground.declared.text,
        ground.declared.text.len() - body.len(),
    );
    statements(
        ground, c, marks, sums, frame, table, values, feeds, args, memo,
    )
}

// ---- the run

// The listed pattern of number k, from its own first byte. It starts with no table and all signals unassigned.
fn pattern<'a>(
    ground: &'a Ground<'a>,
    marks: &'a [u8],
    sums: &'a [u8],
    list: &'a [usize],
    patterns: usize,
    k: usize,
    values: &mut [u8],
    feeds: &mut [usize],
    args: &mut [usize],
    memo: &mut [u16],
) -> Played
    requires { (h : SomeListed (ground_of ground.now) list.now patterns k (arrays values.old feeds.old args.old)) × Heads (ground_of ground.now) memo.old h.env }
    ensures { PlaysListed (ground_of ground.now) marks.now sums.now memo.old memo.new list.now patterns k (arrays values.new feeds.new args.new) result }
{
    let names = &ground.declared.book[measures::PATTERNS * 2..];
    let i = words::find(
        ground.declared.text,
        words::name_bytes(ground.declared.text, list, k),
        names,
        patterns,
    );
    let start = measures::start_at(ground.declared.book, measures::PATTERNS + i);
    let body = &ground.declared.text[start..];
    let frame = Frame {
        seconds: SECONDS,
        turns: 0,
        depth: DEPTH,
        level: 0,
    };
    pins::leave(values, 0);
    body_of(
        ground,
        body,
        marks,
        sums,
        frame,
        pins::NONE,
        values,
        feeds,
        args,
        memo,
    )
}

// The listed patterns in order: where the V of the first cycle that fails stands.
pub fn first_failing<'a>(
    ground: &'a Ground<'a>,
    marks: &'a [u8],
    sums: &'a [u8],
    list: &'a [usize],
    listed: usize,
    patterns: usize,
) -> Option<usize>
    requires { SomeRunOn (ground_of ground.now) list.now listed patterns }
    ensures { (p : Parts) (d : Read) (run : Body) (h : RunsOn (ground_of ground.now) list.now listed patterns p d run) → Summed (ground_of ground.now) marks.now sums.now h.tabled.parts.env → Decides d run result }
{
    let mut values = [0u8; pins::VALUES];
    let mut feeds = [0usize; pins::FEEDS];
    let mut args = [0usize; measures::ROW];
    let mut memo = [0u16; memos::MEMO];
    for k in 0..listed {
        let r = pattern(
            ground,
            marks,
            sums,
            list,
            patterns,
            k,
            &mut values,
            &mut feeds,
            &mut args,
            &mut memo,
        );
        if r.failed {
            return Some(r.place);
        }
    }
    None
}
