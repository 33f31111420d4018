// Playing the listed patterns where the text holds them, to find the first pair of neighbouring cycles that is not in order: in a category, the earlier one's
// last event does not come before the later one's first. Of a Loop two turns are played, and the first cycle of the second is held against its last, for so the
// third begins; one turn, where it leaves what it found.
#![tactic(auto)]

ghost use Rattle.std.specs.Prelude.{◌≡◌, true, false, List, [], ◌∷◌, ℕ, ◌+◌, ◌*◌, ◌-◌, ◌<◌, ◌≤◌, length, get_or};
ghost use Rattle.std.proofs.Math.Option.{none, some};
ghost use Rattle.words.specs.Cursor.{alive, stream};
ghost use Rattle.meaning.specs.Bounds.{signals_most, depth_most};
ghost use Rattle.meaning.specs.Timing.{Tables};
ghost use Rattle.meaning.specs.Edges.{in_order};
ghost use Rattle.pins.specs.Shown.{Roomy, Others};
ghost use Rattle.plays.specs.Plays.{ground_of, arrays};
ghost use Rattle.plays.specs.Run.{SomeRunOn, RunsOn};
ghost use Rattle.meaning.specs.Body.{Body};
ghost use Rattle.meaning.specs.Document.{Read};
ghost use Rattle.texts.specs.declared.Parts.{Parts};
ghost use Rattle.crossings.specs.Rows.{rows_most, Ample, cycle_in, row_at, first_seen, Copied, Marked, Stored, Noted, Long, Passed, clock_of, Timed, Fitted, Fine, Closed, rows_of};
ghost use Rattle.crossings.specs.Crossings.{Stood, Promised, Vectored, Stepped, Shifted, Looped, Used, Entered};
ghost use Rattle.crossings.specs.Run.{SomeListed, PlaysListed, Decides};

use measures::DEPTH;
use plays::{Ground, Played};
use spans::Times;
use timing::TABLES;
use words::Cursor;

// The last cycle's row, and two for each body in a body: the first cycle of a turn, and what the turn found.
const ROWS: usize = DEPTH * 2 + 1;
// Of each row its table, the place of its V, and whether there is a cycle.
const NUMBERS: usize = 3;

// The cycles that are needed again, a row for each: its pins, and its numbers.
#[derive(Drop)]
struct Seen {
    pins: [u8; ROWS * sets::MOST],
    marks: [usize; ROWS * NUMBERS],
}

// How a body is played: its Shift so often, in so many levels of bodies at most, at a level of its own.
#[derive(Clone, Copy)]
struct Frame {
    turns: usize,
    depth: usize,
    level: usize,
}

// A statement without a cycle, up to the cursor.
fn gone(cursor: Cursor, table: usize) -> Played
    ensures { result ≡ record { cursor = cursor; failed = false; place = 0; table = table; ends = false } }
{
    Played {
        cursor,
        failed: false,
        place: 0,
        table,
        ends: false,
    }
}

// A statement with a body in it, which was played, up to the cursor.
fn on_to(cursor: Cursor, r: Played) -> Played
    ensures { result ≡ record { cursor = cursor; failed = r.failed; place = r.place; table = r.table; ends = false } }
{
    Played {
        cursor,
        failed: r.failed,
        place: r.place,
        table: r.table,
        ends: false,
    }
}

// ---- rows

fn copy_pins(values: &[u8], signals: usize, shown: &mut [u8], at: usize)
    requires { (signals ≤ length values.now) × (at + signals ≤ length shown.old) }
    ensures { Copied signals values.now at shown.old shown.new }
{
    // One by one: the library's copy becomes memmove here, which the archive for C does not want (include/stil.h).
    for s in 0..signals {
        shown[at + s] = values[s];
    }
}

fn put_marks(marks: &mut [usize], row: usize, table: usize, place: usize)
    requires { row * 3 + 3 ≤ length marks.old }
    ensures { Marked row table place 1 marks.old marks.new }
{
    let at = row * NUMBERS;
    marks[at] = table;
    marks[at + 1] = place;
    marks[at + 2] = 1;
}

// A cycle with these pins, in a row.
fn store(values: &[u8], signals: usize, table: usize, place: usize, seen: &mut Seen, row: usize)
    requires { (signals ≤ signals_most) × (signals_most ≤ length values.now) × Ample seen.old × (row < rows_most) }
    ensures { Stored signals row (some (cycle_in signals place table values.now 0)) seen.old seen.new }
{
    copy_pins(values, signals, &mut seen.pins, row * sets::MOST);
    put_marks(&mut seen.marks, row, table, place);
}

// No cycle, in a row.
fn forget(seen: &mut Seen, row: usize)
    requires { (length seen.old.marks ≡ rows_most * 3) × (row < rows_most) }
    ensures { (n : ℕ) → Stored n row none seen.old seen.new }
{
    seen.marks[row * NUMBERS + 2] = 0;
}

// The cycle is the first one, if none was seen.
fn note_first(
    values: &[u8],
    signals: usize,
    table: usize,
    place: usize,
    seen: &mut Seen,
    row: usize,
)
    requires { (signals ≤ signals_most) × (signals_most ≤ length values.now) × Ample seen.old × (row < rows_most) }
    ensures { Stored signals row (first_seen (row_at signals seen.old row) (cycle_in signals place table values.now 0 ∷ [])) seen.old seen.new }
{
    if seen.marks[row * NUMBERS + 2] != 0 {
        return;
    }
    store(values, signals, table, place, seen, row);
}

// The cycle becomes the last one, and the first one where none was seen.
fn note(values: &[u8], signals: usize, table: usize, place: usize, seen: &mut Seen, rows: usize)
    requires { (signals ≤ signals_most) × (signals_most ≤ length values.now) × Ample seen.old × (rows ≤ rows_most) }
    ensures { Long seen.old seen.new × Noted signals rows seen.old seen.new (cycle_in signals place table values.now 0 ∷ []) }
{
    for i in 1..rows {
        note_first(values, signals, table, place, seen, i);
    }
    store(values, signals, table, place, seen, 0);
}

// ---- a pair

// Is the cycle whose pins stand from b on, under table k, in order behind that from a on, under table j?
fn in_order<'a>(
    times: &'a Times<'a>,
    first: &[u8],
    a: usize,
    j: usize,
    second: &[u8],
    b: usize,
    k: usize,
    signals: usize,
) -> bool
    requires { Fitted (clock_of times.now) × (signals ≤ signals_most) × (a + signals ≤ length first.now) × (b + signals ≤ length second.now) }
    ensures { (tabs : Tables) → Timed tabs (clock_of times.now) → (p q : ℕ) → result ≡ in_order tabs (cycle_in signals p j first.now a) (cycle_in signals q k second.now b) }
{
    if TABLES <= j {
        return true;
    }
    if TABLES <= k {
        return true;
    }
    for s in 0..signals {
        if !spans::fine(times, j, k, s, first[a + s], second[b + s]) {
            return false;
        }
    }
    true
}

// Is it in order behind the last one, if any?
fn held<'a>(
    times: &'a Times<'a>,
    seen: &Seen,
    pins: &[u8],
    at: usize,
    table: usize,
    signals: usize,
) -> bool
    requires { Fitted (clock_of times.now) × (signals ≤ signals_most) × Ample seen.now × (at + signals ≤ length pins.now) }
    ensures { (tabs : Tables) → Timed tabs (clock_of times.now) → (p : ℕ) → Fine tabs signals seen.now (cycle_in signals p table pins.now at) result }
{
    if seen.marks[2] == 0 {
        return true;
    }
    in_order(
        times,
        &seen.pins,
        0,
        seen.marks[0],
        pins,
        at,
        table,
        signals,
    )
}

// A cycle is played: is it not in order behind the last one? If it is, it is noted.
fn cycle<'a>(
    times: &'a Times<'a>,
    values: &[u8],
    signals: usize,
    table: usize,
    place: usize,
    seen: &mut Seen,
    rows: usize,
) -> bool
    requires { Fitted (clock_of times.now) × (signals ≤ signals_most) × (signals_most ≤ length values.now) × Ample seen.old × (rows ≤ rows_most) }
    ensures { Long seen.old seen.new × ((tabs : Tables) → Timed tabs (clock_of times.now) → Passed tabs signals rows seen.old seen.new result place (cycle_in signals place table values.now 0 ∷ [])) }
{
    if !held(times, seen, values, 0, table, signals) {
        return true;
    }
    note(values, signals, table, place, seen, rows);
    false
}

// The first cycle of a turn once more behind its last, as the next turn begins: is it not in order?
fn closes<'a>(times: &'a Times<'a>, seen: &Seen, row: usize, signals: usize) -> bool
    requires { Fitted (clock_of times.now) × (signals ≤ signals_most) × Ample seen.now × (row < rows_most) }
    ensures { (tabs : Tables) → Timed tabs (clock_of times.now) → Closed tabs signals row seen.now result (get_or seen.now.marks (row * 3 + 1) 0) }
{
    if seen.marks[row * NUMBERS + 2] == 0 {
        return false;
    }
    let table = seen.marks[row * NUMBERS];
    !held(times, seen, &seen.pins, row * sets::MOST, table, signals)
}

// Are the pins and the table those of a row?
fn same(values: &[u8], table: usize, seen: &Seen, row: usize, signals: usize) -> bool
    requires { (signals ≤ signals_most) × (signals_most ≤ length values.now) × Ample seen.now × (row < rows_most) }
    ensures { result ≡ true → (get_or seen.now.marks (row * 3) 0 ≡ table) × ((s : ℕ) → s < signals → get_or seen.now.pins (row * signals_most + s) 0 ≡ get_or values.now s 0) }
{
    if seen.marks[row * NUMBERS] != table {
        return false;
    }
    let at = row * sets::MOST;
    seen.pins[at..at + signals] == values[..signals]
}

// The turn's first cycle once more behind its last one.
fn finish<'a>(times: &'a Times<'a>, seen: &Seen, row: usize, signals: usize, r: Played) -> Played
    requires { Fitted (clock_of times.now) × (signals ≤ signals_most) × Ample seen.now × (row < rows_most) }
    ensures { (result.cursor ≡ r.cursor) × (result.table ≡ r.table) × ((tabs : Tables) → Timed tabs (clock_of times.now) → Closed tabs signals row seen.now result.failed result.place) }
{
    let cursor = r.cursor;
    let failed = closes(times, seen, row, signals);
    Played {
        cursor,
        failed,
        place: seen.marks[row * NUMBERS + 1],
        table: r.table,
        ends: false,
    }
}

// ---- one statement

// How many rows are in use in a body in which bodies may stand so deep.
fn rows_of(depth: usize) -> usize
    requires { depth ≤ depth_most }
    ensures { result ≡ rows_of depth }
{
    (DEPTH - depth) * 2 + 1
}

// A V, t times, each cycle held against the one before.
fn vectors<'a>(
    text: &[u8],
    given: &[u8],
    values: &mut [u8],
    feeds: &mut [usize],
    level: usize,
    signals: usize,
    table: usize,
    place: usize,
    t: usize,
    times: &'a Times<'a>,
    seen: &mut Seen,
    used: usize,
) -> bool
    requires { Roomy signals values.old feeds.old level × (length given.now ≡ signals_most) × Fitted (clock_of times.now) × Ample seen.old × (used ≤ rows_most) }
    ensures { Others level values.old values.new feeds.old feeds.new × Long seen.old seen.new × Vectored text.now given.now (clock_of times.now) signals level table place t used values.old values.new feeds.old feeds.new seen.old seen.new result }
{
    for _ in 0..t {
        pins::put(text, given, values, feeds, level, signals);
        if cycle(times, values, signals, table, place, seen, used) {
            return true;
        }
    }
    false
}

// Shift { V { .. } }: the V as often as the frame says, and the `}` behind it.
fn shift<'a>(
    ground: &'a Ground<'a>,
    c: Cursor,
    times: &'a Times<'a>,
    frame: Frame,
    table: usize,
    values: &mut [u8],
    feeds: &mut [usize],
    args: &mut [usize],
    seen: &mut Seen,
) -> Played
    requires { (alive c ≡ true) × Stood (ground_of ground.now) (clock_of times.now) (stream ground.now.declared.text.now c) frame.depth frame.level table (arrays values.old feeds.old args.old) seen.old }
    ensures { Shifted (ground_of ground.now) (clock_of times.now) (stream ground.now.declared.text.now c) frame.depth frame.level table frame.turns (arrays values.old feeds.old args.old) (arrays values.new feeds.new args.new) seen.old seen.new result }
{
    let mut given = [0; sets::MOST];
    let h = heads::head(&ground.declared, c, true, DEPTH, false, &mut given, args);
    let failed = vectors(
        ground.declared.text,
        &given,
        values,
        feeds,
        frame.level,
        ground.signals,
        table,
        c.at,
        frame.turns,
        times,
        seen,
        rows_of(frame.depth),
    );
    let behind = h.cursor;
    let cursor = words::due(ground.declared.text, behind, b"}");
    Played {
        cursor,
        failed,
        place: c.at,
        table,
        ends: false,
    }
}

// Loop N { .. }: one turn, where it leaves what it found, and else two; and the next turn's first cycle, if there is one.
#[cycle(enter_statement_statements_turns)]
fn turns<'a>(
    ground: &'a Ground<'a>,
    c: Cursor,
    times: &'a Times<'a>,
    frame: Frame,
    n: usize,
    table: usize,
    values: &mut [u8],
    feeds: &mut [usize],
    args: &mut [usize],
    seen: &mut Seen,
) -> Played
    requires { (alive c ≡ true) × (0 < n) × (0 < frame.depth) × (frame.depth ≤ depth_most) × Stood (ground_of ground.now) (clock_of times.now) (stream ground.now.declared.text.now c) (frame.depth - 1) frame.level table (arrays values.old feeds.old args.old) seen.old }
    ensures { Looped (ground_of ground.now) (clock_of times.now) (stream ground.now.declared.text.now c) frame.depth frame.level table frame.turns n (arrays values.old feeds.old args.old) (arrays values.new feeds.new args.new) seen.old seen.new result }
{
    let inner = Frame {
        turns: frame.turns,
        depth: frame.depth - 1,
        level: frame.level,
    };
    let first = rows_of(frame.depth);
    forget(seen, first);
    store(values, ground.signals, table, 0, seen, first + 1);
    let a = statements(ground, c, times, inner, table, values, feeds, args, seen);
    if a.failed | (n < 2) {
        return a;
    }
    if same(values, a.table, seen, first + 1, ground.signals) {
        return finish(times, seen, first, ground.signals, a);
    }
    forget(seen, first);
    let b = statements(ground, c, times, inner, a.table, values, feeds, args, seen);
    if b.failed | (n < 3) {
        return b;
    }
    finish(times, seen, first, ground.signals, b)
}

// Macro or Call: the body of number i, its Shift played t times, from its own first byte. A macro runs in place; from a procedure the caller's pins and table come back.
#[cycle(enter_statement_statements_turns)]
fn enter<'a>(
    ground: &'a Ground<'a>,
    times: &'a Times<'a>,
    frame: Frame,
    i: usize,
    t: usize,
    table: usize,
    values: &mut [u8],
    feeds: &mut [usize],
    args: &mut [usize],
    seen: &mut Seen,
) -> Played
    requires { Used (ground_of ground.now) (clock_of times.now) i frame.depth frame.level table (arrays values.old feeds.old args.old) seen.old }
    ensures { Entered (ground_of ground.now) (clock_of times.now) i frame.depth frame.level table t (arrays values.old feeds.old args.old) (arrays values.new feeds.new args.new) seen.old seen.new result }
{
    let inner = Frame {
        turns: t,
        depth: frame.depth - 1,
        level: frame.level + 1,
    };
    let c = words::cursor_at(
        ground.declared.text,
        measures::start_at(ground.declared.book, i),
    );
    if i < measures::PROCEDURES {
        return statements(ground, c, times, inner, table, values, feeds, args, seen);
    }
    pins::leave(values, inner.level);
    let r = statements(ground, c, times, inner, table, values, feeds, args, seen);
    pins::come_back(values, inner.level);
    let cursor = r.cursor;
    Played {
        cursor,
        failed: r.failed,
        place: r.place,
        table,
        ends: false,
    }
}

// The statement at the cursor, or the `}` there.
#[cycle(enter_statement_statements_turns)]
fn statement<'a>(
    ground: &'a Ground<'a>,
    c: Cursor,
    times: &'a Times<'a>,
    frame: Frame,
    table: usize,
    values: &mut [u8],
    feeds: &mut [usize],
    args: &mut [usize],
    seen: &mut Seen,
) -> Played
    requires { (alive c ≡ true) × Stood (ground_of ground.now) (clock_of times.now) (stream ground.now.declared.text.now c) frame.depth frame.level table (arrays values.old feeds.old args.old) seen.old }
    ensures { Stepped (ground_of ground.now) (clock_of times.now) (stream ground.now.declared.text.now c) frame.depth frame.level table frame.turns (arrays values.old feeds.old args.old) (arrays values.new feeds.new args.new) seen.old seen.new result }
{
    let mut given = [0; sets::MOST];
    let h = heads::head(&ground.declared, c, true, DEPTH, false, &mut given, args);
    let cursor = h.cursor;
    let what = h.what;
    match what {
        heads::What::Ends => Played {
            cursor,
            failed: false,
            place: 0,
            table,
            ends: true,
        },
        heads::What::Vector(place) => {
            let failed = vectors(
                ground.declared.text,
                &given,
                values,
                feeds,
                frame.level,
                ground.signals,
                table,
                place,
                1,
                times,
                seen,
                rows_of(frame.depth),
            );
            Played {
                cursor,
                failed,
                place,
                table,
                ends: false,
            }
        }
        heads::What::Assigns => {
            pins::put(
                ground.declared.text,
                &given,
                values,
                feeds,
                frame.level,
                ground.signals,
            );
            gone(cursor, table)
        }
        heads::What::Chooses(k) => gone(cursor, k),
        heads::What::Loops(n) => {
            let r = turns(
                ground, cursor, times, frame, n, table, values, feeds, args, seen,
            );
            let behind = r.cursor;
            on_to(behind, r)
        }
        heads::What::Shifts => shift(
            ground, cursor, times, frame, table, values, feeds, args, seen,
        ),
        heads::What::Uses(i, t) => {
            pins::supply(&given, args, feeds, frame.level + 1);
            let r = enter(ground, times, frame, i, t, table, values, feeds, args, seen);
            on_to(cursor, r)
        }
    }
}

// Statements from the cursor on, up to their `}`.
#[cycle(enter_statement_statements_turns)]
fn statements<'a>(
    ground: &'a Ground<'a>,
    c: Cursor,
    times: &'a Times<'a>,
    frame: Frame,
    table: usize,
    values: &mut [u8],
    feeds: &mut [usize],
    args: &mut [usize],
    seen: &mut Seen,
) -> Played
    requires { (alive c ≡ true) × Stood (ground_of ground.now) (clock_of times.now) (stream ground.now.declared.text.now c) frame.depth frame.level table (arrays values.old feeds.old args.old) seen.old }
    ensures { Promised (ground_of ground.now) (clock_of times.now) (stream ground.now.declared.text.now c) frame.depth frame.level table frame.turns (arrays values.old feeds.old args.old) (arrays values.new feeds.new args.new) seen.old seen.new result }
{
    let mut cursor = c;
    let mut chosen = table;
    loop {
        let r = statement(
            ground, cursor, times, frame, chosen, values, feeds, args, seen,
        );
        if r.failed | r.ends {
            return r;
        }
        cursor = r.cursor;
        chosen = r.table;
    }
}

// ---- the run

// The listed pattern of number k, from its own first byte. It starts with no cycle before it, no table and all signals unassigned.
fn pattern<'a>(
    ground: &'a Ground<'a>,
    list: &'a [usize],
    times: &'a Times<'a>,
    patterns: usize,
    k: usize,
    values: &mut [u8],
    feeds: &mut [usize],
    args: &mut [usize],
    seen: &mut Seen,
) -> Played
    requires { SomeListed (ground_of ground.now) (clock_of times.now) list.now patterns k (arrays values.old feeds.old args.old) seen.old }
    ensures { PlaysListed (ground_of ground.now) (clock_of times.now) list.now patterns k (arrays values.new feeds.new args.new) seen.new result }
{
    let names = &ground.declared.book[measures::PATTERNS * 2..];
    let i = words::find(
        ground.declared.text,
        words::name_bytes(ground.declared.text, list, k),
        names,
        patterns,
    );
    let c = words::cursor_at(
        ground.declared.text,
        measures::start_at(ground.declared.book, measures::PATTERNS + i),
    );
    let frame = Frame {
        turns: 0,
        depth: DEPTH,
        level: 0,
    };
    pins::leave(values, 0);
    forget(seen, 0);
    statements(
        ground,
        c,
        times,
        frame,
        pins::NONE,
        values,
        feeds,
        args,
        seen,
    )
}

// The listed patterns in order: where the V of the later cycle of the first pair of neighbouring cycles that is not in order stands.
pub fn first_failing_pair<'a>(
    ground: &'a Ground<'a>,
    list: &'a [usize],
    listed: usize,
    patterns: usize,
    times: &'a Times<'a>,
) -> Option<usize>
    requires sized { Fitted (clock_of times.now) }
    requires spans { (h : SomeRunOn (ground_of ground.now) list.now listed patterns) × Timed h.read.tables (clock_of times.now) }
    ensures { (p : Parts) (d : Read) (run : Body) → RunsOn (ground_of ground.now) list.now listed patterns p d run → Timed d.tables (clock_of times.now) → Decides d run result }
{
    let mut values = [0u8; pins::VALUES];
    let mut feeds = [0usize; pins::FEEDS];
    let mut args = [0usize; measures::ROW];
    let mut seen = Seen {
        pins: [0u8; ROWS * sets::MOST],
        marks: [0usize; ROWS * NUMBERS],
    };
    for k in 0..listed {
        let r = pattern(
            ground,
            list,
            times,
            patterns,
            k,
            &mut values,
            &mut feeds,
            &mut args,
            &mut seen,
        );
        if r.failed {
            return Some(r.place);
        }
    }
    None
}
