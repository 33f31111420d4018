// The walk to a window's first cycle, in single steps under a budget, and from there the rows: one by one, or copied from the turn of a Loop before. A step
// goes past a statement whose cycles all lie before the cycle, or into the one that has it, and spends what that costs; a statement that is passed is played
// once, as a check without second turns plays it, so that pins and table are what its cycles would have left.
#![tactic(auto)]

ghost use Rattle.std.specs.Prelude.{◌≡◌, true, false, ◌-◌, ◌<◌, ◌≤◌, length};
ghost use Rattle.tokens.specs.Tokens.{toks};
ghost use Rattle.words.specs.Cursor.{alive, stream};
ghost use Rattle.plays.specs.Plays.{ground_of, arrays};
ghost use Rattle.plays.specs.declared.Frame.{Frame};
ghost use Rattle.steps.specs.Walks.{once_of, Alike, Copiable, Repeated, Stood, Promised, Stepped, LoopStood, Looped, TurnStood, Turned, ShiftStood, Shifted, UseStood, Entered, IntoStood, WentInto};

use measures::DEPTH;
use plays::{Frame, Ground};
use rows::Walk;
use words::Cursor;

// The cursor behind what was gone through, the table in force, and how far the window is; and was it the `}`?
#[derive(Clone, Copy)]
pub struct Walked {
    pub cursor: Cursor,
    pub table: usize,
    pub walk: Walk,
    pub ends: bool,
}

// A statement that is passed is played once: no second turn is open.
fn once(frame: Frame) -> Frame
    ensures { result ≡ once_of frame }
{
    Frame {
        seconds: 0,
        turns: frame.turns,
        depth: frame.depth,
        level: frame.level,
    }
}

// ---- one statement

// Shift { V { .. } }: passed with all its turns, or entered in the turn that has the cycle.
fn shift<'a>(
    ground: &'a Ground<'a>,
    c: Cursor,
    frame: Frame,
    table: usize,
    walk: Walk,
    values: &mut [u8],
    feeds: &mut [usize],
    args: &mut [usize],
    buffer: &mut [u8],
) -> Walked
    requires { (alive c ≡ true) × ShiftStood (ground_of ground.now) (stream ground.now.declared.text.now c) frame.depth frame.level table frame.turns (arrays values.old feeds.old args.old) walk buffer.old }
    ensures { Shifted (ground_of ground.now) (stream ground.now.declared.text.now c) frame.depth frame.level table frame.turns (arrays values.old feeds.old args.old) (arrays values.new feeds.new args.new) walk buffer.old buffer.new result }
{
    let w = rows::spend(walk, 2);
    if frame.turns <= w.pass {
        let r = plays::shift(ground, c, once(frame), table, values, feeds, args);
        let behind = r.cursor;
        return Walked {
            cursor: behind,
            table,
            walk: rows::past(w, frame.turns),
            ends: false,
        };
    }
    let mut given = [0; sets::MOST];
    let h = heads::head(&ground.declared, c, true, DEPTH, false, &mut given, args);
    let shown = shifts::turns(
        ground.declared.text,
        &given,
        values,
        feeds,
        frame.level,
        ground.signals,
        table,
        frame.turns,
        w,
        buffer,
    );
    let behind = h.cursor;
    let cursor = words::due(ground.declared.text, behind, b"}");
    Walked {
        cursor,
        table,
        walk: shown,
        ends: false,
    }
}

// ---- a Loop

// The pins before a turn.
fn keep(values: &[u8], kept: &mut [u8], signals: usize)
    requires { (signals ≤ length values.now) × (signals ≤ length kept.old) }
    ensures { (length kept.new ≡ length kept.old) × Alike signals kept.new values.now }
{
    kept[..signals].copy_from_slice(&values[..signals]);
}

// Are the pins behind it the same?
fn same_pins(values: &[u8], kept: &[u8], signals: usize) -> bool
    requires { (signals ≤ length values.now) × (signals ≤ length kept.now) }
    ensures { result ≡ true → Alike signals values.now kept.now }
{
    values[..signals] == kept[..signals]
}

// So many turns behind one that leaves what it found: the rows of that turn, those from the row `shown` on, again. Where it has none nothing is to be done.
fn repeated(w: Walk, shown: usize, turns: usize, signals: usize, buffer: &mut [u8]) -> Walk
    requires { (shown ≤ w.row) × (shown < w.row → Copiable signals (w.row - shown) turns w buffer.old) }
    ensures { Repeated signals shown turns w result buffer.old buffer.new }
{
    let cycles = w.row - shown;
    if cycles == 0 {
        return w;
    }
    rows::again(w, cycles, turns, signals, buffer)
}

// Turns of a Loop, of which the first has the cycle looked for, unless that was reached before. A turn that was shown whole, and leaves the pins and the table that it
// found, is that of every turn left.
#[cycle(body_of_enter_into_reach_repeat_statement_statements_turns)]
fn turns<'a>(
    ground: &'a Ground<'a>,
    c: Cursor,
    frame: Frame,
    n: usize,
    table: usize,
    walk: Walk,
    values: &mut [u8],
    feeds: &mut [usize],
    args: &mut [usize],
    buffer: &mut [u8],
) -> Walked
    requires { (alive c ≡ true) × (0 < frame.depth) × TurnStood (ground_of ground.now) (stream ground.now.declared.text.now c) (frame.depth - 1) frame.level table frame.turns n (arrays values.old feeds.old args.old) walk buffer.old }
    ensures { Turned (ground_of ground.now) (stream ground.now.declared.text.now c) (frame.depth - 1) frame.level table frame.turns n (arrays values.old feeds.old args.old) (arrays values.new feeds.new args.new) walk buffer.old buffer.new result }
{
    let inner = Frame {
        seconds: frame.seconds,
        turns: frame.turns,
        depth: frame.depth - 1,
        level: frame.level,
    };
    let mut w = walk;
    let mut chosen = table;
    let mut cursor = c;
    for i in 0..n {
        let start = w;
        let before = chosen;
        let mut kept = [0u8; sets::MOST];
        keep(values, &mut kept, ground.signals);
        let r = statements(ground, c, inner, chosen, w, values, feeds, args, buffer);
        chosen = r.table;
        w = r.walk;
        cursor = r.cursor;
        if rows::over(w) {
            break;
        }
        let same = same_pins(values, &kept, ground.signals);
        if (start.pass == 0) & (chosen == before) & same {
            w = repeated(w, start.row, n - (i + 1), ground.signals, buffer);
            break;
        }
    }
    // the `}` of its turns is not that of the body around it
    let ends = false;
    Walked {
        cursor,
        table: chosen,
        walk: w,
        ends,
    }
}

// A Loop on the way to the cycle: passed with all its turns, or entered in the one that has the cycle. Every turn behind the first begins where the first ended.
#[cycle(body_of_enter_into_reach_repeat_statement_statements_turns)]
fn reach<'a>(
    ground: &'a Ground<'a>,
    c: Cursor,
    frame: Frame,
    n: usize,
    table: usize,
    walk: Walk,
    values: &mut [u8],
    feeds: &mut [usize],
    args: &mut [usize],
    buffer: &mut [u8],
) -> Walked
    requires { (alive c ≡ true) × (0 < n) × (0 < frame.depth) × LoopStood (ground_of ground.now) (stream ground.now.declared.text.now c) (frame.depth - 1) frame.level table frame.turns n (arrays values.old feeds.old args.old) walk buffer.old }
    ensures { Looped (ground_of ground.now) (stream ground.now.declared.text.now c) (frame.depth - 1) frame.level table frame.turns n (arrays values.old feeds.old args.old) (arrays values.new feeds.new args.new) walk buffer.old buffer.new result }
{
    let m = loops::measure(ground, c, frame.depth - 1, args);
    let measure = m.measure;
    let w = rows::spend(walk, measure.size + 1);
    let all = n * measure.cycles;
    if all <= w.pass {
        let r = plays::turns(
            ground,
            c,
            b"",
            b"",
            once(frame),
            n,
            table,
            values,
            feeds,
            args,
        );
        let behind = r.cursor;
        return Walked {
            cursor: behind,
            table: r.table,
            walk: rows::past(w, all),
            ends: false,
        };
    }
    let j = w.pass / measure.cycles;
    let x = rows::past(w, j * measure.cycles);
    let mut chosen = table;
    if 0 < j {
        let first = plays::turns(
            ground,
            c,
            b"",
            b"",
            once(frame),
            n,
            table,
            values,
            feeds,
            args,
        );
        chosen = first.table;
    }
    turns(
        ground,
        c,
        frame,
        n - j,
        chosen,
        x,
        values,
        feeds,
        args,
        buffer,
    )
}

// Loop N { .. }: measured only on the way to the cycle.
#[cycle(body_of_enter_into_reach_repeat_statement_statements_turns)]
fn repeat<'a>(
    ground: &'a Ground<'a>,
    c: Cursor,
    frame: Frame,
    n: usize,
    table: usize,
    walk: Walk,
    values: &mut [u8],
    feeds: &mut [usize],
    args: &mut [usize],
    buffer: &mut [u8],
) -> Walked
    requires { (alive c ≡ true) × (0 < n) × (0 < frame.depth) × LoopStood (ground_of ground.now) (stream ground.now.declared.text.now c) (frame.depth - 1) frame.level table frame.turns n (arrays values.old feeds.old args.old) walk buffer.old }
    ensures { Looped (ground_of ground.now) (stream ground.now.declared.text.now c) (frame.depth - 1) frame.level table frame.turns n (arrays values.old feeds.old args.old) (arrays values.new feeds.new args.new) walk buffer.old buffer.new result }
{
    if walk.walking {
        return reach(
            ground, c, frame, n, table, walk, values, feeds, args, buffer,
        );
    }
    turns(
        ground, c, frame, n, table, walk, values, feeds, args, buffer,
    )
}

// ---- a body that is used

// The body of number i, its Shift played t times, from its own first byte. A macro runs in place; from a procedure the caller's pins and table come back.
#[cycle(body_of_enter_into_reach_repeat_statement_statements_turns)]
fn into<'a>(
    ground: &'a Ground<'a>,
    frame: Frame,
    i: usize,
    t: usize,
    table: usize,
    walk: Walk,
    values: &mut [u8],
    feeds: &mut [usize],
    args: &mut [usize],
    buffer: &mut [u8],
) -> Walked
    requires { IntoStood (ground_of ground.now) i frame.depth frame.level table t (arrays values.old feeds.old args.old) walk buffer.old }
    ensures { WentInto (ground_of ground.now) i frame.depth frame.level table t (arrays values.old feeds.old args.old) (arrays values.new feeds.new args.new) walk buffer.old buffer.new result }
{
    let inner = Frame {
        seconds: frame.seconds,
        turns: t,
        depth: frame.depth - 1,
        level: frame.level + 1,
    };
    let start = measures::start_at(ground.declared.book, i);
    let body = &ground.declared.text[start..];
    if i < measures::PROCEDURES {
        return body_of(
            ground, body, inner, table, walk, values, feeds, args, buffer,
        );
    }
    pins::leave(values, inner.level);
    let r = body_of(
        ground, body, inner, table, walk, values, feeds, args, buffer,
    );
    pins::come_back(values, inner.level);
    let cursor = r.cursor;
    let walk = r.walk;
    Walked {
        cursor,
        table,
        walk,
        ends: false,
    }
}

// Macro or Call: passed, or entered.
#[cycle(body_of_enter_into_reach_repeat_statement_statements_turns)]
fn enter<'a>(
    ground: &'a Ground<'a>,
    frame: Frame,
    i: usize,
    t: usize,
    table: usize,
    walk: Walk,
    values: &mut [u8],
    feeds: &mut [usize],
    args: &mut [usize],
    buffer: &mut [u8],
) -> Walked
    requires { UseStood (ground_of ground.now) i frame.depth frame.level table t (arrays values.old feeds.old args.old) walk buffer.old }
    ensures { Entered (ground_of ground.now) i frame.depth frame.level table t (arrays values.old feeds.old args.old) (arrays values.new feeds.new args.new) walk buffer.old buffer.new result }
{
    let m = measures::measure_at(ground.declared.book, i);
    let w = rows::spend(walk, m.size + 1);
    let cycles = m.cycles + t * m.shifts;
    if w.pass < cycles {
        return into(ground, frame, i, t, table, w, values, feeds, args, buffer);
    }
    let r = plays::enter(
        ground,
        b"",
        b"",
        once(frame),
        i,
        t,
        table,
        values,
        feeds,
        args,
    );
    let cursor = r.cursor;
    Walked {
        cursor,
        table: r.table,
        walk: rows::past(w, cycles),
        ends: false,
    }
}

// A statement that was gone through, up to the cursor.
fn gone(cursor: Cursor, table: usize, walk: Walk) -> Walked
    ensures { result ≡ record { cursor = cursor; table = table; walk = walk; ends = false } }
{
    Walked {
        cursor,
        table,
        walk,
        ends: false,
    }
}

// The statement at the cursor, or the `}` there.
#[cycle(body_of_enter_into_reach_repeat_statement_statements_turns)]
fn statement<'a>(
    ground: &'a Ground<'a>,
    c: Cursor,
    frame: Frame,
    table: usize,
    walk: Walk,
    values: &mut [u8],
    feeds: &mut [usize],
    args: &mut [usize],
    buffer: &mut [u8],
) -> Walked
    requires { (alive c ≡ true) × Stood (ground_of ground.now) (stream ground.now.declared.text.now c) frame.depth frame.level table frame.turns (arrays values.old feeds.old args.old) walk buffer.old }
    ensures { Stepped (ground_of ground.now) (stream ground.now.declared.text.now c) frame.depth frame.level table frame.turns (arrays values.old feeds.old args.old) (arrays values.new feeds.new args.new) walk buffer.old buffer.new result }
{
    let mut given = [0; sets::MOST];
    let h = heads::head(&ground.declared, c, true, DEPTH, false, &mut given, args);
    let cursor = h.cursor;
    let what = h.what;
    match what {
        heads::What::Ends => Walked {
            cursor,
            table,
            walk,
            ends: true,
        },
        heads::What::Vector(place) => {
            pins::put(
                ground.declared.text,
                &given,
                values,
                feeds,
                frame.level,
                ground.signals,
            );
            gone(
                cursor,
                table,
                rows::cycle(values, ground.signals, table, walk, buffer),
            )
        }
        heads::What::Assigns => {
            pins::put(
                ground.declared.text,
                &given,
                values,
                feeds,
                frame.level,
                ground.signals,
            );
            gone(cursor, table, rows::spend(walk, 1))
        }
        heads::What::Chooses(k) => gone(cursor, k, rows::spend(walk, 1)),
        heads::What::Loops(n) => repeat(
            ground, cursor, frame, n, table, walk, values, feeds, args, buffer,
        ),
        heads::What::Shifts => shift(
            ground, cursor, frame, table, walk, values, feeds, args, buffer,
        ),
        heads::What::Uses(i, t) => {
            pins::supply(&given, args, feeds, frame.level + 1);
            let r = enter(
                ground, frame, i, t, table, walk, values, feeds, args, buffer,
            );
            gone(cursor, r.table, r.walk)
        }
    }
}

// ---- statements

// Statements from the cursor on, up to their `}`, or until nothing is left to do.
#[cycle(body_of_enter_into_reach_repeat_statement_statements_turns)]
fn statements<'a>(
    ground: &'a Ground<'a>,
    c: Cursor,
    frame: Frame,
    table: usize,
    walk: Walk,
    values: &mut [u8],
    feeds: &mut [usize],
    args: &mut [usize],
    buffer: &mut [u8],
) -> Walked
    requires { (alive c ≡ true) × Stood (ground_of ground.now) (stream ground.now.declared.text.now c) frame.depth frame.level table frame.turns (arrays values.old feeds.old args.old) walk buffer.old }
    ensures { Promised (ground_of ground.now) (stream ground.now.declared.text.now c) frame.depth frame.level table frame.turns (arrays values.old feeds.old args.old) (arrays values.new feeds.new args.new) walk buffer.old buffer.new result }
{
    let mut cursor = c;
    let mut chosen = table;
    let mut w = walk;
    loop {
        let r = statement(
            ground, cursor, frame, chosen, w, values, feeds, args, buffer,
        );
        w = r.walk;
        if r.ends | rows::over(w) {
            return r;
        }
        cursor = r.cursor;
        chosen = r.table;
    }
}

// The statements of a body, which is the part of the text that begins with it.
#[cycle(body_of_enter_into_reach_repeat_statement_statements_turns)]
pub fn body_of<'a>(
    ground: &'a Ground<'a>,
    body: &'a [u8],
    frame: Frame,
    table: usize,
    walk: Walk,
    values: &mut [u8],
    feeds: &mut [usize],
    args: &mut [usize],
    buffer: &mut [u8],
) -> Walked
    requires { (length body.now ≤ length ground.now.declared.text.now) × Stood (ground_of ground.now) (toks ground.now.declared.text.now (length ground.now.declared.text.now - length body.now)) frame.depth frame.level table frame.turns (arrays values.old feeds.old args.old) walk buffer.old }
    ensures { Promised (ground_of ground.now) (toks ground.now.declared.text.now (length ground.now.declared.text.now - length body.now)) frame.depth frame.level table frame.turns (arrays values.old feeds.old args.old) (arrays values.new feeds.new args.new) walk buffer.old buffer.new result }
{
    let c = words::cursor_at(
        ground.declared.text,
        ground.declared.text.len() - body.len(),
    );
    statements(ground, c, frame, table, walk, values, feeds, args, buffer)
}
