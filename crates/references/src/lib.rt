// References: how many cycles of a pattern come before each X in it, at its first execution, read where the text holds the pattern's statements.
#![tactic(auto)]

ghost use Rattle.std.specs.Prelude.{◌≡◌, true, false, ◌+◌, ◌*◌, ◌-◌, ◌≤◌, length};
ghost use Rattle.words.specs.Cursor.{alive, stream};
ghost use Rattle.words.specs.Values.{value_of};
ghost use Rattle.meaning.specs.Bounds.{signals_most, cycles_most};
ghost use Rattle.labels.specs.Table.{Held};
ghost use Rattle.references.specs.References.{name_at, past_by};
ghost use Rattle.references.specs.Filled.{noted, Filled, tables_of, Stood, Promised, Stepped};

use heads::Declared;
use measures::DEPTH;
use words::Cursor;

// The cursor behind what was read, and how many cycles come before it; was it the `}`? (Both hold behind the `}` too, so that an Option would be no plainer.)
#[derive(Clone, Copy)]
pub struct Passed {
    pub cursor: Cursor,
    pub cycles: usize,
    pub ends: bool,
}

// How many cycles come before the reference w in the pattern of this name, of which the table was filled, if it is known there.
pub fn past(
    text: &[u8],
    name: &[u8],
    w: &[u8],
    labels: &[u16],
    chains: &[u16],
    nexts: &[u16],
    count: usize,
    table: &[usize],
) -> Option<usize>
    requires { Held text.now labels.now chains.now nexts.now count × (count ≤ length table.now) }
    ensures { value_of result ≡ past_by name.now (noted text.now labels.now count table.now) w.now }
{
    if words::equal(name, w) {
        return Some(0);
    }
    let k = labels::find(text, w, labels, chains, nexts, count);
    if count <= k {
        return None;
    }
    table[k].checked_sub(1)
}

// `X NAME;` at the cursor, behind so many cycles: its place in the table, if nothing stands there yet.
fn note(
    text: &[u8],
    c: Cursor,
    labels: &[u16],
    chains: &[u16],
    nexts: &[u16],
    count: usize,
    cycles: usize,
    table: &mut [usize],
)
    requires { (alive c ≡ true) × Held text.now labels.now chains.now nexts.now count × (count ≤ length table.old) × (cycles ≤ cycles_most) }
    ensures { Filled text.now labels.now count table.old (name_at cycles (stream text.now c)) table.new }
{
    if !words::is(text, c, b"X") {
        return;
    }
    let n = words::step(text, c);
    let at = n.at;
    let end = n.end;
    if end <= at {
        return;
    }
    let k = labels::find(
        text,
        words::bytes_of(text, at, end),
        labels,
        chains,
        nexts,
        count,
    );
    if count <= k {
        return;
    }
    if table[k] != 0 {
        return;
    }
    table[k] = cycles + 1;
}

// A statement was read, and statements follow.
fn onward(cursor: Cursor, cycles: usize) -> Passed
    ensures { result ≡ record { cursor = cursor; cycles = cycles; ends = false } }
{
    Passed {
        cursor,
        cycles,
        ends: false,
    }
}

// Behind all turns of a Loop, whose first turn goes from one number of cycles to another.
fn turned(turns: usize, start: usize, stop: usize) -> usize
    requires { (start ≤ stop) × (start + turns * (stop - start) ≤ cycles_most) }
    ensures { result ≡ start + turns * (stop - start) }
{
    start + turns * (stop - start)
}

// The statement at the cursor, or the `}` there.
#[cycle(fill_statement)]
fn statement<'a>(
    declared: &'a Declared<'a>,
    c: Cursor,
    labels: &'a [u16],
    chains: &'a [u16],
    nexts: &'a [u16],
    count: usize,
    depth: usize,
    cycles: usize,
    args: &mut [usize],
    table: &mut [usize],
) -> Passed
    requires { (alive c ≡ true) × (length args.old ≡ signals_most * 2) × Held declared.now.text.now labels.now chains.now nexts.now count × (count ≤ length table.old) × Stood (tables_of declared.now labels.now count) (stream declared.now.text.now c) depth cycles }
    ensures { (length args.new ≡ signals_most * 2) × (length table.new ≡ length table.old) × Stepped (tables_of declared.now labels.now count) (stream declared.now.text.now c) depth cycles table.old result table.new }
{
    let mut given = [0; sets::MOST];
    let h = heads::head(declared, c, true, DEPTH, false, &mut given, args);
    let cursor = h.cursor;
    let what = h.what;
    match what {
        heads::What::Ends => Passed {
            cursor,
            cycles,
            ends: true,
        },
        heads::What::Vector(place) => onward(cursor, cycles + 1),
        heads::What::Assigns => {
            note(
                declared.text,
                c,
                labels,
                chains,
                nexts,
                count,
                cycles,
                table,
            );
            onward(cursor, cycles)
        }
        heads::What::Chooses(k) => onward(cursor, cycles),
        heads::What::Loops(n) => {
            let r = fill(
                declared,
                cursor,
                labels,
                chains,
                nexts,
                count,
                depth - 1,
                cycles,
                args,
                table,
            );
            let behind = r.cursor;
            onward(behind, turned(n, cycles, r.cycles))
        }
        heads::What::Shifts => onward(cursor, cycles),
        heads::What::Uses(i, t) => {
            let m = measures::used(t, measures::measure_at(declared.book, i));
            onward(cursor, cycles + m.cycles)
        }
    }
}

// Statements from the cursor on, up to their `}`, where so many cycles come before them: each X's name has its place in the table, if nothing stands there yet.
#[cycle(fill_statement)]
pub fn fill<'a>(
    declared: &'a Declared<'a>,
    c: Cursor,
    labels: &'a [u16],
    chains: &'a [u16],
    nexts: &'a [u16],
    count: usize,
    depth: usize,
    cycles: usize,
    args: &mut [usize],
    table: &mut [usize],
) -> Passed
    requires { (alive c ≡ true) × (length args.old ≡ signals_most * 2) × Held declared.now.text.now labels.now chains.now nexts.now count × (count ≤ length table.old) × Stood (tables_of declared.now labels.now count) (stream declared.now.text.now c) depth cycles }
    ensures { (length args.new ≡ signals_most * 2) × (length table.new ≡ length table.old) × Promised (tables_of declared.now labels.now count) (stream declared.now.text.now c) depth cycles table.old result table.new }
{
    let mut cursor = c;
    let mut passed = cycles;
    loop {
        let r = statement(
            declared, cursor, labels, chains, nexts, count, depth, passed, args, table,
        );
        if r.ends {
            return r;
        }
        cursor = r.cursor;
        passed = r.cycles;
    }
}
