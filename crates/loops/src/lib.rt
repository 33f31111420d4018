// What the statements in a Loop measure, read where the text holds them: a window needs it to know in which turn its cycle is.
#![tactic(auto)]

ghost use Rattle.std.specs.Prelude.{◌≡◌, true, false, ◌*◌, length};
ghost use Rattle.words.specs.Cursor.{alive, stream};
ghost use Rattle.meaning.specs.Bounds.{signals_most};
ghost use Rattle.loops.specs.Held.{tables_of, Stood, Promised, Stepped};

use measures::{DEPTH, Measure};
use plays::Ground;
use words::Cursor;

// The measure of what was read, and the cursor behind it; was it the `}`?
#[derive(Clone, Copy)]
pub struct Measured {
    pub cursor: Cursor,
    pub measure: Measure,
    pub ends: bool,
}

// A statement that measures so much, up to the cursor.
fn counted(cursor: Cursor, measure: Measure) -> Measured
    ensures { result ≡ record { cursor = cursor; measure = measure; ends = false } }
{
    Measured {
        cursor,
        measure,
        ends: false,
    }
}

// The statement at the cursor, or the `}` there.
#[cycle(measure_statement)]
fn statement<'a>(ground: &'a Ground<'a>, c: Cursor, depth: usize, args: &mut [usize]) -> Measured
    requires { (alive c ≡ true) × (length args.old ≡ signals_most * 2) × Stood (tables_of ground.now) (stream ground.now.declared.text.now c) depth }
    ensures { (length args.new ≡ signals_most * 2) × Stepped (tables_of ground.now) (stream ground.now.declared.text.now c) depth result }
{
    let mut given = [0; sets::MOST];
    let h = heads::head(&ground.declared, c, true, DEPTH, false, &mut given, args);
    let cursor = h.cursor;
    let what = h.what;
    match what {
        heads::What::Ends => Measured {
            cursor,
            measure: measures::nothing(),
            ends: true,
        },
        heads::What::Vector(place) => counted(cursor, measures::vector()),
        heads::What::Assigns => counted(cursor, measures::setting()),
        heads::What::Chooses(k) => counted(cursor, measures::setting()),
        heads::What::Loops(n) => {
            let r = measure(ground, cursor, depth - 1, args);
            let behind = r.cursor;
            Measured {
                cursor: behind,
                measure: measures::looped(n, r.measure),
                ends: false,
            }
        }
        heads::What::Shifts => counted(cursor, measures::shift()),
        heads::What::Uses(i, t) => counted(
            cursor,
            measures::used(t, measures::measure_at(ground.declared.book, i)),
        ),
    }
}

// Statements from the cursor on, up to their `}`.
#[cycle(measure_statement)]
pub fn measure<'a>(ground: &'a Ground<'a>, c: Cursor, depth: usize, args: &mut [usize]) -> Measured
    requires { (alive c ≡ true) × (length args.old ≡ signals_most * 2) × Stood (tables_of ground.now) (stream ground.now.declared.text.now c) depth }
    ensures { (length args.new ≡ signals_most * 2) × Promised (tables_of ground.now) (stream ground.now.declared.text.now c) depth result }
{
    let mut cursor = c;
    let mut sum = measures::nothing();
    loop {
        let r = statement(ground, cursor, depth, args);
        if r.ends {
            let behind = r.cursor;
            return Measured {
                cursor: behind,
                measure: sum,
                ends: true,
            };
        }
        cursor = r.cursor;
        sum = measures::plus(sum, r.measure);
    }
}
