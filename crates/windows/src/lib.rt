// A window over the run: the listed patterns in order, up to its last row.
#![tactic(auto)]

ghost use Rattle.meaning.specs.Meaning.{Meaning};
ghost use Rattle.meaning.specs.Document.{Read};
ghost use Rattle.texts.specs.declared.Parts.{Parts};
ghost use Rattle.plays.specs.Plays.{ground_of, arrays};
ghost use Rattle.windows.specs.Run.{SomeListed, WentListed, SomeTextOn, AcceptsOn, Windows};

use measures::DEPTH;
use plays::{Frame, Ground};
use rows::Walk;

// The budget of a walk: so many times the size of the run.
const TIMES: usize = 10;

// The listed pattern of number k: passed, or entered with no table and all signals unassigned.
fn pattern<'a>(
    ground: &'a Ground<'a>,
    list: &'a [usize],
    patterns: usize,
    k: usize,
    walk: Walk,
    values: &mut [u8],
    feeds: &mut [usize],
    args: &mut [usize],
    buffer: &mut [u8],
) -> Walk
    requires { SomeListed (ground_of ground.now) list.now patterns k (arrays values.old feeds.old args.old) walk buffer.old }
    ensures { WentListed (ground_of ground.now) list.now patterns k (arrays values.new feeds.new args.new) walk result buffer.old buffer.new }
{
    let names = &ground.declared.book[measures::PATTERNS * 2..];
    let i = words::find(
        ground.declared.text,
        words::name_bytes(ground.declared.text, list, k),
        names,
        patterns,
    );
    let m = measures::measure_at(ground.declared.book, measures::PATTERNS + i);
    let w = rows::spend(walk, m.size + 1);
    if m.cycles <= w.pass {
        return rows::past(w, m.cycles);
    }
    let start = measures::start_at(ground.declared.book, measures::PATTERNS + i);
    let body = &ground.declared.text[start..];
    let frame = Frame {
        seconds: 0,
        turns: 0,
        depth: DEPTH,
        level: 0,
    };
    pins::leave(values, 0);
    let r = steps::body_of(
        ground,
        body,
        frame,
        pins::NONE,
        w,
        values,
        feeds,
        args,
        buffer,
    );
    r.walk
}

// The rows that are due from the cycle `first` on, with a mark for unassigned pins, to the front of the buffer; and the visits there.
pub fn window<'a>(
    ground: &'a Ground<'a>,
    list: &'a [usize],
    listed: usize,
    patterns: usize,
    size: usize,
    first: usize,
    due: usize,
    mark: u8,
    buffer: &mut [u8],
) -> usize
    requires { SomeTextOn (ground_of ground.now) list.now listed patterns size first due buffer.old }
    ensures { (p : Parts) (d : Read) (m : Meaning) → AcceptsOn (ground_of ground.now) list.now listed patterns size first due buffer.old p d m → Windows ground.now.signals first due mark buffer.old m result buffer.new }
{
    let mut values = [0u8; pins::VALUES];
    let mut feeds = [0usize; pins::FEEDS];
    let mut args = [0usize; measures::ROW];
    let budget = size * TIMES;
    let mut w = Walk {
        pass: first,
        row: 0,
        show: due,
        budget,
        walking: true,
        mark,
    };
    for k in 0..listed {
        w = pattern(
            ground,
            list,
            patterns,
            k,
            w,
            &mut values,
            &mut feeds,
            &mut args,
            buffer,
        );
        if rows::over(w) {
            break;
        }
    }
    budget - w.budget
}
