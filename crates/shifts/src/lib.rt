// A Shift's V, turn by turn, from the turn that has the cycle looked for on.
#![tactic(auto)]

ghost use Rattle.std.specs.Prelude.{◌≡◌, true, ◌<◌, ◌≤◌, length};
ghost use Rattle.meaning.specs.Bounds.{signals_most};
ghost use Rattle.pins.specs.Shown.{Roomy, Others};
ghost use Rattle.rows.specs.Went.{Going};
ghost use Rattle.shifts.specs.Shifts.{Shifting};

use rows::Walk;

// The turns of a Shift of t, those before the cycle looked for by their characters alone.
pub fn turns(
    text: &[u8],
    given: &[u8],
    values: &mut [u8],
    feeds: &mut [usize],
    level: usize,
    signals: usize,
    table: usize,
    t: usize,
    walk: Walk,
    buffer: &mut [u8],
) -> Walk
    requires { Roomy signals values.old feeds.old level × (length given.now ≡ signals_most) × Going signals walk buffer.old × (walk.pass < t) × (walk.walking ≡ true → 1 ≤ walk.budget) }
    ensures { Others level values.old values.new feeds.old feeds.new × Shifting text.now given.now signals level table t values.old values.new feeds.old feeds.new walk result buffer.old buffer.new }
{
    pins::skip(text, given, values, feeds, level, signals, walk.pass);
    let mut w = rows::past(walk, walk.pass);
    for _ in walk.pass..t {
        pins::put(text, given, values, feeds, level, signals);
        w = rows::cycle(values, signals, table, w, buffer);
        if rows::over(w) {
            return w;
        }
    }
    w
}
