// How far a window is, and its rows in the lent buffer.
#![tactic(auto)]

ghost use Rattle.std.specs.Prelude.{◌≡◌, true, false, [], ◌∷◌, ◌++◌, ◌+◌, ◌*◌, ◌<◌, ◌≤◌, length, drop};
ghost use Rattle.meaning.specs.Bounds.{signals_most, cycles_most};
ghost use Rattle.meaning.specs.Run.{Cycle};
ghost use Rattle.meaning.specs.Services.{row as row_of, row_width};
ghost use Rattle.pins.specs.Shown.{values_length};
ghost use Rattle.rows.specs.Went.{over as is_over, Going, spent, past as passed, Went, Cycled};
ghost use Rattle.rows.specs.Again.{Again};

// How far a window is: cycles still to pass; rows written, and rows still to show; what may still be spent on the way; is the cycle that it begins with
// still to be reached? And the mark that stands in its rows for an unassigned pin.
#[derive(Clone, Copy)]
pub struct Walk {
    pub pass: usize,
    pub row: usize,
    pub show: usize,
    pub budget: usize,
    pub walking: bool,
    pub mark: u8,
}

// Is nothing left to do?
pub fn over(w: Walk) -> bool
    ensures { result ≡ is_over w }
{
    !w.walking & (w.show == 0)
}

// What a step costs is spent, on the way to the cycle.
pub fn spend(w: Walk, cost: usize) -> Walk
    requires { w.walking ≡ true → cost ≤ w.budget }
    ensures { result ≡ spent w cost }
{
    if w.walking {
        return Walk {
            budget: w.budget - cost,
            ..w
        };
    }
    w
}

// So many cycles are passed.
pub fn past(w: Walk, cycles: usize) -> Walk
    requires { cycles ≤ w.pass }
    ensures { result ≡ passed w cycles }
{
    Walk {
        pass: w.pass - cycles,
        ..w
    }
}

// A row at the front: each signal's character, the mark where it is unassigned, the table's number as a digit, LF.
fn put_row(part: &mut [u8], values: &[u8], signals: usize, table: usize, mark: u8)
    requires { (signals ≤ signals_most) × (length values.now ≡ values_length) × (row_width signals ≤ length part.old) }
    ensures { ((c : Cycle) → Cycled signals values.now table c → part.new ≡ row_of mark c ++ drop (row_width signals) part.old) × (length part.new ≡ length part.old) }
{
    for s in 0..signals {
        let b = values[s];
        part[s] = if b == 0 { mark } else { b };
    }
    let digit = if table < timing::TABLES {
        b'0' + table as u8
    } else {
        b'0'
    };
    part[signals] = digit;
    part[signals + 1] = b'\n';
}

// The cycle of a V whose pins and table are in force: it is passed, or it is the one looked for or one behind it, and shown where rows are still to be shown.
pub fn cycle(values: &[u8], signals: usize, table: usize, w: Walk, buffer: &mut [u8]) -> Walk
    requires { (signals ≤ signals_most) × (length values.now ≡ values_length) × Going signals w buffer.old × (w.walking ≡ true → 1 ≤ w.budget) }
    ensures { (c : Cycle) → Cycled signals values.now table c → Went signals (c ∷ []) 1 w result buffer.old buffer.new }
{
    let x = spend(w, 1);
    if 0 < w.pass {
        return past(x, 1);
    }
    if w.show == 0 {
        return Walk {
            pass: 0,
            show: 0,
            budget: x.budget,
            walking: false,
            ..w
        };
    }
    let part = &mut buffer[w.row * (signals + 2)..];
    put_row(part, values, signals, table, w.mark);
    Walk {
        pass: 0,
        row: w.row + 1,
        show: w.show - 1,
        budget: x.budget,
        walking: false,
        ..w
    }
}

// ---- rows that repeat

// So many turns of a Loop behind one whose rows, one for each of its cycles, are the last ones: each gives those rows again.
pub fn again(w: Walk, cycles: usize, turns: usize, signals: usize, buffer: &mut [u8]) -> Walk
    requires { (w.walking ≡ false) × (w.pass ≡ 0) × (0 < cycles) × (cycles ≤ w.row) × (turns * cycles ≤ cycles_most) × ((w.row + w.show) * row_width signals ≤ length buffer.old) }
    ensures { Again signals cycles turns w result buffer.old buffer.new }
{
    let width = signals + 2;
    let count = (turns * cycles).min(w.show);
    repeats::extend(buffer, w.row * width, cycles * width, count * width);
    Walk {
        pass: 0,
        row: w.row + count,
        show: w.show - count,
        walking: false,
        ..w
    }
}
