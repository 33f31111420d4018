// Bytes in a buffer, said again behind themselves.
#![tactic(auto)]

ghost use Rattle.std.specs.Prelude.{◌+◌, ◌<◌, ◌≤◌, length};
ghost use Rattle.repeats.specs.Copied.{Copies, Extends};

// Bytes, to a place behind them.
pub fn copy(buffer: &mut [u8], from: usize, to: usize, count: usize)
    requires { (from + count ≤ to) × (to + count ≤ length buffer.old) }
    ensures { Copies buffer.old from to count buffer.new }
{
    // One by one: the library's copy becomes memmove here, which the archive for C does not want (include/stil.h).
    for i in 0..count {
        buffer[to + i] = buffer[from + i];
    }
}

// The last `step` bytes before a place, again and again behind it. All that is there already is copied at once, so that the length of a run doubles.
pub fn extend(buffer: &mut [u8], at: usize, step: usize, count: usize)
    requires { (0 < step) × (step ≤ at) × (at + count ≤ length buffer.old) }
    ensures { Extends buffer.old at step count buffer.new }
{
    let mut done = 0;
    while done < count {
        let run = (step + done).min(count - done);
        copy(buffer, at - step, at + done, run);
        done += run;
    }
}
