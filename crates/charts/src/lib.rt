// Waveforms by the list, of an accepted text: single calls made in order, each on the room that those before it left. The text isn't judged again: for each
// waveform its declarations are read once more, up to where its entry stands.
#![tactic(auto)]

ghost use Rattle.std.specs.Prelude.{◌≡◌, List, ◌∷◌, ◌++◌, ◌*◌, ◌≤◌, ◌<◌, length, take, drop, leb, not};
ghost use Rattle.meaning.specs.Timing.{Event, uncounted};
ghost use Rattle.meaning.specs.Services.{bits_of, events_out, waveform};
ghost use Rattle.meaning.specs.Charts.{chart_most, Asked, asked_in, called, chart};
ghost use Rattle.waves.specs.Waves.{EntryAt};
ghost use Rattle.charts.specs.Serving.{told_all, Accepted, Sights, Outlines, Serves};

use timing::Watch;
use words::{NO_ROOM, START};

// Waveforms of a list at most, and the numbers that ask for one: a table, a signal and a character.
pub const MOST: usize = 64;

const ASK: usize = 3;

// The largest number of 64 bits.
const LAST: u64 = 18_446_744_073_709_551_615;

// A character's greatest number.
const CHAR: u64 = 255;

// Refusal, at place 0 as all here.
pub const NO_SUCH: u8 = 18;

// The number of the refusal that stopped them, if one did; how many were served, and their events.
#[derive(Clone, Copy)]
pub struct Served {
    pub stopped: Option<u8>,
    pub served: usize,
    pub events: usize,
}

// ---- one waveform

// A counted time as it is told: the 64 bits of its number of ps, which is negative before the cycle's start.
fn told(time: u64) -> u64
    ensures { result ≡ bits_of (uncounted time) }
{
    if time < START {
        return LAST - (START - 1 - time);
    }
    time - START
}

// The first n of two arrays, counted times and letters, to the front of two others, the times as they are told.
pub fn put(ts: &[u64], ls: &[u8], n: usize, times: &mut [u64], letters: &mut [u8])
    requires n_in_bounds { (n ≤ length ts.now) × (n ≤ length ls.now) }
    requires n_in_bounds_2 { (n ≤ length times.old) × (n ≤ length letters.old) }
    ensures { (times.new ≡ told_all (take n ts.now) ++ drop n times.old) × (letters.new ≡ take n ls.now ++ drop n letters.old) }
{
    for i in 0..n {
        times[i] = told(ts[i]);
    }
    letters[..n].copy_from_slice(&ls[..n]);
}

// The events of a character, of the entry at a place, to the front of both buffers, and how many they are; or 19.
pub fn draw(
    text: &[u8],
    place: usize,
    char: u8,
    times: &mut [u64],
    letters: &mut [u8],
) -> Result<usize, u8>
    requires { (es : List Event) × EntryAt text.now place char es }
    ensures { (es : List Event) → EntryAt text.now place char es → Outlines (events_out es times.old letters.old) times.old times.new letters.old letters.new result }
{
    let mut ts = [0u64; waves::EVENTS];
    let mut ls = [0u8; waves::EVENTS];
    let n = waves::read(text, place, char, &mut ts, &mut ls);
    if (times.len() < n) | (letters.len() < n) {
        return Err(NO_ROOM);
    }
    put(&ts, &ls, n, times, letters);
    Ok(n)
}

// Where the entry of a waveform stands, in a text that is accepted.
fn sight(text: &[u8], watch: Watch) -> Option<usize>
    ensures { Sights text.now watch result }
{
    let mut places = [0usize; signals::PLACES];
    let mut lists = [0u16; signals::LISTS];
    let mut tplaces = [0usize; timing::PLACES];
    let mut waves = [0u8; timing::WAVES];
    let c = words::cursor_at(text, 0);
    declared::declarations(
        text,
        c,
        &mut places,
        &mut lists,
        &mut tplaces,
        &mut waves,
        watch,
    )
    .sight
}

// A single call: 18, 19, or the events at the front of both buffers.
fn single(
    text: &[u8],
    table: usize,
    signal: usize,
    char: u8,
    times: &mut [u64],
    letters: &mut [u8],
) -> Result<usize, u8>
    requires { Accepted text.now }
    ensures { Outlines (waveform text.now table signal char times.old letters.old) times.old times.new letters.old letters.new result }
{
    let watch = Watch {
        table,
        signal,
        char,
    };
    match sight(text, watch) {
        Some(place) => draw(text, place, char, times, letters),
        None => Err(NO_SUCH),
    }
}

// ---- the list

// Do so many numbers ask for no more than so many waveforms? Of a list that isn't too long.
pub fn within(asked: &[u64], waveforms: usize) -> bool
    requires { length (asked_in asked.now) ≤ chart_most }
    ensures { result ≡ leb (length (asked_in asked.now)) waveforms }
{
    if waveforms < MOST {
        return asked.len() <= waveforms * ASK;
    }
    true
}

// Are more waveforms asked for than a list may have?
pub fn too_many(asked: &[u64]) -> bool
    ensures { leb (length (asked_in asked.now)) chart_most ≡ not result }
{
    MOST * ASK < asked.len()
}

// The waveform whose numbers begin at a place of the list. Numbers left over, or a number that is no character, name none.
fn ask(
    text: &[u8],
    asked: &[u64],
    at: usize,
    times: &mut [u64],
    letters: &mut [u8],
) -> Result<usize, u8>
    requires { Accepted text.now × (at < length asked.now) × (length asked.now ≤ chart_most * 3) }
    ensures { (x : Asked) (xs : List Asked) → asked_in (drop at asked.now) ≡ x ∷ xs → Outlines (called text.now x times.old letters.old) times.old times.new letters.old letters.new result }
{
    if asked.len() - at < ASK {
        return Err(NO_SUCH);
    }
    let char = asked[at + 2];
    if CHAR < char {
        return Err(NO_SUCH);
    }
    single(
        text,
        asked[at] as usize,
        asked[at + 1] as usize,
        char as u8,
        times,
        letters,
    )
}

// All of the list, until one is refused.
pub fn serve(
    text: &[u8],
    asked: &[u64],
    times: &mut [u64],
    letters: &mut [u8],
    counts: &mut [u64],
) -> Served
    requires accepted { Accepted text.now }
    requires asked_len_bound { (length (asked_in asked.now) ≤ chart_most) × (length (asked_in asked.now) ≤ length counts.old) }
    ensures { Serves (chart text.now (asked_in asked.now) times.old letters.old counts.old) times.new letters.new counts.new result }
{
    // The list goes on by three numbers, the events by as many as a call tells: no one range has both.
    let mut at = 0;
    let mut served = 0;
    let mut events = 0;
    while at < asked.len() {
        let answer = ask(
            text,
            asked,
            at,
            &mut times[events..],
            &mut letters[events..],
        );
        match answer {
            Ok(count) => {
                counts[served] = count as u64;
                served += 1;
                events += count;
                at += ASK;
            }
            Err(no) => {
                return Served {
                    stopped: Some(no),
                    served,
                    events,
                };
            }
        }
    }
    Served {
        stopped: None,
        served,
        events,
    }
}
