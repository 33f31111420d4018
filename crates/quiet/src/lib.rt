// Quiet texts: every event lies within its own cycle, so that no cycle's last event reaches the next one's first (refusal 25). The tables of a text that was
// read before are read once more; no name is looked up.
#![tactic(auto)]

ghost use Rattle.std.specs.Prelude.{◌≡◌, true, List, ℕ, ◌≤◌, ◌<◌, IfSome};
ghost use Rattle.std.proofs.Math.Option.{none};
ghost use Rattle.tokens.specs.Tokens.{Toks, toks};
ghost use Rattle.meaning.specs.Bounds.{entry_most};
ghost use Rattle.meaning.specs.Reader.{ok, until as until_of};
ghost use Rattle.meaning.specs.Signals.{Names};
ghost use Rattle.meaning.specs.Timing.{Tables, event as event_of, entry as entry_of, waveforms as waveforms_of, table as table_of, timing as timing_of};
ghost use Rattle.meaning.specs.Body.{Body};
ghost use Rattle.meaning.specs.Document.{Read, document};
ghost use Rattle.meaning.specs.Edges.{first_in_run};
ghost use Rattle.spots.specs.Answers.{Answers};
ghost use Rattle.quiet.specs.Quiet.{Inside, Lined, WavesIn, TablesIn, Coming, Keeps};

use words::{Cursor, START};

// Does a time lie within a cycle of this start and period.
fn within(t: u64, start: u64, period: u64) -> bool
    ensures { result ≡ true → Inside start period t }
{
    start <= t && t - start < period
}

// The readers below give the cursor behind what they read if all its events lie within their cycles, and stop at the first event that does not.

// Further events of an entry, up to its closing brace.
fn events(text: &[u8], c: Cursor, period: u64) -> Option<Cursor>
    requires { (n : ℕ) × (0 < n) × (n ≤ entry_most) × Coming text.now c (until_of "}" (event_of n)) (Lined period n) }
    ensures { (n : ℕ) → 0 < n → n ≤ entry_most → Keeps text.now c (until_of "}" (event_of n)) (Lined period n) result }
{
    let mut cursor = c;
    while words::until(text, cursor, b"}") {
        let e = waves::event(text, cursor, 0);
        if !within(e.time, START, period) {
            return None;
        }
        cursor = e.cursor;
    }
    Some(words::due(text, cursor, b"}"))
}

// CHARS and their events.
fn entry(text: &[u8], c: Cursor, period: u64) -> Option<Cursor>
    requires { (sigs : List ℕ) × Coming text.now c (entry_of sigs) (WavesIn period) }
    ensures { (sigs : List ℕ) → Keeps text.now c (entry_of sigs) (WavesIn period) result }
{
    let d = words::word(text, c);
    let e = words::due(text, d, b"{");
    let first = waves::event(text, e, 0);
    if !within(first.time, START, period) {
        return None;
    }
    events(text, first.cursor, period)
}

// All entries of a name, up to its closing brace.
fn entries(text: &[u8], c: Cursor, period: u64) -> Option<Cursor>
    requires { (sigs : List ℕ) × Coming text.now c (until_of "}" (entry_of sigs)) (WavesIn period) }
    ensures { (sigs : List ℕ) → Keeps text.now c (until_of "}" (entry_of sigs)) (WavesIn period) result }
{
    let mut cursor = c;
    while words::until(text, cursor, b"}") {
        cursor = entry(text, cursor, period)?;
    }
    Some(words::due(text, cursor, b"}"))
}

// A name, whatever its signals are, and its entries.
fn named(text: &[u8], c: Cursor, period: u64) -> Option<Cursor>
    requires { (ns : Names) × Coming text.now c (waveforms_of ns) (WavesIn period) }
    ensures { (ns : Names) → Keeps text.now c (waveforms_of ns) (WavesIn period) result }
{
    let d = words::name(text, c);
    let e = words::due(text, d, b"{");
    entries(text, e, period)
}

// The waveforms of a table of this period, up to their closing brace.
fn waveforms(text: &[u8], c: Cursor, period: u64) -> Option<Cursor>
    requires { (ns : Names) × Coming text.now c (until_of "}" (waveforms_of ns)) (WavesIn period) }
    ensures { (ns : Names) → Keeps text.now c (until_of "}" (waveforms_of ns)) (WavesIn period) result }
{
    let mut cursor = c;
    while words::until(text, cursor, b"}") {
        cursor = named(text, cursor, period)?;
    }
    Some(words::due(text, cursor, b"}"))
}

// A table, from `WaveformTable` to its last brace.
fn table(text: &[u8], c: Cursor) -> Option<Cursor>
    requires { (ns : Names) × Coming text.now c (table_of ns) TablesIn }
    ensures { (ns : Names) → Keeps text.now c (table_of ns) TablesIn result }
{
    let a = words::due(text, c, b"WaveformTable");
    let d = words::name(text, a);
    let h = spots::head(text, d);
    let e = waveforms(text, h.cursor, h.n)?;
    Some(words::due(text, e, b"}"))
}

// Further tables, up to the last brace of Timing.
fn others(text: &[u8], c: Cursor) -> Option<Cursor>
    requires { (ns : Names) × Coming text.now c (until_of "}" (table_of ns)) TablesIn }
    ensures { (ns : Names) → Keeps text.now c (until_of "}" (table_of ns)) TablesIn result }
{
    let mut cursor = c;
    while words::until(text, cursor, b"}") {
        cursor = table(text, cursor)?;
    }
    Some(words::due(text, cursor, b"}"))
}

// Timing{ .. }: from the cursor that stands at it.
fn tables(text: &[u8], c: Cursor) -> Option<Cursor>
    requires { (ns : Names) × (it : Tables) × (us : Toks) × Answers text.now c (timing_of ns) it us }
    ensures { IfSome result (λ d. (ns : Names) (it : Tables) (us : Toks) → Answers text.now c (timing_of ns) it us → TablesIn it) }
{
    let a = words::due(text, c, b"Timing");
    let b = words::due(text, a, b"{");
    let d = table(text, b)?;
    others(text, d)
}

// Is every event of a text within its own cycle: then no pair of neighbouring cycles is out of order. Of false nothing is said.
pub fn is_quiet(text: &[u8]) -> bool
    requires { (d : Read) × (ts : Toks) × (document (toks text.now 0) ≡ ok d ts) }
    ensures { result ≡ true → (d : Read) (ts : Toks) → document (toks text.now 0) ≡ ok d ts → (n : ℕ) (run : Body) → first_in_run d.tables n run ≡ none }
{
    let mut places = [0usize; signals::PLACES];
    let mut lists = [0u16; signals::LISTS];
    let c = spots::opening(text);
    let f = signals::front(text, c, &mut places, &mut lists);
    tables(text, f.cursor).is_some()
}
