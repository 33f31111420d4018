// The events of one character of a signal, read again where its entry stands. The entry was read before and not refused, so that nothing is tested again.
#![tactic(auto)]

ghost use Rattle.std.specs.Prelude.{◌≡◌, ◌<◌, List, length};
ghost use Rattle.meaning.specs.Bounds.{entry_most};
ghost use Rattle.meaning.specs.Timing.{Event};
ghost use Rattle.timing.specs.Watch.{number_of};
ghost use Rattle.waves.specs.Waves.{EntryAt, Reads, OneEvent};

use words::Cursor;

// Events of an entry at most.
pub const EVENTS: usize = 16;

// The number of a character among CHARS; as many as there are where it isn't one.
fn number_of(w: &[u8], b: u8) -> usize
    ensures { result ≡ number_of b w.now }
{
    w.iter().position(|x| *x == b).unwrap_or(w.len())
}

// An event that was read: its time in ps, counted from the earliest that there may be, and the letter of one character, and the cursor behind it.
#[derive(Clone, Copy)]
pub struct EventRead {
    pub cursor: Cursor,
    pub time: u64,
    pub letter: u8,
}

// `'T' E;`, where E is one letter for all characters, or one for each: that of number i.
pub fn event(text: &[u8], c: Cursor, i: usize) -> EventRead
    requires { i < entry_most }
    ensures { OneEvent text.now c i result }
{
    let t = words::signed_quoted(text, c);
    let l = timing::letters(text, t.cursor);
    let cursor = words::due(text, l.cursor, b";");
    let letter = timing::letter_at(l.a, i);
    EventRead {
        cursor,
        time: t.n,
        letter,
    }
}

// The events of character b, of the entry whose CHARS stand at the place, to the front of both arrays; how many there are.
pub fn read(text: &[u8], place: usize, b: u8, times: &mut [u64], letters: &mut [u8]) -> usize
    requires times_len { (length times.old ≡ entry_most) × (length letters.old ≡ entry_most) }
    requires entry_at { (es : List Event) × EntryAt text.now place b es }
    ensures { (es : List Event) → EntryAt text.now place b es → Reads es result times.old times.new letters.old letters.new }
{
    let c = words::cursor_at(text, place);
    let i = number_of(words::bytes_of(text, c.at, c.end), b);
    let d = words::word(text, c);
    let mut cursor = words::due(text, d, b"{");
    let mut n = 0;
    while words::until(text, cursor, b"}") {
        let e = event(text, cursor, i);
        let next = n + 1;
        times[n] = e.time;
        letters[n] = e.letter;
        cursor = e.cursor;
        n = next;
    }
    n
}
