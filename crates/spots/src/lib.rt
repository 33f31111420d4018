// Where the entries of a table stand: the tables of a text that was read before, read once more. Nothing is tested again.
#![tactic(auto)]

ghost use Rattle.std.specs.Prelude.{◌≡◌, ℕ, ◌≤◌, ◌<◌, List, [], ◌∷◌, length};
ghost use Rattle.tokens.specs.Tokens.{Toks};
ghost use Rattle.meaning.specs.Bounds.{entry_most, signals_most};
ghost use Rattle.meaning.specs.Reader.{Reader, until as until_of};
ghost use Rattle.meaning.specs.Timing.{Events, Wave, Tables, event as event_of, entry as entry_of, waveforms as waveforms_of};
ghost use Rattle.sets.specs.Sets.{list_of};
ghost use Rattle.timing.specs.Marks.{Below};
ghost use Rattle.timing.specs.Parts.{head_then};
ghost use Rattle.spots.specs.Answers.{Answers, Behind, Opens};
ghost use Rattle.spots.specs.Spots.{spots_most, names_in, Spots, Stored, Listed};

use sets::Set;
use words::Cursor;

// Bytes that a character can be, and the spots of a table: a number for each signal and byte.
pub const BYTES: usize = 256;

pub const SPOTS: usize = sets::MOST * BYTES;

// What waveforms are read in: a text, and its signals and groups by the places of their names, each with its signals.
#[derive(Clone, Copy)]
pub struct Scope<'a> {
    pub text: &'a [u8],
    pub places: &'a [usize],
    pub lists: &'a [u16],
    pub names: usize,
}

// Further events of an entry, up to its closing brace.
fn events(text: &[u8], c: Cursor) -> Cursor
    requires { (n : ℕ) × (s : Events) × (es : Events) × (us : Toks) × (0 < n) × (n ≤ entry_most) × (length s.0 ≡ n) × Answers text.now c (until_of "}" (event_of n) s) es us }
    ensures { (n : ℕ) (s es : Events) (us : Toks) → 0 < n → n ≤ entry_most → length s.0 ≡ n → Answers text.now c (until_of "}" (event_of n) s) es us → Behind text.now result us × (length es.0 ≡ n) }
{
    let mut cursor = c;
    while words::until(text, cursor, b"}") {
        let e = waves::event(text, cursor, 0);
        cursor = e.cursor;
    }
    words::due(text, cursor, b"}")
}

// v for signal s and each character of w.
fn keep(spots: &mut [usize], s: u16, w: &[u8], v: usize)
    requires { (length spots.old ≡ spots_most) × (s < signals_most) }
    ensures { Stored spots.old (s ∷ []) w.now v spots.new }
{
    for b in w {
        spots[s as usize * BYTES + *b as usize] = v;
    }
}

// v for each signal of a set and each character of w.
fn keep_all(spots: &mut [usize], set: Set, w: &[u8], v: usize)
    requires { (length spots.old ≡ spots_most) × Below (list_of set) }
    ensures { Stored spots.old (list_of set) w.now v spots.new }
{
    let most = set.n.min(sets::MOST);
    for s in &set.v[..most] {
        keep(spots, *s, w, v);
    }
}

// The spots of an entry's CHARS, for the signals of a set.
fn entry_spots(text: &[u8], c: Cursor, set: Set, spots: &mut [usize]) -> Cursor
    requires spots_len { (length spots.old ≡ spots_most) × Below (list_of set) }
    requires spots { (ws : List Wave) × (a : List Wave) × (us : Toks) × Spots text.now spots.old ws × Answers text.now c (entry_of (list_of set) ws) a us }
    ensures { (ws a : List Wave) (us : Toks) → Spots text.now spots.old ws → Answers text.now c (entry_of (list_of set) ws) a us → Behind text.now result us × Spots text.now spots.new a }
{
    let d = words::word(text, c);
    let e = words::due(text, d, b"{");
    let first = waves::event(text, e, 0);
    keep_all(spots, set, words::bytes_of(text, c.at, c.end), c.at + 1);
    events(text, first.cursor)
}

// Those of all entries of a name, up to its closing brace.
fn entries_spots(text: &[u8], c: Cursor, set: Set, spots: &mut [usize]) -> Cursor
    requires spots_len { (length spots.old ≡ spots_most) × Below (list_of set) }
    requires spots { (ws : List Wave) × (a : List Wave) × (us : Toks) × Spots text.now spots.old ws × Answers text.now c (until_of "}" (entry_of (list_of set)) ws) a us }
    ensures { (ws a : List Wave) (us : Toks) → Spots text.now spots.old ws → Answers text.now c (until_of "}" (entry_of (list_of set)) ws) a us → Behind text.now result us × Spots text.now spots.new a }
{
    let mut cursor = c;
    while words::until(text, cursor, b"}") {
        cursor = entry_spots(text, cursor, set, spots);
    }
    words::due(text, cursor, b"}")
}

// Those of a name: a signal, or a group for each of its signals.
fn name_spots<'a>(scope: Scope<'a>, c: Cursor, spots: &mut [usize]) -> Cursor
    requires spots_len { (length spots.old ≡ spots_most) × Listed scope.lists.now scope.names }
    requires spots { (ws : List Wave) × (a : List Wave) × (us : Toks) × Spots scope.text.now spots.old ws × Answers scope.text.now c (waveforms_of (names_in scope) ws) a us }
    ensures { (ws a : List Wave) (us : Toks) → Spots scope.entry.text.now spots.old ws → Answers scope.entry.text.now c (waveforms_of (names_in scope.entry) ws) a us → Behind scope.entry.text.now result us × Spots scope.entry.text.now spots.new a }
{
    let old = words::old_name(scope.text, c, scope.places, scope.names);
    let d = words::due(scope.text, old.cursor, b"{");
    let set = signals::set_at(scope.lists, old.number);
    entries_spots(scope.text, d, set, spots)
}

// Those of a whole table, up to the closing brace of its Waveforms.
pub fn table_spots<'a>(scope: Scope<'a>, c: Cursor, spots: &mut [usize]) -> Cursor
    requires spots_len { (length spots.old ≡ spots_most) × Listed scope.lists.now scope.names }
    requires spots { (ws : List Wave) × (a : List Wave) × (us : Toks) × Spots scope.text.now spots.old ws × Answers scope.text.now c (until_of "}" (waveforms_of (names_in scope)) ws) a us }
    ensures { (ws a : List Wave) (us : Toks) → Spots scope.entry.text.now spots.old ws → Answers scope.entry.text.now c (until_of "}" (waveforms_of (names_in scope.entry)) ws) a us → Behind scope.entry.text.now result us × Spots scope.entry.text.now spots.new a }
{
    let mut cursor = c;
    while words::until(scope.text, cursor, b"}") {
        cursor = name_spots(scope, cursor, spots);
    }
    words::due(scope.text, cursor, b"}")
}

// What stands between a table's name and its waveforms; its period.
pub fn head(text: &[u8], c: Cursor) -> words::Numbered
    ensures { (k : ℕ → Reader Tables) (it : Tables) (us : Toks) → Answers text.now c (head_then k) it us → Answers text.now result.cursor (k result.n) it us }
{
    let a = words::due(text, c, b"{");
    let b = words::due(text, a, b"Period");
    let t = words::quoted(text, b, 1);
    let d = words::due(text, t.cursor, b";");
    let e = words::due(text, d, b"Waveforms");
    let cursor = words::due(text, e, b"{");
    words::Numbered { cursor, n: t.n }
}

// The cursor behind `STIL 1.0;`.
pub fn opening(text: &[u8]) -> Cursor
    ensures { (ts : Toks) → Opens text.now ts → Behind text.now result ts }
{
    let c = words::cursor_at(text, 0);
    let a = words::due(text, c, b"STIL");
    let b = words::due(text, a, b"1.0");
    words::due(text, b, b";")
}
