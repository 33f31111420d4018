// What a text assigns at all: a mark for each signal and character that one of its V's, C's or arguments gives it.
#![tactic(auto)]

ghost use Rattle.std.specs.Prelude.{◌≡◌, true, List, ℕ, ◌*◌, ◌<◌, ◌≤◌, length};
ghost use Rattle.meaning.specs.Bounds.{signals_most, tables_most};
ghost use Rattle.meaning.specs.Timing.{Tables};
ghost use Rattle.meaning.specs.Body.{Assigns, Args};
ghost use Rattle.timing.specs.Marks.{table_size};
ghost use Rattle.timing.specs.Held.{Held};
ghost use Rattle.measures.specs.Uses.{Given};
ghost use Rattle.arguments.specs.Supplied.{Supplied, DataAt};
ghost use Rattle.noted.specs.Noted.{Grows, CharNoted, CharsNoted, Gives, Supplies, Covered, Fine};

use measures::MARK;
use timing::CHARS;

// How long the marks are.
pub const USED: usize = sets::MOST * CHARS;

// ---- characters of a signal

// Every character is below CHARS; the remainder keeps any other byte within the signal's marks.
fn note_char(used: &mut [u8], s: usize, c: u8)
    requires { (length used.old ≡ table_size) × (s < signals_most) }
    ensures { Grows used.old used.new × CharNoted used.new s c }
{
    let b = c as usize;
    used[s * CHARS + b % CHARS] = 1;
}

fn note_word(word: &[u8], used: &mut [u8], s: usize)
    requires { (length used.old ≡ table_size) × (s < signals_most) }
    ensures { Grows used.old used.new × CharsNoted used.new s word.now }
{
    for c in word {
        note_char(used, s, *c);
    }
}

// ---- assignments

// Those of a V or C; `#` is the argument's, which is marked where that stands.
pub fn note(given: &[u8], used: &mut [u8])
    requires { (length given.now ≡ signals_most) × (length used.old ≡ table_size) }
    ensures { Grows used.old used.new × ((a : Assigns) → Given a given.now → Gives used.new a) }
{
    let n = words::zeros_from(given);
    for (s, c) in given[..n].iter().enumerate() {
        if (*c != 0) & (*c != MARK) {
            note_char(used, s, *c);
        }
    }
}

// ---- arguments

// The characters of the DATA at a place, word by word.
fn note_data(text: &[u8], place: usize, used: &mut [u8], s: usize)
    requires { (length used.old ≡ table_size) × (s < signals_most) }
    ensures { Grows used.old used.new × ((cs : List ℕ) → DataAt text.now place cs → CharsNoted used.new s cs) }
{
    let mut at = place;
    loop {
        let word = feeds::next_word(text, at);
        if word.end <= word.at {
            return;
        }
        note_word(words::bytes_of(text, word.at, word.end), used, s);
        at = word.end;
    }
}

// Those that a body is used with.
pub fn note_args(text: &[u8], given: &[u8], args: &[usize], used: &mut [u8])
    requires { (length given.now ≡ signals_most) × (length args.now ≡ signals_most * 2) × (length used.old ≡ table_size) }
    ensures { Grows used.old used.new × ((xs : Args) → Supplied text.now xs given.now args.now → Supplies used.new xs) }
{
    let n = words::zeros_from(given);
    // By number: the places of arguments are walked at the same index.
    for s in 0..n {
        if given[s] != 0 {
            note_data(text, args[sets::MOST + s], used, s);
        }
    }
}

// ---- waveforms for the marks

// Has the table of number k a waveform for each mark? No branch for any, so that many are looked at together: by number, since two lists are walked at one index.
fn covered(used: &[u8], waves: &[u8], k: usize) -> bool
    requires { (length used.now ≡ table_size) × (length waves.now ≡ tables_most * table_size) × (k < tables_most) }
    ensures { result ≡ true → Covered used.now waves.now k table_size }
{
    let at = k * USED;
    let mut missing = false;
    for i in 0..USED {
        missing |= (used[i] != 0) & (waves[at + i] != 1);
    }
    !missing
}

// Has every table? Then no cycle can fail in which a table is in force.
pub fn fine(used: &[u8], waves: &[u8], tables: usize) -> bool
    requires { (length used.now ≡ table_size) × (length waves.now ≡ tables_most * table_size) × (tables ≤ tables_most) }
    ensures { result ≡ true → (text tplaces : List ℕ) (count : ℕ) (tabs : Tables) → Held text tplaces waves.now count tabs → Fine tables used.now tabs }
{
    for k in 0..tables {
        if !covered(used, waves, k) {
            return false;
        }
    }
    true
}
