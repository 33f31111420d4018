// Timing: tables of waveforms. Of each the code keeps its name, and a mark for each signal and character that has a waveform; and of
// one waveform that is wanted, where its entry stands.
#![tactic(auto)]

ghost use Rattle.std.specs.Prelude.{◌≡◌, ℕ, ◌+◌, ◌*◌, ◌≤◌, ◌<◌, min, Bool, true, false, not, ◌&&◌, List, [], ◌∷◌, ◌++◌, length, get_or, eqb};
ghost use Rattle.meaning.specs.Bounds.{entry_most, signals_most, tables_most};
ghost use Rattle.meaning.specs.Lists.{has, repeats as repeats_of};
ghost use Rattle.meaning.specs.Reader.{Reader};
ghost use Rattle.meaning.specs.Timing.{drives as drives_of, compares as compares_of, event_letter, letter_due, letters as letters_of, spread, Events, Wave, Tables as TablesOf, counted_most, one_event, event as event_of, all_chars, blanks, entry as entry_of, waveforms as waveforms_of, table as table_of, timing as timing_of};
ghost use Rattle.words.specs.Cursor.{Goes, alive};
ghost use Rattle.words.specs.Values.{value_of};
ghost use Rattle.signals.specs.Names.{list_at, names_of, Chained, Sized, names_most, row_length};
ghost use Rattle.timing.specs.Makes.{Makes, Brings};
ghost use Rattle.timing.specs.Events.{all_events, Lettered, slot as slot_of, Timed, Adding, events as events_of};
ghost use Rattle.timing.specs.Marks.{table_size, mark, Described, mark_of, mark_among, Marked, Below, AllBelow};
ghost use Rattle.timing.specs.Parts.{Chars, entries as entries_of, block as block_of, head_then};
ghost use Rattle.timing.specs.Held.{Held};
ghost use Rattle.timing.specs.Watch.{Placed, looked, Noted, Kept};

use words::{BAD_DATA, NOT_HERE, TOO_MANY};

// Refusal: a character that has a waveform, alternatives that do not fit, or a time that does not rise.
const BAD_WAVEFORM: u8 = 11;

// ---- letters of events

pub fn drives(e: u8) -> bool
    ensures { result ≡ drives_of e }
{
    (68 == e) | ((85 == e) | ((90 == e) | ((80 == e) | false)))
}

pub fn compares(e: u8) -> bool
    ensures { result ≡ compares_of e }
{
    (76 == e)
        | ((72 == e)
            | ((88 == e) | ((84 == e) | ((108 == e) | ((104 == e) | ((120 == e) | false))))))
}

// The letter of an event that a word is.
fn event_letter(w: &[u8]) -> Option<u8>
    ensures { value_of result ≡ event_letter w.now }
{
    if w.len() != 1 {
        return None;
    }
    let e = w[0];
    if drives(e) | compares(e) {
        return Some(e);
    }
    None
}

// A letter that was read, and the cursor behind it.
#[derive(Clone, Copy)]
struct LetterRead {
    cursor: words::Cursor,
    e: u8,
}

// The letter of an event is due.
fn letter(text: &[u8], c: words::Cursor) -> LetterRead
    ensures { Goes text.now c letter_due result.cursor result.e }
{
    let d = words::step(text, c);
    let e = event_letter(words::bytes_of(text, c.at, c.end));
    let cursor = words::refuse_if(d, e.is_none(), NOT_HERE, c.at);
    LetterRead {
        cursor,
        e: e.unwrap_or(0),
    }
}

// Characters and events that an entry may have.
const ENTRY: usize = 16;

// Alternatives of one event: how many, up to one too many, and the first of them. Memory is fixed, so that they stand in an array with their count.
#[derive(Clone, Copy)]
pub struct Alternatives {
    pub n: usize,
    pub l: [u8; ENTRY],
}

fn no_letters() -> Alternatives
    ensures { Lettered result.n result.l [] }
{
    Alternatives {
        n: 0,
        l: [0; ENTRY],
    }
}

// One letter more.
fn more(a: Alternatives, e: u8) -> Alternatives
    ensures { (es : List ℕ) → Lettered a.n a.l es → Lettered result.n result.l (es ++ e ∷ []) }
{
    let mut a = a;
    let n = a.n;
    if n < ENTRY {
        a.l[n] = e;
        a.n = n + 1;
    } else {
        a.n = ENTRY + 1;
    }
    a
}

// Alternatives that were read, and the cursor behind them.
#[derive(Clone, Copy)]
pub struct LettersRead {
    pub cursor: words::Cursor,
    pub a: Alternatives,
}

// Alternatives, parted by `/`.
pub fn letters(text: &[u8], c: words::Cursor) -> LettersRead
    ensures { Makes text.now c letters_of result.cursor (Lettered result.a.n result.a.l) }
{
    let x = letter(text, c);
    let mut cursor = x.cursor;
    let mut a = more(no_letters(), x.e);
    while words::is(text, cursor, b"/") {
        let d = words::due(text, cursor, b"/");
        let y = letter(text, d);
        cursor = y.cursor;
        a = more(a, y.e);
    }
    LettersRead { cursor, a }
}

// The letter for the character of number i: the only one, or its own.
pub fn letter_at(a: Alternatives, i: usize) -> u8
    requires { i < entry_most }
    ensures { (n : ℕ) (es : List ℕ) → n ≤ entry_most → Lettered a.n a.l es → (not (eqb a.n 1) && not (eqb a.n n)) ≡ false → i < n → result ≡ get_or (spread n es) i 0 }
{
    if a.n == 1 { a.l[0] } else { a.l[i] }
}

// ---- events

// Of the events of each character: how many there are, and the least time that the next one of each category may have.
#[derive(Clone, Copy)]
struct Times {
    count: usize,
    least: [u64; 2 * ENTRY],
}

fn no_events() -> Times
    ensures { (cs : List ℕ) → Timed (length cs) result.count result.least (blanks cs, 0) }
{
    Times {
        count: 0,
        least: [0; 2 * ENTRY],
    }
}

// Where the time for the character of number i stands.
fn slot(e: u8, i: usize) -> usize
    requires { i < entry_most }
    ensures { result ≡ slot_of e i }
{
    if drives(e) { i } else { ENTRY + i }
}

// An event at time t behind the events of each of n characters, if every time rises.
fn add(times: Times, t: u64, a: Alternatives, n: usize) -> Option<Times>
    requires { (n ≤ entry_most) × (t ≤ counted_most) }
    ensures { (s : Events) (es : List ℕ) → Timed n times.count times.least s → Lettered a.n a.l es → (not (eqb a.n 1) && not (eqb a.n n)) ≡ false → all_events es ≡ true → Adding n t (spread n es) s result }
{
    let mut least = times.least;
    for i in 0..n {
        let k = slot(letter_at(a, i), i);
        if t < least[k] {
            return None;
        }
        least[k] = t + 1;
    }
    let count = times.count.saturating_add(1).min(ENTRY);
    Some(Times { count, least })
}

// Events that were read, and the cursor behind them.
#[derive(Clone, Copy)]
struct TimesRead {
    cursor: words::Cursor,
    times: Times,
}

// `'T' E;` behind the events of n characters.
fn one_event(text: &[u8], c: words::Cursor, n: usize, times: Times) -> TimesRead
    requires { n ≤ entry_most }
    ensures { (s : Events) → Timed n times.count times.least s → Makes text.now c (one_event n s) result.cursor (Timed n result.times.count result.times.least) }
{
    let t = words::signed_quoted(text, c);
    let l = letters(text, t.cursor);
    let behind = l.cursor;
    let a = l.a;
    let d = words::due(text, behind, b";");
    let e = words::refuse_if(d, (a.n != 1) & (a.n != n), BAD_WAVEFORM, behind.at);
    if e.no != 0 {
        return TimesRead { cursor: e, times };
    }
    match add(times, t.n, a, n) {
        Some(times) => TimesRead { cursor: e, times },
        None => {
            let cursor = words::refuse_if(e, true, BAD_WAVEFORM, behind.at);
            TimesRead { cursor, times }
        }
    }
}

// An event; one too many is refused at its quote.
fn event(text: &[u8], c: words::Cursor, n: usize, times: Times) -> TimesRead
    requires { n ≤ entry_most }
    ensures { (s : Events) → Timed n times.count times.least s → Makes text.now c (event_of n s) result.cursor (Timed n result.times.count result.times.least) }
{
    if words::is(text, c, b"'") & (ENTRY <= times.count) {
        let d = words::due(text, c, b"'");
        let cursor = words::refuse_if(d, true, TOO_MANY, c.at);
        return TimesRead { cursor, times };
    }
    one_event(text, c, n, times)
}

// The events of an entry with n characters, and its closing brace.
fn events(text: &[u8], c: words::Cursor, n: usize) -> words::Cursor
    requires { n ≤ entry_most }
    ensures by_index { (cs : List ℕ) → length cs ≡ n → Makes text.now c (events_of cs) result (λ s. length s.0 ≡ n) }
    ensures placed { Placed text.now result }
{
    let first = event(text, c, n, no_events());
    let mut cursor = first.cursor;
    let mut times = first.times;
    while words::until(text, cursor, b"}") {
        let x = event(text, cursor, n, times);
        cursor = x.cursor;
        times = x.times;
    }
    words::due(text, cursor, b"}")
}

// ---- characters

// Does a byte stand there twice?
fn repeats(w: &[u8]) -> bool
    ensures { result ≡ repeats_of w.now }
{
    w.iter().enumerate().any(|(i, b)| w[i + 1..].contains(b))
}

// ---- marks

// Characters that can have a mark, and the marks of one table.
pub const CHARS: usize = 128;

const TABLE: usize = sets::MOST * CHARS;

// Has signal s a mark for the character b?
fn has_mark(table: &[u8], s: u16, b: u8) -> bool
    requires { (length table.now ≡ table_size) × (s < signals_most) }
    ensures { result ≡ mark table.now s b }
{
    let i = s as usize * CHARS + b as usize;
    if (b as usize) < CHARS {
        table[i] == 1
    } else {
        false
    }
}

// For one of the characters of w?
fn has_mark_of(table: &[u8], s: u16, w: &[u8]) -> bool
    requires { (length table.now ≡ table_size) × (s < signals_most) }
    ensures { result ≡ mark_of table.now s w.now }
{
    w.iter().any(|b| has_mark(table, s, *b))
}

// Has one of these signals?
fn taken(table: &[u8], sigs: &[u16], w: &[u8]) -> bool
    requires { (length table.now ≡ table_size) × Below sigs.now }
    ensures { result ≡ mark_among table.now sigs.now w.now }
{
    sigs.iter().any(|s| has_mark_of(table, *s, w))
}

// A mark of signal s for each character of w.
fn mark_chars(table: &mut [u8], s: u16, w: &[u8])
    requires { (length table.old ≡ table_size) × (s < signals_most) × (all_chars w.now ≡ true) }
    ensures { Marked table.old (s ∷ []) w.now table.new }
{
    for b in w {
        table[s as usize * CHARS + *b as usize] = 1;
    }
}

// A mark of each signal for each character of w.
fn mark_all(table: &mut [u8], sigs: &[u16], w: &[u8])
    requires { (length table.old ≡ table_size) × Below sigs.now × (all_chars w.now ≡ true) }
    ensures { Marked table.old sigs.now w.now table.new }
{
    for s in sigs {
        mark_chars(table, *s, w);
    }
}

// ---- the watch

// A waveform that is wanted, by the numbers of its table and signal and its character. Any numbers: what there is not is not found.
#[derive(Clone, Copy)]
pub struct Watch {
    pub table: usize,
    pub signal: usize,
    pub char: u8,
}

// Is the signal s one of these?
fn lists_signal(sigs: &[u16], s: usize) -> bool
    ensures { result ≡ has s sigs.now }
{
    sigs.iter().any(|x| *x as usize == s)
}

// Where the waveform is: the place of the CHARS of the entry that gives it. The entry at a place has these characters, for these signals; the first that gives
// the waveform stays.
fn look(watch: Watch, sight: Option<usize>, sigs: &[u16], w: &[u8], place: usize) -> Option<usize>
    ensures { result ≡ looked watch sight sigs.now w.now place }
{
    if sight.is_some() {
        return sight;
    }
    if words::holds(w, watch.char) & lists_signal(sigs, watch.signal) {
        return Some(place);
    }
    None
}

// Where reading stands, and what was seen up to there.
#[derive(Clone, Copy)]
struct Seen {
    cursor: words::Cursor,
    sight: Option<usize>,
}

// ---- entries

// Tables that a text may have.
pub const TABLES: usize = 8;

// How long the tables' names and their marks are.
pub const PLACES: usize = TABLES * 2;

pub const WAVES: usize = TABLES * TABLE;

// The signals of the name of number i.
fn row(lists: &[u16], i: usize) -> &[u16]
    requires { length lists.now ≡ names_most * row_length }
    ensures { result.now ≡ list_at lists.now i }
{
    if i < signals::NAMES {
        let at = i * signals::ROW;
        let first = at + 1;
        let end = first + (lists[at] as usize).min(sets::MOST);
        return &lists[first..end];
    }
    &lists[0..0]
}

// CHARS: letters and digits that differ, for which none of these signals has a mark.
fn chars(text: &[u8], c: words::Cursor, sigs: &[u16], table: &[u8]) -> words::Cursor
    requires { (length table.now ≡ table_size) × Below sigs.now }
    ensures { Chars text.now c sigs.now table.now result }
{
    let d = words::word(text, c);
    let w = words::bytes_of(text, c.at, c.end);
    let e = words::refuse_if(d, ENTRY + 1 <= w.len(), TOO_MANY, c.at);
    let f = words::refuse_if(e, repeats(w) | taken(table, sigs, w), BAD_WAVEFORM, c.at);
    words::refuse_if(f, !words::all_chars(w), BAD_DATA, c.at)
}

// CHARS and their events, for these signals.
fn entry(text: &[u8], x: Seen, sigs: &[u16], table: &mut [u8], watch: Watch) -> Seen
    requires { (length table.old ≡ table_size) × Below sigs.now × Placed text.now x.cursor }
    ensures makes { (here : Bool) (ws : List Wave) → Noted text.now here watch table.old x.sight ws → Makes text.now x.cursor (entry_of sigs.now ws) result.cursor (Noted text.now here watch table.new result.sight) }
    ensures placed { Placed text.now result.cursor }
{
    let c = x.cursor;
    let sight = x.sight;
    let d = chars(text, c, sigs, &table[..]);
    if d.no != 0 {
        return Seen { cursor: d, sight };
    }
    let w = words::bytes_of(text, c.at, c.end);
    let e = words::due(text, d, b"{");
    let cursor = events(text, e, w.len());
    mark_all(table, sigs, w);
    let sight = look(watch, sight, sigs, w, c.at);
    Seen { cursor, sight }
}

// The entries of a name, up to its closing brace.
fn entries(text: &[u8], x: Seen, sigs: &[u16], table: &mut [u8], watch: Watch) -> Seen
    requires { (length table.old ≡ table_size) × Below sigs.now × Described table.old × Placed text.now x.cursor }
    ensures { (here : Bool) (ws : List Wave) → Noted text.now here watch table.old x.sight ws → Makes text.now x.cursor (entries_of sigs.now ws) result.cursor (Noted text.now here watch table.new result.sight) }
{
    let mut x = x;
    while words::until(text, x.cursor, b"}") {
        x = entry(text, x, sigs, table, watch);
    }
    let cursor = words::due(text, x.cursor, b"}");
    let sight = x.sight;
    Seen { cursor, sight }
}

// ---- tables

// The waveforms of a signal, or of a group for each of its signals.
fn waveforms<'a>(
    text: &'a [u8],
    x: Seen,
    places: &'a [usize],
    lists: &[u16],
    names: usize,
    table: &mut [u8],
    watch: Watch,
) -> Seen
    requires { (length table.old ≡ table_size) × (Sized places.now lists.now × Chained text.now places.now names) × AllBelow (names_of text.now places.now lists.now names) × Described table.old }
    ensures { (here : Bool) (ws : List Wave) → Noted text.now here watch table.old x.sight ws → Makes text.now x.cursor (waveforms_of (names_of text.now places.now lists.now names) ws) result.cursor (Noted text.now here watch table.new result.sight) }
{
    let old = signals::old_name(text, x.cursor, places, names);
    let cursor = words::due(text, old.cursor, b"{");
    let sight = x.sight;
    let y = Seen { cursor, sight };
    if cursor.no != 0 {
        return y;
    }
    let sigs = row(lists, old.number);
    entries(text, y, sigs, table, watch)
}

// All waveforms of a table, up to their closing brace.
fn block<'a>(
    text: &'a [u8],
    x: Seen,
    places: &'a [usize],
    lists: &[u16],
    names: usize,
    table: &mut [u8],
    watch: Watch,
) -> Seen
    requires { (length table.old ≡ table_size) × (Sized places.now lists.now × Chained text.now places.now names) × AllBelow (names_of text.now places.now lists.now names) × Described table.old }
    ensures { (here : Bool) (ws : List Wave) → Noted text.now here watch table.old x.sight ws → Makes text.now x.cursor (block_of (names_of text.now places.now lists.now names) ws) result.cursor (Noted text.now here watch table.new result.sight) }
{
    let mut x = x;
    while words::until(text, x.cursor, b"}") {
        x = waveforms(text, x, places, lists, names, table, watch);
    }
    let cursor = words::due(text, x.cursor, b"}");
    let sight = x.sight;
    Seen { cursor, sight }
}

// What stands between a table's name and its waveforms; its period.
fn head(text: &[u8], c: words::Cursor) -> words::Numbered
    ensures { (k : ℕ → Reader TablesOf) → Brings text.now c (head_then k) result.cursor (k result.n) }
{
    let a = words::due(text, c, b"{");
    let b = words::due(text, a, b"Period");
    let t = words::quoted(text, b, 1);
    let d = words::due(text, t.cursor, b";");
    let e = words::due(text, d, b"Waveforms");
    let cursor = words::due(text, e, b"{");
    words::Numbered { cursor, n: t.n }
}

// A table behind the first k.
fn table<'a>(
    text: &'a [u8],
    x: Seen,
    places: &'a [usize],
    lists: &[u16],
    names: usize,
    tplaces: &mut [usize],
    k: usize,
    waves: &mut [u8],
    watch: Watch,
) -> Seen
    requires tplaces_len { (length tplaces.old ≡ tables_most * 2) × (length waves.old ≡ tables_most * table_size) × (Sized places.now lists.now × Chained text.now places.now names) × AllBelow (names_of text.now places.now lists.now names) }
    requires held { (tabs : TablesOf) × Held text.now tplaces.old waves.old k tabs }
    ensures { (tabs : TablesOf) → Kept text.now tplaces.old waves.old k watch x.sight tabs → Makes text.now x.cursor (table_of (names_of text.now places.now lists.now names) tabs) result.cursor (Kept text.now tplaces.new waves.new (k + 1) watch result.sight) }
{
    let c = x.cursor;
    let sight = x.sight;
    let a = words::due(text, c, b"WaveformTable");
    let b = words::refuse_if(a, TABLES <= k, TOO_MANY, c.at);
    let d = words::new_name(text, b, &tplaces[..], k);
    let headed = head(text, d);
    let e = headed.cursor;
    if e.no != 0 {
        return Seen { cursor: e, sight };
    }
    tplaces[k * 2] = b.at;
    tplaces[k * 2 + 1] = b.end;
    let first = k * TABLE;
    let end = first + TABLE;
    let here = k == watch.table;
    // Where another table is watched nothing is looked for in this one: a sight stays.
    let unseen = if here { None } else { Some(0) };
    let y = Seen {
        cursor: e,
        sight: unseen,
    };
    let marks = &mut waves[first..end];
    let z = block(text, y, places, lists, names, marks, watch);
    let cursor = words::due(text, z.cursor, b"}");
    let sight = if here { z.sight } else { sight };
    Seen { cursor, sight }
}

// How many tables were read, at which place the entry of the watched waveform stands, and the cursor behind them.
#[derive(Clone, Copy)]
pub struct Tables {
    pub cursor: words::Cursor,
    pub count: usize,
    pub sight: Option<usize>,
}

// Timing: at least one table. The names of the tables go to `tplaces`, and a mark for each signal and character with a waveform to `waves`.
pub fn timing<'a>(
    text: &'a [u8],
    c: words::Cursor,
    places: &'a [usize],
    lists: &[u16],
    names: usize,
    tplaces: &mut [usize],
    waves: &mut [u8],
    watch: Watch,
) -> Tables
    requires tplaces_len { (length tplaces.old ≡ tables_most * 2) × (length waves.old ≡ tables_most * table_size) × Sized places.now lists.now }
    requires by_index { (i : ℕ) → get_or waves.old i 0 ≡ 0 }
    requires all_below { alive c ≡ true → AllBelow (names_of text.now places.now lists.now names) × Chained text.now places.now names }
    ensures { Makes text.now c (timing_of (names_of text.now places.now lists.now names)) result.cursor (Kept text.now tplaces.new waves.new result.count watch result.sight) }
{
    if c.no != 0 {
        return Tables {
            cursor: c,
            count: 0,
            sight: None,
        };
    }
    let a = words::due(text, c, b"Timing");
    let b = words::due(text, a, b"{");
    let y = Seen {
        cursor: b,
        sight: None,
    };
    let mut x = table(text, y, places, lists, names, tplaces, 0, waves, watch);
    let mut count = 1;
    while words::until(text, x.cursor, b"}") {
        x = table(text, x, places, lists, names, tplaces, count, waves, watch);
        count += 1;
    }
    let cursor = words::due(text, x.cursor, b"}");
    let sight = x.sight;
    Tables {
        cursor,
        count,
        sight,
    }
}
