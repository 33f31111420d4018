// The first and last time of each waveform in each category, read from Timing once more: tables for holding a cycle against the one before.
#![tactic(auto)]

ghost use Rattle.std.specs.Prelude.{◌≡◌, ℕ, suc, ◌+◌, ◌-◌, ◌*◌, ◌/◌, ◌%◌, ◌<◌, true, cond, not, ◌&&◌, List, [], ◌∷◌, ◌++◌, length, get_or, eqb};
ghost use Rattle.std.proofs.Math.Option.{Option};
ghost use Rattle.tokens.specs.Tokens.{Toks, toks};
ghost use Rattle.meaning.specs.Bounds.{signals_most, tables_most};
ghost use Rattle.meaning.specs.Reader.{ok, until as until_of};
ghost use Rattle.meaning.specs.Timing.{Event, Wave, Tables, waveforms as waveforms_of, table as table_of, timing as timing_of};
ghost use Rattle.meaning.specs.Document.{Read, document};
ghost use Rattle.meaning.specs.Meaning.{table_at};
ghost use Rattle.timing.specs.Watch.{Watched};
ghost use Rattle.waves.specs.Waves.{EntryAt};
ghost use Rattle.spots.specs.Answers.{Answers, Behind};
ghost use Rattle.spots.specs.Spots.{spots_most, spot_at, watch_of, sight_of, names_in, Spots, Listed};
ghost use Rattle.meaning.specs.Edges.{Category, belongs, first_time, last_time, before as before_of, follows, events_of, period_at};
ghost use Rattle.spans.specs.Spans.{char_first, chars_wide, inside as inside_of, table_wide, times_most, slots_most, slot_of, coded as coded_of, Sized, Spans};
ghost use Rattle.spans.specs.Parts.{times_below, Timely, Fit, Spanning, Spanned, Put, Filled, Clear, Upto, owners_most, Held};

use spots::Scope;
use words::Cursor;

// Characters that have times: from the first digit to the last letter.
const FIRST: usize = 48;

const CHARS: usize = 75;

const TABLE: usize = sets::MOST * CHARS;

// Places of entries that are told apart where the times of a table are shared.
const OWNERS: usize = 1024;

// How long the arrays are: first times and last times, two numbers for each table, signal and character; and a period for each table.
pub const TIMES: usize = timing::TABLES * TABLE * 2;

pub const PERIODS: usize = timing::TABLES;

// The three arrays, filled.
#[derive(Clone, Copy)]
pub struct Times<'a> {
    pub firsts: &'a [u32],
    pub lasts: &'a [u32],
    pub periods: &'a [u64],
}

// ---- looking

fn inside(b: u8) -> bool
    ensures { result ≡ inside_of b }
{
    (48 <= b) & (b <= 122)
}

// Does the last event come before the first of the next cycle, a period later? Each is one more than its time, 0 for none.
fn apart(period: u64, last: u32, first: u32) -> bool
    ensures { (l f : Option ℕ) → last ≡ coded_of l → first ≡ coded_of f → result ≡ before_of period l f }
{
    if (last == 0) | (first == 0) {
        return true;
    }
    if last < first {
        return true;
    }
    ((last - first) as u64) < period
}

// The number of a category's time (0 drive, 1 compare) for character c of signal s in table j; 0 for none.
fn time(row: &[u32], j: usize, s: usize, c: u8, side: usize) -> u32
    requires { (length row.now ≡ times_most) × (j < tables_most) × (s < signals_most) × (side < 2) }
    ensures { result ≡ cond (inside_of c) (get_or row.now (slot_of j s c * 2 + side) 0) 0 }
{
    if inside(c) {
        let at = (j * TABLE + (s * CHARS + (c as usize - FIRST))) * 2 + side;
        return row[at];
    }
    0
}

// Does signal s, with c under table j in one cycle and d under table k in the next, have its events in order?
pub fn fine<'a>(times: &'a Times<'a>, j: usize, k: usize, s: usize, c: u8, d: u8) -> bool
    requires { Sized times.now.firsts.now times.now.lasts.now times.now.periods.now × (s < signals_most) × (j < tables_most) × (k < tables_most) }
    ensures { (tabs : Tables) → Spans tabs times.now.firsts.now times.now.lasts.now times.now.periods.now → result ≡ follows (period_at tabs j) (events_of s c (table_at tabs j)) (events_of s d (table_at tabs k)) }
{
    let period = times.periods[j];
    let drives = apart(
        period,
        time(times.lasts, j, s, c, 0),
        time(times.firsts, k, s, d, 0),
    );
    let compares = apart(
        period,
        time(times.lasts, j, s, c, 1),
        time(times.firsts, k, s, d, 1),
    );
    drives & compares
}

// ---- the times of a waveform

// A time's number.
fn coded(t: u64) -> u32
    ensures { t < times_below → result ≡ suc t }
{
    if t < 4_294_967_295 {
        return t as u32 + 1;
    }
    0
}

// The first of a category stays, where an event of it is here.
fn first(here: bool, old: u32, new: u32) -> u32
    ensures { result ≡ cond (here && eqb old 0) new old }
{
    if here & (old == 0) { new } else { old }
}

fn last(here: bool, old: u32, new: u32) -> u32
    ensures { result ≡ cond here new old }
{
    if here { new } else { old }
}

// The first and last time of a category, each one more, 0 for none.
#[derive(Clone, Copy)]
struct Span {
    first: u32,
    last: u32,
}

// An event more, which is here where it is of the category; n is one more than its time.
fn more(x: Span, here: bool, n: u32) -> Span
    ensures { (k : Category) (t e : ℕ) (es : List Event) → here ≡ belongs k e → n ≡ suc t → Spanning k x es → Spanning k result (es ++ record { time = t; letter = e } ∷ []) }
{
    Span {
        first: first(here, x.first, n),
        last: last(here, x.last, n),
    }
}

// Those of drive and of compare events.
#[derive(Clone, Copy)]
struct Both {
    drive: Span,
    compare: Span,
}

fn nothing() -> Both
    ensures { Spanned result [] }
{
    let none = Span { first: 0, last: 0 };
    Both {
        drive: none,
        compare: none,
    }
}

// An event more.
fn event(x: Both, t: u64, e: u8) -> Both
    ensures { (es : List Event) → t < times_below → Spanned x es → Spanned result (es ++ record { time = t; letter = e } ∷ []) }
{
    let n = coded(t);
    let drive = more(x.drive, timing::drives(e), n);
    let compare = more(x.compare, timing::compares(e), n);
    Both { drive, compare }
}

// Those of a character, of the entry at a place.
fn read(text: &[u8], place: usize, char: u8) -> Both
    requires { (es : List Event) × EntryAt text.now place char es }
    ensures { (es : List Event) → EntryAt text.now place char es → Timely es → Spanned result es }
{
    let mut times = [0u64; waves::EVENTS];
    let mut letters = [0u8; waves::EVENTS];
    let n = waves::read(text, place, char, &mut times, &mut letters);
    let mut x = nothing();
    for i in 0..n {
        x = event(x, times[i], letters[i]);
    }
    x
}

// Those of a spot, which has none where it is 0.
fn of_spot(text: &[u8], spot: usize, char: u8) -> Both
    requires { (s : ℕ) × (ws : List Wave) × Watched text.now (watch_of s char) (sight_of spot) ws }
    ensures { (s : ℕ) (ws : List Wave) → Watched text.now (watch_of s char) (sight_of spot) ws → Fit ws → inside_of char ≡ true → Spanned result (events_of s char ws) }
{
    if spot == 0 {
        return nothing();
    }
    read(text, spot - 1, char)
}

// ---- filling

fn put(row: &mut [u32], n: usize, drive: u32, compare: u32)
    requires { (length row.old ≡ times_most) × (n < slots_most) }
    ensures { Put row.old n drive compare row.new }
{
    row[n * 2] = drive;
    row[n * 2 + 1] = compare;
}

// Those of a slot that is filled.
fn filled(firsts: &[u32], lasts: &[u32], n: usize) -> Both
    requires { (length firsts.now ≡ times_most) × (length lasts.now ≡ times_most) × (n < slots_most) }
    ensures { Filled firsts.now lasts.now n result }
{
    let at = n * 2;
    let drive = Span {
        first: firsts[at],
        last: lasts[at],
    };
    let compare = Span {
        first: firsts[at + 1],
        last: lasts[at + 1],
    };
    Both { drive, compare }
}

// A signal before that of slot i that has the same entry for its character, or none: this one.
fn owner(spots: &[usize], i: usize, earlier: usize) -> usize
    requires { (length spots.now ≡ spots_most) × (i < table_wide) }
    ensures { result < i / chars_wide → spot_at spots.now result (char_first + i % chars_wide) ≡ spot_at spots.now (i / chars_wide) (char_first + i % chars_wide) }
{
    let s = i / CHARS;
    let char = FIRST + i % CHARS;
    if earlier < s {
        if spots[earlier * spots::BYTES + char] == spots[s * spots::BYTES + char] {
            return earlier;
        }
    }
    s
}

// Those of slot i of table j: an earlier signal's with the same entry, so that a group's entries are read once, or those that are read.
fn slot(
    text: &[u8],
    spots: &[usize],
    firsts: &[u32],
    lasts: &[u32],
    j: usize,
    i: usize,
    earlier: usize,
) -> Both
    requires spots_len { (length spots.now ≡ spots_most) × (length firsts.now ≡ times_most) × (length lasts.now ≡ times_most) × (j < tables_most) × (i < table_wide) }
    requires chars_wide_value { earlier < i / chars_wide → spot_at spots.now earlier (char_first + i % chars_wide) ≡ spot_at spots.now (i / chars_wide) (char_first + i % chars_wide) }
    requires spots { (ws : List Wave) × Spots text.now spots.now ws }
    ensures { (ws : List Wave) (f l : List ℕ) → Spots text.now spots.now ws → Fit ws → Upto first_time j ws i f firsts.now → Upto last_time j ws i l lasts.now → Spanned result (events_of (i / chars_wide) (char_first + i % chars_wide) ws) }
{
    let s = i / CHARS;
    let char = FIRST + i % CHARS;
    if earlier < s {
        return filled(firsts, lasts, j * TABLE + (earlier * CHARS + i % CHARS));
    }
    of_spot(text, spots[s * spots::BYTES + char], char as u8)
}

// Slot i of table j is filled, unless it has no entry: it is 0 already. Of each place of an entry, as far as places are told apart, the first signal is kept.
fn put_slot(
    text: &[u8],
    spots: &[usize],
    j: usize,
    i: usize,
    firsts: &mut [u32],
    lasts: &mut [u32],
    owners: &mut [usize],
)
    requires spots_len { (length spots.now ≡ spots_most) × (length firsts.old ≡ times_most) × (length lasts.old ≡ times_most) × (length owners.old ≡ owners_most) × (j < tables_most) × (i < table_wide) }
    requires spots { (ws : List Wave) × Spots text.now spots.now ws }
    ensures { (ws : List Wave) (f l : List ℕ) → Spots text.now spots.now ws → Fit ws → Clear j f → Clear j l → Upto first_time j ws i f firsts.old → Upto last_time j ws i l lasts.old → Upto first_time j ws (i + 1) f firsts.new × Upto last_time j ws (i + 1) l lasts.new }
{
    let spot = spots[i / CHARS * spots::BYTES + (FIRST + i % CHARS)];
    if spot == 0 {
        return;
    }
    let place = spot % OWNERS;
    let earlier = owner(spots, i, owners[place]);
    let x = slot(text, spots, &firsts[..], &lasts[..], j, i, earlier);
    let drive = x.drive;
    let compare = x.compare;
    put(firsts, j * TABLE + i, drive.first, compare.first);
    put(lasts, j * TABLE + i, drive.last, compare.last);
    owners[place] = earlier;
}

// The times of a table's waveforms, from its spots, where there are none yet.
fn table_times(text: &[u8], spots: &[usize], j: usize, firsts: &mut [u32], lasts: &mut [u32])
    requires spots_len { (length spots.now ≡ spots_most) × (length firsts.old ≡ times_most) × (length lasts.old ≡ times_most) × (j < tables_most) }
    requires spots { (ws : List Wave) × Spots text.now spots.now ws }
    ensures { (ws : List Wave) → Spots text.now spots.now ws → Fit ws → Clear j firsts.old → Clear j lasts.old → Upto first_time j ws table_wide firsts.old firsts.new × Upto last_time j ws table_wide lasts.old lasts.new }
{
    let mut owners = [0usize; OWNERS];
    for i in 0..TABLE {
        put_slot(text, spots, j, i, firsts, lasts, &mut owners);
    }
}

// The waveforms of table j, read up to their closing brace.
fn waveforms<'a>(
    scope: Scope<'a>,
    c: Cursor,
    j: usize,
    firsts: &mut [u32],
    lasts: &mut [u32],
) -> Cursor
    requires firsts_len { (length firsts.old ≡ times_most) × (length lasts.old ≡ times_most) × (j < tables_most) × Listed scope.lists.now scope.names }
    requires answers { (ws : List Wave) × (us : Toks) × Answers scope.text.now c (until_of "}" (waveforms_of (names_in scope)) []) ws us }
    ensures { (ws : List Wave) (us : Toks) → Answers scope.entry.text.now c (until_of "}" (waveforms_of (names_in scope.entry)) []) ws us → Clear j firsts.old → Clear j lasts.old → Behind scope.entry.text.now result us × (Upto first_time j ws table_wide firsts.old firsts.new × Upto last_time j ws table_wide lasts.old lasts.new) }
{
    let mut spots = [0usize; spots::SPOTS];
    let cursor = spots::table_spots(scope, c, &mut spots);
    table_times(scope.text, &spots, j, firsts, lasts);
    cursor
}

// Table j, from `WaveformTable` to its last brace.
fn table<'a>(
    scope: Scope<'a>,
    c: Cursor,
    j: usize,
    firsts: &mut [u32],
    lasts: &mut [u32],
    periods: &mut [u64],
) -> Cursor
    requires sized { Sized firsts.old lasts.old periods.old × Listed scope.lists.now scope.names }
    requires held { (tabs : Tables) × (it : Tables) × (us : Toks) × Held j tabs firsts.old lasts.old periods.old × Answers scope.text.now c (table_of (names_in scope) tabs) it us }
    ensures { (tabs it : Tables) (us : Toks) → Held j tabs firsts.old lasts.old periods.old → Answers scope.entry.text.now c (table_of (names_in scope.entry) tabs) it us → Behind scope.entry.text.now result us × Held (j + 1) it firsts.new lasts.new periods.new }
{
    let a = words::due(scope.text, c, b"WaveformTable");
    let d = words::name(scope.text, a);
    let h = spots::head(scope.text, d);
    let e = waveforms(scope, h.cursor, j, firsts, lasts);
    periods[j] = h.n;
    words::due(scope.text, e, b"}")
}

// Further tables, up to the last brace of Timing.
fn others<'a>(
    scope: Scope<'a>,
    c: Cursor,
    firsts: &mut [u32],
    lasts: &mut [u32],
    periods: &mut [u64],
)
    requires sized { Sized firsts.old lasts.old periods.old × Listed scope.lists.now scope.names }
    requires held { (tabs : Tables) × (it : Tables) × (us : Toks) × Held 1 tabs firsts.old lasts.old periods.old × Answers scope.text.now c (until_of "}" (table_of (names_in scope)) tabs) it us }
    ensures { (tabs it : Tables) (us : Toks) → Held 1 tabs firsts.old lasts.old periods.old → Answers scope.entry.text.now c (until_of "}" (table_of (names_in scope.entry)) tabs) it us → Spans it firsts.new lasts.new periods.new }
{
    let mut cursor = c;
    let mut j = 1;
    while words::until(scope.text, cursor, b"}") {
        cursor = table(scope, cursor, j, firsts, lasts, periods);
        j += 1;
    }
}

// The times of all tables, from the cursor that stands at Timing, over the names of signals and groups.
pub fn fill<'a>(
    scope: Scope<'a>,
    c: Cursor,
    firsts: &mut [u32],
    lasts: &mut [u32],
    periods: &mut [u64],
)
    requires sized { Sized firsts.old lasts.old periods.old × Listed scope.lists.now scope.names }
    requires by_index { (i : ℕ) → (get_or firsts.old i 0 ≡ 0) × (get_or lasts.old i 0 ≡ 0) × (get_or periods.old i 0 ≡ 0) }
    requires answers { (it : Tables) × (us : Toks) × Answers scope.text.now c (timing_of (names_in scope)) it us }
    ensures { (it : Tables) (us : Toks) → Answers scope.entry.text.now c (timing_of (names_in scope.entry)) it us → Spans it firsts.new lasts.new periods.new }
{
    let a = words::due(scope.text, c, b"Timing");
    let b = words::due(scope.text, a, b"{");
    let d = table(scope, b, 0, firsts, lasts, periods);
    others(scope, d, firsts, lasts, periods);
}

// The times of a text that was read, accepted or not.
pub fn of_text(text: &[u8], firsts: &mut [u32], lasts: &mut [u32], periods: &mut [u64])
    requires sized { Sized firsts.old lasts.old periods.old }
    requires by_index { (i : ℕ) → (get_or firsts.old i 0 ≡ 0) × (get_or lasts.old i 0 ≡ 0) × (get_or periods.old i 0 ≡ 0) }
    requires text_value { (d : Read) × (us : Toks) × (document (toks text.now 0) ≡ ok d us) }
    ensures { (d : Read) (us : Toks) → document (toks text.now 0) ≡ ok d us → Spans d.tables firsts.new lasts.new periods.new }
{
    let mut places = [0usize; signals::PLACES];
    let mut lists = [0u16; signals::LISTS];
    let c = spots::opening(text);
    let f = signals::front(text, c, &mut places, &mut lists);
    let scope = Scope {
        text,
        places: &places,
        lists: &lists,
        names: f.names,
    };
    fill(scope, f.cursor, firsts, lasts, periods);
}
