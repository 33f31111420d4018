// Timing of a folded text: the tables of an accepted text, read once more and written to a page, each signal's characters in the order of their bytes.
#![tactic(auto)]

ghost use Rattle.std.specs.Prelude.{◌≡◌, ◌≤◌, ◌<◌, List, [], length, eqb};
ghost use Rattle.std.specs.List.{list_all};
ghost use Rattle.tokens.specs.Tokens.{Toks};
ghost use Rattle.meaning.specs.Bounds.{signals_most};
ghost use Rattle.meaning.specs.Reader.{until as until_of};
ghost use Rattle.meaning.specs.Timing.{Event, Wave, Tables, waveforms as waveforms_of, table as table_of, timing as timing_of};
ghost use Rattle.meaning.specs.Meaning.{given, Meaning, meaning};
ghost use Rattle.waves.specs.Waves.{EntryAt};
ghost use Rattle.folded.specs.Pieces.{laid, each};
ghost use Rattle.folded.specs.Flat.{characters, entries_of, chart as chart_of, charts_from, sheets, flat};
ghost use Rattle.folded.specs.Layout.{event_put, entry_put, chart_put, timing_put};
ghost use Rattle.pens.specs.Pens.{Writes};
ghost use Rattle.spots.specs.Answers.{Answers, Behind};
ghost use Rattle.spots.specs.Spots.{bytes_most, spots_most, spot_at, names_in, Spots, Listed, signals_in};
ghost use Rattle.timings.specs.Lines.{titled, charted, OneSheet, MoreSheets};

use pens::Pen;
use spots::{BYTES, Scope};
use words::Cursor;

// ---- writing

// 'T'E;
fn event(page: &mut [u8], pen: Pen, time: u64, letter: u8) -> Pen
    ensures { Writes page.old pen (laid (event_put (record { time = time; letter = letter }) [])) page.new result }
{
    let p = pens::add(page, pen, b"'");
    let q = pens::add_signed(page, p, time);
    let tail = [b'\'', letter, b';'];
    pens::add(page, q, &tail)
}

// CHARACTER{'T'E;..}: the events of a character, of the entry at a place.
fn entry(page: &mut [u8], pen: Pen, text: &[u8], place: usize, char: u8) -> Pen
    requires { (es : List Event) × EntryAt text.now place char es }
    ensures { (es : List Event) → EntryAt text.now place char es → Writes page.old pen (laid (entry_put (char, es) [])) page.new result }
{
    let mut times = [0u64; waves::EVENTS];
    let mut letters = [0u8; waves::EVENTS];
    let n = waves::read(text, place, char, &mut times, &mut letters);
    let head = [char, b'{'];
    let mut p = pens::add(page, pen, &head);
    for i in 0..n {
        p = event(page, p, times[i], letters[i]);
    }
    pens::add(page, p, b"}")
}

// Has signal s no waveform for any of these characters?
fn is_bare(spots: &[usize], chars: &[u8], s: usize) -> bool
    requires { (length spots.now ≡ spots_most) × (s < signals_most) }
    ensures { result ≡ list_all (λ c. eqb (spot_at spots.now s c) 0) chars.now }
{
    chars.iter().all(|c| spots[s * BYTES + *c as usize] == 0)
}

// NAME{CHARACTER{'T'E;..}..}: the line of signal s, nothing where it has no character.
fn chart<'a>(
    page: &mut [u8],
    pen: Pen,
    text: &'a [u8],
    name: &'a [u8],
    chars: &[u8],
    spots: &[usize],
    s: usize,
) -> Pen
    requires spots_len { (length spots.now ≡ spots_most) × (s < signals_most) × (length chars.now ≤ bytes_most) }
    requires spots { (ws : List Wave) × Spots text.now spots.now ws }
    ensures { (ws : List Wave) → Spots text.now spots.now ws → Writes page.old pen (laid (each chart_put (chart_of name.now s (entries_of s ws chars.now) []) [])) page.new result }
{
    if is_bare(spots, chars, s) {
        return pen;
    }
    let q = pens::add(page, pen, name);
    let mut p = pens::add(page, q, b"{");
    for char in chars {
        let spot = spots[s * BYTES + *char as usize];
        if spot != 0 {
            p = entry(page, p, text, spot - 1, *char);
        }
    }
    pens::add(page, p, b"}\n")
}

// The lines of all signals.
fn charts<'a>(
    page: &mut [u8],
    pen: Pen,
    text: &'a [u8],
    places: &'a [usize],
    count: usize,
    chars: &[u8],
    spots: &[usize],
) -> Pen
    requires spots_len { (length spots.now ≡ spots_most) × (count ≤ signals_most) × (chars.now ≡ characters) }
    requires spots { (ws : List Wave) × Spots text.now spots.now ws }
    ensures { (ws : List Wave) → Spots text.now spots.now ws → Writes page.old pen (laid (each chart_put (charts_from 0 (signals_in text.now places.now count) ws) [])) page.new result }
{
    let mut p = pen;
    for i in 0..count {
        let name = words::name_bytes(text, places, i);
        p = chart(page, p, text, name, chars, spots, i);
    }
    p
}

// WaveformTable NAME{Period'T';Waveforms{
fn title(page: &mut [u8], pen: Pen, name: &[u8], period: u64) -> Pen
    ensures { Writes page.old pen (titled name.now period) page.new result }
{
    let p = pens::add(page, pen, b"WaveformTable ");
    let q = pens::add(page, p, name);
    let s = pens::add(page, q, b"{Period'");
    let t = pens::add_time(page, s, period);
    pens::add(page, t, b"';Waveforms{\n")
}

// ---- tables

// Behind a table that was read and written.
#[derive(Clone, Copy)]
struct Sheet {
    cursor: Cursor,
    pen: Pen,
}

// The waveforms of a table, read up to their closing brace, and its signals' lines with their own.
fn waveforms<'a>(page: &mut [u8], pen: Pen, scope: Scope<'a>, c: Cursor, count: usize) -> Sheet
    requires listed { Listed scope.lists.now scope.names × (count ≤ signals_most) }
    requires answers { (ws : List Wave) × (us : Toks) × Answers scope.text.now c (until_of "}" (waveforms_of (names_in scope)) []) ws us }
    ensures { (ws : List Wave) (us : Toks) → Answers scope.entry.text.now c (until_of "}" (waveforms_of (names_in scope.entry)) []) ws us → Behind scope.entry.text.now result.cursor us × Writes page.old pen (charted (charts_from 0 (signals_in scope.entry.text.now scope.entry.places.now count) ws)) page.new result.pen }
{
    let mut spots = [0usize; spots::SPOTS];
    let cursor = spots::table_spots(scope, c, &mut spots);
    let p = charts(
        page,
        pen,
        scope.text,
        scope.places,
        count,
        b"0123456789ABCDEFGHIJKLMNOPQRSTUVWXYZabcdefghijklmnopqrstuvwxyz",
        &spots,
    );
    let pen = pens::add(page, p, b"}}\n");
    Sheet { cursor, pen }
}

// A table, from `WaveformTable` to its last brace.
fn table<'a>(page: &mut [u8], pen: Pen, scope: Scope<'a>, c: Cursor, count: usize) -> Sheet
    requires listed { Listed scope.lists.now scope.names × (count ≤ signals_most) }
    requires answers { (tabs : Tables) × (it : Tables) × (us : Toks) × Answers scope.text.now c (table_of (names_in scope) tabs) it us }
    ensures { (tabs it : Tables) (us : Toks) → Answers scope.entry.text.now c (table_of (names_in scope.entry) tabs) it us → Behind scope.entry.text.now result.cursor us × OneSheet page.old pen (signals_in scope.entry.text.now scope.entry.places.now count) tabs it page.new result.pen }
{
    let a = words::due(scope.text, c, b"WaveformTable");
    let d = words::name(scope.text, a);
    let h = spots::head(scope.text, d);
    let p = title(page, pen, words::bytes_of(scope.text, a.at, a.end), h.n);
    let x = waveforms(page, p, scope, h.cursor, count);
    let cursor = words::due(scope.text, x.cursor, b"}");
    let pen = x.pen;
    Sheet { cursor, pen }
}

// Further tables, up to the last brace of Timing.
fn others<'a>(page: &mut [u8], pen: Pen, scope: Scope<'a>, c: Cursor, count: usize) -> Pen
    requires listed { Listed scope.lists.now scope.names × (count ≤ signals_most) }
    requires answers { (tabs : Tables) × (it : Tables) × (us : Toks) × Answers scope.text.now c (until_of "}" (table_of (names_in scope)) tabs) it us }
    ensures { (tabs it : Tables) (us : Toks) → Answers scope.entry.text.now c (until_of "}" (table_of (names_in scope.entry)) tabs) it us → MoreSheets page.old pen (signals_in scope.entry.text.now scope.entry.places.now count) tabs it page.new result }
{
    let mut cursor = c;
    let mut p = pen;
    while words::until(scope.text, cursor, b"}") {
        let x = table(page, p, scope, cursor, count);
        cursor = x.cursor;
        p = x.pen;
    }
    p
}

// Timing{ .. }: from the cursor that stands at it, over the names of signals and groups.
pub fn tables<'a>(page: &mut [u8], pen: Pen, scope: Scope<'a>, c: Cursor, count: usize) -> Pen
    requires listed { Listed scope.lists.now scope.names × (count ≤ signals_most) }
    requires answers { (it : Tables) × (us : Toks) × Answers scope.text.now c (timing_of (names_in scope)) it us }
    ensures { (it : Tables) (us : Toks) → Answers scope.entry.text.now c (timing_of (names_in scope.entry)) it us → Writes page.old pen (laid (timing_put (sheets (signals_in scope.entry.text.now scope.entry.places.now count) it) [])) page.new result }
{
    let a = words::due(scope.text, c, b"Timing");
    let b = words::due(scope.text, a, b"{");
    let p = pens::add(page, pen, b"Timing{\n");
    let x = table(page, p, scope, b, count);
    let q = others(page, x.pen, scope, x.cursor, count);
    pens::add(page, q, b"}\n")
}

pub fn timing(page: &mut [u8], pen: Pen, text: &[u8]) -> Pen
    requires { (m : Meaning) × (meaning text.now ≡ given m) }
    ensures { (m : Meaning) → meaning text.now ≡ given m → Writes page.old pen (laid (timing_put (flat text.now m).tables [])) page.new result }
{
    let mut places = [0usize; signals::PLACES];
    let mut lists = [0u16; signals::LISTS];
    let c = spots::opening(text);
    let f = signals::front(text, c, &mut places, &mut lists);
    let scope = Scope {
        text,
        places: &places,
        lists: &lists,
        names: f.names,
    };
    tables(page, pen, scope, f.cursor, f.signals)
}
