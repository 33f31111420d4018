// Any text, judged once: its refusal by 1 to 17 and 25, or its counts, a name by its number and where a waveform stands.
#![tactic(auto)]

ghost use Rattle.std.specs.Prelude.{◌≡◌, ◌≤◌, length};
ghost use Rattle.meaning.specs.Bounds.{signals_most, tables_most};
ghost use Rattle.meaning.specs.Meaning.{firsts};
ghost use Rattle.meaning.specs.Services.{name_at};
ghost use Rattle.words.specs.Table.{names};
ghost use Rattle.timing.specs.Marks.{table_size};
ghost use Rattle.timing.specs.declared.Watch.{Watch};
ghost use Rattle.texts.specs.Tables.{Found, NotesSound};
ghost use Rattle.verdicts.specs.Judged.{named_of, numbered, Judges, Copies};
ghost use Rattle.verdicts.specs.Found.{no_waveform, SomeFound, Unplayable, Crosses, Plays};

use heads::Declared;
use plays::Ground;
use spans::Times;
use texts::{Counts, Verdict};
use timing::Watch;
use tokens::Refusal;

const NOT_PLAYABLE: u8 = 17;

const ACROSS_EDGE: u8 = 25;

// What is wanted of a text beside its counts: a name by its number, and where a waveform stands.
#[derive(Clone, Copy)]
pub struct Wanted {
    pub table: bool,
    pub number: usize,
    pub watch: Watch,
}

// A name: its place in the text, and its length.
#[derive(Clone, Copy)]
pub struct Name {
    pub at: usize,
    pub length: usize,
}

// What is told of a text that is not refused: the counts, the name that is wanted and where the waveform's entry stands, if they are there.
#[derive(Clone, Copy)]
pub struct Judged {
    pub counts: Counts,
    pub name: Option<Name>,
    pub sight: Option<usize>,
}

// ---- a name by its number

// Of `count` names.
fn name_at<'a>(text: &'a [u8], places: &'a [usize], count: usize, number: usize) -> Option<Name>
    requires { count ≤ signals_most }
    ensures { name_at (firsts (names text.now places.now count)) number ≡ named_of result }
{
    if count <= number {
        return None;
    }
    let word = words::name_bytes(text, places, number);
    Some(Name {
        at: words::number_at(places, number * 2),
        length: word.len(),
    })
}

// Of the tables, or of the signals.
fn name_of<'a>(
    text: &'a [u8],
    places: &'a [usize],
    tplaces: &'a [usize],
    signals: usize,
    tables: usize,
    table: bool,
    number: usize,
) -> Option<Name>
    requires { (signals ≤ signals_most) × (tables ≤ tables_most) }
    ensures { name_at (numbered table text.now places.now tplaces.now signals tables) number ≡ named_of result }
{
    if table {
        return name_at(text, tplaces, tables, number);
    }
    name_at(text, places, signals, number)
}

// ---- any text, judged once: 1 to 17, and 25

// What is told of a text that is not refused.
fn told<'a>(
    text: &'a [u8],
    places: &'a [usize],
    tplaces: &'a [usize],
    v: Verdict,
    wanted: Wanted,
) -> Judged
    requires { (v.parts.signals ≤ signals_most) × (v.parts.known.tables ≤ tables_most) }
    ensures { Copies text.now places.now tplaces.now v wanted result }
{
    let parts = v.parts;
    let total = v.total;
    let known = parts.known;
    let signals = parts.signals;
    let tables = known.tables;
    let name = name_of(
        text,
        places,
        tplaces,
        signals,
        tables,
        wanted.table,
        wanted.number,
    );
    let counts = Counts {
        signals,
        tables,
        listed: parts.listed,
        cycles: total.cycles,
        size: total.size,
    };
    Judged {
        counts,
        name,
        sight: parts.sight,
    }
}

// The first cycle of a text's run that fails. Where the sums of its bodies show that none does, nothing is played; else they tell which of them can be passed.
fn summed<'a>(
    text: &'a [u8],
    places: &'a [usize],
    lists: &'a [u16],
    tplaces: &'a [usize],
    waves: &'a [u8],
    book: &'a [usize],
    rows: &'a [u16],
    list: &'a [usize],
    v: Verdict,
) -> Option<usize>
    requires { (w : Watch) × Found text.now w places.now lists.now tplaces.now waves.now book.now rows.now list.now v }
    ensures { Unplayable text.now places.now lists.now tplaces.now waves.now book.now rows.now list.now v result }
{
    let parts = v.parts;
    let ground = Ground {
        declared: Declared {
            text,
            places,
            lists,
            tplaces,
            book,
            rows,
            known: parts.known,
        },
        waves,
        signals: parts.signals,
    };
    let mut marks = [0u8; measures::BODIES];
    let mut sums = [0u8; grants::SUMS];
    let granted = grants::granted(
        &ground,
        list,
        parts.listed,
        parts.patterns,
        &mut marks,
        &mut sums,
    );
    if granted {
        return None;
    }
    plays::first_failing(&ground, &marks, &sums, list, parts.listed, parts.patterns)
}

// The first cycle of a text's run that fails, where 1 to 16 leave the text. Most texts are plain, and none of theirs does.
fn unplayable<'a>(
    text: &'a [u8],
    places: &'a [usize],
    lists: &'a [u16],
    tplaces: &'a [usize],
    waves: &'a [u8],
    book: &'a [usize],
    rows: &'a [u16],
    list: &'a [usize],
    used: &'a [u8],
    v: Verdict,
) -> Option<usize>
    requires { SomeFound text.now places.now lists.now tplaces.now waves.now book.now rows.now list.now used.now v }
    ensures { Unplayable text.now places.now lists.now tplaces.now waves.now book.now rows.now list.now v result }
{
    let parts = v.parts;
    if !grants::plain(
        text,
        book,
        list,
        waves,
        used,
        parts.known,
        parts.listed,
        parts.patterns,
    ) {
        return summed(text, places, lists, tplaces, waves, book, rows, list, v);
    }
    None
}

// The first pair of neighbouring cycles of a text's run that is not in order, searched for by playing it. Its tables take 2.5 MB: where two functions call it, they
// are no part of the stack that every text takes.
fn crossing<'a>(
    text: &'a [u8],
    places: &'a [usize],
    lists: &'a [u16],
    tplaces: &'a [usize],
    waves: &'a [u8],
    book: &'a [usize],
    rows: &'a [u16],
    list: &'a [usize],
    v: Verdict,
) -> Option<usize>
    requires { (w : Watch) × Found text.now w places.now lists.now tplaces.now waves.now book.now rows.now list.now v }
    ensures { Crosses text.now places.now lists.now tplaces.now waves.now book.now rows.now list.now v result }
{
    let parts = v.parts;
    let ground = Ground {
        declared: Declared {
            text,
            places,
            lists,
            tplaces,
            book,
            rows,
            known: parts.known,
        },
        waves,
        signals: parts.signals,
    };
    let mut firsts = [0u32; spans::TIMES];
    let mut lasts = [0u32; spans::TIMES];
    let mut periods = [0u64; spans::PERIODS];
    spans::of_text(text, &mut firsts, &mut lasts, &mut periods);
    let times = Times {
        firsts: &firsts,
        lasts: &lasts,
        periods: &periods,
    };
    crossings::first_failing_pair(&ground, list, parts.listed, parts.patterns, &times)
}

// What 17 and 25 say of a text's run, where 1 to 16 leave the text. In most texts every event lies within its own cycle, and nothing is played for 25.
pub fn failing<'a>(
    text: &'a [u8],
    places: &'a [usize],
    lists: &'a [u16],
    tplaces: &'a [usize],
    waves: &'a [u8],
    book: &'a [usize],
    rows: &'a [u16],
    list: &'a [usize],
    used: &'a [u8],
    v: Verdict,
) -> Result<(), Refusal>
    requires { SomeFound text.now places.now lists.now tplaces.now waves.now book.now rows.now list.now used.now v }
    ensures { Plays text.now places.now lists.now tplaces.now waves.now book.now rows.now list.now v result }
{
    if let Some(cycle) = unplayable(
        text, places, lists, tplaces, waves, book, rows, list, used, v,
    ) {
        return Err(Refusal {
            no: NOT_PLAYABLE,
            place: cycle,
        });
    }
    if quiet::is_quiet(text) {
        return Ok(());
    }
    if let Some(pair) = crossing(text, places, lists, tplaces, waves, book, rows, list, v) {
        return Err(Refusal {
            no: ACROSS_EDGE,
            place: pair,
        });
    }
    Ok(())
}

// A text that 1 to 16 leave: 17, 25, or what is wanted of it.
fn play<'a>(
    text: &'a [u8],
    places: &'a [usize],
    lists: &'a [u16],
    tplaces: &'a [usize],
    waves: &'a [u8],
    book: &'a [usize],
    rows: &'a [u16],
    list: &'a [usize],
    used: &'a [u8],
    v: Verdict,
    wanted: Wanted,
) -> Result<Judged, Refusal>
    requires { Found text.now wanted.watch places.now lists.now tplaces.now waves.now book.now rows.now list.now v × NotesSound text.now used.now v × (length used.now ≡ table_size) }
    ensures { Judges text.now wanted result }
{
    if let Some(place) = unplayable(
        text, places, lists, tplaces, waves, book, rows, list, used, v,
    ) {
        return Err(Refusal {
            no: NOT_PLAYABLE,
            place,
        });
    }
    if quiet::is_quiet(text) {
        return Ok(told(text, places, tplaces, v, wanted));
    }
    if let Some(place) = crossing(text, places, lists, tplaces, waves, book, rows, list, v) {
        return Err(Refusal {
            no: ACROSS_EDGE,
            place,
        });
    }
    Ok(told(text, places, tplaces, v, wanted))
}

// A whole text: refused by 1 to 17 or 25, or what is wanted of it.
pub fn judge(text: &[u8], wanted: Wanted) -> Result<Judged, Refusal>
    ensures { Judges text.now wanted result }
{
    let mut places = [0usize; signals::PLACES];
    let mut lists = [0u16; signals::LISTS];
    let mut tplaces = [0usize; timing::PLACES];
    let mut waves = [0u8; timing::WAVES];
    let mut book = [0usize; measures::BOOK];
    let mut rows = [0u16; measures::ROWS];
    let mut list = [0usize; bursts::LISTED];
    let mut used = [0u8; noted::USED];
    let v = texts::decide(
        text,
        &mut places,
        &mut lists,
        &mut tplaces,
        &mut waves,
        &mut book,
        &mut rows,
        &mut list,
        wanted.watch,
        &mut used,
    )?;
    play(
        text, &places, &lists, &tplaces, &waves, &book, &rows, &list, &used, v, wanted,
    )
}

// A waveform that no text has.
pub fn nowhere() -> Watch
    ensures { result ≡ no_waveform }
{
    Watch {
        table: timing::TABLES,
        signal: 0,
        char: 0,
    }
}
