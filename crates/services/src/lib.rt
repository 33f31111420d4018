// The services without rows: Check, Name, Waveform, waveforms by the list, the index and the saving of hurt texts, for any text, any numbers and any
// buffers. Callers in C have more handed out, and ask those with a `spare`.
#![tactic(auto)]

ghost use Rattle.std.specs.Prelude.{◌≡◌, true, ◌≤◌, length, take};
ghost use Rattle.tokens.specs.Refusals.{text_most};
ghost use Rattle.meaning.specs.Bounds.{entry_most};
ghost use Rattle.meaning.specs.Meaning.{given};
ghost use Rattle.meaning.specs.Services.{check as check_of, name_of, waveform as waveform_of};
ghost use Rattle.meaning.specs.Charts.{waveforms as waveforms_of};
ghost use Rattle.index.specs.Index.{index as index_of, belongs as belongs_to, holds as holds_in};
ghost use Rattle.index.specs.Lines.{index_most};
ghost use Rattle.saving.specs.Saving.{Saved as SavedText, saving, save as save_of};
ghost use Rattle.saving.specs.Spans.{noted_all};
ghost use Rattle.saving.specs.Mends.{Turns, Mends};
ghost use Rattle.verdicts.specs.Judged.{which_of};
ghost use Rattle.verdicts.specs.Found.{SomeFound};
ghost use Rattle.verdicts.specs.Buffers.{spared};
ghost use Rattle.services.specs.declared.Undrawn.TheVariants.{Refused};
ghost use Rattle.services.specs.Answers.{checked_of, located_of};
ghost use Rattle.services.specs.Waveforms.{Outlines, Shapes};
ghost use Rattle.services.specs.Charts.{Plots};
ghost use Rattle.services.specs.Indexes.{Rebuilds, belonging_of, holding_of, Indexes};
ghost use Rattle.services.specs.Saves.{SomeCopy, Saves};

use charts::NO_SUCH;
use saving::{Hurt, Mended};
use texts::{Counts, Verdict};
use timing::Watch;
use tokens::{Refusal, TEXT_MOST, TOO_LONG};
use verdicts::{Name, Wanted};
use words::{NO_ROOM, TOO_MANY};

// The numbers of 64 spans: more are rare.
const LOG: usize = 128;

// Refusal: an index that is not the text's.
const NOT_THE_INDEX: u8 = 21;

// The length of an index, and the listed pattern that holds a cycle.
#[derive(Clone, Copy)]
struct Rebuilt {
    length: usize,
    holder: Option<usize>,
}

// Why not all waveforms of a list are served.
#[derive(Clone, Copy)]
pub enum Undrawn {
    // refused before any of them
    Refused(Refusal),
    // the first that is refused, and how many were served before it
    Stopped(Refusal, usize),
}

impl From<Refusal> for Undrawn {
    ghost from_gives = { λ x r. r ≡ Refused x };

    fn from(refusal: Refusal) -> Undrawn {
        Undrawn::Refused(refusal)
    }
}

// ---- Check

pub fn check(text: &[u8]) -> Result<Counts, Refusal>
    ensures { checked_of result ≡ check_of text.now }
{
    let watch = verdicts::nowhere();
    let j = verdicts::judge(
        text,
        Wanted {
            table: false,
            number: 0,
            watch,
        },
    )?;
    Ok(j.counts)
}

// ---- Name

// The name of a signal, or of a table, by its number.
pub fn name(text: &[u8], table: bool, number: usize) -> Result<Name, Refusal>
    ensures { located_of result ≡ name_of text.now (which_of table) number }
{
    let watch = verdicts::nowhere();
    let j = verdicts::judge(
        text,
        Wanted {
            table,
            number,
            watch,
        },
    )?;
    j.name.ok_or(Refusal {
        no: NO_SUCH,
        place: 0,
    })
}

// ---- Waveform

// The events of a table, signal and character, to the front of two arrays, their times as they are counted: 1 to 18, or how many there are.
pub fn events(
    text: &[u8],
    table: usize,
    signal: usize,
    char: u8,
    ts: &mut [u64],
    ls: &mut [u8],
) -> Result<usize, Refusal>
    requires { (length ts.old ≡ entry_most) × (length ls.old ≡ entry_most) }
    ensures { Outlines text.now table signal char ts.new ls.new result }
{
    let watch = Watch {
        table,
        signal,
        char,
    };
    let j = verdicts::judge(
        text,
        Wanted {
            table: false,
            number: 0,
            watch,
        },
    )?;
    let Some(entry) = j.sight else {
        return Err(Refusal {
            no: NO_SUCH,
            place: 0,
        });
    };
    Ok(waves::read(text, entry, char, ts, ls))
}

// The waveform of a table, signal and character: its events' times in ps, each the 64 bits of a signed number, and their letters, to the front of both buffers.
pub fn waveform(
    text: &[u8],
    table: usize,
    signal: usize,
    char: u8,
    times: &mut [u64],
    letters: &mut [u8],
) -> Result<usize, Refusal>
    ensures { Shapes (waveform_of text.now table signal char times.old letters.old) times.old times.new letters.old letters.new result }
{
    let mut ts = [0u64; waves::EVENTS];
    let mut ls = [0u8; waves::EVENTS];
    let n = events(text, table, signal, char, &mut ts, &mut ls)?;
    if (times.len() < n) | (letters.len() < n) {
        return Err(Refusal {
            no: NO_ROOM,
            place: 0,
        });
    }
    charts::put(&ts, &ls, n, times, letters);
    Ok(n)
}

// ---- Waveforms by the list

// Any text: 1 to 17, 25, 8, 19, or what the single calls leave. There is room for what else is handed out (`spare`), or that is 19 too.
pub fn plotted(
    text: &[u8],
    asked: &[u64],
    spare: bool,
    times: &mut [u64],
    letters: &mut [u8],
    counts: &mut [u64],
) -> Result<usize, Undrawn>
    ensures { Plots (spared spare (waveforms_of text.now asked.now times.old letters.old counts.old)) times.old times.new letters.old letters.new counts.old counts.new result }
{
    let watch = verdicts::nowhere();
    verdicts::judge(
        text,
        Wanted {
            table: false,
            number: 0,
            watch,
        },
    )?;
    if charts::too_many(asked) {
        return Err(Undrawn::Refused(Refusal {
            no: TOO_MANY,
            place: 0,
        }));
    }
    let roomy = charts::within(asked, counts.len());
    if !roomy | !spare {
        return Err(Undrawn::Refused(Refusal {
            no: NO_ROOM,
            place: 0,
        }));
    }
    let s = charts::serve(text, asked, times, letters, counts);
    if let Some(no) = s.stopped {
        let refusal = Refusal { no, place: 0 };
        return Err(Undrawn::Stopped(refusal, s.served));
    }
    Ok(s.events)
}

// The waveforms that a list asks for, a table, a signal and a character for each, as single calls in order give them: their events one group behind the
// other at the front of two buffers, and how many each has at the front of a third.
pub fn waveforms(
    text: &[u8],
    asked: &[u64],
    times: &mut [u64],
    letters: &mut [u8],
    counts: &mut [u64],
) -> Result<usize, Undrawn>
    ensures { Plots (waveforms_of text.now asked.now times.old letters.old counts.old) times.old times.new letters.old letters.new counts.old counts.new result }
{
    plotted(text, asked, true, times, letters, counts)
}

// ---- the index

// The index of a text that 1 to 16 leave: 17, or its bytes at the front of a page; and the listed pattern that holds a cycle.
fn rebuild_found<'a>(
    text: &'a [u8],
    places: &'a [usize],
    lists: &'a [u16],
    tplaces: &'a [usize],
    waves: &'a [u8],
    book: &'a [usize],
    rows: &'a [u16],
    list: &'a [usize],
    used: &'a [u8],
    v: Verdict,
    cycle: usize,
    page: &mut [u8],
) -> Result<Rebuilt, Refusal>
    requires { SomeFound text.now places.now lists.now tplaces.now waves.now book.now rows.now list.now used.now v × (index_most ≤ length page.old) }
    ensures { Rebuilds text.now cycle result page.new }
{
    let parts = v.parts;
    let known = parts.known;
    verdicts::failing(
        text, places, lists, tplaces, waves, book, rows, list, used, v,
    )?;
    let holder = index::holder(text, book, list, parts.listed, parts.patterns, cycle);
    let length = index::write(
        page,
        text,
        tplaces,
        book,
        list,
        parts.listed,
        parts.patterns,
        known.tables,
    );
    Ok(Rebuilt { length, holder })
}

// Of any text.
fn rebuild(text: &[u8], cycle: usize, page: &mut [u8]) -> Result<Rebuilt, Refusal>
    requires { index_most ≤ length page.old }
    ensures { Rebuilds text.now cycle result page.new }
{
    let mut places = [0usize; signals::PLACES];
    let mut lists = [0u16; signals::LISTS];
    let mut tplaces = [0usize; timing::PLACES];
    let mut waves = [0u8; timing::WAVES];
    let mut book = [0usize; measures::BOOK];
    let mut rows = [0u16; measures::ROWS];
    let mut list = [0usize; bursts::LISTED];
    let mut used = [0u8; noted::USED];
    let v = texts::decide(
        text,
        &mut places,
        &mut lists,
        &mut tplaces,
        &mut waves,
        &mut book,
        &mut rows,
        &mut list,
        verdicts::nowhere(),
        &mut used,
    )?;
    rebuild_found(
        text, &places, &lists, &tplaces, &waves, &book, &rows, &list, &used, v, cycle, page,
    )
}

// There is room for what else is handed out (`spare`), or that is 19 too.
pub fn write_index(text: &[u8], spare: bool, buffer: &mut [u8]) -> Result<usize, Refusal>
    ensures { Indexes (spared spare (index_of text.now buffer.old)) buffer.old buffer.new result }
{
    let mut page = [0u8; index::INDEX];
    let x = rebuild(text, 0, &mut page)?;
    let n = x.length;
    if !spare | (buffer.len() < n) {
        return Err(Refusal {
            no: NO_ROOM,
            place: 0,
        });
    }
    pages::put(buffer, 0, words::bytes_of(&page, 0, n));
    Ok(n)
}

// A text's index to the front of the buffer.
pub fn index(text: &[u8], buffer: &mut [u8]) -> Result<usize, Refusal>
    ensures { Indexes (index_of text.now buffer.old) buffer.old buffer.new result }
{
    write_index(text, true, buffer)
}

// The number in the list of the pattern that holds a cycle, by an index that is byte for byte what a rebuild writes; past the end no pattern.
pub fn holds(text: &[u8], bytes: &[u8], cycle: usize) -> Result<Option<usize>, Refusal>
    ensures { holding_of result ≡ holds_in text.now bytes.now cycle }
{
    let mut page = [0u8; index::INDEX];
    let x = rebuild(text, cycle, &mut page)?;
    if !words::equal(words::bytes_of(&page, 0, x.length), bytes) {
        return Err(Refusal {
            no: NOT_THE_INDEX,
            place: 0,
        });
    }
    Ok(x.holder)
}

// Does an index belong to a text: is it byte for byte what a rebuild writes?
pub fn belongs(text: &[u8], bytes: &[u8]) -> Result<(), Refusal>
    ensures { belonging_of result ≡ belongs_to text.now bytes.now }
{
    holds(text, bytes, 0)?;
    Ok(())
}

// ---- hurt texts

// The check, and the overwriting of what it refuses, if that helps.
fn mend_once(text: &mut [u8]) -> Result<Option<Hurt>, Refusal>
    ensures { Turns text.old text.new result }
{
    let watch = verdicts::nowhere();
    let Err(refusal) = verdicts::judge(
        text,
        Wanted {
            table: false,
            number: 0,
            watch,
        },
    ) else {
        return Ok(None);
    };
    let Some(hurt) = saving::hurt_span(text, refusal) else {
        return Err(refusal);
    };
    saving::overwrite(text, hurt.first, hurt.behind);
    Ok(Some(hurt))
}

// Turn after turn; the spans to the front of the numbers, as far as there is room; how many they are, and the last refusal.
fn mend(text: &mut [u8], spans: &mut [u64]) -> Mended
    requires { length text.old ≤ text_most }
    ensures { Mends text.old text.new spans.old spans.new result }
{
    let mut count = 0;
    loop {
        match mend_once(text) {
            Ok(Some(hurt)) => {
                count = saving::note(spans, count, Some(hurt));
            }
            Ok(None) => {
                return Mended { count, end: Ok(()) };
            }
            Err(refusal) => {
                return Mended {
                    count,
                    end: Err(refusal),
                };
            }
        }
    }
}

// Room for a text; made here alone, so that a caller's proof sees its length and no zeros.
fn room() -> [u8; TEXT_MOST]
    ensures { text_most ≡ length result }
{
    [0; TEXT_MOST]
}

// A copy of a text, mended; its spans to a log, as far as that has room.
fn mend_copy(text: &[u8], copy: &mut [u8], log: &mut [u64]) -> Mended
    requires { (length text.now ≤ text_most) × (text_most ≤ length copy.old) }
    ensures { Mends text.now (take (length text.now) copy.new) log.old log.new result }
{
    let n = text.len();
    pages::put(copy, 0, text);
    mend(&mut copy[0..n], log)
}

// A text that can be saved, and its spans, where both stand: from the mended copy and the log, or where the log had no room for all spans by mending once more.
fn hand_back(text: &mut [u8], spans: &mut [u64], copy: &[u8], log: &[u64], count: usize)
    requires { SomeCopy text.old spans.old copy.now log.now count }
    ensures { (x : SavedText) → saving text.old ≡ given x → (text.new ≡ x.text) × (spans.new ≡ noted_all x.spans spans.old) }
{
    if log.len() / 2 < count {
        mend(text, spans);
        return;
    }
    let n = text.len();
    pages::put(text, 0, words::bytes_of(copy, 0, n));
    saving::hand_out(log, count * 2, spans);
}

// There is room for what else is handed out (`spare`), or that is 19 too.
pub fn save_text(text: &mut [u8], spare: bool, spans: &mut [u64]) -> Result<usize, Refusal>
    ensures { Saves (spared spare (save_of text.old spans.old)) text.old text.new spans.old spans.new result }
{
    if TEXT_MOST < text.len() {
        return Err(Refusal {
            no: TOO_LONG,
            place: 0,
        });
    }
    let mut copy = room();
    let mut log = [0u64; LOG];
    let mended = mend_copy(text, &mut copy, &mut log);
    if let Err(refusal) = mended.end {
        return Err(refusal);
    }
    let count = mended.count;
    if !spare | (spans.len() / 2 < count) {
        return Err(Refusal {
            no: NO_ROOM,
            place: 0,
        });
    }
    hand_back(text, spans, &copy, &log, count);
    Ok(count)
}

// A hurt text saved where it stands; two numbers for each overwritten span, its first byte and the one behind its last, to the front of `spans`.
pub fn save(text: &mut [u8], spans: &mut [u64]) -> Result<usize, Refusal>
    ensures { Saves (save_of text.old spans.old) text.old text.new spans.old spans.new result }
{
    save_text(text, true, spans)
}
