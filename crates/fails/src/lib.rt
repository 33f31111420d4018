// The service for fail reports: a text and a report to the run's cycle, the signal's number and the letter of each offset.
#![tactic(auto)]

ghost use Rattle.std.specs.Prelude.{◌≡◌, true, false, List, ◌∷◌, [], ℕ, ◌+◌, ◌-◌, ◌≤◌, length, IfSome};
ghost use Rattle.meaning.specs.Bounds.{cycles_most};
ghost use Rattle.meaning.specs.Body.{Body};
ghost use Rattle.meaning.specs.Statements.{Decls};
ghost use Rattle.words.specs.Cursor.{span};
ghost use Rattle.words.specs.Table.{names};
ghost use Rattle.bursts.specs.Listed.{listed_in};
ghost use Rattle.index.specs.Index.{lines_from};
ghost use Rattle.index.specs.Lines.{Lists, SomeLists, blocks_in};
ghost use Rattle.labels.specs.Table.{Held};
ghost use Rattle.references.specs.References.{past_by};
ghost use Rattle.references.specs.Filled.{noted};
ghost use Rattle.reports.specs.Report.{Fail};
ghost use Rattle.verdicts.specs.Found.{SomeFound};
ghost use Rattle.fails.specs.declared.Unanswered.TheVariants.{Text};
ghost use Rattle.fails.specs.Fails.{lines_named, fails as fails_of};
ghost use Rattle.fails.specs.Once.{Often, More};
ghost use Rattle.fails.specs.Judged.{JudgesRecord, Judges, Roomed};
ghost use Rattle.fails.specs.Written.{PutsOne, WritesOffsets, WritesRecord, Writes};
ghost use Rattle.fails.specs.Referred.{SomePattern, Blank, Refers};
ghost use Rattle.fails.specs.Service.{rows_of, spared_told, Reports, Answering};

use heads::{Declared, Known};
use measures::DEPTH;
use tokens::Refusal;
use words::{Cursor, NO_ROOM};

const NOT_IN_PATTERN: u8 = 24;

const CYCLES_MOST: u64 = measures::CYCLES_MOST as u64;

// How often a pattern is listed, 2 for more than once; the run's cycle at which it begins the last time, and how many it has.
#[derive(Clone, Copy)]
struct Times {
    times: u8,
    first: usize,
    cycles: usize,
}

// A record: the cursor behind it; the place of its 24, if it has one; or else how many answers are due to it.
#[derive(Clone, Copy)]
struct Judged {
    cursor: Cursor,
    outside: Option<usize>,
    count: usize,
}

// What is left of the rows: how many answers have room, or that there are more than have.
#[derive(Clone, Copy)]
struct Room {
    left: usize,
    full: bool,
}

// All records: the place of the first 24, if there is one; or else are there more answers than have room?
#[derive(Clone, Copy)]
struct Verdict {
    outside: Option<usize>,
    full: bool,
}

// The cursor behind what was read, and how many answers are written.
#[derive(Clone, Copy)]
struct Wrote {
    cursor: Cursor,
    at: usize,
}

// What is refused: the text, or for want of room; or the report, with the place in it.
#[derive(Clone, Copy)]
pub enum Unanswered {
    Text(Refusal),
    Report(Refusal),
}

impl From<Refusal> for Unanswered {
    ghost from_gives = { λ x r. r ≡ Text x };

    fn from(refusal: Refusal) -> Unanswered {
        Unanswered::Text(refusal)
    }
}

// ---- the pattern that a report names

// One listed pattern more, which is the one that is looked for (`here`) or another.
fn more_times(t: Times, here: bool, first: usize, cycles: usize) -> Times
    ensures { More t here first cycles result }
{
    if !here {
        return t;
    }
    if t.times == 0 {
        return Times {
            times: 1,
            first,
            cycles,
        };
    }
    Times {
        times: 2,
        first,
        cycles,
    }
}

// How often the pattern w is listed.
fn times_listed<'a>(
    text: &'a [u8],
    book: &'a [usize],
    list: &'a [usize],
    listed: usize,
    patterns: usize,
    w: &'a [u8],
) -> Times
    requires { SomeLists text.now book.now list.now listed patterns }
    ensures { (ps : Decls) (run : Body) → Lists text.now book.now list.now listed patterns ps run → Often ps w.now (lines_named w.now (lines_from 0 (blocks_in text.now ps) (listed_in text.now list.now listed))) result }
{
    let mut t = Times {
        times: 0,
        first: 0,
        cycles: 0,
    };
    let mut reached = 0;
    let mut k = 0;
    while k < listed {
        let s = index::listed_at(text, book, list, patterns, k);
        let here = words::equal(words::name_bytes(text, list, k), w);
        t = more_times(t, here, reached, s.cycles);
        reached += s.cycles;
        k += 1;
    }
    t
}

// ---- 24

// The cycles that are left behind a reference; none behind an unknown one.
fn left_behind(cycles: usize, before: Option<usize>) -> u64
    ensures { IfSome before (λ n. result ≡ cycles - n) }
{
    match before {
        Some(n) => cycles.saturating_sub(n) as u64,
        None => 0,
    }
}

// A record without an offset is one answer.
fn or_one(n: usize) -> usize
    ensures { (n ≡ 0 → result ≡ 1) × ((n ≡ 0 → ⊥) → result ≡ n) }
{
    n.max(1)
}

// The record at the cursor: its 24, if it has one, where the pattern of this name has so many cycles.
fn judge_record<'a>(
    report: &'a [u8],
    c: Cursor,
    text: &'a [u8],
    places: &'a [usize],
    signals: usize,
    name: &'a [u8],
    labels: &'a [u16],
    chains: &'a [u16],
    nexts: &'a [u16],
    count: usize,
    table: &'a [usize],
    cycles: usize,
) -> Judged
    requires { Held text.now labels.now chains.now nexts.now count × (count ≤ length table.now) }
    ensures { JudgesRecord report.now c (names text.now places.now signals) cycles (past_by name.now (noted text.now labels.now count table.now)) result }
{
    let at = c.at;
    let h = reports::head(report, c, text, places, signals);
    let before = references::past(
        text,
        name,
        words::bytes_of(report, at, c.end),
        labels,
        chains,
        nexts,
        count,
        table,
    );
    let left = left_behind(cycles, before);
    let a = h.cursor;
    let p = reports::count_offsets(report, a, left);
    let cursor = p.cursor;
    if before.is_none() | ((p.count == 0) & (left == 0)) {
        return Judged {
            cursor,
            outside: Some(at),
            count: 0,
        };
    }
    Judged {
        cursor,
        outside: p.outside,
        count: or_one(p.count),
    }
}

// Room for n answers more is taken.
fn take(x: Room, n: usize) -> Room
    ensures { (room used : ℕ) → Roomed room used x → Roomed room (used + n) result }
{
    if x.full | (x.left < n) {
        return Room {
            left: 0,
            full: true,
        };
    }
    Room {
        left: x.left - n,
        full: false,
    }
}

// All records from a place on: the first 24, or whether the answers have room.
fn judge<'a>(
    report: &'a [u8],
    from: usize,
    text: &'a [u8],
    places: &'a [usize],
    signals: usize,
    name: &'a [u8],
    labels: &'a [u16],
    chains: &'a [u16],
    nexts: &'a [u16],
    count: usize,
    table: &'a [usize],
    cycles: usize,
    room: usize,
) -> Verdict
    requires { Held text.now labels.now chains.now nexts.now count × (count ≤ length table.now) }
    ensures { Judges report.now «from» (names text.now places.now signals) cycles (past_by name.now (noted text.now labels.now count table.now)) room result }
{
    let mut cursor = words::cursor_at(report, from);
    let mut x = Room {
        left: room,
        full: false,
    };
    while words::until(report, cursor, b"}") {
        let j = judge_record(
            report, cursor, text, places, signals, name, labels, chains, nexts, count, table,
            cycles,
        );
        if let Some(place) = j.outside {
            return Verdict {
                outside: Some(place),
                full: false,
            };
        }
        x = take(x, j.count);
        cursor = j.cursor;
    }
    Verdict {
        outside: None,
        full: x.full,
    }
}

// ---- the answers

// The cycle that an offset counts to: no run has more cycles than the bound.
fn cycle_at(from: u64, n: u64) -> u64
    ensures { «from» + n ≤ cycles_most → result ≡ «from» + n }
{
    if (CYCLES_MOST < from) | (CYCLES_MOST < n) {
        return 0;
    }
    from + n
}

// The answer of number `at`, to three rows that have room for it; how many there are then.
fn put(
    at: usize,
    cycle: u64,
    signal: usize,
    letter: u8,
    cycles: &mut [u64],
    signals: &mut [u64],
    letters: &mut [u8],
) -> usize
    ensures { PutsOne at (record { cycle = cycle; signal = signal; letter = letter }) cycles.old signals.old letters.old cycles.new signals.new letters.new result }
{
    if (cycles.len() <= at) | (signals.len() <= at) | (letters.len() <= at) {
        return at;
    }
    cycles[at] = cycle;
    signals[at] = signal as u64;
    letters[at] = letter;
    at + 1
}

// The offsets up to `;`, which count from the run's cycle `start`.
fn write_offsets(
    report: &[u8],
    c: Cursor,
    start: u64,
    signal: usize,
    at: usize,
    cycles: &mut [u64],
    signals: &mut [u64],
    letters: &mut [u8],
) -> Wrote
    ensures { WritesOffsets report.now c start signal at cycles.old signals.old letters.old cycles.new signals.new letters.new result }
{
    let mut cursor = c;
    let mut n = at;
    while words::until(report, cursor, b";") {
        let o = reports::offset(report, cursor);
        let cycle = cycle_at(start, o.n);
        n = put(n, cycle, signal, o.letter, cycles, signals, letters);
        cursor = o.cursor;
    }
    let end = words::due(report, cursor, b";");
    Wrote { cursor: end, at: n }
}

// The record at the cursor, of the pattern of this name, which begins at the run's cycle `first`.
fn write_record<'a>(
    report: &'a [u8],
    c: Cursor,
    text: &'a [u8],
    places: &'a [usize],
    known: usize,
    name: &'a [u8],
    labels: &'a [u16],
    chains: &'a [u16],
    nexts: &'a [u16],
    count: usize,
    table: &'a [usize],
    first: usize,
    at: usize,
    cycles: &mut [u64],
    signals: &mut [u64],
    letters: &mut [u8],
) -> Wrote
    requires { Held text.now labels.now chains.now nexts.now count × (count ≤ length table.now) }
    ensures { WritesRecord report.now c (names text.now places.now known) first (past_by name.now (noted text.now labels.now count table.now)) at cycles.old signals.old letters.old cycles.new signals.new letters.new result }
{
    let h = reports::head(report, c, text, places, known);
    let before = references::past(
        text,
        name,
        words::bytes_of(report, c.at, c.end),
        labels,
        chains,
        nexts,
        count,
        table,
    );
    let start = cycle_at(first as u64, before.unwrap_or(0) as u64);
    let a = h.cursor;
    let signal = h.signal;
    let w = write_offsets(report, a, start, signal, at, cycles, signals, letters);
    if w.at != at {
        return w;
    }
    let cursor = w.cursor;
    let n = put(at, start, signal, 0, cycles, signals, letters);
    Wrote { cursor, at: n }
}

// All records from a place on; how many answers there are.
fn write<'a>(
    report: &'a [u8],
    from: usize,
    text: &'a [u8],
    places: &'a [usize],
    known: usize,
    name: &'a [u8],
    labels: &'a [u16],
    chains: &'a [u16],
    nexts: &'a [u16],
    count: usize,
    table: &'a [usize],
    first: usize,
    cycles: &mut [u64],
    signals: &mut [u64],
    letters: &mut [u8],
) -> usize
    requires { Held text.now labels.now chains.now nexts.now count × (count ≤ length table.now) }
    ensures { Writes report.now «from» (names text.now places.now known) first (past_by name.now (noted text.now labels.now count table.now)) cycles.old signals.old letters.old cycles.new signals.new letters.new result }
{
    let mut cursor = words::cursor_at(report, from);
    let mut n = 0;
    while words::until(report, cursor, b"}") {
        let w = write_record(
            report, cursor, text, places, known, name, labels, chains, nexts, count, table, first,
            n, cycles, signals, letters,
        );
        n = w.at;
        cursor = w.cursor;
    }
    n
}

// ---- the references of a pattern

// Labels from where the pattern of this name begins, and for each X of it how many cycles of the pattern come before it, to tables that are lent empty; how
// many labels there are.
fn refer<'a>(
    text: &'a [u8],
    places: &'a [usize],
    lists: &'a [u16],
    tplaces: &'a [usize],
    book: &'a [usize],
    rows: &'a [u16],
    known: Known,
    patterns: usize,
    name: &'a [u8],
    labels: &mut [u16],
    chains: &mut [u16],
    nexts: &mut [u16],
    table: &mut [usize],
) -> usize
    requires { SomePattern text.now places.now lists.now tplaces.now book.now rows.now known patterns name.now × Blank text.now labels.old chains.old nexts.old table.old }
    ensures { Refers text.now places.now lists.now tplaces.now book.now rows.now known patterns name.now labels.new chains.new nexts.new table.new result }
{
    let names = &book[measures::PATTERNS * 2..];
    let i = words::find(text, name, names, patterns);
    let start = measures::start_at(book, measures::PATTERNS + i);
    // No label of a text that was accepted is used twice.
    let count = labels::gather(text, start, b"", labels, chains, nexts).unwrap_or(0);
    let c = words::cursor_at(text, start);
    let mut args = [0usize; measures::ROW];
    let declared = Declared {
        text,
        places,
        lists,
        tplaces,
        book,
        rows,
        known,
    };
    references::fill(
        &declared, c, labels, chains, nexts, count, DEPTH, 0, &mut args, table,
    );
    count
}

// ---- the service

// A sound report, whose pattern is listed once: 24, 19, or its answers.
fn answer<'a>(
    text: &'a [u8],
    places: &'a [usize],
    lists: &'a [u16],
    tplaces: &'a [usize],
    book: &'a [usize],
    rows: &'a [u16],
    known: Known,
    declared: usize,
    patterns: usize,
    report: &'a [u8],
    at: usize,
    end: usize,
    from: usize,
    first: usize,
    count: usize,
    spare: bool,
    cycles: &mut [u64],
    signals: &mut [u64],
    letters: &mut [u8],
) -> Result<usize, Unanswered>
    requires { SomePattern text.now places.now lists.now tplaces.now book.now rows.now known patterns (span report.now at «end») }
    ensures { Answering text.now places.now lists.now tplaces.now book.now rows.now known declared patterns report.now at «end» «from» first count spare cycles.old cycles.new signals.old signals.new letters.old letters.new result }
{
    let name = words::bytes_of(report, at, end);
    let mut labels = [0u16; labels::PLACES];
    let mut chains = [0u16; labels::HASHES];
    let mut nexts = [0u16; labels::LABELS];
    let mut table = [0usize; labels::LABELS];
    let known_labels = refer(
        text,
        places,
        lists,
        tplaces,
        book,
        rows,
        known,
        patterns,
        name,
        &mut labels,
        &mut chains,
        &mut nexts,
        &mut table,
    );
    let room = cycles.len().min(signals.len().min(letters.len()));
    let v = judge(
        report,
        from,
        text,
        places,
        declared,
        name,
        &labels,
        &chains,
        &nexts,
        known_labels,
        &table,
        count,
        room,
    );
    if let Some(place) = v.outside {
        return Err(Unanswered::Report(Refusal {
            no: NOT_IN_PATTERN,
            place,
        }));
    }
    if v.full | !spare {
        return Err(Unanswered::Text(Refusal {
            no: NO_ROOM,
            place: 0,
        }));
    }
    let n = write(
        report,
        from,
        text,
        places,
        declared,
        name,
        &labels,
        &chains,
        &nexts,
        known_labels,
        &table,
        first,
        cycles,
        signals,
        letters,
    );
    Ok(n)
}

// A text that 1 to 16 leave: 17, the report's own faults, 24, 19, or the answers.
fn answer_found<'a>(
    text: &'a [u8],
    places: &'a [usize],
    lists: &'a [u16],
    tplaces: &'a [usize],
    waves: &'a [u8],
    book: &'a [usize],
    rows: &'a [u16],
    list: &'a [usize],
    used: &'a [u8],
    v: texts::Verdict,
    report: &'a [u8],
    spare: bool,
    cycles: &mut [u64],
    signals: &mut [u64],
    letters: &mut [u8],
) -> Result<usize, Unanswered>
    requires { SomeFound text.now places.now lists.now tplaces.now waves.now book.now rows.now list.now used.now v }
    ensures { Reports (spared_told spare (fails_of text.now report.now (rows_of cycles.old signals.old letters.old))) cycles.old cycles.new signals.old signals.new letters.old letters.new result }
{
    let parts = v.parts;
    verdicts::failing(
        text, places, lists, tplaces, waves, book, rows, list, used, v,
    )?;
    let sound = match reports::reported(report, text, places, parts.signals) {
        Ok(sound) => sound,
        Err(refusal) => return Err(Unanswered::Report(refusal)),
    };
    let name = words::bytes_of(report, sound.at, sound.end);
    let t = times_listed(text, book, list, parts.listed, parts.patterns, name);
    if t.times != 1 {
        return Err(Unanswered::Report(Refusal {
            no: NOT_IN_PATTERN,
            place: sound.at,
        }));
    }
    answer(
        text,
        places,
        lists,
        tplaces,
        book,
        rows,
        parts.known,
        parts.signals,
        parts.patterns,
        report,
        sound.at,
        sound.end,
        sound.records,
        t.first,
        t.cycles,
        spare,
        cycles,
        signals,
        letters,
    )
}

// There is room for what else is handed out (`spare`), or that is 19 too.
pub fn answer_report<'a>(
    text: &'a [u8],
    report: &'a [u8],
    spare: bool,
    cycles: &mut [u64],
    signals: &mut [u64],
    letters: &mut [u8],
) -> Result<usize, Unanswered>
    ensures { Reports (spared_told spare (fails_of text.now report.now (rows_of cycles.old signals.old letters.old))) cycles.old cycles.new signals.old signals.new letters.old letters.new result }
{
    let mut places = [0usize; signals::PLACES];
    let mut lists = [0u16; signals::LISTS];
    let mut tplaces = [0usize; timing::PLACES];
    let mut waves = [0u8; timing::WAVES];
    let mut book = [0usize; measures::BOOK];
    let mut rows = [0u16; measures::ROWS];
    let mut list = [0usize; bursts::LISTED];
    let mut used = [0u8; noted::USED];
    let v = texts::decide(
        text,
        &mut places,
        &mut lists,
        &mut tplaces,
        &mut waves,
        &mut book,
        &mut rows,
        &mut list,
        verdicts::nowhere(),
        &mut used,
    )?;
    answer_found(
        text, &places, &lists, &tplaces, &waves, &book, &rows, &list, &used, v, report, spare,
        cycles, signals, letters,
    )
}

// A fail report: for each offset, in the report's order, the run's cycle, the signal's number and the letter (0 for none) to the fronts of three rows.
pub fn report<'a>(
    text: &'a [u8],
    report: &'a [u8],
    cycles: &mut [u64],
    signals: &mut [u64],
    letters: &mut [u8],
) -> Result<usize, Unanswered>
    ensures { Reports (fails_of text.now report.now (rows_of cycles.old signals.old letters.old)) cycles.old cycles.new signals.old signals.new letters.old letters.new result }
{
    answer_report(text, report, true, cycles, signals, letters)
}
