// The pins and what a V does to them: characters assigned, `#` fed from arguments, and the search for a missing waveform.
#![tactic(auto)]

ghost use Rattle.std.specs.Prelude.{◌≡◌, true, not, ◌||◌, List, ℕ, ◌+◌, ◌*◌, ◌≤◌, ◌<◌, min, length, get_or, eqb};
ghost use Rattle.meaning.specs.Bounds.{signals_most, tables_most};
ghost use Rattle.meaning.specs.Body.{Assigns, Args};
ghost use Rattle.meaning.specs.Timing.{Tables};
ghost use Rattle.meaning.specs.Run.{State, unassigned, puts, again};
ghost use Rattle.meaning.specs.Meaning.{has_wave, table_at};
ghost use Rattle.timing.specs.Marks.{table_size};
ghost use Rattle.timing.specs.Held.{Held};
ghost use Rattle.measures.specs.Uses.{Given};
ghost use Rattle.arguments.specs.Supplied.{Supplied};
ghost use Rattle.pins.specs.Shown.{Shows, Roomy, Playable, Others, Idle, eight, Feeding, Fills, Told, Skips, HasMark, Having, Ahead, Advances, Leaves, Returns, vector, feed_at, values_length, feeds_length, levels};

use feeds::Feed;
use measures::MARK;
use timing::{CHARS, TABLES};

const EIGHT: usize = 8;

// Rows of values: the pins in force, and one for each level.
pub const LEVELS: usize = measures::DEPTH + 1;

pub const VALUES: usize = (LEVELS + 1) * sets::MOST;

pub const FEEDS: usize = LEVELS * sets::MOST * 4;
// No table.
pub const NONE: usize = TABLES;

// ---- arguments

// What is left of signal s's argument, at a level.
pub fn feed_at(feeds: &[usize], level: usize, s: usize) -> Feed
    requires { (length feeds.now ≡ feeds_length) × (level < levels) × (s < signals_most) }
    ensures { result ≡ feed_at feeds.now level s }
{
    let i = (level * sets::MOST + s) * 4;
    Feed {
        at: feeds[i],
        end: feeds[i + 1],
        left: feeds[i + 2],
        from: feeds[i + 3],
    }
}

pub fn put_feed(feeds: &mut [usize], level: usize, s: usize, f: Feed)
    requires { (length feeds.old ≡ feeds_length) × (level < levels) × (s < signals_most) }
    ensures { Fills feeds.old level s f feeds.new }
{
    let i = (level * sets::MOST + s) * 4;
    feeds[i] = f.at;
    feeds[i + 1] = f.end;
    feeds[i + 2] = f.left;
    feeds[i + 3] = f.from;
}

// A body's arguments, all of each left.
pub fn supply(given: &[u8], args: &[usize], feeds: &mut [usize], level: usize)
    requires { (length given.now ≡ signals_most) × (length args.now ≡ signals_most * 2) × (length feeds.old ≡ feeds_length) × (level < levels) }
    ensures { (length feeds.new ≡ feeds_length) × ((l s : ℕ) → s < signals_most → (l ≡ level → ⊥) → feed_at feeds.new l s ≡ feed_at feeds.old l s) × ((text : List ℕ) (xs : Args) → Supplied text xs given.now args.now → Feeding text feeds.new level xs) }
{
    let n = words::zeros_from(given);
    for s in 0..n {
        if given[s] != 0 {
            put_feed(feeds, level, s, feeds::start(args[sets::MOST + s]));
        }
    }
}

// ---- assignments

// Are the eight signals from s on given nothing? Asked at every eighth.
fn idle(given: &[u8], s: usize) -> bool
    requires { (length given.now ≡ signals_most) × (s < signals_most) }
    ensures { result ≡ true → Idle given.now s eight }
{
    if s % EIGHT != 0 {
        return false;
    }
    let end = s + EIGHT;
    words::zeros_from(&given[s..end]) == 0
}

// Each signal is given its character, or the next of its argument.
pub fn put(
    text: &[u8],
    given: &[u8],
    values: &mut [u8],
    feeds: &mut [usize],
    level: usize,
    signals: usize,
)
    requires { Roomy signals values.old feeds.old level × (length given.now ≡ signals_most) }
    ensures { Others level values.old values.new feeds.old feeds.new × ((a : Assigns) (s : State) (table : ℕ) → Given a given.now → Playable signals a s.args → Shows text.now signals values.old table feeds.old level s → Shows text.now signals values.new table feeds.new level (puts a s)) }
{
    let mut s = 0;
    // No range: eight signals are passed at once where they are given nothing.
    while s < signals {
        if idle(given, s) {
            s = (s + EIGHT).min(signals);
        } else {
            let b = given[s];
            if b == MARK {
                let x = feeds::next(text, feed_at(feeds, level, s));
                values[s] = x.char;
                put_feed(feeds, level, s, x.feed);
            } else if b != 0 {
                values[s] = b;
            }
            s += 1;
        }
    }
}

// The next n characters of each `#` are passed.
pub fn skip(
    text: &[u8],
    given: &[u8],
    values: &[u8],
    feeds: &mut [usize],
    level: usize,
    signals: usize,
    n: usize,
)
    requires { Roomy signals values.now feeds.old level × (length given.now ≡ signals_most) }
    ensures { Others level values.now values.now feeds.old feeds.new × Skips text.now given.now signals level n values.now feeds.old feeds.new }
{
    for s in 0..signals {
        if given[s] == MARK {
            let f = feeds::skip(text, feed_at(feeds, level, s), n);
            put_feed(feeds, level, s, f);
        }
    }
}

// ---- a V

// Has signal s an assigned character without a waveform in the table?
fn lacks(values: &[u8], waves: &[u8], table: usize, s: usize) -> bool
    requires { (length values.now ≡ values_length) × (length waves.now ≡ tables_most * table_size) × (table < tables_most) × (s < signals_most) }
    ensures { (text tplaces : List ℕ) (tables : ℕ) (tabs : Tables) → Held text tplaces waves.now tables tabs → result ≡ not (eqb (get_or values.now s 0) unassigned || has_wave s (get_or values.now s 0) (table_at tabs table)) }
{
    let b = values[s] as usize;
    if b == 0 {
        return false;
    }
    if CHARS <= b {
        return true;
    }
    waves[(table * sets::MOST + s) * CHARS + b] != 1
}

// Has the character a waveform in the table for signal s?
fn has_mark(waves: &[u8], table: usize, s: usize, b: u8) -> bool
    requires { (length waves.now ≡ tables_most * table_size) × (table < tables_most) × (s < signals_most) }
    ensures { result ≡ true → HasMark waves.now table s b }
{
    let c = b as usize;
    if CHARS <= c {
        return false;
    }
    waves[(table * sets::MOST + s) * CHARS + c] == 1
}

// How many of the next characters of signal s's argument have a waveform in the table, as far as its word says them, at most so many.
fn in_word(text: &[u8], feed: Feed, waves: &[u8], table: usize, s: usize, most: usize) -> usize
    requires { (length waves.now ≡ tables_most * table_size) × (table < tables_most) × (s < signals_most) }
    ensures { Having text.now feed waves.now table s most result }
{
    let at = (table * sets::MOST + s) * CHARS;
    let end = at + CHARS;
    feeds::fine(text, feed, &waves[at..end], most)
}

// The same in all its words, one after the other. A V that takes the next character fails, so that none is looked at again and again.
fn having(text: &[u8], feed: Feed, waves: &[u8], table: usize, s: usize, most: usize) -> usize
    requires { (length waves.now ≡ tables_most * table_size) × (table < tables_most) × (s < signals_most) }
    ensures { Having text.now feed waves.now table s most result }
{
    let mut n = in_word(text, feed, waves, table, s, most);
    let mut here = feeds::skip(text, feed, n);
    // No range: a character, and as many of its word as go with it.
    while n < most {
        let x = feeds::next(text, here);
        if !has_mark(waves, table, s, x.char) {
            return n;
        }
        let behind = x.feed;
        let k = in_word(text, behind, waves, table, s, most - n - 1);
        here = feeds::skip(text, behind, k);
        n += 1 + k;
    }
    n
}

// How many of the turns to come, at most so many, take characters that have a waveform in the table at every `#`.
fn ahead(
    text: &[u8],
    given: &[u8],
    feeds: &[usize],
    waves: &[u8],
    level: usize,
    signals: usize,
    table: usize,
    most: usize,
) -> usize
    requires { (signals ≤ signals_most) × (length feeds.now ≡ feeds_length) × (level < levels) × (length given.now ≡ signals_most) × (length waves.now ≡ tables_most * table_size) × (table < tables_most) }
    ensures { Ahead text.now given.now feeds.now waves.now level signals table most result }
{
    let mut k = most;
    for s in (0..signals).rev() {
        // At once for a V that is played once.
        if k == 0 {
            return 0;
        }
        if given[s] == MARK {
            k = having(text, feed_at(feeds, level, s), waves, table, s, k);
        }
    }
    k
}

// As many turns on as fail at no `#`, at most so many. The characters of all but the last are passed, and only that one is played.
fn advance(
    text: &[u8],
    given: &[u8],
    values: &mut [u8],
    feeds: &mut [usize],
    waves: &[u8],
    level: usize,
    signals: usize,
    table: usize,
    most: usize,
) -> usize
    requires { Roomy signals values.old feeds.old level × (length given.now ≡ signals_most) × (length waves.now ≡ tables_most * table_size) × (table < tables_most) }
    ensures { Advances text.now given.now values.old feeds.old waves.now level signals table most result values.new feeds.new }
{
    let k = ahead(text, given, feeds, waves, level, signals, table, most);
    if k == 0 {
        return k;
    }
    skip(text, given, values, feeds, level, signals, k - 1);
    put(text, given, values, feeds, level, signals);
    k
}

// A V, t times: is there a cycle without a table, or with an assigned character that has no waveform in it?
pub fn vectors(
    text: &[u8],
    given: &[u8],
    values: &mut [u8],
    feeds: &mut [usize],
    level: usize,
    signals: usize,
    waves: &[u8],
    table: usize,
    t: usize,
) -> bool
    requires { Roomy signals values.old feeds.old level × (length given.now ≡ signals_most) × (length waves.now ≡ tables_most * table_size) }
    ensures { Others level values.old values.new feeds.old feeds.new × ((a : Assigns) (s : State) (tplaces : List ℕ) (tables p : ℕ) (tabs : Tables) → Held text.now tplaces waves.now tables tabs → Given a given.now → Playable signals a s.args → Shows text.now signals values.old table feeds.old level s → Told tabs text.now signals values.new table feeds.new level result p (again t (vector p a) s)) }
{
    let mut i = 0;
    // No range: a turn, and those that are gone on at once behind it.
    while i < t {
        put(text, given, values, feeds, level, signals);
        if TABLES <= table {
            return true;
        }
        for s in 0..signals {
            if lacks(values, waves, table, s) {
                return true;
            }
        }
        let k = advance(
            text,
            given,
            values,
            feeds,
            waves,
            level,
            signals,
            table,
            t - i - 1,
        );
        i += 1 + k;
    }
    false
}

// ---- procedures

// The caller's pins are kept in the row of a level, and all signals are unassigned.
pub fn leave(values: &mut [u8], level: usize)
    requires { (length values.old ≡ values_length) × (level < levels) }
    ensures { Leaves level values.old values.new }
{
    let at = (level + 1) * sets::MOST;
    // One by one: the library's copy becomes memmove here, which the archive for C does not want (include/stil.h).
    for s in 0..sets::MOST {
        values[at + s] = values[s];
        values[s] = 0;
    }
}

// They come back.
pub fn come_back(values: &mut [u8], level: usize)
    requires { (length values.old ≡ values_length) × (level < levels) }
    ensures { Returns level values.old values.new }
{
    let at = (level + 1) * sets::MOST;
    // One by one: the library's copy becomes memmove here, which the archive for C does not want (include/stil.h).
    for s in 0..sets::MOST {
        values[s] = values[at + s];
    }
}
