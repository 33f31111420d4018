// Labels: the names of patterns and X names, and the first that is used already, in one pass over the tokens.
#![tactic(auto)]

ghost use Rattle.std.specs.Prelude.{◌≡◌, ◌+◌, ◌*◌, ◌≤◌, ◌<◌, length, ltb};
ghost use Rattle.tokens.specs.Written.{same};
ghost use Rattle.tokens.specs.Refusals.{text_most};
ghost use Rattle.tokens.specs.Tokens.{toks};
ghost use Rattle.words.specs.Cursor.{ahead};
ghost use Rattle.words.specs.Values.{told, value_of};
ghost use Rattle.meaning.specs.Labels.{parting, labelling, behind as behind_of, taken, used_twice};
ghost use Rattle.labels.specs.Joined.{Joins};
ghost use Rattle.labels.specs.Table.{labels_most, word_of, words_of, number_of, hashed, Held, Added, here_of, used, Noted, Gathered};

use words::{Cursor, USED};

// A text of 65,536 bytes has at most so many labels: each has a word before it.
pub const LABELS: usize = 32_768;

// Two numbers for each: its place and that of its last byte, which are below 65,536 where its end may not be.
pub const PLACES: usize = 2 * LABELS;

// Chains of labels: those whose words have the same hash.
pub const HASHES: usize = 4096;

const SHORT: usize = 65_536;

// At a token: neither of these; something begins; a label is due.
const WITHIN: u8 = 0;

const BEGINS: u8 = 1;

const DUE: u8 = 2;

// ---- the table

// A number, as the table keeps it.
fn short(n: usize) -> u16
    requires { n < 65_536 }
    ensures { result ≡ n }
{
    n as u16
}

// The chain that a word belongs to.
fn hash_of(w: &[u8]) -> usize
    ensures { (result ≡ hashed w.now) × (result < 4096) }
{
    let mut h = 0;
    for b in w {
        h = (h * 31 + usize::from(*b)) % HASHES;
    }
    h
}

// Is the label of number k the word w?
fn is_label(text: &[u8], w: &[u8], places: &[u16], k: usize) -> bool
    requires { k * 2 + 1 < length places.now }
    ensures { result ≡ same (word_of text.now places.now k) w.now }
{
    let at = usize::from(places[k * 2]);
    let last = usize::from(places[k * 2 + 1]);
    words::equal(words::bytes_of(text, at, last + 1), w)
}

// The number of the latest of `count` labels that is w; `count` where none is. Only those of its chain are looked at, from the latest on.
pub fn find(
    text: &[u8],
    w: &[u8],
    places: &[u16],
    heads: &[u16],
    nexts: &[u16],
    count: usize,
) -> usize
    requires { Held text.now places.now heads.now nexts.now count }
    ensures { told (ltb result count) result ≡ number_of (words_of text.now places.now count) w.now }
{
    let h = hash_of(w);
    let mut i = usize::from(heads[h]);
    while 0 < i {
        let k = i - 1;
        if is_label(text, w, places, k) {
            return k;
        }
        i = usize::from(nexts[k]);
    }
    count
}

// One label more, from `at` to `end`.
pub fn add(
    text: &[u8],
    at: usize,
    end: usize,
    places: &mut [u16],
    heads: &mut [u16],
    nexts: &mut [u16],
    count: usize,
)
    requires { Held text.now places.old heads.old nexts.old count × (count < labels_most) × (at < «end») × («end» ≤ text_most) }
    ensures { Added text.now at «end» places.old count places.new heads.new nexts.new }
{
    let h = hash_of(words::bytes_of(text, at, end));
    places[count * 2] = short(at);
    places[count * 2 + 1] = short(end - 1);
    nexts[count] = heads[h];
    heads[h] = short(count + 1);
}

// ---- the pass over the tokens

// Does something begin behind the token w?
fn is_parting(w: &[u8]) -> bool
    ensures { result ≡ parting w.now }
{
    if w.len() != 1 {
        return false;
    }
    let b = w[0];
    (b == 123) | (b == 125) | (b == 59)
}

// Is a label due behind the word w, where something begins with it?
fn is_labelling(w: &[u8]) -> bool
    ensures { result ≡ labelling w.now }
{
    words::equal(w, b"Pattern") | words::equal(w, b"X")
}

// Behind the token w.
fn behind(here: u8, w: &[u8]) -> u8
    ensures { here_of result ≡ behind_of (here_of here) w.now }
{
    if is_parting(w) {
        return BEGINS;
    }
    if here != BEGINS {
        return WITHIN;
    }
    if is_labelling(w) { DUE } else { WITHIN }
}

// Is a word the burst's name or that of one of `count` labels?
fn is_used(
    text: &[u8],
    burst: &[u8],
    w: &[u8],
    places: &[u16],
    heads: &[u16],
    nexts: &[u16],
    count: usize,
) -> bool
    requires { Held text.now places.now heads.now nexts.now count }
    ensures { result ≡ taken (used text.now burst.now places.now count) w.now }
{
    let i = find(text, w, places, heads, nexts, count);
    (i < count) | words::equal(burst, w)
}

// The token ahead: how many labels are in the table behind it; none where it is a label that is used already.
fn note(
    text: &[u8],
    burst: &[u8],
    c: Cursor,
    here: u8,
    places: &mut [u16],
    heads: &mut [u16],
    nexts: &mut [u16],
    count: usize,
) -> Option<usize>
    requires { Held text.now places.old heads.old nexts.old count × (count < labels_most) × (c.at < c.end) × (c.end ≤ text_most) }
    ensures { Noted text.now burst.now (here_of here) (ahead text.now c) places.old count places.new heads.new nexts.new result }
{
    if here != DUE {
        return Some(count);
    }
    let at = c.at;
    let end = c.end;
    if is_used(
        text,
        burst,
        words::bytes_of(text, at, end),
        places,
        heads,
        nexts,
        count,
    ) {
        return None;
    }
    add(text, at, end, places, heads, nexts, count);
    Some(count + 1)
}

// All labels from a place on go to a table that is lent empty: how many there are, or the place of the first that is used already.
pub fn gather(
    text: &[u8],
    from: usize,
    burst: &[u8],
    places: &mut [u16],
    heads: &mut [u16],
    nexts: &mut [u16],
) -> Result<usize, usize>
    requires { Held text.now places.old heads.old nexts.old 0 × (length text.now ≤ text_most) }
    ensures { Gathered text.now «from» burst.now places.new heads.new nexts.new result }
{
    let mut c = words::cursor_at(text, from);
    let mut here = BEGINS;
    let mut count = 0;
    while c.at < c.end {
        count = match note(text, burst, c, here, places, heads, nexts, count) {
            Some(n) => n,
            None => return Err(c.at),
        };
        here = behind(here, words::bytes_of(text, c.at, c.end));
        c = words::cursor_at(text, c.end);
    }
    Ok(count)
}

// Where the first label from a place on stands that is used already, as the burst's name or as an earlier label. A text above 65,536 bytes is refused before.
pub fn used_twice(text: &[u8], from: usize, burst: &[u8]) -> Option<usize>
    ensures { length text.now ≤ text_most → value_of result ≡ used_twice burst.now (toks text.now «from») }
{
    if SHORT < text.len() {
        return None;
    }
    let mut places = [0u16; PLACES];
    let mut heads = [0u16; HASHES];
    let mut nexts = [0u16; LABELS];
    gather(text, from, burst, &mut places, &mut heads, &mut nexts).err()
}

// A reader went from s to c: where it goes if each name is used once. The refusal further left is given, and on one token the reader's.
pub fn each_once(text: &[u8], burst: &[u8], s: Cursor, c: Cursor) -> Cursor
    ensures { Joins text.now burst.now s c result }
{
    if s.no != 0 {
        return c;
    }
    let at = s.at;
    if s.end <= at {
        return c;
    }
    match used_twice(text, at, burst) {
        Some(place) if (c.no == 0) | (place < c.at) => Cursor {
            no: USED,
            fault: 0,
            at: place,
            end: 0,
        },
        _ => c,
    }
}
