// Readers of single tokens: a cursor over the text, names, reserved words, numbers and times.
#![tactic(auto)]

ghost use Rattle.std.specs.Prelude.{◌≡◌, ℕ, ◌+◌, ◌*◌, ◌≤◌, ◌<◌, min, List, get_or, length, false, ◌&&◌, not, eqb, ltb};
ghost use Rattle.std.proofs.Math.Option.{Option, some};
ghost use Rattle.tokens.specs.Written.{same};
ghost use Rattle.tokens.specs.Bytes.{wordy, digit};
ghost use Rattle.tokens.specs.Tokens.{Tok};
ghost use Rattle.meaning.specs.Reader.{any, ahead_of, due_of, is_word, word as word_due};
ghost use Rattle.meaning.specs.Lists.{has};
ghost use Rattle.meaning.specs.Names.{reserved as reserved_words, among, is_name, name as name_due, find as find_of, new_name, old_name, number as number_of, within as within_due, number_in};
ghost use Rattle.meaning.specs.Timing.{wave_char, all_chars, unit as unit_of, picoseconds, quoted as quoted_due, counted as counted_of, time_of, signed_quoted};
ghost use Rattle.meaning.specs.Bounds.{time_most};
ghost use Rattle.words.specs.Cursor.{span, ahead as ahead_tok, stream, alive, Stands, Goes, Checked, taking};
ghost use Rattle.words.specs.Values.{most, told, capped, up_to, value_of, Longer};
ghost use Rattle.words.specs.Signs.{sign_of, signed_due, Counts};
ghost use Rattle.words.specs.Table.{name_of, names};
ghost use Rattle.words.specs.Packed.{packed, capital, EndsWith, ZerosFrom};
ghost use Rattle.words.specs.Chains.{mixed_of, chain_of, InChain};

// Refusals: the token is not allowed here; no name; a name that is unknown; one that is used; one too many; a bad number; bad data; no room for what is due.
pub const NOT_HERE: u8 = 4;

const NO_NAME: u8 = 5;

pub const UNKNOWN: u8 = 6;

pub const USED: u8 = 7;

pub const TOO_MANY: u8 = 8;

pub const BAD_NUMBER: u8 = 9;

pub const BAD_DATA: u8 = 12;

pub const NO_ROOM: u8 = 19;

// How many chains there are.
pub const CHAINS: usize = 509;

// Where reading stands. With `no` 0 the token ahead is the text from `at` to `end`; where `end` is not behind `at` there is none: the text has
// ended at `at`, or has the fault `fault` there. With another `no` reading was refused so at `at`, and every reader hands that on.
#[derive(Clone, Copy)]
pub struct Cursor {
    pub no: u8,
    pub fault: u8,
    pub at: usize,
    pub end: usize,
}

// The number of a name in its table, and the cursor behind it.
#[derive(Clone, Copy)]
pub struct Named {
    pub cursor: Cursor,
    pub number: usize,
}

// A number that was read, and the cursor behind it.
#[derive(Clone, Copy)]
pub struct Numbered {
    pub cursor: Cursor,
    pub n: u64,
}

// ---- the text and the cursor

// The bytes of the text from a place up to an end, as far as there are any.
pub fn bytes_of(text: &[u8], at: usize, end: usize) -> &[u8]
    ensures { result.now ≡ span text.now at «end» }
{
    if at < end {
        if end <= text.len() {
            return &text[at..end];
        }
        if at < text.len() {
            return &text[at..];
        }
    }
    &text[0..0]
}

// The cursor at the first token from a place on.
pub fn cursor_at(text: &[u8], at: usize) -> Cursor
    ensures { Stands text.now at result }
{
    match tokens::first_from(text, at) {
        Ok(Some(token)) => Cursor {
            no: 0,
            fault: 0,
            at: token.at,
            end: token.at + token.length,
        },
        Ok(None) => {
            let e = if at < text.len() { text.len() } else { at };
            Cursor {
                no: 0,
                fault: 0,
                at: e,
                end: 0,
            }
        }
        Err(fault) => Cursor {
            no: 0,
            fault: fault.no,
            at: fault.place,
            end: 0,
        },
    }
}

// Refused with n at p where the test holds.
pub fn refuse_if(c: Cursor, test: bool, n: u8, p: usize) -> Cursor
    ensures { Checked c test n p result }
{
    if (c.no == 0) & test {
        return Cursor {
            no: n,
            fault: 0,
            at: p,
            end: 0,
        };
    }
    c
}

// Past the token ahead.
pub fn step(text: &[u8], c: Cursor) -> Cursor
    ensures { Goes text.now c any result (ahead_tok text.now c) }
{
    if c.no != 0 {
        return c;
    }
    let at = c.at;
    let end = c.end;
    if at < end {
        return cursor_at(text, end);
    }
    let fault = c.fault;
    Cursor {
        no: if fault == 0 { 4 } else { fault },
        fault: 0,
        at,
        end: 0,
    }
}

// Past the token ahead, if it is the right one.
pub fn expect(text: &[u8], c: Cursor, right: bool) -> Cursor
    ensures { Goes text.now c (taking right) result (ahead_tok text.now c) }
{
    let r = step(text, c);
    refuse_if(r, !right, NOT_HERE, c.at)
}

// ---- tokens that are due

// Are two words equal? From the end on: names often differ in their last byte only, and `==` takes twice the time where many do.
pub fn equal(w: &[u8], v: &[u8]) -> bool
    ensures { result ≡ same w.now v.now }
{
    let n = w.len();
    if n != v.len() {
        return false;
    }
    let mut i = n;
    while 0 < i {
        i -= 1;
        if w[i] != v[i] {
            return false;
        }
    }
    true
}

// Is the token w ahead?
pub fn is(text: &[u8], c: Cursor, w: &[u8]) -> bool
    ensures { result ≡ (alive c && ahead_of w.now (stream text.now c)) }
{
    let at = c.at;
    let end = c.end;
    (c.no == 0) & (at < end) & equal(bytes_of(text, at, end), w)
}

// The token w is due.
pub fn due(text: &[u8], c: Cursor, w: &[u8]) -> Cursor
    ensures { Goes text.now c (due_of w.now) result c.at }
{
    expect(text, c, equal(bytes_of(text, c.at, c.end), w))
}

// Does reading go on, with another token than w?
pub fn until(text: &[u8], c: Cursor, w: &[u8]) -> bool
    ensures { result ≡ (alive c && not (ahead_of w.now (stream text.now c))) }
{
    (c.no == 0) & !is(text, c, w)
}

// ---- words and names

pub fn is_word(w: &[u8]) -> bool
    ensures { result ≡ is_word w.now }
{
    if 0 < w.len() {
        tokens::is_wordy(w[0])
    } else {
        false
    }
}

// A word is due.
pub fn word(text: &[u8], c: Cursor) -> Cursor
    ensures { Goes text.now c word_due result (ahead_tok text.now c) }
{
    expect(text, c, is_word(bytes_of(text, c.at, c.end)))
}

// Does a byte stand there? `contains` takes twice the instructions on words, which are short.
pub fn holds(w: &[u8], b: u8) -> bool
    ensures { result ≡ has b w.now }
{
    w.iter().any(|x| *x == b)
}

// ---- waveform characters

// A letter or a digit?
pub fn is_char(b: u8) -> bool
    ensures { result ≡ wave_char b }
{
    ((65 <= b) & (b <= 90)) | ((97 <= b) & (b <= 122)) | ((48 <= b) & (b <= 57))
}

// Letters and digits only?
pub fn all_chars(w: &[u8]) -> bool
    ensures { result ≡ all_chars w.now }
{
    w.iter().all(|b| is_char(*b))
}

// ---- names

// Is w one of the words of at most 4 bytes that are no names?
fn reserved_short(w: &[u8]) -> bool
    requires { length w.now ≤ 4 }
    ensures { result ≡ among reserved_words w.now }
{
    let n = w.len();
    match n {
        1 => equal(w, b"V") | (equal(w, b"W") | (equal(w, b"C") | equal(w, b"X"))),
        2 => equal(w, b"In"),
        3 => equal(w, b"Out"),
        4 => equal(w, b"STIL") | (equal(w, b"Call") | equal(w, b"Loop")),
        _ => false,
    }
}

// Is w one of those of 5 to 7 bytes?
fn reserved_middle(w: &[u8]) -> bool
    requires in_bounds { 4 < length w.now }
    requires w_len_bound { length w.now ≤ 7 }
    ensures { result ≡ among reserved_words w.now }
{
    let n = w.len();
    match n {
        5 => equal(w, b"InOut") | (equal(w, b"Macro") | equal(w, b"Shift")),
        6 => equal(w, b"Timing") | equal(w, b"Period"),
        _ => equal(w, b"Signals") | (equal(w, b"PatList") | equal(w, b"Pattern")),
    }
}

// Is w one of those of more bytes?
fn reserved_long(w: &[u8]) -> bool
    requires { 7 < length w.now }
    ensures { result ≡ among reserved_words w.now }
{
    let n = w.len();
    match n {
        9 => equal(w, b"Waveforms") | equal(w, b"MacroDefs"),
        10 => equal(w, b"Procedures"),
        11 => equal(w, b"PatternExec"),
        12 => equal(w, b"SignalGroups") | equal(w, b"PatternBurst"),
        13 => equal(w, b"WaveformTable"),
        _ => false,
    }
}

// Is w one of the words that are no names? Only words of its length are looked at.
pub fn reserved(w: &[u8]) -> bool
    ensures { result ≡ among reserved_words w.now }
{
    let n = w.len();
    if n <= 4 {
        return reserved_short(w);
    }
    if n <= 7 {
        return reserved_middle(w);
    }
    reserved_long(w)
}

fn is_capital(b: u8) -> bool
    ensures { result ≡ capital b }
{
    (65 <= b) & (b <= 90)
}

// Only a word that begins with a capital letter can be reserved.
pub fn is_name(w: &[u8]) -> bool
    ensures { result ≡ is_name w.now }
{
    let n = w.len();
    if n == 0 {
        return false;
    }
    if (32 < n) | holds(w, 46) {
        return false;
    }
    let b = w[0];
    if is_capital(b) {
        return !reserved(w);
    }
    !is_digit(b)
}

// A name is due.
pub fn name(text: &[u8], c: Cursor) -> Cursor
    ensures { Goes text.now c name_due result (ahead_tok text.now c) }
{
    let r = word(text, c);
    refuse_if(r, !is_name(bytes_of(text, c.at, c.end)), NO_NAME, c.at)
}

// ---- names in their name space

// The number at a place of a list, or 0 past its end.
pub fn number_at(list: &[usize], i: usize) -> usize
    ensures { result ≡ get_or list.now i 0 }
{
    list.get(i).copied().unwrap_or(0)
}

// The bytes of the name of number i.
pub fn name_bytes<'a>(text: &'a [u8], places: &'a [usize], i: usize) -> &'a [u8]
    ensures { result.now ≡ (name_of text.now places.now i).word }
{
    if i < places.len() / 2 {
        return bytes_of(text, places[i * 2], places[i * 2 + 1]);
    }
    &text[0..0]
}

// Two bytes from a place on as one number, and so four and eight: they are loaded at once. `u64::from_le_bytes` takes an eighth more instructions for eight.
fn two(w: &[u8], i: usize) -> u64
    requires { i + 2 ≤ length w.now }
    ensures { result ≡ packed w.now i 2 }
{
    u64::from(w[i]) + u64::from(w[i + 1]) * 256
}

fn four(w: &[u8], i: usize) -> u64
    requires { i + 4 ≤ length w.now }
    ensures { result ≡ packed w.now i 4 }
{
    two(w, i) + two(w, i + 2) * 65_536
}

fn eight(w: &[u8], i: usize) -> u64
    requires { i + 8 ≤ length w.now }
    ensures { result ≡ packed w.now i 8 }
{
    four(w, i) + four(w, i + 4) * 4_294_967_296
}

// From here on all bytes are 0. They are looked at from the end on, eight at a time, so that a row of which only the front is used costs what its front costs.
pub fn zeros_from(w: &[u8]) -> usize
    ensures { ZerosFrom w.now result }
{
    let mut n = w.len();
    while 8 <= n {
        if eight(w, n - 8) != 0 {
            return n;
        }
        n -= 8;
    }
    n
}

// Are two words equal? By eight bytes at a time; the last eight may have been compared in part already. Names of a chain begin and end alike, and `==` takes up to twice the time
// on them.
fn equal_by_eights(w: &[u8], v: &[u8]) -> bool
    ensures { result ≡ same w.now v.now }
{
    let n = w.len();
    if n != v.len() {
        return false;
    }
    if n < 8 {
        return equal(w, v);
    }
    let last = n - 8;
    let mut i = 0;
    while i < last {
        if eight(w, i) != eight(v, i) {
            return false;
        }
        i += 8;
    }
    eight(w, last) == eight(v, last)
}

// A chain by two numbers.
fn mixed(x: u64, y: u64) -> usize
    ensures { InChain (mixed_of x y) result }
{
    ((x / 2 + y / 2) % CHAINS as u64) as usize
}

// The chain of a word. Names are parted in chains, so that few of them are compared with a word; the bytes with which it begins and those with which it ends tell its chain.
pub fn chain(w: &[u8]) -> usize
    ensures { InChain (chain_of w.now) result }
{
    let n = w.len();
    if 8 <= n {
        return mixed(eight(w, 0), eight(w, n - 8));
    }
    if 4 <= n {
        return mixed(four(w, 0), four(w, n - 4));
    }
    if 2 <= n {
        return mixed(two(w, 0), two(w, n - 2));
    }
    if n == 0 {
        return 0;
    }
    let b = u64::from(w[0]);
    mixed(b, b)
}

// Is the name whose place stands at j the word w, which ends with the byte `last`? Most names are told by their length, which needs no look at the text, or by
// their own last byte.
pub fn is_named<'a>(text: &'a [u8], w: &'a [u8], last: u8, places: &'a [usize], j: usize) -> bool
    requires { (j + 1 < length places.now) × EndsWith w.now last }
    ensures { result ≡ same (span text.now (get_or places.now j 0) (get_or places.now (j + 1) 0)) w.now }
{
    let end = places[j + 1];
    let n = w.len();
    if end <= text.len() {
        if end < n {
            return false;
        }
        if places[j] != end - n {
            return false;
        }
        if text[end - 1] != last {
            return false;
        }
    }
    equal_by_eights(bytes_of(text, places[j], end), w)
}

// The number of the first of `count` names that is w; `count` where none is. The slow way, for words without a byte and tables cut short.
fn find_any<'a>(text: &'a [u8], w: &'a [u8], places: &'a [usize], count: usize) -> usize
    ensures { told (ltb result count) result ≡ find_of (names text.now places.now count) w.now }
{
    for i in 0..count {
        if equal(name_bytes(text, places, i), w) {
            return i;
        }
    }
    count
}

// The number of the first of `count` names that is w; `count` where none is.
pub fn find<'a>(text: &'a [u8], w: &'a [u8], places: &'a [usize], count: usize) -> usize
    ensures { told (ltb result count) result ≡ find_of (names text.now places.now count) w.now }
{
    let n = w.len();
    if (n == 0) | (places.len() / 2 < count) {
        return find_any(text, w, places, count);
    }
    let last = w[n - 1];
    for i in 0..count {
        if is_named(text, w, last, places, i * 2) {
            return i;
        }
    }
    count
}

// A new name: it was looked up among `count` names, and `number` is past theirs where none is it.
pub fn unused_name(text: &[u8], c: Cursor, number: usize, count: usize) -> Cursor
    ensures { (ns : List (Tok × ℕ)) → told (ltb number count) number ≡ find_of ns (ahead_tok text.now c).word → Goes text.now c (new_name ns) result (ahead_tok text.now c) }
{
    let r = name(text, c);
    refuse_if(r, number < count, USED, c.at)
}

// A name that none of `count` names is.
pub fn new_name<'a>(text: &'a [u8], c: Cursor, places: &'a [usize], count: usize) -> Cursor
    ensures { Goes text.now c (new_name (names text.now places.now count)) result (ahead_tok text.now c) }
{
    let number = find(text, bytes_of(text, c.at, c.end), places, count);
    unused_name(text, c, number, count)
}

// A known name: it was looked up among `count` names, and `number` is past theirs where none is it.
pub fn known_name(text: &[u8], c: Cursor, number: usize, count: usize) -> Named
    ensures { (ns : List (Tok × ℕ)) → told (ltb number count) number ≡ find_of ns (ahead_tok text.now c).word → Goes text.now c (old_name ns) result.cursor (ahead_tok text.now c, result.number) }
{
    let at = c.at;
    let right = is_name(bytes_of(text, at, c.end));
    let d = word(text, c);
    let r = refuse_if(d, !right, NO_NAME, at);
    let cursor = refuse_if(r, count <= number, UNKNOWN, at);
    Named { cursor, number }
}

// A name that one of `count` names is, and that one's number.
pub fn old_name<'a>(text: &'a [u8], c: Cursor, places: &'a [usize], count: usize) -> Named
    ensures { Goes text.now c (old_name (names text.now places.now count)) result.cursor (ahead_tok text.now c, result.number) }
{
    let number = find(text, bytes_of(text, c.at, c.end), places, count);
    known_name(text, c, number, count)
}

// ---- numbers and times

pub fn is_digit(b: u8) -> bool
    ensures { result ≡ digit b }
{
    (48 <= b) & (b <= 57)
}

// The largest number that is held: above every bound on one.
const NUMBER_MOST: u64 = 10_000_000_000;

// A number with one digit more, at most the largest that is held.
pub fn longer(n: u64, b: u8) -> u64
    ensures { Longer n b result }
{
    if NUMBER_MOST <= n {
        return NUMBER_MOST;
    }
    (n * 10 + u64::from(b.saturating_sub(b'0'))).min(NUMBER_MOST)
}

// The number that decimal digits stand for, at most the largest that is held: its contract tells a number that is too large from a word that is none, so it goes
// on behind the largest, where `number_up_to` ends.
pub fn number(w: &[u8]) -> Option<u64>
    ensures { value_of result ≡ capped (number_of w.now) }
{
    if w.is_empty() {
        return None;
    }
    let mut n = 0;
    for b in w {
        if !is_digit(*b) {
            return None;
        }
        n = longer(n, *b);
    }
    Some(n)
}

// A number with one digit more, if it is at most `most`.
fn longer_up_to(n: u64, digit: u64, most: u64) -> Option<u64>
    ensures { value_of result ≡ up_to most (some (n * 10 + digit)) }
{
    let m = n.checked_mul(10)?.checked_add(digit)?;
    if m <= most { Some(m) } else { None }
}

// The number that decimal digits stand for, if it is at most `most`.
pub fn number_up_to(word: &[u8], most: u64) -> Option<u64>
    ensures { value_of result ≡ up_to most (number_of word.now) }
{
    if word.is_empty() {
        return None;
    }
    let mut n = 0;
    for b in word {
        if !is_digit(*b) {
            return None;
        }
        n = longer_up_to(n, u64::from(b.saturating_sub(b'0')), most)?;
    }
    Some(n)
}

// A number before its unit, which begins with no digit, in ps.
fn in_ps(n: u64, unit: &[u8]) -> Option<u64>
    ensures { (m : ℕ) → n ≡ min most m → digit (get_or unit.now 0 0) ≡ false → value_of result ≡ capped (unit_of m unit.now) }
{
    if equal(unit, b"ps") {
        return Some(n);
    }
    if !equal(unit, b"ns") {
        return None;
    }
    Some(n.saturating_mul(1000).min(NUMBER_MOST))
}

// The time that a word stands for, in ps.
pub fn time(w: &[u8]) -> Option<u64>
    ensures { value_of result ≡ capped (picoseconds w.now) }
{
    let mut n = 0;
    for (i, b) in w.iter().enumerate() {
        if !is_digit(*b) {
            if i == 0 {
                return None;
            }
            return in_ps(n, &w[i..]);
        }
        n = longer(n, *b);
    }
    None
}

// A number that was read: refused with 9 at p, unless it is one from lo to hi.
pub fn within(c: Cursor, v: Option<u64>, lo: u32, hi: u32, p: usize) -> Numbered
    ensures { (text : List ℕ) (o : Option ℕ) → value_of v ≡ capped o → Goes text c (within_due lo hi o p) result.cursor result.n }
{
    match v {
        Some(n) => {
            let right = (u64::from(lo) <= n) & (n <= u64::from(hi));
            let cursor = refuse_if(c, !right, BAD_NUMBER, p);
            Numbered { cursor, n }
        }
        None => {
            let cursor = refuse_if(c, true, BAD_NUMBER, p);
            Numbered { cursor, n: 0 }
        }
    }
}

// A number from lo to hi is due.
pub fn number_in(text: &[u8], c: Cursor, lo: u32, hi: u32) -> Numbered
    ensures { Goes text.now c (number_in lo hi) result.cursor result.n }
{
    let d = word(text, c);
    let v = number(bytes_of(text, c.at, c.end));
    within(d, v, lo, hi, c.at)
}

// The largest time, in ps.
const TIME_MOST: u32 = 1_000_000_000;

// A cycle's start, where times are counted from the earliest that there may be.
pub const START: u64 = TIME_MOST as u64;

// A time in quotes, from lo on, is due.
pub fn quoted(text: &[u8], c: Cursor, lo: u32) -> Numbered
    ensures { Goes text.now c (quoted_due lo) result.cursor result.n }
{
    let d = due(text, c, b"'");
    let e = word(text, d);
    let v = time(bytes_of(text, d.at, d.end));
    let t = within(e, v, lo, TIME_MOST, d.at);
    let cursor = due(text, t.cursor, b"'");
    Numbered { cursor, n: t.n }
}

// ---- times with a sign, counted from the earliest that there may be

// A time behind the cycle's start, or before it (`minus`).
fn counted(n: u64, minus: bool) -> u64
    ensures { n ≤ time_most → result ≡ counted_of (sign_of minus n) }
{
    if START < n {
        return START;
    }
    if minus {
        return START - n;
    }
    START + n
}

// The word of a time is due, behind its sign.
fn time_of(text: &[u8], c: Cursor, minus: bool) -> Numbered
    ensures { Counts text.now c (time_of (sign_of minus)) result.cursor result.n }
{
    let d = word(text, c);
    let v = time(bytes_of(text, c.at, c.end));
    let t = within(d, v, 0, TIME_MOST, c.at);
    let n = counted(t.n, minus);
    Numbered {
        cursor: t.cursor,
        n,
    }
}

// The same, with a `-` before it or without.
fn signed(text: &[u8], c: Cursor) -> Numbered
    ensures { Counts text.now c signed_due result.cursor result.n }
{
    if is(text, c, b"-") {
        let d = due(text, c, b"-");
        let t = time_of(text, d, true);
        return t;
    }
    let t = time_of(text, c, false);
    return t;
}

// An event's time in quotes is due.
pub fn signed_quoted(text: &[u8], c: Cursor) -> Numbered
    ensures { Goes text.now c signed_quoted result.cursor result.n }
{
    let d = due(text, c, b"'");
    let t = signed(text, d);
    let cursor = due(text, t.cursor, b"'");
    Numbered { cursor, n: t.n }
}
