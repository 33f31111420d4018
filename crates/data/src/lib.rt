// DATA: words, repeats and `#`, spelled out into a buffer that the caller lends.
#![tactic(auto)]

ghost use Rattle.std.specs.Prelude.{◌≡◌, true, ◌+◌, ◌*◌, ◌-◌, min, replicate};
ghost use Rattle.meaning.specs.Data.{stretched, repeated, data_read};
ghost use Rattle.words.specs.Cursor.{Goes};
ghost use Rattle.data.specs.Filled.{count_most, Adds, Puts, Fills, Single, times_due, piece_due};

use words::{BAD_DATA, Cursor, NOT_HERE, Numbered};

// The most that is counted: above the length of every buffer.
const COUNT_MOST: usize = 9_223_372_036_854_775_808;

// Refusal: a `#` where none may stand, or an argument that is not fit.
pub const BAD_ARGUMENT: u8 = 13;

// The cursor behind a piece, and how many characters there are with it.
#[derive(Clone, Copy)]
struct Put {
    cursor: Cursor,
    n: usize,
}

// The cursor behind the `;`, how many characters there are, and where the `;` stands.
#[derive(Clone, Copy)]
pub struct Filled {
    pub cursor: Cursor,
    pub n: usize,
    pub last: usize,
}

// ---- characters behind those that a buffer holds

// n and k more, as far as they are counted.
fn counted(n: usize, k: usize) -> usize
    ensures { result ≡ min count_most (n + k) }
{
    n.saturating_add(k).min(COUNT_MOST)
}

// n and k times len more, as far as they are counted.
fn counted_times(n: usize, k: usize, len: usize) -> usize
    ensures { result ≡ min count_most (n + k * len) }
{
    counted(n, k.saturating_mul(len))
}

// How many of k more have room behind n, where there is room for `len`.
fn fitting(len: usize, n: usize, k: usize) -> usize
    ensures { result ≡ min k (len - n) }
{
    k.min(len.saturating_sub(n))
}

// The bytes w behind the first n.
fn copy(buffer: &mut [u8], n: usize, w: &[u8]) -> usize
    ensures { Adds buffer.old n w.now buffer.new result }
{
    let bytes = fitting(buffer.len(), n, w.len());
    // One by one: the library's copy becomes memmove here, which the archive for C does not want (include/stil.h).
    for i in 0..bytes {
        buffer[n + i] = w[i];
    }
    counted(n, w.len())
}

// k times x behind the first n.
fn fill(buffer: &mut [u8], n: usize, k: usize, x: u8) -> usize
    ensures { Adds buffer.old n (replicate k x) buffer.new result }
{
    if n < buffer.len() {
        let times = fitting(buffer.len(), n, k);
        buffer[n..n + times].fill(x);
    }
    counted(n, k)
}

// The word w, k times behind the first n: once, and then again and again behind that, as far as there is room. What has none is counted and not copied.
fn copies(buffer: &mut [u8], n: usize, k: usize, w: &[u8]) -> usize
    ensures { Adds buffer.old n (stretched k w.now) buffer.new result }
{
    let len = w.len();
    if (k == 0) | (len == 0) {
        return n;
    }
    copy(buffer, n, w);
    let once = counted(n, len);
    let all = counted_times(n, k, len);
    let room = buffer.len();
    if room <= once {
        return all;
    }
    let count = fitting(room, once, all - once);
    repeats::extend(buffer, once, len, count);
    all
}

// A repeat spelled out: one character is the usual word.
fn stretch(buffer: &mut [u8], n: usize, k: usize, w: &[u8]) -> usize
    ensures { Adds buffer.old n (stretched k w.now) buffer.new result }
{
    if w.len() == 1 {
        return fill(buffer, n, k, w[0]);
    }
    copies(buffer, n, k, w)
}

// ---- pieces of DATA

// `r` and how many times, behind `\`.
fn times(text: &[u8], c: Cursor) -> Numbered
    ensures { Goes text.now c times_due result.cursor result.n }
{
    let w = words::bytes_of(text, c.at, c.end);
    let d = words::step(text, c);
    if 0 < w.len() {
        if w[0] == b'r' {
            let v = words::number(&w[1..]);
            return words::within(d, v, 1, 4096, c.at);
        }
    }
    let cursor = words::refuse_if(d, true, NOT_HERE, c.at);
    Numbered { cursor, n: 0 }
}

// What stands behind `\`: `r`, how many times, and the word that is repeated.
fn repeat(text: &[u8], c: Cursor, buffer: &mut [u8], n: usize) -> Put
    ensures { Puts text.now c repeated result.cursor buffer.old n buffer.new result.n }
{
    let t = times(text, c);
    let d = t.cursor;
    let w = words::bytes_of(text, d.at, d.end);
    let e = words::word(text, d);
    let cursor = words::refuse_if(e, !words::all_chars(w), BAD_DATA, d.at);
    let m = stretch(buffer, n, t.n as usize, w);
    Put { cursor, n: m }
}

// A word, `#` where it may stand, or a repeat, behind the first n.
fn piece(text: &[u8], c: Cursor, may: bool, buffer: &mut [u8], n: usize) -> Put
    ensures { Puts text.now c (piece_due may) result.cursor buffer.old n buffer.new result.n }
{
    let w = words::bytes_of(text, c.at, c.end);
    let d = words::step(text, c);
    if words::is_word(w) {
        let cursor = words::refuse_if(d, !words::all_chars(w), BAD_DATA, c.at);
        let m = copy(buffer, n, w);
        return Put { cursor, n: m };
    }
    if words::equal(w, b"#") {
        let cursor = words::refuse_if(d, !may, BAD_ARGUMENT, c.at);
        let m = copy(buffer, n, w);
        return Put { cursor, n: m };
    }
    if words::equal(w, b"\\") {
        return repeat(text, d, buffer, n);
    }
    let cursor = words::refuse_if(d, true, NOT_HERE, c.at);
    Put { cursor, n }
}

// DATA and its `;`, piece by piece. `may`: may `#` stand in it?
fn spelled(text: &[u8], c: Cursor, may: bool, buffer: &mut [u8]) -> Filled
    ensures { Fills text.now c (data_read may) result.cursor buffer.old buffer.new result.n result.last }
{
    let mut cursor = c;
    let mut n = 0;
    while words::until(text, cursor, b";") {
        let p = piece(text, cursor, may, buffer, n);
        cursor = p.cursor;
        n = p.n;
    }
    let last = cursor.at;
    let end = words::due(text, cursor, b";");
    Filled {
        cursor: end,
        n,
        last,
    }
}

// Is one letter or digit alone ahead? That is the usual DATA.
fn is_single(text: &[u8], c: Cursor) -> bool
    ensures { result ≡ true → Single text.now c }
{
    let at = c.at;
    let end = c.end;
    if c.no != 0 {
        return false;
    }
    if end <= at {
        return false;
    }
    if end - at != 1 {
        return false;
    }
    if text.len() < end {
        return false;
    }
    words::is_char(text[at])
}

// DATA and its `;`. `may`: may `#` stand in it?
pub fn data(text: &[u8], c: Cursor, may: bool, buffer: &mut [u8]) -> Filled
    ensures { Fills text.now c (data_read may) result.cursor buffer.old buffer.new result.n result.last }
{
    if is_single(text, c) {
        let d = words::step(text, c);
        if !words::until(text, d, b";") & (0 < buffer.len()) {
            let cursor = words::due(text, d, b";");
            let at = c.at;
            buffer[0] = text[at];
            return Filled {
                cursor,
                n: 1,
                last: d.at,
            };
        }
    }
    spelled(text, c, may, buffer)
}
