// Hurt reels: the span that a refusal overwrites, and the overwriting.
#![tactic(auto)]

ghost use Rattle.std.specs.Prelude.{◌≡◌, ◌++◌, ◌+◌, ◌≤◌, ◌<◌, length, take, drop};
ghost use Rattle.tokens.specs.Written.{bytes, same};
ghost use Rattle.tokens.specs.Refusals.{text_most};
ghost use Rattle.tokens.specs.Tokens.{toks};
ghost use Rattle.words.specs.Cursor.{stream, ahead};
ghost use Rattle.saving.specs.Saving.{closing, beginning, turn, blocks, block_at, semicolon, entry, hurt, spaced};
ghost use Rattle.saving.specs.Found.{hurt_of, begun_in, Scans};
ghost use Rattle.saving.specs.Spans.{Notes};

use tokens::Refusal;
use words::Cursor;

const SPACE: u8 = 32;

// A span that is overwritten: its first byte, and the one behind its last.
#[derive(Clone, Copy)]
pub struct Hurt {
    pub first: usize,
    pub behind: usize,
}

// Turn after turn: how many spans were overwritten, and the refusal of a text that is beyond help.
#[derive(Clone, Copy)]
pub struct Mended {
    pub count: usize,
    pub end: Result<(), Refusal>,
}

// How many braces are open, and where a Pattern block has begun, if one has (`begun`); or (`ended`) one that began there has just ended.
#[derive(Clone, Copy)]
struct Scan {
    depth: usize,
    begun: bool,
    first: usize,
    ended: bool,
}

// ---- Pattern blocks

// The next `}`, before the place q.
fn close(s: Scan, q: usize) -> Scan
    ensures { Scans (closing s.depth (begun_in s) q) q result }
{
    if s.depth == 0 {
        return Scan {
            depth: 0,
            begun: s.begun,
            first: s.first,
            ended: false,
        };
    }
    let ended = s.begun & (s.depth == 1);
    Scan {
        depth: s.depth - 1,
        begun: s.begun & !ended,
        first: s.first,
        ended,
    }
}

// The next word Pattern, at the place p.
fn begin(s: Scan, p: usize, q: usize) -> Scan
    ensures { Scans (beginning s.depth (begun_in s) p) q result }
{
    if (s.depth == 0) & !s.begun {
        return Scan {
            depth: 0,
            begun: true,
            first: p,
            ended: false,
        };
    }
    Scan {
        depth: s.depth,
        begun: s.begun,
        first: s.first,
        ended: false,
    }
}

// The next token.
fn scanned(text: &[u8], s: Scan, c: Cursor) -> Scan
    requires { (s.depth < length text.now) × (c.at < length text.now) }
    ensures { Scans (turn s.depth (begun_in s) (ahead text.now c)) (c.at + 1) result }
{
    let at = c.at;
    let w = words::bytes_of(text, at, c.end);
    if words::equal(w, b"{") {
        return Scan {
            depth: s.depth + 1,
            begun: s.begun,
            first: s.first,
            ended: false,
        };
    }
    if words::equal(w, b"}") {
        return close(s, at + 1);
    }
    if words::equal(w, b"Pattern") {
        return begin(s, at, at + 1);
    }
    Scan {
        depth: s.depth,
        begun: s.begun,
        first: s.first,
        ended: false,
    }
}

// The block that a place lies in, in one pass over the text.
fn block_at(text: &[u8], p: usize) -> Option<Hurt>
    ensures { hurt_of result ≡ block_at p (blocks text.now) }
{
    let mut c = words::cursor_at(text, 0);
    let mut s = Scan {
        depth: 0,
        begun: false,
        first: 0,
        ended: false,
    };
    while c.at < c.end {
        s = scanned(text, s, c);
        let behind = c.at + 1;
        if s.ended & (s.first <= p) & (p < behind) {
            return Some(Hurt {
                first: s.first,
                behind,
            });
        }
        c = words::cursor_at(text, c.end);
    }
    if s.begun & (s.first <= p) & (p <= text.len()) {
        return Some(Hurt {
            first: s.first,
            behind: text.len(),
        });
    }
    None
}

// ---- entries of the list

// The next `;`.
fn is_semicolon(text: &[u8], c: Cursor) -> bool
    ensures { result ≡ same (ahead text.now c).word (bytes ";") }
{
    words::equal(words::bytes_of(text, c.at, c.end), b";")
}

// From a name at the place p to its `;`.
fn entry_at(text: &[u8], p: usize) -> Option<Hurt>
    ensures { hurt_of result ≡ entry (toks text.now p) }
{
    let name = words::cursor_at(text, p);
    if name.end <= name.at {
        return None;
    }
    let first = name.at;
    let mut c = words::cursor_at(text, name.end);
    while c.at < c.end {
        if is_semicolon(text, c) {
            return Some(Hurt {
                first,
                behind: c.at + 1,
            });
        }
        c = words::cursor_at(text, c.end);
    }
    None
}

// ---- what a refusal overwrites

// If anything.
pub fn hurt_span(text: &[u8], refusal: Refusal) -> Option<Hurt>
    ensures { hurt_of result ≡ hurt text.now refusal.no refusal.place }
{
    let no = refusal.no;
    if ((4 <= no) & (no <= 14)) | (no == 17) | (no == 25) {
        return block_at(text, refusal.place);
    }
    if no == 15 {
        return entry_at(text, refusal.place);
    }
    None
}

// Spaces from one place up to another.
pub fn overwrite(text: &mut [u8], first: usize, behind: usize)
    ensures { text.new ≡ spaced first behind text.old }
{
    let mut i = first;
    while (i < behind) & (i < text.len()) {
        text[i] = SPACE;
        i += 1;
    }
}

// ---- the list of spans

// A span, if there is one, behind `count` of them, where the numbers have room for it; how many there are then.
pub fn note(numbers: &mut [u64], count: usize, hurt: Option<Hurt>) -> usize
    requires { count ≤ text_most }
    ensures { Notes count (hurt_of hurt) numbers.old result numbers.new }
{
    let Some(h) = hurt else {
        return count;
    };
    if numbers.len() / 2 <= count {
        return count + 1;
    }
    numbers[count * 2] = h.first as u64;
    numbers[count * 2 + 1] = h.behind as u64;
    count + 1
}

// The first n numbers of a log to the front of others.
pub fn hand_out(log: &[u64], n: usize, numbers: &mut [u64])
    requires { (n ≤ length log.now) × (n ≤ length numbers.old) }
    ensures { numbers.new ≡ take n log.now ++ drop n numbers.old }
{
    numbers[..n].copy_from_slice(&log[..n]);
}
