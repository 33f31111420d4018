// The characters of an argument, one after the other, read from the text where its DATA stands.
#![tactic(auto)]

ghost use Rattle.std.specs.Prelude.{◌≡◌, List, ℕ, ◌+◌, ◌*◌, ◌-◌, ◌≤◌, ◌<◌, min, length, false};
ghost use Rattle.tokens.specs.Tokens.{Toks, toks};
ghost use Rattle.meaning.specs.Reader.{ok};
ghost use Rattle.meaning.specs.Data.{stretched, data_read};
ghost use Rattle.words.specs.Cursor.{span};
ghost use Rattle.feeds.specs.Feeds.{Feeds, Takes, Skips, front, Fine, BehindOne, Passes, Times, Repeats, NextWord, AtWord};

use words::Cursor;

// Where the next character stands: in the word up to `end`, at `at`. Behind its end the word is said `left` times more, each time from its first byte `from` on.
// With no word there, the DATA goes on at `end`.
#[derive(Clone, Copy)]
pub struct Feed {
    pub at: usize,
    pub end: usize,
    pub left: usize,
    pub from: usize,
}

// The feed behind the next character, and that character, 0 where none is left.
#[derive(Clone, Copy)]
pub struct Fed {
    pub feed: Feed,
    pub char: u8,
}

// The feed behind characters of its word, and how many of them are to be passed in the next words.
#[derive(Clone, Copy)]
struct Passed {
    feed: Feed,
    n: usize,
}

// The feed of the DATA from a place on.
pub fn start(place: usize) -> Feed
    ensures { (text cs : List ℕ) (q : ℕ) (us : Toks) → data_read false (toks text place) ≡ ok (cs, q) us → Feeds text result cs }
{
    Feed {
        at: place,
        end: place,
        left: 0,
        from: place,
    }
}

// ---- within a word

// How many characters the word still says, at most so many.
pub fn said(feed: Feed, most: usize) -> usize
    ensures { result ≡ min most (feed.end - feed.at + feed.left * (feed.end - feed.from)) }
{
    let this = feed.end.saturating_sub(feed.at);
    let width = feed.end.saturating_sub(feed.from);
    let times = feed.left;
    if most <= this {
        return most;
    }
    if width == 0 {
        return this;
    }
    if (most - this) / width < times {
        return most;
    }
    this + times * width
}

// The feed behind the next character of its word: behind its end the word is said again.
fn behind_one(feed: Feed) -> Feed
    ensures { BehindOne feed result }
{
    let at = feed.at;
    let end = feed.end;
    let left = feed.left;
    let from = feed.from;
    if end <= at {
        return feed;
    }
    let second = at + 1;
    if second < end {
        return Feed { at: second, ..feed };
    }
    if left == 0 {
        return Feed {
            at: end,
            end,
            left: 0,
            from: end,
        };
    }
    Feed {
        at: from,
        left: left - 1,
        ..feed
    }
}

// The feed behind this time of its word and n characters more, as far as its word has them.
fn pass_times(feed: Feed, n: usize) -> Passed
    ensures { feed.at < feed.end → Passes feed (feed.end - feed.at + n) result.feed result.n }
{
    let end = feed.end;
    let left = feed.left;
    let from = feed.from;
    let behind = Feed {
        at: end,
        end,
        left: 0,
        from: end,
    };
    if left == 0 {
        return Passed { feed: behind, n };
    }
    if end <= from {
        return Passed { feed: behind, n };
    }
    let width = end - from;
    let times = n / width;
    if left <= times {
        return Passed {
            feed: behind,
            n: n - left * width,
        };
    }
    let here = Feed {
        at: from + n % width,
        left: left - 1 - times,
        ..feed
    };
    Passed { feed: here, n: 0 }
}

// The feed behind n characters, as far as its word has them.
fn pass(feed: Feed, n: usize) -> Passed
    ensures { Passes feed n result.feed result.n }
{
    let at = feed.at;
    let end = feed.end;
    if end <= at {
        return Passed { feed, n };
    }
    let this = end - at;
    if n < this {
        let here = Feed { at: at + n, ..feed };
        return Passed { feed: here, n: 0 };
    }
    pass_times(feed, n - this)
}

// ---- the next word

// How often a repeat says its word behind the first time: the number behind its `r`, less one.
fn times(w: &[u8]) -> usize
    ensures { Times w.now result }
{
    let n = words::number(words::bytes_of(w, 1, w.len())).unwrap_or(0);
    n.saturating_sub(1) as usize
}

// The word that a repeat says, behind its `\`.
fn repeat(text: &[u8], c: Cursor) -> Feed
    ensures { Repeats text.now c result }
{
    let left = times(words::bytes_of(text, c.at, c.end));
    let d = words::step(text, c);
    if d.no != 0 {
        return Feed {
            at: 0,
            end: 0,
            left,
            from: 0,
        };
    }
    Feed {
        at: d.at,
        end: d.end,
        left,
        from: d.at,
    }
}

// The next word of the DATA at a place; where the DATA ends, none. The DATA goes on at its end.
pub fn next_word(text: &[u8], place: usize) -> Feed
    ensures { NextWord text.now place result }
{
    let c = words::cursor_at(text, place);
    if words::is(text, c, b";") {
        return Feed {
            at: place,
            end: place,
            left: 0,
            from: place,
        };
    }
    if words::is(text, c, b"\\") {
        return repeat(text, words::step(text, c));
    }
    Feed {
        at: c.at,
        end: c.end,
        left: 0,
        from: c.at,
    }
}

// The same feed, with the next word where it has none.
fn at_word(text: &[u8], feed: Feed) -> Feed
    ensures { AtWord text.now feed result }
{
    if feed.at < feed.end {
        return feed;
    }
    next_word(text, feed.end)
}

// ---- characters that are marked

// Where the first byte from `at` to `end` stands whose mark is not 1.
fn marked(text: &[u8], at: usize, end: usize, marks: &[u8]) -> usize
    requires { (at ≤ end) × (end ≤ length text.now) }
    ensures { result ≡ at + front marks.now (span text.now at end) }
{
    for i in at..end {
        let b = text[i] as usize;
        if marks.len() <= b {
            return i;
        }
        if marks[b] != 1 {
            return i;
        }
    }
    end
}

// How many characters of a word that is said so many times are marked before the first that is not, at most so many.
fn fine_times(
    text: &[u8],
    from: usize,
    end: usize,
    times: usize,
    marks: &[u8],
    most: usize,
) -> usize
    requires { (from < end) × (end ≤ length text.now) }
    ensures { result ≡ min most (front marks.now (stretched times (span text.now from end))) }
{
    if times == 0 {
        return 0;
    }
    let width = end - from;
    let n = marked(text, from, end, marks) - from;
    if n < width {
        return most.min(n);
    }
    if most / width < times {
        return most;
    }
    times * width
}

// How many of the next characters are marked before the first that is not, as far as the word says them, at most so many.
pub fn fine(text: &[u8], feed: Feed, marks: &[u8], most: usize) -> usize
    ensures { Fine text.now feed marks.now most result }
{
    let at = feed.at;
    let end = feed.end;
    let from = feed.from;
    if end <= at {
        return 0;
    }
    if text.len() < end {
        return 0;
    }
    let n = marked(text, at, end, marks) - at;
    if n < end - at {
        return most.min(n);
    }
    if most <= n {
        return most;
    }
    if end <= from {
        return n;
    }
    n + fine_times(text, from, end, feed.left, marks, most - n)
}

// ---- the next character, and those behind some

// The next character.
pub fn next(text: &[u8], feed: Feed) -> Fed
    ensures { Takes text.now feed result }
{
    let here = at_word(text, feed);
    let at = here.at;
    if (at < here.end) & (at < text.len()) {
        let rest = behind_one(here);
        return Fed {
            feed: rest,
            char: text[at],
        };
    }
    Fed {
        feed: here,
        char: 0,
    }
}

// The feed behind n characters, one word after the other.
pub fn skip(text: &[u8], feed: Feed, n: usize) -> Feed
    ensures { Skips text.now feed n result }
{
    let first = pass(feed, n);
    let mut here = first.feed;
    let mut more = first.n;
    while 0 < more {
        let word = at_word(text, here);
        if word.end <= word.at {
            return word;
        }
        let p = pass(word, more);
        here = p.feed;
        more = p.n;
    }
    here
}
