// The token rules: the next token from a place, and what is wrong with a whole text as bytes.
#![tactic(auto)]

ghost use Rattle.std.specs.Prelude.{◌≡◌, ◌+◌, ◌<◌, ◌≤◌, get_or, length, drop, MatchResult};
ghost use Rattle.tokens.specs.Bytes.{allowed, blank, wordy};
ghost use Rattle.tokens.specs.Refusals.{text_most, too_long, bad_byte};
ghost use Rattle.tokens.specs.Tokens.{run, line, block, lex, toks, found, first, next_token, fault_of};
ghost use Rattle.tokens.specs.Answers.{next_of, fault_told, TokenAt, Leads};

use std::ops::ControlFlow;

// The most bytes of a text.
pub const TEXT_MOST: usize = 65_536;

// Refusals: the text is too long; a byte is not allowed; a `/*` is not closed.
pub const TOO_LONG: u8 = 1;

pub const BAD_BYTE: u8 = 2;

pub const OPEN_COMMENT: u8 = 3;

// A token: its place in the whole text and its length.
#[derive(Clone, Copy, Debug, PartialEq, Eq)]
pub struct Token {
    pub at: usize,
    pub length: usize,
}

// A refusal: its number, and the place.
#[derive(Clone, Copy, Debug, PartialEq, Eq)]
pub struct Refusal {
    pub no: u8,
    pub place: usize,
}

// The next token, or none where the text ends.
pub type Step = Result<Option<Token>, Refusal>;

// Where reading is led: on to a place outside comments, or to an answer.
pub type Lead = ControlFlow<Step, usize>;

// Is it a byte of a word? Small letters are the most frequent, and are told by two comparisons.
pub fn is_wordy(b: u8) -> bool
    ensures { result ≡ wordy b }
{
    if 97 <= b {
        b <= 122
    } else {
        (65 <= b) & (b <= 90) | (48 <= b) & (b <= 57) | (b == 95) | (b == 46)
    }
}

pub fn is_blank(b: u8) -> bool
    ensures { result ≡ blank b }
{
    (b == 32) | (b == 9) | (b == 10) | (b == 13)
}

pub fn is_allowed(b: u8) -> bool
    ensures { result ≡ allowed b }
{
    is_blank(b) | (32 <= b) & (b <= 126)
}

// The byte at a place, or 0 past the end.
fn byte_at(text: &[u8], at: usize) -> u8
    ensures { result ≡ get_or text.now at 0 }
{
    if at < text.len() { text[at] } else { 0 }
}

// The refusal of a byte that is not allowed.
fn bad_byte(place: usize) -> Refusal
    ensures { result ≡ record { no = bad_byte; place = place } }
{
    Refusal {
        no: BAD_BYTE,
        place,
    }
}

// Where the word bytes from a place on end.
fn word_end(text: &[u8], at: usize) -> usize
    ensures { result ≡ at + length (run (drop at text.now)) }
{
    let mut i = at;
    while i < text.len() {
        if !is_wordy(text[i]) {
            return i;
        }
        i += 1;
    }
    i
}

// In a `//`, from a place behind the two bytes on.
fn behind_line(text: &[u8], at: usize) -> Lead
    ensures { Leads text.now at (lex line at (drop at text.now)) result }
{
    let mut i = at;
    while i < text.len() {
        let b = text[i];
        if b == 10 {
            return ControlFlow::Continue(i + 1);
        }
        if !is_allowed(b) {
            return ControlFlow::Break(Err(bad_byte(i)));
        }
        i += 1;
    }
    ControlFlow::Break(Ok(None))
}

// In a `/*` that opens at `opening`, from a place behind the two bytes on.
fn behind_block(text: &[u8], opening: usize, at: usize) -> Lead
    ensures { Leads text.now at (lex (block opening) at (drop at text.now)) result }
{
    let mut i = at;
    while i < text.len() {
        let b = text[i];
        if !is_allowed(b) {
            return ControlFlow::Break(Err(bad_byte(i)));
        }
        if b == 42 {
            if byte_at(text, i + 1) == 47 {
                return ControlFlow::Continue(i + 2);
            }
        }
        i += 1;
    }
    ControlFlow::Break(Err(Refusal {
        no: OPEN_COMMENT,
        place: opening,
    }))
}

// At a `/`: a comment, or a token alone.
fn at_slash(text: &[u8], at: usize) -> Lead
    requires at_in_bounds { at < length text.now }
    requires at_value { get_or text.now at 0 ≡ 47 }
    ensures { Leads text.now at (toks text.now at) result }
{
    let b = byte_at(text, at + 1);
    if b == 47 {
        return behind_line(text, at + 2);
    }
    if b == 42 {
        return behind_block(text, at, at + 2);
    }
    ControlFlow::Break(Ok(Some(Token { at, length: 1 })))
}

// The length of the token that begins at a place with the byte b.
fn token_length(text: &[u8], at: usize, b: u8) -> usize
    requires { TokenAt text.now at b }
    ensures { first (toks text.now at) ≡ found at result }
{
    if is_wordy(b) {
        let behind = at + 1;
        let end = word_end(text, behind);
        return end - at;
    }
    1
}

// The first token from a place on, where comments may stand before it.
fn past_comments(text: &[u8], at: usize) -> Step
    ensures { next_of result ≡ first (toks text.now at) }
{
    let mut i = at;
    while i < text.len() {
        let b = text[i];
        if b == 47 {
            match at_slash(text, i) {
                ControlFlow::Continue(k) => {
                    i = k;
                }
                ControlFlow::Break(step) => {
                    return step;
                }
            }
        } else {
            if !is_blank(b) {
                if !is_allowed(b) {
                    return Err(bad_byte(i));
                }
                let length = token_length(text, i, b);
                return Ok(Some(Token { at: i, length }));
            }
            i += 1;
        }
    }
    Ok(None)
}

// The first token from a place on, in a text of any length. Where no comment stands before it this is the whole way, and a short one.
pub fn first_from(text: &[u8], at: usize) -> Step
    ensures { next_of result ≡ first (toks text.now at) }
{
    let mut i = at;
    while i < text.len() {
        let b = text[i];
        if !is_blank(b) {
            if b == 47 {
                // bound first: where a call is returned outright, the answers of the other ways are copied once more
                let step = past_comments(text, i);
                return step;
            }
            if !is_allowed(b) {
                return Err(bad_byte(i));
            }
            let length = token_length(text, i, b);
            return Ok(Some(Token { at: i, length }));
        }
        i += 1;
    }
    Ok(None)
}

// Is the text short enough to be read?
fn short_enough(text: &[u8]) -> Result<(), Refusal>
    ensures { MatchResult result (λ _. length text.now ≤ text_most) (λ r. (text_most < length text.now) × (r ≡ record { no = too_long; place = 0 })) }
{
    if TEXT_MOST < text.len() {
        return Err(Refusal {
            no: TOO_LONG,
            place: 0,
        });
    }
    Ok(())
}

// The next token from a place on, as if reading began there.
pub fn next_token(text: &[u8], at: usize) -> Step
    ensures { next_of result ≡ next_token text.now at }
{
    short_enough(text)?;
    first_from(text, at)
}

// What is wrong with the whole text as bytes: too long, a byte that is not allowed, a comment that is not closed. Only a `/` is looked behind.
pub fn fault_in(text: &[u8]) -> Result<(), Refusal>
    ensures { fault_told result ≡ fault_of text.now }
{
    short_enough(text)?;
    let mut i = 0;
    while i < text.len() {
        let b = text[i];
        if !is_allowed(b) {
            return Err(bad_byte(i));
        }
        if b == 47 {
            let Some(token) = past_comments(text, i)? else {
                return Ok(());
            };
            i = token.at + token.length;
        } else {
            i += 1;
        }
    }
    Ok(())
}
