// The words of the command line, and the one line on standard error for a word that is wrong.
ghost use Rattle.std.specs.Prelude.{◌≡◌, ◌≤◌, length};
ghost use Rattle.streams.specs.Counts.{IsPrefixLen};

use std::env::FillError;
use std::rt::Env;
use streams::System;

// The longest word that Linux hands to a program.
const WORD: usize = 131_072;

// A page has room for any line.
const PAGE: usize = 262_144;

// Room for a word. Both are made here alone: a caller's proof then sees their length, and not so many zeros.
pub fn word() -> [u8; WORD]
    ensures { 131072 ≡ length result }
{
    [0; WORD]
}

pub fn page() -> [u8; PAGE]
    ensures { 262144 ≡ length result }
{
    [0; PAGE]
}

// How many words there are, the program's own name among them.
pub fn given(rt: &impl Env) -> usize {
    let mut none = [0u8; 0];
    for i in 0..usize::MAX {
        if let Err(FillError::NotPresent) = rt.arg(i, &mut none) {
            return i;
        }
    }
    usize::MAX
}

// Word i at the front of a buffer, and its length; 0 where there is none, or where it is longer than the buffer.
pub fn put_word(rt: &impl Env, i: usize, word: &mut [u8]) -> usize
    ensures { IsPrefixLen result word.new }
{
    match rt.arg(i, word) {
        Ok(n) => n,
        Err(_) => 0,
    }
}

// What is wrong, and the word.
pub fn fault(rt: &impl System, what: &[u8], word: &[u8])
    requires { (length what.now ≤ 64) × (length word.now ≤ 131072) }
{
    let mut page = page();
    let end = lines::fault(&mut page, 0, what, word);
    streams::tell(rt, &page, end);
}

pub fn missing(rt: &impl System, word: &[u8])
    requires { length word.now ≤ 64 }
{
    fault(rt, b"missing word", word);
}

// Word i is one too many.
fn too_many(rt: &impl System, i: usize) {
    let mut word = word();
    let n = put_word(rt, i, &mut word);
    fault(rt, b"one word too many", &word[..n]);
}

// Is there no word behind the first `due`, the program's own name among them?
pub fn no_more(rt: &impl System, due: usize) -> bool {
    if due < given(rt) {
        too_many(rt, due);
        return false;
    }
    true
}

// Word i as a number.
pub fn number(rt: &impl System, i: usize) -> Option<usize> {
    let mut word = word();
    let n = put_word(rt, i, &mut word);
    let value = lines::number(&word[..n]);
    if value.is_none() {
        fault(rt, b"not a number", &word[..n]);
    }
    Some(value? as usize)
}

// Word i as one byte.
pub fn byte(rt: &impl System, i: usize) -> Option<u8> {
    let mut word = word();
    let n = put_word(rt, i, &mut word);
    if n == 1 {
        return Some(word[0]);
    }
    fault(rt, b"not one byte", &word[..n]);
    None
}

// Word i as a kind of name: is it `table`, and not `signal`?
pub fn is_table(rt: &impl System, i: usize) -> Option<bool> {
    let mut word = word();
    let n = put_word(rt, i, &mut word);
    match &word[..n] {
        b"table" => Some(true),
        b"signal" => Some(false),
        other => {
            fault(rt, b"neither signal nor table", other);
            None
        }
    }
}
