// The texts of files.
ghost use Rattle.std.specs.Prelude.{◌≤◌, IfSome, length};
ghost use Rattle.streams.specs.Counts.{IsPrefixLen};

use crate::asked;
use std::fs;
use streams::System;

// The text of a file, at the front of a buffer, and its length. A name that is no text names no file here.
pub fn read(rt: &impl System, path: &[u8], text: &mut [u8]) -> Option<usize>
    ensures { IfSome result (λ n. IsPrefixLen n text.new) }
{
    let path = str::from_utf8(path).ok()?;
    let mut file = fs::open(rt, path).ok()?;
    streams::read(&mut file, text)
}

// The text of the file that word i names.
pub fn text(rt: &impl System, i: usize, text: &mut [u8]) -> Option<usize>
    ensures { IfSome result (λ n. IsPrefixLen n text.new) }
{
    let mut word = asked::word();
    let n = asked::put_word(rt, i, &mut word);
    let length = read(rt, &word[..n], text);
    if length.is_none() {
        asked::fault(rt, b"cannot be read", &word[..n]);
    }
    length
}

// A command of one word, a FILE: its text, read into the buffer lent, for `answer`.
pub fn only<F: FnOnce(&mut [u8])>(rt: &impl System, buffer: &mut [u8], answer: F)
    requires { (t : _) → length t.now ≤ length buffer.old → F.pre answer t }
{
    if asked::given(rt) < 3 {
        return asked::missing(rt, b"FILE");
    }
    if !asked::no_more(rt, 3) {
        return;
    }
    if let Some(n) = text(rt, 2, buffer) {
        answer(&mut buffer[..n]);
    }
}
