// A text from a reader, and pages to standard output. No contract can say what is read or written: the work is done by functions on slices, which have theirs.
#![tactic(auto)]

mod why;

ghost use Rattle.std.specs.Prelude.{◌≡◌, IfOk, IfSome, length};
ghost use Rattle.streams.specs.Pages.{room_most, raw_room, rows_most};
ghost use Rattle.streams.specs.Counts.{IsPrefixLen};

use std::io;
use std::io::{IsTerminal, Read};
use std::rt::{Env, Files};

// What a program writes to: standard output; and standard error as bytes, since a word need not be text.
pub trait Screen: Print {
    fn tell_bytes(&self, bytes: &[u8]) -> io::Result<()>;

    // Is somebody looking at standard error? At standard output?
    fn is_error_seen(&self) -> bool;

    fn is_output_seen(&self) -> bool;
}

impl Screen for HostRuntime {
    fn tell_bytes(&self, bytes: &[u8]) -> io::Result<()> {
        self.stderr().write_all(bytes)
    }

    fn is_error_seen(&self) -> bool {
        self.stderr().is_terminal()
    }

    fn is_output_seen(&self) -> bool {
        self.stdout().is_terminal()
    }
}

// What the programs for daily work ask of the system besides: files, and the words of the command line.
pub trait System: Screen + Files + Env {}

impl System for HostRuntime {}

// One byte more than a text may have, so that one that is too long is refused and never cut.
const TEXT: usize = tokens::TEXT_MOST + 1;

// The same of a raw text.
const RAW: usize = 1_048_577;

// A page of rows.
pub const ROWS: usize = 1_048_576;

// Room for a text, for a raw text, and for a page of rows. They are made here alone: a caller's proof then sees the length, and not a million zeros.
pub fn room() -> [u8; TEXT]
    ensures { room_most ≡ length result }
{
    [0; TEXT]
}

pub fn raw() -> [u8; RAW]
    ensures { raw_room ≡ length result }
{
    [0; RAW]
}

pub fn rows() -> [u8; ROWS]
    ensures { rows_most ≡ length result }
{
    [0; ROWS]
}

// So many bytes stand at the buffer's front; or why the reading failed.
pub fn fill(from: &mut impl Read, text: &mut [u8]) -> io::Result<usize>
    ensures { IfOk result (λ n. IsPrefixLen n text.new) }
{
    let mut done = 0;
    while done < text.len() {
        let more = from.read(&mut text[done..])?;
        if more == 0 {
            return Ok(done);
        }
        done += more;
    }
    Ok(done)
}

// So many bytes stand at the buffer's front. A read that fails in the middle is a text that cannot be read, never a shorter one.
pub fn read(from: &mut impl Read, text: &mut [u8]) -> Option<usize>
    ensures { IfSome result (λ n. IsPrefixLen n text.new) }
{
    fill(from, text).ok()
}

// ---- pages to standard output and standard error

// What the promises of the library rule out is told all the same: nothing goes on silently.
pub fn broken(rt: &impl Screen, what: &[u8]) {
    let _ = rt.tell_bytes(what);
}

// What failed, and why, in the system's words.
pub fn fail(rt: &impl Screen, what: &[u8], error: io::Error) {
    let words = why::said_of(error);
    let _ = rt.tell_bytes(what);
    let _ = rt.tell_bytes(b": ");
    let _ = rt.tell_bytes(words.said());
    let _ = rt.tell_bytes(b"\n");
}

// The first bytes of a page. A page that is shorter is never cut silently.
fn front<'a>(rt: &impl Screen, page: &'a [u8], length: usize) -> Option<&'a [u8]> {
    if page.len() < length {
        broken(rt, b"a page is too short for its line\n");
        return None;
    }
    Some(&page[..length])
}

// A page's first bytes to standard output; a write that fails is told on standard error.
pub fn write(rt: &impl Screen, page: &[u8], length: usize) -> bool {
    let Some(front) = front(rt, page, length) else {
        return false;
    };
    match rt.write_all(front) {
        Ok(()) => true,
        Err(error) => {
            fail(rt, b"standard output", error);
            false
        }
    }
}

// A page's first bytes to standard error.
pub fn tell(rt: &impl Screen, page: &[u8], length: usize) {
    if let Some(front) = front(rt, page, length) {
        let _ = rt.tell_bytes(front);
    }
}

// Is somebody looking at standard error who does not see standard output?
pub fn is_watched(rt: &impl Screen) -> bool {
    rt.is_error_seen() & !rt.is_output_seen()
}

// How far it is, to standard error.
pub fn progress(rt: &impl Screen, done: usize, all: usize) {
    let mut line = [0; lines::LINE];
    let end = lines::progress(&mut line, 0, done, all);
    tell(rt, &line, end);
}
