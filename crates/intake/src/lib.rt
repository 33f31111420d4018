// A raw text in chunks of any length, squeezed into a lent store: each longest run of blanks and comments becomes one LF if it holds an LF, else one space.
#![tactic(auto)]

ghost use Rattle.std.specs.Prelude.{◌≡◌, ◌≢◌, true, false, ℕ, ◌<◌, min, length, MatchResult};
ghost use Rattle.tokens.specs.Refusals.{text_most};
ghost use Rattle.intake.specs.Intake.{raw_most, room_of, mark_with, outside as outside_of, behind_slash, in_line, in_block, behind_star, step as step_of, lacks as lacks_of, refusal_of, takes, written, chunked, closed as closed_of, ended, begun};
ghost use Rattle.intake.specs.Answers.{only_if, adds_of, step_by, holds_of, last_of, moved_by, answered, added, passes, Puts};

use tokens::{BAD_BYTE, OPEN_COMMENT, Refusal, TOO_LONG, is_allowed, is_blank};

// The most bytes of a raw text, and of a store.
pub const RAW: usize = 1_048_576;

const STORE: usize = tokens::TEXT_MOST;

// The refusal of a store that is too short or too long.
const NO_STORE: u8 = 20;

// Where the intake stands: outside comments, behind a `/` that might open one, in `//`, in `/*`, and there behind a `*` that might close it. No enum: a caller in C
// may hand in a state with any other byte, which an empty chunk hands back (`lutemeteor_intake`).
const PLAIN: u8 = 0;

const SLASH: u8 = 1;

const LINE: u8 = 2;

const BLOCK: u8 = 3;

const STAR: u8 = 4;

// How many bytes were taken and stored, the mark of the run that waits (0: none), where the intake stands, and the place of the `/` before it.
#[derive(Clone, Copy)]
pub struct Intake {
    pub taken: usize,
    pub stored: usize,
    pub run: u8,
    pub mode: u8,
    pub opening: usize,
}

// An intake that is not refused; after the close it has the stored length.
#[derive(Clone, Copy)]
pub enum Stage {
    Open(Intake),
    Closed(usize),
}

// What the last call answered. A refusal, with its place in the raw text, stays, and so does the stored length after the close.
pub type Progress = Result<Stage, Refusal>;

// What a byte changes: whether the mark that waits, the `/` that waits and the byte itself are stored; then the mark behind it, and where the intake stands.
#[derive(Clone, Copy)]
struct Change {
    mark: bool,
    slash: bool,
    kept: bool,
    run: u8,
    mode: u8,
    opening: usize,
}

// ---- one byte

// A run's mark with one more byte of it.
fn mark_with(run: u8, b: u8) -> u8
    ensures { result ≡ mark_with run b }
{
    if (b == 10) | (run == 10) { 10 } else { 32 }
}

// Nothing is stored: a mark, or none, waits, and the intake stands in a mode.
fn holds(run: u8, mode: u8, opening: usize) -> Change
    ensures { result ≡ holds_of run mode opening }
{
    Change {
        mark: false,
        slash: false,
        kept: false,
        run,
        mode,
        opening,
    }
}

// A byte of a run.
fn waits(run: u8, b: u8, mode: u8, opening: usize) -> Change
    ensures { result ≡ holds_of (mark_with run b) mode opening }
{
    holds(mark_with(run, b), mode, opening)
}

// Outside comments.
fn outside(it: Intake, b: u8) -> Change
    ensures { step_by it b result ≡ outside_of it b }
{
    if b == b'/' {
        return holds(it.run, SLASH, it.taken);
    }
    if is_blank(b) {
        return waits(it.run, b, PLAIN, 0);
    }
    Change {
        mark: true,
        slash: false,
        kept: true,
        run: 0,
        mode: PLAIN,
        opening: 0,
    }
}

// Behind a `/`: it opens a comment, or is stored.
fn behind_slash(it: Intake, b: u8) -> Change
    ensures { step_by it b result ≡ behind_slash it b }
{
    if b == b'/' {
        return waits(it.run, b, LINE, 0);
    }
    if b == b'*' {
        return waits(it.run, b, BLOCK, it.opening);
    }
    if is_blank(b) {
        return Change {
            mark: true,
            slash: true,
            kept: false,
            run: mark_with(0, b),
            mode: PLAIN,
            opening: 0,
        };
    }
    Change {
        mark: true,
        slash: true,
        kept: true,
        run: 0,
        mode: PLAIN,
        opening: 0,
    }
}

// In a comment.
fn in_line(it: Intake, b: u8) -> Change
    ensures { step_by it b result ≡ in_line it b }
{
    if b == 10 {
        return waits(it.run, b, PLAIN, 0);
    }
    waits(it.run, b, LINE, 0)
}

fn in_block(it: Intake, b: u8) -> Change
    ensures { step_by it b result ≡ in_block it b }
{
    if b == b'*' {
        return waits(it.run, b, STAR, it.opening);
    }
    waits(it.run, b, BLOCK, it.opening)
}

fn behind_star(it: Intake, b: u8) -> Change
    ensures { step_by it b result ≡ behind_star it b }
{
    if b == b'/' {
        return waits(it.run, b, PLAIN, 0);
    }
    in_block(it, b)
}

// What a byte changes, where the intake stands.
fn changes(it: Intake, b: u8) -> Change
    ensures { step_by it b result ≡ step_of it b }
{
    if it.mode == SLASH {
        return behind_slash(it, b);
    }
    if it.mode == LINE {
        return in_line(it, b);
    }
    if it.mode == BLOCK {
        return in_block(it, b);
    }
    if it.mode == STAR {
        return behind_star(it, b);
    }
    outside(it, b)
}

// How many bytes go to the store.
fn count(run: u8, c: Change) -> usize
    ensures { (b : ℕ) → result ≡ length (adds_of run b c) }
{
    let mark = c.mark & (run != 0);
    (mark as usize) + (c.slash as usize) + (c.kept as usize)
}

// Does a store lack room for n bytes more? Never for none.
fn lacks(room: usize, stored: usize, n: usize) -> bool
    ensures { result ≡ lacks_of room stored n }
{
    if n == 0 {
        return false;
    }
    if room < stored {
        return true;
    }
    room - stored < n
}

// Is a byte that adds n bytes refused?
fn refusal(room: usize, it: Intake, b: u8, n: usize) -> Result<(), Refusal>
    ensures { MatchResult result (λ _. refusal_of room it b n ≡ 0) (λ r. (r ≡ record { no = refusal_of room it b n; place = it.taken }) × (r.no ≢ 0)) }
{
    let good = is_allowed(b);
    let full = lacks(room, it.stored, n);
    let place = it.taken;
    if RAW <= place {
        return Err(Refusal {
            no: TOO_LONG,
            place,
        });
    }
    if !good {
        return Err(Refusal {
            no: BAD_BYTE,
            place,
        });
    }
    if full {
        return Err(Refusal {
            no: NO_STORE,
            place,
        });
    }
    Ok(())
}

// Behind a byte, with so many bytes stored.
fn moved(it: Intake, c: Change, stored: usize) -> Intake
    requires { it.taken < raw_most }
    ensures { result ≡ moved_by it c stored }
{
    Intake {
        taken: it.taken + 1,
        stored,
        run: c.run,
        mode: c.mode,
        opening: c.opening,
    }
}

// ---- the store

// How many of its bytes are filled at most.
fn room(len: usize) -> usize
    ensures { result ≡ min text_most len }
{
    len.min(STORE)
}

// A byte, if it is to be stored; the place behind it.
fn put_if(store: &mut [u8], at: usize, due: bool, b: u8) -> usize
    requires { due ≡ true → at < length store.old }
    ensures { Puts store.old at (only_if due b) result store.new }
{
    if due {
        store[at] = b;
        return at + 1;
    }
    at
}

// What a change sends to the store; the place behind it.
fn put(store: &mut [u8], at: usize, run: u8, b: u8, c: Change) -> usize
    requires { lacks_of (length store.old) at (length (adds_of run b c)) ≡ false }
    ensures { Puts store.old at (adds_of run b c) result store.new }
{
    let mark = c.mark & (run != 0);
    let behind_mark = put_if(store, at, mark, run);
    let behind_slash = put_if(store, behind_mark, c.slash, b'/');
    put_if(store, behind_slash, c.kept, b)
}

// ---- a chunk

// Where it leads, without writing: a refused chunk writes nothing.
fn look(room: usize, it: Intake, chunk: &[u8]) -> Result<Intake, Refusal>
    ensures { result ≡ answered (takes room it chunk.now) }
{
    let mut here = it;
    for &b in chunk {
        let c = changes(here, b);
        let n = count(here.run, c);
        refusal(room, here, b, n)?;
        here = moved(here, c, here.stored + n);
    }
    Ok(here)
}

// The bytes of a chunk that is not refused.
fn fill(it: Intake, chunk: &[u8], store: &mut [u8])
    requires { passes (takes (room_of store.old) it chunk.now) ≡ true }
    ensures { store.new ≡ written store.old it.stored (added (takes (room_of store.old) it chunk.now)) }
{
    let mut here = it;
    for &b in chunk {
        let c = changes(here, b);
        let end = put(store, here.stored, here.run, b, c);
        here = moved(here, c, end);
    }
}

// What waits goes to the store.
fn last(slash: bool) -> Change
    ensures { result ≡ last_of slash }
{
    Change {
        mark: true,
        slash,
        kept: false,
        run: 0,
        mode: PLAIN,
        opening: 0,
    }
}

// The close, where the intake is open.
fn close_open(it: Intake, store: &mut [u8]) -> Result<usize, Refusal>
    ensures value { ended result ≡ (closed_of (Ok (Stage.Open it)) store.old).0 }
    ensures store_after { store.new ≡ (closed_of (Ok (Stage.Open it)) store.old).1 }
{
    if (it.mode == BLOCK) | (it.mode == STAR) {
        return Err(Refusal {
            no: OPEN_COMMENT,
            place: it.opening,
        });
    }
    let c = last(it.mode == SLASH);
    let n = count(it.run, c);
    if lacks(room(store.len()), it.stored, n) {
        return Err(Refusal {
            no: NO_STORE,
            place: it.taken,
        });
    }
    let end = put(store, it.stored, it.run, 0, c);
    Ok(end)
}

// ---- the calls

// Where every intake begins.
pub fn begin() -> Progress
    ensures { result ≡ begun }
{
    Ok(Stage::Open(Intake {
        taken: 0,
        stored: 0,
        run: 0,
        mode: PLAIN,
        opening: 0,
    }))
}

// The next chunk of the raw text.
pub fn take(p: Progress, chunk: &[u8], store: &mut [u8]) -> Progress
    ensures value { result ≡ (chunked p chunk.now store.old).0 }
    ensures store_after { store.new ≡ (chunked p chunk.now store.old).1 }
{
    let Stage::Open(it) = p? else {
        return p;
    };
    let behind = look(room(store.len()), it, chunk)?;
    fill(it, chunk, store);
    Ok(Stage::Open(behind))
}

// The end of the raw text.
pub fn close(p: Progress, store: &mut [u8]) -> Result<usize, Refusal>
    ensures value { ended result ≡ (closed_of p store.old).0 }
    ensures store_after { store.new ≡ (closed_of p store.old).1 }
{
    match p? {
        Stage::Open(it) => close_open(it, store),
        Stage::Closed(n) => Ok(n),
    }
}
