// The services, folding (`flats`), fail reports (`fails`), the next token, the line of a place and the intake for callers in C or Rust (`stil_c` exports them): the answer is 0, with what it holds at the front of buffers,
// or a refusal, and all buffers are as they were; but a list of waveforms leaves those that were served before it, and the intake its state.
#![tactic(auto)]

ghost use Rattle.std.specs.Prelude.{◌≡◌, ◌∷◌, [], not, ◌≤◌, length, eqb};
ghost use Rattle.tokens.specs.Tokens.{next_token};
ghost use Rattle.columns.specs.Columns.{position};
ghost use Rattle.intake.specs.Intake.{chunked, closed as closed_of, ended};
ghost use Rattle.meaning.specs.Meaning.{given};
ghost use Rattle.meaning.specs.Services.{check as check_of, name_of, window as window_of, waveform as waveform_of};
ghost use Rattle.meaning.specs.Charts.{waveforms as waveforms_of};
ghost use Rattle.texts.specs.Told.{packed_refusal};
ghost use Rattle.index.specs.Index.{index as index_of, belongs as belongs_to, holds as holds_in};
ghost use Rattle.folded.specs.Fold.{fold as fold_of};
ghost use Rattle.fails.specs.Fails.{fails as fails_of};
ghost use Rattle.fails.specs.Service.{rows_of};
ghost use Rattle.saving.specs.Saving.{save as save_of};
ghost use Rattle.verdicts.specs.Judged.{which_of};
ghost use Rattle.stil.specs.Interface.{Hands, packed, fronted, five_of, two_of, three_of, token_of, position_of, Opens, Draws};
ghost use Rattle.stil.specs.Charts.{Sketches};
ghost use Rattle.stil.specs.Intakes.{state_least, byte_of, progress_is, Tells, Carries, raw_refusal};
ghost use Rattle.stil.specs.Indexes.{Writes, holder_two};
ghost use Rattle.stil.specs.Saves.{Restores};
ghost use Rattle.stil.specs.Folds.{Flattens};
ghost use Rattle.stil.specs.Reports.{report_refusal, Replies};

use fails::Unanswered;
use intake::{Intake, Progress, Stage};
use services::Undrawn;
use tokens::{Refusal, TEXT_MOST};
use words::NO_ROOM;

// A refusal as one number: 32 times its place and its number.
fn pack(refusal: Refusal) -> u64
    ensures { result ≡ packed_refusal refusal.no refusal.place }
{
    if refusal.place <= TEXT_MOST {
        return refusal.place as u64 * 32 + refusal.no as u64;
    }
    refusal.no as u64
}

// A buffer has no room for its part.
const FULL: Refusal = Refusal {
    no: NO_ROOM,
    place: 0,
};

// Check: signals, tables, listed patterns, cycles and the size of the run. A buffer of less than five numbers is 19.
pub fn lutemeteor_check(text: &[u8], numbers: &mut [u64]) -> u64
    ensures { Hands 5 five_of (check_of text.now) numbers.old result numbers.new }
{
    match services::check(text) {
        Err(refusal) => pack(refusal),
        Ok(counts) => {
            if numbers.len() < 5 {
                return pack(FULL);
            }
            numbers[0] = counts.signals as u64;
            numbers[1] = counts.tables as u64;
            numbers[2] = counts.listed as u64;
            numbers[3] = counts.cycles as u64;
            numbers[4] = counts.size as u64;
            0
        }
    }
}

// Name: place and length of a table's name, or where `table` is 0 of a signal's. A buffer of less than two numbers is 19.
pub fn lutemeteor_name(text: &[u8], table: u8, number: usize, numbers: &mut [u64]) -> u64
    ensures { Hands 2 two_of (name_of text.now (which_of (not (eqb table 0))) number) numbers.old result numbers.new }
{
    match services::name(text, table != 0, number) {
        Err(refusal) => pack(refusal),
        Ok(name) => hand_two(name.at, name.length, numbers),
    }
}

// Window: the rows, with a mark for unassigned pins, and how many there are, and the visits. A buffer without room for its part is 19.
pub fn lutemeteor_window(
    text: &[u8],
    first: usize,
    wanted: usize,
    mark: u8,
    buffer: &mut [u8],
    numbers: &mut [u64],
) -> u64
    ensures { Opens (window_of text.now first wanted mark buffer.old) buffer.old buffer.new numbers.old result numbers.new }
{
    match views::viewed(text, first, wanted, mark, 2 <= numbers.len(), buffer) {
        Err(refusal) => pack(refusal),
        Ok(rows) => {
            numbers[0] = rows.count as u64;
            numbers[1] = rows.visits as u64;
            0
        }
    }
}

// Waveform: times in ps, each the 64 bits of a signed number, and letters, and how many events there are. A buffer without room for its part is 19.
pub fn lutemeteor_waveform(
    text: &[u8],
    table: usize,
    signal: usize,
    char: u8,
    times: &mut [u64],
    letters: &mut [u8],
    count: &mut [u64],
) -> u64
    ensures { Draws (waveform_of text.now table signal char times.old letters.old) times.old times.new letters.old letters.new count.old result count.new }
{
    let mut ts = [0u64; waves::EVENTS];
    let mut ls = [0u8; waves::EVENTS];
    match services::events(text, table, signal, char, &mut ts, &mut ls) {
        Err(refusal) => pack(refusal),
        Ok(due) => {
            if count.len() < 1 {
                return pack(FULL);
            }
            if (times.len() < due) | (letters.len() < due) {
                return pack(FULL);
            }
            charts::put(&ts, &ls, due, times, letters);
            count[0] = due as u64;
            0
        }
    }
}

// Waveforms by the list: what `waveforms` writes; and how many events there are, or where one was refused how many were served before it. A buffer without
// room for that number is 19.
pub fn lutemeteor_waveforms(
    text: &[u8],
    asked: &[u64],
    times: &mut [u64],
    letters: &mut [u8],
    counts: &mut [u64],
    numbers: &mut [u64],
) -> u64
    ensures { Sketches (waveforms_of text.now asked.now times.old letters.old counts.old) times.old times.new letters.old letters.new counts.old counts.new numbers.old result numbers.new }
{
    match services::plotted(text, asked, 1 <= numbers.len(), times, letters, counts) {
        Err(Undrawn::Refused(refusal)) => pack(refusal),
        Err(Undrawn::Stopped(refusal, served)) => {
            numbers[0] = served as u64;
            pack(refusal)
        }
        Ok(events) => {
            numbers[0] = events as u64;
            0
        }
    }
}

// Two numbers, where there is room for them.
fn hand_two(first: usize, second: usize, numbers: &mut [u64]) -> u64
    ensures { Hands 2 two_of (given (first, second)) numbers.old result numbers.new }
{
    if numbers.len() < 2 {
        return pack(FULL);
    }
    numbers[0] = first as u64;
    numbers[1] = second as u64;
    0
}

// Index: its bytes, and its length. A buffer without room for its part is 19.
pub fn lutemeteor_index(text: &[u8], buffer: &mut [u8], numbers: &mut [u64]) -> u64
    ensures { Writes (index_of text.now buffer.old) buffer.old buffer.new numbers.old result numbers.new }
{
    match services::write_index(text, 1 <= numbers.len(), buffer) {
        Err(refusal) => pack(refusal),
        Ok(length) => {
            numbers[0] = length as u64;
            0
        }
    }
}

// Does an index belong to a text? 0, or the refusal.
pub fn lutemeteor_belongs(text: &[u8], bytes: &[u8]) -> u64
    ensures { result ≡ packed (belongs_to text.now bytes.now) }
{
    match services::belongs(text, bytes) {
        Err(refusal) => pack(refusal),
        Ok(()) => 0,
    }
}

// The listed pattern that holds a cycle: 1 and its number in the list, or twice 0 past the end. A buffer of less than two numbers is 19.
pub fn lutemeteor_holds(text: &[u8], bytes: &[u8], cycle: usize, numbers: &mut [u64]) -> u64
    ensures { Hands 2 holder_two (holds_in text.now bytes.now cycle) numbers.old result numbers.new }
{
    match services::holds(text, bytes, cycle) {
        Err(refusal) => pack(refusal),
        Ok(None) => hand_two(0, 0, numbers),
        Ok(Some(k)) => hand_two(1, k, numbers),
    }
}

// A hurt text saved where it stands: its overwritten spans, two numbers for each, and how many there are. A buffer without room for its part is 19.
pub fn lutemeteor_save(text: &mut [u8], spans: &mut [u64], numbers: &mut [u64]) -> u64
    ensures { Restores (save_of text.old spans.old) text.old text.new spans.old spans.new numbers.old result numbers.new }
{
    match services::save_text(text, 1 <= numbers.len(), spans) {
        Err(refusal) => pack(refusal),
        Ok(count) => {
            numbers[0] = count as u64;
            0
        }
    }
}

// A text folded flat: its bytes, and its length. A buffer without room for its part is 19.
pub fn lutemeteor_fold(text: &[u8], folded: &mut [u8], numbers: &mut [u64]) -> u64
    ensures { Flattens (fold_of text.now folded.old) folded.old folded.new numbers.old result numbers.new }
{
    match flats::fold_text(text, 1 <= numbers.len(), folded) {
        Err(refusal) => pack(refusal),
        Ok(length) => {
            numbers[0] = length as u64;
            0
        }
    }
}

// What is added to a refusal of the report: 2 to the power of 32.
const OF_REPORT: u64 = 4_294_967_296;

// A refusal of a fail report as one number.
fn pack_report(refusal: Refusal) -> u64
    ensures { result ≡ report_refusal refusal.no refusal.place }
{
    OF_REPORT + pack(refusal)
}

// A fail report: for each offset the run's cycle, the signal's number and the letter, 0 for none; and how many there are. A buffer without room for its part is
// 19.
pub fn lutemeteor_report<'a>(
    text: &'a [u8],
    report: &'a [u8],
    cycles: &mut [u64],
    signals: &mut [u64],
    letters: &mut [u8],
    numbers: &mut [u64],
) -> u64
    ensures { Replies (fails_of text.now report.now (rows_of cycles.old signals.old letters.old)) cycles.old cycles.new signals.old signals.new letters.old letters.new numbers.old result numbers.new }
{
    match fails::answer_report(text, report, 1 <= numbers.len(), cycles, signals, letters) {
        Err(Unanswered::Text(refusal)) => pack(refusal),
        Err(Unanswered::Report(refusal)) => pack_report(refusal),
        Ok(n) => {
            numbers[0] = n as u64;
            0
        }
    }
}

// Three numbers, where there is room for them.
fn hand_three(first: usize, second: usize, third: usize, numbers: &mut [u64]) -> u64
    ensures { Hands 3 three_of (given (first, second, third)) numbers.old result numbers.new }
{
    if numbers.len() < 3 {
        return pack(FULL);
    }
    numbers[0] = first as u64;
    numbers[1] = second as u64;
    numbers[2] = third as u64;
    0
}

// The next token from a place on, by the token rules alone: 1, its place and its length, or three times 0 where there is none. A buffer of less than three
// numbers is 19.
pub fn lutemeteor_token(text: &[u8], at: usize, numbers: &mut [u64]) -> u64
    ensures { Hands 3 three_of (token_of (next_token text.now at)) numbers.old result numbers.new }
{
    match tokens::next_token(text, at) {
        Err(refusal) => pack(refusal),
        Ok(None) => hand_three(0, 0, 0, numbers),
        Ok(Some(token)) => hand_three(1, token.at, token.length, numbers),
    }
}

// The line and the column of a place, also of one past the text's end. A buffer of less than two numbers is 19, and nothing else is refused.
pub fn lutemeteor_line(text: &[u8], place: usize, numbers: &mut [u64]) -> u64
    ensures { Hands 2 position_of (given (position text.now place)) numbers.old result numbers.new }
{
    let p = columns::position_of(text, place);
    if numbers.len() < 2 {
        return pack(FULL);
    }
    numbers[0] = p.line as u64;
    numbers[1] = p.column as u64;
    0
}

// ---- the intake for callers in C: what it answered last is a state of lent numbers, six times 0 at first

// The numbers that tell it; what stands behind them stays.
const STATE: usize = 6;

// The first of them; any other counts as refused.
const IS_OPEN: u64 = 0;

const IS_REFUSED: u64 = 1;

const IS_CLOSED: u64 = 2;

// Of a number that fits no byte, what 256 leaves.
fn byte_of(n: u64) -> u8
    ensures { result ≡ byte_of n }
{
    (n % 256) as u8
}

// What six numbers tell.
fn progress_of(kind: u64, a: u64, b: u64, c: u64, d: u64, e: u64) -> Progress
    ensures { result ≡ progress_is kind a b c d e }
{
    if kind == IS_OPEN {
        let run = byte_of(c);
        let mode = byte_of(d);
        return Ok(Stage::Open(Intake {
            taken: a as usize,
            stored: b as usize,
            run,
            mode,
            opening: e as usize,
        }));
    }
    if kind == IS_CLOSED {
        return Ok(Stage::Closed(a as usize));
    }
    let number = byte_of(a);
    Err(Refusal {
        no: number,
        place: b as usize,
    })
}

// Six numbers to the front of a state.
fn put_six(state: &mut [u64], a: u64, b: u64, c: u64, d: u64, e: u64, f: u64)
    requires { state_least ≤ length state.old }
    ensures { state.new ≡ fronted (a ∷ b ∷ c ∷ d ∷ e ∷ f ∷ []) state.old }
{
    state[0] = a;
    state[1] = b;
    state[2] = c;
    state[3] = d;
    state[4] = e;
    state[5] = f;
}

// A refusal of the intake as one number: 32 times its place in the raw text and its number.
fn pack_raw(no: u8, place: usize) -> u64
    ensures { result ≡ raw_refusal no place }
{
    if place <= intake::RAW {
        return place as u64 * 32 + no as u64;
    }
    no as u64
}

// An answer of the intake, as one number and as a state.
fn put_progress(p: Progress, state: &mut [u64]) -> u64
    requires { state_least ≤ length state.old }
    ensures { Tells p state.old result state.new }
{
    match p {
        Ok(Stage::Open(it)) => {
            let run = it.run as u64;
            let mode = it.mode as u64;
            put_six(
                state,
                IS_OPEN,
                it.taken as u64,
                it.stored as u64,
                run,
                mode,
                it.opening as u64,
            );
            0
        }
        Err(refusal) => {
            let number = refusal.no as u64;
            let place = refusal.place as u64;
            put_six(state, IS_REFUSED, number, place, 0, 0, 0);
            pack_raw(refusal.no, refusal.place)
        }
        Ok(Stage::Closed(n)) => {
            put_six(state, IS_CLOSED, n as u64, 0, 0, 0, 0);
            0
        }
    }
}

// What the close answered, as it stays.
fn at_close(answer: Result<usize, Refusal>) -> Progress
    ensures { result ≡ ended answer }
{
    Ok(Stage::Closed(answer?))
}

// The next chunk of a raw text. A state of less than six numbers is 19.
pub fn lutemeteor_intake(state: &mut [u64], chunk: &[u8], store: &mut [u8]) -> u64
    ensures { Carries (λ p s. chunked p chunk.now s) state.old store.old result state.new store.new }
{
    if state.len() < STATE {
        return pack(FULL);
    }
    let p = progress_of(state[0], state[1], state[2], state[3], state[4], state[5]);
    let answer = intake::take(p, chunk, store);
    put_progress(answer, state)
}

// The end of a raw text. A state of less than six numbers is 19.
pub fn lutemeteor_intake_close(state: &mut [u64], store: &mut [u8]) -> u64
    ensures { Carries closed_of state.old store.old result state.new store.new }
{
    if state.len() < STATE {
        return pack(FULL);
    }
    let p = progress_of(state[0], state[1], state[2], state[3], state[4], state[5]);
    let answer = at_close(intake::close(p, store));
    put_progress(answer, state)
}
