// The functions of `stil` under their names for callers in C, with the same clauses: include/stil.h says what they answer.
#![tactic(auto)]

ghost use Rattle.std.specs.Prelude.{◌≡◌, not, eqb};
ghost use Rattle.tokens.specs.Tokens.{next_token};
ghost use Rattle.columns.specs.Columns.{position};
ghost use Rattle.intake.specs.Intake.{chunked, closed as closed_of};
ghost use Rattle.meaning.specs.Meaning.{given};
ghost use Rattle.meaning.specs.Services.{check as check_of, name_of, window as window_of, waveform as waveform_of};
ghost use Rattle.meaning.specs.Charts.{waveforms as waveforms_of};
ghost use Rattle.index.specs.Index.{index as index_of, belongs as belongs_to, holds as holds_in};
ghost use Rattle.folded.specs.Fold.{fold as fold_of};
ghost use Rattle.fails.specs.Fails.{fails as fails_of};
ghost use Rattle.fails.specs.Service.{rows_of};
ghost use Rattle.saving.specs.Saving.{save as save_of};
ghost use Rattle.verdicts.specs.Judged.{which_of};
ghost use Rattle.stil.specs.Interface.{Hands, packed, five_of, two_of, three_of, token_of, position_of, Opens, Draws};
ghost use Rattle.stil.specs.Charts.{Sketches};
ghost use Rattle.stil.specs.Intakes.{Carries};
ghost use Rattle.stil.specs.Indexes.{Writes, holder_two};
ghost use Rattle.stil.specs.Saves.{Restores};
ghost use Rattle.stil.specs.Folds.{Flattens};
ghost use Rattle.stil.specs.Reports.{Replies};

// Check: signals, tables, listed patterns, cycles and the size of the run. A buffer of less than five numbers is 19.
#[unsafe(no_mangle)]
pub extern "C" fn lutemeteor_check(text: &[u8], numbers: &mut [u64]) -> u64
    ensures { Hands 5 five_of (check_of text.now) numbers.old result numbers.new }
{
    stil::lutemeteor_check(text, numbers)
}

// Name: place and length of a table's name, or where `table` is 0 of a signal's. A buffer of less than two numbers is 19.
#[unsafe(no_mangle)]
pub extern "C" fn lutemeteor_name(text: &[u8], table: u8, number: usize, numbers: &mut [u64]) -> u64
    ensures { Hands 2 two_of (name_of text.now (which_of (not (eqb table 0))) number) numbers.old result numbers.new }
{
    stil::lutemeteor_name(text, table, number, numbers)
}

// Window: the rows, with a mark for unassigned pins, and how many there are, and the visits. A buffer without room for its part is 19.
#[unsafe(no_mangle)]
pub extern "C" fn lutemeteor_window(
    text: &[u8],
    first: usize,
    wanted: usize,
    mark: u8,
    buffer: &mut [u8],
    numbers: &mut [u64],
) -> u64
    ensures { Opens (window_of text.now first wanted mark buffer.old) buffer.old buffer.new numbers.old result numbers.new }
{
    stil::lutemeteor_window(text, first, wanted, mark, buffer, numbers)
}

// Waveform: times in ps, each the 64 bits of a signed number, and letters, and how many events there are. A buffer without room for its part is 19.
#[unsafe(no_mangle)]
pub extern "C" fn lutemeteor_waveform(
    text: &[u8],
    table: usize,
    signal: usize,
    char: u8,
    times: &mut [u64],
    letters: &mut [u8],
    count: &mut [u64],
) -> u64
    ensures { Draws (waveform_of text.now table signal char times.old letters.old) times.old times.new letters.old letters.new count.old result count.new }
{
    stil::lutemeteor_waveform(text, table, signal, char, times, letters, count)
}

// Waveforms by the list: what `waveforms` writes; and how many events there are, or where one was refused how many were served before it. A buffer without
// room for that number is 19.
#[unsafe(no_mangle)]
pub extern "C" fn lutemeteor_waveforms(
    text: &[u8],
    asked: &[u64],
    times: &mut [u64],
    letters: &mut [u8],
    counts: &mut [u64],
    numbers: &mut [u64],
) -> u64
    ensures { Sketches (waveforms_of text.now asked.now times.old letters.old counts.old) times.old times.new letters.old letters.new counts.old counts.new numbers.old result numbers.new }
{
    stil::lutemeteor_waveforms(text, asked, times, letters, counts, numbers)
}

// Index: its bytes, and its length. A buffer without room for its part is 19.
#[unsafe(no_mangle)]
pub extern "C" fn lutemeteor_index(text: &[u8], buffer: &mut [u8], numbers: &mut [u64]) -> u64
    ensures { Writes (index_of text.now buffer.old) buffer.old buffer.new numbers.old result numbers.new }
{
    stil::lutemeteor_index(text, buffer, numbers)
}

// Does an index belong to a text? 0, or the refusal.
#[unsafe(no_mangle)]
pub extern "C" fn lutemeteor_belongs(text: &[u8], bytes: &[u8]) -> u64
    ensures { result ≡ packed (belongs_to text.now bytes.now) }
{
    stil::lutemeteor_belongs(text, bytes)
}

// The listed pattern that holds a cycle: 1 and its number in the list, or twice 0 past the end. A buffer of less than two numbers is 19.
#[unsafe(no_mangle)]
pub extern "C" fn lutemeteor_holds(
    text: &[u8],
    bytes: &[u8],
    cycle: usize,
    numbers: &mut [u64],
) -> u64
    ensures { Hands 2 holder_two (holds_in text.now bytes.now cycle) numbers.old result numbers.new }
{
    stil::lutemeteor_holds(text, bytes, cycle, numbers)
}

// A hurt text saved where it stands: its overwritten spans, two numbers for each, and how many there are. A buffer without room for its part is 19.
#[unsafe(no_mangle)]
pub extern "C" fn lutemeteor_save(text: &mut [u8], spans: &mut [u64], numbers: &mut [u64]) -> u64
    ensures { Restores (save_of text.old spans.old) text.old text.new spans.old spans.new numbers.old result numbers.new }
{
    stil::lutemeteor_save(text, spans, numbers)
}

// A text folded flat: its bytes, and its length. A buffer without room for its part is 19.
#[unsafe(no_mangle)]
pub extern "C" fn lutemeteor_fold(text: &[u8], folded: &mut [u8], numbers: &mut [u64]) -> u64
    ensures { Flattens (fold_of text.now folded.old) folded.old folded.new numbers.old result numbers.new }
{
    stil::lutemeteor_fold(text, folded, numbers)
}

// A fail report: for each offset the run's cycle, the signal's number and the letter, 0 for none; and how many there are. A buffer without room for its part is
// 19.
#[unsafe(no_mangle)]
pub extern "C" fn lutemeteor_report<'a>(
    text: &'a [u8],
    report: &'a [u8],
    cycles: &mut [u64],
    signals: &mut [u64],
    letters: &mut [u8],
    numbers: &mut [u64],
) -> u64
    ensures { Replies (fails_of text.now report.now (rows_of cycles.old signals.old letters.old)) cycles.old cycles.new signals.old signals.new letters.old letters.new numbers.old result numbers.new }
{
    stil::lutemeteor_report(text, report, cycles, signals, letters, numbers)
}

// The next token from a place on, by the token rules alone: 1, its place and its length, or three times 0 where there is none. A buffer of less than three
// numbers is 19.
#[unsafe(no_mangle)]
pub extern "C" fn lutemeteor_token(text: &[u8], at: usize, numbers: &mut [u64]) -> u64
    ensures { Hands 3 three_of (token_of (next_token text.now at)) numbers.old result numbers.new }
{
    stil::lutemeteor_token(text, at, numbers)
}

// The line and the column of a place, also of one past the text's end. A buffer of less than two numbers is 19, and nothing else is refused.
#[unsafe(no_mangle)]
pub extern "C" fn lutemeteor_line(text: &[u8], place: usize, numbers: &mut [u64]) -> u64
    ensures { Hands 2 position_of (given (position text.now place)) numbers.old result numbers.new }
{
    stil::lutemeteor_line(text, place, numbers)
}

// The next chunk of a raw text. A state of less than six numbers is 19.
#[unsafe(no_mangle)]
pub extern "C" fn lutemeteor_intake(state: &mut [u64], chunk: &[u8], store: &mut [u8]) -> u64
    ensures { Carries (λ p s. chunked p chunk.now s) state.old store.old result state.new store.new }
{
    stil::lutemeteor_intake(state, chunk, store)
}

// The end of a raw text. A state of less than six numbers is 19.
#[unsafe(no_mangle)]
pub extern "C" fn lutemeteor_intake_close(state: &mut [u64], store: &mut [u8]) -> u64
    ensures { Carries closed_of state.old store.old result state.new store.new }
{
    stil::lutemeteor_intake_close(state, store)
}
