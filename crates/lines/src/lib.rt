// The lines of docs/COMMANDS.md, put into a page, and words as numbers.
#![tactic(auto)]

ghost use Rattle.std.specs.Prelude.{◌≡◌, ◌+◌, ◌≤◌, length};
ghost use Rattle.tokens.specs.Written.{bytes};
ghost use Rattle.lines.specs.Lines.{counted as counted_of, no_pattern, name_line, signed_of, signed_decimal, event_line, token_line, span_line, fail_line, stated_line, good_line, hurt_line, unread_line, sum_line, progress as progress_of, help_lines, fault_line, count_most, signed_most, line_most, help_most};
ghost use Rattle.sections.specs.Listing.{Adds};
ghost use Rattle.lines.specs.Numbers.{number_of, told};

use sections::with_number;

// The least number of 64 bits that stands for a negative one, and the largest.
const NEGATIVE: u64 = 9_223_372_036_854_775_808;

const LAST: u64 = 18_446_744_073_709_551_615;

// Room for a line, besides the words that are handed in.
pub const LINE: usize = 128;

// ---- pieces

// A line that is a word and a number.
fn counted(page: &mut [u8], at: usize, word: &[u8], n: u64) -> usize
    requires { at + (length word.now + count_most) ≤ length page.old }
    ensures { Adds page.old at (counted_of word.now n) (length word.now + count_most) result page.new }
{
    let end = with_number(page, at, word, n);
    pages::put(page, end, b"\n")
}

// A signed number, of which these are the 64 bits.
fn signed(page: &mut [u8], at: usize, bits: u64) -> usize
    requires { at + signed_most ≤ length page.old }
    ensures { Adds page.old at (signed_decimal (signed_of bits)) signed_most result page.new }
{
    if bits < NEGATIVE {
        return with_number(page, at, b"", bits);
    }
    with_number(page, at, b"-", LAST - bits + 1)
}

// ---- answers

// VISITS v
pub fn visits(page: &mut [u8], at: usize, v: usize) -> usize
    requires { at + line_most ≤ length page.old }
    ensures { Adds page.old at (counted_of (bytes "VISITS ") v) line_most result page.new }
{
    counted(page, at, b"VISITS ", v as u64)
}

// EVENTS k
pub fn events(page: &mut [u8], at: usize, k: usize) -> usize
    requires { at + line_most ≤ length page.old }
    ensures { Adds page.old at (counted_of (bytes "EVENTS ") k) line_most result page.new }
{
    counted(page, at, b"EVENTS ", k as u64)
}

// TOKENS k
pub fn tokens(page: &mut [u8], at: usize, k: usize) -> usize
    requires { at + line_most ≤ length page.old }
    ensures { Adds page.old at (counted_of (bytes "TOKENS ") k) line_most result page.new }
{
    counted(page, at, b"TOKENS ", k as u64)
}

// PATTERN k
pub fn pattern(page: &mut [u8], at: usize, k: usize) -> usize
    requires { at + line_most ≤ length page.old }
    ensures { Adds page.old at (counted_of (bytes "PATTERN ") k) line_most result page.new }
{
    counted(page, at, b"PATTERN ", k as u64)
}

// NO PATTERN
pub fn no_pattern(page: &mut [u8], at: usize) -> usize
    requires { at + line_most ≤ length page.old }
    ensures { Adds page.old at no_pattern line_most result page.new }
{
    pages::put(page, at, b"NO PATTERN\n")
}

// A AT 20 LENGTH 1
pub fn name(page: &mut [u8], at: usize, name: &[u8], place: usize) -> usize
    requires { at + (length name.now + line_most) ≤ length page.old }
    ensures { Adds page.old at (name_line name.now place) (length name.now + line_most) result page.new }
{
    let mut end = pages::put(page, at, name);
    end = with_number(page, end, b" AT ", place as u64);
    counted(page, end, b" LENGTH ", name.len() as u64)
}

// time letter, of the time's 64 bits
pub fn event(page: &mut [u8], at: usize, time: u64, letter: u8) -> usize
    requires { at + line_most ≤ length page.old }
    ensures { Adds page.old at (event_line (signed_of time) letter) line_most result page.new }
{
    let end = signed(page, at, time);
    pages::put(page, end, &[b' ', letter, b'\n'])
}

// place length bytes
pub fn token(page: &mut [u8], at: usize, place: usize, token: &[u8]) -> usize
    requires { at + (length token.now + line_most) ≤ length page.old }
    ensures { Adds page.old at (token_line place token.now) (length token.now + line_most) result page.new }
{
    let mut end = with_number(page, at, b"", place as u64);
    end = with_number(page, end, b" ", token.len() as u64);
    end = pages::put(page, end, b" ");
    end = pages::put(page, end, token);
    pages::put(page, end, b"\n")
}

// SPAN first behind
pub fn span(page: &mut [u8], at: usize, first: u64, behind: u64) -> usize
    requires { at + line_most ≤ length page.old }
    ensures { Adds page.old at (span_line first behind) line_most result page.new }
{
    let end = with_number(page, at, b"SPAN ", first);
    counted(page, end, b" ", behind)
}

// SPANS k
pub fn spans(page: &mut [u8], at: usize, k: usize) -> usize
    requires { at + line_most ≤ length page.old }
    ensures { Adds page.old at (counted_of (bytes "SPANS ") k) line_most result page.new }
{
    counted(page, at, b"SPANS ", k as u64)
}

// FAILS k
pub fn fails(page: &mut [u8], at: usize, k: usize) -> usize
    requires { at + line_most ≤ length page.old }
    ensures { Adds page.old at (counted_of (bytes "FAILS ") k) line_most result page.new }
{
    counted(page, at, b"FAILS ", k as u64)
}

// cycle signal
pub fn fail(page: &mut [u8], at: usize, cycle: u64, signal: u64) -> usize
    requires { at + line_most ≤ length page.old }
    ensures { Adds page.old at (fail_line cycle signal) line_most result page.new }
{
    let end = with_number(page, at, b"", cycle);
    counted(page, end, b" ", signal)
}

// cycle signal letter
pub fn stated(page: &mut [u8], at: usize, cycle: u64, signal: u64, letter: u8) -> usize
    requires { at + line_most ≤ length page.old }
    ensures { Adds page.old at (stated_line cycle signal letter) line_most result page.new }
{
    let mut end = with_number(page, at, b"", cycle);
    end = with_number(page, end, b" ", signal);
    pages::put(page, end, &[b' ', letter, b'\n'])
}

// ---- check

// FILE OK signals tables patterns cycles size
pub fn good(
    page: &mut [u8],
    at: usize,
    file: &[u8],
    signals: usize,
    tables: usize,
    patterns: usize,
    cycles: usize,
    size: usize,
) -> usize
    requires { at + (length file.now + line_most) ≤ length page.old }
    ensures { Adds page.old at (good_line file.now signals tables patterns cycles size) (length file.now + line_most) result page.new }
{
    let mut end = pages::put(page, at, file);
    end = with_number(page, end, b" OK ", signals as u64);
    end = with_number(page, end, b" ", tables as u64);
    end = with_number(page, end, b" ", patterns as u64);
    end = with_number(page, end, b" ", cycles as u64);
    counted(page, end, b" ", size as u64)
}

// FILE REFUSED n AT p LINE l COLUMN c
pub fn hurt(page: &mut [u8], at: usize, file: &[u8], text: &[u8], no: u8, place: usize) -> usize
    requires { at + (length file.now + line_most) ≤ length page.old }
    ensures { Adds page.old at (hurt_line file.now text.now no place) (length file.now + line_most) result page.new }
{
    let mut end = pages::put(page, at, file);
    end = pages::put(page, end, b" ");
    sections::refusal(page, end, text, no, place)
}

// FILE CANNOT BE READ
pub fn unread(page: &mut [u8], at: usize, file: &[u8]) -> usize
    requires { at + (length file.now + line_most) ≤ length page.old }
    ensures { Adds page.old at (unread_line file.now) (length file.now + line_most) result page.new }
{
    let end = pages::put(page, at, file);
    pages::put(page, end, b" CANNOT BE READ\n")
}

// GOOD g HURT h UNREAD u
pub fn sum(page: &mut [u8], at: usize, good: usize, hurt: usize, unread: usize) -> usize
    requires { at + line_most ≤ length page.old }
    ensures { Adds page.old at (sum_line good hurt unread) line_most result page.new }
{
    let mut end = with_number(page, at, b"GOOD ", good as u64);
    end = with_number(page, end, b" HURT ", hurt as u64);
    counted(page, end, b" UNREAD ", unread as u64)
}

// How far it is, for a terminal.
pub fn progress(page: &mut [u8], at: usize, done: usize, all: usize) -> usize
    requires { at + line_most ≤ length page.old }
    ensures { Adds page.old at (progress_of done all) line_most result page.new }
{
    let mut end = with_number(page, at, b"", done as u64);
    end = with_number(page, end, b" OF ", all as u64);
    pages::put(page, end, b"\r")
}

// ---- help, and a word that is wrong

pub fn help(page: &mut [u8], at: usize) -> usize
    requires { at + help_most ≤ length page.old }
    ensures { Adds page.old at help_lines help_most result page.new }
{
    let end = pages::put(
        page,
        at,
        b"check FILE..                          are these texts sound? a line for each, then how many\nname FILE signal N                    the name of the signal of number N, and where it is declared\nname FILE table N                     the same of a waveform table\nwindow FILE FIRST COUNT [MARK]        the pins in COUNT cycles from cycle FIRST on; MARK, or ?, for no value\nwaveform FILE TABLE SIGNAL CHARACTER  the events of a character: times in ps, and letters\nlist FILE                             all signals, tables and cycles\n",
    );
    pages::put(
        page,
        end,
        b"index FILE                            the listed patterns, each with its first cycle and how many it has\nholds FILE INDEXFILE N                which listed pattern holds cycle N, by an index that was kept\ntokens FILE                           the words of the text, each with its place and length\nintake FILE                           a long raw text without its comments\nsave FILE                             a hurt text with its damaged patterns made blank\nfold FILE                             the text without macros, procedures and groups\nreport FILE REPORTFILE                the run's cycle and the signal of each offset of a fail report\nhelp                                  these lines\nNumbers count from 0. REFUSED n AT p: n says what is wrong, as docs/COMMANDS.md tells, and p is the byte where.\n",
    )
}

// what is wrong: the word
pub fn fault(page: &mut [u8], at: usize, what: &[u8], word: &[u8]) -> usize
    requires { at + (length what.now + (length word.now + line_most)) ≤ length page.old }
    ensures { Adds page.old at (fault_line what.now word.now) (length what.now + (length word.now + line_most)) result page.new }
{
    let mut end = pages::put(page, at, what);
    end = pages::put(page, end, b": ");
    end = pages::put(page, end, word);
    pages::put(page, end, b"\n")
}

// ---- numbers

// Digits alone, at least one, and no number above the largest of 64 bits.
pub fn number(word: &[u8]) -> Option<u64>
    ensures { result ≡ told (number_of word.now) }
{
    words::number_up_to(word, u64::MAX)
}
