// The sections of a listing, in fixed order, each after its count; and what is written for a refusal.
#![tactic(auto)]

ghost use Rattle.std.specs.Prelude.{◌≡◌, ◌++◌, ◌+◌, ◌*◌, ◌≤◌, length};
ghost use Rattle.meaning.specs.Bounds.{signals_most, tables_most};
ghost use Rattle.meaning.specs.Meaning.{firsts};
ghost use Rattle.words.specs.Table.{names};
ghost use Rattle.pages.specs.Pages.{decimal, digits_most};
ghost use Rattle.sections.specs.Listing.{first_of, last_of, position_line, position_most, refusal as refusal_of, refusal_most, count_most, counted_of, line_most, lines as lines_of, Short, listed_of, not_listed, unlisted_most, sections_of, front_most, Fronts, Adds};

// Above so many cycles the rows are not listed.
const LISTED: usize = 1_000_000;

// A name and LF.
const NAME: usize = 33;

// A page has room for all but the rows, whatever the text: a line for each signal, and what else there is.
pub const FRONT: usize = 1_024 + sets::MOST * NAME;

// The bytes that were written to the front of a page; the next row's cycle, how many rows are left, and their width. No `room`: the page is too small.
#[derive(Clone, Copy)]
pub struct Page {
    pub room: bool,
    pub length: usize,
    pub first: usize,
    pub left: usize,
    pub width: usize,
}

pub fn last(length: usize) -> Page
    ensures { result ≡ last_of length }
{
    Page {
        room: true,
        length,
        first: 0,
        left: 0,
        width: 0,
    }
}

// A word and a number behind it.
pub fn with_number(page: &mut [u8], at: usize, word: &[u8], n: u64) -> usize
    requires { at + (length word.now + digits_most) ≤ length page.old }
    ensures { Adds page.old at (word.now ++ decimal n) (length word.now + digits_most) result page.new }
{
    let end = pages::put(page, at, word);
    pages::put_number(page, end, n)
}

// LINE l COLUMN c, of a place in the text
fn position(page: &mut [u8], at: usize, text: &[u8], place: usize) -> usize
    requires { at + position_most ≤ length page.old }
    ensures { Adds page.old at (position_line text.now place) position_most result page.new }
{
    let p = columns::position_of(text, place);
    let mut end = with_number(page, at, b" LINE ", p.line as u64);
    end = with_number(page, end, b" COLUMN ", p.column as u64);
    pages::put(page, end, b"\n")
}

// REFUSED n AT p LINE l COLUMN c
pub fn refusal(page: &mut [u8], at: usize, text: &[u8], no: u8, place: usize) -> usize
    requires { at + refusal_most ≤ length page.old }
    ensures { Adds page.old at (refusal_of text.now no place) refusal_most result page.new }
{
    let mut end = with_number(page, at, b"REFUSED ", no as u64);
    end = with_number(page, end, b" AT ", place as u64);
    position(page, end, text, place)
}

// The page of a refused text.
pub fn refused(page: &mut [u8], text: &[u8], no: u8, place: usize) -> Page
    requires { front_most ≤ length page.old }
    ensures { Fronts (refusal_of text.now no place) page.old result.length page.new × (result ≡ last_of result.length) }
{
    let end = refusal(page, 0, text, no, place);
    last(end)
}

// A section's word and its count, behind what is there.
pub fn counted(page: &mut [u8], at: usize, word: &[u8], n: usize) -> usize
    requires { at + (length word.now + count_most) ≤ length page.old }
    ensures { Adds page.old at (counted_of word.now n) (length word.now + count_most) result page.new }
{
    let mut end = pages::put(page, at, word);
    end = pages::put(page, end, b" ");
    end = pages::put_number(page, end, n as u64);
    pages::put(page, end, b"\n")
}

// A line for each name.
pub fn lines<'a>(
    page: &mut [u8],
    at: usize,
    text: &'a [u8],
    places: &'a [usize],
    count: usize,
) -> usize
    requires { Short (firsts (names text.now places.now count)) × (count ≤ signals_most) × (at + count * line_most ≤ length page.old) }
    ensures { Adds page.old at (lines_of (firsts (names text.now places.now count))) (count * line_most) result page.new }
{
    let mut end = at;
    for i in 0..count {
        end = pages::put(page, end, words::name_bytes(text, places, i));
        end = pages::put(page, end, b"\n");
    }
    end
}

// How many rows are listed.
fn listed(cycles: usize) -> usize
    ensures { result ≡ listed_of cycles }
{
    if LISTED < cycles { 0 } else { cycles }
}

// What stands for rows that are not listed.
fn unlisted(page: &mut [u8], at: usize, cycles: usize) -> usize
    requires { at + unlisted_most ≤ length page.old }
    ensures { Adds page.old at (not_listed cycles) unlisted_most result page.new }
{
    if LISTED < cycles {
        return pages::put(page, at, b"NOT LISTED\n");
    }
    at
}

// SIGNALS, TABLES and CYCLES.
pub fn sections<'a>(
    page: &mut [u8],
    text: &'a [u8],
    places: &'a [usize],
    tplaces: &'a [usize],
    signals: usize,
    tables: usize,
    cycles: usize,
) -> Page
    requires { (front_most ≤ length page.old) × (signals ≤ signals_most) × (tables ≤ tables_most) × Short (firsts (names text.now places.now signals)) × Short (firsts (names text.now tplaces.now tables)) }
    ensures { Fronts (sections_of (firsts (names text.now places.now signals)) (firsts (names text.now tplaces.now tables)) signals tables cycles) page.old result.length page.new × (result ≡ first_of signals cycles result.length) }
{
    let mut at = counted(page, 0, b"SIGNALS", signals);
    at = lines(page, at, text, places, signals);
    at = counted(page, at, b"TABLES", tables);
    at = lines(page, at, text, tplaces, tables);
    at = counted(page, at, b"CYCLES", cycles);
    at = unlisted(page, at, cycles);
    Page {
        room: true,
        length: at,
        first: 0,
        left: listed(cycles),
        width: signals + 2,
    }
}
