// A text's index: a line for each listed pattern, then the tables; and which listed pattern holds a cycle.
#![tactic(auto)]

ghost use Rattle.std.specs.Prelude.{◌≡◌, ◌∷◌, ◌+◌, ◌*◌, ◌≤◌, length, take};
ghost use Rattle.tokens.specs.Tokens.{toks};
ghost use Rattle.meaning.specs.Bounds.{name_most, tables_most, patterns_most};
ghost use Rattle.meaning.specs.Body.{Body};
ghost use Rattle.meaning.specs.Statements.{Decls};
ghost use Rattle.meaning.specs.Meaning.{firsts};
ghost use Rattle.words.specs.Cursor.{stream};
ghost use Rattle.words.specs.Table.{names as names_of};
ghost use Rattle.bursts.specs.Listed.{listed_in};
ghost use Rattle.pages.specs.Pages.{decimal};
ghost use Rattle.sections.specs.Listing.{Short, Fronts, Adds};
ghost use Rattle.index.specs.Index.{keyword_before, keywords as keywords_of, lines_from, line_written, lines_written, written, holder as holder_of};
ghost use Rattle.index.specs.Lines.{number_most, pattern_most, index_most, names_in, Lists, SomeLists, blocks_in, SomeNamed, Shares, index_in, held_of};

use texts::PATTERNS;
use words::Cursor;

// Room for an index, whatever the digits of its numbers.
pub const INDEX: usize = 1_858;

// The place of a Pattern keyword, and the cursor at the name behind it.
#[derive(Clone, Copy)]
struct Keyword {
    at: usize,
    cursor: Cursor,
}

// A listed pattern's number among the patterns, and its cycles.
#[derive(Clone, Copy)]
pub struct Share {
    pub number: usize,
    pub cycles: usize,
}

// ---- the Pattern keywords

// The place of the token whose next one stands at p.
fn keyword_before(text: &[u8], c: Cursor, p: usize) -> Keyword
    ensures { keyword_before (stream text.now c) p ≡ (result.at, stream text.now result.cursor) }
{
    let mut here = c;
    while here.at < here.end {
        let next = words::cursor_at(text, here.end);
        if (next.at < next.end) & (next.at == p) {
            return Keyword {
                at: here.at,
                cursor: next,
            };
        }
        here = next;
    }
    Keyword {
        at: 0,
        cursor: here,
    }
}

// Those of all patterns, in one pass over the text.
fn keywords<'a>(text: &'a [u8], names: &'a [usize], patterns: usize, keys: &mut [usize])
    requires { (length keys.old ≡ patterns_most) × (patterns ≤ patterns_most) }
    ensures { take patterns keys.new ≡ keywords_of (toks text.now 0) (firsts (names_of text.now names.now patterns)) }
{
    let mut c = words::cursor_at(text, 0);
    for i in 0..patterns {
        let k = keyword_before(text, c, words::number_at(names, i * 2));
        keys[i] = k.at;
        c = k.cursor;
    }
}

// ---- the listed patterns

// The listed pattern of number k.
pub fn listed_at<'a>(
    text: &'a [u8],
    book: &'a [usize],
    list: &'a [usize],
    patterns: usize,
    k: usize,
) -> Share
    requires { SomeNamed text.now book.now list.now patterns k }
    ensures { Shares text.now book.now list.now patterns k result }
{
    let names = &book[measures::PATTERNS * 2..];
    let number = words::find(text, words::name_bytes(text, list, k), names, patterns);
    let m = measures::measure_at(book, measures::PATTERNS + number);
    Share {
        number,
        cycles: m.cycles,
    }
}

// A blank and a number.
fn spaced(page: &mut [u8], at: usize, n: usize) -> usize
    requires { at + number_most ≤ length page.old }
    ensures { Adds page.old at (32 ∷ decimal n) number_most result page.new }
{
    let end = pages::put(page, at, b" ");
    pages::put_number(page, end, n as u64)
}

// A listed pattern's line.
fn line(
    page: &mut [u8],
    at: usize,
    name: &[u8],
    first: usize,
    count: usize,
    keyword: usize,
) -> usize
    requires { (length name.now ≤ name_most) × (at + pattern_most ≤ length page.old) }
    ensures { Adds page.old at (line_written (record { name = name.entry.now; first = first; count = count; keyword = keyword })) pattern_most result page.new }
{
    let mut end = pages::put(page, at, name);
    end = spaced(page, end, first);
    end = spaced(page, end, count);
    end = spaced(page, end, keyword);
    pages::put(page, end, b"\n")
}

// A line for each listed pattern.
fn lines<'a>(
    page: &mut [u8],
    at: usize,
    text: &'a [u8],
    book: &'a [usize],
    list: &'a [usize],
    keys: &'a [usize],
    listed: usize,
    patterns: usize,
) -> usize
    requires { SomeLists text.now book.now list.now listed patterns × (at + listed * pattern_most ≤ length page.old) × (take patterns keys.now ≡ keywords_of (toks text.now 0) (firsts (names_of text.now (names_in book.now) patterns))) }
    ensures { (ps : Decls) (run : Body) → Lists text.now book.now list.now listed patterns ps run → Adds page.old at (lines_written (lines_from 0 (blocks_in text.now ps) (listed_in text.now list.now listed))) (listed * pattern_most) result page.new }
{
    let mut end = at;
    let mut first = 0;
    for k in 0..listed {
        let s = listed_at(text, book, list, patterns, k);
        let keyword = words::number_at(keys, s.number);
        end = line(
            page,
            end,
            words::name_bytes(text, list, k),
            first,
            s.cycles,
            keyword,
        );
        first += s.cycles;
    }
    end
}

// PATTERNS and TABLES: the index to the front of a page; how long it is.
pub fn write<'a>(
    page: &mut [u8],
    text: &'a [u8],
    tplaces: &'a [usize],
    book: &'a [usize],
    list: &'a [usize],
    listed: usize,
    patterns: usize,
    tables: usize,
) -> usize
    requires { SomeLists text.now book.now list.now listed patterns × (index_most ≤ length page.old) × (tables ≤ tables_most) × Short (firsts (names_of text.now tplaces.now tables)) }
    ensures { (ps : Decls) (run : Body) → Lists text.now book.now list.now listed patterns ps run → Fronts (written (index_in text.now list.now tplaces.now listed tables ps)) page.old result page.new }
{
    let names = &book[measures::PATTERNS * 2..];
    let mut keys = [0usize; PATTERNS];
    keywords(text, names, patterns, &mut keys);
    let mut at = sections::counted(page, 0, b"PATTERNS", listed);
    at = lines(page, at, text, book, list, &keys, listed, patterns);
    at = sections::counted(page, at, b"TABLES", tables);
    sections::lines(page, at, text, tplaces, tables)
}

// ---- the pattern that holds a cycle

// The number in the list of the pattern that holds a cycle; past the end there is none.
pub fn holder<'a>(
    text: &'a [u8],
    book: &'a [usize],
    list: &'a [usize],
    listed: usize,
    patterns: usize,
    n: usize,
) -> Option<usize>
    requires { SomeLists text.now book.now list.now listed patterns }
    ensures { (ps : Decls) (run : Body) → Lists text.now book.now list.now listed patterns ps run → held_of result ≡ holder_of n 0 (lines_from 0 (blocks_in text.now ps) (listed_in text.now list.now listed)) }
{
    let mut reached = 0;
    for number in 0..listed {
        let s = listed_at(text, book, list, patterns, number);
        if n < reached + s.cycles {
            return Some(number);
        }
        reached += s.cycles;
    }
    None
}
