// A text folded flat, part by part into a page.
#![tactic(auto)]

ghost use Rattle.std.specs.Prelude.{◌≡◌, [], ◌≤◌, ◌<◌};
ghost use Rattle.meaning.specs.Bounds.{signals_most};
ghost use Rattle.meaning.specs.Meaning.{firsts};
ghost use Rattle.words.specs.Table.{name_of, names};
ghost use Rattle.folded.specs.Pieces.{laid};
ghost use Rattle.folded.specs.Flat.{direction as direction_of, directed};
ghost use Rattle.folded.specs.Layout.{signal_put, signals_put, pattern_name, names_from, listed_put, burst_put, exec_put};
ghost use Rattle.pens.specs.Pens.{Writes};

use pens::Pen;

// A signal's direction: the word behind the name of number i.
fn direction<'a>(text: &'a [u8], places: &'a [usize], i: usize) -> &'a [u8]
    requires { i < signals_most }
    ensures { result.now ≡ direction_of text.now (name_of text.now places.now i) }
{
    let name = words::name_bytes(text, places, i);
    let c = words::cursor_at(text, words::number_at(places, i * 2) + name.len());
    words::bytes_of(text, c.at, c.end)
}

// NAME DIRECTION;
fn signal<'a>(page: &mut [u8], pen: Pen, text: &'a [u8], places: &'a [usize], i: usize) -> Pen
    requires { i < signals_most }
    ensures { Writes page.old pen (laid (signal_put ((name_of text.now places.now i).word, direction_of text.now (name_of text.now places.now i)) [])) page.new result }
{
    let p = pens::add(page, pen, words::name_bytes(text, places, i));
    let q = pens::add(page, p, b" ");
    let s = pens::add(page, q, direction(text, places, i));
    pens::add(page, s, b";")
}

// Signals{NAME DIRECTION;..}
pub fn signals<'a>(
    page: &mut [u8],
    pen: Pen,
    text: &'a [u8],
    places: &'a [usize],
    count: usize,
) -> Pen
    requires { count ≤ signals_most }
    ensures { Writes page.old pen (laid (signals_put (directed text.now (firsts (names text.now places.now count))) [])) page.new result }
{
    let mut p = pens::add(page, pen, b"Signals{");
    for i in 0..count {
        p = signal(page, p, text, places, i);
    }
    pens::add(page, p, b"}\n")
}

// pN;
fn listed(page: &mut [u8], pen: Pen, i: usize) -> Pen
    ensures { Writes page.old pen (laid (listed_put (pattern_name i) [])) page.new result }
{
    let p = pens::add(page, pen, b"p");
    let q = pens::add_number(page, p, i as u64);
    pens::add(page, q, b";")
}

// PatternBurst b{PatList{p0;p1;..}}
pub fn burst(page: &mut [u8], pen: Pen, count: usize) -> Pen
    ensures { Writes page.old pen (laid (burst_put (names_from 0 count) [])) page.new result }
{
    let mut p = pens::add(page, pen, b"PatternBurst b{PatList{");
    for i in 0..count {
        p = listed(page, p, i);
    }
    pens::add(page, p, b"}}\n")
}

// PatternExec{PatternBurst b;}
pub fn exec(page: &mut [u8], pen: Pen) -> Pen
    ensures { Writes page.old pen (laid (exec_put [])) page.new result }
{
    pens::add(page, pen, b"PatternExec{PatternBurst b;}\n")
}
