// Assignments, `V { NAME = DATA; .. }`, read into a table that the caller lends: each signal's character, 0 where none is given.
#![tactic(auto)]

ghost use Rattle.std.specs.Prelude.{◌≡◌, [], ◌*◌, ◌≤◌, ◌<◌, length};
ghost use Rattle.meaning.specs.Bounds.{signals_most};
ghost use Rattle.meaning.specs.Lists.{meets};
ghost use Rattle.meaning.specs.Body.{Assigns};
ghost use Rattle.meaning.specs.Data.{assigned, assign as assign_due, assigns as assigns_due};
ghost use Rattle.signals.specs.Names.{names_most, row_length, list_at, names_of};
ghost use Rattle.assigns.specs.Given.{Gave, Gives, placed, Row, Ready};

use words::{BAD_DATA, Cursor};

// The signals of the name of number i.
pub fn signals_of(lists: &[u16], i: usize) -> &[u16]
    requires { (length lists.now ≡ names_most * row_length) × (i < names_most) }
    ensures { result.now ≡ list_at lists.now i }
{
    let at = i * signals::ROW;
    let n = (lists[at] as usize).min(sets::MOST);
    &lists[at + 1..at + 1 + n]
}

// Is one of its signals given a character already?
pub fn met(lists: &[u16], i: usize, given: &[u8]) -> bool
    requires { Row lists.now i given.now }
    ensures { (xs : Assigns) → Gave xs given.now → result ≡ meets (list_at lists.now i) (assigned xs) }
{
    // No `any`: in a closure it is not known that the table has a place for the signal.
    let signals = signals_of(lists, i);
    for s in signals {
        if given[*s as usize] != 0 {
            return true;
        }
    }
    false
}

// Each of its signals is given the next character.
fn put(lists: &[u16], i: usize, buffer: &[u8], given: &mut [u8])
    requires { Row lists.now i given.old × (length (list_at lists.now i) ≤ length buffer.now) }
    ensures { given.new ≡ placed (list_at lists.now i) buffer.now given.old }
{
    for (s, b) in signals_of(lists, i).iter().zip(buffer) {
        given[*s as usize] = *b;
    }
}

// NAME = DATA; behind other assignments of the statement. `may`: may `#` stand in it?
fn assign<'a>(
    text: &'a [u8],
    c: Cursor,
    places: &'a [usize],
    lists: &'a [u16],
    names: usize,
    may: bool,
    given: &mut [u8],
) -> Cursor
    requires { Ready text.now places.now lists.now names × (length given.old ≡ signals_most) }
    ensures { (xs : Assigns) → Gave xs given.old → Gives text.now c (assign_due (names_of text.now places.now lists.now names) may xs) result given.new }
{
    let x = signals::old_name(text, c, places, names);
    let a = x.cursor;
    let i = x.number;
    if a.no != 0 {
        return a;
    }
    let b = words::refuse_if(a, met(lists, i, given), BAD_DATA, c.at);
    let d = words::due(text, b, b"=");
    let mut buffer = [0; sets::MOST];
    let f = data::data(text, d, may, &mut buffer);
    let e = f.cursor;
    let r = words::refuse_if(e, f.n != signals_of(lists, i).len(), BAD_DATA, f.last);
    if r.no != 0 {
        return r;
    }
    put(lists, i, &buffer, given);
    r
}

// { NAME = DATA; .. }
pub fn assigns<'a>(
    text: &'a [u8],
    c: Cursor,
    places: &'a [usize],
    lists: &'a [u16],
    names: usize,
    may: bool,
    given: &mut [u8],
) -> Cursor
    requires { Ready text.now places.now lists.now names × Gave [] given.old }
    ensures { Gives text.now c (assigns_due (names_of text.now places.now lists.now names) may) result given.new }
{
    let mut cursor = words::due(text, c, b"{");
    while words::until(text, cursor, b"}") {
        cursor = assign(text, cursor, places, lists, names, may, given);
    }
    words::due(text, cursor, b"}")
}
