// The blocks Signals and SignalGroups, read into two tables that the caller lends: place and end of each name, and its signals in a row.
#![tactic(auto)]

ghost use Rattle.std.specs.Prelude.{◌≡◌, true, false, ◌&&◌, List, ℕ, ◌+◌, ◌*◌, ◌≤◌, ◌<◌, min, length, ltb};
ghost use Rattle.meaning.specs.Bounds.{signals_most};
ghost use Rattle.meaning.specs.Lists.{meets};
ghost use Rattle.meaning.specs.Names.{among, due_among, find as find_of, new_name, old_name};
ghost use Rattle.meaning.specs.Signals.{directions, signal as signal_due, signals as signals_due};
ghost use Rattle.meaning.specs.Groups.{sign as sign_due, sign_ahead, joined as joined_due, group as group_due, groups as groups_due};
ghost use Rattle.sets.specs.Sets.{list_of};
ghost use Rattle.words.specs.Cursor.{ahead as ahead_tok, stream, alive, Goes};
ghost use Rattle.words.specs.Values.{told};
ghost use Rattle.words.specs.Table.{names};
ghost use Rattle.words.specs.Chains.{chains_most};
ghost use Rattle.signals.specs.Names.{names_most, places_length, row_length, Chained, Unchained, Sized, list_at, names_of, Written, Put, Added, Named, AllTidy, Usable, term_within, expression_within, Fronted};

use sets::Set;
use words::{Cursor, TOO_MANY};

// How many groups there may be.
const GROUPS: usize = 128;

// How many signals and groups there may be.
pub const NAMES: usize = sets::MOST + GROUPS;

// A row of signals: their number, and a place for each that there may be.
pub const ROW: usize = sets::MOST + 1;

// Behind the places of the names: for each name the one before it in its chain, and for each chain its last name. A name stands there by its number and 1, none by 0.
const EARLIER: usize = NAMES * 2;

const LAST: usize = NAMES * 3;

// How long the two tables are.
pub const PLACES: usize = LAST + words::CHAINS;

pub const LISTS: usize = NAMES * ROW;

// How deep brackets may stand in an expression.
const BRACKETS: usize = 8;

// Refusal: a group that repeats or lacks a signal, or is empty.
const BAD_GROUP: u8 = 10;

// How many names there are, and the cursor behind them.
#[derive(Clone, Copy)]
struct Counted {
    cursor: Cursor,
    count: usize,
}

// Is it `+`, and the cursor behind it.
#[derive(Clone, Copy)]
struct Signed {
    cursor: Cursor,
    plus: bool,
}

// A term's signals, the place of its last token, and the cursor behind it.
#[derive(Clone, Copy)]
struct Placed {
    cursor: Cursor,
    set: Set,
    last: usize,
}

// An expression's signals, and the cursor behind it.
#[derive(Clone, Copy)]
struct Listed {
    cursor: Cursor,
    set: Set,
}

// How many signals there are, how many names, and the cursor behind both blocks.
#[derive(Clone, Copy)]
pub struct Blocks {
    pub cursor: Cursor,
    pub signals: usize,
    pub names: usize,
}

// ---- the tables

// The name from `at` to `end`, as number i, the last one of chain h.
fn put_name(places: &mut [usize], i: usize, at: usize, end: usize, h: usize)
    requires { (length places.old ≡ places_length) × (i < names_most) × (h < chains_most) }
    ensures { Put places.old i at «end» h places.new }
{
    let earlier = places[LAST + h];
    places[i * 2] = at;
    places[i * 2 + 1] = end;
    places[EARLIER + i] = earlier;
    places[LAST + h] = i + 1;
}

// A number of signals, as a row holds it.
fn held(n: usize) -> u16
    ensures { result ≡ min n signals_most }
{
    if n < sets::MOST {
        n as u16
    } else {
        sets::MOST as u16
    }
}

// The signals of the name of number i: a row is written.
fn put_set(lists: &mut [u16], i: usize, set: Set)
    requires { i * row_length + row_length ≤ length lists.old }
    ensures { Written lists.old i set lists.new }
{
    let at = i * ROW;
    lists[at] = held(set.n);
    lists[at + 1..at + ROW].copy_from_slice(&set.v);
}

// The name at the cursor and its signals, behind `count` names.
fn add(text: &[u8], places: &mut [usize], lists: &mut [u16], count: usize, c: Cursor, set: Set)
    requires { Sized places.old lists.old × Chained text.now places.old count × (count < names_most) }
    ensures { Added text.now places.old lists.old count c set places.new lists.new }
{
    let h = words::chain(words::bytes_of(text, c.at, c.end));
    put_name(places, count, c.at, c.end, h);
    put_set(lists, count, set);
}

// The signals of the name of number i.
pub fn set_at(lists: &[u16], i: usize) -> Set
    requires { length lists.now ≡ names_most * row_length }
    ensures { list_of result ≡ list_at lists.now i }
{
    if NAMES <= i {
        return sets::nothing();
    }
    let at = i * ROW;
    let mut v = [0; sets::MOST];
    v.copy_from_slice(&lists[at + 1..at + ROW]);
    Set {
        n: lists[at] as usize,
        v,
    }
}

// ---- names in their name space

// The number of the first of `count` names that is w; `count` where none is. The names of its chain are looked at, the last one first.
fn find<'a>(text: &'a [u8], w: &'a [u8], places: &'a [usize], count: usize) -> usize
    requires { Chained text.now places.now count }
    ensures { told (ltb result count) result ≡ find_of (names text.now places.now count) w.now }
{
    let n = w.len();
    if n == 0 {
        return words::find(text, w, places, count);
    }
    let last = w[n - 1];
    let mut found = count;
    let mut k = places[LAST + words::chain(w)];
    while 0 < k {
        let i = k - 1;
        if words::is_named(text, w, last, places, i * 2) {
            found = i;
        }
        k = places[EARLIER + i];
    }
    found
}

// A name that none of `count` names is.
fn new_name<'a>(text: &'a [u8], c: Cursor, places: &'a [usize], count: usize) -> Cursor
    requires { Chained text.now places.now count }
    ensures { Goes text.now c (new_name (names text.now places.now count)) result (ahead_tok text.now c) }
{
    let number = find(text, words::bytes_of(text, c.at, c.end), places, count);
    words::unused_name(text, c, number, count)
}

// A name that one of `count` names is, and that one's number.
pub fn old_name<'a>(text: &'a [u8], c: Cursor, places: &'a [usize], count: usize) -> words::Named
    requires { Chained text.now places.now count }
    ensures { Goes text.now c (old_name (names text.now places.now count)) result.cursor (ahead_tok text.now c, result.number) }
{
    let number = find(text, words::bytes_of(text, c.at, c.end), places, count);
    words::known_name(text, c, number, count)
}

// ---- Signals

// Is w In, Out or InOut?
fn is_direction(w: &[u8]) -> bool
    ensures { result ≡ among directions w.now }
{
    words::equal(w, b"In") | (words::equal(w, b"Out") | words::equal(w, b"InOut"))
}

// In, Out or InOut is due.
fn direction(text: &[u8], c: Cursor) -> Cursor
    ensures { Goes text.now c (due_among directions) result c.at }
{
    words::expect(text, c, is_direction(words::bytes_of(text, c.at, c.end)))
}

// One signal more, behind `count` of them.
fn signal(text: &[u8], c: Cursor, places: &mut [usize], lists: &mut [u16], count: usize) -> Cursor
    requires { Sized places.old lists.old × Chained text.now places.old count }
    ensures { Named text.now c (signal_due (names_of text.now places.old lists.old count)) result places.new lists.new (count + 1) }
{
    let a = new_name(text, c, places, count);
    let b = words::refuse_if(a, sets::MOST <= count, TOO_MANY, c.at);
    let d = direction(text, b);
    let r = words::due(text, d, b";");
    if r.no != 0 {
        return r;
    }
    add(text, places, lists, count, c, sets::single(count as u16));
    r
}

// Signals { NAME In; .. }
fn signals(text: &[u8], c: Cursor, places: &mut [usize], lists: &mut [u16]) -> Counted
    requires { Sized places.old lists.old × Unchained places.old }
    ensures { Named text.now c signals_due result.cursor places.new lists.new result.count }
{
    let a = words::due(text, c, b"Signals");
    let b = words::due(text, a, b"{");
    let mut cursor = signal(text, b, places, lists, 0);
    let mut count = 1;
    while words::until(text, cursor, b"}") {
        cursor = signal(text, cursor, places, lists, count);
        count += 1;
    }
    let end = words::due(text, cursor, b"}");
    Counted { cursor: end, count }
}

// ---- SignalGroups

// `+` or `-` is due.
fn sign(text: &[u8], c: Cursor) -> Signed
    ensures { Goes text.now c sign_due result.cursor result.plus }
{
    if words::is(text, c, b"+") {
        let cursor = words::step(text, c);
        return Signed { cursor, plus: true };
    }
    let cursor = words::due(text, c, b"-");
    Signed {
        cursor,
        plus: false,
    }
}

// Is `+` or `-` ahead?
fn sign_ahead(text: &[u8], c: Cursor) -> bool
    ensures { result ≡ (alive c && sign_ahead (stream text.now c)) }
{
    words::is(text, c, b"+") | words::is(text, c, b"-")
}

// The signals g and a term's x, whose last token stands at q: `+` appends, `-` removes.
fn joined(c: Cursor, g: Set, x: Set, plus: bool, q: usize) -> Listed
    ensures { (text : List ℕ) → (alive c ≡ true → meets (list_of x) (list_of g) ≡ false → length (list_of g) + length (list_of x) ≤ signals_most) → Goes text c (joined_due plus (list_of g) (list_of x) q) result.cursor (list_of result.set) }
{
    if plus {
        let cursor = words::refuse_if(c, sets::meets(x, g), BAD_GROUP, q);
        let set = sets::append(g, x);
        return Listed { cursor, set };
    }
    let cursor = words::refuse_if(c, !sets::inside(x, g), BAD_GROUP, q);
    let set = sets::without(g, x);
    Listed { cursor, set }
}

// A term: one of `count` names, or an expression in brackets, in which d more may stand.
#[cycle(expression_term)]
fn term<'a>(
    text: &'a [u8],
    c: Cursor,
    places: &'a [usize],
    lists: &'a [u16],
    count: usize,
    d: usize,
) -> Placed
    requires { Usable text.now places.now lists.now count }
    ensures { Goes text.now c (term_within d (names_of text.now places.now lists.now count)) result.cursor (list_of result.set, result.last) }
{
    if words::is(text, c, b"(") {
        let a = words::due(text, c, b"(");
        if d == 0 {
            let cursor = words::refuse_if(a, true, TOO_MANY, c.at);
            let set = sets::nothing();
            let last = c.at;
            return Placed { cursor, set, last };
        }
        let g = expression(text, a, places, lists, count, d - 1);
        let b = g.cursor;
        let cursor = words::due(text, b, b")");
        let set = g.set;
        let last = b.at;
        return Placed { cursor, set, last };
    }
    let x = old_name(text, c, places, count);
    let cursor = x.cursor;
    let set = set_at(lists, x.number);
    let last = c.at;
    Placed { cursor, set, last }
}

// Terms joined by `+` or `-`, in which brackets may stand d deep.
#[cycle(expression_term)]
fn expression<'a>(
    text: &'a [u8],
    c: Cursor,
    places: &'a [usize],
    lists: &'a [u16],
    count: usize,
    d: usize,
) -> Listed
    requires { Usable text.now places.now lists.now count }
    ensures { Goes text.now c (expression_within d (names_of text.now places.now lists.now count)) result.cursor (list_of result.set) }
{
    let x = term(text, c, places, lists, count, d);
    let mut cursor = x.cursor;
    let mut set = x.set;
    while sign_ahead(text, cursor) {
        let s = sign(text, cursor);
        let a = s.cursor;
        let y = term(text, a, places, lists, count, d);
        let b = y.cursor;
        let z = y.set;
        let j = joined(b, set, z, s.plus, y.last);
        cursor = j.cursor;
        set = j.set;
    }
    Listed { cursor, set }
}

// One group more, behind `count` names, of which n are signals.
fn group(
    text: &[u8],
    c: Cursor,
    places: &mut [usize],
    lists: &mut [u16],
    count: usize,
    n: usize,
) -> Cursor
    requires { Usable text.now places.old lists.old count × (n ≤ signals_most) }
    ensures { Named text.now c (group_due n (names_of text.now places.old lists.old count)) result places.new lists.new (count + 1) }
{
    let a = new_name(text, c, places, count);
    let b = words::refuse_if(a, n + GROUPS <= count, TOO_MANY, c.at);
    let d = words::due(text, b, b"=");
    let e = words::due(text, d, b"'");
    let x = expression(text, e, places, lists, count, BRACKETS);
    let f = x.cursor;
    let set = x.set;
    let g = words::due(text, f, b"'");
    let h = words::refuse_if(g, sets::is_empty(set), BAD_GROUP, f.at);
    let r = words::due(text, h, b";");
    if r.no != 0 {
        return r;
    }
    add(text, places, lists, count, c, set);
    r
}

// SignalGroups { NAME = 'EXPR'; .. }, behind n signals.
fn groups(text: &[u8], c: Cursor, places: &mut [usize], lists: &mut [u16], n: usize) -> Counted
    requires { Sized places.old lists.old × (alive c ≡ true → AllTidy signals_most (names_of text.now places.old lists.old n) × (n ≤ signals_most) × Chained text.now places.old n) }
    ensures { Named text.now c (groups_due (names_of text.now places.old lists.old n)) result.cursor places.new lists.new result.count }
{
    let a = words::due(text, c, b"SignalGroups");
    let mut cursor = words::due(text, a, b"{");
    let mut count = n;
    while words::until(text, cursor, b"}") {
        cursor = group(text, cursor, places, lists, count, n);
        count += 1;
    }
    let end = words::due(text, cursor, b"}");
    Counted { cursor: end, count }
}

// Signals, and SignalGroups, which may be missing.
pub fn front(text: &[u8], c: Cursor, places: &mut [usize], lists: &mut [u16]) -> Blocks
    requires { Sized places.old lists.old × Unchained places.old }
    ensures { Fronted text.now c result.cursor places.new lists.new result.signals result.names }
{
    let s = signals(text, c, places, lists);
    let a = s.cursor;
    let n = s.count;
    if words::is(text, a, b"SignalGroups") {
        let g = groups(text, a, places, lists, n);
        let cursor = g.cursor;
        return Blocks {
            cursor,
            signals: n,
            names: g.count,
        };
    }
    Blocks {
        cursor: a,
        signals: n,
        names: n,
    }
}
