// PatternBurst and PatternExec: the burst's name, and the names that it lists.
#![tactic(auto)]

ghost use Rattle.std.specs.Prelude.{◌≡◌, ◌+◌, ◌≤◌, length};
ghost use Rattle.meaning.specs.Bounds.{list_most};
ghost use Rattle.meaning.specs.Document.{list_entry, burst as burst_due, exec as exec_due};
ghost use Rattle.words.specs.Cursor.{Goes};
ghost use Rattle.bursts.specs.Listed.{token_at, listed_in, list_length, Lists, Bursts};

use words::{Cursor, TOO_MANY};

const LIST: usize = 16;
// Two numbers a listed name.
pub const LISTED: usize = LIST * 2;

// The cursor behind the block, the burst's name by its place and end, and how many names it lists.
#[derive(Clone, Copy)]
pub struct Named {
    pub cursor: Cursor,
    pub at: usize,
    pub end: usize,
    pub count: usize,
}

// The cursor behind the block, and where its last token stands.
#[derive(Clone, Copy)]
pub struct Closed {
    pub cursor: Cursor,
    pub last: usize,
}

// NAME; behind `count` listed names.
fn entry(text: &[u8], c: Cursor, list: &mut [usize], count: usize) -> Cursor
    requires { (length list.old ≡ list_length) × (count ≤ list_most) }
    ensures { Lists text.now c (list_entry (listed_in text.now list.old count)) result list.new (count + 1) }
{
    let a = words::name(text, c);
    let b = words::refuse_if(a, LIST <= count, TOO_MANY, c.at);
    let r = words::due(text, b, b";");
    if r.no != 0 {
        return r;
    }
    list[count * 2] = c.at;
    list[count * 2 + 1] = c.end;
    r
}

// PatternBurst NAME { PatList { NAME; .. } }
pub fn burst(text: &[u8], c: Cursor, list: &mut [usize]) -> Named
    requires { length list.old ≡ list_length }
    ensures { Bursts text.now c burst_due result.cursor result.at result.end list.new result.count }
{
    let a = words::due(text, c, b"PatternBurst");
    let b = words::name(text, a);
    let d = words::due(text, b, b"{");
    let e = words::due(text, d, b"PatList");
    let mut cursor = words::due(text, e, b"{");
    let mut count = 0;
    while words::until(text, cursor, b"}") {
        cursor = entry(text, cursor, list, count);
        count += 1;
    }
    let f = words::due(text, cursor, b"}");
    let end = words::due(text, f, b"}");
    Named {
        cursor: end,
        at: a.at,
        end: a.end,
        count,
    }
}

// PatternExec { PatternBurst NAME; } for the burst whose name stands there.
pub fn exec(text: &[u8], c: Cursor, at: usize, end: usize) -> Closed
    ensures { Goes text.now c (exec_due (token_at text.now at «end»)) result.cursor result.last }
{
    let a = words::due(text, c, b"PatternExec");
    let b = words::due(text, a, b"{");
    let d = words::due(text, b, b"PatternBurst");
    let place = [at, end];
    let x = words::old_name(text, d, &place, 1);
    let e = x.cursor;
    let f = words::due(text, e, b";");
    let cursor = words::due(text, f, b"}");
    Closed { cursor, last: f.at }
}
