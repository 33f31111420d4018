// The line and the column of a place: what an editor shows for it.
#![tactic(auto)]

ghost use Rattle.std.specs.Prelude.{◌≡◌, ◌+◌, min};
ghost use Rattle.columns.specs.Columns.{start as start_of, past as past_of, onward as onward_of, position, number_most, capped};

const LF: u8 = 10;

// Both from 1; a column is counted in bytes.
#[derive(Clone, Copy, Debug, PartialEq, Eq)]
pub struct Position {
    pub line: usize,
    pub column: usize,
}

// The position of a text's first byte.
pub fn start() -> Position
    ensures { result ≡ start_of }
{
    Position { line: 1, column: 1 }
}

// One more, as far as a number goes.
fn more(n: usize) -> usize
    ensures { result ≡ min (n + 1) number_most }
{
    n.saturating_add(1)
}

// Behind one more byte.
fn past(at: Position, b: u8) -> Position
    ensures { result ≡ capped (past_of at b) }
{
    if b == LF {
        return Position {
            line: more(at.line),
            column: 1,
        };
    }
    Position {
        line: at.line,
        column: more(at.column),
    }
}

// Behind some more bytes: whoever reads along looks at each byte once.
pub fn onward(at: Position, bytes: &[u8]) -> Position
    ensures { result ≡ capped (onward_of at bytes.now) }
{
    let mut p = at;
    for &b in bytes {
        p = past(p, b);
    }
    p
}

// The position of a place; past the text's end that of its length.
pub fn position_of(text: &[u8], place: usize) -> Position
    ensures { result ≡ position text.now place }
{
    if place < text.len() {
        return onward(start(), &text[..place]);
    }
    onward(start(), text)
}
