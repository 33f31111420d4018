// A reader that holds a text and a place: the token rules alone, for other tools.
#![tactic(auto)]

ghost use Rattle.std.specs.Prelude.{◌≡◌};
ghost use Rattle.reader.specs.Pass.{seen as seen_of, standing, passed};

use columns::Position;
use tokens::{Refusal, Token};

// The position is that of the place, moved on with it: each byte is counted once. Whatever it is, reading goes on from it.
#[derive(Clone, Copy)]
pub struct Reader<'a> {
    pub text: &'a [u8],
    pub at: usize,
    pub position: Position,
}

// A token, with the line and the column of its first byte.
#[derive(Clone, Copy, Debug, PartialEq, Eq)]
pub struct Seen {
    pub token: Token,
    pub position: Position,
}

// A reader of a text, at its start.
pub fn new<'a>(text: &'a [u8]) -> Reader<'a>
    ensures { result ≡ standing text.entry 0 }
{
    Reader {
        text,
        at: 0,
        position: columns::start(),
    }
}

// The same text from another place on, also from past its end.
pub fn moved<'a>(r: Reader<'a>, at: usize) -> Reader<'a>
    ensures { result ≡ standing r.entry.text at }
{
    Reader {
        text: r.text,
        at,
        position: columns::position_of(r.text, at),
    }
}

// The next token, as if reading began at the reader's place.
pub fn next<'a>(r: Reader<'a>) -> Result<Option<Seen>, Refusal>
    ensures { result ≡ seen_of r.entry.text.now r.entry.at r.entry.position }
{
    let mut ahead = r;
    pass(&mut ahead)
}

// The next token, which the reader passes: a loop over this goes through all tokens. Where there is none, or a refusal, the reader stays.
pub fn pass<'s, 'a>(r: &'s mut Reader<'a>) -> Result<Option<Seen>, Refusal>
    ensures { (result ≡ seen_of r.old.text.now r.old.at r.old.position) × (r.new ≡ passed r.old) }
{
    let text = r.text;
    let Some(token) = tokens::next_token(text, r.at)? else {
        return Ok(None);
    };
    let position = columns::onward(r.position, &text[r.at..token.at]);
    let behind = token.at + token.length;
    r.at = behind;
    r.position = columns::onward(position, &text[token.at..behind]);
    Ok(Some(Seen { token, position }))
}
