// tokens FILE
ghost use Rattle.std.specs.Prelude.{◌+◌, ◌≤◌, IfSome, length};

use crate::{asked, files};
use streams::System;
use tokens::Refusal;

// What is written once it stands on the page so far.
const HALF: usize = 131_072;

// Where the next line begins: a page that is half full is written. None where it cannot be.
pub fn emptied(rt: &impl System, page: &[u8], end: usize) -> Option<usize>
    ensures { IfSome result (λ at. at ≤ 131072) }
{
    if end < HALF {
        return Some(end);
    }
    streams::write(rt, page, end).then_some(0)
}

fn count(rt: &impl System, page: &mut [u8], end: usize, k: usize)
    requires { end + 128 ≤ length page.old }
{
    let last = lines::tokens(page, end, k);
    streams::write(rt, page, last);
}

fn refused(rt: &impl System, page: &mut [u8], end: usize, text: &[u8], refusal: Refusal)
    requires { end + 128 ≤ length page.old }
{
    let last = sections::refusal(page, end, text, refusal.no, refusal.place);
    streams::write(rt, page, last);
}

// A line for each token, up to the first refusal.
fn answer(rt: &impl System, text: &[u8])
    requires { length text.now ≤ 65537 }
{
    let mut space = asked::page();
    let page: &mut [u8] = &mut space;
    let mut end = 0;
    let mut at = 0;
    let mut k = 0;
    loop {
        match tokens::next_token(text, at) {
            Ok(Some(token)) => {
                let Some(next) = emptied(rt, page, end) else {
                    return;
                };
                at = token.at + token.length;
                k += 1;
                end = lines::token(page, next, token.at, &text[token.at..at]);
            }
            Ok(None) => {
                return count(rt, page, end, k);
            }
            Err(refusal) => {
                return refused(rt, page, end, text, refusal);
            }
        }
    }
}

pub fn tokens(rt: &impl System) {
    let mut text = streams::room();
    files::only(rt, &mut text, |text| answer(rt, text));
}
