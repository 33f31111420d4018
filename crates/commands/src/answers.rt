// The one line of an answer, to standard output.
ghost use Rattle.std.specs.Prelude.{◌≡◌, length};

use crate::asked;
use streams::System;
use tokens::Refusal;

// The line that `put` puts at the front of a page, giving where it ends; false where it cannot be written.
pub fn line<F: FnOnce(&mut [u8]) -> usize>(rt: &impl System, put: F) -> bool
    requires { (page : _) → length page.now ≡ 262144 → F.pre put page }
{
    let mut page = asked::page();
    let end = put(&mut page);
    streams::write(rt, &page, end)
}

pub fn refused(rt: &impl System, text: &[u8], refusal: Refusal) {
    line(rt, |page| {
        sections::refusal(page, 0, text, refusal.no, refusal.place)
    });
}

pub fn visits(rt: &impl System, v: usize) {
    line(rt, |page| lines::visits(page, 0, v));
}

pub fn pattern(rt: &impl System, k: usize) {
    line(rt, |page| lines::pattern(page, 0, k));
}

pub fn no_pattern(rt: &impl System) {
    line(rt, |page| lines::no_pattern(page, 0));
}

pub fn help(rt: &impl System) {
    line(rt, |page| lines::help(page, 0));
}
