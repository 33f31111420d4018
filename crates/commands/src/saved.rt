// save FILE
ghost use Rattle.std.specs.Prelude.{◌≡◌, ◌+◌, ◌*◌, ◌≤◌, length};

use crate::{answers, asked, files, split};
use streams::System;

// Two numbers for each span. A text has at most as many spans as bytes, so that all have room.
const SPANS: usize = 131_072;

// Made here alone: a caller's proof then sees the length, and not so many zeros.
fn room() -> [u64; SPANS]
    ensures { 131072 ≡ length result }
{
    [0; SPANS]
}

// A line for each of k spans, written whenever a page is half full; false where one cannot be written.
fn put_spans(rt: &impl System, spans: &[u64], k: usize) -> bool
    requires { k * 2 ≤ length spans.now }
{
    let mut space = asked::page();
    let page: &mut [u8] = &mut space;
    let mut end = 0;
    for i in 0..k {
        let Some(at) = split::emptied(rt, page, end) else {
            return false;
        };
        end = lines::span(page, at, spans[i * 2], spans[i * 2 + 1]);
    }
    let last = lines::spans(page, end, k);
    streams::write(rt, page, last)
}

fn answer(rt: &impl System, text: &mut [u8]) {
    let mut spans = room();
    match services::save(text, &mut spans) {
        Ok(k) => {
            if SPANS / 2 < k {
                return streams::broken(rt, b"more spans than a text has bytes\n");
            }
            if put_spans(rt, &spans, k) {
                streams::write(rt, text, text.len());
            }
        }
        Err(refusal) => answers::refused(rt, text, refusal),
    }
}

pub fn save(rt: &impl System) {
    let mut text = streams::room();
    files::only(rt, &mut text, |text| answer(rt, text));
}
