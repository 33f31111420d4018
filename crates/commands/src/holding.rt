// holds FILE INDEXFILE N
use crate::{answers, asked, files};
use streams::System;

fn answer(rt: &impl System, text: &[u8], bytes: &[u8], cycle: usize) {
    match services::holds(text, bytes, cycle) {
        Ok(Some(k)) => answers::pattern(rt, k),
        Ok(None) => answers::no_pattern(rt),
        Err(refusal) => answers::refused(rt, text, refusal),
    }
}

// An index that is longer than a text may be is read to one byte more, and belongs to none.
fn both(rt: &impl System, cycle: usize) {
    let mut text = streams::room();
    let Some(n) = files::text(rt, 2, &mut text) else {
        return;
    };
    let mut bytes = streams::room();
    if let Some(m) = files::text(rt, 3, &mut bytes) {
        answer(rt, &text[..n], &bytes[..m], cycle);
    }
}

pub fn holds(rt: &impl System) {
    let words = asked::given(rt);
    if words < 3 {
        return asked::missing(rt, b"FILE");
    }
    if words < 4 {
        return asked::missing(rt, b"INDEXFILE");
    }
    if words < 5 {
        return asked::missing(rt, b"N");
    }
    if !asked::no_more(rt, 5) {
        return;
    }
    if let Some(cycle) = asked::number(rt, 4) {
        both(rt, cycle);
    }
}
