// index FILE
use crate::{answers, asked, files};
use streams::System;

fn answer(rt: &impl System, text: &[u8]) {
    let mut page = asked::page();
    match services::index(text, &mut page) {
        Ok(n) => {
            streams::write(rt, &page, n);
        }
        Err(refusal) => answers::refused(rt, text, refusal),
    }
}

pub fn index(rt: &impl System) {
    let mut text = streams::room();
    files::only(rt, &mut text, |text| answer(rt, text));
}
