// fold FILE
use commands::{answers, files};
use streams::System;

fn answer(rt: &impl System, text: &[u8]) {
    let mut page = streams::room();
    match flats::fold(text, &mut page) {
        Ok(n) => {
            streams::write(rt, &page, n);
        }
        Err(refusal) => answers::refused(rt, text, refusal),
    }
}

pub fn fold(rt: &impl System) {
    let mut text = streams::room();
    files::only(rt, &mut text, |text| answer(rt, text));
}
