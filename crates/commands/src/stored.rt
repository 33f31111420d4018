// intake FILE
use crate::{answers, files};
use streams::System;

// What the intake stores of a raw text.
fn answer(rt: &impl System, raw: &[u8]) {
    let mut store = streams::room();
    let taken = intake::take(intake::begin(), raw, &mut store);
    match intake::close(taken, &mut store) {
        Ok(n) => {
            streams::write(rt, &store, n);
        }
        Err(refusal) => answers::refused(rt, raw, refusal),
    }
}

pub fn intake(rt: &impl System) {
    let mut raw = streams::raw();
    files::only(rt, &mut raw, |raw| answer(rt, raw));
}
