// list FILE
use commands::files;
use streams::System;

pub fn list(rt: &impl System) {
    let mut text = streams::room();
    files::only(rt, &mut text, |text| listing::list(rt, text));
}
