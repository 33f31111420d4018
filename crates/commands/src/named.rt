// name FILE signal N, name FILE table N
ghost use Rattle.std.specs.Prelude.{◌≤◌, length};

use crate::{answers, asked, files};
use streams::System;
use verdicts::Name;

fn line(rt: &impl System, text: &[u8], name: Name)
    requires { length text.now ≤ 65537 }
{
    if text.len() < name.length {
        return streams::broken(rt, b"a name longer than the text\n");
    }
    if text.len() - name.length < name.at {
        return streams::broken(rt, b"a name past the text\n");
    }
    let word = &text[name.at..name.at + name.length];
    answers::line(rt, |page| lines::name(page, 0, word, name.at));
}

fn answer(rt: &impl System, text: &[u8], table: bool, number: usize)
    requires { length text.now ≤ 65537 }
{
    match services::name(text, table, number) {
        Ok(name) => line(rt, text, name),
        Err(refusal) => answers::refused(rt, text, refusal),
    }
}

fn file(rt: &impl System) {
    let Some(table) = asked::is_table(rt, 3) else {
        return;
    };
    let Some(number) = asked::number(rt, 4) else {
        return;
    };
    let mut text = streams::room();
    if let Some(n) = files::text(rt, 2, &mut text) {
        answer(rt, &text[..n], table, number);
    }
}

pub fn name(rt: &impl System) {
    let words = asked::given(rt);
    if words < 3 {
        return asked::missing(rt, b"FILE");
    }
    if words < 4 {
        return asked::missing(rt, b"signal or table");
    }
    if words < 5 {
        return asked::missing(rt, b"N");
    }
    if asked::no_more(rt, 5) {
        file(rt);
    }
}
