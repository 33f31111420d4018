// Asks files of STIL test patterns: the command lines of docs/COMMANDS.md.
#![tactic(auto)]

mod failed;
mod flattened;
mod listed;
mod shown;

use commands::{answers, asked, checked, holding, named, rebuilt, saved, shaped, split, stored};
use streams::System;

fn help(rt: &impl System) {
    if asked::no_more(rt, 2) {
        answers::help(rt);
    }
}

// Is it a command? Then it is answered.
fn answered(rt: &impl System, command: &[u8]) -> bool {
    match command {
        b"check" => checked::check(rt),
        b"name" => named::name(rt),
        b"window" => shown::window(rt),
        b"waveform" => shaped::waveform(rt),
        b"tokens" => split::tokens(rt),
        b"intake" => stored::intake(rt),
        b"index" => rebuilt::index(rt),
        b"holds" => holding::holds(rt),
        b"list" => listed::list(rt),
        b"save" => saved::save(rt),
        b"fold" => flattened::fold(rt),
        b"report" => failed::report(rt),
        b"help" => help(rt),
        _ => return false,
    }
    true
}

fn main(rt: HostRuntime) {
    if asked::given(&rt) < 2 {
        return asked::missing(&rt, b"command");
    }
    let mut word = asked::word();
    let n = asked::put_word(&rt, 1, &mut word);
    if !answered(&rt, &word[..n]) {
        asked::fault(&rt, b"no such command", &word[..n]);
    }
}
