// check FILE..
ghost use Rattle.std.specs.Prelude.{◌≡◌, ◌+◌, ◌≤◌, ◌<◌, length};

use crate::{answers, asked, files};
use streams::System;

#[derive(Clone, Copy)]
enum Found {
    Good,
    Hurt,
    Unread,
}

// How many files were found so.
#[derive(Clone, Copy)]
struct Tally {
    good: usize,
    hurt: usize,
    unread: usize,
}

// ---- one file

// What was found of a file, whose line was written.
fn unread(rt: &impl System, file: &[u8]) -> Option<Found>
    requires { length file.now ≤ 131072 }
{
    answers::line(rt, |page| lines::unread(page, 0, file)).then_some(Found::Unread)
}

fn judged(rt: &impl System, file: &[u8], text: &[u8]) -> Option<Found>
    requires { length file.now ≤ 131072 }
{
    match services::check(text) {
        Ok(c) => answers::line(rt, |page| {
            lines::good(
                page, 0, file, c.signals, c.tables, c.listed, c.cycles, c.size,
            )
        })
        .then_some(Found::Good),
        Err(refusal) => answers::line(rt, |page| {
            lines::hurt(page, 0, file, text, refusal.no, refusal.place)
        })
        .then_some(Found::Hurt),
    }
}

// The file that word i names.
fn told_of(rt: &impl System, i: usize) -> Option<Found> {
    let mut word = asked::word();
    let n = asked::put_word(rt, i, &mut word);
    let mut text = streams::room();
    match files::read(rt, &word[..n], &mut text) {
        Some(k) => judged(rt, &word[..n], &text[..k]),
        None => unread(rt, &word[..n]),
    }
}

// ---- all files

fn added(t: Tally, found: Found) -> Tally
    requires { t.good + t.hurt + t.unread < 18446744073709551615 }
    ensures { result.good + result.hurt + result.unread ≡ t.good + t.hurt + t.unread + 1 }
{
    match found {
        Found::Good => Tally {
            good: t.good + 1,
            ..t
        },
        Found::Hurt => Tally {
            hurt: t.hurt + 1,
            ..t
        },
        Found::Unread => Tally {
            unread: t.unread + 1,
            ..t
        },
    }
}

fn sum(rt: &impl System, t: Tally) {
    answers::line(rt, |page| lines::sum(page, 0, t.good, t.hurt, t.unread));
}

pub fn check(rt: &impl System) {
    let words = asked::given(rt);
    let watched = streams::is_watched(rt);
    let mut tally = Tally {
        good: 0,
        hurt: 0,
        unread: 0,
    };
    for i in 2..words {
        let Some(found) = told_of(rt, i) else {
            return;
        };
        tally = added(tally, found);
        if watched {
            streams::progress(rt, i - 1, words - 2);
        }
    }
    sum(rt, tally);
}
