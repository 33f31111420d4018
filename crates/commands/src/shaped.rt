// waveform FILE TABLE SIGNAL CHARACTER
ghost use Rattle.std.specs.Prelude.{◌≡◌, ◌≤◌, length};

use crate::{answers, asked, files};
use streams::System;

// EVENTS k, and a line for each event; where the last ends.
fn put_events(page: &mut [u8], times: &[u64], letters: &[u8], k: usize) -> usize
    requires { (length page.old ≡ 262144) × (length times.now ≡ 16) × (length letters.now ≡ 16) × (k ≤ 16) }
{
    let mut end = lines::events(page, 0, k);
    for i in 0..k {
        end = lines::event(page, end, times[i], letters[i]);
    }
    end
}

fn events(rt: &impl System, times: &[u64], letters: &[u8], k: usize)
    requires { (length times.now ≡ 16) × (length letters.now ≡ 16) }
{
    if waves::EVENTS < k {
        return streams::broken(rt, b"more events than a waveform has\n");
    }
    answers::line(rt, |page| put_events(page, times, letters, k));
}

fn answer(rt: &impl System, text: &[u8], table: usize, signal: usize, char: u8) {
    let mut times = [0u64; waves::EVENTS];
    let mut letters = [0u8; waves::EVENTS];
    match services::waveform(text, table, signal, char, &mut times, &mut letters) {
        Ok(k) => events(rt, &times, &letters, k),
        Err(refusal) => answers::refused(rt, text, refusal),
    }
}

fn file(rt: &impl System, table: usize, signal: usize) {
    let Some(char) = asked::byte(rt, 5) else {
        return;
    };
    let mut text = streams::room();
    if let Some(n) = files::text(rt, 2, &mut text) {
        answer(rt, &text[..n], table, signal, char);
    }
}

fn numbers(rt: &impl System) {
    let Some(table) = asked::number(rt, 3) else {
        return;
    };
    if let Some(signal) = asked::number(rt, 4) {
        file(rt, table, signal);
    }
}

pub fn waveform(rt: &impl System) {
    let words = asked::given(rt);
    if words < 3 {
        return asked::missing(rt, b"FILE");
    }
    if words < 4 {
        return asked::missing(rt, b"TABLE");
    }
    if words < 5 {
        return asked::missing(rt, b"SIGNAL");
    }
    if words < 6 {
        return asked::missing(rt, b"CHARACTER");
    }
    if asked::no_more(rt, 6) {
        numbers(rt);
    }
}
