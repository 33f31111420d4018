// A text from standard input, and its listing (document 01).
#![tactic(auto)]

fn main(rt: HostRuntime) {
    let mut text = streams::room();
    match streams::fill(&mut rt.stdin(), &mut text) {
        Ok(n) => listing::list(&rt, &text[..n]),
        Err(error) => streams::fail(&rt, b"standard input", error),
    }
}
