// Answers the case lines of standard input, each on standard output. They are transcribed from 01 and the papers
// (tests/papers.md).
#![tactic(auto)]

use std::io;

fn main(rt: HostRuntime) -> io::Result<()> {
    lines::run(&mut rt.stdin(), &mut rt.stdout())
}
