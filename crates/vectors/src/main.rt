// Answers the case lines of standard input, each on standard output. They are made by the second program
// (tests/second).
// Kept: this and papers are two programs, each with cases of its own to read and an answer to each of its own.
#![tactic(auto)]

use std::io;

fn main(rt: HostRuntime) -> io::Result<()> {
    lines::run(&mut rt.stdin(), &mut rt.stdout())
}
