// Answers case lines: a line holds one call of the library, and its answer is one line of the output. A line that
// begins with # is copied, and any other that is no call is answered `not a case`. Nothing of an answer is written
// before the whole line is read. rest takes the pieces of a line, case reads a call and makes it, and telling says what
// it answers. tests/cases.md says the form of a line and of its answer.
#![tactic(auto)]

ghost use Rattle.std.specs.Prelude.{◌≤◌, length, IfOk};

use case::Case;
use std::io;
use std::io::{Read, Write};

mod case;
mod rest;
mod telling;

// Most bytes of a text, and most bytes of a line.
const MOST_OF_TEXT: usize = 2097152;

const MOST_OF_LINE: usize = 4000;

// Answers each line of the input, or only says that it is too long. The first read or write that fails ends it.
pub fn run<R: Read, W: Write>(input: &mut R, out: &mut W) -> io::Result<()> {
    let mut text = [0u8; MOST_OF_TEXT + 1];
    read(input, out, &mut text)
}

// Reads into a text that has room for one byte too many.
// Kept: fixed memory, without a heap, and an `ArrayVec` of this size asks for more of the stack than there may be.
fn read<R: Read, W: Write>(input: &mut R, out: &mut W, text: &mut [u8]) -> io::Result<()> {
    let count = read_full(input, text)?;
    if count < text.len() {
        answers(out, &text[..count])
    } else {
        writeln!(out, "too long")
    }
}

// Reads until the text is full or the input ends, and answers how many bytes it put at the front of the text.
// Kept: `io::copy` reads in pieces of its own, so that it loses the end of a longer packet, and makes a read again that
// was interrupted.
fn read_full<R: Read>(input: &mut R, text: &mut [u8]) -> io::Result<usize>
    ensures { IfOk result (λ n. n ≤ length text.new) }
{
    let mut done = 0;
    while done < text.len() {
        let count = input.read(&mut text[done..])?;
        if count == 0 {
            break;
        }
        done += count;
    }
    Ok(done)
}

// Answers each line of a text. A line ends at its newline, or with the text.
fn answers<W: Write>(out: &mut W, text: &[u8]) -> io::Result<()> {
    for line in text.split_inclusive(|&byte| byte == b'\n') {
        answer(out, line.strip_suffix(b"\n").unwrap_or(line))?;
        writeln!(out)?;
    }
    Ok(())
}

fn answer<W: Write>(out: &mut W, line: &[u8]) -> io::Result<()> {
    if line.len() <= MOST_OF_LINE {
        if line.starts_with(b"#") {
            return out.write_all(line);
        }
        if let Some(answered) = call(out, line) {
            return answered;
        }
    }
    write!(out, "not a case")
}

// Makes the call that a line is, if it is one. A function of its own, so that a line that stops before it clears no
// case.
fn call<W: Write>(out: &mut W, line: &[u8]) -> Option<io::Result<()>> {
    let mut case = Case::of(line)?;
    Some(case.answer(out))
}
