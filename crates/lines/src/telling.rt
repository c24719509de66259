// What the calls answer, as text:
//   encode, partner     done WORD | refused K WORD
//   pair                yes | no | refused K | refused 3 at place P of word W
//   read                message G | refused K | refused 3 at place P
//   hard                message G distance D tied | message G distance D not tied | refused K | refused 3 at place P
//   soft                message G correlation C tied | message G correlation C not tied | refused K
// and behind what transform, run and look answer (case) ` areas LIST LIST`, both areas after the call.
use answers::Found;
use kinds::Refusal;
use show::{List, Message, Refused, Tie, Word};
use std::io::Write;
use std::{fmt, io};

// What a call answers, or its refusal.
pub(super) fn tell<W: Write>(
    out: &mut W,
    answer: Result<impl fmt::Display + Drop, Refusal>,
) -> io::Result<()> {
    match answer {
        Ok(found) => write!(out, "{found}"),
        Err(why) => write!(out, "{}", Refused(why)),
    }
}

// What encode or partner answers, with what the slice holds after the call.
pub(super) fn tell_sent<W: Write>(
    out: &mut W,
    answer: Result<(), Refusal>,
    word: &[u8],
) -> io::Result<()> {
    tell(out, answer.map(|()| "done"))?;
    write!(out, " [{}]", Word(word))
}

// What a decoder answers, with the name of its value between spaces: each piece of an answer is a write of its own.
pub(super) fn tell_found<W: Write>(
    out: &mut W,
    name: &str,
    answer: Result<Found<impl fmt::Display + Drop>, Refusal>,
) -> io::Result<()> {
    match answer {
        Ok(found) => write!(
            out,
            "{}{name}{}{}",
            Message(found.message),
            found.value,
            Tie(found.tied)
        ),
        Err(why) => write!(out, "{}", Refused(why)),
    }
}

pub(super) fn tell_areas<W: Write>(out: &mut W, first: &[i32], second: &[i32]) -> io::Result<()> {
    write!(out, " areas [{}] [{}]", List(first), List(second))
}
