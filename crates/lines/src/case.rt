// A case, which is a call of the library, as a line has it:
//   encode H M MESSAGE WORD     the word given is what the slice holds before
//   partner H M MESSAGE WORD
//   pair H M WORD WORD
//   read H M WORD
//   hard H M WORD
//   soft H M LIST
//   transform M LIST LIST       the lists given are both areas before
//   run M LIST LIST
//   look M LIST LIST
// transform answers part LIST, refused K or refused 7 at place P; run C, how many entries; look T and O, what the
// caller sees. The other answers: telling.
use crate::rest::{Rest, Row};
use crate::telling::{tell, tell_areas, tell_found, tell_sent};
use kinds::MessageNumber;
use show::{List, Message, Refused};
use std::io;
use std::io::Write;

#[derive(Drop)]
pub enum Case {
    Encode(u32, u32, MessageNumber, Row<u8>),
    Partner(u32, u32, MessageNumber, Row<u8>),
    Pair(u32, u32, Row<u8>, Row<u8>),
    Read(u32, u32, Row<u8>),
    Hard(u32, u32, Row<u8>),
    Soft(u32, u32, Row<i16>),
    Transform(u32, Row<i32>, Row<i32>),
    Run(u32, Row<i32>, Row<i32>),
    Look(u32, Row<i32>, Row<i32>),
}

impl Case {
    // The case that a line is, if it is one.
    pub(super) fn of(line: &[u8]) -> Option<Case> {
        let rest = &mut Rest::of(line);
        let case = match rest.name() {
            b"encode" => Case::sent(rest, Case::Encode),
            b"partner" => Case::sent(rest, Case::Partner),
            b"pair" => Case::words(rest, Case::Pair),
            b"read" => Case::word(rest, Case::Read),
            b"hard" => Case::word(rest, Case::Hard),
            b"soft" => Case::values(rest, Case::Soft),
            b"transform" => Case::areas(rest, Case::Transform),
            b"run" => Case::areas(rest, Case::Run),
            b"look" => Case::areas(rest, Case::Look),
            _ => None,
        };
        if rest.is_empty() { case } else { None }
    }

    // What stands behind a name, in its forms; `kind` makes the case of it. Each is a function of its own, so that a
    // line clears the rows of its own form alone.
    fn sent<K: FnOnce(u32, u32, MessageNumber, Row<u8>) -> Case>(
        rest: &mut Rest,
        kind: K,
    ) -> Option<Case>
        requires { K.IsAlwaysCallable kind }
    {
        Some(kind(
            rest.number()?,
            rest.number()?,
            rest.message()?,
            rest.word()?,
        ))
    }

    fn words<K: FnOnce(u32, u32, Row<u8>, Row<u8>) -> Case>(
        rest: &mut Rest,
        kind: K,
    ) -> Option<Case>
        requires { K.IsAlwaysCallable kind }
    {
        Some(kind(rest.number()?, rest.number()?, rest.word()?, rest.word()?))
    }

    fn word<K: FnOnce(u32, u32, Row<u8>) -> Case>(rest: &mut Rest, kind: K) -> Option<Case>
        requires { K.IsAlwaysCallable kind }
    {
        Some(kind(rest.number()?, rest.number()?, rest.word()?))
    }

    fn values<K: FnOnce(u32, u32, Row<i16>) -> Case>(rest: &mut Rest, kind: K) -> Option<Case>
        requires { K.IsAlwaysCallable kind }
    {
        Some(kind(rest.number()?, rest.number()?, rest.list()?))
    }

    fn areas<K: FnOnce(u32, Row<i32>, Row<i32>) -> Case>(rest: &mut Rest, kind: K) -> Option<Case>
        requires { K.IsAlwaysCallable kind }
    {
        Some(kind(rest.number()?, rest.list()?, rest.list()?))
    }

    // Makes the call, and writes its answer.
    pub(super) fn answer<W: Write>(&mut self, out: &mut W) -> io::Result<()> {
        match self {
            Case::Encode(h, m, message, word) => {
                let sent = encoder::encode(*h, *m, *message, word);
                tell_sent(out, sent, word)
            }
            Case::Partner(h, m, message, word) => {
                let sent = encoder::partner(*h, *m, *message, word);
                tell_sent(out, sent, word)
            }
            Case::Pair(h, m, first, second) => {
                let checked = pair::check(*h, *m, first, second);
                tell(out, checked.map(|pair| if pair { "yes" } else { "no" }))
            }
            Case::Read(h, m, word) => tell(out, reader::read(*h, *m, word).map(Message)),
            Case::Hard(h, m, word) => tell_found(out, " distance ", decoder::hard(*h, *m, word)),
            Case::Soft(h, m, values) => tell_found(
                out,
                " correlation ",
                decoder::soft(*h, *m, values),
            ),
            Case::Transform(m, first, second) => {
                let judged = refusals::transform(*m, first, second);
                let part = List(transform::transform(*m, first, second));
                match judged {
                    Ok(()) => write!(out, "part [{part}]")?,
                    Err(why) => write!(out, "{}", Refused(why))?,
                }
                tell_areas(out, first, second)
            }
            Case::Run(m, first, second) => {
                write!(out, "{}", transform::run(*m, first, second))?;
                tell_areas(out, first, second)
            }
            Case::Look(m, first, second) => {
                let seen = caller::look(*m, first, second);
                write!(out, "{} and {}", seen.total, seen.kept)?;
                tell_areas(out, first, second)
            }
        }
    }
}
