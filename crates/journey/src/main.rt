// Follows one message through the library: its word, its partner, the pair check, and the reading of the word; then the
// word with two symbols changed, which is refused in reading and found by hard decoding; then soft values of the word
// with noise, and soft decoding. Document 01: "What a logger may send", "The partner and the pair check", "What the
// receiver hears". The word is the last starred one of 01's "Known words" for h = 2 and m = 4.
#![tactic(auto)]

use answers::Found;
use kinds::{MessageNumber, Refusal};
use shape::Shape;
use show::{List, Message, Refused, Tie, Word};
use std::io::Write;
use std::{fmt, io};
use tones::Channel;

const H: u32 = 2;

const M: u32 = 4;

const MESSAGE: MessageNumber = MessageNumber(5120);

// What a receiver could hear of the word: the noise can be greater than what it is added to.
const CHANNEL: Channel = Channel {
    level: 1000,
    noise: 1200,
    seed: 7,
};

fn main(rt: HostRuntime) -> io::Result<()> {
    let out = &mut rt.stdout();
    let mut word = [0u8; 16];
    let mut other = [0u8; 16];
    tell_shape(out)?;
    tell_word(out, &mut word)?;
    tell_partner(out, &mut other)?;
    tell_pair(out, &word, &other)?;
    tell_reading(out, &word)?;
    let mut y = [0i16; 32];
    tones::hear(CHANNEL, &word, &mut y);
    word[7] = 1;
    word[12] = 2;
    writeln!(
        out,
        "the same word, changed at places 7 and 12: {}",
        Word(&word)
    )?;
    tell_reading(out, &word)?;
    tell_nearest(out, &word)?;
    writeln!(
        out,
        "soft values of the word at level 1000, with noise up to 1200: [ {} ]",
        List(&y)
    )?;
    tell_loudest(out, &y)
}

// The shape, and what follows from it: 2^h phases and 2^m carriers.
fn tell_shape<W: Write>(out: &mut W) -> io::Result<()> {
    let shape = Shape { h: H, m: M };
    let phases = shape.phases();
    let carriers = shape.carriers();
    writeln!(
        out,
        "shape: h = {H}, m = {M}: {phases} phases, {carriers} carriers"
    )
}

// Encodes the message.
fn tell_word<W: Write>(out: &mut W, word: &mut [u8]) -> io::Result<()> {
    write!(out, "{} as a word: ", Message(MESSAGE))?;
    let sent = encoder::encode(H, M, MESSAGE, word);
    tell(out, sent.map(|()| Word(word)))
}

// Writes the partner of the message's word.
fn tell_partner<W: Write>(out: &mut W, word: &mut [u8]) -> io::Result<()> {
    write!(out, "the partner of that word: ")?;
    let sent = encoder::partner(H, M, MESSAGE, word);
    tell(out, sent.map(|()| Word(word)))
}

// Checks whether the two words are a Golay pair.
fn tell_pair<W: Write>(out: &mut W, first: &[u8], second: &[u8]) -> io::Result<()> {
    write!(out, "are the two a Golay pair? ")?;
    let checked = pair::check(H, M, first, second);
    tell(out, checked.map(|pair| if pair { "yes" } else { "no" }))
}

// Reads a word back.
fn tell_reading<W: Write>(out: &mut W, word: &[u8]) -> io::Result<()> {
    write!(out, "read back: ")?;
    tell(out, reader::read(H, M, word).map(Message))
}

// Decodes symbols.
fn tell_nearest<W: Write>(out: &mut W, word: &[u8]) -> io::Result<()> {
    write!(out, "hard decoding: ")?;
    tell_found(out, " at distance ", decoder::hard(H, M, word))
}

// Decodes soft values.
// Kept: it and `tell_nearest` say a sentence each, over one `tell_found`.
fn tell_loudest<W: Write>(out: &mut W, y: &[i16]) -> io::Result<()> {
    write!(out, "soft decoding: ")?;
    tell_found(out, " with correlation ", decoder::soft(H, M, y))
}

// What a call answers, to the end of the line.
fn tell<W: Write>(
    out: &mut W,
    answer: Result<impl fmt::Display + Drop, Refusal>,
) -> io::Result<()> {
    match answer {
        Ok(found) => writeln!(out, "{found}"),
        Err(why) => tell_refusal(out, why),
    }
}

// What a decoder answers, with the name of its value between spaces.
fn tell_found<W: Write>(
    out: &mut W,
    name: &str,
    answer: Result<Found<impl fmt::Display + Drop>, Refusal>,
) -> io::Result<()> {
    match answer {
        Ok(found) => writeln!(
            out,
            "{}{name}{},{}",
            Message(found.message),
            found.value,
            Tie(found.tied)
        ),
        Err(why) => tell_refusal(out, why),
    }
}

// A refusal by its number and place, and in words.
fn tell_refusal<W: Write>(out: &mut W, why: Refusal) -> io::Result<()> {
    writeln!(out, "{}: {why}", Refused(why))
}
