// Round trips as code: what a sender and a receiver call one after the other, and what comes back. That it comes back
// is a theorem of the index (crate theorems), here of the very calls. What they promise is in specs/Trips.antt.
#![tactic(auto)]

ghost use Rattle.trips.specs.Trips.{ReadBack, HardBack, CheckBack};

use answers::Matched;
use kinds::{MessageNumber, Refusal};

// Encodes a message and reads the word: the message comes back. Where encode refuses, the slice stays as it was, and is
// read so.
pub fn read_back(
    h: u32,
    m: u32,
    message: MessageNumber,
    word: &mut [u8],
) -> Result<MessageNumber, Refusal>
    ensures { ReadBack h m message.0 word.old result word.new }
{
    let _ = encoder::encode(h, m, message, word);
    reader::read(h, m, word)
}

// Encodes a message and decodes the word: the message comes back at distance 0, not tied. Eight phases are refused 6
// by the decoder. Where encode refuses, the slice stays as it was, and is decoded so.
// Kept: it and `read_back` call one function after the other; with a closure for the second, the promise would speak of
// what that gives.
pub fn hard_back(h: u32, m: u32, message: MessageNumber, word: &mut [u8]) -> Matched
    ensures { HardBack h m message.0 word.old result word.new }
{
    let _ = encoder::encode(h, m, message, word);
    decoder::hard(h, m, word)
}

// Writes a message's word and its partner, and checks them: they are a pair. Where encode or partner refuses, its slice
// stays as it was, and is checked so.
pub fn check_back(
    h: u32,
    m: u32,
    message: MessageNumber,
    word: &mut [u8],
    other: &mut [u8],
) -> Result<bool, Refusal>
    ensures { CheckBack h m message.0 word.old other.old result
        word.new other.new }
{
    let _ = encoder::encode(h, m, message, word);
    let _ = encoder::partner(h, m, message, other);
    pair::check(h, m, word, other)
}
