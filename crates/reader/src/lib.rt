// Word reading: document 01 "What the receiver hears". The coefficients are read off the word, and what is left is
// compared with the paths in use, so that not every message is tried. Contracts cite specs/Reading.antt and Shown.antt.
#![tactic(auto)]

ghost use Rattle.std.specs.Prelude.{◌<◌, ◌≡◌, ◌↔◌, IsTrue, MatchOption};
ghost use Rattle.std.proofs.Math.Option.{none, some};
ghost use Rattle.rules.specs.Shape.{messages};
ghost use Rattle.rules.specs.Word.{word_of};
ghost use Rattle.rules.specs.Table.{message_with};
ghost use Rattle.rules.specs.Symbols.{Symbols};
ghost use Rattle.rules.specs.Refusal.{read_outcome};
ghost use Rattle.reader.specs.Reading.{reading_told};
ghost use Rattle.reader.specs.Shown.{low_of};

use kinds::{MessageNumber, Refusal};
use shape::{PLACES, Shape};

// The message whose word the symbols are exactly. Refuses 1 a shape out of range, 2 a word that is not N long, 3 a
// symbol that is 2^h or more, with the first such place, 5 symbols that are no message's word. The word is only read.
pub fn read(h: u32, m: u32, word: &[u8]) -> Result<MessageNumber, Refusal>
    ensures { reading_told result ≡ read_outcome h m word.now }
{
    refusals::word(h, m, word)?;
    let shape = Shape { h, m };
    let candidate = Candidate { shape, word };
    candidate.search().ok_or(Refusal::NoWord)
}

// Symbols that could be a word: as many as the shape has places, each below 2^h.
#[derive(Clone, Copy)]
struct Candidate<'a> {
    shape: Shape,
    word: &'a [u8],
    ghost symbols: { Symbols shape.h shape.m word.now },
}

impl<'a> Candidate<'a> {
    // The message whose word the symbols are: tries the label that they show with each path in use.
    fn search(&self) -> Option<MessageNumber>
        ensures { MatchOption result (message_with self.now.shape.h self.now.shape.m self.now.word.now ≡ none)
            (λ g. message_with self.now.shape.h self.now.shape.m self.now.word.now ≡ some g.0) }
    {
        let Shape { h, m } = self.shape;
        let step = shape::power(h * (m + 1));
        let uses = self.shape.paths_in_use();
        let low = self.low();
        for n in 0..uses {
            let message = shape::message_of(h, m, n * step + low);
            if self.is_word(message) {
                return Some(message);
            }
        }
        None
    }

    // Whether the symbols are the message's word. Encode refuses nothing here: shape, length and message are in order.
    fn is_word(&self, message: MessageNumber) -> bool
        requires { message.0 < messages self.now.shape.h self.now.shape.m }
        ensures { IsTrue result ↔ (word_of self.now.shape.h self.now.shape.m message.0 ≡ self.now.word.now) }
    {
        let n = self.word.len();
        // Kept: fixed memory, without a heap, of which a slice is lent.
        let mut buffer = [0u8; PLACES];
        let out = &mut buffer[..n];
        encoder::encode(self.shape.h, self.shape.m, message, out).unwrap();
        &*out == self.word
    }

    // The label number that the symbols show, with path number 0.
    fn low(&self) -> u64
        ensures { result ≡ low_of self.now.shape.h self.now.shape.m self.now.word.now }
    {
        let q = self.shape.phases();
        let m = self.shape.m;
        let mut number = 0;
        for k in 0..m {
            let at = shape::power(m - 1 - k) as usize;
            number = number * q + shape::minus(q, self.word[at], self.word[0]);
        }
        number * q + u64::from(self.word[0])
    }
}
