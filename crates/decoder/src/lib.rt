// Soft and hard decoding for two and four phases: document 01 "What the receiver hears".
// Each call turns what it received into a table of gains, natural numbers that are greater where a symbol fits better
// (totals, specs/Gains.antt), and has the engine find the label of greatest total. Equals go to the earliest label.
// The search is one for both; what differs is what is received (received.rt): soft values, or symbols. The answers, and
// what the contracts cite of them, stand in the crate answers.
#![tactic(auto)]

mod received;
mod soft_values;
mod symbols;

ghost use Rattle.answers.specs.Decoded.{Hears, Matches};

use crate::received::decode;
use crate::soft_values::Soft;
use crate::symbols::Hard;
use answers::{Heard, Matched};
use shape::Shape;

// The message of greatest correlation with the values, its correlation, and whether another word has it too. Refuses 1
// a shape out of range, 6 eight phases, 2 values that are not N for two phases and 2N for four. The values are only
// read.
pub fn soft(h: u32, m: u32, values: &[i16]) -> Heard
    ensures { Hears h m values.now result }
{
    refusals::soft(h, m, values)?;
    let shape = Shape { h, m };
    Ok(decode(&Soft { shape, values }))
}

// The message of the word nearest to the symbols, its distance, and whether another word has it too. Refuses 1 a shape
// out of range, 6 eight phases, 2 a word that is not N long, 3 a symbol that is 2^h or more, with the first such place.
// The word is only read.
// Kept: two of 01's calls by name, and one function, `decode`, of both.
pub fn hard(h: u32, m: u32, word: &[u8]) -> Matched
    ensures { Matches h m word.now result }
{
    refusals::hard(h, m, word)?;
    let shape = Shape { h, m };
    Ok(decode(&Hard { shape, word }))
}
