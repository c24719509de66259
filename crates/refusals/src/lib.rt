// What each call refuses, and in which order: document 01 "When the receiver says no". These functions only ask. Each
// answers the refusal that rules, specs/Refusal.antt, has for its call, or that there is none; the call asks it, and
// then works.
// Each goes down the tests of its call, the first of them first; a new one is a line between two others. A slice is
// looked through only where nothing is refused before; each test says what it says of every argument.
#![tactic(auto)]

mod table;

ghost use Rattle.std.specs.Prelude.{◌≡◌, length};
ghost use Rattle.rules.specs.Refusal.{send_refusal, pair_refusal, word_refusal, soft_refusal, hard_refusal};
ghost use Rattle.rules.specs.Refusal.{transform_refusal};
ghost use Rattle.kinds.specs.Refusals.{judged_told};

use kinds::{MessageNumber, Refusal, Which};

// Encode and partner, with n places for output: 1, 2, 4.
pub fn send(h: u32, m: u32, n: usize, message: MessageNumber) -> Result<(), Refusal>
    ensures { judged_told result ≡ send_refusal h m n message.0 }
{
    table::shape(h, m)?;
    table::length(n, m)?;
    table::message(h, m, message)
}

// The pair check: 1, 2 for either word, 3 in the first word, 3 in the second.
pub fn pair(h: u32, m: u32, first: &[u8], second: &[u8]) -> Result<(), Refusal>
    ensures { judged_told result ≡ pair_refusal h m first.now second.now }
{
    table::shape(h, m)?;
    table::lengths(first.len(), second.len(), m)?;
    table::symbols_in(Which(1), h, first)?;
    table::symbols_in(Which(2), h, second)
}

// Word reading, before it looks for a message: 1, 2, 3.
pub fn word(h: u32, m: u32, word: &[u8]) -> Result<(), Refusal>
    ensures { judged_told result ≡ word_refusal h m word.now }
{
    table::shape(h, m)?;
    table::length(word.len(), m)?;
    table::symbols(h, word)
}

// Soft decoding: 1, 6, 2.
pub fn soft(h: u32, m: u32, values: &[i16]) -> Result<(), Refusal>
    ensures { judged_told result ≡ soft_refusal h m values.now }
{
    table::shape(h, m)?;
    table::octary(h)?;
    table::soft_length(values.len(), h, m)
}

// Hard decoding: 1, 6, 2, 3.
pub fn hard(h: u32, m: u32, word: &[u8]) -> Result<(), Refusal>
    ensures { judged_told result ≡ hard_refusal h m word.now }
{
    table::shape(h, m)?;
    table::octary(h)?;
    table::length(word.len(), m)?;
    table::symbols(h, word)
}

// The transform of these areas as they stand: 1 of m alone, 2 for either area, 7. The areas are only read.
pub fn transform(m: u32, first: &[i32], second: &[i32]) -> Result<(), Refusal>
    ensures { judged_told result ≡ transform_refusal m first.now (length second.now) }
{
    table::m_alone(m)?;
    table::areas(first.len(), second.len(), m)?;
    table::values(m, first)
}
