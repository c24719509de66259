// What decoding answers: the message that is found, its correlation or its distance, and whether it is tied, or the
// refusal. Every decoder answers in these, however it searches: document 01 "What the receiver hears". What each says
// in the document's terms, and the promises over it, are definitions in specs/Decoded.antt.
#![tactic(auto)]

use kinds::{MessageNumber, Refusal};

// The message of the best word, its value, and whether another word has the value too.
#[derive(Clone, Copy, Debug, PartialEq, Eq, Hash)]
pub struct Found<V> {
    pub message: MessageNumber,
    pub value: V,
    pub tied: bool,
}

// The word of greatest correlation, which is its value.
pub type Loudest = Found<i32>;

// The nearest word, with its distance as value.
pub type Closest = Found<u32>;

// The answer of soft decoding.
pub type Heard = Result<Loudest, Refusal>;

// The answer of hard decoding.
pub type Matched = Result<Closest, Refusal>;
