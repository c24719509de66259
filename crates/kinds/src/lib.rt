// The kinds of number that must not be mixed up, and the refusals of document 01's table with what each tells: its
// number, and the place and the word that it carries. Whoever prints or hands on a refusal asks its methods; a new
// number is a case of the enum, with its lines there and in specs/Refusals.antt.
#![tactic(auto)]

ghost use Rattle.std.specs.Prelude.{◌≡◌, slice_get};
ghost use Rattle.std.specs.Option.{option_map};
ghost use Rattle.kinds.specs.Refusals.{refusal_number, refusal_carries};

use std::error::Error;
use std::fmt;

// A place in a word, or in an area of the transform, counted from 0.
#[derive(Clone, Copy, Debug, PartialEq, Eq, Hash)]
pub struct Place(pub usize);

// The number of a path, counted from 0 in dictionary order.
#[derive(Clone, Copy, Debug, PartialEq, Eq, Hash)]
pub struct PathNumber(pub u32);

// A message number: path number highest, then c_1 to c_m, then c lowest.
#[derive(Clone, Copy, Debug, PartialEq, Eq, Hash)]
pub struct MessageNumber(pub u64);

// Which of the two words that the pair check is given, counted from 1.
// Kept: the methods of a refusal promise of every number in it, and an enum would take fewer.
#[derive(Clone, Copy, Debug, PartialEq, Eq, Hash)]
pub struct Which(pub u32);

// Why a call refuses. Kinds 3 and 7 carry the first bad place, and 3 of the pair check the word that it stands in.
#[derive(Clone, Copy, Debug, PartialEq, Eq, Hash)]
pub enum Refusal {
    // 1: h or m is outside its range.
    Shape,
    // 2: a slice of the wrong length for this shape, or an area shorter than N.
    Length,
    // 3: a symbol is 2^h or more.
    Symbol(Place),
    SymbolIn(Which, Place),
    // 4: the message number needs more than its bits.
    Message,
    // 5: no message has this word.
    NoWord,
    // 6: soft or hard decoding with h = 3.
    Octary,
    // 7: a transform input lies outside its range.
    Value(Place),
}

impl Refusal {
    // Its number in 01's table.
    // Kept: C gets the number, and the promises speak of it.
    pub fn number(self) -> u32
        ensures { result ≡ refusal_number self }
    {
        match self {
            Refusal::Shape => 1,
            Refusal::Length => 2,
            Refusal::Symbol(_) | Refusal::SymbolIn(_, _) => 3,
            Refusal::Message => 4,
            Refusal::NoWord => 5,
            Refusal::Octary => 6,
            Refusal::Value(_) => 7,
        }
    }

    // The first bad place, which kinds 3 and 7 carry.
    pub fn place(self) -> Option<Place>
        ensures { option_map (λ p. p.0) result ≡ slice_get (refusal_carries self) 0 }
    {
        match self {
            Refusal::Symbol(place) | Refusal::SymbolIn(_, place) => Some(place),
            Refusal::Value(place) => Some(place),
            _ => None,
        }
    }

    // The word that the place stands in, which kind 3 of the pair check carries behind it.
    pub fn which(self) -> Option<Which>
        ensures { option_map (λ w. w.0) result ≡ slice_get (refusal_carries self) 1 }
    {
        match self {
            Refusal::SymbolIn(word, _) => Some(word),
            _ => None,
        }
    }
}

// In words, without what it carries.
impl fmt::Display for Refusal {
    fn fmt<W: fmt::Write>(&self, f: &mut fmt::Formatter<W>) -> fmt::Result {
        f.write_str(match self {
            Refusal::Shape => "h or m is out of range",
            Refusal::Length => "wrong slice length for this shape",
            Refusal::Symbol(_) | Refusal::SymbolIn(_, _) => "a symbol is too large",
            Refusal::Message => "message number too large for this shape",
            Refusal::NoWord => "no message has this word",
            Refusal::Octary => "decoding of eight phases (h = 3) is not supported",
            Refusal::Value(_) => "a value is out of range",
        })
    }
}

impl Error for Refusal {}
