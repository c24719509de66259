// How the programs print what the calls answer: each type wraps a part of an answer, which `{}` then prints.
// No contract speaks of what is printed; each `fmt` is proved safe and to end.
#![tactic(auto)]

use kinds::{MessageNumber, Place, Refusal, Which};
use std::fmt;

// A message by its number.
#[derive(Clone, Copy)]
pub struct Message(pub MessageNumber);

impl fmt::Display for Message {
    fn fmt<W: fmt::Write>(&self, f: &mut fmt::Formatter<W>) -> fmt::Result {
        let MessageNumber(number) = self.0;
        write!(f, "message {number}")
    }
}

// Whether another word is as good as the one found, with the space before it.
#[derive(Clone, Copy)]
pub struct Tie(pub bool);

impl fmt::Display for Tie {
    fn fmt<W: fmt::Write>(&self, f: &mut fmt::Formatter<W>) -> fmt::Result {
        f.write_str(if self.0 { " tied" } else { " not tied" })
    }
}

// A word: its symbols one behind the other, each as a digit, or in parentheses where it needs more than one.
#[derive(Clone, Copy)]
pub struct Word<'a>(pub &'a [u8]);

impl fmt::Display for Word<'_> {
    fn fmt<W: fmt::Write>(&self, f: &mut fmt::Formatter<W>) -> fmt::Result {
        for &symbol in self.0 {
            if symbol < 10 {
                write!(f, "{symbol}")?;
            } else {
                write!(f, "({symbol})")?;
            }
        }
        Ok(())
    }
}

// A list: its entries with a space between two.
#[derive(Clone, Copy)]
pub struct List<'a, T>(pub &'a [T]);

impl<T: fmt::Display> fmt::Display for List<'_, T> {
    fn fmt<W: fmt::Write>(&self, f: &mut fmt::Formatter<W>) -> fmt::Result {
        let Some((first, rest)) = self.0.split_first() else {
            return Ok(());
        };
        write!(f, "{first}")?;
        for entry in rest {
            write!(f, " {entry}")?;
        }
        Ok(())
    }
}

// A refusal by its number in the table of 01, with its place and its word where it carries them.
#[derive(Clone, Copy)]
pub struct Refused(pub Refusal);

impl fmt::Display for Refused {
    fn fmt<W: fmt::Write>(&self, f: &mut fmt::Formatter<W>) -> fmt::Result {
        write!(f, "refused {}", self.0.number())?;
        if let Some(Place(place)) = self.0.place() {
            write!(f, " at place {place}")?;
        }
        if let Some(Which(word)) = self.0.which() {
            write!(f, " of word {word}")?;
        }
        Ok(())
    }
}
