// The engine of the decoders: which label has the greatest total of gains. All numbers are natural, so nothing is
// negated. For each path the gains with the path's own word put in are the first table, and each stage takes in one
// digit of the places with all values of its coefficient, until there is a number for each label, its total (totals,
// specs/Climb.antt and Totals.antt). The labels are gone through in their order, path after path, and the best and the
// second best are kept (standing). Contracts cite specs/Search.antt, and for the steps specs/SearchTables.antt.
#![tactic(auto)]

mod gains;
mod scan;
mod stages;
mod tables;
mod turning;

ghost use Rattle.std.specs.Prelude.{◌%◌, ◌+◌, ◌<◌, ◌≡◌, leb};
ghost use Rattle.std.specs.List.{list_all};
ghost use Rattle.engine.specs.Search.{most_gain, accepts, searched};

use crate::gains::Gains;
use shape::{GREATEST_M, Shape};
use standing::Standing;

// The greatest h that the tables have room for, and the room: 2 q^m numbers.
pub const GREATEST_DECODED: u32 = 2;

const AREA: usize = 2 << (GREATEST_DECODED * GREATEST_M);

// The greatest gain that is taken.
const MOST_GAIN: u32 = 1 << 25;

// The standing after all labels of the shape, by the totals of their words in a table of gains: for each symbol N
// gains, one for each place. Nobody leads where the shape is not of two or four phases, the table is not 2^h N long, or
// a gain is above the greatest.
// Kept: nobody and no Option, since the promise `searched` has it, and no caller can be refused (D-31).
pub fn search(h: u32, m: u32, gains: &[u32]) -> Standing
    ensures { result ≡ searched h m gains.now }
{
    if !takes(h, m, gains) {
        return Standing::NOBODY;
    }
    let gains = Gains {
        shape: Shape { h, m },
        numbers: gains,
    };
    gains.lead()
}

// Whether a table of gains can be searched.
fn takes(h: u32, m: u32, gains: &[u32]) -> bool
    ensures { result ≡ accepts h m gains.now }
{
    shape::in_shape(h, m)
        && (h <= GREATEST_DECODED && (gains.len() == shape::power(h + m) as usize && small(gains)))
}

// Whether no gain is above the greatest.
fn small(gains: &[u32]) -> bool
    ensures { result ≡ list_all (λ gain. leb gain most_gain) gains.now }
{
    gains.iter().all(|&gain| gain <= MOST_GAIN)
}

// x modulo n, for an x below 2 n.
// Kept: with `%` four-phase decoding takes 27 to 45 percent longer.
fn wrap(n: usize, x: usize) -> usize
    requires { x < n + n }
    ensures { result ≡ x % n }
{
    if x < n { x } else { x - n }
}
