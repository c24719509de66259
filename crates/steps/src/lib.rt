// The steps of the paths in use: document 01 "What a logger may send". A path is one number of a table (table), which
// is checked against the rules as a whole (proofs/PathTable.antt). The laws of all paths stand in crate paths.
#![tactic(auto)]

mod table;

ghost use Rattle.std.specs.Prelude.{◌≤◌, ◌≡◌};
ghost use Rattle.rules.specs.Shape.{greatest_m};
ghost use Rattle.steps.specs.PathSteps.{in_use, steps_of, unpacked};

use crate::table::{PATHS, STARTS};
use kinds::PathNumber;
use shape::STEPS;

// The steps of path n of m, 0 after the m-th, where m is in range and the path in use; else zeros.
// Kept: zeros and no Option, since the promise `steps_of` has them, and no caller can be refused (D-11).
pub fn steps(m: u32, n: PathNumber) -> [u8; STEPS]
    ensures { result ≡ steps_of m n.0 }
{
    if !in_use(m, n) {
        return [0; STEPS];
    }
    let first = STARTS[m as usize - 2];
    unpack(m, PATHS[first + n.0 as usize])
}

fn in_use(m: u32, n: PathNumber) -> bool
    ensures { result ≡ in_use m n.0 }
{
    shape::in_m(m) && u64::from(n.0) < shape::power(shape::path_bits(m))
}

// The steps of a path of m out of its number, 0 after the m-th.
fn unpack(m: u32, number: u32) -> [u8; STEPS]
    requires { m ≤ greatest_m }
    ensures { result ≡ unpacked m number }
{
    let n = m as usize;
    let mut p = [0u8; STEPS];
    for (k, step) in p[..n].iter_mut().enumerate() {
        *step = ((number >> (3 * (n - 1 - k))) % 8) as u8;
    }
    p
}
