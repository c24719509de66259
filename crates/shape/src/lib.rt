// The ranges of h and m, a shape as a type, and the numbers that it gives, as code.
// No function here has a requires: each says what it gives for every number that it takes, and the methods of a shape
// for every shape, which is in range by its type.
// The greatest h, the greatest m and the table w stand here alone; their definitions are in rules, specs/Shape.antt.
#![tactic(auto)]

ghost use Rattle.std.specs.Prelude.{◌^◌, min, ◌≡◌, true, false, cond, ltb};
ghost use Rattle.rules.specs.Shape.{path_bits, in_m, in_shape, phases, half_turn, carriers, paths_in_use};
ghost use Rattle.rules.specs.Label.{label_of, message_of};
ghost use Rattle.rules.specs.Pair.{minus};

use kinds::MessageNumber;

pub const GREATEST_H: u32 = 3;

pub const GREATEST_M: u32 = 5;

// What the greatest m makes of the sizes of arrays: the steps of a path, the rows of the generator, the places of a
// word.
pub const STEPS: usize = GREATEST_M as usize;

pub const ROWS: usize = STEPS + 1;

pub const PLACES: usize = 1 << STEPS;

const PATH_BITS: [u32; STEPS - 1] = [0, 1, 3, 5];

// h and m in their ranges.
#[derive(Clone, Copy, Debug, PartialEq, Eq, Hash)]
pub struct Shape {
    pub h: u32,
    pub m: u32,
    ghost in_range: { in_shape h m ≡ true },
}

impl Shape {
    // How many phases there are, half of them, how many carriers, and how many paths in use.
    pub fn phases(self) -> u64
        ensures { result ≡ phases self.h }
    {
        power(self.h)
    }

    pub fn half_turn(self) -> u64
        ensures { result ≡ half_turn self.h }
    {
        power(self.h - 1)
    }

    pub fn carriers(self) -> usize
        ensures { result ≡ carriers self.m }
    {
        power(self.m) as usize
    }

    pub fn paths_in_use(self) -> u64
        ensures { result ≡ paths_in_use self.m }
    {
        power(path_bits(self.m))
    }
}

// Whether h and m are in their ranges.
pub fn in_shape(h: u32, m: u32) -> bool
    ensures { result ≡ in_shape h m }
{
    (1..=GREATEST_H).contains(&h) && in_m(m)
}

// Whether m is in its range: all that the transform asks of a shape.
pub fn in_m(m: u32) -> bool
    ensures { result ≡ in_m m }
{
    (2..=GREATEST_M).contains(&m)
}

// 2^e where that fits 64 bits, else 0.
// Kept: 0 for what there is not, here and in `path_bits`, is what the promises say of every number (D-11).
pub fn power(e: u32) -> u64
    ensures { result ≡ cond (ltb e 64) (2 ^ e) 0 }
{
    1u64.checked_shl(e).unwrap_or(0)
}

// w, the bits of a path number: 0 outside the table.
pub fn path_bits(m: u32) -> u32
    ensures { result ≡ path_bits m }
{
    PATH_BITS
        .get(m.saturating_sub(2) as usize)
        .copied()
        .unwrap_or(0)
}

// The label number of a message number, and back, where the shape is in range; else the number itself. Today they are
// the same number.
pub fn label_of(h: u32, m: u32, message: MessageNumber) -> u64
    ensures { (in_shape h m ≡ true → result ≡ label_of h m message.0) × (in_shape h m ≡ false → result ≡ message.0) }
{
    message.0
}

pub fn message_of(h: u32, m: u32, label: u64) -> MessageNumber
    ensures { (in_shape h m ≡ true → result.0 ≡ message_of h m label) × (in_shape h m ≡ false → result.0 ≡ label) }
{
    MessageNumber(label)
}

// a - b modulo q, for a and b below q. For other numbers, too, it is rules' `minus`: b counts as at most q, and a
// number modulo 0 is itself.
pub fn minus(q: u64, a: u8, b: u8) -> u64
    ensures { result ≡ minus q a b }
{
    let x = u64::from(a);
    let y = q.min(u64::from(b));
    if x < y {
        return x + (q - y);
    }
    let d = x - y;
    if d < q {
        d
    } else if q == 0 {
        x
    } else {
        d % q
    }
}
