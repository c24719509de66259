// What soft decoding receives: soft values. Nothing is negated, and a value is widened before anything is added to it.
ghost use Rattle.std.specs.Prelude.{ℕ, ◌+◌, ◌-◌, ◌*◌, ◌≤◌, ◌<◌, ◌≡◌, pos, ◌-ℤ◌, length};
ghost use Rattle.rules.specs.Shape.{greatest_m, half_turn, carriers};
ghost use Rattle.rules.specs.Decoding.{Loud};
ghost use Rattle.totals.specs.Gains.{raise_by, raised, soft_gain};
ghost use Rattle.engine.specs.Search.{greatest_decoded};
ghost use Rattle.decoder.specs.Seen.{small_at};
ghost use Rattle.decoder.specs.Found.{small, soft_best_le, soft_found};

use crate::received::Received;
use shape::Shape;
use standing::Standing;

// What a soft value is raised by, so that it is never below zero: the size of the least of them.
const RAISE_BY: i32 = 32768;

// The values of a shape of two or four phases: N for two and 2N for four.
#[derive(Clone, Copy)]
pub(super) struct Soft<'a> {
    pub(super) shape: Shape,
    pub(super) values: &'a [i16],
    ghost few: { shape.h ≤ greatest_decoded },
    ghost long: { length values.now ≡ half_turn shape.h * carriers shape.m },
}

impl Received for Soft<'_> {
    type Value = i32;

    ghost shape = { λ r. r.shape };

    ghost gain = { λ r. soft_gain r.shape.h r.values.now };

    // Each value that is read is a sixteen-bit number.
    ghost seen = { λ r. small_at r.shape.h r.values.now };

    ghost can_tell = { λ r led. led.best ≤ carriers greatest_m * (2 * raise_by) };

    ghost told = { λ r led. pos led.best -ℤ pos (carriers r.shape.m * raise_by) };

    ghost right = { λ r g v t. Loud r.shape.h r.shape.m r.values.now (record { message = g; value = v; tied = t }) };

    ghost few = { λ r. r.few };

    ghost tells = { λ r led seen. soft_best_le r.shape.h r.shape.m r.shape.in_range r.few led r.values.now
        (small r.shape.h r.shape.m r.shape.in_range r.values.now r.long seen) };

    ghost finds = { λ r led seen. soft_found r.shape.h r.shape.m r.shape.in_range r.few led r.values.now
        (small r.shape.h r.shape.m r.shape.in_range r.values.now r.long seen) };

    fn shape(&self) -> Shape {
        self.shape
    }

    // The value that the symbol adds, raised, or taken from twice the raise where it is negated.
    fn gain(&self, place: usize, symbol: usize) -> u32 {
        let half = self.shape.half_turn() as usize;
        if symbol < half {
            raised(self.values[half * place + symbol])
        } else {
            lowered(self.values[half * place + (symbol - half)])
        }
    }

    // The correlation.
    fn value(&self, led: Standing) -> i32 {
        let n = self.shape.carriers() as i32;
        led.best as i32 - n * RAISE_BY
    }
}

// A soft value plus 32,768, and 32,768 less a soft value.
fn raised(y: i16) -> u32
    ensures { result ≡ raised y }
{
    (RAISE_BY + i32::from(y)) as u32
}

fn lowered(y: i16) -> u32
    ensures { result ≡ 2 * raise_by - raised y }
{
    (RAISE_BY - i32::from(y)) as u32
}
