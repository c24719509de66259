// What hard decoding receives: the symbols of a word, each of which gains what it is near to.
ghost use Rattle.std.specs.Prelude.{ℕ, ◌-◌, ◌*◌, ◌≤◌, ◌<◌, ◌≡◌, length, ⊤};
ghost use Rattle.rules.specs.Shape.{phases, half_turn, carriers};
ghost use Rattle.rules.specs.Word.{symbol_at};
ghost use Rattle.rules.specs.Decoding.{Near};
ghost use Rattle.totals.specs.Gains.{hard_gain};
ghost use Rattle.engine.specs.Search.{greatest_decoded};
ghost use Rattle.decoder.specs.Found.{hard_best_le, hard_found};

use crate::received::Received;
use shape::Shape;
use standing::Standing;

// A word of two or four phases.
#[derive(Clone, Copy)]
pub(super) struct Hard<'a> {
    pub(super) shape: Shape,
    pub(super) word: &'a [u8],
    ghost few: { shape.h ≤ greatest_decoded },
    ghost long: { length word.now ≡ carriers shape.m },
    ghost below: { (i : ℕ) → i < carriers shape.m → symbol_at word.now i < phases shape.h },
}

impl Received for Hard<'_> {
    type Value = u32;

    ghost shape = { λ r. r.shape };

    ghost gain = { λ r. hard_gain r.shape.h r.word.now };

    ghost seen = { λ r i s. ⊤ };

    ghost can_tell = { λ r led. led.best ≤ carriers r.shape.m * half_turn r.shape.h };

    ghost told = { λ r led. carriers r.shape.m * half_turn r.shape.h - led.best };

    ghost right = { λ r g v t. Near r.shape.h r.shape.m r.word.now (record { message = g; value = v; tied = t }) };

    ghost few = { λ r. r.few };

    ghost tells = { λ r led seen. hard_best_le r.shape.h r.shape.m r.shape.in_range r.few led r.word.now r.below };

    ghost finds = { λ r led seen. hard_found r.shape.h r.shape.m r.shape.in_range r.few led r.word.now r.below };

    fn shape(&self) -> Shape {
        self.shape
    }

    // Half a turn less the Lee distance of the symbols.
    fn gain(&self, place: usize, symbol: usize) -> u32 {
        let difference = shape::minus(self.shape.phases(), self.word[place], symbol as u8);
        self.shape.half_turn().abs_diff(difference) as u32
    }

    // The distance.
    fn value(&self, led: Standing) -> u32 {
        let most = self.shape.carriers() as u32 * self.shape.half_turn() as u32;
        most - led.best
    }
}
