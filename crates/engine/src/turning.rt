// The first table of a path: the gains with the path's own word put in. What it writes is `gains_with` (totals,
// specs/Climb.antt).
ghost use Rattle.std.specs.Prelude.{ℕ, ◌+◌, ◌*◌, ◌<◌, ◌≡◌, length, get_or};
ghost use Rattle.totals.specs.Climb.{gains_with, gains_with_at};
ghost use Rattle.engine.specs.SearchTables.{WordFits};

use crate::wrap;

// A word of q symbols, and the gains that it is put into.
#[derive(Clone, Copy)]
pub(super) struct Turned<'a> {
    pub(super) q: usize,
    pub(super) word: &'a [u8],
    pub(super) gains: &'a [u32],
    ghost fits: { WordFits q word.now gains.now },
}

impl Turned<'_> {
    // A run for each symbol.
    pub(super) fn write(&self, to: &mut [u32])
        requires { length to.old ≡ self.now.q * length self.now.word.now }
        ensures { to.new ≡ gains_with self.now.q (length self.now.word.now) self.now.word.now self.now.gains.now }
    {
        let n = self.word.len();
        for s in 0..self.q {
            self.turn(s, &mut to[s * n..(s + 1) * n]);
        }
    }

    // The run of symbol s: entry i is the gain of symbol s + word[i], modulo q, at place i.
    fn turn(&self, s: usize, to: &mut [u32])
        requires { (s < self.now.q) × (length to.old ≡ length self.now.word.now) }
        ensures { let n = length self.now.word.now in (i : ℕ) → i < n
            → get_or to.new i 0 ≡ gains_with_at self.now.q n self.now.word.now self.now.gains.now (s * n + i) }
    {
        let n = self.word.len();
        for (i, gain) in to.iter_mut().enumerate() {
            let e = wrap(self.q, s + usize::from(self.word[i]));
            *gain = self.gains[e * n + i];
        }
    }
}
