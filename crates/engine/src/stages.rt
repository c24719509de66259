// One stage of the search: from 2 q half runs of w numbers to q half runs of q w. What it writes is `climbed` (totals,
// specs/Climb.antt).
ghost use Rattle.std.specs.Prelude.{ℕ, ◌+◌, ◌*◌, ◌<◌, ◌≡◌, length, get_or};
ghost use Rattle.totals.specs.Climb.{climbed, climbed_at};

use crate::tables::Table;

impl Table<'_> {
    // One stage.
    // Kept: short runs are written out above the loops, so that the compiler knows how long they are; without the arms
    // but the last, which serves any other length, four-phase decoding takes 12 to 31 percent longer.
    pub(super) fn stage(&self, to: &mut [u32])
        requires { length to.old ≡ self.now.q * self.now.half * self.now.q * self.now.w }
        ensures { to.new ≡ climbed self.now.q self.now.half self.now.w self.now.numbers.now }
    {
        match self.w {
            1 => self.pass(1, to),
            2 => self.pass(2, to),
            4 => self.pass(4, to),
            8 => self.pass(8, to),
            16 => self.pass(16, to),
            64 => self.pass(64, to),
            w => self.pass(w, to),
        }
    }

    // One stage for runs of w numbers, which are the table's: for each run t the runs of its coefficients.
    fn pass(&self, w: usize, to: &mut [u32])
        requires { (w ≡ self.now.w) × (length to.old ≡ self.now.q * self.now.half * self.now.q * w) }
        ensures { to.new ≡ climbed self.now.q self.now.half w self.now.numbers.now }
    {
        let table = Table {
            q: self.q,
            half: self.half,
            w,
            numbers: self.numbers,
        };
        let step = table.q * w;
        for t in 0..table.q * table.half {
            table.fan(t, &mut to[t * step..(t + 1) * step]);
        }
    }

    // The runs of the coefficients of run t, one behind the other.
    fn fan(&self, t: usize, to: &mut [u32])
        requires { (t < self.now.q * self.now.half) × (length to.old ≡ self.now.q * self.now.w) }
        ensures { (e : ℕ) → e < self.now.q * self.now.w
            → get_or to.new e 0
            ≡ climbed_at self.now.q self.now.half self.now.w self.now.numbers.now (t * (self.now.q * self.now.w) + e) }
    {
        for c in 0..self.q {
            self.sums(t, c).write(&mut to[c * self.w..(c + 1) * self.w]);
        }
    }
}
