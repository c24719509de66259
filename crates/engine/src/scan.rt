// The last stage of the search, and the labels gone through in their order. The last table is not written: its numbers
// are added where they are looked at, and where no sum of a coefficient passes the second best, its labels are passed
// over.
ghost use Rattle.std.specs.Prelude.{ℕ, ◌+◌, ◌*◌, ◌/◌, ◌%◌, ◌<◌, ◌≤◌, ◌≡◌, false};
ghost use Rattle.totals.specs.Climb.{pair_at, climbed, by_label};
ghost use Rattle.standing.specs.Lead.{lead_from};
ghost use Rattle.engine.specs.Search.{most_labels};

use crate::tables::Table;
use standing::Standing;

// Kept: that a coefficient is one of q, and that labels from the first on fit, tie a number to its table; a type for it
// would hold what the table holds.
impl Table<'_> {
    // The standing after all labels of the table, counted from first on.
    pub(super) fn last(&self, first: u64, before: Standing) -> Standing
        requires { (self.now.half ≡ 1) × (first + self.now.q * (self.now.w * self.now.q) ≤ most_labels) }
        ensures { result ≡ lead_from first
            (by_label self.now.q (self.now.w * self.now.q) (climbed self.now.q 1 self.now.w self.now.numbers.now))
            (self.now.q * (self.now.w * self.now.q)) before }
    {
        let size = self.w * self.q;
        let mut st = before;
        for c in 0..self.q {
            st = self.block(c, first + (c * size) as u64, st);
        }
        st
    }

    // The standing after the labels of coefficient c, counted from first on: they are passed over where none of them
    // can change it.
    fn block(&self, c: usize, first: u64, before: Standing) -> Standing
        requires { (c < self.now.q) × (first + self.now.w * self.now.q ≤ most_labels) }
        ensures { result ≡ lead_from first
            (λ j. pair_at self.now.q self.now.half self.now.w self.now.numbers.now (j % self.now.q) c (j / self.now.q))
            (self.now.w * self.now.q) before }
    {
        if !self.passes(c, before.second) {
            return before;
        }
        let mut st = before;
        for i in 0..self.w {
            st = self.row(c, i, first + (i * self.q) as u64, st);
        }
        st
    }

    // Whether a sum of coefficient c can pass the second best: where it answers no, none does.
    fn passes(&self, c: usize, second: u32) -> bool
        requires { c < self.now.q }
        ensures { result ≡ false → (s i : ℕ) → s < self.now.q → i < self.now.w
            → pair_at self.now.q self.now.half self.now.w self.now.numbers.now s c i ≤ second }
    {
        for s in 0..self.q {
            if second < self.sums(s, c).greatest() {
                return true;
            }
        }
        false
    }

    // The standing after the labels of coefficient c whose other coefficients are i: one for each constant.
    fn row(&self, c: usize, i: usize, first: u64, before: Standing) -> Standing
        requires { (c < self.now.q) × (i < self.now.w) × (first + self.now.q ≤ most_labels) }
        ensures { result ≡ lead_from first (λ s. pair_at self.now.q self.now.half self.now.w self.now.numbers.now s c i)
            self.now.q before }
    {
        let mut st = before;
        for s in 0..self.q {
            st = st.better(self.sums(s, c).sum(i), first + s as u64);
        }
        st
    }
}
