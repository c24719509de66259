// The tables of the search: runs of numbers, and two runs that are added number by number.
ghost use Rattle.std.specs.Prelude.{ℕ, ◌+◌, ◌*◌, ◌<◌, ◌≤◌, ◌≡◌, length, get_or};
ghost use Rattle.totals.specs.Climb.{pair_at};
ghost use Rattle.engine.specs.SearchTables.{Runs, most_total};

use crate::wrap;

// 2 q half runs of w numbers, each so small that the stages that follow stay within their numbers.
#[derive(Clone, Copy)]
pub(super) struct Table<'a> {
    pub(super) q: usize,
    pub(super) half: usize,
    pub(super) w: usize,
    pub(super) numbers: &'a [u32],
    ghost runs: { Runs q half w numbers.now },
}

// Two runs as long as each other, whose sums fit.
#[derive(Clone, Copy)]
pub(super) struct Sums<'a> {
    x: &'a [u32],
    y: &'a [u32],
    ghost as_long: { length x.now ≡ length y.now },
    ghost small: { (i : ℕ) → get_or x.now i 0 + get_or y.now i 0 ≤ most_total },
}

impl<'a> Table<'a> {
    // Run number t.
    fn run(&self, t: usize) -> &'a [u32]
        requires { t < 2 * (self.now.q * self.now.half) }
        ensures { (length result.now ≡ self.now.w)
            × ((i : ℕ) → i < self.now.w → get_or result.now i 0 ≡ get_or self.now.numbers.now (t * self.now.w + i) 0) }
    {
        &self.numbers[t * self.w..(t + 1) * self.w]
    }

    // The runs whose sums are run t of the next table at coefficient c.
    pub(super) fn sums(&self, t: usize, c: usize) -> Sums<'a>
        requires { (t < self.now.q * self.now.half) × (c < self.now.q) }
        ensures { (length result.x.now ≡ self.now.w) × ((i : ℕ) → i < self.now.w
            → get_or result.x.now i 0 + get_or result.y.now i 0
            ≡ pair_at self.now.q self.now.half self.now.w self.now.numbers.now t c i) }
    {
        let further = wrap(self.q * self.half, t + c * self.half);
        Sums {
            x: self.run(2 * t),
            y: self.run(2 * further + 1),
        }
    }
}

impl Sums<'_> {
    // Sum number i.
    pub(super) fn sum(&self, i: usize) -> u32
        requires { i < length self.now.x.now }
        ensures { result ≡ get_or self.now.x.now i 0 + get_or self.now.y.now i 0 }
    {
        self.x[i] + self.y[i]
    }

    // All sums.
    pub(super) fn write(&self, to: &mut [u32])
        requires { length to.old ≡ length self.now.x.now }
        ensures { (i : ℕ) → i < length self.now.x.now
            → get_or to.new i 0 ≡ get_or self.now.x.now i 0 + get_or self.now.y.now i 0 }
    {
        for (i, sum) in to.iter_mut().enumerate() {
            *sum = self.sum(i);
        }
    }

    // The greatest sum, or 0. All of them are looked at, so that the compiler can look at several at once.
    pub(super) fn greatest(&self) -> u32
        ensures { (i : ℕ) → i < length self.now.x.now
            → get_or self.now.x.now i 0 + get_or self.now.y.now i 0 ≤ result }
    {
        let mut most = 0;
        for i in 0..self.x.len() {
            most = most.max(self.sum(i));
        }
        most
    }
}
