// A table of gains that can be searched, and all its labels gone through, path after path.
ghost use Rattle.std.specs.Prelude.{ℕ, suc, ◌+◌, ◌*◌, ◌^◌, ◌<◌, ◌≤◌, ◌≡◌, length, get_or};
ghost use Rattle.range.specs.Below.{list_below};
ghost use Rattle.rules.specs.Shape.{phases, carriers, paths_in_use};
ghost use Rattle.rules.specs.Label.{labels};
ghost use Rattle.rules.specs.Word.{word_at};
ghost use Rattle.totals.specs.Totals.{total_of};
ghost use Rattle.totals.specs.Climb.{climbs, by_label};
ghost use Rattle.standing.specs.Lead.{lead_from, lead};
ghost use Rattle.engine.specs.Search.{greatest_decoded};
ghost use Rattle.engine.specs.SearchTables.{Climbing, most_total, table_in};

use crate::AREA;
use crate::tables::Table;
use crate::turning::Turned;
use shape::{PLACES, Shape};
use standing::Standing;

// For each symbol of the shape N gains, one for each place, so small that the tables stay within their numbers.
#[derive(Clone, Copy)]
pub(super) struct Gains<'a> {
    pub(super) shape: Shape,
    pub(super) numbers: &'a [u32],
    ghost few: { shape.h ≤ greatest_decoded },
    ghost long: { length numbers.now ≡ phases shape.h * carriers shape.m },
    ghost small: { (i : ℕ) → get_or numbers.now i 0 * carriers shape.m ≤ most_total },
}

// What a search writes to: a path's own word, and two tables that take turns. What they hold afterwards is of no use.
// Kept: fixed memory, without a heap, of which slices are lent.
#[derive(Drop)]
struct Areas {
    word: [u8; PLACES],
    x: [u32; AREA],
    y: [u32; AREA],
}

impl Gains<'_> {
    // The standing after the labels of all paths in use, one path after the other.
    pub(super) fn lead(&self) -> Standing
        ensures { result ≡ lead (total_of self.now.shape.h self.now.shape.m self.now.numbers.now)
            (labels self.now.shape.h self.now.shape.m) }
    {
        let mut areas = Areas {
            word: [0; PLACES],
            x: [0; AREA],
            y: [0; AREA],
        };
        let mut st = Standing::NOBODY;
        for number in 0..self.shape.paths_in_use() {
            st = self.path(number, &mut areas, st);
        }
        st
    }

    // The standing after the labels of one path.
    fn path(&self, number: u64, areas: &mut Areas, before: Standing) -> Standing
        requires { number < paths_in_use self.now.shape.m }
        ensures { result ≡ (let size = phases self.now.shape.h ^ (self.now.shape.m + 1) in
            lead_from (number * size)
            (λ j. total_of self.now.shape.h self.now.shape.m self.now.numbers.now (number * size + j)) size before) }
    {
        let Shape { h, m, .. } = self.shape;
        let q = self.shape.phases() as usize;
        let n = self.shape.carriers();
        let first = number * shape::power(h * (m + 1));
        let Areas { word, x, y } = areas;
        let word = &mut word[..n];
        own_word(self.shape, first, word);
        let turned = Turned {
            q,
            word,
            gains: self.numbers,
        };
        turned.write(&mut x[..self.numbers.len()]);
        climb(m - 1, q, n / 2, 1, first, x, y, before)
    }
}

// The word of a label.
fn own_word(shape: Shape, label: u64, word: &mut [u8])
    requires { (label < labels shape.h shape.m) × (length word.old ≡ carriers shape.m) }
    ensures { word.new ≡ list_below (carriers shape.m) (word_at shape.h shape.m label) }
{
    let message = shape::message_of(shape.h, shape.m, label);
    encoder::encode(shape.h, shape.m, message, word).unwrap();
}

// The standing after d stages more, the last stage, and all its labels, counted from first on. The table is at the
// front of x, and the next one goes to the front of y.
fn climb(
    d: u32,
    q: usize,
    half: usize,
    w: usize,
    first: u64,
    x: &mut [u32],
    y: &mut [u32],
    before: Standing,
) -> Standing
    requires { Climbing d q half w first x.old y.old }
    ensures { result ≡ lead_from first
        (by_label q (w * q ^ suc d) (climbs q (suc d) w (table_in q half w x.old)))
        (w * q ^ suc d * q) before }
{
    let table = Table {
        q,
        half,
        w,
        numbers: &x[..2 * (q * half) * w],
    };
    if d == 0 {
        return table.last(first, before);
    }
    table.stage(&mut y[..q * half * q * w]);
    climb(d - 1, q, half / 2, w * q, first, y, x, before)
}
