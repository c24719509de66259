// The pair check of document 01: whether two words cancel at every shift and phase.
// `check` asks whether the words are refused; the methods of `Pair` count, and compare counts.
// What the answer says in the document's terms is in specs/Paired.antt, and what is counted in rules, specs/Pair.antt.
#![tactic(auto)]

ghost use Rattle.std.specs.Prelude.{◌≡◌, length};
ghost use Rattle.rules.specs.Shape.{carriers};
ghost use Rattle.rules.specs.Pair.{phase_count, pair_count, golay_pair, phases_agree};
ghost use Rattle.rules.specs.Word.{symbol_at};
ghost use Rattle.rules.specs.Symbols.{Symbols};
ghost use Rattle.rules.specs.Refusal.{pair_outcome};
ghost use Rattle.pair.specs.Paired.{paired_told};

use kinds::Refusal;
use shape::Shape;

// Whether two words are a Golay pair: at every shift from 1 to N - 1 and every phase the counts of 01 agree. Refuses 1
// a shape out of range, 2 a word that is not N long (either one), 3 a symbol that is 2^h or more: the first such place
// of the first word, else of the second, and which word. Both words are only read.
pub fn check(h: u32, m: u32, first: &[u8], second: &[u8]) -> Result<bool, Refusal>
    ensures { paired_told result ≡ pair_outcome h m first.now second.now }
{
    refusals::pair(h, m, first, second)?;
    let shape = Shape { h, m };
    let pair = Pair {
        shape,
        first,
        second,
    };
    Ok(pair.all_shifts())
}

// Two words of one shape: what is counted.
#[derive(Clone, Copy)]
struct Pair<'a> {
    shape: Shape,
    first: &'a [u8],
    second: &'a [u8],
    ghost first_symbols: { Symbols shape.h shape.m first.now },
    ghost second_symbols: { Symbols shape.h shape.m second.now },
}

impl<'a> Pair<'a> {
    // Whether the counts agree at every shift from 1 to N - 1.
    fn all_shifts(&self) -> bool
        ensures { result ≡ golay_pair self.now.shape.h self.now.shape.m (symbol_at self.now.first.now)
            (symbol_at self.now.second.now) }
    {
        (1..self.shape.carriers()).all(|u| self.all_phases(u))
    }

    // Whether at shift u the count for each phase equals the count half a turn on.
    fn all_phases(&self, u: usize) -> bool
        ensures { result ≡ phases_agree self.now.shape.h (carriers self.now.shape.m) (symbol_at self.now.first.now)
            (symbol_at self.now.second.now) u }
    {
        let half = self.shape.half_turn();
        (0..self.shape.phases()).all(|k| self.both(u, k) == self.both(u, k + half))
    }

    // The count over both words together.
    fn both(&self, u: usize, k: u64) -> usize
        ensures { result ≡ pair_count self.now.shape.h (carriers self.now.shape.m) (symbol_at self.now.first.now)
            (symbol_at self.now.second.now) u k }
    {
        self.count(self.first, u, k) + self.count(self.second, u, k)
    }

    // How many places of the word have a symbol that is k more, modulo 2^h, than the symbol u places on, which is at j.
    // The sum has no branch to be guessed: with `filter` and `count` the check takes twice as long.
    fn count(&self, word: &[u8], u: usize, k: u64) -> usize
        ensures { result ≡ phase_count self.now.shape.h (length word.now) (symbol_at word.now) u k }
    {
        let q = self.shape.phases();
        let k = k % q;
        (u..word.len())
            .map(|j| usize::from(shape::minus(q, word[j - u], word[j]) == k))
            .sum()
    }
}
