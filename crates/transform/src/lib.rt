// The transform of document 01, "The transform by itself": a butterfly that goes to and fro between two lent areas.
// Stage k = 1, .., m reads one area and writes the other, the first stage the second area. The part handed back is the
// front of the area that the last stage wrote: the first for even m, the second for odd m.
// Refusals in their order: 1 an m out of range, 2 an area shorter than N, 7 an input out of range, with the first bad
// place. A refused transform changes nothing, and hands back the empty part at the front of the first area;
// `refusals::transform` answers which refusal it is.
// Contracts cite rules, specs/Areas.antt and Spectrum.antt; of this crate specs/Transformed.antt and, for the steps,
// Butterflies.antt.
#![tactic(auto)]

ghost use Rattle.std.specs.Prelude.{◌+◌, ◌≤◌, ◌<◌, ◌≡◌, ◌+ℤ◌, ◌-ℤ◌, length};
ghost use Rattle.std.specs.Borrow.{sem};
ghost use Rattle.std.specs.Int.{w32};
ghost use Rattle.std.proofs.Common.{SFits};
ghost use Rattle.range.specs.Below.{filled, Fills};
ghost use Rattle.range.specs.Signed.{entry};
ghost use Rattle.rules.specs.Shape.{carriers};
ghost use Rattle.rules.specs.Outcome.{allowed};
ghost use Rattle.rules.specs.Refusal.{transform_refusal};
ghost use Rattle.transform.specs.Transformed.{Ran, Handed, AtLast};
ghost use Rattle.transform.specs.Butterflies.{butterfly, first_at, second_at, Stride, Readable, Block};

// The spectrum of the first N entries of the first area, as a part of the area that holds it: of the first for even m,
// of the second for odd m. The other area then holds what stood after stage m - 1, and entries from N on stay in both.
// Refuses 1 an m out of range, 2 an area shorter than N, 7 one of the first N entries of the first area out of range.
// Where it is refused nothing changes, and the part is the empty one at the front of the first area.
// The part can only be read, so what the areas hold when it is over is known at the return. The starred clause says
// what both areas hold at last, whole; the other what the part holds and where it stands.
// Kept: a proof by hand walks through these statements, and a `match` on the count is no plainer.
pub fn transform<'a>(m: u32, first: &'a mut [i32], second: &'a mut [i32]) -> &'a [i32]
    ensures* areas { sem 𝓛 (AtLast m first.entry second.entry) }
    ensures handed { Handed m first.entry second.entry result }
{
    let n = run(m, first, second);
    if n == 0 {
        return &first[..n];
    }
    if m % 2 == 0 {
        return &first[..n];
    }
    &second[..n]
}

// Runs the stages between the two areas, and answers how many entries the spectrum has: N, or 0 where the transform is
// refused, and both areas then stay as they are. It is the transform without its part, for callers that go on with the
// areas themselves.
// Kept: an Option would say it too, but the promise `Ran` and the theorems on it speak of this number.
pub fn run(m: u32, first: &mut [i32], second: &mut [i32]) -> usize
    ensures { Ran m first.old second.old result first.new second.new }
{
    let Ok(()) = refusals::transform(m, first, second) else {
        return 0;
    };
    let n = shape::power(m) as usize;
    rounds(m, n, first, second);
    n
}

// The m stages, to and fro: the odd ones read the first area and write the second.
fn rounds(m: u32, n: usize, first: &mut [i32], second: &mut [i32])
    requires second_value { transform_refusal m first.old (length second.old) ≡ allowed }
    requires n_value { n ≡ carriers m }
    ensures first_after { first.new ≡ first_at m m first.old }
    ensures second_after { second.new ≡ second_at m m first.old second.old }
{
    let mut s = n;
    for k in 0..m {
        s /= 2;
        if k % 2 == 0 {
            stage(s, n, first, second);
        } else {
            stage(s, n, second, first);
        }
    }
}

// One stage. Its stride is a const parameter of what it calls, so that the compiler knows how long the loops are.
// Kept: with a stride known only when it runs a transform takes twice as long (D-22).
fn stage(s: usize, n: usize, from: &[i32], to: &mut [i32])
    requires stride { Stride s }
    requires readable { Readable s n from.now }
    requires n_least { 0 < n }
    requires n_in_bounds { n ≤ length to.old }
    ensures { to.new ≡ filled n (butterfly s (entry from.now)) to.old }
{
    match s {
        1 => pass::<1>(n, from, to),
        2 => pass::<2>(n, from, to),
        4 => pass::<4>(n, from, to),
        8 => pass::<8>(n, from, to),
        _ => pass::<16>(n, from, to),
    }
}

// One stage of stride S: block after block of 2 S entries.
fn pass<const S: usize>(n: usize, from: &[i32], to: &mut [i32])
    requires readable { Readable S n from.now }
    requires n_least { 0 < n }
    requires n_in_bounds { n ≤ length to.old }
    ensures { to.new ≡ filled n (butterfly S (entry from.now)) to.old }
{
    for p in (0..n).step_by(2 * S) {
        block::<S>(p, from, to);
    }
}

// The block that begins at p: the sums of its halves in the first, the differences in the second.
fn block<const S: usize>(p: usize, from: &[i32], to: &mut [i32])
    requires { Block S p from.now to.old }
    ensures { Fills (butterfly S (entry from.now)) to.old p to.new (p + S + S) }
{
    for i in p..p + S {
        let (x, y) = (from[i], from[i + S]);
        to[i] = x + y;
        to[i + S] = x - y;
    }
}
