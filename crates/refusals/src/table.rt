// The tests of 01's table, one for each number and kind of argument: each refuses what rules, specs/Table.antt, says of
// the same arguments, for every argument, so that a rung may be asked in any order.
ghost use Rattle.std.specs.Prelude.{◌+◌, ◌^◌, min, ◌≡◌, [], ◌∷◌, not, ◌||◌, cond, eqb, leb};
ghost use Rattle.std.specs.List.{position};
ghost use Rattle.rules.specs.Shape.{phases, carriers};
ghost use Rattle.rules.specs.Soft.{soft_length};
ghost use Rattle.rules.specs.Spectrum.{accepted};
ghost use Rattle.rules.specs.Outcome.{allowed, refuse, refuse_at};
ghost use Rattle.rules.specs.Table.{bad_shape, bad_m, bad_length, short_area, bad_message, octary, bad_symbol};
ghost use Rattle.rules.specs.Table.{bad_value};
ghost use Rattle.kinds.specs.Refusals.{refusal_told, judged_told};
ghost use Rattle.refusals.specs.Searched.{search_told};

use kinds::{MessageNumber, Place, Refusal, Which};

// The least and the greatest input that the transform takes.
const WIDEST: i32 = 32768;

const LEAST: i32 = -WIDEST;

const GREATEST: i32 = WIDEST - 1;

// 1: h or m is outside its range.
pub(super) fn shape(h: u32, m: u32) -> Result<(), Refusal>
    ensures { judged_told result ≡ refuse 1 (bad_shape h m) allowed }
{
    refuse(!shape::in_shape(h, m), Refusal::Shape)
}

// 1, of the transform: m is outside its range.
pub(super) fn m_alone(m: u32) -> Result<(), Refusal>
    ensures { judged_told result ≡ refuse 1 (bad_m m) allowed }
{
    refuse(!shape::in_m(m), Refusal::Shape)
}

// 2: a slice of n places, where the shape has N.
pub(super) fn length(n: usize, m: u32) -> Result<(), Refusal>
    ensures { judged_told result ≡ refuse 2 (bad_length n (carriers m)) allowed }
{
    refuse(!is_power(n as u64, u64::from(m)), Refusal::Length)
}

// 2, of two words.
// Kept: it and the test of two areas differ in the test alone, but one function of both would take it as a closure, and
// its clause would speak of what that gives.
pub(super) fn lengths(n: usize, k: usize, m: u32) -> Result<(), Refusal>
    ensures { judged_told result ≡ refuse 2 (bad_length n (carriers m) || bad_length k (carriers m)) allowed }
{
    refuse(
        !is_power(n as u64, u64::from(m)) || !is_power(k as u64, u64::from(m)),
        Refusal::Length,
    )
}

// 2: n soft values are not N for two phases, or not 2N for more.
pub(super) fn soft_length(n: usize, h: u32, m: u32) -> Result<(), Refusal>
    ensures { judged_told result ≡ refuse 2 (bad_length n (soft_length h m)) allowed }
{
    let more = if h == 1 { 0 } else { 1 };
    refuse(!is_power(n as u64, u64::from(m) + more), Refusal::Length)
}

// 2: an area, of n entries or of k, is shorter than N.
pub(super) fn areas(n: usize, k: usize, m: u32) -> Result<(), Refusal>
    ensures { judged_told result ≡ refuse 2 (short_area n m || short_area k m) allowed }
{
    refuse(
        !reaches(n as u64, u64::from(m)) || !reaches(k as u64, u64::from(m)),
        Refusal::Length,
    )
}

// 3: the first symbol that is 2^h or more.
pub(super) fn symbols(h: u32, word: &[u8]) -> Result<(), Refusal>
    ensures { judged_told result ≡ refuse_at 3 (bad_symbol h word.now) [] allowed }
{
    bad_symbol(h, word).map_or(Ok(()), |place| Err(Refusal::Symbol(Place(place))))
}

// 3, in a word of the pair check.
// Kept: it and the other two searches differ in what they make of a place; as a closure that is no plainer.
pub(super) fn symbols_in(which: Which, h: u32, word: &[u8]) -> Result<(), Refusal>
    ensures { judged_told result ≡ refuse_at 3 (bad_symbol h word.now) (which.0 ∷ []) allowed }
{
    bad_symbol(h, word).map_or(Ok(()), |place| Err(Refusal::SymbolIn(which, Place(place))))
}

// 4: the message number needs more than its bits.
pub(super) fn message(h: u32, m: u32, message: MessageNumber) -> Result<(), Refusal>
    ensures { judged_told result ≡ refuse 4 (bad_message h m message.0) allowed }
{
    let bits = u64::from(shape::path_bits(m)) + u64::from(h) * (u64::from(m) + 1);
    refuse(reaches(message.0, bits), Refusal::Message)
}

// 6: eight phases.
pub(super) fn octary(h: u32) -> Result<(), Refusal>
    ensures { judged_told result ≡ refuse 6 (octary h) allowed }
{
    refuse(h == 3, Refusal::Octary)
}

// 7: the first of the first N entries that is no input. Of a shorter area all are looked at.
pub(super) fn values(m: u32, area: &[i32]) -> Result<(), Refusal>
    ensures { judged_told result ≡ refuse_at 7 (bad_value m area.now) [] allowed }
{
    bad_value(m, area).map_or(Ok(()), |place| Err(Refusal::Value(Place(place))))
}

// That refusal where a test holds.
fn refuse(test: bool, why: Refusal) -> Result<(), Refusal>
    ensures { judged_told result ≡ cond test (refusal_told why) allowed }
{
    if test { Err(why) } else { Ok(()) }
}

// Whether x is 2^e, and whether it is 2^e or more.
fn is_power(x: u64, e: u64) -> bool
    ensures { result ≡ eqb x (2 ^ e) }
{
    e < 64 && x == 1u64 << e
}

fn reaches(x: u64, e: u64) -> bool
    ensures { result ≡ leb (2 ^ e) x }
{
    e < 64 && 1u64 << e <= x
}

// The first symbol that is 2^h or more, and the first input of the transform that is none, by their places.
fn bad_symbol(h: u32, word: &[u8]) -> Option<usize>
    ensures { search_told result ≡ bad_symbol h word.now }
{
    first_reaching(word, h)
}

fn bad_value(m: u32, area: &[i32]) -> Option<usize>
    ensures { search_told result ≡ bad_value m area.now }
{
    first_outside(&area[..looked_at(area.len(), m)])
}

// The same by the library's search: the first symbol that is 2^h or more, the first entry that is out of range.
fn first_reaching(word: &[u8], h: u32) -> Option<usize>
    ensures { result ≡ position (λ s. leb (phases h) s) word.now }
{
    word.iter()
        .position(|&symbol| reaches(u64::from(symbol), u64::from(h)))
}

fn first_outside(entries: &[i32]) -> Option<usize>
    ensures { result ≡ position (λ v. not (accepted v)) entries.now }
{
    entries.iter().position(|&v| !takes(v))
}

// The lesser of n and N.
fn looked_at(n: usize, m: u32) -> usize
    ensures { result ≡ min n (carriers m) }
{
    if reaches(n as u64, u64::from(m)) {
        shape::power(m) as usize
    } else {
        n
    }
}

// Whether an input is in its range.
fn takes(v: i32) -> bool
    ensures { result ≡ accepted v }
{
    (LEAST..=GREATEST).contains(&v)
}
