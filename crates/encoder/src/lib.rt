// Encode and partner: document 01 "What a logger may send" and "The partner and the pair check", 001 Corollary 4.
// Both refuse 1, 2 and 4, in that order, and a refusal writes nothing. The rows of the generator are combined place by
// place; the partner adds 2^(h-1) of row p(1). Contracts cite specs/Sent.antt, and for the steps specs/Arrays.antt and
// specs/Forms.antt.
#![tactic(auto)]

ghost use Rattle.std.specs.Prelude.{◌+◌, ◌-◌, ◌*◌, ◌%◌, ◌≤◌, ◌<◌, ◌≡◌, ℕ, length, slice_index};
ghost use Rattle.range.specs.Below.{list_below};
ghost use Rattle.rules.specs.Shape.{carriers, phases, half_turn, greatest_h, greatest_m};
ghost use Rattle.rules.specs.Place.{digit, generator_at};
ghost use Rattle.rules.specs.Label.{labels, label_of};
ghost use Rattle.rules.specs.Word.{word_of, partner_of};
ghost use Rattle.encoder.specs.Arrays.{generator_rows, cell, lifted_at, Split};
ghost use Rattle.encoder.specs.Sent.{Sent};

use kinds::{MessageNumber, PathNumber, Refusal};
use shape::{PLACES, ROWS, STEPS, Shape};
use std::array;

// A label taken apart: its path number, and its coefficients, c and then c_1 to c_m.
#[derive(Clone, Copy)]
struct Parts {
    path: PathNumber,
    coefficients: [u32; ROWS],
}

// Writes the N symbols of the message's word to out. Refuses 1 a shape out of range, 2 an out that is not N long, 4 a
// message number that needs more than its bits; out then stays as it was.
pub fn encode(h: u32, m: u32, message: MessageNumber, out: &mut [u8]) -> Result<(), Refusal>
    ensures { Sent h m message.0 (word_of h m message.0) out.old result out.new }
{
    send(h, m, message, 0, out)
}

// Writes the N symbols of the partner of the message's word to out. Refuses as encode does.
// Kept: two of 01's calls by name, and one function, `send`, of both.
pub fn partner(h: u32, m: u32, message: MessageNumber, out: &mut [u8]) -> Result<(), Refusal>
    ensures { Sent h m message.0 (partner_of h m message.0) out.old result out.new }
{
    send(h, m, message, 1, out)
}

// The word with lift half turns of the first step's row added: the word for lift 0 and the partner for lift 1.
fn send(h: u32, m: u32, message: MessageNumber, lift: u32, out: &mut [u8]) -> Result<(), Refusal>
    requires { lift ≤ 1 }
    ensures { Sent h m message.0
        (list_below (carriers m) (lifted_at h m (label_of h m message.0) (lift * half_turn h)))
        out.old result out.new }
{
    refusals::send(h, m, out.len(), message)?;
    let label = shape::label_of(h, m, message);
    fill(Shape { h, m }, label, lift, out);
    Ok(())
}

// Writes the lifted word of a label, place by place.
fn fill(shape: Shape, label: u64, lift: u32, out: &mut [u8])
    requires lift_bound { lift ≤ 1 }
    requires label_bound { label < labels shape.h shape.m }
    requires out_len { length out.old ≡ carriers shape.m }
    ensures { out.new ≡ list_below (carriers shape.m) (lifted_at shape.h shape.m label (lift * half_turn shape.h)) }
{
    let Parts { path, coefficients } = split(shape, label);
    let generator = generator(shape);
    let steps = steps::steps(shape.m, path);
    let lift = lift * shape.half_turn() as u32;
    let form = Form {
        shape,
        generator,
        steps,
        coefficients,
        lift,
    };
    form.write(out);
}

// What the symbols of a word are summed from: the generator, a row for each coefficient; the steps of the path; the
// coefficients, c and then c_1 to c_m; and the lift, what the row of the first step is multiplied by. The ghost fields
// bound them, so that no sum wraps and no index lies outside.
#[derive(Clone, Copy)]
struct Form {
    shape: Shape,
    generator: [[u8; PLACES]; ROWS],
    steps: [u8; STEPS],
    coefficients: [u32; ROWS],
    lift: u32,
    ghost digits: { (r i : ℕ) → r ≤ shape.m → i < carriers greatest_m → cell generator r i ≤ 1 },
    ghost small: { (r : ℕ) → r ≤ shape.m → slice_index coefficients r < phases greatest_h },
    ghost rows: { (k : ℕ) → k < shape.m → slice_index steps k ≤ shape.m },
    ghost lifted: { lift ≤ half_turn greatest_h },
}

// A column of the generator: a place of the longest word.
#[derive(Clone, Copy)]
struct Column {
    place: usize,
    ghost inside: { place < carriers greatest_m },
}

impl Form {
    ghost use Rattle.encoder.specs.Forms.{linear_in, links_in, symbol_in};

    // Writes the symbol of each place of out.
    fn write(self, out: &mut [u8])
        requires { length out.old ≤ carriers greatest_m }
        ensures { out.new ≡ list_below (length out.old) (symbol_in self) }
    {
        for (place, symbol) in out.iter_mut().enumerate() {
            *symbol = self.symbol(Column { place });
        }
    }

    // The symbol at a place: the links times half the phases, the rows times their coefficients, and the first step's
    // row times the lift.
    fn symbol(&self, at: Column) -> u8
        ensures { result ≡ symbol_in self.now at.place }
    {
        let half = self.shape.half_turn() as u32;
        let q = self.shape.phases() as u32;
        let links = self.links(at);
        let linear = self.linear(at);
        let first = self.digit(self.steps[0], at);
        ((half * links + linear + self.lift * first) % q) as u8
    }

    // The sum over the rows of the generator of coefficient times digit.
    fn linear(&self, at: Column) -> u32
        ensures { result ≡ linear_in self.now at.place }
    {
        let n = self.shape.m as usize + 1;
        let mut sum = 0;
        for (c, row) in self.coefficients[..n].iter().zip(&self.generator) {
            sum += c * u32::from(row[at.place]);
        }
        sum
    }

    // The sum over the links of the path of digit times digit.
    fn links(&self, at: Column) -> u32
        ensures { result ≡ links_in self.now at.place }
    {
        let n = self.shape.m as usize;
        let mut sum = 0;
        for link in self.steps[..n].windows(2) {
            sum += self.digit(link[0], at) * self.digit(link[1], at);
        }
        sum
    }

    // The digit that a step names.
    fn digit(&self, step: u8, at: Column) -> u32
        requires { step ≤ greatest_m }
        ensures { result ≡ cell self.now.generator step at.place }
    {
        u32::from(self.generator[usize::from(step)][at.place])
    }
}

// The generator: the all-ones row, then the rows x_1 to x_m.
fn generator(shape: Shape) -> [[u8; PLACES]; ROWS]
    ensures { result ≡ generator_rows shape.m }
{
    array::from_fn(
        |r|
            requires { r ≤ greatest_m }
            ensures { result ≡ list_below (carriers greatest_m) (generator_at shape.m r) }
        {
            if r == 0 {
                [1; PLACES]
            } else {
                digits(shape, r)
            }
        },
    )
}

// The row x_r: the digit x_r of each place.
fn digits(shape: Shape, r: usize) -> [u8; PLACES]
    requires { r ≤ greatest_m }
    ensures { result ≡ list_below (carriers greatest_m) (λ i. digit shape.m i r) }
{
    array::from_fn(|i| digit(shape, i, r))
}

// The digit x_r of place i, x_1 the most significant of m.
#[tactic(auto, unfolding(rules::specs::Place::digit))]
fn digit(shape: Shape, i: usize, r: usize) -> u8
    ensures { result ≡ digit shape.m i r }
{
    let e = (shape.m as usize).saturating_sub(r);
    ((i >> e) % 2) as u8
}

// The label taken apart, c first: each division by 2^h leaves what stands above.
fn split(shape: Shape, label: u64) -> Parts
    requires { label < labels shape.h shape.m }
    ensures { Split shape.h shape.m label result }
{
    let q = shape.phases();
    let mut coefficients = [0; ROWS];
    coefficients[0] = (label % q) as u32;
    let mut rest = label / q;
    for r in (1..=shape.m as usize).rev() {
        coefficients[r] = (rest % q) as u32;
        rest /= q;
    }
    Parts {
        path: PathNumber(rest as u32),
        coefficients,
    }
}
