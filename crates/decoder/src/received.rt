// What a decoder received, whatever it is: what each symbol gains at each place, and what a search through the gains
// tells of it. The gains are natural numbers, greater where a symbol fits better (totals, specs/Gains.antt).
ghost use Rattle.std.specs.Prelude.{ℕ, ◌*◌, ◌≤◌, ◌<◌, ◌≡◌, Bool, length};
ghost use Rattle.rules.specs.Shape.{phases, carriers};
ghost use Rattle.rules.specs.Label.{message_of};
ghost use Rattle.totals.specs.Gains.{table_of};
ghost use Rattle.shape.specs.declared.Shape.{Shape};
ghost use Rattle.standing.specs.declared.Standing.{Standing};
ghost use Rattle.standing.specs.Lead.{tied_of};
ghost use Rattle.engine.specs.Search.{greatest_decoded, searched};
ghost use Rattle.decoder.specs.Seen.{IsSeen};

use answers::Found;
use engine::GREATEST_DECODED;
use shape::{PLACES, Shape};
use standing::Standing;

// The greatest table of gains: a run of places for each symbol of the most phases that are decoded.
const GAINS: usize = PLACES << GREATEST_DECODED;

// Soft values, or symbols, of a shape that is decoded, and the kind of value that an answer to them has.
pub(super) trait Received {
    type Value;

    ghost shape: { Self → Shape };

    ghost gain: { Self → ℕ → ℕ → ℕ };

    // What is known of what is received once the gain of a symbol at a place is asked for.
    ghost seen: { Self → ℕ → ℕ → Type 0 };

    // Whether the standing of a search may be told, and the value that it tells.
    ghost can_tell: { Self → Standing → Type 0 };

    ghost told: { Self → Standing → Self.Value };

    // Whether a message, its value and tied are the right answer.
    ghost right: { Self → ℕ → Self.Value → Bool → Type 0 };

    fn shape(&self) -> Shape
        ensures { result ≡ shape self.now };

    // What a symbol gains at a place.
    fn gain(&self, place: usize, symbol: usize) -> u32
        requires { (place < carriers (shape self.now).m) × (symbol < phases (shape self.now).h) }
        ensures told { result ≡ gain self.now place symbol }
        ensures seen { seen self.now place symbol };

    // The value that the standing of a search through the gains stands for.
    fn value(&self, led: Standing) -> Self::Value
        requires { can_tell self.now led }
        ensures { result ≡ told self.now led };

    // The shape has two or four phases. Once all gains are asked for, the standing of the search through them may be
    // told, and the answer that it tells is right.
    ghost few: { (r : Self) → (shape r).h ≤ greatest_decoded };

    ghost tells: { (r : Self) (led : Standing) → IsSeen (carriers (shape r).m) (phases (shape r).h) (seen r)
        → led ≡ searched (shape r).h (shape r).m (table_of (shape r).h (shape r).m (gain r)) → can_tell r led };

    ghost finds: { (r : Self) (led : Standing) → IsSeen (carriers (shape r).m) (phases (shape r).h) (seen r)
        → led ≡ searched (shape r).h (shape r).m (table_of (shape r).h (shape r).m (gain r))
        → right r (message_of (shape r).h (shape r).m led.label) (told r led) (tied_of led) };
}

// The answer to what is received, by way of an area for the gains.
pub(super) fn decode<R: Received>(received: &R) -> Found<R::Value>
    ensures { R.right received.now result.message.0 result.value result.tied }
{
    let shape = received.shape();
    // Kept: fixed memory, without a heap, of which a slice is lent.
    let mut gains = [0u32; GAINS];
    let gains = &mut gains[..shape.phases() as usize * shape.carriers()];
    fill(received, gains);
    let led = engine::search(shape.h, shape.m, gains);
    Found {
        message: shape::message_of(shape.h, shape.m, led.label),
        value: received.value(led),
        tied: led.tied(),
    }
}

// Fills a table with the gains: a run of all places for each symbol.
fn fill<R: Received>(received: &R, gains: &mut [u32])
    requires { length gains.old ≡ phases (R.shape received.now).h * carriers (R.shape received.now).m }
    ensures filled { gains.new ≡ table_of (R.shape received.now).h (R.shape received.now).m (R.gain received.now) }
    ensures seen { IsSeen (carriers (R.shape received.now).m) (phases (R.shape received.now).h) (R.seen received.now) }
{
    let n = received.shape().carriers();
    for (e, gain) in gains.iter_mut().enumerate() {
        *gain = received.gain(e % n, e / n);
    }
}
