// Soft values for the programs: what a receiver could hear of a word, or of nothing but noise. 01 "What the receiver
// hears". Noise comes from a linear congruential generator, so a seed gives the same values everywhere. Contracts cite
// specs/Tones.antt, which says how a value is made.
#![tactic(auto)]

ghost use Rattle.std.specs.Prelude.{◌≤◌, ◌≡◌, get_or};
ghost use Rattle.tones.specs.Tones.{next, bounded, side, tone, moved, lowered, Sounded};

// The value 0, raised.
const ZERO: u64 = 32768;

// The most that a level or a noise counts as.
const MOST: u64 = 32768;

// How a word is heard: at a level, each value off by at most `noise`, by numbers drawn from `seed` on. Both are at most
// 32,768; what is greater counts as that.
#[derive(Clone, Copy)]
pub struct Channel {
    pub level: u64,
    pub noise: u64,
    pub seed: u64,
}

impl Channel {
    // Value e of the word, raised: that of place e for two phases, for four the real and the imaginary part by turns.
    #[tactic(auto, unfolding(crate::specs::Tones::tone))]
    fn tone(self, four: bool, word: &[u8], e: usize) -> u64
        ensures value { result ≡ tone self.level four word.now e }
        ensures bound { result ≤ 65536 }
    {
        if !four {
            return self.side(symbol(word, e) == 0);
        }
        let s = symbol(word, e / 2);
        if s % 2 != e % 2 {
            return ZERO;
        }
        self.side(s < 2)
    }

    // The level above 0 or below it, raised.
    fn side(self, up: bool) -> u64
        ensures value { result ≡ side self.level up }
        ensures bound { result ≤ 65536 }
    {
        let size = self.level.min(MOST);
        if up { ZERO + size } else { ZERO - size }
    }

    // A raised value off by at most `noise` either way; not below 0.
    #[tactic(auto, unfolding(crate::specs::Tones::moved))]
    fn moved(self, value: u64, seed: u64) -> u64
        requires { value ≤ 65536 }
        ensures { result ≡ moved value self.noise seed }
    {
        let size = self.noise.min(MOST);
        (value + seed / 1024 % (2 * size + 1)).saturating_sub(size)
    }
}

// Fills y with what is heard of the word: two phases where y has a value for each place, else four, with two values for
// each. Places behind the word count as symbol 0. Answers the seed to go on with.
pub fn hear(channel: Channel, word: &[u8], y: &mut [i16]) -> u64
    ensures { Sounded channel word.now y.old result y.new }
{
    let four = word.len() < y.len();
    let mut seed = channel.seed;
    for (e, value) in y.iter_mut().enumerate() {
        seed = next(seed);
        *value = lowered(channel.moved(channel.tone(four, word, e), seed));
    }
    seed
}

fn symbol(word: &[u8], i: usize) -> usize
    ensures { result ≡ get_or word.now i 0 }
{
    word.get(i).copied().map_or(0, usize::from)
}

// The value that a raised one stands for.
#[tactic(auto, unfolding(crate::specs::Tones::lowered))]
fn lowered(value: u64) -> i16
    ensures { result ≡ lowered value }
{
    (value.min(65535) as i32 - 32768) as i16
}

// The next number of the generator.
fn next(seed: u64) -> u64
    ensures { result ≡ next seed }
{
    (seed % 2147483648 * 1103515245 + 12345) % 2147483648
}
