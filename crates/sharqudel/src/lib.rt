// The library as programs in other languages link it: each call of document 01 under a name with the prefix sharqudel_,
// over numbers, slices and cells alone. include/sharqudel.h declares these functions for C.
// An answer leaves in pieces. The result is the refusal's number in 01's table, 0 where nothing is refused. What a call
// gives goes into cells, and so do the numbers that a refusal carries: its first bad place and, of the pair check,
// which word. A cell that an answer has nothing for stays as it was.
// Kept, as C links them: a number for a refusal, cells, and a function for each call, also where two are alike.
// Each call hands on to one of the crates below and takes its answer apart. Contracts cite specs/Out.antt and
// Crossing.antt.
#![tactic(auto)]

ghost use Rattle.std.specs.Prelude.{◌≡◌, length, get_or};
ghost use Rattle.rules.specs.Word.{word_of, partner_of};
ghost use Rattle.rules.specs.Refusal.{pair_outcome, read_outcome, transform_refusal};
ghost use Rattle.kinds.specs.Refusals.{refusal_carries};
ghost use Rattle.encoder.specs.Sent.{written_told};
ghost use Rattle.sharqudel.specs.Crossing.{kind_of, Tells};
ghost use Rattle.sharqudel.specs.Out.{SentOut, CheckedOut, ReadOut, SoftOut, HardOut, JudgedOut, TransformedOut};

use kinds::{MessageNumber, Refusal};

// Writes the N symbols of the message's word to out. Refuses 1, 2 and 4; out then stays as it was.
#[unsafe(no_mangle)]
pub extern "C" fn sharqudel_encode(h: u32, m: u32, message: u64, out: &mut [u8]) -> u32
    ensures { SentOut h m message (word_of h m message) out.old result out.new }
{
    written(encoder::encode(h, m, MessageNumber(message), out))
}

// Writes the N symbols of the partner of the message's word to out. Refuses as sharqudel_encode does.
#[unsafe(no_mangle)]
pub extern "C" fn sharqudel_partner(h: u32, m: u32, message: u64, out: &mut [u8]) -> u32
    ensures { SentOut h m message (partner_of h m message) out.old result out.new }
{
    written(encoder::partner(h, m, MessageNumber(message), out))
}

// Whether two words are a Golay pair, into pair. Refuses 1, 2 and 3, 3 with the first bad place into place and the
// number of its word, 1 or 2, into which; the first word is looked through first. Both words are only read.
#[unsafe(no_mangle)]
pub extern "C" fn sharqudel_check(
    h: u32,
    m: u32,
    first: &[u8],
    second: &[u8],
    pair: &mut bool,
    place: &mut usize,
    which: &mut u32,
) -> u32
    ensures { CheckedOut (pair_outcome h m first.now second.now) result
        pair.old pair.new place.old place.new
        which.old which.new }
{
    match pair::check(h, m, first, second) {
        Ok(yes) => {
            *pair = yes;
            0
        }
        Err(why) => {
            name(why, which);
            tell(why, place)
        }
    }
}

// The message whose word the symbols are exactly, into message. Refuses 1, 2, 3 and 5, 3 with the first bad place into
// place. The word is only read.
#[unsafe(no_mangle)]
pub extern "C" fn sharqudel_read(
    h: u32,
    m: u32,
    word: &[u8],
    message: &mut u64,
    place: &mut usize,
) -> u32
    ensures { ReadOut (read_outcome h m word.now) result
        message.old message.new place.old place.new }
{
    match reader::read(h, m, word) {
        Ok(found) => {
            *message = found.0;
            0
        }
        Err(why) => tell(why, place),
    }
}

// The message of greatest correlation with the values, its correlation, and whether another word has it too. Only paths
// in use are searched, and equals go to the earliest label. Refuses 1, 6 and 2. The values are only read.
#[unsafe(no_mangle)]
pub extern "C" fn sharqudel_soft(
    h: u32,
    m: u32,
    values: &[i16],
    message: &mut u64,
    correlation: &mut i32,
    tied: &mut bool,
) -> u32
    ensures { SoftOut h m values.now result message.old message.new
        correlation.old correlation.new tied.old tied.new }
{
    match decoder::soft(h, m, values) {
        Ok(found) => {
            *message = found.message.0;
            *correlation = found.value;
            *tied = found.tied;
            0
        }
        Err(why) => why.number(),
    }
}

// The message of the word nearest to the symbols, its distance, and whether another word has it too. Only paths in use
// are searched, and equals go to the earliest label. Refuses 1, 6, 2 and 3, 3 with the first bad place into place. The
// word is only read.
#[unsafe(no_mangle)]
pub extern "C" fn sharqudel_hard(
    h: u32,
    m: u32,
    word: &[u8],
    message: &mut u64,
    distance: &mut u32,
    tied: &mut bool,
    place: &mut usize,
) -> u32
    ensures { HardOut h m word.now result message.old message.new
        distance.old distance.new tied.old tied.new
        place.old place.new }
{
    match decoder::hard(h, m, word) {
        Ok(found) => {
            *message = found.message.0;
            *distance = found.value;
            *tied = found.tied;
            0
        }
        Err(why) => tell(why, place),
    }
}

// The refusal that sharqudel_transform gives on these areas as they stand, 0 where it gives none. 7 has the first bad
// place into place. The areas are only read.
#[unsafe(no_mangle)]
pub extern "C" fn sharqudel_refusal(m: u32, first: &[i32], second: &[i32], place: &mut usize) -> u32
    ensures { JudgedOut (transform_refusal m first.now (length second.now)) result
        place.old place.new }
{
    match refusals::transform(m, first, second) {
        Ok(()) => 0,
        Err(why) => tell(why, place),
    }
}

// Transforms the first N entries of the first area between the two. The spectrum is then the first N entries of the
// area whose number, 1 or 2, goes into area: the first for even m, the second for odd m. The other area then holds what
// stood after stage m - 1, and entries from N on stay. Refuses 1, 2 and 7, 7 with the first bad place into place; both
// areas then stay as they were.
#[unsafe(no_mangle)]
pub extern "C" fn sharqudel_transform(
    m: u32,
    first: &mut [i32],
    second: &mut [i32],
    area: &mut u32,
    place: &mut usize,
) -> u32
    ensures { TransformedOut m first.old second.old result
        area.old area.new place.old place.new
        first.new second.new }
{
    match refusals::transform(m, first, second) {
        Ok(()) => {
            transform::run(m, first, second);
            *area = 1 + m % 2;
            0
        }
        Err(why) => tell(why, place),
    }
}

// The number of what encode and partner answer.
fn written(answer: Result<(), Refusal>) -> u32
    ensures { result ≡ kind_of (written_told answer) }
{
    match answer {
        Ok(()) => 0,
        Err(why) => why.number(),
    }
}

// The number of a refusal, and its place, where it carries one, into the cell.
fn tell(why: Refusal, place: &mut usize) -> u32
    ensures { Tells why result place.old place.new }
{
    locate(why, place);
    why.number()
}

// The place that a refusal carries, where it carries one, into the cell.
fn locate(why: Refusal, place: &mut usize)
    ensures { place.new ≡ get_or (refusal_carries why) 0 place.old }
{
    if let Some(found) = why.place() {
        *place = found.0;
    }
}

// The number of the word that a refusal speaks of, where it speaks of one, into the cell.
// Kept: it and `locate` differ in the type of their cells, which C has them be.
fn name(why: Refusal, which: &mut u32)
    ensures { which.new ≡ get_or (refusal_carries why) 1 which.old }
{
    if let Some(word) = why.which() {
        *which = word.0;
    }
}
