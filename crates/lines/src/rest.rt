// Takes the pieces of a line: a name, a number, a word and a list. Each method takes its piece off the front of what is
// left, and answers None where it is not there; the line is then no case.
//   name        what stands before the next space
//   number      a space and digits, leading zeros allowed
//   word        a space and [0002(255)3]: a digit for each symbol below 10, and parentheses round any other
//   list        a space and [1 -2 32767]: signed numbers with one space between two
use arrayvec::ArrayVec;
use kinds::MessageNumber;
use shape::PLACES;
use std::num::NonZeroU32;
use std::str;
use std::str::FromStr;

// Most symbols of a word, and most numbers of a list: twice the longest slice that a call takes.
pub const MOST: usize = 4 * PLACES;

// The length of the longest name, `transform`.
const LONGEST_NAME: usize = 9;

// Up to so many symbols or numbers.
pub type Row<T> = ArrayVec<T, MOST>;

// What is left of a line.
#[derive(Clone, Copy)]
pub struct Rest<'a> {
    bytes: &'a [u8],
}

impl<'a> Rest<'a> {
    pub(super) fn of(bytes: &'a [u8]) -> Self {
        Rest { bytes }
    }

    // Whether nothing is left.
    pub(super) fn is_empty(&self) -> bool {
        self.bytes.is_empty()
    }

    // No more is looked at than the longest name and its space.
    pub(super) fn name(&mut self) -> &'a [u8] {
        self.until(LONGEST_NAME + 1, |&byte| byte == b' ')
    }

    pub(super) fn number<T: FromStr<Err: Drop>>(&mut self) -> Option<T> {
        self.text(b" ")?;
        self.digits()
    }

    pub(super) fn message(&mut self) -> Option<MessageNumber> {
        self.number().map(MessageNumber)
    }

    pub(super) fn word(&mut self) -> Option<Row<u8>> {
        let mut word = Row::new();
        self.text(b" [")?;
        while self.text(b"]").is_none() {
            word.try_push(self.symbol()?).ok()?;
        }
        Some(word)
    }

    pub(super) fn list<T: Default + Drop + TryFrom<i64, Error: Drop>>(&mut self) -> Option<Row<T>> {
        let mut list = Row::new();
        self.text(b" [")?;
        while self.text(b"]").is_none() {
            if !list.is_empty() {
                self.text(b" ")?;
            }
            list.try_push(self.signed()?).ok()?;
        }
        Some(list)
    }

    // A text as it stands.
    fn text(&mut self, text: &[u8]) -> Option<()> {
        self.bytes = self.bytes.strip_prefix(text)?;
        Some(())
    }

    // What stands before the first byte that ends it, or else all that is looked at: the most, or what is left.
    fn until<E: FnMut(&u8) -> bool>(&mut self, most: usize, ends: E) -> &'a [u8]
        requires { E.IsAlwaysCallable ends }
    {
        let all = self.bytes;
        let most = most.min(all.len());
        let end = all[..most].iter().position(ends).unwrap_or(most);
        let (front, bytes) = all.split_at(end);
        self.bytes = bytes;
        front
    }

    // One or more digits.
    fn digits<T: FromStr<Err: Drop>>(&mut self) -> Option<T> {
        let digits = self.until(usize::MAX, |byte| !byte.is_ascii_digit());
        str::from_utf8(digits).ok()?.parse().ok()
    }

    // One digit, or a number from 10 on in parentheses.
    fn symbol(&mut self) -> Option<u8> {
        let (first, bytes) = self.bytes.split_first()?;
        self.bytes = bytes;
        match *first {
            digit @ b'0'..=b'9' => Some(digit - b'0'),
            b'(' => {
                let symbol = self.digits()?;
                self.text(b")")?;
                (10 <= symbol).then_some(symbol)
            }
            _ => None,
        }
    }

    // A minus sign stands only before a number that is below zero.
    fn signed<T: TryFrom<i64, Error: Drop>>(&mut self) -> Option<T> {
        let number = match self.text(b"-") {
            Some(()) => -i64::from(self.digits::<NonZeroU32>()?.get()),
            None => i64::from(self.digits::<u32>()?),
        };
        T::try_from(number).ok()
    }
}
