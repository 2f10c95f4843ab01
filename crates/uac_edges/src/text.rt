// A line of text in a buffer of fixed size, which takes no memory.
ghost use Rattle.hex.specs.Hex.{encode_lower};
ghost use Rattle.std.specs.Prelude.{◌≡◌, ◌+◌, ◌*◌, ◌<◌, ◌≤◌, if◌then◌else◌, [], ◌∷◌, ◌++◌, length, unsigned_abs, decimal};
ghost use Rattle.uac_edges.specs.Numerals.{numeral};

use arrayvec::ArrayVec;
use hex::encode_to_slice;
use itoa::Buffer;
use std::marker::Model;

/// A text of at most `N` bytes.
#[derive(Drop)]
pub struct TextLine<const N: usize> {
    bytes: ArrayVec<u8, N>,
}

impl<const N: usize> Model for TextLine<N> {
    ghost use Rattle.std.specs.Prelude.{ℕ, List};

    ghost Value = { List ℕ };

    ghost view = { λ t. t.bytes.items };
}

impl<const N: usize> TextLine<N> {
    /// An empty text.
    #[inline]
    pub fn new() -> Self
        ensures { result ≡ [] }
    {
        TextLine {
            bytes: ArrayVec::new(),
        }
    }

    /// Appends `text`, for which there has to be room.
    #[inline]
    pub fn push(&mut self, text: &[u8])
        requires { length self.old + length text.now ≤ N }
        ensures text { self.new ≡ self.old ++ text.now }
        ensures len { length self.new ≡ length self.old + length text.now }
    {
        match self.bytes.try_extend_from_slice(text) {
            Ok(()) => {}
            Err(_) => unreachable!(),
        }
    }

    /// Appends a byte, for which there has to be room.
    #[inline]
    pub fn push_byte(&mut self, byte: u8)
        requires { length self.old + 1 ≤ N }
        ensures text { self.new ≡ self.old ++ byte ∷ [] }
        ensures len { length self.new ≡ length self.old + 1 }
    {
        self.bytes.push(byte);
    }

    /// Appends `number` in decimal digits, for at most 20 of which there has to be room.
    #[inline]
    pub fn push_number(&mut self, number: u64)
        requires { length self.old + 20 ≤ N }
        ensures text { self.new ≡ self.old ++ decimal number }
        ensures len { length self.new ≤ length self.old + 20 }
    {
        if number < 10 {
            self.push_byte(digit(number));
        } else if number < 1000 {
            self.push_few_digits(number);
        } else {
            self.push_digits(number);
        }
    }

    // Appends the digits of a number of two or three.
    #[inline(never)]
    fn push_few_digits(&mut self, number: u64)
        requires large { 10 ≤ number }
        requires small { number < 1000 }
        requires room { length self.old + 3 ≤ N }
        ensures text { self.new ≡ self.old ++ decimal number }
        ensures len { length self.new ≤ length self.old + 3 }
    {
        self.push_below_hundred(number / 10);
        self.push_byte(digit(number % 10));
    }

    // Appends one digit or two.
    #[inline]
    fn push_below_hundred(&mut self, number: u64)
        requires small { number < 100 }
        requires room { length self.old + 2 ≤ N }
        ensures text { self.new ≡ self.old ++ decimal number }
        ensures len { length self.new ≤ length self.old + 2 }
    {
        if number < 10 {
            self.push_byte(digit(number));
        } else {
            self.push_byte(digit(number / 10));
            self.push_byte(digit(number % 10));
        }
    }

    // Appends the digits of a number of any size, which are made in an array of their own.
    #[inline(never)]
    fn push_digits(&mut self, number: u64)
        requires { length self.old + 20 ≤ N }
        ensures text { self.new ≡ self.old ++ decimal number }
        ensures len { length self.new ≤ length self.old + 20 }
    {
        let mut digits = Buffer::new();
        self.push(digits.format(number).as_bytes());
    }

    /// Appends `number` in decimal digits, with a minus sign where it is negative, for at most 21 of which there has to be room.
    #[inline]
    pub fn push_signed(&mut self, number: i32)
        requires { length self.old + 21 ≤ N }
        ensures text { self.new ≡ self.old ++ numeral number }
        ensures len { length self.new ≤ length self.old + 21 }
    {
        if is_negative(number) {
            self.push_byte(b'-');
        }
        self.push_number(u64::from(number.unsigned_abs()));
    }

    /// Appends `bytes`, at most 255, in lower-case hexadecimal digits, for two of which each there has to be room.
    pub fn push_hex(&mut self, bytes: &[u8])
        requires few { length bytes.now ≤ 255 }
        requires room { length self.old + 2 * length bytes.now ≤ N }
        ensures text { self.new ≡ self.old ++ encode_lower bytes.now }
        ensures len { length self.new ≡ length self.old + 2 * length bytes.now }
    {
        let mut digits = [0; 510];
        let end = 2 * bytes.len();
        match encode_to_slice(bytes, &mut digits[..end]) {
            Ok(()) => self.push(&digits[..end]),
            Err(_) => unreachable!(),
        }
    }

    /// Lends the text.
    #[inline]
    pub fn as_bytes(&self) -> &[u8]
        ensures text { result.now ≡ self.now }
        ensures fits { length result.now ≤ N }
    {
        self.bytes.as_slice()
    }
}

/// The digit of a value, in ASCII.
fn digit(value: u64) -> u8
    requires { value < 10 }
    ensures { result ≡ 48 + value }
{
    b'0' + value as u8
}

/// Whether a minus sign stands before the size of a number.
fn is_negative(number: i32) -> bool
    ensures { numeral number ≡ (if result then 45 ∷ decimal (unsigned_abs number) else decimal (unsigned_abs number)) }
{
    number < 0
}
