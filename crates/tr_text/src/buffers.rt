ghost use Rattle.std.specs.Prelude.{◌≡◌, ◌+◌, ◌<◌, ◌≤◌, ◌++◌, [], decimal, drop, false, length};
ghost use Rattle.std.specs.Fmt.{digit_glyph, digits, signed_decimal};
ghost use Rattle.tr_text.specs.Buffers.{Composed};

use itoa::write_digits;
use std::marker::Model;

/// A text in an array of `N` bytes. It is composed from its end on: each piece comes before what stands there.
#[derive(Drop)]
pub struct TextBuffer<const N: usize> {
    bytes: [u8; N],
    start: usize,
}

impl<const N: usize> Model for TextBuffer<N> {
    ghost Value = { Composed };

    ghost view = { λ b. record { text = drop b.start b.bytes; room = b.start } };

    ghost invariant = { λ b. b.start ≤ N };
}

impl<const N: usize> TextBuffer<N> {
    /// Makes an empty text.
    #[inline(always)]
    pub fn new() -> Self
        ensures text { result.text ≡ [] }
        ensures room { result.room ≡ N }
    {
        TextBuffer {
            bytes: [0; N],
            start: N,
        }
    }

    /// Gives the text.
    #[inline(always)]
    pub fn as_bytes(&self) -> &[u8]
        ensures { result.now ≡ self.now.text }
    {
        let bytes = &self.bytes[..];
        &bytes[self.start..]
    }

    /// Puts a piece before the text.
    #[inline(always)]
    pub fn prepend(&mut self, piece: &[u8])
        requires { length piece.now ≤ self.old.room }
        ensures text { self.new.text ≡ piece.now ++ self.old.text }
        ensures room { self.new.room + length piece.now ≡ self.old.room }
    {
        let end = self.start;
        self.start = end - piece.len();
        let bytes = &mut self.bytes[..];
        bytes[self.start..end].copy_from_slice(piece);
    }

    /// Puts a number before the text, in decimal digits.
    #[inline(always)]
    pub fn prepend_number(&mut self, number: u64)
        requires { 20 ≤ self.old.room }
        ensures text { self.new.text ≡ decimal number ++ self.old.text }
        ensures room { self.new.room + length (decimal number) ≡ self.old.room }
        ensures short { length (decimal number) ≤ 20 }
    {
        self.start = write_digits(number, &mut self.bytes, self.start);
    }

    /// Puts a number before the text, in decimal digits, after a `-` where it is below 0.
    #[inline(always)]
    pub fn prepend_signed(&mut self, number: i32)
        requires { 21 ≤ self.old.room }
        ensures text { self.new.text ≡ signed_decimal number ++ self.old.text }
        ensures room { self.new.room + length (signed_decimal number) ≡ self.old.room }
        ensures short { length (signed_decimal number) ≤ 21 }
    {
        self.prepend_number(u64::from(number.unsigned_abs()));
        if number < 0 {
            self.prepend(b"-");
        }
    }

    /// Puts a number before the text, in hexadecimal digits of lower case.
    pub fn prepend_hexadecimal(&mut self, number: u32)
        requires { 8 ≤ self.old.room }
        ensures text { self.new.text ≡ digits 16 false number ++ self.old.text }
        ensures room { self.new.room + length (digits 16 false number) ≡ self.old.room }
        ensures short { length (digits 16 false number) ≤ 8 }
    {
        let mut left = number;
        for _ in 0..8u32 {
            self.prepend(&[digit((left % 16) as u8)]);
            left /= 16;
            if left == 0 {
                return;
            }
        }
    }
}

/// The hexadecimal digit of a number below 16.
#[inline(always)]
fn digit(number: u8) -> u8
    requires { number < 16 }
    ensures { result ≡ digit_glyph false number }
{
    if number < 10 {
        b'0' + number
    } else {
        b'a' - 10 + number
    }
}
