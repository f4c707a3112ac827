//! A short text that is written one part after the other: words, numbers in decimal digits, bytes
//! in hexadecimal ones. The log's lines and the stored functions are written by it. And the number that
//! a word spells: believe `specs/Reading.antt`. The log, the stored functions and the modes stand above.
#![tactic(auto)]

ghost use Rattle.std.specs.Prelude.{◌≡◌, ◌≤◌, ◌+◌, ◌*◌, ◌^◌, ◌&&◌, ◌++◌, length, nat_le, nat_lt};
ghost use Rattle.std.specs.Bool.{then_some};
ghost use Rattle.std.specs.Char.{digit_value, is_ascii_digit};
ghost use Rattle.std.specs.Fmt.{decimal};
ghost use Rattle.std.specs.Str.{all_ascii_digits};
ghost use Rattle.std.specs.Str.Parse.{digits_value};
ghost use Rattle.hex.specs.Hex.{encode_lower};
ghost use Rattle.arrayvec.specs.ArrayVec.{array_vec_len};
ghost use Rattle.text_line.specs.Reading.{decimal_of};
ghost use Rattle.text_line.specs.Writing.{Writes, WritesUpTo};

use arrayvec::ArrayVec;

/// The most bytes of a line.
pub const LINE_MAX: usize = 256;

/// A line that is being written.
pub type Line = ArrayVec<u8, LINE_MAX>;

/// Appends bytes.
pub fn put(line: &mut Line, bytes: &[u8])
    requires { array_vec_len line.old + length bytes.now ≤ LINE_MAX }
    ensures { Writes bytes.now line.old.items line.new.items }
{
    let _fits = line.try_extend_from_slice(bytes);
}

/// The most digits of a number of 64 bits.
const DIGITS_MAX: usize = 20;

/// Appends a number in decimal digits, which are found from the last to the first.
fn put_decimal(line: &mut Line, number: u64)
    requires { array_vec_len line.old + length (decimal number) ≤ LINE_MAX }
    ensures { Writes (decimal number) line.old.items line.new.items }
{
    let mut digits = [0; DIGITS_MAX];
    let mut start = DIGITS_MAX - 1;
    let mut left = number;
    while left >= 10 {
        digits[start] = b'0' + (left % 10) as u8;
        start -= 1;
        left /= 10;
    }
    digits[start] = b'0' + left as u8;
    put(line, &digits[start..]);
}

/// Appends a number in decimal digits, at most 20.
#[tactic(auto, using(crate::proofs::Decimals::decimals))]
pub fn put_long(line: &mut Line, number: u64)
    requires { array_vec_len line.old + 20 ≤ LINE_MAX }
    ensures { WritesUpTo 20 (decimal number) line.old.items line.new.items }
{
    put_decimal(line, number);
}

/// Appends a number of 32 bits in decimal digits, at most 10.
#[tactic(auto, using(crate::proofs::Decimals::decimals))]
pub fn put_number(line: &mut Line, number: u32)
    requires { array_vec_len line.old + 10 ≤ LINE_MAX }
    ensures { WritesUpTo 10 (decimal number) line.old.items line.new.items }
{
    put_decimal(line, u64::from(number));
}

/// Appends at most 64 bytes as lower-case hexadecimal digits, two a byte.
pub fn put_hex(line: &mut Line, bytes: &[u8])
    requires few { length bytes.now ≤ 64 }
    requires room { array_vec_len line.old + 2 * length bytes.now ≤ LINE_MAX }
    ensures { WritesUpTo (2 * length bytes.now) (encode_lower bytes.now) line.old.items line.new.items }
{
    let mut digits = [0; 128];
    let len = 2 * bytes.len();
    let _fits = hex::encode_to_slice(bytes, &mut digits[..len]);
    put(line, &digits[..len]);
}

/// The number of 64 bits that bytes spell in decimal digits without a leading zero.
#[tactic(auto, using(crate::proofs::Readings::readings))]
pub fn long_of(digits: &[u8]) -> Option<u64>
    ensures { result ≡ decimal_of digits.now }
{
    match digits {
        [] => None,
        [digit] => digit_of(*digit),
        [b'0', ..] => None,
        [front @ .., last] => with_digit(front_of(front)?, *last),
    }
}

/// So many decimal digits make a number of 64 bits, whichever they are.
const FRONT_MAX: usize = 19;

/// The number that the digits in front of the last one make; none where a byte is no digit, or where
/// they are too many.
#[tactic(auto, using(crate::proofs::Digits::digits))]
fn front_of(digits: &[u8]) -> Option<u64>
    ensures { result ≡ then_some (all_ascii_digits digits.now && nat_le (length digits.now) FRONT_MAX)
        (digits_value 10 digits.now) }
{
    if digits.len() > FRONT_MAX {
        return None;
    }
    let mut number = 0;
    for digit in digits {
        number = number * 10 + digit_of(*digit)?;
    }
    Some(number)
}

/// The number that a last digit makes after a front, where 64 bits hold it.
fn with_digit(front: u64, last: u8) -> Option<u64>
    ensures { let number = front * 10 + digit_value last in result ≡ then_some (is_ascii_digit last
        && nat_lt number (2 ^ 64)) number }
{
    front.checked_mul(10)?.checked_add(digit_of(last)?)
}

/// The number that a digit stands for; none where the byte is no digit.
fn digit_of(byte: u8) -> Option<u64>
    ensures { result ≡ then_some (is_ascii_digit byte) (digit_value byte) }
{
    if byte.is_ascii_digit() {
        Some(u64::from(byte - b'0'))
    } else {
        None
    }
}
