//! Digits of numbers, in bases that are powers of two.

ghost use Rattle.std.specs.Prelude.{◌≡◌, ◌*◌, ◌/◌, ◌%◌, ◌^◌, ◌<◌, ◌≤◌};

/// The digit at a place of a number, counted from the least significant, where a digit has `width`
/// bits.
pub fn digit(number: u128, width: u32, place: u32) -> usize
    requires narrow { width ≤ 11 }
    requires within { place ≤ 31 }
    requires room { width * place < 128 }
    ensures { result ≡ number / 2 ^ (width * place) % 2 ^ width }
{
    ((number >> (width * place)) % (1 << width)) as usize
}
