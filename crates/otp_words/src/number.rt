//! The number of a password in its chain, as it is typed.

ghost use Rattle.std.specs.Prelude.{◌≡◌, ◌≤◌, IfSome};
ghost use Rattle.std.specs.Bool.{then_some};
ghost use Rattle.std.specs.Char.{is_ascii_digit};
ghost use Rattle.std.specs.List.{list_all};
ghost use Rattle.otp_words.specs.Challenges.{decimal_value, is_number_text};

/// The most digits of a number.
const DIGITS_MAX: usize = 4;

/// The number that one to four decimal digits spell, 0 to 9,999; zeros may lead. `None` exactly where
/// the text is something else.
pub fn read_number(text: &[u8]) -> Option<u16>
    ensures value { result ≡ then_some (is_number_text text.now) (decimal_value text.now) }
    ensures within { IfSome result (λ n. n ≤ 9999) }
{
    if !is_number_text(text) {
        return None;
    }
    let mut number = 0;
    for digit in text {
        number = number * 10 + u16::from(*digit - b'0');
    }
    Some(number)
}

/// Whether a text is one to four decimal digits.
fn is_number_text(text: &[u8]) -> bool
    ensures { result ≡ is_number_text text.now }
{
    !text.is_empty() && text.len() <= DIGITS_MAX && are_digits(text)
}

/// Whether all bytes are decimal digits.
fn are_digits(text: &[u8]) -> bool
    ensures { result ≡ list_all is_ascii_digit text.now }
{
    text.iter().all(|byte| byte.is_ascii_digit())
}
