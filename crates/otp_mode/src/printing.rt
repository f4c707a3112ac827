//! The lines of a password.

ghost use Rattle.std.specs.Prelude.{◌≡◌, ◌≤◌, ◌++◌, [], ◌∷◌, drop, length, take};
ghost use Rattle.std.specs.Option.{option_copied};
ghost use Rattle.otp_words.specs.Hex.{hex_text};
ghost use Rattle.otp_words.specs.Words.{words_text};
ghost use Rattle.otp_mode.specs.Output.{password_lines, words_line};

use otp_words::{Dictionary, to_hex, to_words};

/// The most bytes of a password's lines: 19 hexadecimal digits and spaces, 29 letters and spaces of
/// six words, and two newlines.
pub const TEXT_MAX: usize = 50;

/// Writes the lines of a password to the front of `out`, and gives their length: in hexadecimal
/// groups, and in six words where there is a word list.
pub fn put_password(list: Option<&Dictionary>, password: u64, out: &mut [u8; TEXT_MAX]) -> usize
    ensures within { result ≤ 50 }
    ensures written { take result out.new ≡ password_lines (option_copied list.entry) password }
{
    let end = put_hex(password, out);
    end + put_words(list, password, &mut out[end..])
}

/// Writes the line of hexadecimal groups, and gives its length, 20.
fn put_hex(password: u64, out: &mut [u8]) -> usize
    requires { 20 ≤ length out.old }
    ensures len { result ≡ 20 }
    ensures text_len { length (hex_text password) ≡ 19 }
    ensures written { out.new ≡ hex_text password ++ 10 ∷ [] ++ drop 20 out.old }
{
    let end = to_hex(password, out);
    out[end] = b'\n';
    end + 1
}

/// Writes the line of six words, if there is a word list, and gives its length.
fn put_words(list: Option<&Dictionary>, password: u64, out: &mut [u8]) -> usize
    requires { 30 ≤ length out.old }
    ensures len { result ≡ length (words_line (option_copied list.entry) password) }
    ensures within { result ≤ 30 }
    ensures written { out.new ≡ words_line (option_copied list.entry) password ++ drop result out.old }
{
    let Some(dictionary) = list else {
        return 0;
    };
    let end = to_words(dictionary, password, out);
    out[end] = b'\n';
    end + 1
}
