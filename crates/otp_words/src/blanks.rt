//! Spaces and tabs.

ghost use Rattle.std.specs.Prelude.{◌≡◌};
ghost use Rattle.std.specs.List.{prefix_len};
ghost use Rattle.otp_words.specs.Blanks.{is_blank, is_no_blank};

/// Whether a byte is a space or a tab.
pub fn is_blank(byte: u8) -> bool
    ensures { result ≡ is_blank byte }
{
    matches!(byte, b' ' | b'\t')
}

/// The number of spaces and tabs at the front.
pub fn gap_len(text: &[u8]) -> usize
    ensures { result ≡ prefix_len is_blank text.now }
{
    text.iter().take_while(|byte| is_blank(**byte)).count()
}

/// The number of bytes before the first space or tab.
pub fn word_len(text: &[u8]) -> usize
    ensures { result ≡ prefix_len is_no_blank text.now }
{
    text.iter().take_while(|byte| !is_blank(**byte)).count()
}
