//! Numbers at the front of bytes, lowest byte first.

ghost use Rattle.std.specs.Prelude.{◌≡◌, ◌<◌, ◌==◌, MatchOption, length};
ghost use Rattle.std.specs.Bool.{then_some};
ghost use Rattle.std.specs.Int.{w16, w32, w64};
ghost use Rattle.request_catalogue.specs.Fields.{TakesNumber, number_at};

/// The number in the first two bytes, and the bytes after it.
#[tactic(auto, unfolding(crate::specs::Fields::number_at))]
pub fn u16_at(bytes: &[u8]) -> Option<(u16, &[u8])>
    ensures { MatchOption result (length bytes.now < 2) (λ x. TakesNumber w16 bytes.now x.0 x.1.now) }
{
    let (number, rest) = bytes.split_first_chunk::<2>()?;
    Some((u16::from_le_bytes(*number), rest))
}

/// The number in the first four bytes, and the bytes after it.
#[tactic(auto, unfolding(crate::specs::Fields::number_at))]
pub fn u32_at(bytes: &[u8]) -> Option<(u32, &[u8])>
    ensures { MatchOption result (length bytes.now < 4) (λ x. TakesNumber w32 bytes.now x.0 x.1.now) }
{
    let (number, rest) = bytes.split_first_chunk::<4>()?;
    Some((u32::from_le_bytes(*number), rest))
}

/// The number in the first eight bytes, and the bytes after it.
#[tactic(auto, unfolding(crate::specs::Fields::number_at))]
pub fn u64_at(bytes: &[u8]) -> Option<(u64, &[u8])>
    ensures { MatchOption result (length bytes.now < 8) (λ x. TakesNumber w64 bytes.now x.0 x.1.now) }
{
    let (number, rest) = bytes.split_first_chunk::<8>()?;
    Some((u64::from_le_bytes(*number), rest))
}

/// The number that is spelled by all of the bytes.
pub fn number_of(bytes: &[u8]) -> Option<u32>
    ensures { result ≡ then_some (length bytes.now == 4) (number_at w32 0 bytes.now) }
{
    match u32_at(bytes)? {
        (number, []) => Some(number),
        _ => None,
    }
}
