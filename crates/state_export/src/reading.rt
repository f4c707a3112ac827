//! Reading a state.

ghost use Rattle.std.specs.Prelude.{◌≡◌, ◌&&◌, ◌+◌, ◌≤◌, ◌<◌, ◌^◌, Ok, Err, IfOk, IsOkAnd, MatchResult, length, nat_le};
ghost use Rattle.std.specs.Int.{w32};
ghost use Rattle.request_catalogue.specs.Fields.{number_at};
ghost use Rattle.state_export.specs.Reading.{content_of, field_of, state_of};
ghost use Rattle.state_export.specs.Spelling.{IsState, StateValue, state_bytes, value_of};

use crate::fault::StateFault;
use crate::state::State;

/// A field that was read, and what stands after it.
#[derive(Clone, Copy)]
struct Field<'a> {
    content: &'a [u8],
    behind: &'a [u8],
}

/// Reads the state that the bytes spell; otherwise their first fault, from left to right.
pub fn read_state(bytes: &[u8]) -> Result<State<'_>, StateFault>
    // What is read is in range and spelled so.
    ensures found { IfOk result (λ s. IsState (value_of s) × (bytes.now ≡ state_bytes (value_of s))) }
    // What is in range and spelled so is read.
    ensures only { (value : StateValue) → IsState value → bytes.now ≡ state_bytes value
        → IsOkAnd result (λ s. value_of s ≡ value) }
    // The state or the first fault.
    ensures exact { MatchResult result (λ s. state_of bytes.now ≡ Ok (value_of s)) (λ e. state_of bytes.now ≡ Err e) }
{
    state_of(bytes)
}

#[tactic(auto, unfolding(crate::specs::Reading::state_of))]
fn state_of(bytes: &[u8]) -> Result<State<'_>, StateFault>
    ensures { MatchResult result (λ s. state_of bytes.now ≡ Ok (value_of s)) (λ e. state_of bytes.now ≡ Err e) }
{
    let [b'O', b'T', b'S', b'1', fields @ ..] = bytes else {
        return Err(StateFault::Magic);
    };
    let terminal = field_of(1, 0, 64, fields)?;
    let unread = field_of(2, 0, 4_096, terminal.behind)?;
    let counts = field_of(3, 8, 8, unread.behind)?;
    if !counts.behind.is_empty() {
        return Err(StateFault::Trailing);
    }
    Ok(State {
        terminal: terminal.content,
        unread: unread.content,
        lines: count_at(counts.content, 0),
        bytes: count_at(counts.content, 4),
    })
}

/// The field at the front of the bytes, with this tag and a content of low to high bytes.
#[tactic(auto, unfolding(request_catalogue::specs::Fields::number_at))]
fn field_of(tag: u8, low: usize, high: usize, bytes: &[u8]) -> Result<Field<'_>, StateFault>
    ensures read { MatchResult result (λ f. field_of tag low high bytes.now
        ≡ Ok (record { content = f.content.now; behind = f.behind.now })) (λ e. field_of tag low high bytes.now
        ≡ Err e) }
    ensures len { IfOk result (λ f. (low ≤ length f.content.now) × (length f.content.now ≤ high)) }
{
    let [found, first, second, rest @ ..] = bytes else {
        return Err(StateFault::Missing);
    };
    if *found != tag {
        return Err(StateFault::Tag);
    }
    content_of(
        low,
        high,
        usize::from(u16::from_le_bytes([*first, *second])),
        rest,
    )
}

/// The content of so many bytes, from low to high, and what stands after it.
fn content_of(low: usize, high: usize, len: usize, bytes: &[u8]) -> Result<Field<'_>, StateFault>
    ensures read { MatchResult result (λ f. content_of low high len bytes.now
        ≡ Ok (record { content = f.content.now; behind = f.behind.now })) (λ e. content_of low high len bytes.now
        ≡ Err e) }
    ensures len { IfOk result (λ f. (low ≤ length f.content.now) × (length f.content.now ≤ high)) }
{
    if !is_length(low, high, len, bytes) {
        return Err(StateFault::Length);
    }
    let (content, behind) = bytes.split_at(len);
    Ok(Field { content, behind })
}

/// Whether a length is in its range, and so many bytes are there.
fn is_length(low: usize, high: usize, len: usize, bytes: &[u8]) -> bool
    ensures { result ≡ (nat_le low len && nat_le len high && nat_le len (length bytes.now)) }
{
    low <= len && len <= high && len <= bytes.len()
}

/// The count at a place.
#[tactic(auto, unfolding(request_catalogue::specs::Fields::number_at))]
fn count_at(bytes: &[u8], place: usize) -> u32
    requires few { place < 2 ^ 16 }
    requires there { place + 4 ≤ length bytes.now }
    ensures { result ≡ number_at w32 place bytes.now }
{
    let mut number = [0; 4];
    number.copy_from_slice(&bytes[place..place + 4]);
    u32::from_le_bytes(number)
}
