//! Writing a state.

ghost use Rattle.std.specs.Prelude.{◌≡◌, ◌+◌, ◌≤◌, ◌++◌, Ok, drop, length, take};
ghost use Rattle.state_export.specs.Reading.{state_of};
ghost use Rattle.state_export.specs.Spelling.{IsState, field_bytes, state_bytes, value_of};

use crate::state::State;
use request_catalogue::put;

/// Writes a state to the front of `out`, which has 4,181 bytes or more, and gives its length.
pub fn write_state(state: &State<'_>, out: &mut [u8]) -> usize
    requires in_range { IsState (value_of state.now) }
    requires room { 4181 ≤ length out.old }
    ensures len { result ≡ length (state_bytes (value_of state.now)) }
    ensures within { result ≤ 4181 }
    ensures written { out.new ≡ state_bytes (value_of state.now) ++ drop result out.old }
    ensures read_back { state_of (take result out.new) ≡ Ok (value_of state.now) }
{
    put_state(state, out)
}

#[tactic(auto, unfolding(crate::specs::Spelling::state_bytes))]
fn put_state(state: &State<'_>, out: &mut [u8]) -> usize
    requires in_range { IsState (value_of state.now) }
    requires room { 4181 ≤ length out.old }
    ensures len { result ≡ length (state_bytes (value_of state.now)) }
    ensures within { result ≤ 4181 }
    ensures written { out.new ≡ state_bytes (value_of state.now) ++ drop result out.old }
{
    let at = put(out, 0, b"OTS1");
    let at = put_field(out, at, 1, state.terminal);
    let at = put_field(out, at, 2, state.unread);
    let at = put(out, at, &[3, 8, 0]);
    let at = put(out, at, &state.lines.to_le_bytes());
    put(out, at, &state.bytes.to_le_bytes())
}

/// Puts a field at a place of the buffer, and gives the place after it.
fn put_field(out: &mut [u8], at: usize, tag: u8, content: &[u8]) -> usize
    requires few { length content.now ≤ 4096 }
    requires room { at + 3 + length content.now ≤ length out.old }
    ensures end { result ≡ at + length (field_bytes tag content.now) }
    ensures out { out.new ≡ take at out.old ++ field_bytes tag content.now
        ++ drop (at + length (field_bytes tag content.now)) out.old }
{
    let at = put(out, at, &[tag]);
    let at = put(out, at, &(content.len() as u16).to_le_bytes());
    put(out, at, content)
}
