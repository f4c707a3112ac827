//! The merge of two rising arrays in the room of one.

ghost use Rattle.std.specs.Prelude.{◌≡◌, ◌<◌, ◌≤◌, ◌+◌, false, length, take, vec_capacity, vec_len};
ghost use Rattle.otp_ledger.specs.Kept.{AreSplit, IsMerged, IsMovedUp, IsRising, has_entry};

use crate::kept::{Kept, gap_of};

/// Puts an entry to its place among the first `end` entries, which it answers. Those after the place move up
/// past it, and past the places of `left` entries that are still to come.
fn move_up(kept: &mut Vec<Kept>, end: usize, left: usize, entry: Kept) -> usize
    requires within { end + left < vec_len kept.old }
    requires rising { IsRising (take end kept.old.items) }
    requires absent { has_entry entry.account entry.password (take end kept.old.items) ≡ false }
    ensures moved { IsMovedUp kept.old.items end left entry result kept.new.items }
    ensures len { vec_len kept.new ≡ vec_len kept.old }
    ensures capacity { vec_capacity kept.new ≡ vec_capacity kept.old }
{
    let place = gap_of(&kept[..end], &entry);
    kept.copy_within(place..end, place + left + 1);
    kept[place + left] = entry;
    place
}

/// Merges other entries into the first `settled` ones, after which there are as many places as there are others.
/// The greatest goes first, so each entry of the array moves once at most.
fn merge_last(kept: &mut Vec<Kept>, settled: usize, recent: &[Kept])
    requires within { vec_len kept.old ≡ settled + length recent.now }
    requires split { AreSplit (take settled kept.old.items) recent.now }
    ensures merged { IsMerged (take settled kept.old.items) recent.now kept.new.items }
    ensures len { vec_len kept.new ≡ vec_len kept.old }
    ensures capacity { vec_capacity kept.new ≡ vec_capacity kept.old }
{
    let mut end = settled;
    let mut left = recent.len();
    while left > 0 {
        left -= 1;
        end = move_up(kept, end, left, recent[left]);
    }
}

/// Merges other entries into the array, which has none of them, and room for all.
pub(crate) fn merge(kept: &mut Vec<Kept>, recent: &[Kept])
    requires split { AreSplit kept.old.items recent.now }
    requires room { vec_len kept.old + length recent.now ≤ vec_capacity kept.old }
    ensures merged { IsMerged kept.old.items recent.now kept.new.items }
    ensures len { vec_len kept.new ≡ vec_len kept.old + length recent.now }
    ensures capacity { vec_capacity kept.old ≤ vec_capacity kept.new }
{
    let settled = kept.len();
    if kept.extend_from_slice(recent).is_ok() {
        merge_last(kept, settled, recent);
    }
}
