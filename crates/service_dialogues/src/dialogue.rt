//! What the children of a run say and are told, and whether they were told it.

ghost use Rattle.std.specs.Prelude.{◌≡◌, ◌∷◌, ◌++◌, IfSome, IsTrue, map};
ghost use Rattle.std.specs.List.{flat_map};
ghost use Rattle.service_dialogues.specs.Told.{sent_to, told_in};

use outside::Talk;

/// What one child says, and what it is told, each as the bytes of frames.
#[derive(Drop)]
pub struct Side {
    pub says: Vec<u8>,
    pub told: Vec<u8>,
}

/// Both children of a session. There is a user's child where it says something.
#[derive(Drop)]
pub struct Dialogue {
    pub pre: Side,
    pub user: Side,
}

/// The children after the first one, where that was sent what its side is told.
fn behind_side<'a>(talks: &'a [Talk], side: &Side) -> Option<&'a [Talk]>
    ensures { IfSome result (λ rest. map sent_to talks.now ≡ side.now.told.items ∷ map sent_to rest.now) }
{
    match talks.split_first() {
        Some((talk, rest)) if talk.sent.as_slice() == side.told.as_slice() => Some(rest),
        _ => None,
    }
}

/// The children after those of a session, where they were sent what it says.
fn behind_session<'a>(talks: &'a [Talk], dialogue: &Dialogue) -> Option<&'a [Talk]>
    ensures { IfSome result (λ rest. map sent_to talks.now ≡ told_in dialogue.now ++ map sent_to rest.now) }
{
    let rest = behind_side(talks, &dialogue.pre)?;
    if dialogue.user.says.is_empty() {
        return Some(rest);
    }
    behind_side(rest, &dialogue.user)
}

/// Whether the children of these sessions, one session after the other, were sent what their dialogues
/// say, byte by byte, and there were no other children.
pub fn are_told(talks: &[Talk], dialogues: &[Dialogue]) -> bool
    ensures { IsTrue result → map sent_to talks.now ≡ flat_map told_in dialogues.now }
{
    let Some((dialogue, later)) = dialogues.split_first() else {
        return talks.is_empty();
    };
    match behind_session(talks, dialogue) {
        Some(rest) => are_told(rest, later),
        None => false,
    }
}
