//! That the numbers of an event are in the ranges of their types, for contracts: they see a number without its type.

ghost use Rattle.std.specs.Prelude.{◌≡◌, ◌<◌, ◌^◌, true};
ghost use Rattle.policy_model.specs.Asks.{is_proper};
ghost use Rattle.decision_log.specs.Typed.{IsSmall, IsTyped, IsTypedAsk};

use policy_model::{Ask, Decision, Event, Why};

fn is_u8(number: u8)
    ensures { number < 2 ^ 8 }
{}

fn is_u16(number: u16)
    ensures { number < 2 ^ 16 }
{}

fn is_u32(number: u32)
    ensures { number < 2 ^ 32 }
{}

fn is_u64(number: u64)
    ensures { number < 2 ^ 64 }
{}

fn is_typed_ask(ask: &Ask)
    ensures { is_proper ask.now ≡ true → IsTypedAsk ask.now }
{
    match ask {
        Ask::Challenge { now, .. } => is_u64(*now),
        Ask::Export { len } => is_u16(*len),
        Ask::ReadAt {
            handle,
            offset,
            max,
        } => {
            is_u32(*handle);
            is_u64(*offset);
            is_u16(*max);
        }
        Ask::WriteAt {
            handle,
            offset,
            len,
        } => {
            is_u32(*handle);
            is_u64(*offset);
            is_u16(*len);
        }
        Ask::OpenFile { mode, .. } => is_u8(*mode),
        Ask::CloseFile { handle } => is_u32(*handle),
        Ask::Info { number } => is_u32(*number),
        Ask::Bad { detail, .. } => is_u32(*detail),
        Ask::End {
            why: Why::BadFrame { len },
        } => is_u16(*len),
        _ => {}
    }
}

fn is_typed_decision(decision: &Decision)
    ensures { IsSmall decision.now }
{
    match *decision {
        Decision::Permit { value } => is_u64(value),
        Decision::Deny { detail, .. } => is_u32(detail),
        Decision::Lost => {}
    }
}

/// Shows a contract that the numbers of an event are in the ranges of their types. It does nothing.
pub fn is_typed(event: &Event)
    ensures { is_proper event.now.ask ≡ true → IsTyped event.now }
{
    is_u32(event.worker);
    is_u32(event.session);
    is_typed_ask(&event.ask);
    is_typed_decision(&event.decision);
}
