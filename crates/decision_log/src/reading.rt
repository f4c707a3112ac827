//! Lines read.

ghost use Rattle.std.specs.Prelude.{◌≡◌, ◌^◌, IfOk, IsOkAnd};
ghost use Rattle.policy_model.specs.declared.event.Decision.TheVariants.{Permit};
ghost use Rattle.decision_log.specs.LineTexts.{line_text};
ghost use Rattle.decision_log.specs.Logged.{logged_ask, logged_value};
ghost use Rattle.decision_log.specs.Parts.{Gives, next, number_below, one, rule_in, three, two};
ghost use Rattle.decision_log.specs.Reading.{ask_behind, ask_read, decision_behind, decision_read, end_read, line_read};
ghost use Rattle.decision_log.specs.Reading.{value_behind, why_behind, why_read};
ghost use Rattle.decision_log.specs.Values.{IsLine, LineValue, ReadAt, WriteAt};

use crate::logged::{LineFault, Logged, LoggedAsk};
use crate::parts::{first_part, next_part};
use crate::readers::{
    label_in, lettered, name_in, note_in, password_in, rule_in, u8_in, u16_in, u32_in, u64_in,
};
use crate::words::{AskWord, DecisionWord, WhyWord};
use policy_model::{Decision, Why};

/// What was read, and what stands after it.
#[derive(Clone, Copy)]
pub(crate) struct Found<'a, T> {
    pub value: T,
    pub rest: &'a [u8],
}

/// A number of 64 bits after a space.
fn next_u64(text: &[u8]) -> Result<Found<'_, u64>, LineFault>
    ensures { Gives (λ f. record { value = f.value; rest = f.rest.now }) result
        (next (number_below (2 ^ 64)) text.now) }
{
    let part = next_part(text);
    let value = u64_in(part.bytes)?;
    Ok(Found {
        value,
        rest: part.rest,
    })
}

/// A number of 32 bits after a space.
fn next_u32(text: &[u8]) -> Result<Found<'_, u32>, LineFault>
    ensures { Gives (λ f. record { value = f.value; rest = f.rest.now }) result
        (next (number_below (2 ^ 32)) text.now) }
{
    let part = next_part(text);
    let value = u32_in(part.bytes)?;
    Ok(Found {
        value,
        rest: part.rest,
    })
}

/// A number of 16 bits after a space.
fn next_u16(text: &[u8]) -> Result<Found<'_, u16>, LineFault>
    ensures { Gives (λ f. record { value = f.value; rest = f.rest.now }) result
        (next (number_below (2 ^ 16)) text.now) }
{
    let part = next_part(text);
    let value = u16_in(part.bytes)?;
    Ok(Found {
        value,
        rest: part.rest,
    })
}

/// A rule of low to high after a space, and its detail.
fn next_rule(low: u8, high: u8, text: &[u8]) -> Result<Found<'_, (u8, u32)>, LineFault>
    ensures { Gives (λ f. record { value = f.value; rest = f.rest.now }) result
        (two (rule_in low high) (number_below (2 ^ 32)) (λ rule detail. (rule, detail)) text.now) }
{
    let part = next_part(text);
    let rule = rule_in(low, high, part.bytes)?;
    let detail = next_u32(part.rest)?;
    Ok(Found {
        value: (rule, detail.value),
        rest: detail.rest,
    })
}

/// Why a session ended.
fn why_read(text: &[u8]) -> Result<Found<'_, Why>, LineFault>
    ensures { Gives (λ f. record { value = f.value; rest = f.rest.now }) result (why_read text.now) }
{
    let part = next_part(text);
    match WhyWord::of(part.bytes) {
        Some(word) => why_behind(word, part.rest),
        None => Err(LineFault::Word),
    }
}

/// What stands after the word of an end.
fn why_behind(word: WhyWord, rest: &[u8]) -> Result<Found<'_, Why>, LineFault>
    ensures { Gives (λ f. record { value = f.value; rest = f.rest.now }) result (why_behind word rest.now) }
{
    let value = match word {
        WhyWord::Finished => Why::Finished,
        WhyWord::ChildEnded => Why::ChildEnded,
        WhyWord::Truncated => Why::Truncated,
        WhyWord::BadFrame => return bad_frame(rest),
        WhyWord::Violation => return violation(rest),
        WhyWord::LinkFault => Why::LinkFault,
        WhyWord::KeeperFault => Why::KeeperFault,
        WhyWord::LogLost => Why::LogLost,
    };
    Ok(Found { value, rest })
}

/// An end by a bad frame's length.
fn bad_frame(rest: &[u8]) -> Result<Found<'_, Why>, LineFault>
    ensures { Gives (λ f. record { value = f.value; rest = f.rest.now }) result
        (one (number_below (2 ^ 16)) (λ len. Why.BadFrame len) rest.now) }
{
    let len = next_u16(rest)?;
    Ok(Found {
        value: Why::BadFrame { len: len.value },
        rest: len.rest,
    })
}

/// An end by a violation of a rule.
fn violation(rest: &[u8]) -> Result<Found<'_, Why>, LineFault>
    ensures { Gives (λ f. record { value = f.value; rest = f.rest.now }) result
        (one (rule_in 1 7) (λ rule. Why.Violation rule) rest.now) }
{
    let part = next_part(rest);
    let rule = rule_in(1, 7, part.bytes)?;
    Ok(Found {
        value: Why::Violation { rule },
        rest: part.rest,
    })
}

/// What was asked.
fn ask_read(text: &[u8]) -> Result<Found<'_, LoggedAsk>, LineFault>
    ensures { Gives (λ f. record { value = logged_ask f.value; rest = f.rest.now }) result (ask_read text.now) }
{
    let part = next_part(text);
    match AskWord::of(part.bytes) {
        Some(word) => ask_behind(word, part.rest),
        None => Err(LineFault::Word),
    }
}

/// What stands after the word of an ask.
fn ask_behind(word: AskWord, rest: &[u8]) -> Result<Found<'_, LoggedAsk>, LineFault>
    ensures { Gives (λ f. record { value = logged_ask f.value; rest = f.rest.now }) result (ask_behind word rest.now) }
{
    let value = match word {
        AskWord::Open => LoggedAsk::Begin,
        AskWord::Banner => LoggedAsk::Banner,
        AskWord::Reply => LoggedAsk::Reply,
        AskWord::Abandon => LoggedAsk::Abandon,
        AskWord::Import => LoggedAsk::Import,
        AskWord::Finish => LoggedAsk::Finish,
        AskWord::Challenge => return challenge(rest),
        AskWord::Export => return export(rest),
        AskWord::Read => return read_at(rest),
        AskWord::Write => return write_at(rest),
        AskWord::Grant => return open_file(rest),
        AskWord::Close => return close_file(rest),
        AskWord::Info => return info(rest),
        AskWord::Note => return note(rest),
        AskWord::Bad => return bad(rest),
        AskWord::End => return end_read(rest),
    };
    Ok(Found { value, rest })
}

fn challenge(rest: &[u8]) -> Result<Found<'_, LoggedAsk>, LineFault>
    ensures { Gives (λ f. record { value = logged_ask f.value; rest = f.rest.now }) result
        (ask_behind AskWord.Challenge rest.now) }
{
    let part = next_part(rest);
    let user = name_in(part.bytes)?;
    let now = next_u64(part.rest)?;
    Ok(Found {
        value: LoggedAsk::Challenge {
            user,
            now: now.value,
        },
        rest: now.rest,
    })
}

fn export(rest: &[u8]) -> Result<Found<'_, LoggedAsk>, LineFault>
    ensures { Gives (λ f. record { value = logged_ask f.value; rest = f.rest.now }) result
        (ask_behind AskWord.Export rest.now) }
{
    let len = next_u16(rest)?;
    Ok(Found {
        value: LoggedAsk::Export { len: len.value },
        rest: len.rest,
    })
}

fn read_at(rest: &[u8]) -> Result<Found<'_, LoggedAsk>, LineFault>
    ensures { Gives (λ f. record { value = logged_ask f.value; rest = f.rest.now }) result
        (ask_behind AskWord.Read rest.now) }
{
    let handle = next_u32(rest)?;
    let offset = next_u64(handle.rest)?;
    let max = next_u16(offset.rest)?;
    Ok(Found {
        value: LoggedAsk::ReadAt {
            handle: handle.value,
            offset: offset.value,
            max: max.value,
        },
        rest: max.rest,
    })
}

fn write_at(rest: &[u8]) -> Result<Found<'_, LoggedAsk>, LineFault>
    ensures { Gives (λ f. record { value = logged_ask f.value; rest = f.rest.now }) result
        (ask_behind AskWord.Write rest.now) }
{
    let handle = next_u32(rest)?;
    let offset = next_u64(handle.rest)?;
    let len = next_u16(offset.rest)?;
    Ok(Found {
        value: LoggedAsk::WriteAt {
            handle: handle.value,
            offset: offset.value,
            len: len.value,
        },
        rest: len.rest,
    })
}

fn open_file(rest: &[u8]) -> Result<Found<'_, LoggedAsk>, LineFault>
    ensures { Gives (λ f. record { value = logged_ask f.value; rest = f.rest.now }) result
        (ask_behind AskWord.Grant rest.now) }
{
    let part = next_part(rest);
    let mode = u8_in(part.bytes)?;
    let part = next_part(part.rest);
    let name = label_in(part.bytes)?;
    Ok(Found {
        value: LoggedAsk::OpenFile { mode, name },
        rest: part.rest,
    })
}

fn close_file(rest: &[u8]) -> Result<Found<'_, LoggedAsk>, LineFault>
    ensures { Gives (λ f. record { value = logged_ask f.value; rest = f.rest.now }) result
        (ask_behind AskWord.Close rest.now) }
{
    let handle = next_u32(rest)?;
    Ok(Found {
        value: LoggedAsk::CloseFile {
            handle: handle.value,
        },
        rest: handle.rest,
    })
}

fn info(rest: &[u8]) -> Result<Found<'_, LoggedAsk>, LineFault>
    ensures { Gives (λ f. record { value = logged_ask f.value; rest = f.rest.now }) result
        (ask_behind AskWord.Info rest.now) }
{
    let number = next_u32(rest)?;
    Ok(Found {
        value: LoggedAsk::Info {
            number: number.value,
        },
        rest: number.rest,
    })
}

fn note(rest: &[u8]) -> Result<Found<'_, LoggedAsk>, LineFault>
    ensures { Gives (λ f. record { value = logged_ask f.value; rest = f.rest.now }) result
        (ask_behind AskWord.Note rest.now) }
{
    let part = next_part(rest);
    let text = note_in(part.bytes)?;
    Ok(Found {
        value: LoggedAsk::Note { text },
        rest: part.rest,
    })
}

fn bad(rest: &[u8]) -> Result<Found<'_, LoggedAsk>, LineFault>
    ensures { Gives (λ f. record { value = logged_ask f.value; rest = f.rest.now }) result
        (ask_behind AskWord.Bad rest.now) }
{
    let rule = next_rule(2, 5, rest)?;
    Ok(Found {
        value: LoggedAsk::Bad {
            rule: rule.value.0,
            detail: rule.value.1,
        },
        rest: rule.rest,
    })
}

fn end_read(rest: &[u8]) -> Result<Found<'_, LoggedAsk>, LineFault>
    ensures { Gives (λ f. record { value = logged_ask f.value; rest = f.rest.now }) result (end_read rest.now) }
{
    let why = why_read(rest)?;
    Ok(Found {
        value: LoggedAsk::End { why: why.value },
        rest: why.rest,
    })
}

/// What was decided on an ask of the session.
fn decision_read<'a>(
    session: u32,
    ask: &LoggedAsk,
    text: &'a [u8],
) -> Result<Found<'a, Decision>, LineFault>
    ensures { Gives (λ f. record { value = f.value; rest = f.rest.now }) result
        (decision_read session (logged_ask ask.now) text.now) }
{
    let part = next_part(text);
    match DecisionWord::of(part.bytes) {
        Some(DecisionWord::Permit) => value_behind(session, ask, part.rest),
        Some(DecisionWord::Deny) => denial(part.rest),
        None => Err(LineFault::Word),
    }
}

/// A denial's rule and detail.
fn denial(rest: &[u8]) -> Result<Found<'_, Decision>, LineFault>
    ensures { Gives (λ f. record { value = f.value; rest = f.rest.now }) result
        (two (rule_in 1 22) (number_below (2 ^ 32)) (λ rule detail. Decision.Deny rule detail) rest.now) }
{
    let rule = next_rule(1, 22, rest)?;
    Ok(Found {
        value: Decision::Deny {
            rule: rule.value.0,
            detail: rule.value.1,
        },
        rest: rule.rest,
    })
}

/// The value of a permit, shown or not.
fn value_behind<'a>(
    session: u32,
    ask: &LoggedAsk,
    rest: &'a [u8],
) -> Result<Found<'a, Decision>, LineFault>
    ensures { Gives (λ f. record { value = f.value; rest = f.rest.now }) result
        (value_behind session (logged_ask ask.now) rest.now) }
{
    match ask {
        LoggedAsk::Begin => Ok(permit(u64::from(session), rest)),
        LoggedAsk::Reply => {
            let part = next_part(rest);
            let password = password_in(part.bytes)?;
            Ok(permit(password, part.rest))
        }
        LoggedAsk::Challenge { .. }
        | LoggedAsk::Export { .. }
        | LoggedAsk::OpenFile { .. }
        | LoggedAsk::Info { .. } => {
            let value = next_u64(rest)?;
            Ok(permit(value.value, value.rest))
        }
        _ => Ok(permit(0, rest)),
    }
}

/// A permit with a value, and what stands after it.
fn permit(value: u64, rest: &[u8]) -> Found<'_, Decision>
    ensures value { result.value ≡ Permit value }
    ensures rest { result.rest.now ≡ rest.now }
{
    Found {
        value: Decision::Permit { value },
        rest,
    }
}

/// Reads the line that a text is, with its newline; otherwise the fault of the first part, from left
/// to right, that doesn't read. What reads is what a line's form allows, and not what could have
/// happened. It takes no memory.
pub fn read_line(text: &[u8]) -> Result<Logged, LineFault>
    // What is read is a line, and the text is that line's.
    ensures found { IfOk result (λ l. IsLine (logged_value l) × (text.now ≡ line_text (logged_value l))) }
    // What a line can say and is written so is read.
    ensures only { (v : LineValue) → IsLine v → text.now ≡ line_text v → IsOkAnd result (λ l. logged_value l ≡ v) }
    // The line or the first fault.
    ensures exact { Gives logged_value result (line_read text.now) }
{
    line_read(text)
}

#[tactic(auto, unfolding(crate::specs::Reading::line_read))]
fn line_read(text: &[u8]) -> Result<Logged, LineFault>
    ensures { Gives logged_value result (line_read text.now) }
{
    let part = first_part(text);
    let number = u32_in(part.bytes)?;
    let part = next_part(part.rest);
    let worker = lettered(b'w', part.bytes)?;
    let part = next_part(part.rest);
    let session = lettered(b's', part.bytes)?;
    let what = ask_read(part.rest)?;
    let decision = decision_read(session, &what.value, what.rest)?;
    if decision.rest != b"\n".as_slice() {
        return Err(LineFault::End);
    }
    Ok(Logged {
        number,
        worker,
        session,
        what: what.value,
        decision: decision.value,
    })
}
