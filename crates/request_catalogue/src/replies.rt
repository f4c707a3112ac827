//! Replies, written and read.

ghost use Rattle.std.specs.Prelude.{◌≡◌, ◌≢◌, ◌≤◌, ◌++◌, IfOk, IfErr, IsOkAnd, Some, length, take, drop};
ghost use Rattle.std.specs.Option.{option_map};
ghost use Rattle.std.specs.Result.{result_ok};
ghost use Rattle.request_catalogue.specs.Widths.{body_max};
ghost use Rattle.request_catalogue.specs.Replies.{AnswerValue, reply_kind_of, answer_of, IsAnswer, IsSendable};
ghost use Rattle.request_catalogue.specs.Replies.{reply_of, denied_by, failed_by, answered_by};

use crate::answer::{Answer, Unreadable};
use crate::fields::number_of;
use crate::putting::put;
use crate::width::Width;

/// What a reply's kind is above its request's, and the kind of a reply to no request.
const REPLY: u32 = 256;

/// The kind of the reply to a message of this kind and flags: 256 above the request's kind, or 256
/// where the flags are not 0 or the kind is not 1 to 13.
pub fn reply_kind(kind: u32, flags: u16) -> u32
    ensures { result ≡ reply_kind_of kind flags }
{
    match kind {
        1..=13 if flags == 0 => kind + REPLY,
        _ => REPLY,
    }
}

/// Writes the reply of an answer to the front of `out`, and gives its length. A reply is a byte 0
/// and the body; a byte 1, the rule and the detail; or a byte 2 and the device. The body has at
/// most 16,367 bytes, or 65,519 in wide frames.
pub fn write_reply(width: Width, answer: &Answer, out: &mut [u8]) -> usize
    requires sendable { IsSendable width (answer_of answer.now) }
    requires room { body_max width ≤ length out.old }
    ensures len { result ≡ length (reply_of (answer_of answer.now)) }
    ensures within { result ≤ body_max width }
    ensures written { out.new ≡ reply_of (answer_of answer.now) ++ drop result out.old }
    ensures read_back { answered_by (take result out.new) ≡ Some (answer_of answer.now) }
{
    put_reply(width, answer, out)
}

#[tactic(auto, unfolding(crate::specs::Replies::reply_of))]
fn put_reply(width: Width, answer: &Answer, out: &mut [u8]) -> usize
    requires sendable { IsSendable width (answer_of answer.now) }
    requires room { body_max width ≤ length out.old }
    ensures len { result ≡ length (reply_of (answer_of answer.now)) }
    ensures within { result ≤ body_max width }
    ensures written { out.new ≡ reply_of (answer_of answer.now) ++ drop result out.old }
{
    match answer {
        Answer::Done { body } => {
            let at = put(out, 0, &[0]);
            put(out, at, body)
        }
        Answer::Denied { rule, detail } => {
            let at = put(out, 0, &[1, *rule]);
            put(out, at, &detail.to_le_bytes())
        }
        Answer::Device { device } => put(out, 0, &[2, *device]),
    }
}

/// The answer that a reply's body gives. `Unreadable` where the bytes are no reply.
pub fn read_reply(body: &[u8]) -> Result<Answer<'_>, Unreadable>
    // What is read is in range and spelled so.
    ensures found { IfOk result (λ a. IsAnswer (answer_of a) × (body.now ≡ reply_of (answer_of a))) }
    // What is in range and spelled so is read.
    ensures only { (value : AnswerValue) → IsAnswer value → body.now ≡ reply_of value
        → IsOkAnd result (λ a. answer_of a ≡ value) }
    ensures unreadable { IfErr result (λ _. (value : AnswerValue) → IsAnswer value → body.now ≢ reply_of value) }
    // The table's answer.
    ensures exact { option_map answer_of (result_ok result) ≡ answered_by body.now }
{
    answered_by(body).ok_or(Unreadable)
}

#[tactic(auto, unfolding(crate::specs::Replies::answered_by))]
fn answered_by(reply: &[u8]) -> Option<Answer<'_>>
    ensures { option_map answer_of result ≡ answered_by reply.now }
{
    match reply {
        [0, body @ ..] => Some(Answer::Done { body }),
        [1, denial @ ..] => denied_by(denial),
        [2, failure @ ..] => failed_by(failure),
        _ => None,
    }
}

#[tactic(auto, unfolding(crate::specs::Replies::denied_by))]
fn denied_by(denial: &[u8]) -> Option<Answer<'_>>
    ensures { option_map answer_of result ≡ denied_by denial.now }
{
    match denial {
        [rule @ 1..=22, detail @ ..] => Some(Answer::Denied {
            rule: *rule,
            detail: number_of(detail)?,
        }),
        _ => None,
    }
}

#[tactic(auto, unfolding(crate::specs::Replies::failed_by))]
fn failed_by(failure: &[u8]) -> Option<Answer<'_>>
    ensures { option_map answer_of result ≡ failed_by failure.now }
{
    match failure {
        [device @ 1..=2] => Some(Answer::Device { device: *device }),
        _ => None,
    }
}
