//! Lines written.

ghost use Rattle.std.specs.Prelude.{◌≡◌, ◌≤◌, ◌+◌, ◌++◌, Ok, codes, drop, length, take};
ghost use Rattle.std.specs.Int.{w64, to_be_bytes};
ghost use Rattle.arrayvec.specs.ArrayVec.{array_vec_len};
ghost use Rattle.request_catalogue.specs.TextBytes.{label_bytes};
ghost use Rattle.text_line.specs.Writing.{WritesUpTo};
ghost use Rattle.decision_log.specs.Log.{ask_text, decision_text, line_of, spaced, spaced_hex, value_text, why_text};
ghost use Rattle.decision_log.specs.Reading.{line_read};
ghost use Rattle.decision_log.specs.Values.{IsLine, line_value};

use policy_model::{Ask, Decision, Event, Why};
use request_catalogue::Label;
use text_line::{LINE_MAX, Line, put, put_hex, put_long, put_number};

/// Writes the line of the event with this number to the front of `out`, which has 256 bytes or more,
/// and gives its length.
pub fn line(number: u32, event: &Event, out: &mut [u8]) -> usize
    requires { 256 ≤ length out.old }
    ensures len { result ≡ length (line_of number event.now) }
    ensures within { result ≤ 256 }
    ensures written { out.new ≡ line_of number event.now ++ drop result out.old }
    // What a line can say is read again.
    ensures read_back { IsLine (line_value number event.now) → line_read (take result out.new)
        ≡ Ok (line_value number event.now) }
{
    write_line(number, event, out)
}

fn write_line(number: u32, event: &Event, out: &mut [u8]) -> usize
    requires { 256 ≤ length out.old }
    ensures len { result ≡ length (line_of number event.now) }
    ensures within { result ≤ 256 }
    ensures written { out.new ≡ line_of number event.now ++ drop result out.old }
{
    let line = line_of(number, event);
    let len = line.len();
    out[..len].copy_from_slice(line.as_slice());
    len
}

/// The line of the event with this number.
#[tactic(auto, unfolding(crate::specs::Log::line_of))]
fn line_of(number: u32, event: &Event) -> Line
    ensures { result.items ≡ line_of number event.now }
{
    let mut line = Line::new();
    put_number(&mut line, number);
    put(&mut line, b" w");
    put_number(&mut line, event.worker);
    put(&mut line, b" s");
    put_number(&mut line, event.session);
    put(&mut line, b" ");
    put_ask(&mut line, &event.ask);
    put(&mut line, b" ");
    put_decision(&mut line, &event.ask, &event.decision);
    put(&mut line, b"\n");
    line
}

/// Appends a space and a number of 64 bits.
fn put_spaced(line: &mut Line, number: u64)
    requires { array_vec_len line.old + 21 ≤ LINE_MAX }
    ensures { WritesUpTo 21 (spaced number) line.old.items line.new.items }
{
    put(line, b" ");
    put_long(line, number);
}

/// Appends a space and a number of 32 bits.
fn put_short(line: &mut Line, number: u32)
    requires { array_vec_len line.old + 11 ≤ LINE_MAX }
    ensures { WritesUpTo 11 (spaced number) line.old.items line.new.items }
{
    put(line, b" ");
    put_number(line, number);
}

/// Appends a space and at most 64 bytes as hexadecimal digits.
fn put_spaced_hex(line: &mut Line, bytes: &[u8])
    requires few { length bytes.now ≤ 64 }
    requires room { array_vec_len line.old + 129 ≤ LINE_MAX }
    ensures { WritesUpTo 129 (spaced_hex bytes.now) line.old.items line.new.items }
{
    put(line, b" ");
    put_hex(line, bytes);
}

/// Appends the eight bytes of a password as hexadecimal digits, after a space.
fn put_password(line: &mut Line, password: u64)
    requires { array_vec_len line.old + 17 ≤ LINE_MAX }
    ensures { WritesUpTo 17 (spaced_hex (to_be_bytes w64 password)) line.old.items line.new.items }
{
    put(line, b" ");
    put_hex(line, &password.to_be_bytes());
}

/// Appends a word and a number.
fn put_one(line: &mut Line, word: &[u8], number: u32)
    requires few { length word.now ≤ 10 }
    requires room { array_vec_len line.old + 21 ≤ LINE_MAX }
    ensures { WritesUpTo 21 (word.now ++ spaced number) line.old.items line.new.items }
{
    put(line, word);
    put_short(line, number);
}

/// Appends a word and two numbers.
fn put_pair(line: &mut Line, word: &[u8], first: u32, second: u64)
    requires few { length word.now ≤ 10 }
    requires room { array_vec_len line.old + 42 ≤ LINE_MAX }
    ensures { WritesUpTo 42 (word.now ++ spaced first ++ spaced second) line.old.items line.new.items }
{
    put_one(line, word, first);
    put_spaced(line, second);
}

/// Appends a word, a rule and its detail.
fn put_rule(line: &mut Line, word: &[u8], rule: u8, detail: u32)
    requires few { length word.now ≤ 4 }
    requires room { array_vec_len line.old + 26 ≤ LINE_MAX }
    ensures { WritesUpTo 26 (word.now ++ spaced rule ++ spaced detail) line.old.items line.new.items }
{
    put(line, word);
    put_short(line, u32::from(rule));
    put_short(line, detail);
}

/// Appends why a session ended.
fn put_why(line: &mut Line, why: &Why)
    requires { array_vec_len line.old + 21 ≤ LINE_MAX }
    ensures { WritesUpTo 21 (why_text why.now) line.old.items line.new.items }
{
    match *why {
        Why::Finished => put(line, b"finished"),
        Why::ChildEnded => put(line, b"child-ended"),
        Why::Truncated => put(line, b"truncated"),
        Why::BadFrame { len } => put_one(line, b"bad-frame", u32::from(len)),
        Why::Violation { rule } => put_one(line, b"violation", u32::from(rule)),
        Why::LinkFault => put(line, b"link-fault"),
        Why::KeeperFault => put(line, b"keeper-fault"),
        Why::LogLost => put(line, b"log-lost"),
    }
}

/// Appends that a file was asked for.
fn put_grant(line: &mut Line, mode: u8, name: &Label)
    requires { array_vec_len line.old + 150 ≤ LINE_MAX }
    ensures { WritesUpTo 150 (codes "grant" ++ spaced mode ++ spaced_hex (label_bytes name.now)) line.old.items
        line.new.items }
{
    put_one(line, b"grant", u32::from(mode));
    put_spaced_hex(line, name.as_slice());
}

/// Appends what was asked.
fn put_ask(line: &mut Line, ask: &Ask)
    requires { array_vec_len line.old + 150 ≤ LINE_MAX }
    ensures { WritesUpTo 150 (ask_text ask.now) line.old.items line.new.items }
{
    match ask {
        Ask::Begin => put(line, b"open"),
        Ask::Banner => put(line, b"banner"),
        Ask::Challenge { user, now } => {
            put(line, b"challenge ");
            put(line, user.as_slice());
            put_spaced(line, *now);
        }
        Ask::Reply { .. } => put(line, b"reply"),
        Ask::Abandon => put(line, b"abandon"),
        Ask::Export { len } => put_one(line, b"export", u32::from(*len)),
        Ask::Import => put(line, b"import"),
        Ask::ReadAt {
            handle,
            offset,
            max,
        } => {
            put_pair(line, b"read", *handle, *offset);
            put_short(line, u32::from(*max));
        }
        Ask::WriteAt {
            handle,
            offset,
            len,
        } => {
            put_pair(line, b"write", *handle, *offset);
            put_short(line, u32::from(*len));
        }
        Ask::OpenFile { mode, name } => put_grant(line, *mode, name),
        Ask::CloseFile { handle } => put_one(line, b"close", *handle),
        Ask::Info { number } => put_one(line, b"info", *number),
        Ask::Note { text } => {
            put(line, b"note");
            put_spaced_hex(line, text.as_slice());
        }
        Ask::Finish => put(line, b"finish"),
        Ask::Bad { rule, detail } => put_rule(line, b"bad", *rule, *detail),
        Ask::End { why } => {
            put(line, b"end ");
            put_why(line, why);
        }
    }
}

/// Appends what a permit gives.
fn put_value(line: &mut Line, ask: &Ask, value: u64)
    requires { array_vec_len line.old + 21 ≤ LINE_MAX }
    ensures { WritesUpTo 21 (value_text ask.now value) line.old.items line.new.items }
{
    match ask {
        Ask::Challenge { .. } | Ask::Export { .. } | Ask::OpenFile { .. } | Ask::Info { .. } => {
            put_spaced(line, value)
        }
        Ask::Reply { .. } => put_password(line, value),
        _ => {}
    }
}

/// Appends what was decided.
fn put_decision(line: &mut Line, ask: &Ask, decision: &Decision)
    requires { array_vec_len line.old + 27 ≤ LINE_MAX }
    ensures { WritesUpTo 27 (decision_text ask.now decision.now) line.old.items line.new.items }
{
    match *decision {
        Decision::Permit { value } => {
            put(line, b"permit");
            put_value(line, ask, value);
        }
        Decision::Deny { rule, detail } => put_rule(line, b"deny", rule, detail),
        Decision::Lost => {}
    }
}
