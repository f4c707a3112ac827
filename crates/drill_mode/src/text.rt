//! The text of what a journal comes to.

ghost use Rattle.std.specs.Prelude.{◌≡◌, ◌++◌, IfOk, OnOk};
ghost use Rattle.std.specs.String.{string_bytes};
ghost use Rattle.drill_mode.specs.declared.counted.Counted.TheVariants as counted_;
ghost use Rattle.drill_mode.specs.CountsText.{counted_words, counts_text, ends_text, line_in, line_where_some};
ghost use Rattle.drill_mode.specs.CountsText.{rules_text, totals_text};

use crate::counted::{Counted, EndKind};
use policy_model::Event;
use std::alloc::{AllocError, Global};

/// What has a line always, in this order.
const TOTALS: [Counted; 5] = [
    Counted::Sessions,
    Counted::Events,
    Counted::Permitted,
    Counted::Denied,
    Counted::Accepted,
];

/// The greatest rule.
const LAST_RULE: u8 = 22;

/// The kinds of ends, in the order of their lines.
const END_KINDS: [EndKind; 8] = [
    EndKind::Finished,
    EndKind::ChildEnded,
    EndKind::Truncated,
    EndKind::BadFrame,
    EndKind::Violation,
    EndKind::LinkFault,
    EndKind::KeeperFault,
    EndKind::LogLost,
];

/// The text of a journal's counts: a line each of its sessions, events, permits, denials and accepted
/// replies, of each rule that denied an ask, in rising order, and of each kind of end that came.
pub fn counts_text(alloc: Global, journal: &[Event]) -> Result<String, AllocError>
    ensures { IfOk result (λ text. string_bytes text ≡ counts_text journal.now) }
{
    let mut text = String::new(alloc);
    push_totals(alloc, &mut text, journal)?;
    push_rules(alloc, &mut text, journal)?;
    push_ends(alloc, &mut text, journal)?;
    Ok(text)
}

/// Appends a line of each total.
fn push_totals(alloc: Global, text: &mut String, journal: &[Event]) -> Result<(), AllocError>
    ensures { OnOk result (string_bytes text.new ≡ string_bytes text.old ++ totals_text journal.now) }
{
    for total in TOTALS {
        push_line(alloc, text, journal, total)?;
    }
    Ok(())
}

/// Appends a line of each rule that denied an ask.
fn push_rules(alloc: Global, text: &mut String, journal: &[Event]) -> Result<(), AllocError>
    ensures { OnOk result (string_bytes text.new ≡ string_bytes text.old ++ rules_text journal.now) }
{
    for rule in 1..=LAST_RULE {
        push_where_some(alloc, text, journal, Counted::Rule(rule))?;
    }
    Ok(())
}

/// Appends a line of each kind of end that came.
fn push_ends(alloc: Global, text: &mut String, journal: &[Event]) -> Result<(), AllocError>
    ensures { OnOk result (string_bytes text.new ≡ string_bytes text.old ++ ends_text journal.now) }
{
    for kind in END_KINDS {
        push_where_some(alloc, text, journal, Counted::End(kind))?;
    }
    Ok(())
}

/// Appends the line of these, where a journal has some.
fn push_where_some(
    alloc: Global,
    text: &mut String,
    journal: &[Event],
    counted: Counted,
) -> Result<(), AllocError>
    ensures { OnOk result (string_bytes text.new ≡ string_bytes text.old ++ line_where_some journal.now counted) }
{
    if counted.count_in(journal) == 0 {
        return Ok(());
    }
    push_line(alloc, text, journal, counted)
}

/// Appends the line of these.
fn push_line(
    alloc: Global,
    text: &mut String,
    journal: &[Event],
    counted: Counted,
) -> Result<(), AllocError>
    ensures { OnOk result (string_bytes text.new ≡ string_bytes text.old ++ line_in journal.now counted) }
{
    let count = counted.count_in(journal).to_string(alloc)?;
    text.push_str(words_of(alloc, counted)?.as_str())?;
    text.push_str(" ")?;
    text.push_str(count.as_str())?;
    text.push_str("\n")
}

/// What is counted, as it is spelled.
fn words_of(alloc: Global, counted: Counted) -> Result<String, AllocError>
    ensures { IfOk result (λ words. string_bytes words ≡ counted_words counted) }
{
    match counted {
        Counted::Sessions => String::from_str(alloc, "sessions"),
        Counted::Events => String::from_str(alloc, "events"),
        Counted::Permitted => String::from_str(alloc, "permitted"),
        Counted::Denied => String::from_str(alloc, "denied"),
        Counted::Accepted => String::from_str(alloc, "accepted"),
        Counted::Rule(rule) => format!(in alloc; "rule {rule}"),
        Counted::End(kind) => end_words(alloc, kind),
    }
}

/// An end of a kind, as it is spelled.
fn end_words(alloc: Global, kind: EndKind) -> Result<String, AllocError>
    ensures { IfOk result (λ words. string_bytes words ≡ counted_words (counted_.End kind)) }
{
    let word = kind.word();
    format!(in alloc; "end {word}")
}
