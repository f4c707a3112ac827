//! The line that tells what was found.

ghost use Rattle.std.specs.Prelude.{◌≡◌, IfOk, Err, Ok};
ghost use Rattle.std.specs.String.{string_bytes};
ghost use Rattle.trouble.specs.declared.trouble.Trouble.TheVariants.{SetupRefused, WordsRefused};
ghost use Rattle.check_mode.specs.Lines.{line_of, list_rule_word};

use crate::finding::Finding;
use account_file::SetupFault;
use otp_words::{DictFault, DictRule};
use std::alloc::{AllocError, Global};
use trouble::{FileKind, Trouble};

/// The line of what was found, with the newline at its end; empty where nothing is told.
pub fn line_of(alloc: Global, found: Result<Finding, Trouble>) -> Result<String, AllocError>
    ensures { IfOk result (λ line. string_bytes line ≡ line_of found) }
{
    match found {
        Ok(finding) => right_line(alloc, finding),
        Err(Trouble::Missing(FileKind::Setup)) => String::from_str(alloc, "missing setup\n"),
        Err(Trouble::SetupRefused(fault)) => refused_setup_line(alloc, fault),
        Err(Trouble::Missing(FileKind::Words)) => String::from_str(alloc, "missing words\n"),
        Err(Trouble::WordsRefused(fault)) => refused_words_line(alloc, fault),
        Err(_) => Ok(String::new(alloc)),
    }
}

/// The line of a setup that is right.
fn right_line(alloc: Global, finding: Finding) -> Result<String, AllocError>
    ensures { IfOk result (λ line. string_bytes line ≡ line_of (Ok finding)) }
{
    let mut line = String::from_str(alloc, "ok accounts ")?;
    line.push_str(finding.accounts.to_string(alloc)?.as_str())?;
    line.push_str(" workers ")?;
    line.push_str(finding.workers.to_string(alloc)?.as_str())?;
    line.push_str("\n")?;
    Ok(line)
}

/// The line of a setup that is refused.
fn refused_setup_line(alloc: Global, fault: SetupFault) -> Result<String, AllocError>
    ensures { IfOk result (λ line. string_bytes line ≡ line_of (Err (SetupRefused fault))) }
{
    let key = fault.key.word();
    let rule = fault.rule.word();
    let account = fault.account;
    format!(in alloc; "refused setup {key} {rule} {account}\n")
}

/// The line of a word list that is refused.
fn refused_words_line(alloc: Global, fault: DictFault) -> Result<String, AllocError>
    ensures { IfOk result (λ line. string_bytes line ≡ line_of (Err (WordsRefused fault))) }
{
    let mut line = String::from_str(alloc, "refused words ")?;
    line.push_str(fault.line.to_string(alloc)?.as_str())?;
    line.push_str(" ")?;
    line.push_str(list_rule_word(fault.rule))?;
    line.push_str("\n")?;
    Ok(line)
}

/// A word list's rule as it is spelled.
fn list_rule_word(rule: DictRule) -> &'static str
    ensures { result.now ≡ list_rule_word rule }
{
    match rule {
        DictRule::Count => "count",
        DictRule::Length => "length",
        DictRule::Letter => "letter",
        DictRule::Twice => "twice",
    }
}
