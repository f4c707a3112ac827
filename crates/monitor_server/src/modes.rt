//! The modes.

ghost use Rattle.std.specs.Prelude.{◌≡◌, ◌⊎◌, ◌≤◌, false};
ghost use Rattle.policy_model.specs.Journal.{has_lost};
ghost use Rattle.otp_mode.specs.Command.{command_parts};
ghost use Rattle.trouble.specs.Status.{status_of};
ghost use Rattle.child_mode.specs.Commands.{parts_of};
ghost use Rattle.enrol_mode.specs.Command as enrolments;
ghost use Rattle.audit_mode.specs.Commands as audits;
ghost use Rattle.otp_extended.specs.Commands as renewals;
ghost use Rattle.recover_mode.specs.Commands as recoveries;
ghost use Rattle.monitor_server.specs.declared.command.AloneCommand.TheVariants as alone;
ghost use Rattle.monitor_server.specs.declared.report.Detail.TheVariants.{Nothing};
ghost use Rattle.serve_mode.specs.Commands as serves;
ghost use Rattle.serve_mode.specs.Words.{Plain, files_of, setups_of};
ghost use Rattle.setup_reading.specs.Touching.{TouchesNamed};
ghost use Rattle.monitor_server.specs.Alone.{SparesRest};
ghost use Rattle.monitor_server.specs.Around.{files_with};
ghost use Rattle.monitor_server.specs.Headline.{UsesEndsAlone};
ghost use Rattle.monitor_server.specs.Modes.{AuditRan, CheckRan, ChildRan, DrillRan, EnrolRan, PasswordRan, RecoverRan};
ghost use Rattle.monitor_server.specs.Touching.{TouchesGiven};
ghost use Rattle.monitor_server.specs.Whole.{HasServed};
ghost use Rattle.monitor_server.specs.Modes.{RenewRan, audit_detail, checked_detail, detail_of};
ghost use Rattle.monitor_server.specs.Modes.{trouble_detail};

use crate::report::{Answer, Detail, Ended, FEW_REQUESTS, Report};
use crate::world::{Sides, World};
use audit_check::Audit;
use audit_mode::{AuditCommand, run_audit};
use check_mode::{Finding, run_check};
use child_mode::{ChildCommand, run_child_mode};
use drill_mode::run_drill;
use enrol_mode::{EnrolCommand, run_enrol};
use otp_extended::RenewCommand;
use otp_mode::{OtpCommand, run_otp};
use outside::{Files, Sink, Site, Stream};
use recover_mode::{RecoverCommand, run_recover};
use renew_mode::run_renew;
use serve_mode::{ServeCommand, Served, run_serve};
use service_reading::Information;
use std::alloc::Global;
use std::sync::Wait;
use std::thread::Threads;
use trouble::{LogFault, Trouble, status_of};

/// Serves the connections of a setup.
pub(crate) fn serve_setup<
    F: Files,
    S: Site,
    K: Sink,
    E: Stream,
    I: Information + Sync,
    R: Threads + Wait + Sync,
>(
    rt: &R,
    alloc: Global,
    command: &ServeCommand<'_>,
    world: World<F, S, K, E>,
    information: &I,
) -> Ended<F, S, K, E>
    ensures serve { HasServed (serves.source_of command.now) (I.forms information.now) F.contents
        world result.world result.said }
    ensures plain { serves.source_of command.now ≡ Plain → result.world.files ≡ world.files }
    ensures ends { result.world.ends ≡ world.ends }
    ensures touches { let source = serves.source_of command.now in
        TouchesNamed (files_of source) (setups_of source) (setups_of source) (files_with F.contents world.files)
        (files_with F.contents result.world.files) }
    ensures logged { has_lost result.said.journal ≡ false → result.world.log.faults ≡ world.log.faults }
{
    let World {
        mut files,
        mut site,
        log,
        ends,
    } = world;
    let Served {
        end,
        journal,
        log,
        posts,
    } = run_serve(rt, alloc, command, &mut files, &mut site, log, information);
    let said = Report {
        status: status_of(&end),
        detail: detail_of(&end),
        journal,
        posts,
    };
    let world = World {
        files,
        site,
        log,
        ends,
    };
    Ended { said, world }
}

/// Prints a one-time password: the pass phrase is read from the ends, and a word list from its file.
pub(crate) fn print_password<F: Files, E: Stream>(
    alloc: Global,
    command: &OtpCommand<'_>,
    sides: &mut Sides<F, E>,
) -> Answer
    ensures password { PasswordRan (command_parts command.now) F.contents sides.old sides.new result }
    ensures spares { SparesRest (alone.Password command.now) F.contents sides.old sides.new result.status }
    ensures touches { TouchesGiven (alone.Password command.now) F.contents sides.old sides.new }
{
    let outcome = run_otp(alloc, command, &mut sides.files, &mut sides.ends);
    Answer {
        status: status_of(&outcome),
        detail: detail_of(&outcome),
    }
}

/// Where the trouble of a mode lies, if it ended by one.
fn detail_of<T>(outcome: &Result<T, Trouble>) -> Detail
    ensures { result ≡ detail_of outcome.now }
{
    match outcome {
        Ok(_) => Detail::Nothing,
        Err(trouble) => trouble_detail(*trouble),
    }
}

/// Where a trouble lies: what is missing, refused or bad, or why a response renews nothing.
fn trouble_detail(trouble: Trouble) -> Detail
    ensures { result ≡ trouble_detail trouble }
{
    match trouble {
        Trouble::Missing(file) => Detail::Missing { file },
        Trouble::SetupRefused(fault) => Detail::SetupBad(fault),
        Trouble::WordsRefused(fault) => Detail::WordsBad(fault),
        Trouble::LogRefused(LogFault::NotFresh) => Detail::LogNotFresh,
        Trouble::LogRefused(LogFault::Record { number }) => Detail::LogBad { number },
        Trouble::NoRenewal(fault) => Detail::RenewBad(fault),
        _ => Detail::Nothing,
    }
}

/// Says whether a setup is right: it and its word list are read from their files.
pub(crate) fn check_setup<F: Files, I: Information, E: Stream>(
    alloc: Global,
    setup: &str,
    information: &I,
    sides: &mut Sides<F, E>,
) -> Answer
    ensures check { CheckRan (I.forms information.now) setup.now F.contents sides.old sides.new result }
    ensures spares { SparesRest (alone.Check setup.entry) F.contents sides.old sides.new result.status }
    ensures touches { TouchesGiven (alone.Check setup.entry) F.contents sides.old sides.new }
{
    let outcome = run_check(alloc, setup, information, &mut sides.files, &mut sides.ends);
    Answer {
        status: status_of(&outcome),
        detail: checked_detail(outcome),
    }
}

/// What is missing or refused of a setup that was checked, or that a right one allows few requests.
fn checked_detail(outcome: Result<Finding, Trouble>) -> Detail
    ensures { result ≡ checked_detail outcome }
{
    match outcome {
        Ok(Finding { requests, .. }) if requests < FEW_REQUESTS => Detail::FewRequests { requests },
        Ok(_) => Detail::Nothing,
        Err(trouble) => trouble_detail(trouble),
    }
}

/// Runs a child program, the monitor's side of whose link is the ends.
pub(crate) fn run_child<F: Files, E: Stream>(
    alloc: Global,
    command: &ChildCommand,
    sides: &mut Sides<F, E>,
) -> Answer
    ensures child { ChildRan (parts_of command.now) sides.old.ends sides.new.ends result.status }
    ensures detail { result.detail ≡ Nothing }
    ensures spares { SparesRest (alone.Child command.now) F.contents sides.old sides.new result.status }
    ensures touches { TouchesGiven (alone.Child command.now) F.contents sides.old sides.new }
{
    let run = run_child_mode(alloc, command, &mut sides.ends);
    Answer::plain(run.status())
}

/// Says whether a log is legal: it and the setup are read from their files.
pub(crate) fn audit_log<F: Files, E: Stream>(
    alloc: Global,
    command: &AuditCommand<'_>,
    sides: &mut Sides<F, E>,
) -> Answer
    ensures audit { AuditRan (audits.command_parts command.now) F.contents sides.old sides.new result }
    ensures spares { SparesRest (alone.Audit command.now) F.contents sides.old sides.new result.status }
    ensures touches { TouchesGiven (alone.Audit command.now) F.contents sides.old sides.new }
{
    let outcome = run_audit(alloc, command, &mut sides.files, &mut sides.ends);
    Answer {
        status: audit_mode::status(outcome),
        detail: audit_detail(outcome),
    }
}

/// What is missing or refused of a setup and a log, or where the log stops being legal.
fn audit_detail(outcome: Result<Audit, Trouble>) -> Detail
    ensures { result ≡ audit_detail outcome }
{
    match outcome {
        Ok(Audit::No { line, why }) => Detail::AuditNo { line, why },
        Ok(Audit::Yes { .. }) => Detail::Nothing,
        Err(trouble) => trouble_detail(trouble),
    }
}

/// Renews a user's chain of passwords in the setup's file by a response, which is read from the ends.
pub(crate) fn renew_account<F: Files, E: Stream>(
    alloc: Global,
    command: &RenewCommand<'_>,
    sides: &mut Sides<F, E>,
) -> Answer
    ensures renew { RenewRan (renewals.command_parts command.now) F.contents sides.old sides.new result }
    ensures spares { SparesRest (alone.Renew command.now) F.contents sides.old sides.new result.status }
    ensures touches { TouchesGiven (alone.Renew command.now) F.contents sides.old sides.new }
{
    let outcome = run_renew(alloc, command, &mut sides.files, &mut sides.ends);
    Answer {
        status: status_of(&outcome),
        detail: detail_of(&outcome),
    }
}

/// Recovers the accounts from a durable log into the setup's file, and makes the log fresh.
pub(crate) fn recover_accounts<F: Files, E: Stream>(
    alloc: Global,
    command: &RecoverCommand<'_>,
    sides: &mut Sides<F, E>,
) -> Answer
    ensures recover { RecoverRan (recoveries.command_parts command.now) F.contents sides.old sides.new result }
    ensures spares { SparesRest (alone.Recover command.now) F.contents sides.old sides.new result.status }
    ensures touches { TouchesGiven (alone.Recover command.now) F.contents sides.old sides.new }
{
    let outcome = run_recover(alloc, command, &mut sides.files, &mut sides.ends);
    Answer {
        status: status_of(&outcome),
        detail: detail_of(&outcome),
    }
}

/// Prints the account of a new user: the pass phrase is read from the ends.
pub(crate) fn print_account<F: Files, E: Stream>(
    alloc: Global,
    command: &EnrolCommand,
    sides: &mut Sides<F, E>,
) -> Answer
    ensures enrol { EnrolRan (enrolments.command_parts command.now) sides.old.ends sides.new.ends result.status }
    ensures detail { result.detail ≡ Nothing }
    ensures spares { SparesRest (alone.Enrol command.now) F.contents sides.old sides.new result.status }
    ensures touches { TouchesGiven (alone.Enrol command.now) F.contents sides.old sides.new }
{
    let outcome = run_enrol(alloc, command, &mut sides.ends);
    Answer::plain(status_of(&outcome))
}

/// Runs the drill of a number, from 1 to 64, and tells the counts of its journal.
pub(crate) fn play_drill<F: Files, S: Site, K: Sink, E: Stream, R: Threads + Wait + Sync>(
    rt: &R,
    alloc: Global,
    number: u32,
    mut world: World<F, S, K, E>,
) -> Ended<F, S, K, E>
    requires low { 1 ≤ number }
    requires high { number ≤ 64 }
    ensures drill { DrillRan number world.ends result.world.ends result.said }
    ensures alone { UsesEndsAlone world result.world result.said }
    ensures silent { (result.said.status ≡ 3) ⊎ (result.said.status ≡ 9) → result.world.ends ≡ world.ends }
    ensures no_file { (result.said.status ≡ 4) ⊎ (result.said.status ≡ 5) ⊎ (result.said.status ≡ 13)
        → result.world.ends ≡ world.ends }
{
    let outcome = run_drill(rt, alloc, number, &mut world.ends);
    let status = status_of(&outcome);
    let journal = match outcome {
        Ok(journal) => journal,
        Err(_) => Vec::new(alloc),
    };
    let said = Report {
        status,
        detail: Detail::Nothing,
        journal,
        posts: Vec::new(alloc),
    };
    Ended { said, world }
}
