ghost use Rattle.std.specs.Prelude.{◌≡◌, ◌<◌, IfOk, length, true};
ghost use Rattle.session_table.specs.Files.{FitsFiles};
ghost use Rattle.session_table.specs.Tables.{new_table};

use super::asked::holds;
use super::said::{Said, decision_of};
use policy_model::{Ask, Decision, Event, Grant, Grants, Phase, Why};
use request_catalogue::{Kind, Label, Name, Note};
use session_table::*;
use std::alloc::{AllocError, Global};
use std::test::Fail;

/// Grants of these files, each to read.
fn grants(alloc: Global, names: &[&str]) -> Result<Grants, AllocError> {
    let mut items = Vec::new(alloc);
    for name in names {
        if let Some(name) = Label::of(name.as_bytes()) {
            items.push(Grant { name, mode: 1 })?;
        }
    }
    Ok(Grants::of(items))
}

/// What is done with the open files, or is so of them.
#[derive(Clone, Copy)]
enum Step {
    /// What is decided on the opening of a file of this name with this mode.
    Open(&'static str, u8, Said),
    /// A handle is added, for the grant of this number with this mode.
    Add(u32, u32, u8),
    /// A handle's grant and mode.
    Look(u32, Option<(u32, u8)>),
    /// What is decided on a reading, a writing and the closing of a handle.
    Read(u32, Said),
    Write(u32, Said),
    Close(u32, Said),
    /// A handle is removed.
    Remove(u32),
    /// How many files are open.
    Len(usize),
}

/// Whether this is decided on an opening.
fn is_opened(handles: &Handles, grants: &Grants, name: &str, mode: u8, want: Said) -> bool {
    match Label::of(name.as_bytes()) {
        Some(name) => handles.judge_open(grants, mode, &name) == decision_of(want),
        None => false,
    }
}

/// Whether a file could be added.
fn is_added(handles: &mut Handles, handle: u32, grant: u32, mode: u8) -> bool {
    if handle < 1 || handle > 8 || !handles.is_free(handle) {
        return false;
    }
    handles.add(handle, grant, mode);
    true
}

/// Whether this is told of a handle.
fn is_told(handles: &Handles, handle: u32, want: Option<(u32, u8)>) -> bool {
    handles.look(handle) == want
}

/// True, once a handle is removed.
fn is_removed(handles: &mut Handles, handle: u32) -> bool {
    handles.remove(handle);
    true
}

/// Whether a step holds: what it says is done, or is so.
fn step_holds(handles: &mut Handles, grants: &Grants, step: Step) -> bool {
    match step {
        Step::Open(name, mode, want) => is_opened(handles, grants, name, mode, want),
        Step::Add(handle, grant, mode) => is_added(handles, handle, grant, mode),
        Step::Look(handle, want) => is_told(handles, handle, want),
        Step::Read(handle, want) => handles.judge_use(handle, 1) == decision_of(want),
        Step::Write(handle, want) => handles.judge_use(handle, 2) == decision_of(want),
        Step::Close(handle, want) => handles.judge_close(handle) == decision_of(want),
        Step::Remove(handle) => is_removed(handles, handle),
        Step::Len(len) => handles.len() == len,
    }
}

/// Whether each step holds of files of which none is open before, one after the other.
fn steps_hold(grants: &Grants, steps: &[Step]) -> bool {
    let mut handles = Handles::new();
    for step in steps {
        if !step_holds(&mut handles, grants, *step) {
            return false;
        }
    }
    true
}

/// A file is open twice.
const ONE_FILE_TWICE: &[Step] = &[
    Step::Look(1, None),
    Step::Open("f1", 1, Said::Permit(1)),
    Step::Add(1, 0, 1),
    Step::Open("f1", 1, Said::Permit(2)),
    Step::Add(2, 0, 1),
    Step::Look(1, Some((0, 1))),
    Step::Look(2, Some((0, 1))),
    Step::Close(1, Said::Permit(0)),
    Step::Remove(1),
    Step::Look(1, None),
    Step::Look(2, Some((0, 1))),
    Step::Open("f1", 1, Said::Permit(1)),
    Step::Len(1),
];

/// Eight files are open of nine; one in the middle is closed, then the last, then the first.
const EIGHT_FILES: &[Step] = &[
    Step::Add(1, 0, 1),
    Step::Add(2, 1, 1),
    Step::Add(3, 2, 1),
    Step::Add(4, 3, 1),
    Step::Add(5, 4, 1),
    Step::Add(6, 5, 1),
    Step::Add(7, 6, 1),
    Step::Open("f8", 1, Said::Permit(8)),
    Step::Add(8, 7, 1),
    Step::Len(8),
    Step::Open("f9", 1, Said::Deny(19, 8)),
    Step::Open("g", 1, Said::Deny(19, 8)),
    Step::Open("f1", 2, Said::Deny(19, 8)),
    Step::Look(9, None),
    Step::Look(0, None),
    Step::Read(9, Said::Deny(17, 9)),
    Step::Read(1, Said::Permit(0)),
    Step::Write(1, Said::Deny(18, 1)),
    Step::Write(0, Said::Permit(0)),
    Step::Close(0, Said::Deny(17, 0)),
    Step::Close(3, Said::Permit(0)),
    Step::Remove(3),
    Step::Look(3, None),
    Step::Close(3, Said::Deny(17, 3)),
    Step::Look(4, Some((3, 1))),
    Step::Open("f9", 1, Said::Permit(3)),
    Step::Add(3, 8, 1),
    Step::Look(3, Some((8, 1))),
    Step::Remove(9),
    Step::Len(8),
    Step::Remove(8),
    Step::Open("g", 1, Said::Deny(20, 0)),
    Step::Open("g", 2, Said::Deny(20, 0)),
    Step::Open("f1", 2, Said::Deny(21, 2)),
    Step::Open("f1", 3, Said::Deny(21, 3)),
    Step::Open("f1", 1, Said::Permit(8)),
    Step::Remove(1),
    Step::Open("f1", 1, Said::Permit(1)),
    Step::Len(6),
];

/// Whether the grant of a name has this number.
fn is_found(grants: &Grants, name: &str, want: Option<usize>) -> bool {
    match Label::of(name.as_bytes()) {
        Some(name) => find_grant(grants, &name) == want,
        None => false,
    }
}

/// Whether of nine grants the last is found and no other name, and all steps hold.
fn hold_over(grants: &Result<Grants, AllocError>) -> bool {
    match grants {
        Ok(grants) => {
            is_found(grants, "f9", Some(8))
                && is_found(grants, "g", None)
                && steps_hold(grants, ONE_FILE_TWICE)
                && steps_hold(grants, EIGHT_FILES)
        }
        Err(_) => false,
    }
}

/// The names of nine files.
const NINE: &[&str] = &["f1", "f2", "f3", "f4", "f5", "f6", "f7", "f8", "f9"];

#[test]
fn files(rt: HostRuntime) -> Result<(), Fail> {
    holds(hold_over(&grants(rt.alloc(), NINE)))
}

/// An ask.
#[derive(Clone, Copy)]
enum Asked {
    Open,
    Banner,
    Challenge,
    Reply,
    Abandon,
    Export,
    Import,
    Grant,
    Close,
    Finish,
    Bad,
    End,
    Note,
}

/// The ask of a user's child, of any child, or a session's own.
fn late_ask(asked: Asked) -> Option<Ask> {
    match asked {
        Asked::Import => Some(Ask::Import),
        Asked::Grant => Some(Ask::OpenFile {
            mode: 1,
            name: Label::of(b"notes")?,
        }),
        Asked::Close => Some(Ask::CloseFile { handle: 1 }),
        Asked::Finish => Some(Ask::Finish),
        Asked::Bad => Some(Ask::Bad { rule: 4, detail: 0 }),
        Asked::End => Some(Ask::End {
            why: Why::ChildEnded,
        }),
        _ => Some(Ask::Note {
            text: Note::of(b"a note")?,
        }),
    }
}

/// The ask, once names are made.
fn ask_of(asked: Asked) -> Option<Ask> {
    match asked {
        Asked::Open => Some(Ask::Begin),
        Asked::Banner => Some(Ask::Banner),
        Asked::Challenge => Some(Ask::Challenge {
            user: Name::of(b"alice")?,
            now: 1000,
        }),
        Asked::Reply => Some(Ask::Reply {
            words: None,
            hex: None,
        }),
        Asked::Abandon => Some(Ask::Abandon),
        Asked::Export => Some(Ask::Export { len: 0 }),
        _ => late_ask(asked),
    }
}

/// Whether a file that the event opens has a new handle.
fn fits_files(handles: &Handles, event: &Event) -> bool
    ensures { result ≡ true → FitsFiles handles.now event.now }
{
    match event.decision {
        Decision::Permit { value } if matches!(event.ask, Ask::OpenFile { .. }) => {
            1 <= value && value <= 8 && handles.is_free(value as u32)
        }
        _ => true,
    }
}

/// Whether the row follows an event, for account 5 and grant 7.
fn follows(row: &mut SessionRow, event: &Event) -> bool {
    if row.asked >= 100 || row.tries >= 100 || !fits_files(&row.handles, event) {
        return false;
    }
    row.advance(event, 5, 7);
    true
}

/// An ask, what is decided on it, and the row then: its phase, and its account, asks, denied replies and
/// open files.
type Line = (Asked, Said, Phase, [u32; 4]);

/// Whether a row of session 9 is in this phase and has these numbers.
fn is_row(row: &SessionRow, phase: Phase, numbers: &[u32; 4]) -> bool {
    row.session == 9
        && row.phase == phase
        && [row.account, row.asked, row.tries, row.handles.len() as u32] == *numbers
}

/// Whether the row refuses just what is denied by a rule of 1 to 7.
fn refuses(row: &SessionRow, event: &Event) -> bool {
    match event.decision {
        Decision::Deny { rule: 1..=7, .. } => row.refusal(64, &event.ask) == Some(event.decision),
        _ => row.refusal(64, &event.ask).is_none(),
    }
}

/// Whether the row judges an event's request as it should, and follows the event.
fn takes(row: &mut SessionRow, event: &Event) -> bool {
    (!event.ask.came_by_frame() || refuses(row, event)) && follows(row, event)
}

/// The event of an ask and what is decided on it.
fn event_of(ask: Ask, said: Said) -> Event {
    Event {
        worker: 0,
        session: 9,
        ask,
        decision: decision_of(said),
    }
}

/// Whether the row follows an ask with its decision, and is then as the line says.
fn line_holds(row: &mut SessionRow, line: &Line) -> bool {
    let (asked, said, phase, numbers) = line;
    match ask_of(*asked) {
        Some(ask) => takes(row, &event_of(ask, *said)) && is_row(row, *phase, numbers),
        None => false,
    }
}

/// Whether each line holds, one after the other.
fn lines_hold(row: &mut SessionRow, lines: &[Line]) -> bool {
    for line in lines {
        if !line_holds(row, line) {
            return false;
        }
    }
    true
}

/// A login after an abandoned challenge and a denied reply, and two files of the user's child.
const LOGIN: &[Line] = &[
    (Asked::Banner, Said::Permit(0), Phase::Pre, [0, 1, 0, 0]),
    (Asked::Note, Said::Permit(0), Phase::Pre, [0, 2, 0, 0]),
    (
        Asked::Challenge,
        Said::Deny(12, 3),
        Phase::Pre,
        [0, 3, 0, 0],
    ),
    (
        Asked::Challenge,
        Said::Permit(0),
        Phase::Challenged,
        [5, 4, 0, 0],
    ),
    (Asked::Abandon, Said::Permit(0), Phase::Pre, [5, 5, 0, 0]),
    (
        Asked::Challenge,
        Said::Permit(0),
        Phase::Challenged,
        [5, 6, 0, 0],
    ),
    (Asked::Reply, Said::Deny(16, 0), Phase::Pre, [5, 7, 1, 0]),
    (
        Asked::Challenge,
        Said::Permit(0),
        Phase::Challenged,
        [5, 8, 1, 0],
    ),
    (
        Asked::Reply,
        Said::Permit(77),
        Phase::Verified,
        [5, 9, 1, 0],
    ),
    (Asked::Export, Said::Permit(5), Phase::User, [5, 10, 1, 0]),
    (Asked::Import, Said::Permit(0), Phase::User, [5, 11, 1, 0]),
    (Asked::Grant, Said::Permit(1), Phase::User, [5, 12, 1, 1]),
    (Asked::Grant, Said::Deny(20, 0), Phase::User, [5, 13, 1, 1]),
    (Asked::Grant, Said::Permit(2), Phase::User, [5, 14, 1, 2]),
    (Asked::Close, Said::Deny(17, 3), Phase::User, [5, 15, 1, 2]),
    (Asked::Close, Said::Permit(0), Phase::User, [5, 16, 1, 1]),
    (Asked::Finish, Said::Permit(0), Phase::Over, [5, 17, 1, 1]),
    (Asked::Note, Said::Deny(6, 12), Phase::Over, [5, 18, 1, 1]),
];

/// Lines after which a row is over.
const OVER: &[(&str, &[Line])] = &[
    (
        "an early reply",
        &[(Asked::Reply, Said::Deny(6, 3), Phase::Over, [0, 1, 0, 0])],
    ),
    (
        "an early export",
        &[(Asked::Export, Said::Deny(6, 5), Phase::Over, [0, 1, 0, 0])],
    ),
    (
        "a late export",
        &[
            (
                Asked::Challenge,
                Said::Permit(0),
                Phase::Challenged,
                [5, 1, 0, 0],
            ),
            (
                Asked::Reply,
                Said::Permit(77),
                Phase::Verified,
                [5, 2, 0, 0],
            ),
            (Asked::Export, Said::Permit(5), Phase::User, [5, 3, 0, 0]),
            (Asked::Export, Said::Deny(6, 5), Phase::Over, [5, 4, 0, 0]),
        ],
    ),
    (
        "two imports",
        &[
            (
                Asked::Challenge,
                Said::Permit(0),
                Phase::Challenged,
                [5, 1, 0, 0],
            ),
            (
                Asked::Reply,
                Said::Permit(77),
                Phase::Verified,
                [5, 2, 0, 0],
            ),
            (Asked::Export, Said::Permit(5), Phase::User, [5, 3, 0, 0]),
            (Asked::Import, Said::Permit(0), Phase::User, [5, 4, 0, 0]),
            (Asked::Import, Said::Deny(7, 6), Phase::Over, [5, 5, 0, 0]),
        ],
    ),
    (
        "a second begin",
        &[(Asked::Open, Said::Deny(6, 0), Phase::Over, [0, 0, 0, 0])],
    ),
    (
        "a bad frame",
        &[
            (
                Asked::Challenge,
                Said::Permit(10532),
                Phase::Challenged,
                [5, 1, 0, 0],
            ),
            (Asked::Bad, Said::Deny(4, 0), Phase::Over, [5, 2, 0, 0]),
        ],
    ),
    (
        "a lost end",
        &[(Asked::End, Said::Lost, Phase::Over, [0, 0, 0, 0])],
    ),
];

/// What is denied isn't counted as had.
const TWO_BANNERS: &[Line] = &[
    (Asked::Banner, Said::Permit(0), Phase::Pre, [0, 1, 0, 0]),
    (
        Asked::Challenge,
        Said::Deny(12, 3),
        Phase::Pre,
        [0, 2, 0, 0],
    ),
    (Asked::Banner, Said::Deny(7, 1), Phase::Over, [0, 3, 0, 0]),
];

/// Whether a row follows the login, and had the kinds of requests that this has.
fn follows_login(row: &mut SessionRow) -> bool {
    lines_hold(row, LOGIN)
        && row.bits.had(Kind::Banner)
        && row.bits.had(Kind::Import)
        && row.bits.had(Kind::Finish)
        && row.bits.had(Kind::OpenFile)
        && !row.bits.had(Kind::Info)
        && !row.bits.had(Kind::WriteAt)
}

#[test]
fn the_row_of_a_session() -> Result<(), Fail> {
    holds(follows_login(&mut SessionRow::new(9)))
}

/// Whether a row follows two banners, and had no challenge.
fn follows_two_banners(row: &mut SessionRow) -> bool {
    lines_hold(row, TWO_BANNERS) && row.bits.had(Kind::Banner) && !row.bits.had(Kind::Challenge)
}

/// Whether a new row follows these lines.
fn are_followed(lines: &[Line]) -> bool {
    lines_hold(&mut SessionRow::new(9), lines)
}

#[test]
fn rows_that_are_over(rt: HostRuntime) {
    for (name, lines) in OVER {
        assert!(rt; are_followed(lines), "{name}");
    }
    assert!(rt; follows_two_banners(&mut SessionRow::new(9)));
}

/// One permitted note.
const NOTE: &[Line] = &[(Asked::Note, Said::Permit(0), Phase::Pre, [0, 1, 0, 0])];

/// Whether after a note one more request is taken, and none where one request is all.
fn is_spent(row: &mut SessionRow) -> bool {
    let spent = Decision::Deny { rule: 1, detail: 1 };
    lines_hold(row, NOTE)
        && row.refusal(2, &Ask::Banner).is_none()
        && row.refusal(1, &Ask::Banner) == Some(spent)
}

#[test]
fn asks_that_are_spent() -> Result<(), Fail> {
    holds(is_spent(&mut SessionRow::new(9)))
}

/// The session of a worker's row.
fn session_of(table: &Table, worker: u32) -> Option<u32>
    requires { worker < length table.now.rows }
{
    match table.row(worker) {
        None => None,
        Some(row) => Some(row.session),
    }
}

/// The sessions of two workers, before the first begins and after each that begins or ends.
fn sessions_of(table: &mut Table) -> [[Option<u32>; 2]; 5]
    requires { table.old ≡ new_table 2 }
{
    let none = [session_of(table, 0), session_of(table, 1)];
    let one = [session_of(table, 0), Some(table.begin(1))];
    let two = [Some(table.begin(0)), session_of(table, 1)];
    table.end(1);
    let left = [session_of(table, 0), session_of(table, 1)];
    let third = Some(table.begin(1));
    [none, one, two, left, [third, session_of(table, 1)]]
}

/// These sessions: none, the first, both, what is left where the first ends, and the third.
const SESSIONS: [[Option<u32>; 2]; 5] = [
    [None, None],
    [None, Some(1)],
    [Some(2), Some(1)],
    [Some(2), None],
    [Some(3), Some(3)],
];

/// Whether the sessions of two workers are numbered as they begin.
fn are_numbered(made: &mut Result<Table, AllocError>) -> bool
    requires { IfOk made.old (λ table. table ≡ new_table 2) }
{
    match made {
        Ok(table) => sessions_of(table) == SESSIONS,
        Err(_) => false,
    }
}

#[test]
fn two_workers(rt: HostRuntime) -> Result<(), Fail> {
    holds(are_numbered(&mut Table::new(rt.alloc(), 2)))
}
