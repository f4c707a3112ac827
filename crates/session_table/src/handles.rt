//! The files that a session has open, in eight places.

ghost use Rattle.std.specs.Prelude.{◌≡◌, ◌≤◌, ◌++◌, ◌∷◌, [], Some, true, length};
ghost use Rattle.std.specs.List.{find};
ghost use Rattle.std.specs.Option.{option_copied};
ghost use Rattle.policy_model.specs.Settings.{same_label};
ghost use Rattle.policy_model.specs.Cases.{grant_verdict};
ghost use Rattle.session_table.specs.Files.{FitsFiles, IsNewHandle, close_decision, file_at, files_after, free_of};
ghost use Rattle.session_table.specs.Files.{is_free, look_of, open_decision, use_decision, without};
ghost use Rattle.session_table.specs.Standing.{grant_number};
ghost use Rattle.session_table.specs.Judging.{IsCloseVerdict, IsOpenVerdict, IsUseVerdict};

use arrayvec::ArrayVec;
use policy_model::{Ask, Decision, Event, Grant, Grants, allows, judge_grant};
use request_catalogue::{Label, rules};
use std::marker::Model;

/// The most files that a session has open.
const PLACES: usize = 8;

/// The numbers that handles have.
const NUMBERS: [u32; 8] = [1, 2, 3, 4, 5, 6, 7, 8];

/// A file that a session has open.
#[derive(Clone, Copy, PartialEq, Eq, Default)]
pub struct LiveHandle {
    /// 1 to 8.
    pub handle: u32,
    /// The number of the account's grant, counted from 0.
    pub grant: u32,
    /// The mode that was asked: 1 to read, 2 to write, 3 for both.
    pub mode: u8,
}

/// The files that a session has open, in the order in which they were opened: at most eight, with
/// different handles of 1 to 8.
#[derive(Drop)]
pub struct Handles {
    live: ArrayVec<LiveHandle, 8>,
}

impl Model for Handles {
    ghost use Rattle.std.specs.Prelude.{List};
    ghost use Rattle.session_table.specs.declared.handles.LiveHandle.{LiveHandle};
    ghost use Rattle.session_table.specs.Files.{AreHandles};

    ghost Value = { List LiveHandle };

    ghost view = { λ h. h.live.items };

    ghost invariant = { λ h. AreHandles h.live.items };
}

/// The number of the grant of a file's name, counted from 0.
pub fn find_grant(grants: &Grants, name: &Label) -> Option<usize>
    ensures { result ≡ grant_number grants.now (Some name.now) }
{
    grants.as_slice().iter().position(|g| g.name == *name)
}

/// The file with this handle.
fn file_of<'a>(live: &'a [LiveHandle], handle: u32) -> Option<&'a LiveHandle>
    ensures { option_copied result ≡ file_at handle live.entry.now }
{
    live.iter().find(|file| file.handle == handle)
}

/// Whether no file has this handle.
fn is_free(live: &[LiveHandle], handle: u32) -> bool
    ensures { result ≡ is_free handle live.now }
{
    file_of(live, handle).is_none()
}

/// The least handle of 1 to 8 that is free, or 0 where none is.
fn free_handle(live: &[LiveHandle]) -> u32
    ensures { result ≡ free_of live.now }
{
    for handle in &NUMBERS {
        if is_free(live, *handle) {
            return *handle;
        }
    }
    0
}

/// Rules 19 to 21 of an OPEN, else a permit with the handle.
fn judge_open(live: &[LiveHandle], grants: &[Grant], mode: u8, name: &Label) -> Decision
    ensures { result ≡ open_decision live.now grants.now mode name.now }
{
    if live.len() >= PLACES {
        return Decision::Deny {
            rule: rules::HANDLES_SPENT,
            detail: 8,
        };
    }
    judge_grant(grants, mode, name, u64::from(free_handle(live)))
}

/// Rules 17 and 18 of a READ or WRITE.
fn judge_use(live: &[LiveHandle], handle: u32, needed: u8) -> Decision
    ensures { result ≡ use_decision live.now handle needed }
{
    if handle == 0 {
        return Decision::Permit { value: 0 };
    }
    match file_of(live, handle) {
        None => Decision::Deny {
            rule: rules::NO_HANDLE,
            detail: handle,
        },
        Some(file) if allows(file.mode, needed) => Decision::Permit { value: 0 },
        Some(_) => Decision::Deny {
            rule: rules::MODE_LACKING,
            detail: handle,
        },
    }
}

/// Rule 17 of a CLOSE.
fn judge_close(live: &[LiveHandle], handle: u32) -> Decision
    ensures { result ≡ close_decision live.now handle }
{
    if handle == 0 || is_free(live, handle) {
        Decision::Deny {
            rule: rules::NO_HANDLE,
            detail: handle,
        }
    } else {
        Decision::Permit { value: 0 }
    }
}

impl Handles {
    /// No file is open.
    pub fn new() -> Handles
        ensures { result ≡ [] }
    {
        Handles {
            live: ArrayVec::new(),
        }
    }

    /// How many files are open, at most eight.
    pub fn len(&self) -> usize
        ensures value { result ≡ length self.now }
        ensures bound { result ≤ 8 }
    {
        self.live.len()
    }

    /// Whether a handle of 1 to 8 isn't taken.
    pub fn is_free(&self, handle: u32) -> bool
        ensures { result ≡ is_free handle self.now }
    {
        is_free(self.live.as_slice(), handle)
    }

    /// The decision on an OPEN of a file by its name, in a mode of 1 to 3, where these are the user's
    /// grants: rule 19 where eight files are open, rule 20 where no grant has the name, rule 21 where the
    /// grant's mode lacks what is asked, and else a permit with the least handle of 1 to 8 that is free.
    pub fn judge_open(&self, grants: &Grants, mode: u8, name: &Label) -> Decision
        ensures value { result ≡ open_decision self.now grants.now mode name.now }
        ensures new { IsNewHandle self.now result }
        ensures verdict { IsOpenVerdict self.now grants.now mode name.now result }
    {
        judge_open(self.live.as_slice(), grants.as_slice(), mode, name)
    }

    /// The decision on a READ, which needs the mode 1, or a WRITE, which needs 2: rule 17 where no file
    /// has the handle, and rule 18 where its mode lacks what is needed. Handle 0 is the client's connection.
    pub fn judge_use(&self, handle: u32, needed: u8) -> Decision
        ensures value { result ≡ use_decision self.now handle needed }
        ensures verdict { IsUseVerdict self.now handle needed result }
    {
        judge_use(self.live.as_slice(), handle, needed)
    }

    /// The decision on a CLOSE: rule 17 where no file has the handle, also for handle 0.
    pub fn judge_close(&self, handle: u32) -> Decision
        ensures value { result ≡ close_decision self.now handle }
        ensures verdict { IsCloseVerdict self.now handle result }
    {
        judge_close(self.live.as_slice(), handle)
    }

    /// A file is open after those that were.
    pub fn add(&mut self, handle: u32, grant: u32, mode: u8)
        requires number { (1 ≤ handle) × (handle ≤ 8) }
        requires free { is_free handle self.old ≡ true }
        ensures { self.new ≡ self.old ++ record { handle = handle; grant = grant; mode = mode } ∷ [] }
    {
        self.live.push(LiveHandle {
            handle,
            grant,
            mode,
        });
    }

    /// The number of the grant and the mode of a file that is open.
    pub fn look(&self, handle: u32) -> Option<(u32, u8)>
        ensures { result ≡ look_of handle self.now }
    {
        match file_of(self.live.as_slice(), handle) {
            None => None,
            Some(file) => Some((file.grant, file.mode)),
        }
    }

    /// The file isn't open any more; where none has the handle nothing changes.
    pub fn remove(&mut self, handle: u32)
        ensures { self.new ≡ without handle self.old }
    {
        self.live.retain(|file| file.handle != handle);
    }

    /// What an event of the session makes of these; where it is a permitted OPEN, it is for this grant.
    pub(crate) fn advance(&mut self, event: &Event, grant: u32)
        requires { FitsFiles self.old event.now }
        ensures { self.new ≡ files_after self.old event.now grant }
    {
        if let Decision::Permit { value } = event.decision {
            match event.ask {
                Ask::OpenFile { mode, .. } => self.add(value as u32, grant, mode),
                Ask::CloseFile { handle } => self.remove(handle),
                _ => {}
            }
        }
    }
}
