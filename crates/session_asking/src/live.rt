//! A session whose child is live.

ghost use Rattle.std.specs.Prelude.{◌≡◌, ℕ, option_map, slice_get};
ghost use Rattle.session_asking.specs.Work.{IsSmall};
ghost use Rattle.session_asking.specs.Files.{name_in};
ghost use Rattle.session_asking.specs.Known.{account_in, file_in, file_value, name_after, names_in, NotesFiles};

use crate::files::OpenFiles;
use crate::texts::Texts;
use outside::Post;
use policy_model::{Account, Ask, Decision, Event, Setup};
use request_catalogue::Label;

/// What a session knows once its user's child is live.
#[derive(Clone, Copy)]
pub struct LoggedIn {
    /// The number of the user's account.
    pub account: u32,
    pub files: OpenFiles,
}

/// A session whose child is live: before the login nobody is its user.
pub struct Live<P: Post, L> {
    pub session: u32,
    pub conn: P::Conn,
    pub child: L,
    pub user: Option<LoggedIn>,
}

/// A user's file.
#[derive(Clone, Copy)]
pub struct UserFile {
    /// The user's number.
    pub uid: u32,
    pub name: Label,
}

/// The account of the user, where one is logged in.
pub(crate) fn account_of<'t, T: Texts>(texts: &'t T, user: &Option<LoggedIn>) -> Option<&'t Account>
    ensures { option_map (λ a. a.now) result ≡ account_in (T.service texts.now).setup user.now }
{
    match user {
        Some(user) => account_at(texts.setup(), user.account),
        None => None,
    }
}

/// The account at a place of the setup, if there is one.
pub(crate) fn account_at(setup: &Setup, number: u32) -> Option<&Account>
    ensures { option_map (λ a. a.now) result ≡ slice_get setup.now.accounts number }
{
    setup.parts().accounts.as_slice().get(number as usize)
}

/// The file that a handle is of, where it is open.
pub(crate) fn file_of<T: Texts>(texts: &T, user: &Option<LoggedIn>, handle: u32) -> Option<UserFile>
    ensures { option_map file_value result ≡ file_in (T.service texts.now).setup user.now handle }
{
    let account = account_of(texts, user)?;
    let name = name_of(user, handle)?;
    Some(UserFile {
        uid: account.uid,
        name,
    })
}

/// The name of the file that a handle is of, where it is open.
fn name_of(user: &Option<LoggedIn>, handle: u32) -> Option<Label>
    ensures { result ≡ names_in user.now handle }
{
    match user {
        Some(user) => user.files.name(handle),
        None => None,
    }
}

/// What is known of a session after an event of it, that may have opened or closed a file.
pub(crate) fn noted(user: Option<LoggedIn>, event: &Event) -> Option<LoggedIn>
    requires small { IsSmall event.now.ask event.now.decision }
    ensures { NotesFiles event.now user result }
{
    let user = user?;
    Some(LoggedIn {
        account: user.account,
        files: files_after(user.files, event),
    })
}

/// The open files after an event of their session.
fn files_after(files: OpenFiles, event: &Event) -> OpenFiles
    requires small { IsSmall event.now.ask event.now.decision }
    ensures { (handle : ℕ) → name_in result.names handle ≡ name_after event.now (name_in files.names handle) handle }
{
    let Decision::Permit { value } = event.decision else {
        return files;
    };
    match event.ask {
        Ask::OpenFile { name, .. } => files.opened(value as u32, name),
        Ask::CloseFile { handle } => files.closed(handle),
        _ => files,
    }
}
