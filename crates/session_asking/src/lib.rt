//! One message of a session's child: what it asks, what is done for it, what it is answered. Read
//! `serving.rt` first; believe nothing here, since what a worker did is told by the definitions of
//! `service_model`.
#![tactic(auto)]

mod asking;
mod doing;
mod exported;
mod files;
mod live;
mod names;
mod replies;
mod serving;
mod telling;
mod texts;
mod work;
mod writing;

pub use asking::{Turn, turn_of};
pub use doing::perform;
pub use exported::Exported;
pub use files::OpenFiles;
pub use live::{Live, LoggedIn, UserFile};
pub use replies::Replies;
pub use serving::serve_message;
pub use texts::Texts;
pub use work::{Outcome, Work};
