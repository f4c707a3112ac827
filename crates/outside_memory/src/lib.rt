//! Objects in memory that stand in for the outside: those of tests and plays, which take memory as they
//! need it and can be told to fail, and the quiet ones of a drill, which take all their room when they are
//! made and never fail. Both are made of the same parts.
#![tactic(auto)]

mod blank;
mod blanks;
mod buffers;
mod calls;
mod closed;
mod conn;
mod fail;
mod files;
mod input;
mod kept_file;
mod output;
mod post;
mod quiet_calls;
mod quiet_files;
mod quiet_post;
mod quiet_sink;
mod quiet_stream;
mod repeating;
mod room;
mod script;
mod shelf;
mod sink;
mod site;
mod stream;
mod transcript;

pub use conn::MemConn;
pub use fail::{CallKind, Fail};
pub use files::MemFiles;
pub use post::MemPost;
pub use quiet_files::QuietFiles;
pub use quiet_post::QuietPost;
pub use quiet_sink::QuietSink;
pub use quiet_stream::QuietStream;
pub use repeating::Repeating;
pub use room::{Pieces, PostRoom};
pub use script::Script;
pub use sink::MemSink;
pub use site::MemSite;
pub use stream::MemStream;
