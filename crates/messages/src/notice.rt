//! What a run with a durable log says once it listens.

use outside::{Files, Word};
use setup_reading::read_setup_file;
use std::alloc::Global;

/// The line that says at which socket the setup of this name has a run listen, and for how many, with a
/// newline at its end. `None`: the setup isn't right, or there isn't the memory.
pub fn notice_text<F: Files>(alloc: Global, files: &mut F, name: &Word) -> Option<String> {
    let setup = read_setup_file(alloc, files, name.as_str()).ok()?;
    let text = format!(in alloc;
        "otplogd: listening at {}: workers {}, connections {}, accounts {}\n",
        setup.socket(),
        setup.workers(),
        setup.connections(),
        setup.parts().accounts.as_slice().len(),
    );
    text.ok()
}
