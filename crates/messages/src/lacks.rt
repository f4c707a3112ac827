//! What a right setup lacks on this machine.

use outside::{Files, Word};
use setup_reading::read_setup_file;
use std::alloc::Global;
use std::rt::Files as FileSystem;
use system_calls::{has_folder, is_folder, is_launcher};

/// Says on standard error which of a setup's vault, launcher and socket's folder isn't there, in a line
/// each, where the arguments are those of `check` and the setup is right (`status` is 0).
pub fn say_lacks<R: FileSystem + Eprint, F: Files>(
    rt: &R,
    alloc: Global,
    files: &mut F,
    words: &[Word],
    status: u8,
) {
    match words {
        [mode, name] if status == 0 && mode.as_str() == "check" => {
            say_lacks_of(rt, alloc, files, name);
        }
        _ => {}
    }
}

/// Says what the setup of this name lacks.
fn say_lacks_of<R: FileSystem + Eprint, F: Files>(
    rt: &R,
    alloc: Global,
    files: &mut F,
    name: &Word,
) {
    let Ok(setup) = read_setup_file(alloc, files, name.as_str()) else {
        return;
    };
    let vault = setup.vault();
    let is_there = is_folder(rt, vault);
    say_unless(rt, is_there, vault, "the vault is no folder that is there");
    let launcher = setup.launcher();
    let can_run = is_launcher(rt, launcher);
    say_unless(
        rt,
        can_run,
        launcher,
        "the launcher is no program that can be run",
    );
    let socket = setup.socket();
    let has_place = has_folder(rt, socket);
    say_unless(
        rt,
        has_place,
        socket,
        "the folder of the socket is not there",
    );
}

/// Says on standard error what a path lacks, unless all is right.
fn say_unless(rt: &impl Eprint, is_right: bool, path: &str, what: &str) {
    if !is_right {
        let _ = eprintln!(rt; "otplogd: {path}: {what}");
    }
}
