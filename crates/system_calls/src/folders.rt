use std::fs;
use std::os::unix::fs::MetadataExt;
use std::path::Path;
use std::rt::Files;

/// The permissions of which a program has one at least: that somebody may run it.
const RUNS: u32 = 0o111;

/// Whether a folder stands at a path.
pub fn is_folder<R: Files>(rt: &R, path: &str) -> bool {
    match fs::metadata(rt, path) {
        Ok(found) => found.is_dir(),
        Err(_) => false,
    }
}

/// Whether the folder of a path is there.
pub fn has_folder<R: Files>(rt: &R, path: &str) -> bool {
    is_folder(rt, folder_of(path))
}

/// The folder of a path.
pub(crate) fn folder_of(path: &str) -> &str {
    match Path::new(path).parent() {
        Some(folder) if !folder.as_str().is_empty() => folder.as_str(),
        _ => ".",
    }
}

/// Whether a launcher can be run. One without a `/` is looked for at each start, and not here.
pub fn is_launcher<R: Files>(rt: &R, path: &str) -> bool {
    !path.as_bytes().contains(&b'/') || is_program(rt, path)
}

/// Whether a file stands at a path that somebody may run.
fn is_program<R: Files>(rt: &R, path: &str) -> bool {
    match fs::metadata(rt, path) {
        Ok(found) => found.is_file() && found.mode() & RUNS != 0,
        Err(_) => false,
    }
}
