use outside::{Place, Word};
use std::io;
use std::rt::Files;
use system_calls::{is_folder, is_launcher};

/// Sees that a place's vault is there, and that its launcher can be run.
pub(crate) fn look_at<R: Files>(rt: &R, place: &Place) -> io::Result<()> {
    if !is_folder(rt, place.vault.as_str()) {
        return Err(io::Error::other("the vault is no folder that is there"));
    }
    if !is_launcher(rt, place.launcher.as_str()) {
        return Err(io::Error::other("the launcher is no program that can be run"));
    }
    Ok(())
}

/// The path of the vault that isn't there, or else of the launcher that can't be run.
pub(crate) fn lacking_path<'a, R: Files>(rt: &R, place: &'a Place) -> Option<&'a Word> {
    if !is_folder(rt, place.vault.as_str()) {
        return Some(&place.vault);
    }
    match is_launcher(rt, place.launcher.as_str()) {
        true => None,
        false => Some(&place.launcher),
    }
}
