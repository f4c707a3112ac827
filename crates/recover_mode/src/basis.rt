//! What a recovery rests on.

ghost use Rattle.std.specs.Prelude.{◌≡◌, ◌∷◌, [], Err, IfOk, IfSome};
ghost use Rattle.outside.specs.FilesNow.{OnlyReads, files_now};
ghost use Rattle.outside.specs.Told.{Rose};
ghost use Rattle.trouble.specs.declared.trouble.Trouble.{Trouble};
ghost use Rattle.trouble.specs.Reading.{IsUnreadSetup};
ghost use Rattle.recover_mode.specs.Bases.{HasBasis, image_in};
ghost use Rattle.recover_mode.specs.Commands.{command_parts};
ghost use Rattle.recover_mode.specs.Words.{names_of};

use crate::command::RecoverCommand;
use file_front::{FrontError, read_front};
use fresh_log::fresh_image;
use outside::Files;
use policy_model::Setup;
use setup_reading::read_setup_file;
use std::alloc::Global;
use trouble::Trouble;

/// The bytes of a log's image at most: those of 1,048,576 records of 256 bytes, with `OTJ1` and the
/// gates and lengths.
const IMAGE_MAX: usize = 271_581_189;

/// What a recovery rests on: a setup, and the image of a log.
#[derive(Drop)]
pub(crate) struct Basis {
    pub setup: Setup,
    pub image: Vec<u8>,
}

/// Reads the setup of a file, and then the image of a log.
pub(crate) fn read_basis<F: Files>(
    alloc: Global,
    command: &RecoverCommand<'_>,
    files: &mut F,
) -> Result<Basis, Trouble>
    ensures basis { IfOk result (λ basis. IfSome (F.contents files.new)
        (HasBasis (command_parts command.now) basis.setup basis.image.items)) }
    ensures trouble { (trouble : Trouble) → result ≡ Err trouble → IsUnreadSetup (F.contents files.new)
        command.now.setup.now (Rose (F.read_faults files.old) (F.read_faults files.new)) trouble }
    ensures files { let now = files_now F.contents F.read_faults F.replace_faults F.touched in
        OnlyReads (names_of (command_parts command.now)) (now files.old) (now files.new) }
{
    let setup = read_setup_file(alloc, files, command.setup)?;
    let image = read_image(alloc, files, command.log)?;
    Ok(Basis { setup, image })
}

/// The image of a log: that of no records where there is no file of its name, else the first
/// 271,581,189 bytes of the file.
fn read_image<F: Files>(alloc: Global, files: &mut F, name: &str) -> Result<Vec<u8>, FrontError>
    ensures image { IfOk result (λ image. IfSome (F.contents files.new) (λ there.
        image.items ≡ image_in (there name.now))) }
    ensures failed { result ≡ Err FrontError.Failed → Rose (F.read_faults files.old)
        (F.read_faults files.new) }
    ensures files { let now = files_now F.contents F.read_faults F.replace_faults F.touched in
        OnlyReads (name.now ∷ []) (now files.old) (now files.new) }
{
    match read_front(alloc, files, name, IMAGE_MAX)? {
        Some(image) => Ok(image),
        None => Ok(Vec::from_slice(alloc, fresh_image())?),
    }
}
