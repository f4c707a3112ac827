//! The command line of the mode.

ghost use Rattle.std.specs.Prelude.{◌≡◌, ◌∷◌, map, option_map};
ghost use Rattle.serve_mode.specs.Commands.{source_of};
ghost use Rattle.serve_mode.specs.Words.{serve_command};

/// The setup that is to be served by.
#[derive(Clone, Copy)]
pub enum ServeCommand<'a> {
    /// The plain setup, with the plain word list.
    Plain,
    /// The setup in a file.
    Named {
        /// The name of the setup's file.
        setup: &'a str,
        /// The name of the file of a durable log, which has to have no record.
        log: Option<&'a str>,
    },
}

/// Reads a command line: the mode's name, and the arguments after it. `None` exactly where it is
/// none of `serve`, `serve SETUP` and `serve SETUP LOG`.
pub fn read_serve_command<'a>(mode: &str, further: &[&'a str]) -> Option<ServeCommand<'a>>
    ensures { option_map source_of result
        ≡ serve_command (mode.now ∷ map (λ word. word.now) further.now) }
{
    match further {
        [] if mode == "serve" => Some(ServeCommand::Plain),
        [setup] if mode == "serve" => Some(ServeCommand::Named { setup, log: None }),
        [setup, log] if mode == "serve" => Some(ServeCommand::Named {
            setup,
            log: Some(log),
        }),
        _ => None,
    }
}
