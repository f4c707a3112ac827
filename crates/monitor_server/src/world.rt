//! What a call is made over.

use outside::{Files, Sink, Site, Stream};
use std::marker::Model;

/// What a call is made over. Contracts see it as `Around`: each of the four, what it reports, and its counts
/// of faults.
#[derive(Drop)]
pub struct World<F: Files, S: Site, K: Sink, E: Stream> {
    /// The files that the words, or the setup, name.
    pub files: F,
    /// Where the service listens.
    pub site: S,
    /// The log.
    pub log: K,
    /// The ends: what is read as input, and where the output goes.
    pub ends: E,
}

impl<F: Files, S: Site, K: Sink, E: Stream> Model for World<F, S, K, E> {
    ghost use Rattle.monitor_book.specs.Lines.{held_by};
    ghost use Rattle.monitor_server.specs.Around.{Around};

    ghost Value = { Around F S K E };

    ghost view = { λ w. record {
      files = record {
        it = w.files;
        read_faults = F.read_faults w.files;
        replace_faults = F.replace_faults w.files;
        touched = F.touched w.files;
      };
      site = record { it = w.site; listens = S.listens w.site; faults = S.listen_faults w.site };
      log = record { it = w.log; held = held_by K.held K.lengths w.log; faults = K.faults w.log };
      ends = record { it = w.ends; link = E.link w.ends; faults = E.faults w.ends };
    } };
}

/// What of a world a call without threads is made over. Contracts see it as `SidesNow`.
#[derive(Drop)]
pub struct Sides<F: Files, E: Stream> {
    /// The files that the words, or the setup, name.
    pub files: F,
    /// The ends: what is read as input, and where the output goes.
    pub ends: E,
}

impl<F: Files, E: Stream> Model for Sides<F, E> {
    ghost use Rattle.monitor_server.specs.Around.{SidesNow};

    ghost Value = { SidesNow F E };

    ghost view = { λ s. record {
      files = record {
        it = s.files;
        read_faults = F.read_faults s.files;
        replace_faults = F.replace_faults s.files;
        touched = F.touched s.files;
      };
      ends = record { it = s.ends; link = E.link s.ends; faults = E.faults s.ends };
    } };
}
