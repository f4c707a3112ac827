ghost use Rattle.std.specs.Prelude.{◌≡◌, ◌↔◌, ◌-◌, ◌≤◌, [], IfOk, IfSome, IsSome, IsTrue, length, None, Ok, OnErr};
ghost use Rattle.std.specs.Prelude.{OnOk, Some};
ghost use Rattle.outside.specs.Faults.{count_after};
ghost use Rattle.outside.specs.Told.{Gains, GainsPart};
ghost use Rattle.outside_memory.specs.Output.{HasItsRoom};
ghost use Rattle.outside_memory.specs.Room.{kept_within};

use crate::output::Output;
use outside::{Failed, Sink};
use std::alloc::{AllocError, Global};

/// A sink with fixed room. It tells what it holds as long as that fits the room.
#[derive(Drop)]
pub struct QuietSink {
    output: Output,
    ghost room: { HasItsRoom output },
}

impl QuietSink {
    ghost use Rattle.outside_memory.specs.QuietSink.{faults_of, held_of, room_of};

    /// An empty sink with room for `room` bytes.
    pub fn new(alloc: Global, room: usize) -> Result<QuietSink, AllocError>
        ensures held { IfOk result (λ s. held_of s ≡ Some []) }
        ensures faults { IfOk result (λ s. faults_of s ≡ 0) }
        ensures room { IfOk result (λ s. room_of s ≡ room) }
    {
        Ok(QuietSink {
            output: Output::with_room(alloc, room)?,
        })
    }

    /// Whether it tells what it holds.
    pub fn tells(&self) -> bool
        ensures { IsTrue result ↔ IsSome (held_of self.now) }
    {
        self.output.telling
    }

    /// The bytes that it holds, where it tells them.
    pub fn held(&self) -> &[u8]
        ensures { IfSome (held_of self.now) (λ bytes. result.now ≡ bytes) }
    {
        self.output.bytes.as_slice()
    }
}

impl Sink for QuietSink {
    ghost use Rattle.outside_memory.specs.QuietSink.{faults_of, held_of, room_of};

    ghost held = { held_of };

    ghost lengths = { λ _. None };

    ghost faults = { faults_of };

    /// Takes the bytes. It tells after it where it told before and they fit the room that was left.
    fn append(&mut self, bytes: &[u8]) -> Result<(), Failed>
        ensures ok { OnOk result (Gains (held_of self.old) bytes.now (held_of self.new)) }
        ensures part { OnErr result (GainsPart (held_of self.old) bytes.now (held_of self.new)) }
        ensures counts { faults_of self.new ≡ count_after result (faults_of self.old) }
        ensures kept { faults_of self.old ≤ faults_of self.new }

        ensures never_fails { result ≡ Ok tt }
        ensures told { held_of self.new ≡ kept_within (room_of self.old) (held_of self.old)
            bytes.now }
        ensures room { room_of self.new ≡ room_of self.old - length bytes.now }
    {
        self.output.keep(bytes);
        Ok(())
    }
}
