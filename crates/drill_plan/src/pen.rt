//! Requests written as the frames of a child.

ghost use Rattle.std.specs.Prelude.{◌≡◌, ◌++◌, OnOk, IfOk, vec_len};
ghost use Rattle.request_catalogue.specs.declared.width.Width.TheVariants.{Narrow};
ghost use Rattle.request_catalogue.specs.Catalogue.{IsInRange, value_of};
ghost use Rattle.drill_plan.specs.Plan.{request_bytes};

use imsg_frame::{TooLong, compose};
use request_catalogue::{Request, Width, write_request};
use std::alloc::{AllocError, Global};

/// The most bytes of a narrow frame's body.
const BODY: usize = 16_368;

/// The most bytes of a narrow frame.
const FRAME: usize = 16_384;

/// Where frames are made, one at a time.
#[derive(Drop)]
pub struct Pen {
    body: Vec<u8>,
    frame: Vec<u8>,
    ghost body_room: { vec_len body ≡ 16368 },
    ghost frame_room: { vec_len frame ≡ 16384 },
}

impl Pen {
    /// A pen for narrow frames.
    ///
    /// # Errors
    ///
    /// There isn't the memory.
    pub fn new(alloc: Global) -> Result<Pen, AllocError> {
        Ok(Pen {
            body: vec![in alloc; 0; BODY]?,
            frame: vec![in alloc; 0; FRAME]?,
        })
    }

    /// Appends the frame of a request.
    ///
    /// # Errors
    ///
    /// There isn't the memory.
    pub fn put(&mut self, bytes: &mut Vec<u8>, request: &Request<'_>) -> Result<(), AllocError>
        requires { IsInRange Narrow (value_of request.now) }
        ensures { OnOk result (bytes.new.items ≡ bytes.old.items ++ request_bytes (value_of request.now)) }
    {
        let kind = request.kind().number();
        let len = write_request(Width::Narrow, request, &mut self.body);
        match compose(
            Width::Narrow,
            kind,
            0,
            0,
            &self.body[..len],
            &mut self.frame,
        ) {
            Ok(size) => bytes.extend_from_slice(&self.frame[..size]),
            Err(TooLong) => unreachable!(),
        }
    }
}
