// An accepted frame, until its packet is given.
ghost use Rattle.std.specs.Prelude.{◌≡◌, None, IfOk};
ghost use Rattle.session_core.specs.States.{waiting_of};
ghost use Rattle.session_core.specs.Turns.{accepted_of};

use crate::{FrameParameters, FrameTypeOverride};
use av1_frame::Frame;
use av1_settings::{FrameType, T35List};
use coding_base::OutOfMemory;
use std::alloc::Global;
use std::sync::Arc;

/// How a frame was coded.
#[derive(Clone, Copy, Debug)]
pub(crate) struct Coding {
    /// Its type.
    pub(crate) kind: FrameType,
    /// Its AC index of the luma plane.
    pub(crate) qp: u8,
}

/// An accepted frame, until its packet is given.
#[derive(Drop)]
pub(crate) struct WaitingFrame<T, O> {
    pub(crate) picture: Arc<Frame<T>>,
    pub(crate) forced: bool,
    /// The value sent with it, until its packet takes it.
    pub(crate) opaque: Option<O>,
    /// The metadata sent with it.
    pub(crate) t35: Arc<T35List>,
    /// How it was coded, once it is.
    pub(crate) coding: Option<Coding>,
}

impl<T: Drop, O: Drop> WaitingFrame<T, O> {
    /// A frame as its parameters ask for it.
    pub(crate) fn new(
        alloc: Global,
        picture: Arc<Frame<T>>,
        parameters: Option<FrameParameters<O>>,
    ) -> Result<WaitingFrame<T, O>, OutOfMemory>
        ensures { IfOk result (λ one. waiting_of one
            ≡ record { frame = accepted_of picture.value parameters; coded = None }) }
    {
        let parameters = parameters.unwrap_or(FrameParameters {
            frame_type_override: FrameTypeOverride::No,
            opaque: None,
            t35_metadata: T35List::new(alloc),
        });
        Ok(WaitingFrame {
            picture,
            forced: matches!(parameters.frame_type_override, FrameTypeOverride::Key),
            opaque: parameters.opaque,
            t35: Arc::new(alloc, parameters.t35_metadata)?,
            coding: None,
        })
    }
}
