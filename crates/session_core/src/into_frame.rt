ghost use Rattle.std.specs.Prelude.{◌≡◌, IfOk, None, Some, Option};
ghost use Rattle.std.specs.Option.{option_map};
ghost use Rattle.av1_frame.specs.declared.frame.Frame.{Frame as FrameValue};
ghost use Rattle.session_core.specs.declared.call.FrameParameters.{FrameParameters as Parameters};

use crate::FrameParameters;
use av1_frame::Frame;
use coding_base::OutOfMemory;
use std::alloc::Global;
use std::sync::Arc;

/// A frame and its parameters, as far as they are given.
pub type FrameInput<T, O> = (Option<Arc<Frame<T>>>, Option<FrameParameters<O>>);

/// What `Context::send_frame` takes: a frame, shared or not, with parameters, perhaps, or without; no frame is a flush.
pub trait IntoFrame<T, O> {
    /// The picture that it holds, if it holds one.
    ghost picture: { Self → Option (FrameValue T) };

    /// The parameters that it holds, if it holds them.
    ghost parameters: { Self → Option (Parameters O) };

    /// Its frame and parameters. A frame that isn't shared yet is moved into shared memory, which may run out.
    fn into(self, alloc: Global) -> Result<FrameInput<T, O>, OutOfMemory>
        ensures frame { IfOk result (λ input.
            option_map (λ frame. frame.value) input.0 ≡ picture self) }
        ensures parameters { IfOk result (λ input. input.1 ≡ parameters self) };
}

impl<T, O> IntoFrame<T, O> for Option<Arc<Frame<T>>> {
    ghost picture = { λ frame. option_map (λ shared. shared.value) frame };

    ghost parameters = { λ _. None };

    fn into(self, _alloc: Global) -> Result<FrameInput<T, O>, OutOfMemory> {
        Ok((self, None))
    }
}

impl<T, O> IntoFrame<T, O> for Arc<Frame<T>> {
    ghost picture = { λ frame. Some frame.value };

    ghost parameters = { λ _. None };

    fn into(self, _alloc: Global) -> Result<FrameInput<T, O>, OutOfMemory> {
        Ok((Some(self), None))
    }
}

impl<T, O> IntoFrame<T, O> for (Arc<Frame<T>>, FrameParameters<O>) {
    ghost picture = { λ input. Some (input.0).value };

    ghost parameters = { λ input. Some input.1 };

    fn into(self, _alloc: Global) -> Result<FrameInput<T, O>, OutOfMemory> {
        let (frame, parameters) = self;
        Ok((Some(frame), Some(parameters)))
    }
}

impl<T, O> IntoFrame<T, O> for (Arc<Frame<T>>, Option<FrameParameters<O>>) {
    ghost picture = { λ input. Some (input.0).value };

    ghost parameters = { λ input. input.1 };

    fn into(self, _alloc: Global) -> Result<FrameInput<T, O>, OutOfMemory> {
        let (frame, parameters) = self;
        Ok((Some(frame), parameters))
    }
}

impl<T: Drop, O> IntoFrame<T, O> for Frame<T> {
    ghost picture = { λ frame. Some frame };

    ghost parameters = { λ _. None };

    fn into(self, alloc: Global) -> Result<FrameInput<T, O>, OutOfMemory> {
        Ok((Some(Arc::new(alloc, self)?), None))
    }
}

impl<T: Drop, O: Drop> IntoFrame<T, O> for (Frame<T>, FrameParameters<O>) {
    ghost picture = { λ input. Some input.0 };

    ghost parameters = { λ input. Some input.1 };

    fn into(self, alloc: Global) -> Result<FrameInput<T, O>, OutOfMemory> {
        let (frame, parameters) = self;
        Ok((Some(Arc::new(alloc, frame)?), Some(parameters)))
    }
}

impl<T: Drop, O: Drop> IntoFrame<T, O> for (Frame<T>, Option<FrameParameters<O>>) {
    ghost picture = { λ input. Some input.0 };

    ghost parameters = { λ input. input.1 };

    fn into(self, alloc: Global) -> Result<FrameInput<T, O>, OutOfMemory> {
        let (frame, parameters) = self;
        Ok((Some(Arc::new(alloc, frame)?), parameters))
    }
}
