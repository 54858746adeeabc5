// The calls of a context that hand pass data over.
ghost use Rattle.std.specs.Prelude.{◌≡◌, Some, Err, MatchResult, None};
ghost use Rattle.ratecontrol.specs.Passes.{asked, taken_in};
ghost use Rattle.session_core.specs.Contexts.{status_of};
ghost use Rattle.session_core.specs.PassCalls.{IsBytesCall, IsGiven, IsOutCall, IsTakeCall, fault_of, bytes_in, required_of};

use crate::fault::refusal_of;
use crate::{
    Context, ContextInner, Detector, FrameCoder, MeanScale, PassDataError, RcData, SessionFault,
};
use arrayvec::ArrayVec;
use av1_frame::Pixel;
use av1_settings::EncoderStatus;

/// The bytes of a summary.
const SUMMARY_SIZE: usize = 68;

impl<
    T: Pixel,
    O: Drop,
    D: Detector<T> + Drop,
    S: MeanScale<T> + Drop,
    C: FrameCoder<T> + Drop,
> ContextInner<T, O, D, S, C> {
    /// Takes what the first pass hands on, as [`rc_receive_pass_data`](Self::rc_receive_pass_data) does, as bytes alone: 8 of a
    /// frame's metrics, or 68 of the summary.
    pub fn twopass_out(&mut self) -> Option<ArrayVec<u8, 68>>
        ensures { IsOutCall self.old self.new result }
    {
        self.rc_receive_pass_data().map(into_bytes)
    }

    /// How many bytes of a summary and of frames' metrics are wanted. Where nothing is coded, and there is a bitrate, this begins
    /// a second pass, beside a first one that is on; without a bitrate it is 0.
    ///
    /// The statuses are Failure in a session that has failed, and OutOfMemory where there is none for the metrics of the frames
    /// ahead, which fails the session.
    pub fn twopass_bytes_needed(&mut self) -> Result<usize, EncoderStatus>
        ensures { IsBytesCall asked self.old self.new result }
    {
        if self.failure.is_some() {
            return Err(EncoderStatus::Failure);
        }
        let answer = self.state.bytes_needed();
        self.counted(answer)
    }

    /// Gives bytes of a summary and of frames' metrics, and says how many were taken; the others are to be offered again. Where
    /// nothing is coded, and there is a bitrate, this begins a second pass; without a bitrate it takes none.
    ///
    /// The statuses are Failure in a session that has failed, and where the summary or a frame's metrics are refused, and
    /// OutOfMemory where there is none for the metrics of the frames ahead. The latter two fail the session.
    pub fn twopass_in(&mut self, bytes: &[u8]) -> Result<usize, EncoderStatus>
        ensures { IsBytesCall (taken_in bytes.now) self.old self.new result }
    {
        if self.failure.is_some() {
            return Err(EncoderStatus::Failure);
        }
        let answer = self.state.give_bytes(bytes);
        self.counted(answer)
    }

    // Fails the session where pass data was refused.
    fn counted(&mut self, answer: Result<usize, PassDataError>) -> Result<usize, EncoderStatus>
        requires { self.old.failure ≡ None }
        ensures { MatchResult answer
            (λ count. (result ≡ Ok count) × (self.new ≡ self.old))
            (λ refusal. (result ≡ Err (status_of (fault_of refusal)))
            × (self.new ≡ record self.old { failure = Some (fault_of refusal) })) }
    {
        match answer {
            Ok(count) => Ok(count),
            Err(error) => {
                let fault = refusal_of(error);
                self.failure = Some(fault);
                Err(fault.status())
            }
        }
    }

    /// The bytes of a summary: 68. No memory is taken.
    pub fn rc_summary_size(&self) -> usize
        ensures { result ≡ 68 }
    {
        SUMMARY_SIZE
    }

    /// Takes what the first pass hands on, where there is a bitrate: the metrics of the last entry while they wait to be taken,
    /// or, once the session is flushed and every packet was given, the summary, once. A session that has failed has nothing.
    /// No memory is taken.
    pub fn rc_receive_pass_data(&mut self) -> Option<RcData>
        ensures { IsTakeCall self.old self.new result }
    {
        if self.failure.is_some() {
            return None;
        }
        self.state.take_data()
    }

    /// Of how many frames metrics are wanted before the next can be coded in a second pass: none once the session is flushed and
    /// every packet was given, and in a session that has failed. No memory is taken.
    pub fn rc_second_pass_data_required(&self) -> usize
        ensures { result ≡ required_of self.now }
    {
        if self.failure.is_some() || self.state.is_done() {
            return 0;
        }
        self.state.frames_needed().unsigned_abs() as usize
    }

    /// Gives the second pass the metrics of a frame, 8 bytes.
    ///
    /// The status is Failure: in a session that has failed, and where the metrics are refused, which fails the session.
    pub fn rc_send_pass_data(&mut self, bytes: &[u8]) -> Result<(), EncoderStatus>
        ensures { IsGiven bytes.now self.old self.new result }
    {
        if self.failure.is_some() {
            return Err(EncoderStatus::Failure);
        }
        match self.state.give(bytes) {
            Ok(()) => Ok(()),
            Err(refusal) => {
                self.failure = Some(SessionFault::PassData(refusal));
                Err(EncoderStatus::Failure)
            }
        }
    }
}

// The bytes of pass data.
fn into_bytes(message: RcData) -> ArrayVec<u8, 68>
    ensures { result ≡ bytes_in message }
{
    match message {
        RcData::Summary(bytes) | RcData::Frame(bytes) => bytes,
    }
}

impl<
    T: Pixel,
    O: Drop,
    D: Detector<T> + Drop,
    S: MeanScale<T> + Drop,
    C: FrameCoder<T> + Drop,
> Context<T, O, D, S, C> {
    /// Takes what the first pass hands on, as [`rc_receive_pass_data`](Self::rc_receive_pass_data) does, as bytes alone: 8 of a
    /// frame's metrics, or 68 of the summary.
    pub fn twopass_out(&mut self) -> Option<ArrayVec<u8, 68>>
        ensures { IsOutCall self.old self.new result }
    {
        self.inner.twopass_out()
    }

    /// How many bytes of a summary and of frames' metrics are wanted. Where nothing is coded, and there is a bitrate, this begins
    /// a second pass, beside a first one that is on; without a bitrate it is 0.
    ///
    /// The statuses are Failure in a session that has failed, and OutOfMemory where there is none for the metrics of the frames
    /// ahead, which fails the session.
    pub fn twopass_bytes_needed(&mut self) -> Result<usize, EncoderStatus>
        ensures { IsBytesCall asked self.old self.new result }
    {
        self.inner.twopass_bytes_needed()
    }

    /// Gives bytes of a summary and of frames' metrics, and says how many were taken; the others are to be offered again. Where
    /// nothing is coded, and there is a bitrate, this begins a second pass; without a bitrate it takes none.
    ///
    /// The statuses are Failure in a session that has failed, and where the summary or a frame's metrics are refused, and
    /// OutOfMemory where there is none for the metrics of the frames ahead. The latter two fail the session.
    pub fn twopass_in(&mut self, bytes: &[u8]) -> Result<usize, EncoderStatus>
        ensures { IsBytesCall (taken_in bytes.now) self.old self.new result }
    {
        self.inner.twopass_in(bytes)
    }

    /// The bytes of a summary: 68. No memory is taken.
    pub fn rc_summary_size(&self) -> usize
        ensures { result ≡ 68 }
    {
        self.inner.rc_summary_size()
    }

    /// Takes what the first pass hands on, where there is a bitrate: the metrics of the last entry while they wait to be taken,
    /// or, once the session is flushed and every packet was given, the summary, once. A session that has failed has nothing.
    /// No memory is taken.
    pub fn rc_receive_pass_data(&mut self) -> Option<RcData>
        ensures { IsTakeCall self.old self.new result }
    {
        self.inner.rc_receive_pass_data()
    }

    /// Of how many frames metrics are wanted before the next can be coded in a second pass: none once the session is flushed and
    /// every packet was given, and in a session that has failed. No memory is taken.
    pub fn rc_second_pass_data_required(&self) -> usize
        ensures { result ≡ required_of self.now }
    {
        self.inner.rc_second_pass_data_required()
    }

    /// Gives the second pass the metrics of a frame, 8 bytes.
    ///
    /// The status is Failure: in a session that has failed, and where the metrics are refused, which fails the session.
    pub fn rc_send_pass_data(&mut self, bytes: &[u8]) -> Result<(), EncoderStatus>
        ensures { IsGiven bytes.now self.old self.new result }
    {
        self.inner.rc_send_pass_data(bytes)
    }
}
