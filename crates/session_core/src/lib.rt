//! Sessions: frames are sent, and packets are received, in the order that the plan gives, in one pass or in two. A
//! list of calls is carried out by `run_session` and `run_pass_session`; a `Context`, over a `ContextInner`, is
//! called one call at a time. Of the lemmas in `proofs/`, crates above may cite those of `SessionLaws`; none does.
#![tactic(auto)]

mod call;
mod coded;
mod coder;
mod coding;
mod context;
mod context_inner;
mod decisions;
mod detector;
mod fault;
mod guess;
mod into_frame;
mod mean_scale;
mod packet;
mod pass_calls;
mod pass_session;
mod pass_transcript;
mod passes;
mod receive;
mod session;
mod setup;
mod state;
mod transcript;
mod waiting;

pub use av1_settings::{T35, T35List};
pub use call::{Call, FrameParameters, FrameTypeOverride};
pub use coder::{CodeJob, CodedFrame, CoderError, FrameCoder, ShownFrame};
pub use context::{Context, NewContext};
pub use context_inner::ContextInner;
pub use detector::{Detector, NoDetector};
pub use fault::SessionFault;
pub use into_frame::{FrameInput, IntoFrame};
pub use mean_scale::{MeanScale, NoScale};
pub use packet::Packet;
pub use pass_data::{PassDataError, RcData};
pub use pass_session::run_pass_session;
pub use pass_transcript::{PassCall, PassTranscript, PassTurn, PassTurnList};
pub use session::{SessionError, run_session};
pub use session_log::{LogEntry, LogList, QTables, QuantizerParameters, RCState};
pub use setup::SetupError;
pub use transcript::{Decision, DecisionList, Reply, Transcript, Turn, TurnList};
