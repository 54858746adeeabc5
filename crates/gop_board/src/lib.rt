//! The jobs of an encode whose GOPs are coded side by side: how frames are split into them, the session of each, the numbers
//! that a queue hands out to workers, the board on which their results are put together in order, and, without threads, the
//! order of things over every interleaving of submitting, taking, depositing and collecting.
#![tactic(auto)]

mod board;
mod coding;
mod core_state;
mod encode;
mod fan_out;
mod gate;
mod gathered;
mod job;
mod job_calls;
mod job_queue;
mod job_result;
mod job_session;
pub mod laws;
mod make_session;
mod split;
mod worker;

pub use board::{Board, Deposits, Run};
pub use coding::code_jobs;
pub use core_state::{CoreState, CoreStep, core_run, core_step};
pub use encode::{GopError, encode_gops};
pub use gate::{Gate, OpenGate};
pub use gathered::{Gathered, JobFault};
pub use job::{FrameList, Job};
pub use job_queue::{JobPass, JobQueue};
pub use job_result::{JobResult, PacketList};
pub use job_session::run_job;
pub use make_session::MakeSession;
pub use split::split_gops;
pub use worker::work;
