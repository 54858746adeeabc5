//! Channels between a session and the threads around it: what every queue means, the queue in memory and the one
//! that threads share, the ends that send frames and pass data and receive packets and pass data over any queue,
//! the loop of a worker between queues (`drive`), and whole channels with their `Worker`, as the constructors on
//! `Config` make them.
#![tactic(auto)]

mod answers;
mod channel;
mod coding;
mod counts;
mod driving;
mod errors;
mod fault;
mod frame_sender;
mod local_queue;
mod new_channel;
mod no_queue;
mod packet_receiver;
mod putting;
mod queue;
mod rc_data_receiver;
mod rc_data_sender;
mod received;
mod sender;
mod shared_queue;
mod worker;

pub use channel::{PassDataChannel, VideoDataChannel};
pub use counts::Counts;
pub use driving::drive;
pub use errors::{PutError, RecvError, SendError, TakeError, TryRecvError, TrySendError};
pub use fault::ChannelFault;
pub use frame_sender::{FrameMessage, FrameSender};
pub use local_queue::LocalQueue;
pub use new_channel::NewChannel;
pub use packet_receiver::{PacketMessage, PacketReceiver};
pub use pass_data::RcData;
pub use queue::{Put, Take};
pub use rc_data_receiver::RcDataReceiver;
pub use rc_data_sender::RcDataSender;
pub use received::{Receive, Received};
pub use shared_queue::SharedQueue;
pub use worker::Worker;
