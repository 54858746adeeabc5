use coding_base::Sequence;
use session_core::Packet;

/// Packets, in order.
pub type PacketList<T> = Sequence<Packet<T, ()>>;

/// What came of a job.
#[derive(Drop)]
pub enum JobResult<T, C> {
    /// The packets of the job's frames, with numbers from 0.
    Packets(PacketList<T>),
    /// The coder failed.
    Fault {
        /// The number of commands coded before.
        command: u64,
        /// The coder that failed.
        coder: C,
    },
    /// Memory ran out.
    OutOfMemory,
}
