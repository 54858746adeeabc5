// What is gathered from the results of jobs, in their order.
ghost use Rattle.std.specs.Prelude.{◌≡◌, ◌++◌, [], length, None, OnOk};
ghost use Rattle.gop_board.specs.Packets.{numbered_from};
ghost use Rattle.gop_board.specs.Gathering.{IsWithResult};

use crate::{JobResult, PacketList};
use coding_base::OutOfMemory;
use std::alloc::Global;

/// The fault of a job.
#[derive(Drop)]
pub struct JobFault<C> {
    /// The job's number.
    pub job: u64,
    /// The number of commands coded before.
    pub command: u64,
    /// The coder that failed.
    pub coder: C,
}

/// What jobs gave, in their order.
#[derive(Drop)]
pub struct Gathered<T, C> {
    /// The packets up to the first fault, numbered anew.
    pub packets: PacketList<T>,
    /// That fault.
    pub fault: Option<JobFault<C>>,
}

impl<T: Drop, C: Drop> Gathered<T, C> {
    pub(crate) fn new(alloc: Global) -> Gathered<T, C>
        ensures { result ≡ record { packets = []; fault = None } }
    {
        Gathered {
            packets: PacketList::new(alloc),
            fault: None,
        }
    }

    // Adds the result of the job that comes next.
    pub(crate) fn add(&mut self, job: u64, found: JobResult<T, C>) -> Result<(), OutOfMemory>
        ensures { OnOk result (IsWithResult job found self.old self.new) }
    {
        match found {
            JobResult::Packets(packets) => self.add_packets(packets),
            JobResult::Fault { command, coder } => {
                self.note(JobFault {
                    job,
                    command,
                    coder,
                });
                Ok(())
            }
            JobResult::OutOfMemory => Err(OutOfMemory),
        }
    }

    // Adds packets, where no fault was met.
    fn add_packets(&mut self, packets: PacketList<T>) -> Result<(), OutOfMemory>
        ensures { OnOk result (IsWithResult 0 (JobResult.Packets packets) self.old self.new) }
    {
        if self.fault.is_some() {
            return Ok(());
        }
        add_renumbered(&mut self.packets, packets)
    }

    // Notes a fault, where none was met before.
    fn note(&mut self, fault: JobFault<C>)
        ensures { IsWithResult fault.job (JobResult.Fault fault.command fault.coder) self.old self.new }
    {
        if self.fault.is_none() {
            self.fault = Some(fault);
        }
    }
}

// Puts packets behind others, with the numbers that come next.
fn add_renumbered<T: Drop>(
    packets: &mut PacketList<T>,
    more: PacketList<T>,
) -> Result<(), OutOfMemory>
    ensures { OnOk result (packets.new
        ≡ packets.old ++ numbered_from (length packets.old) more) }
{
    for packet in more.into_vec() {
        let mut packet = packet;
        packet.input_frameno = packets.len() as u64;
        packets.push(packet)?;
    }
    Ok(())
}
