//! What holds of every list of steps from the opening on, each law as the contract of a function that does nothing;
//! `specs/CoreRuns`, `specs/Packets` and, of one job, `specs/JobLaws` spell them out.

ghost use Rattle.gop_board.specs.Alone.{PacketsHaveTheSameBytes};
ghost use Rattle.gop_board.specs.JobLaws.{FaultsAreOnThePlan, PacketsAreDetermined};
ghost use Rattle.gop_board.specs.FaultLaws.{FaultsAreDetermined};
ghost use Rattle.gop_board.specs.CoreRuns.{JobsAreCollectedInOrder, JobsStandAtOnePlace};
ghost use Rattle.gop_board.specs.Packets.{CollectedPacketsAreInOrder};

use crate::{MakeSession, Run};

/// Whatever steps are tried, each submitted job stands at exactly one place: queued, held by one worker, deposited or
/// collected. No other number stands anywhere, and no worker holds two jobs.
pub fn jobs_stand_at_one_place()
    ensures { JobsStandAtOnePlace }
{}

/// Whatever steps are tried, the jobs that they collect are 0, 1, .. in order.
pub fn jobs_are_collected_in_order()
    ensures { JobsAreCollectedInOrder }
{}

/// Whatever steps are tried, and whichever result belongs to each job: the packets of the collected results, up to the first
/// that has none, begin the packets of all jobs in their order, both numbered anew.
pub fn collected_packets_are_in_order<T, C, N: Run<T, C>>()
    ensures { CollectedPacketsAreInOrder N.jobs N.belongs }
{}

/// A job has one list of packets, up to the handles on their pictures, where its maker tells what its coder gives and its mean
/// scales: all packets that belong to the job are the same.
pub fn packets_of_a_job_are_determined<T, M: MakeSession<T>>()
    ensures { PacketsAreDetermined M.told }
{}

/// What a job's coder took before it failed are, tries aside, the first commands of the plan of the job's frames, where the first
/// frame alone is decided to be a key. The frames fit the settings, and are no more than a session accepts.
pub fn faults_are_on_the_plan<T, M: MakeSession<T>>()
    ensures { FaultsAreOnThePlan M.told }
{}

/// Where a maker tells the first failing call of a job's coder, the job doesn't both give packets and meet a fault, and its fault
/// has one command.
pub fn faults_are_determined<T, M: MakeSession<T>>()
    ensures { FaultsAreDetermined M.told }
{}

/// Without a bitrate, where a maker tells what a job's coder gives and its mean scales, a job's packets have the bytes of those of
/// any session with the same settings over the same frames, sent without parameters, that finds no scene change: packet by packet,
/// as far as both gave some.
pub fn packets_have_the_same_bytes<T, M: MakeSession<T>>()
    ensures { PacketsHaveTheSameBytes M.told }
{}
