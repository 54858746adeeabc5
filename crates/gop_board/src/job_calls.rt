// The calls of a job's session, found by a schedule of its frames.
ghost use Rattle.std.specs.Prelude.{◌≡◌, ◌-◌, ◌+◌, ◌<◌, ◌≤◌, ◌^◌, ◌++◌, ◌∷◌, [], false, true, length, replicate, IfOk, OnOk, ⊤};
ghost use Rattle.session_core.specs.declared.call.Call.TheVariants.{Receive};
ghost use Rattle.gop_board.specs.JobCalls.{AreJobCalls, done_before, job_plan};
ghost use Rattle.gop_board.specs.Jobs.{pictures};
ghost use Rattle.gop_board.specs.JobSchedules.{IsJobSchedule};

use crate::Job;
use av1_settings::EncoderConfig;
use coding_base::OutOfMemory;
use pyramid::{InterConfig, Schedule};
use session_core::Call;
use std::alloc::Global;
use std::sync::Arc;

/// The calls of a job's session.
pub(crate) fn job_calls<T: Drop>(
    alloc: Global,
    enc: &EncoderConfig,
    job: &Job<T>,
) -> Result<Vec<Call<T, ()>>, OutOfMemory>
    requires few { length job.now.frames ≤ 2147483646 }
    ensures { IfOk result (λ calls. AreJobCalls enc.now (pictures job.now) calls.items) }
{
    let mut schedule = Schedule::new(alloc, InterConfig::new(enc), enc.key_frame_interval());
    schedule.note_key(0)?;
    let mut calls = Vec::new(alloc);
    let frames = job.frames.as_slice();
    for number in 0..frames.len() {
        add_receives(enc, number as u64, &mut schedule, &mut calls)?;
        calls.push(Call::Send(Arc::try_clone(&frames[number])?, None))?;
        schedule.extend(number as u64 + 1)?;
    }
    calls.push(Call::Flush)?;
    schedule.close(frames.len() as u64)?;
    add_last_receives(enc, frames.len() as u64, &mut schedule, &mut calls)?;
    Ok(calls)
}

// Puts the receives before the send of this number behind the calls.
fn add_receives<T: Drop>(
    enc: &EncoderConfig,
    number: u64,
    schedule: &mut Schedule,
    calls: &mut Vec<Call<T, ()>>,
) -> Result<(), OutOfMemory>
    requires before { IsJobSchedule enc.now number false (done_before enc.now (number - 1)) schedule.old }
    ensures calls { OnOk result (calls.new.items
        ≡ calls.old.items ++ replicate
        (done_before enc.now number - done_before enc.now (number - 1)) Receive) }
    ensures after { OnOk result
        (IsJobSchedule enc.now number false (done_before enc.now number) schedule.new) }
{
    let most = enc.speed_settings.rdo_lookahead_frames as u64;
    while schedule.coded_ahead() > most {
        schedule.advance();
        calls.push(Call::Receive)?;
    }
    Ok(())
}

// Puts a receive for each command that is left behind the calls, where this many frames were sent.
fn add_last_receives<T: Drop>(
    enc: &EncoderConfig,
    frames: u64,
    schedule: &mut Schedule,
    calls: &mut Vec<Call<T, ()>>,
) -> Result<(), OutOfMemory>
    requires before { IsJobSchedule enc.now frames true (done_before enc.now (frames - 1)) schedule.old }
    ensures { OnOk result (calls.new.items
        ≡ calls.old.items ++ replicate
        (length (job_plan enc.now frames) - done_before enc.now (frames - 1)) Receive) }
{
    while schedule.next_command().is_some() {
        schedule.advance();
        calls.push(Call::Receive)?;
    }
    Ok(())
}
