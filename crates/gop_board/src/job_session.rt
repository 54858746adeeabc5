ghost use Rattle.std.specs.Prelude.{◌≡◌, ◌≢◌, ◌<◌, ◌++◌, OnOk, ◌≤◌, ℕ, None, Err, All, IfOk, IsTrue, length};
ghost use Rattle.av1_frame.specs.Planes.{fits};
ghost use Rattle.av1_settings.specs.Checks.{session_refusal};
ghost use Rattle.session_core.specs.declared.session.SessionError.TheVariants.{CoderFault, Invalid, PassData};
ghost use Rattle.pass_data.specs.declared.error.PassDataError.{PassDataError as Refusal};
ghost use Rattle.av1_settings.specs.declared.invalid.InvalidConfig.{InvalidConfig};
ghost use Rattle.session_core.specs.Sessions.{packets_of};
ghost use Rattle.session_core.specs.Taken.{packet_of};
ghost use Rattle.session_core.specs.Told.{heard};
ghost use Rattle.gop_board.specs.Jobs.{pictures};
ghost use Rattle.gop_board.specs.JobSessions.{AreSessionPackets, IsSessionFault, IsSession, finds_nothing};

use crate::job_calls::job_calls;
use crate::{Job, JobResult, MakeSession, PacketList};
use av1_frame::Pixel;
use av1_settings::{Config, LevelTables, SceneDetectionSpeed};
use coding_base::OutOfMemory;
use session_core::{
    FrameCoder, MeanScale, NoDetector, QTables, Reply, SessionError, Transcript, Turn, run_session,
};
use std::alloc::Global;

/// Codes the frames of a job in a session of their own, with the coder and the mean scales that `maker` makes for it, and
/// without scene detection, so that a key frame is only the first one and where the greatest key interval asks for one. The
/// frames are sent without parameters, each as soon as the session needs more data, and receives go on to the last packet.
///
/// The result is the packets, numbered from 0 in the job; a fault, with the coder as its calls left it, whose count of faults is
/// above 0; or want of memory.
pub fn run_job<T: Pixel, M: MakeSession<T>>(
    alloc: Global,
    cfg: &Config,
    levels: &LevelTables,
    tables: &QTables,
    job: &Job<T>,
    maker: &M,
) -> JobResult<T, M::Coder>
    requires valid { session_refusal T.BITS levels.now cfg.now ≡ None }
    requires few { length job.now.frames ≤ 2147483646 }
    requires fit { All (λ frame. IsTrue (fits frame.value cfg.now.enc.width cfg.now.enc.height
        cfg.now.enc.chroma_sampling)) job.now.frames }
    ensures { IsSession cfg.now.enc tables.now (M.told maker.now) M.Coder.told job.now result }
{
    let Ok((mut scales, mut coder)) = maker.make(alloc, job.number, job.first) else {
        return JobResult::OutOfMemory;
    };
    match job_packets(alloc, cfg, levels, tables, job, &mut scales, &mut coder) {
        Ok(packets) => JobResult::Packets(packets),
        Err(SessionError::CoderFault { command }) => JobResult::Fault { command, coder },
        Err(SessionError::OutOfMemory) => JobResult::OutOfMemory,
        Err(SessionError::Invalid(_) | SessionError::PassData(_)) => unreachable!(),
    }
}

// The packets of a job's session.
fn job_packets<T: Pixel, S: MeanScale<T>, C: FrameCoder<T>>(
    alloc: Global,
    cfg: &Config,
    levels: &LevelTables,
    tables: &QTables,
    job: &Job<T>,
    scales: &mut S,
    coder: &mut C,
) -> Result<PacketList<T>, SessionError>
    requires valid { session_refusal T.BITS levels.now cfg.now ≡ None }
    requires few { length job.now.frames ≤ 2147483646 }
    requires faultless { (C.told coder.old).faults ≡ 0 }
    ensures packets { IfOk result (λ packets.
        AreSessionPackets cfg.now.enc tables.now (pictures job.now)
        (heard (C.told coder.old) finds_nothing (S.told scales.old))
        (heard (C.told coder.new) finds_nothing (S.told scales.new)) packets) }
    ensures valid { (v : InvalidConfig) → result ≢ Err (Invalid v) }
    ensures never { (refusal : Refusal) → result ≢ Err (PassData refusal) }
    ensures fault { (command : ℕ)
        → result ≡ Err (CoderFault command)
        → IsSessionFault cfg.now.enc tables.now (pictures job.now)
        (heard (C.told coder.old) finds_nothing (S.told scales.old))
        (heard (C.told coder.new) finds_nothing (S.told scales.new)) command }
{
    let calls = job_calls(alloc, &cfg.enc, job)?;
    let mut settings = cfg.clone()?;
    settings.enc.speed_settings.scene_detection_mode = SceneDetectionSpeed::None;
    match run_session(
        alloc,
        &settings,
        levels,
        tables,
        &mut NoDetector,
        scales,
        coder,
        calls,
    ) {
        Ok(transcript) => Ok(packets_of(alloc, transcript)?),
        Err(error) => Err(error),
    }
}

// The packets of a transcript, in order.
fn packets_of<T: Drop>(
    alloc: Global,
    transcript: Transcript<T, ()>,
) -> Result<PacketList<T>, OutOfMemory>
    ensures { IfOk result (λ packets. packets ≡ packets_of transcript.turns) }
{
    let mut packets = PacketList::new(alloc);
    for turn in transcript.turns.into_vec() {
        add_packet(&mut packets, turn)?;
    }
    Ok(packets)
}

// Puts the packet of a turn, if it gave one, behind the others.
fn add_packet<T: Drop>(packets: &mut PacketList<T>, turn: Turn<T, ()>) -> Result<(), OutOfMemory>
    ensures { OnOk result (packets.new ≡ packets.old ++ packet_of turn.reply) }
{
    let Turn { reply, .. } = turn;
    match reply {
        Reply::Packet(packet) => packets.push(packet),
        _ => Ok(()),
    }
}
