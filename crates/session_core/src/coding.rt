// How a command is coded, and what a receive answers then.
ghost use Rattle.std.specs.Prelude.{◌≡◌, ◌≤◌, ◌<◌, ◌+◌, [], ◌∷◌, ◌++◌, List, true, false, IfOk, IfErr, OnOk, if◌then◌else◌, drop, length, map, pos};
ghost use Rattle.std.specs.Option.{option_map};
ghost use Rattle.pyramid.specs.Known.{is_coding};
ghost use Rattle.quantizers.specs.Tables.{Tables};
ghost use Rattle.session_log.specs.Keeps.{Keeps};
ghost use Rattle.session_log.specs.declared.entry.LogEntry.{LogEntry as Entry};
ghost use Rattle.session_core.specs.declared.fault.SessionFault.TheVariants.{Coder};
ghost use Rattle.session_core.specs.Quantisers.{quantisers_at};
ghost use Rattle.session_core.specs.States.{moment_of, passes_at, Carries, CanCode, FailsCoding, IsCoded, IsDue};
ghost use Rattle.session_core.specs.Told.{IsCoderLater};
ghost use Rattle.session_core.specs.Turns.{IsNextPacket, IsReceived, after_receive, frame_limit, noted};

use crate::coded::{Coded, coding_of};
use crate::guess::ScheduleGuess;
use crate::state::SessionState;
use crate::{CodeJob, CoderError, FrameCoder, LogEntry, Packet, Reply, SessionFault};
use av1_settings::{EncoderConfig, EncoderStatus};
use coding_base::{Bytes, OutOfMemory};
use pyramid::Command;
use std::alloc::Global;
use std::sync::Arc;

/// The bytes that begin a packet: a temporal delimiter without a payload.
const DELIMITER: [u8; 2] = [0x12, 0x00];

impl<T: Drop, O: Drop> SessionState<T, O> {
    /// Has the coder carry out a command, as a try or for good, with the quantisers that rate control selects for this mean
    /// scale.
    pub(crate) fn code<C: FrameCoder<T>>(
        &self,
        alloc: Global,
        enc: &EncoderConfig,
        coder: &mut C,
        command: &Command,
        trial: bool,
        mean_scale: i64,
    ) -> Result<Coded<T>, SessionFault>
        requires waits { self.now.packets + length self.now.waiting.items ≡ self.now.accepted }
        requires next { CanCode (moment_of self.now) command.now }
        requires due { IsDue enc.now (moment_of self.now) self.now.schedule }
        requires tried { trial ≡ true → is_coding command.now ≡ true }
        ensures command { IfOk result (λ coded. coded.entry.command ≡ command.now) }
        ensures trial { IfOk result (λ coded. coded.entry.trial ≡ trial) }
        ensures scale { IfOk result (λ coded.
            coded.entry.mean_scale ≡ (if is_coding command.now then mean_scale else pos 0)) }
        ensures quant { IfOk result (λ coded. (tables : Tables) (log : List Entry) →
            Keeps enc.now tables (passes_at self.now) log self.now.rate →
            coded.entry.quant ≡ quantisers_at enc.now tables (passes_at self.now) (moment_of self.now) log
            coded.entry) }
        ensures coded { IfOk result
            (IsCoded (moment_of self.now) (C.told coder.old) (C.told coder.new)) }
        ensures failed { IfErr result (λ fault.
            FailsCoding self.now.commands (C.told coder.old) (C.told coder.new) fault) }
        ensures later { IsCoderLater (C.told coder.old) (C.told coder.new) }
    {
        match *command {
            Command::Code { frame, .. } => {
                let guess = ScheduleGuess { enc, state: self };
                let quant = self.rate.select(&guess, command, mean_scale);
                let waiting = &self.waiting[(frame - self.packets) as usize];
                let job = CodeJob {
                    command: *command,
                    trial,
                    quant,
                    picture: Arc::try_clone(&waiting.picture)?,
                    t35: Arc::try_clone(&waiting.t35)?,
                };
                match coder.code(alloc, &job) {
                    Ok(coded) => Ok(Coded {
                        entry: LogEntry {
                            command: *command,
                            trial,
                            bytes: coded.bytes,
                            quant: Some(quant),
                            mean_scale,
                        },
                        rec: coded.rec,
                        stats: coded.stats,
                    }),
                    Err(error) => Err(self.failed(error)),
                }
            }
            Command::Show { slot } => match coder.show(alloc, slot, self.packets) {
                Ok(shown) => Ok(Coded {
                    entry: LogEntry {
                        command: *command,
                        trial: false,
                        bytes: Bytes::from_slice(alloc, &shown.bytes)?,
                        quant: None,
                        mean_scale: 0,
                    },
                    rec: shown.rec,
                    stats: shown.stats,
                }),
                Err(error) => Err(self.failed(error)),
            },
        }
    }

    // The session's fault for one of the coder's.
    fn failed(&self, error: CoderError) -> SessionFault
        ensures failed { error ≡ CoderError.Failed → result ≡ Coder self.now.commands }
        ensures memory { error ≡ CoderError.OutOfMemory → result ≡ SessionFault.OutOfMemory }
    {
        match error {
            CoderError::Failed => SessionFault::Coder {
                command: self.commands,
            },
            CoderError::OutOfMemory => SessionFault::OutOfMemory,
        }
    }

    /// Keeps the bytes and the type of a hidden frame, or gives the packet of a shown one, with the coder's picture.
    pub(crate) fn answer(
        &mut self,
        alloc: Global,
        coded: &mut Coded<T>,
    ) -> Result<Reply<T, O>, OutOfMemory>
        requires fits { self.old.commands < u64.MAX }
        requires few { self.old.accepted ≤ frame_limit }
        requires waits { self.old.packets + length self.old.waiting.items ≡ self.old.accepted }
        requires next { CanCode (moment_of self.old) coded.old.entry.command }
        requires real { coded.old.entry.trial ≡ false }
        ensures reply { IfOk result (λ reply.
            IsReceived (moment_of self.old) coded.old.entry reply) }
        ensures carries { IfOk result (λ reply. Carries coded.old reply) }
        ensures after { IfOk result (λ reply.
            record (moment_of self.new) { log = (moment_of self.old).log ++ coded.old.entry ∷ [] }
            ≡ after_receive (moment_of self.old) (coded.old.entry ∷ []) reply) }
        ensures log { self.new.log ≡ self.old.log }
        ensures last_key { self.new.last_key ≡ self.old.last_key }
        ensures schedule { self.new.schedule ≡ self.old.schedule }
        ensures rate { self.new.rate ≡ self.old.rate }
        ensures entry { coded.new.entry ≡ coded.old.entry }
    {
        if coded.entry.is_showing() {
            let packet = self.packet(alloc, coded)?;
            self.pending.clear();
            self.commands += 1;
            self.packets += 1;
            return Ok(Reply::Packet(packet));
        }
        self.pending
            .extend_from_slice(coded.entry.bytes.as_slice())?;
        self.note_coding(&coded.entry);
        self.commands += 1;
        Ok(Reply::Status(EncoderStatus::Encoded))
    }

    // Keeps how a frame was coded until its packet is given.
    fn note_coding(&mut self, entry: &LogEntry)
        requires waits { self.old.packets + length self.old.waiting.items ≡ self.old.accepted }
        requires next { CanCode (moment_of self.old) entry.now.command }
        ensures after { moment_of self.new
            ≡ record (moment_of self.old)
            { waiting = noted self.old.packets (moment_of self.old).waiting entry.now } }
        ensures log { self.new.log ≡ self.old.log }
        ensures last_key { self.new.last_key ≡ self.old.last_key }
        ensures schedule { self.new.schedule ≡ self.old.schedule }
        ensures rate { self.new.rate ≡ self.old.rate }
    {
        if let Command::Code { frame, .. } = entry.command {
            self.waiting[(frame - self.packets) as usize].coding = coding_of(entry);
        }
    }

    // The packet of the first frame that waits, which the command shows; it takes the coder's picture with it.
    fn packet(&mut self, alloc: Global, coded: &mut Coded<T>) -> Result<Packet<T, O>, OutOfMemory>
        requires waits { self.old.packets + length self.old.waiting.items ≡ self.old.accepted }
        requires next { CanCode (moment_of self.old) coded.old.entry.command }
        ensures packet { IfOk result
            (λ packet. IsNextPacket (moment_of self.old) coded.old.entry packet) }
        ensures rec { IfOk result (λ packet. packet.rec ≡ coded.old.rec) }
        ensures stats { IfOk result (λ packet. packet.enc_stats ≡ coded.old.stats) }
        ensures entry { coded.new.entry ≡ coded.old.entry }
        ensures after { OnOk result (
            moment_of self.new
            ≡ record (moment_of self.old) { waiting = drop 1 (moment_of self.old).waiting }) }
        ensures log { self.new.log ≡ self.old.log }
        ensures last_key { self.new.last_key ≡ self.old.last_key }
        ensures schedule { self.new.schedule ≡ self.old.schedule }
        ensures rate { self.new.rate ≡ self.old.rate }
    {
        let mut bytes = Vec::from_slice(alloc, &DELIMITER)?;
        bytes.extend_from_slice(&self.pending)?;
        bytes.extend_from_slice(coded.entry.bytes.as_slice())?;
        let Some(first) = self.waiting.pop_front() else {
            unreachable!()
        };
        let coding = coded.shown_coding(&first);
        Ok(Packet {
            bytes: Bytes::from_vec(bytes),
            rec: coded.rec.take(),
            frame_type: coding.kind,
            qp: coding.qp,
            source: Some(first.picture),
            input_frameno: self.packets,
            enc_stats: coded.stats,
            opaque: first.opaque,
        })
    }
}
