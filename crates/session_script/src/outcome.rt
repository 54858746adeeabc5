ghost use Rattle.std.specs.Prelude.{◌≡◌, IfOk, string_bytes};
ghost use Rattle.session_script.specs.Outcomes.{status_of, line_of, config_of, command_of, session_in, passes_in, transcript_of, pass_of, report_of, text_in, text_of, is_silent, cut_short, sums, summed_up};

use coding_base::OutOfMemory;
use gop_board::PacketList;
use session_core::{PassTranscript, Transcript};
use session_text::{ReportOptions, packets_text, pass_report_text, report_text, summary_text};
use std::alloc::Global;

// What a session in one pass did, and what one in two passes did.
type Transcripts = (Option<Transcript<u8, u64>>, Option<PassTranscript<u8, u64>>);

/// What was done, and how that is told.
#[derive(Drop)]
pub enum Account {
    /// A session in one pass: each turn with its lines, and with these options.
    Turns(Transcript<u8, u64>, ReportOptions),
    /// A session in one pass: all its turns summed up.
    Summary(Transcript<u8, u64>),
    /// A session in two passes: each turn with its lines, and with these options.
    Passes(PassTranscript<u8, u64>, ReportOptions),
    /// Jobs side by side: the packets of all.
    Packets(PacketList<u8>),
}

/// What the run of a script came to.
#[derive(Drop)]
pub enum Outcome {
    /// The words of the command line ask for no run.
    WrongWords,
    /// The source failed.
    Unreadable,
    /// The source has more bytes than a script may have.
    TooLong,
    /// The line of this number, from 1, is the first that is no script line.
    BadLine(u64),
    /// Pass data that the script gives, or its summary, is refused, by the error of this number.
    RefusedPassData(u8),
    /// The configuration is refused, by the refusal of this number.
    Refused(u8),
    /// The coder failed at the command of this number, from 0.
    CoderFault(u64),
    /// The coder of a job failed; it is the least such job.
    JobFault {
        /// The job's number, from 0.
        job: u64,
        /// The number of the command at which it failed, from 0.
        command: u64,
    },
    /// The calls were carried out, and what came of them was written.
    Done(Account),
    /// The calls were carried out, and the sink failed while that was written.
    Unwritten(Account),
    /// Memory ran out.
    OutOfMemory,
}

/// What the run of a script answers.
#[derive(Drop)]
pub struct Report {
    /// The exit status.
    pub status: u8,
    /// The number of the first line that is no script line, from 1; at status 3 alone.
    pub line: Option<u64>,
    /// The number of the configuration's refusal; at status 4 alone.
    pub config: Option<u8>,
    /// The number of the command whose coding failed, from 0; at status 8 alone.
    pub command: Option<u64>,
    /// What a session in one pass did; at the statuses 0 and 6 alone.
    pub transcript: Option<Transcript<u8, u64>>,
    /// What a session in two passes did; at the statuses 0 and 6 alone.
    pub pass: Option<PassTranscript<u8, u64>>,
}

impl Account {
    // What is printed.
    fn text(&self, alloc: Global) -> Result<String, OutOfMemory>
        ensures { IfOk result (λ text. string_bytes text ≡ text_in self.now) }
    {
        match self {
            Account::Turns(transcript, options) => {
                report_text(alloc, *options, transcript.turns.as_slice())
            }
            Account::Summary(transcript) => summary_text(alloc, transcript.turns.as_slice()),
            Account::Passes(transcript, options) => {
                pass_report_text(alloc, *options, transcript.turns.as_slice())
            }
            Account::Packets(packets) => packets_text(alloc, packets.as_slice()),
        }
    }

    // What a session in one pass did, and what one in two passes did.
    fn into_transcripts(self) -> Transcripts
        ensures { result ≡ (session_in self, passes_in self) }
    {
        match self {
            Account::Turns(transcript, _) | Account::Summary(transcript) => {
                (Some(transcript), None)
            }
            Account::Passes(transcript, _) => (None, Some(transcript)),
            Account::Packets(_) => (None, None),
        }
    }

    // The same, where the turns of a session in one pass are summed up.
    fn summed_up(self) -> Account
        ensures { result ≡ sums self }
    {
        match self {
            Account::Turns(transcript, _) => Account::Summary(transcript),
            account => account,
        }
    }
}

impl Outcome {
    /// The exit status.
    pub fn status(&self) -> u8
        ensures { result ≡ status_of self.now }
    {
        match self {
            Outcome::Done(..) => 0,
            Outcome::WrongWords => 2,
            Outcome::BadLine(_) => 3,
            Outcome::Refused(_) => 4,
            Outcome::Unreadable => 5,
            Outcome::Unwritten(..) => 6,
            Outcome::TooLong => 7,
            Outcome::CoderFault(_) | Outcome::JobFault { .. } => 8,
            Outcome::OutOfMemory => 9,
            Outcome::RefusedPassData(_) => 10,
        }
    }

    fn line(&self) -> Option<u64>
        ensures { result ≡ line_of self.now }
    {
        match self {
            Outcome::BadLine(line) => Some(*line),
            _ => None,
        }
    }

    fn config(&self) -> Option<u8>
        ensures { result ≡ config_of self.now }
    {
        match self {
            Outcome::Refused(number) => Some(*number),
            _ => None,
        }
    }

    fn command(&self) -> Option<u64>
        ensures { result ≡ command_of self.now }
    {
        match self {
            Outcome::CoderFault(command) | Outcome::JobFault { command, .. } => Some(*command),
            _ => None,
        }
    }

    fn into_transcripts(self) -> Transcripts
        ensures { result ≡ (transcript_of self, pass_of self) }
    {
        match self {
            Outcome::Done(account) | Outcome::Unwritten(account) => account.into_transcripts(),
            _ => (None, None),
        }
    }

    /// Whether the outcome has no text.
    pub fn is_silent(&self) -> bool
        ensures { result ≡ is_silent self.now }
    {
        matches!(
            self,
            Outcome::WrongWords | Outcome::Unreadable | Outcome::TooLong | Outcome::OutOfMemory
        )
    }

    /// What is printed: what came of a session, or a line that says why there is none.
    pub fn text(&self, alloc: Global) -> Result<String, OutOfMemory>
        ensures { IfOk result (λ text. string_bytes text ≡ text_of self.now) }
    {
        match self {
            Outcome::Done(account) | Outcome::Unwritten(account) => account.text(alloc),
            Outcome::BadLine(line) => Ok(format!(in alloc; "script line {line}\n")?),
            Outcome::RefusedPassData(number) => Ok(format!(in alloc; "pass data {number}\n")?),
            Outcome::Refused(number) => Ok(format!(in alloc; "invalid config {number}\n")?),
            Outcome::CoderFault(command) => Ok(format!(in alloc; "coder fault {command}\n")?),
            Outcome::JobFault { job, command } => {
                Ok(format!(in alloc; "coder fault {job} {command}\n")?)
            }
            _ => Ok(String::new(alloc)),
        }
    }

    /// The same, where the sink failed while its text was written.
    pub fn cut_short(self) -> Outcome
        ensures { result ≡ cut_short self }
    {
        match self {
            Outcome::Done(account) => Outcome::Unwritten(account),
            outcome => outcome,
        }
    }

    /// The same, where the session's turns are summed up.
    pub fn summed_up(self) -> Outcome
        ensures { result ≡ summed_up self }
    {
        match self {
            Outcome::Done(account) => Outcome::Done(account.summed_up()),
            outcome => outcome,
        }
    }
}

impl Report {
    /// The report of an outcome.
    pub fn of(outcome: Outcome) -> Report
        ensures { result ≡ report_of outcome }
    {
        let status = outcome.status();
        let line = outcome.line();
        let config = outcome.config();
        let command = outcome.command();
        let (transcript, pass) = outcome.into_transcripts();
        Report {
            status,
            line,
            config,
            command,
            transcript,
            pass,
        }
    }
}
