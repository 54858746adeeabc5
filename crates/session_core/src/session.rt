ghost use Rattle.std.specs.Prelude.{◌≡◌, ◌⊎◌, ℕ, None, Some, Err, IfOk, IsOk};
ghost use Rattle.coding_base.specs.Faults.{Rose};
ghost use Rattle.av1_settings.specs.declared.invalid.InvalidConfig.{InvalidConfig};
ghost use Rattle.av1_settings.specs.Checks.{session_refusal};
ghost use Rattle.pass_data.specs.declared.error.PassDataError.{PassDataError as Refusal};
ghost use Rattle.session_core.specs.declared.session.SessionError.TheVariants.{Invalid, CoderFault, PassData};
ghost use Rattle.session_core.specs.Answers.{FailsAt};
ghost use Rattle.session_core.specs.Moments.{opening};
ghost use Rattle.session_core.specs.Sessions.{IsSessionRun, KeepsSchedule, moment_after};
ghost use Rattle.session_core.specs.Steps.{AreSteps};
ghost use Rattle.session_core.specs.Told.{heard, IsLater};

use crate::state::SessionState;
use crate::{
    Call, DecisionList, Detector, FrameCoder, MeanScale, QTables, SessionFault, Transcript,
    TurnList,
};
use av1_frame::Pixel;
use av1_settings::{Config, InvalidConfig, LevelTables};
use coding_base::OutOfMemory;
use pass_data::PassDataError;
use std::alloc::{AllocError, AllocFailed, Global};
use thiserror::Error;

/// Why a list of calls wasn't carried out to its end.
#[derive(Clone, Copy, Debug, PartialEq, Eq, Error)]
pub enum SessionError {
    /// The configuration is refused.
    #[error("invalid configuration: {0}")]
    Invalid(InvalidConfig),
    /// The coder failed.
    #[error("the coder failed at command {command}")]
    CoderFault {
        /// The number of commands coded before.
        command: u64,
    },
    /// Memory ran out.
    #[error("out of memory")]
    OutOfMemory,
    /// Pass data was refused, but never for want of memory.
    #[error("pass data was refused: {0}")]
    PassData(PassDataError),
}

impl From<OutOfMemory> for SessionError {
    ghost use Rattle.pass_data.specs.declared.error.PassDataError.{PassDataError as Refusal};
    ghost use Rattle.session_core.specs.declared.session.SessionError.{SessionError};
    ghost use Rattle.std.specs.Prelude.{◌≡◌};

    ghost from_gives = { λ _ e. e ≡ SessionError.OutOfMemory };

    fn from(_: OutOfMemory) -> Self {
        SessionError::OutOfMemory
    }
}

impl From<SessionFault> for SessionError {
    ghost use Rattle.session_core.specs.Answers.{error_of};
    ghost use Rattle.std.specs.Prelude.{◌≡◌};

    ghost from_gives = { λ fault e. e ≡ error_of fault };

    fn from(fault: SessionFault) -> Self {
        match fault {
            SessionFault::Coder { command } => SessionError::CoderFault { command },
            SessionFault::OutOfMemory => SessionError::OutOfMemory,
            SessionFault::PassData(refusal) => SessionError::PassData(refusal),
        }
    }
}

impl From<AllocError> for SessionError {
    ghost use Rattle.pass_data.specs.declared.error.PassDataError.{PassDataError as Refusal};
    ghost use Rattle.session_core.specs.declared.session.SessionError.{SessionError};
    ghost use Rattle.std.specs.Prelude.{◌≡◌};

    ghost from_gives = { λ _ e. e ≡ SessionError.OutOfMemory };

    fn from(_: AllocError) -> Self {
        SessionError::OutOfMemory
    }
}

impl<T: Drop> From<AllocFailed<T>> for SessionError {
    ghost use Rattle.pass_data.specs.declared.error.PassDataError.{PassDataError as Refusal};
    ghost use Rattle.session_core.specs.declared.session.SessionError.{SessionError};
    ghost use Rattle.std.specs.Prelude.{◌≡◌};

    ghost from_gives = { λ _ e. e ≡ SessionError.OutOfMemory };

    fn from(_: AllocFailed<T>) -> Self {
        SessionError::OutOfMemory
    }
}

/// Carries out a list of calls in order, has the coder code what their plan asks for, and says of each call what it answered
/// and coded. The plan is that of the frames accepted and the keys decided so far (docs/RULES.md). `detector` is asked once of
/// each frame that is decided and wasn't sent as a key frame, `scales` once of each frame that is coded. `levels` has the limits
/// of the AV1 specification's levels, against which the configuration is checked, and `tables` the quantisers by their index.
///
/// With a bitrate the first command of each subtype is tried before it is coded, and quantisers follow the bits that were
/// spent; without one they are those of the settings' index.
///
/// The errors are `Invalid`, with the configuration's first refusal, one of which is a bit depth above the pixel type's;
/// `CoderFault` where the coder failed; `OutOfMemory`, also where the detector or the mean scales found no memory.
pub fn run_session<T: Pixel, O: Drop, D: Detector<T>, S: MeanScale<T>, C: FrameCoder<T>>(
    alloc: Global,
    cfg: &Config,
    levels: &LevelTables,
    tables: &QTables,
    detector: &mut D,
    scales: &mut S,
    coder: &mut C,
    calls: Vec<Call<T, O>>,
) -> Result<Transcript<T, O>, SessionError>
    // The headline, and what stands beside it.
    ensures session { IfOk result (λ t.
        IsSessionRun cfg.now.enc tables.now calls.items t
        (heard (C.told coder.old) (D.told detector.old) (S.told scales.old))
        (heard (C.told coder.new) (D.told detector.new) (S.told scales.new))) }

    // It is made of steps, each as one call of a context is.
    ensures steps { IfOk result (λ t.
        AreSteps cfg.now.enc tables.now calls.items t.turns opening
        (moment_after cfg.now.enc t.decisions calls.items t.turns)
        (heard (C.told coder.old) (D.told detector.old) (S.told scales.old))
        (heard (C.told coder.new) (D.told detector.new) (S.told scales.new))) }

    // Other calls between the same frames, with the same decisions, give the same commands as far as both go.
    ensures schedules { IfOk result (λ t. KeepsSchedule cfg.now.enc calls.items t) }

    // When each error comes.
    ensures invalid { (v : InvalidConfig)
        → result ≡ Err (Invalid v)
        → session_refusal T.BITS levels.now cfg.now ≡ Some v }
    ensures refused { (v : InvalidConfig)
        → session_refusal T.BITS levels.now cfg.now ≡ Some v
        → result ≡ Err (Invalid v) }
    ensures fault { (command : ℕ)
        → result ≡ Err (CoderFault command)
        → FailsAt cfg.now.enc tables.now calls.items
        (heard (C.told coder.old) (D.told detector.old) (S.told scales.old))
        (heard (C.told coder.new) (D.told detector.new) (S.told scales.new)) command }
    ensures complete { session_refusal T.BITS levels.now cfg.now ≡ None
        → ¬ Rose (C.told coder.old).faults (C.told coder.new).faults
        → IsOk result ⊎ (result ≡ Err SessionError.OutOfMemory) }

    ensures never { (refusal : Refusal) → ¬ (result ≡ Err (PassData refusal)) }

    // What those outside tell goes on; none of them is called where the session doesn't begin.
    ensures later { IsLater (heard (C.told coder.old) (D.told detector.old) (S.told scales.old))
        (heard (C.told coder.new) (D.told detector.new) (S.told scales.new)) }
    ensures untouched { (v : InvalidConfig)
        → session_refusal T.BITS levels.now cfg.now ≡ Some v
        → (coder.new ≡ coder.old) × (detector.new ≡ detector.old) × (scales.new ≡ scales.old) }
{
    if let Err(refusal) = cfg.validate_for_session(levels, T::BITS) {
        return Err(SessionError::Invalid(refusal));
    }
    let mut state = SessionState::new(alloc, &cfg.enc, tables);
    let mut turns = Vec::new(alloc);
    for call in calls {
        match state.turn(alloc, &cfg.enc, detector, scales, coder, call) {
            Ok(turn) => turns.push(turn)?,
            Err(fault) => return Err(SessionError::from(fault)),
        }
    }
    Ok(Transcript {
        turns: TurnList::from_vec(turns),
        decisions: DecisionList::from_vec(state.decisions),
    })
}
