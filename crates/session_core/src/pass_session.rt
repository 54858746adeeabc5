ghost use Rattle.std.specs.Prelude.{◌≡◌, ◌⊎◌, ℕ, None, Some, Err, IfOk, IsOk, OnOk};
ghost use Rattle.std.specs.Result.{result_err};
ghost use Rattle.coding_base.specs.Faults.{Rose};
ghost use Rattle.av1_settings.specs.declared.invalid.InvalidConfig.{InvalidConfig};
ghost use Rattle.av1_settings.specs.Checks.{asks_passes, IsValid};
ghost use Rattle.pass_data.specs.declared.error.PassDataError.{PassDataError as Refusal};
ghost use Rattle.session_core.specs.declared.session.SessionError.TheVariants.{Invalid, CoderFault, PassData};
ghost use Rattle.session_core.specs.PassStates.{ArePassSteps};
ghost use Rattle.session_core.specs.PassTurns.{pass_moment_after, pass_opening};
ghost use Rattle.session_core.specs.PassSessions.{IsPassSessionRun, IsRefusedAt, PassFailsAt, passes_refusal};
ghost use Rattle.session_core.specs.Told.{heard, IsLater};

use crate::state::SessionState;
use crate::{
    DecisionList, Detector, FrameCoder, MeanScale, PassCall, PassTranscript, PassTurnList, QTables,
    SessionError,
};
use av1_frame::Pixel;
use av1_settings::{Config, InvalidConfig, LevelTables};
use std::alloc::Global;

/// Carries out a list of calls of a session in two passes, as [`run_session`](crate::run_session) does those of one pass. A first
/// pass is on where pass data is asked for, and hands on the metrics of each frame, and, once all is done, a summary. A second
/// is on where a summary is set, and wants the metrics of each frame before it codes it. Both can be on at once.
///
/// A receive answers NotReady, behind NeedMoreData, while the data of the last command wasn't taken in a first pass, or that
/// of the next frame isn't there in a second. Without such receives the calls and turns are those of a session in one pass, but
/// for the quantisers.
///
/// The errors are `Invalid`, first with `RateControlConfigurationMismatch` where neither pass data is asked for nor a summary set,
/// then with the configuration's first refusal, one of which is a bit depth above the pixel type's; `PassData` where the
/// metrics that are given are refused; `CoderFault` where the coder failed; `OutOfMemory`.
pub fn run_pass_session<T: Pixel, O: Drop, D: Detector<T>, S: MeanScale<T>, C: FrameCoder<T>>(
    alloc: Global,
    cfg: &Config,
    levels: &LevelTables,
    tables: &QTables,
    detector: &mut D,
    scales: &mut S,
    coder: &mut C,
    calls: Vec<PassCall<T, O>>,
) -> Result<PassTranscript<T, O>, SessionError>
    // The reply table of two passes, and the headline.
    ensures session { IfOk result (λ t.
        IsPassSessionRun cfg.now.enc tables.now cfg.now.rate_control calls.items t
        (heard (C.told coder.old) (D.told detector.old) (S.told scales.old))
        (heard (C.told coder.new) (D.told detector.new) (S.told scales.new))) }

    // It is made of steps, each as one call of a context is.
    ensures steps { IfOk result (λ t.
        ArePassSteps cfg.now.enc tables.now calls.items t.turns
        (pass_opening cfg.now.enc tables.now cfg.now.rate_control)
        (pass_moment_after cfg.now.enc tables.now cfg.now.rate_control t.decisions calls.items t.turns)
        (heard (C.told coder.old) (D.told detector.old) (S.told scales.old))
        (heard (C.told coder.new) (D.told detector.new) (S.told scales.new))) }

    // When each error comes.
    ensures invalid { (v : InvalidConfig)
        → result ≡ Err (Invalid v)
        → passes_refusal T.BITS levels.now cfg.now ≡ Some v }
    ensures refused { (v : InvalidConfig)
        → passes_refusal T.BITS levels.now cfg.now ≡ Some v
        → result ≡ Err (Invalid v) }
    ensures fault { (command : ℕ)
        → result ≡ Err (CoderFault command)
        → PassFailsAt cfg.now.enc tables.now cfg.now.rate_control calls.items
        (heard (C.told coder.old) (D.told detector.old) (S.told scales.old))
        (heard (C.told coder.new) (D.told detector.new) (S.told scales.new)) command }
    ensures message { (refusal : Refusal)
        → result ≡ Err (PassData refusal)
        → IsRefusedAt cfg.now.enc tables.now cfg.now.rate_control calls.items
        (heard (C.told coder.old) (D.told detector.old) (S.told scales.old))
        (heard (C.told coder.new) (D.told detector.new) (S.told scales.new)) refusal }
    ensures complete { passes_refusal T.BITS levels.now cfg.now ≡ None
        → ¬ Rose (C.told coder.old).faults (C.told coder.new).faults
        → IsOk result ⊎ (result ≡ Err SessionError.OutOfMemory)
        ⊎ ((refusal : Refusal) × (result ≡ Err (PassData refusal))) }

    // What those outside tell goes on; none of them is called where the session doesn't begin.
    ensures later { IsLater (heard (C.told coder.old) (D.told detector.old) (S.told scales.old))
        (heard (C.told coder.new) (D.told detector.new) (S.told scales.new)) }
    ensures untouched { (v : InvalidConfig)
        → passes_refusal T.BITS levels.now cfg.now ≡ Some v
        → (coder.new ≡ coder.old) × (detector.new ≡ detector.old) × (scales.new ≡ scales.old) }
{
    if let Err(refusal) = check_passes(cfg, levels, T::BITS) {
        return Err(SessionError::Invalid(refusal));
    }
    let Ok(state) = SessionState::begin(alloc, &cfg.enc, tables, &cfg.rate_control) else {
        return Err(SessionError::OutOfMemory);
    };
    let mut state = state;
    let mut turns = Vec::new(alloc);
    for call in calls {
        let turn = match state.pass_turn(alloc, &cfg.enc, detector, scales, coder, call) {
            Ok(turn) => turn,
            Err(fault) => return Err(SessionError::from(fault)),
        };
        match turns.push(turn) {
            Ok(()) => {}
            Err(_) => return Err(SessionError::OutOfMemory),
        }
    }
    Ok(PassTranscript {
        turns: PassTurnList::from_vec(turns),
        decisions: DecisionList::from_vec(state.decisions),
    })
}

// The checks of a session in two passes, for a pixel type of so many bits.
fn check_passes(cfg: &Config, levels: &LevelTables, bits: usize) -> Result<(), InvalidConfig>
    ensures first { result_err result ≡ passes_refusal bits levels.now cfg.now }
    ensures valid { OnOk result (IsValid cfg.now.enc) }
{
    if !asks_passes(cfg) {
        return Err(InvalidConfig::RateControlConfigurationMismatch);
    }
    cfg.validate_for_pixel(levels, bits)
}

// Whether a configuration asks for pass data or has a summary.
fn asks_passes(cfg: &Config) -> bool
    ensures { result ≡ asks_passes cfg.now }
{
    cfg.rate_control.emit_data || cfg.rate_control.summary.is_some()
}
