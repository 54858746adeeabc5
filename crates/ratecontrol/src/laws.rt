//! What holds of the state after a list of frames, each law as the contract of a function that does nothing.
//!
//! `update` is the definition that the contract of [`RCState::update_state`](crate::RCState::update_state) cites, and
//! `after_all` folds it over the list.

ghost use Rattle.std.specs.Prelude.{◌≡◌, ℕ, ◌*◌, ◌<◌, ◌^◌, ◌&&◌, Bool, List, [], ◌∷◌, ◌++◌, length, Option, IfSome, int_lt, true, false, ℤ, pos, ◌≤ℤ◌, MatchResult};
ghost use Rattle.std.specs.Ordering.{int_eq};
ghost use Rattle.rate_model.specs.Subtype.{subtype_at};
ghost use Rattle.pass_data.specs.declared.given.Header.{Header};
ghost use Rattle.ratecontrol.specs.Rate.{Rate};
ghost use Rattle.rate_model.specs.Measure.{Entry, entry, LAST_I32};
ghost use Rattle.reservoir.specs.Moves.{LAST_COUNT};
ghost use Rattle.ratecontrol.specs.Passes.{HasCounts, IsReadBack, after_summary, counts_coded, set_up_by};
ghost use Rattle.ratecontrol.specs.Start.{start};
ghost use Rattle.ratecontrol.specs.Update.{update};
ghost use Rattle.ratecontrol.specs.Kept.{kept, is_trial_due, handed_on, with_passes_of, IsSessionStart, IsSessionEntry, IsSessionLog};
ghost use Rattle.ratecontrol.specs.Log.{AllFrames, HasRoom, HasBiasRoom, after_all, bias_after_all, reservoir_after_all, subtype_after_all, coded_after_all, frames_after_all};

use crate::state::RCState;
use pass_stats::{RCSummary, RateControlError, parse_summary};

/// Reading a summary that was emitted gives back its temporal units, counts, exponents and sums, where the temporal units
/// and the counts may be those of a summary.
pub fn emitted_summary_again(state: &mut RCState) -> Result<RCSummary, RateControlError>
    ensures read { HasCounts state.old.emitted.tus (counts_coded state.old)
        → MatchResult result (IsReadBack state.old) (λ _. ⊥) }
    ensures state { state.new ≡ after_summary state.old }
{
    parse_summary(state.emit_summary().as_slice())
}

/// The reservoir after frames is a ledger's: the least of what it held at first with all changes, and of the most that
/// it can hold with the changes after each moment.
#[tactic(auto, using(crate::proofs::ReservoirLaws::reservoir_is_ledger))]
pub fn reservoir_is_a_ledger()
    ensures { (rate : Rate) (entries : List Entry) → AllFrames entries → HasRoom rate entries
        → (after_all rate entries).reservoir ≡ reservoir_after_all rate entries }
{}

/// What is kept of a subtype depends on its own frames alone, in their order.
#[tactic(auto, using(crate::proofs::LogLaws::subtype_of_own))]
pub fn subtypes_follow_their_own_frames()
    ensures { (rate : Rate) (subtype : ℕ) (entries : List Entry)
        → int_lt (pos 0) rate.bitrate ≡ true
        → subtype < 4 → length rate.subtypes ≡ 4
        → subtype_at (after_all rate entries).subtypes subtype
        ≡ subtype_after_all rate subtype entries }
{}

/// Counts are those of the list, and stop at their last value.
#[tactic(auto, using(crate::proofs::CountLaws::coded_counted, crate::proofs::CountLaws::frames_counted))]
pub fn counts_are_those_of_the_list()
    ensures coded { (rate : Rate) (entries : List Entry) → int_lt (pos 0) rate.bitrate ≡ true
        → rate.coded ≤ℤ LAST_COUNT → (after_all rate entries).coded ≡ coded_after_all rate entries }
    ensures frames { (rate : Rate) (subtype : ℕ) (entries : List Entry)
        → (subtype_at rate.subtypes subtype).frames ≤ℤ LAST_I32
        → (subtype_after_all rate subtype entries).frames ≡ frames_after_all rate subtype entries }
{}

/// The bias is the sum of the estimates of the real frames less their bits, where each estimate comes from the frames
/// of the same subtype before it.
#[tactic(auto, using(crate::proofs::BiasLaws::bias_is_sum))]
pub fn bias_is_a_sum()
    ensures { (rate : Rate) (entries : List Entry) → int_lt (pos 0) rate.bitrate ≡ true
        → length rate.subtypes ≡ 4 → AllFrames entries → HasBiasRoom rate entries
        → (after_all rate entries).bias ≡ bias_after_all rate entries }
{}

/// What a session keeps after the entries of its log is one record: the start, but for counts, sums, each subtype after its
/// own frames, and the reservoir's ledger. Without a bitrate it is the start itself, whatever the entries are.
///
/// So [`RCState::update_state`](crate::RCState::update_state) leads from what is kept of a log to what is kept of the longer one.
#[tactic(auto, using(crate::proofs::KeptLaws::kept_laws))]
pub fn a_session_keeps_its_log()
    ensures kept { (rate : Rate) (entries : List Entry)
        → IsSessionStart rate → IsSessionLog entries → after_all rate entries ≡ kept rate entries }
    ensures uncontrolled { (rate : Rate) (entries : List Entry)
        → int_lt (pos 0) rate.bitrate ≡ false → after_all rate entries ≡ rate }
    ensures start { (rate : Rate) → IsSessionStart rate → kept rate [] ≡ rate }
    ensures next { (rate : Rate) (entries : List Entry) (e : Entry)
        → IsSessionStart rate → IsSessionLog (entries ++ e ∷ [])
        → update e (kept rate entries) ≡ kept rate (entries ++ e ∷ []) }
    ensures bitrate { (rate : Rate) (entries : List Entry)
        → (kept rate entries).bitrate ≡ rate.bitrate }
    ensures reservoir { (rate : Rate) (entries : List Entry)
        → int_lt (pos 0) rate.bitrate ≡ true
        → (kept rate entries).reservoir ≡ reservoir_after_all rate entries }
{}

/// What a session's log grows by: coded frames with bits, and shows of coded frames.
#[tactic(auto, using(crate::proofs::KeptLaws::log_laws))]
pub fn a_log_grows_by_frames_and_shows()
    ensures frame { (bits : ℤ) (subtype : ℕ) (shown : Bool) (log_target : ℤ) (trial : Bool)
        → subtype < 4 → pos 1 ≤ℤ bits → bits ≤ℤ pos (8 * 2 ^ 48)
        → IsSessionEntry (entry bits subtype shown log_target trial) }
    ensures show { (log_target : ℤ) → IsSessionEntry (entry (pos 24) 4 true log_target false) }
    ensures next { (entries : List Entry) (e : Entry) → IsSessionLog entries
        → length entries < 2 ^ 33 → IsSessionEntry e → IsSessionLog (entries ++ e ∷ []) }
    ensures before { (entries : List Entry) (e : Entry)
        → IsSessionLog (entries ++ e ∷ []) → IsSessionLog entries }
{}

/// The state that [`RCState::new`](crate::RCState::new) gives is the start of a session.
#[tactic(auto, using(crate::proofs::KeptLaws::session_starts))]
pub fn a_session_starts_with_a_new_state()
    ensures { (width height num den bitrate : ℤ) (greatest : Option ℕ) (least : ℕ) (interval : ℤ)
        (delay : Option ℤ)
        → IfSome delay (λ d. (pos 12 ≤ℤ d) × (d ≤ℤ pos (2 ^ 17)))
        → IsSessionStart (start width height num den bitrate greatest least interval delay) }
{}

/// What the passes hand on is kept beside the rest: an entry moves both apart from each other, so the state of a session with
/// passes is the one of a single pass with these passes put in.
#[tactic(auto, using(crate::proofs::KeptLaws::passes_apart))]
pub fn the_passes_stand_beside_the_log()
    ensures { (e : Entry) (passes rate : Rate) → update e (with_passes_of passes rate)
        ≡ with_passes_of (handed_on e rate passes) (update e rate) }
{}

/// A start that a summary set up is the start of a session, where its reservoir holds as many bits as the state can keep.
pub fn a_summary_sets_up_a_start()
    ensures { (header : Option Header) (passes none rate : Rate) → IsSessionStart rate
        → none.first ≡ false → none.second ≡ false
        → pos 0 ≤ℤ (set_up_by header (with_passes_of passes rate)).most
        → (set_up_by header (with_passes_of passes rate)).most ≤ℤ pos (2 ^ 78)
        → IsSessionStart (with_passes_of none (set_up_by header (with_passes_of passes rate))) }
{}

/// A trial is due, as [`RCState::needs_trial_encode`](crate::RCState::needs_trial_encode) tells it, exactly where there is a
/// bitrate and no frame of the subtype was coded for good.
#[tactic(auto, using(crate::proofs::KeptLaws::trial_is_due))]
pub fn a_trial_is_due_before_the_first_frame()
    ensures { (rate : Rate) (subtype : ℕ) (entries : List Entry) → subtype < 4 → IsSessionStart rate
        → (int_lt (pos 0) (kept rate entries).bitrate
        && int_eq (subtype_at (kept rate entries).subtypes subtype).frames (pos 0))
        ≡ is_trial_due rate subtype entries }
{}
