//! What holds of a window, and of a whole file's tally, after any frames, each law as the contract of a function that does nothing.

ghost use Rattle.std.specs.Prelude.{◌≡◌, ℕ, ◌<◌, ◌≤◌, ◌++◌, List, length, drop, Option, ◌-ℤ◌};
ghost use Rattle.pass_stats.specs.declared.metrics.RCFrameMetrics.{RCFrameMetrics};
ghost use Rattle.metrics_window.specs.declared.tally.Tally.{Tally};
ghost use Rattle.metrics_window.specs.Tallies.{number_at, count_of, sum_of, shown_of, less_all};
ghost use Rattle.metrics_window.specs.Window.{Window};
ghost use Rattle.metrics_window.specs.Moves.{after_moves, accepted, coded, AreHeld, HasCountRoom, HasSumRoom};

/// A window holds the metrics that it held and took, without as many from the front as frames were coded.
#[tactic(auto, using(crate::proofs::MoveLaws::held_is))]
pub fn windows_hold_what_was_accepted_and_not_coded()
    ensures { (w : Window) (moves : List (Option RCFrameMetrics)) → AreHeld w moves
        → (after_moves w moves).held ≡ drop (coded moves) (w.held ++ accepted moves) }
{}

/// A whole file's tally is the one at the start less the counts and sums of the metrics that were taken off.
pub fn whole_files_lose_what_was_coded()
    ensures counts { (k : ℕ) (metrics : List RCFrameMetrics) (t : Tally) → k ≤ 4
        → length t.counts ≡ 5 → HasCountRoom (number_at t.counts k) (length metrics)
        → number_at (less_all metrics t).counts k ≡ number_at t.counts k -ℤ count_of k metrics }
    ensures sums { (k : ℕ) (metrics : List RCFrameMetrics) (t : Tally) → k < 4
        → length t.sums ≡ 4 → HasSumRoom (number_at t.sums k) (length metrics)
        → number_at (less_all metrics t).sums k ≡ number_at t.sums k -ℤ sum_of k metrics }
    ensures shown { (metrics : List RCFrameMetrics) (t : Tally)
        → HasCountRoom t.shown (length metrics)
        → (less_all metrics t).shown ≡ t.shown -ℤ shown_of metrics }
{}
