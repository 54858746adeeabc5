//! What holds of pass data, however it comes, each law as the contract of a function that does nothing.
//!
//! `given_bytes` is the definition that the contract of [`GivenData::give`](crate::GivenData::give) cites.

ghost use Rattle.std.specs.Prelude.{◌≡◌, ℕ, suc, ◌+◌, ◌<◌, ◌≤◌, Bool, List, [], ◌∷◌, ◌++◌, length, take, drop, None, true, is_some, ℤ};
ghost use Rattle.pass_stats.specs.Metric.{Metric};
ghost use Rattle.metrics_window.specs.Window.{with_taken};
ghost use Rattle.pass_stats.specs.declared.metrics.RCFrameMetrics.{RCFrameMetrics};
ghost use Rattle.pass_data.specs.Given.{Given, with_summary_bytes, sent, metrics_at};
ghost use Rattle.pass_data.specs.Pieces.{further, then_given, given_bytes};
ghost use Rattle.pass_data.specs.Packets.{ArePackets, Event, Reads, given_after, joined, frames_coded, AllTaken, HasRead};

/// Bytes that come in two pieces are taken as though they had come in one, where those that were not taken of the first are offered again.
#[tactic(auto, using(crate::proofs::PieceLaws::pieces_joined))]
pub fn pieces_are_as_good_as_joined_bytes()
    ensures { (delay commands : ℤ) (bytes more : List ℕ) (g : Given)
        → (given_bytes delay commands bytes g).refused ≡ None
        → given_bytes delay commands (bytes ++ more) g
        ≡ (let p = given_bytes delay commands bytes g in
        further p.taken (given_bytes delay commands (drop p.taken bytes ++ more) p.given)) }
{}

/// The first 68 bytes, joined, are the summary, whatever pieces they come in.
#[tactic(auto, using(crate::proofs::PieceLaws::part_of_summary, crate::proofs::PieceLaws::summary_bytes))]
pub fn the_first_bytes_are_the_summary()
    ensures part { (delay commands : ℤ) (bytes : List ℕ) (g : Given) → g.header ≡ None
        → length g.bytes + length bytes < 68 → given_bytes delay commands bytes g
        ≡ record {
          given = record g { bytes = g.bytes ++ bytes };
          taken = length bytes;
          refused = None;
        } }
    ensures whole { (delay commands : ℤ) (bytes : List ℕ) (n : ℕ) (g : Given) → g.header ≡ None
        → length g.bytes + suc n ≡ 68 → suc n ≤ length bytes → given_bytes delay commands bytes g
        ≡ (let o = with_summary_bytes (g.bytes ++ take (suc n) bytes) (record g { bytes = [] }) in
        then_given (suc n) (given_bytes delay commands (drop (suc n) bytes)) o.given o.refused) }
{}

/// The metrics that a window accepts are those of the joined bytes, and it holds them without as many from the front as frames were coded.
pub fn accepted_metrics_are_those_of_the_joined_bytes()
    ensures read { (events : List Event) (g : Given) → Reads g → AllTaken events g
        → HasRead (g.bytes ++ joined events g) (frames_coded events) g (given_after events g) }
    ensures determined { (bytes : List ℕ) (ms ns : List RCFrameMetrics) (rest end : List ℕ)
        → ArePackets bytes ms rest → ArePackets bytes ns end → (ms ≡ ns) × (rest ≡ end) }
{}

/// A packet that a window takes stands for the metrics that it accepts, last in order; bytes of an unfinished one stay.
#[tactic(auto, using(crate::proofs::JoinedLaws::packet_accepted))]
pub fn a_packet_is_accepted_as_its_metrics()
    ensures { (is_needed : Bool) (bytes : List ℕ) (g : Given) → g.is_finite ≡ true
        → (sent is_needed bytes g).refused ≡ None → Metric bytes (metrics_at bytes)
        × ((sent is_needed bytes g).given
        ≡ record g { window = with_taken (metrics_at bytes) g.window }) }
{}
