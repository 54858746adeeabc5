ghost use Rattle.std.specs.Prelude.{◌≡◌, ℕ, ◌^◌, ◌<◌, ◌≤◌, pos, ◌+ℤ◌, ◌≤ℤ◌};
ghost use Rattle.fixed_log.specs.Within.{IsWithin};
ghost use Rattle.rate_model.specs.Subtype.{subtype_at};
ghost use Rattle.ratecontrol.specs.Select.{fill_of, log_bits_of, target_of};

use crate::ahead::Ahead;
use crate::state::RCState;
use rate_model::modulated;
use reservoir::fill::Reservoir;
use reservoir::powers::sum_of_logs;

impl RCState {
    /// What the reservoir holds, and can hold.
    fn fill(&self) -> Reservoir
        ensures { result ≡ fill_of self.now }
    {
        Reservoir::new(self.reservoir, self.most, self.bits_per_tu)
    }

    /// The logarithm of the frame's bits at quantiser 1.
    fn log_bits(&self, ahead: &Ahead) -> i128
        ensures value { result ≡ log_bits_of self.now ahead.now }
        ensures within { IsWithin (2 ^ 64) result }
    {
        sum_of_logs(ahead.current, self.log_npixels)
    }

    /// The quantiser that a frame aims at, from the base, as far as the reservoir asks for another.
    #[tactic(auto, unfolding(crate::specs::Select::target_of))]
    pub(crate) fn target(&self, ahead: &Ahead, fti: usize, base: i64) -> i64
        requires { fti < 4 }
        ensures { result ≡ target_of self.now ahead.now fti base }
    {
        let exponent = self.subtypes[fti].exponent();
        let log_bits = self.log_bits(ahead);
        let fill = self.fill();
        let target = fill.target_against_overflow(log_bits, exponent, modulated(base, fti));
        fill.target_against_underflow(self.greatest, log_bits, exponent, target)
    }
}
