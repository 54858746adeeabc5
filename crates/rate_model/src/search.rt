ghost use Rattle.std.specs.Prelude.{◌≡◌, ℕ, suc, ◌+◌, ◌-◌, ◌≤◌, ◌<◌, ◌*◌, ◌^◌, IsTrue, ℤ, pos, negsuc, ◌+ℤ◌, ◌≤ℤ◌, ◌<ℤ◌};
ghost use Rattle.fixed_log.specs.Within.{IsWithin};
ghost use Rattle.rate_model.specs.Search.{middle as middle_of, rounded_of, bits, bisection, resumed, StaysWithin, TURNS, IsCertified};

use crate::model::RateModel;

/// What a search found.
#[derive(Clone, Copy, Debug, PartialEq, Eq)]
pub struct Search {
    /// The base quantiser.
    pub value: i64,
    /// How often bits were compared with the budget.
    pub probes: u32,
}

/// The values that are still looked at, ends included.
#[derive(Clone, Copy)]
struct Span {
    lo: i64,
    hi: i64,
}

/// What a probe of the middle tells.
#[derive(Clone, Copy)]
enum Probe {
    /// The middle takes just the budget.
    Found(i64),
    /// The value, if any, lies here.
    Narrowed(Span),
}

/// The middle of a span, rounded down.
fn middle(span: Span) -> i64
    ensures value { result ≡ middle_of span.lo span.hi }
{
    ((span.lo as i128 + span.hi as i128) >> 1) as i64
}

/// The bits at a base.
#[derive(Clone, Copy)]
struct Probed {
    base: i64,
    bits: i128,
}

/// What of a base the bits depend on.
fn rounded(base: i64) -> i64
    ensures { result ≡ rounded_of base }
{
    ((base as i128 + 2048) >> 12) as i64
}

/// Whether two bases are rounded alike: all bits are then the same.
fn are_rounded_alike(a: i64, b: i64) -> bool
    ensures { IsTrue result → rounded_of a ≡ rounded_of b }
{
    rounded(a) == rounded(b)
}

/// The bits at a base: those of the last one that was probed, where both are rounded alike.
fn bits_at(model: &RateModel, last: Probed, base: i64) -> i128
    requires { last.bits ≡ bits model.now last.base }
    ensures { result ≡ bits model.now base }
{
    if are_rounded_alike(last.base, base) {
        last.bits
    } else {
        model.bits(base)
    }
}

/// Narrows a span by the bits at its middle, `q`.
fn narrowed(budget: i128, span: Span, q: i64, bits: i128) -> Probe
    requires wide { span.lo <ℤ span.hi }
    requires low { negsuc (2 ^ 62 - 1) ≤ℤ span.lo }
    requires middle { q ≡ middle_of span.lo span.hi }
    ensures turn { (bits_of : ℤ → ℤ) (turns : ℕ) → bits ≡ bits_of q
        → bisection bits_of budget (suc turns) span.lo span.hi
        ≡ resumed bits_of budget turns result }
    ensures low { StaysWithin span result }
{
    if budget < bits {
        Probe::Narrowed(Span {
            lo: q + 1,
            hi: span.hi,
        })
    } else if bits < budget {
        Probe::Narrowed(Span {
            lo: span.lo,
            hi: q - 1,
        })
    } else {
        Probe::Found(q)
    }
}

/// The search itself.
fn bisected(model: &RateModel, budget: i128, lo: i64, hi: i64) -> Search
    requires lo { IsWithin (2 ^ 62) lo }
    requires hi { IsWithin (2 ^ 62) hi }
    ensures value { result ≡ bisection (bits model.now) budget TURNS lo hi }
    ensures most { result.probes ≤ 64 }
{
    let mut span = Span { lo, hi };
    let mut last = Probed {
        base: lo,
        bits: model.bits(lo),
    };
    for turn in 0..64 {
        if span.lo >= span.hi {
            return Search {
                value: middle(span),
                probes: turn,
            };
        }
        let q = middle(span);
        last = Probed {
            base: q,
            bits: bits_at(model, last, q),
        };
        match narrowed(budget, span, q, last.bits) {
            Probe::Found(value) => {
                return Search {
                    value,
                    probes: turn + 1,
                };
            }
            Probe::Narrowed(next) => span = next,
        }
    }
    Search {
        value: middle(span),
        probes: 64,
    }
}

/// The base quantiser at which the frames of `model` take `budget` bits, between `lo` and `hi`, which lie within `2^62`
/// of 0: rav1e's bisection over the quantiser's logarithm.
///
/// The answer is that of the bisection whatever the model is, also where bits don't fall as the quantiser rises.
pub fn search_base_q(model: &RateModel, budget: i128, lo: i64, hi: i64) -> Search
    requires lo { IsWithin (2 ^ 62) lo }
    requires hi { IsWithin (2 ^ 62) hi }
    ensures value { result ≡ bisection (bits model.now) budget TURNS lo hi }
    ensures most { result.probes ≤ 64 }

    // The turns were enough: any more change nothing.
    ensures ended { (more : ℕ) → bisection (bits model.now) budget (TURNS + more) lo hi ≡ result }
    ensures certified { IsCertified (bits model.now) budget lo hi result.value }
{
    bisected(model, budget, lo, hi)
}
