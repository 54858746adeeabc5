ghost use Rattle.std.specs.Prelude.{◌≡◌};

/// A fraction. It isn't reduced, and nothing keeps its parts above 0.
#[derive(Clone, Copy, Debug)]
pub struct Rational {
    /// The numerator.
    pub num: u64,
    /// The denominator.
    pub den: u64,
}

impl Rational {
    /// `num` over `den`.
    pub fn new(num: u64, den: u64) -> Rational
        ensures { result ≡ record { num = num; den = den } }
    {
        Rational { num, den }
    }

    /// One over this fraction: its two parts swapped.
    pub fn from_reciprocal(reciprocal: Rational) -> Rational
        ensures { result ≡ record { num = reciprocal.den; den = reciprocal.num } }
    {
        Rational {
            num: reciprocal.den,
            den: reciprocal.num,
        }
    }
}
