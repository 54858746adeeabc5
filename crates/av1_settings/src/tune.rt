use std::fmt;

/// What distortion is measured by.
#[derive(Clone, Copy, Debug, PartialEq, Eq)]
pub enum Tune {
    /// The peak signal-to-noise ratio.
    Psnr,
    /// What a viewer sees.
    Psychovisual,
}

impl fmt::Display for Tune {
    ghost use Rattle.std.specs.Prelude.{Some};
    ghost use Rattle.av1_settings.specs.Texts.{tune_text};

    ghost output = { λ tune. Some (tune_text tune) };

    fn fmt<W: fmt::Write>(&self, f: &mut fmt::Formatter<W>) -> fmt::Result {
        f.write_str(match self {
            Tune::Psnr => "Psnr",
            Tune::Psychovisual => "Psychovisual",
        })
    }
}
