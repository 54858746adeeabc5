/// A sample of a plane.
pub trait Pixel: Copy + Send + Sync {
    ghost use Rattle.std.specs.Prelude.{ℕ};

    /// The most bits that a sample has.
    const BITS: usize;

    ghost BITS: { ℕ };

    /// The least sample, which a new frame is filled with.
    const MIN: Self;

    ghost MIN: { Self };
}

impl Pixel for u8 {
    const BITS: usize = 8;

    ghost BITS = { 8 };

    const MIN: u8 = 0;

    ghost MIN = { 0 };
}

impl Pixel for u16 {
    const BITS: usize = 16;

    ghost BITS = { 16 };

    const MIN: u16 = 0;

    ghost MIN = { 0 };
}
