ghost use Rattle.std.specs.Prelude.{◌≡◌};
ghost use Rattle.av1_settings.specs.Blocks.{block_width, block_height, is_square};

use std::fmt;

/// The size of a block in luma samples, width by height (the AV1 specification's BLOCK_ values, in their order).
#[derive(Clone, Copy, Debug, PartialEq, Eq)]
pub enum BlockSize {
    BLOCK_4X4,
    BLOCK_4X8,
    BLOCK_8X4,
    BLOCK_8X8,
    BLOCK_8X16,
    BLOCK_16X8,
    BLOCK_16X16,
    BLOCK_16X32,
    BLOCK_32X16,
    BLOCK_32X32,
    BLOCK_32X64,
    BLOCK_64X32,
    BLOCK_64X64,
    BLOCK_64X128,
    BLOCK_128X64,
    BLOCK_128X128,
    BLOCK_4X16,
    BLOCK_16X4,
    BLOCK_8X32,
    BLOCK_32X8,
    BLOCK_16X64,
    BLOCK_64X16,
}

impl BlockSize {
    /// The width in samples.
    pub fn width(self) -> usize
        ensures { result ≡ block_width self }
    {
        match self {
            BlockSize::BLOCK_4X4 | BlockSize::BLOCK_4X8 | BlockSize::BLOCK_4X16 => 4,
            BlockSize::BLOCK_8X4
            | BlockSize::BLOCK_8X8
            | BlockSize::BLOCK_8X16
            | BlockSize::BLOCK_8X32 => 8,
            BlockSize::BLOCK_16X4
            | BlockSize::BLOCK_16X8
            | BlockSize::BLOCK_16X16
            | BlockSize::BLOCK_16X32
            | BlockSize::BLOCK_16X64 => 16,
            BlockSize::BLOCK_32X8
            | BlockSize::BLOCK_32X16
            | BlockSize::BLOCK_32X32
            | BlockSize::BLOCK_32X64 => 32,
            BlockSize::BLOCK_64X16
            | BlockSize::BLOCK_64X32
            | BlockSize::BLOCK_64X64
            | BlockSize::BLOCK_64X128 => 64,
            BlockSize::BLOCK_128X64 | BlockSize::BLOCK_128X128 => 128,
        }
    }

    /// The height in samples.
    pub fn height(self) -> usize
        ensures { result ≡ block_height self }
    {
        match self {
            BlockSize::BLOCK_4X4 | BlockSize::BLOCK_8X4 | BlockSize::BLOCK_16X4 => 4,
            BlockSize::BLOCK_4X8
            | BlockSize::BLOCK_8X8
            | BlockSize::BLOCK_16X8
            | BlockSize::BLOCK_32X8 => 8,
            BlockSize::BLOCK_4X16
            | BlockSize::BLOCK_8X16
            | BlockSize::BLOCK_16X16
            | BlockSize::BLOCK_32X16
            | BlockSize::BLOCK_64X16 => 16,
            BlockSize::BLOCK_8X32
            | BlockSize::BLOCK_16X32
            | BlockSize::BLOCK_32X32
            | BlockSize::BLOCK_64X32 => 32,
            BlockSize::BLOCK_16X64
            | BlockSize::BLOCK_32X64
            | BlockSize::BLOCK_64X64
            | BlockSize::BLOCK_128X64 => 64,
            BlockSize::BLOCK_64X128 | BlockSize::BLOCK_128X128 => 128,
        }
    }

    /// Whether the block is as wide as it is high.
    pub fn is_sqr(self) -> bool
        ensures { result ≡ is_square self }
    {
        self.width() == self.height()
    }
}

impl fmt::Display for BlockSize {
    ghost use Rattle.std.specs.Prelude.{Some};
    ghost use Rattle.av1_settings.specs.Texts.{block_size_text};

    ghost output = { λ size. Some (block_size_text size) };

    #[tactic(auto, unfolding(crate::specs::Texts::block_size_text))]
    fn fmt<W: fmt::Write>(&self, f: &mut fmt::Formatter<W>) -> fmt::Result {
        write!(f, "{}x{}", self.width(), self.height())
    }
}
