ghost use Rattle.std.specs.Prelude.{◌≡◌, ◌≤◌, IsTrue};
ghost use Rattle.av1_settings.specs.Blocks.{block_width, block_height, is_range};

use crate::BlockSize;

/// The sizes of the square blocks that are tried. Both ends are square, and the largest is at least as wide as the smallest.
#[derive(Clone, Copy, Debug)]
pub struct PartitionRange {
    pub(crate) min: BlockSize,
    pub(crate) max: BlockSize,
    pub ghost ordered: { IsTrue (is_range min max) },
}

impl PartitionRange {
    ghost use Rattle.av1_settings.specs.Partitions.{partition_range, smallest_block, largest_block};

    /// From the smallest to the largest, both square.
    pub fn new(min: BlockSize, max: BlockSize) -> PartitionRange
        requires square_min { block_width min ≡ block_height min }
        requires square_max { block_width max ≡ block_height max }
        requires ordered { block_width min ≤ block_width max }
        ensures { (ordered : IsTrue (is_range min max)) → result ≡ partition_range min max ordered }
    {
        PartitionRange { min, max }
    }

    /// The smallest.
    pub fn min(&self) -> BlockSize
        ensures { result ≡ smallest_block self.now }
    {
        self.min
    }

    /// The largest.
    pub fn max(&self) -> BlockSize
        ensures { result ≡ largest_block self.now }
    {
        self.max
    }
}
