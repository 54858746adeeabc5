ghost use Rattle.std.specs.Prelude.{◌≡◌, ◌≤◌, ◌<◌, IfOk, slice_get};
ghost use Rattle.av1_frame.specs.Sizes.{chroma_size};
ghost use Rattle.av1_frame.specs.Planes.{IsFilled, fits, has_size, planes_of};

use crate::{ChromaSampling, Pixel, sizes};
use coding_base::{OutOfMemory, Sequence};
use std::alloc::Global;

/// Samples, row by row.
pub type Pixels<T> = Sequence<T>;

/// One plane of a frame.
#[derive(Debug, Drop)]
pub struct Plane<T> {
    /// The samples, row by row.
    pub pixels: Pixels<T>,
    /// Samples in a row.
    pub width: usize,
    /// Rows.
    pub height: usize,
}

/// A picture: a luma plane and two chroma planes, which 4:0:0 leaves empty.
#[derive(Debug, Drop)]
pub struct Frame<T> {
    /// Luma.
    pub y: Plane<T>,
    /// Blue-difference chroma.
    pub u: Plane<T>,
    /// Red-difference chroma.
    pub v: Plane<T>,
}

impl<T: Pixel> Plane<T> {
    fn filled(alloc: Global, size: (usize, usize)) -> Result<Plane<T>, OutOfMemory>
        requires wide { size.0 ≤ 65535 }
        requires high { size.1 ≤ 65535 }
        ensures { IfOk result (λ plane. IsFilled T.MIN plane size) }
    {
        let (width, height) = size;
        let mut pixels = Vec::new(alloc);
        pixels.resize(width * height, T::MIN)?;
        Ok(Plane {
            pixels: Sequence::from_vec(pixels),
            width,
            height,
        })
    }
}

impl<T> Plane<T> {
    fn has_size(&self, size: (usize, usize)) -> bool
        ensures { result ≡ has_size self.now size }
    {
        self.width == size.0 && self.height == size.1
    }
}

impl<T: Pixel> Frame<T> {
    /// A frame with planes of these sizes (`sizes`), each sample the least one. The size is at most 65535 each way.
    pub fn new(
        alloc: Global,
        width: usize,
        height: usize,
        chroma: ChromaSampling,
    ) -> Result<Frame<T>, OutOfMemory>
        requires wide { width ≤ 65535 }
        requires high { height ≤ 65535 }
        ensures y { IfOk result (λ frame. IsFilled T.MIN frame.y (width, height)) }
        ensures u { IfOk result
            (λ frame. IsFilled T.MIN frame.u (chroma_size width height chroma)) }
        ensures v { IfOk result
            (λ frame. IsFilled T.MIN frame.v (chroma_size width height chroma)) }
    {
        let [luma, chroma_u, chroma_v] = sizes(width, height, chroma);
        Ok(Frame {
            y: Plane::filled(alloc, luma)?,
            u: Plane::filled(alloc, chroma_u)?,
            v: Plane::filled(alloc, chroma_v)?,
        })
    }
}

impl<T> Frame<T> {
    /// Plane 0, 1 or 2: y, u or v.
    pub fn plane(&self, i: usize) -> &Plane<T>
        requires { i < 3 }
        ensures { slice_get (planes_of self.now) i ≡ Some result.now }
    {
        match i {
            0 => &self.y,
            1 => &self.u,
            _ => &self.v,
        }
    }

    /// Whether the planes have the sizes that `sizes` gives for this size and sampling; for 4:0:0 only luma is looked at.
    pub fn fits(&self, width: usize, height: usize, chroma: ChromaSampling) -> bool
        ensures { result ≡ fits self.now width height chroma }
    {
        let [luma, chroma_u, chroma_v] = sizes(width, height, chroma);
        self.y.has_size(luma)
            && (matches!(chroma, ChromaSampling::Cs400)
                || self.u.has_size(chroma_u) && self.v.has_size(chroma_v))
    }
}
