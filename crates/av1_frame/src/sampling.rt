ghost use Rattle.std.specs.Prelude.{◌≡◌};
ghost use Rattle.av1_frame.specs.Sizes.{plane_sizes};

/// How the two chroma planes are subsampled against luma (the AV1 specification's subsampling_x and subsampling_y).
#[derive(Clone, Copy, Debug, PartialEq, Eq)]
pub enum ChromaSampling {
    /// Half the width and half the height.
    Cs420,
    /// Half the width.
    Cs422,
    /// The full size.
    Cs444,
    /// No chroma planes.
    Cs400,
}

/// The width and height of the planes y, u and v of a frame. Halves go up. No memory is taken.
pub fn sizes(width: usize, height: usize, chroma: ChromaSampling) -> [(usize, usize); 3]
    ensures { result ≡ plane_sizes width height chroma }
{
    let half_width = width / 2 + width % 2;
    let half_height = height / 2 + height % 2;
    let plane = match chroma {
        ChromaSampling::Cs420 => (half_width, half_height),
        ChromaSampling::Cs422 => (half_width, height),
        ChromaSampling::Cs444 => (width, height),
        ChromaSampling::Cs400 => (0, 0),
    };
    [(width, height), plane, plane]
}
