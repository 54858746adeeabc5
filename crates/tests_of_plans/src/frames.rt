//! Sizes of planes, frames that have them, and which frames fit which settings.

use av1_frame::{ChromaSampling, Frame, Pixel, sizes};
use std::alloc::Global;
use std::test::Fail;

/// The sizes of a frame's planes, each with its number of samples, and whether the frame fits its own size, another
/// width, 4:0:0 and 4:4:4.
fn told<T: Pixel>(
    alloc: Global,
    width: usize,
    height: usize,
    chroma: ChromaSampling,
) -> Result<String, Fail> {
    let frame: Frame<T> = Frame::new(alloc, width.min(100), height.min(100), chroma)?;
    let mut text = String::new(alloc);
    for i in 0..3 {
        let plane = frame.plane(i);
        let samples = plane.pixels.len();
        write!(text, "{} x {} = {samples}, ", plane.width, plane.height)?;
    }
    for (width, chroma) in [
        (width, chroma),
        (32, chroma),
        (width, ChromaSampling::Cs400),
        (width, ChromaSampling::Cs444),
    ] {
        let word = if frame.fits(width, height, chroma) {
            "fits "
        } else {
            "doesn't "
        };
        text.push_str(word)?;
    }
    Ok(text)
}

#[test]
fn planes_have_their_sizes(rt: HostRuntime) -> Result<(), Fail> {
    for (width, height, chroma, planes, text) in [
        (
            16,
            16,
            ChromaSampling::Cs420,
            [(16, 16), (8, 8), (8, 8)],
            "16 x 16 = 256, 8 x 8 = 64, 8 x 8 = 64, fits doesn't fits doesn't ",
        ),
        (
            17,
            15,
            ChromaSampling::Cs420,
            [(17, 15), (9, 8), (9, 8)],
            "17 x 15 = 255, 9 x 8 = 72, 9 x 8 = 72, fits doesn't fits doesn't ",
        ),
        (
            17,
            15,
            ChromaSampling::Cs422,
            [(17, 15), (9, 15), (9, 15)],
            "17 x 15 = 255, 9 x 15 = 135, 9 x 15 = 135, fits doesn't fits doesn't ",
        ),
        (
            17,
            15,
            ChromaSampling::Cs444,
            [(17, 15), (17, 15), (17, 15)],
            "17 x 15 = 255, 17 x 15 = 255, 17 x 15 = 255, fits doesn't fits fits ",
        ),
        (
            17,
            15,
            ChromaSampling::Cs400,
            [(17, 15), (0, 0), (0, 0)],
            "17 x 15 = 255, 0 x 0 = 0, 0 x 0 = 0, fits doesn't fits doesn't ",
        ),
    ] {
        assert_eq!(rt; sizes(width, height, chroma), planes);
        let frame = told::<u8>(rt.alloc(), width, height, chroma)?;
        assert_eq!(rt; frame.as_str(), text);
    }
    Ok(())
}

#[test]
fn samplings_are_in_order(rt: HostRuntime) {
    for (sampling, place) in [
        (ChromaSampling::Cs420, 0),
        (ChromaSampling::Cs422, 1),
        (ChromaSampling::Cs444, 2),
        (ChromaSampling::Cs400, 3),
    ] {
        assert_eq!(rt; sampling as u8, place);
    }
}

#[test]
fn a_deep_frame_without_chroma_fits_by_luma(rt: HostRuntime) -> Result<(), Fail> {
    let frame = told::<u16>(rt.alloc(), 16, 16, ChromaSampling::Cs420)?;
    let text = "16 x 16 = 256, 8 x 8 = 64, 8 x 8 = 64, fits doesn't fits doesn't ";
    assert_eq!(rt; frame.as_str(), text);
    Ok(())
}

#[test]
fn pixels_have_their_bits_and_begin_at_the_least(rt: HostRuntime) -> Result<(), Fail> {
    assert_eq!(rt; [<u8 as Pixel>::BITS, <u16 as Pixel>::BITS], [8, 16]);
    let frame: Frame<u16> = Frame::new(rt.alloc(), 16, 16, ChromaSampling::Cs420)?;
    assert!(rt; matches!(frame.y.pixels.as_slice().first(), Some(0)));
    Ok(())
}
