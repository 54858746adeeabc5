//! Code points of colours, and which content has a high dynamic range.

use av1_settings::{
    ChromaSamplePosition, ChromaticityPoint, ColorDescription, ColorPrimaries, ContentLight,
    EncoderConfig, MasteringDisplay, MatrixCoefficients, PixelRange, TransferCharacteristics,
};

#[test]
fn primaries_have_their_code_points(rt: HostRuntime) {
    for (primaries, code) in [
        (ColorPrimaries::BT709, 1),
        (ColorPrimaries::Unspecified, 2),
        (ColorPrimaries::default(), 2),
        (ColorPrimaries::BT470M, 4),
        (ColorPrimaries::BT470BG, 5),
        (ColorPrimaries::BT601, 6),
        (ColorPrimaries::SMPTE240, 7),
        (ColorPrimaries::GenericFilm, 8),
        (ColorPrimaries::BT2020, 9),
        (ColorPrimaries::XYZ, 10),
        (ColorPrimaries::SMPTE431, 11),
        (ColorPrimaries::SMPTE432, 12),
        (ColorPrimaries::EBU3213, 22),
    ] {
        assert_eq!(rt; primaries as u8, code);
    }
}

#[test]
fn transfers_have_their_code_points(rt: HostRuntime) {
    for (transfer, code) in [
        (TransferCharacteristics::BT709, 1),
        (TransferCharacteristics::Unspecified, 2),
        (TransferCharacteristics::default(), 2),
        (TransferCharacteristics::BT470M, 4),
        (TransferCharacteristics::BT470BG, 5),
        (TransferCharacteristics::BT601, 6),
        (TransferCharacteristics::SMPTE240, 7),
        (TransferCharacteristics::Linear, 8),
        (TransferCharacteristics::Log100, 9),
        (TransferCharacteristics::Log100Sqrt10, 10),
        (TransferCharacteristics::IEC61966, 11),
        (TransferCharacteristics::BT1361, 12),
        (TransferCharacteristics::SRGB, 13),
        (TransferCharacteristics::BT2020_10Bit, 14),
        (TransferCharacteristics::BT2020_12Bit, 15),
        (TransferCharacteristics::SMPTE2084, 16),
        (TransferCharacteristics::SMPTE428, 17),
        (TransferCharacteristics::HLG, 18),
    ] {
        assert_eq!(rt; transfer as u8, code);
    }
}

#[test]
fn matrices_have_their_code_points(rt: HostRuntime) {
    for (matrix, code) in [
        (MatrixCoefficients::Identity, 0),
        (MatrixCoefficients::BT709, 1),
        (MatrixCoefficients::Unspecified, 2),
        (MatrixCoefficients::default(), 2),
        (MatrixCoefficients::FCC, 4),
        (MatrixCoefficients::BT470BG, 5),
        (MatrixCoefficients::BT601, 6),
        (MatrixCoefficients::SMPTE240, 7),
        (MatrixCoefficients::YCgCo, 8),
        (MatrixCoefficients::BT2020NCL, 9),
        (MatrixCoefficients::BT2020CL, 10),
        (MatrixCoefficients::SMPTE2085, 11),
        (MatrixCoefficients::ChromatNCL, 12),
        (MatrixCoefficients::ChromatCL, 13),
        (MatrixCoefficients::ICtCp, 14),
    ] {
        assert_eq!(rt; matrix as u8, code);
    }
}

#[test]
fn positions_and_ranges_have_their_code_points(rt: HostRuntime) {
    for (position, code) in [
        (ChromaSamplePosition::default(), 0),
        (ChromaSamplePosition::Unknown, 0),
        (ChromaSamplePosition::Vertical, 1),
        (ChromaSamplePosition::Colocated, 2),
    ] {
        assert_eq!(rt; position as u8, code);
    }
    for (range, code) in [
        (PixelRange::default(), 0),
        (PixelRange::Limited, 0),
        (PixelRange::Full, 1),
    ] {
        assert_eq!(rt; range as u8, code);
    }
}

/// A display that content was mastered on, and how bright the content is.
fn mastered(enc: &mut EncoderConfig) {
    let point = ChromaticityPoint { x: 20493, y: 21562 };
    enc.mastering_display = Some(MasteringDisplay {
        primaries: [point; 3],
        white_point: point,
        max_luminance: 256000,
        min_luminance: 1,
    });
    enc.content_light = Some(ContentLight {
        max_content_light_level: 1000,
        max_frame_average_light_level: 400,
    });
}

fn colored(transfer_characteristics: TransferCharacteristics) -> ColorDescription {
    ColorDescription {
        color_primaries: ColorPrimaries::BT2020,
        transfer_characteristics,
        matrix_coefficients: MatrixCoefficients::BT2020NCL,
    }
}

#[test]
fn the_perceptual_quantizer_alone_is_high_dynamic_range(rt: HostRuntime) {
    for (is_mastered, transfer, want) in [
        (false, None, false),
        (true, None, false),
        (true, Some(TransferCharacteristics::SMPTE2084), true),
        (true, Some(TransferCharacteristics::HLG), false),
    ] {
        let mut enc = EncoderConfig::default();
        if is_mastered {
            mastered(&mut enc);
        }
        enc.color_description = transfer.map(colored);
        assert_eq!(rt; enc.is_hdr(), want);
    }
}
