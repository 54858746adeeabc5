//! Models of frame subtypes, and searches over them.

use rate_model::{
    FRAME_NSUBTYPES, FRAME_SUBTYPE_B0, FRAME_SUBTYPE_B1, FRAME_SUBTYPE_I, FRAME_SUBTYPE_P,
    FRAME_SUBTYPE_SEF, RateModel, SubtypeState, modulated, power_log, search_base_q,
    start_subtypes, subtype_offset, wide,
};

#[test]
fn searches_with_no_frames_ahead(rt: HostRuntime) {
    let model = RateModel {
        nframes: [0; 5],
        log_scale: [0; 4],
        exp: [1; 4],
        log_npixels: 0,
    };
    for (budget, value, probes) in [(0, 5, 1), (1, -1, 3), (-1, 10, 3)] {
        let search = search_base_q(&model, budget, 0, 10);
        assert_eq!(rt;
            [search.value, search.probes as i64],
            [value, probes],
            "for {budget}"
        );
    }
}

#[test]
fn exponents_by_pixels_for_each_bit(rt: HostRuntime) {
    for (pixels_per_bit, exponents) in [(0, [48, 69, 84, 87]), (500, [77, 83, 68, 61])] {
        for (subtype, exponent) in start_subtypes(pixels_per_bit).iter().zip(exponents) {
            assert_eq!(rt; subtype.exponent(), exponent, "at {pixels_per_bit}");
        }
    }
}

#[test]
fn a_frame_without_bits(rt: HostRuntime) {
    let mut key = SubtypeState::new(64, 8, 4);
    assert_eq!(rt;
        [key.log_scale(), key.current(), key.frames() as i64],
        [0, 0, 0]
    );
    key.take(0, 12, 0, 0, true, 0, false);
    assert_eq!(rt; [key.log_scale(), key.frames() as i64], [0, 1]);
    assert_eq!(rt; key.estimate(0, power_log(0, 64)), 1);
    assert_eq!(rt; wide::quotient(wide::times(-7, 1), 2), -3);
}

#[test]
fn offsets_of_subtypes(rt: HostRuntime) {
    assert_eq!(rt; [FRAME_NSUBTYPES, FRAME_SUBTYPE_SEF], [4, 4]);
    for (subtype, offset) in [
        (FRAME_SUBTYPE_I, -56_629_159_325_661_976),
        (FRAME_SUBTYPE_P, 0),
        (FRAME_SUBTYPE_B0, 56_629_159_325_661_976),
        (FRAME_SUBTYPE_B1, 113_258_318_651_323_952),
    ] {
        assert!(rt; subtype < 4);
        assert_eq!(rt; subtype_offset(subtype), offset);
        for (base, more) in [(2047, 0_i64), (2048, 4096)] {
            assert_eq!(rt; modulated(base, subtype), offset as i128 + more as i128);
        }
    }
}
