//! What settings and a configuration answer.

use av1_frame::ChromaSampling;
use av1_settings::{
    Config, EncoderConfig, FrameType, RateControlConfig, Rational, container_sequence_header,
};
use std::alloc::AllocError;

#[test]
fn an_interval_of_zero_is_the_greatest(rt: HostRuntime) {
    let mut enc = EncoderConfig::default();
    assert_eq!(rt; enc.key_frame_interval(), 240);
    enc.set_key_frame_interval(3, 0);
    assert_eq!(rt;
        [enc.min_key_frame_interval, enc.max_key_frame_interval],
        [3, 715827882]
    );
    enc.max_key_frame_interval = 0;
    assert_eq!(rt; enc.key_frame_interval(), 715827882);
}

#[test]
fn builders_keep_the_rest(rt: HostRuntime) -> Result<(), AllocError> {
    let config = Config::default()
        .with_threads(3)
        .with_rate_control(RateControlConfig::new().with_emit_data(true))
        .with_encoder_config(EncoderConfig::with_speed_preset(9))
        .with_parallel_gops(2);
    let copy = config.clone()?;
    assert_eq!(rt; [copy.threads, copy.slots], [3, 2]);
    let flags = [
        copy.rate_control.emit_data,
        copy.enc.speed_settings.transform.enable_inter_tx_split,
        RateControlConfig::default().emit_data,
    ];
    assert_eq!(rt; flags, [true, true, false]);
    Ok(())
}

#[test]
fn render_sizes_follow_the_aspect_ratio(rt: HostRuntime) {
    let mut enc = EncoderConfig::default();
    for (width, height, num, den, want) in [
        (640, 480, 1, 1, (640, 480)),
        (640, 480, 3, 2, (960, 480)),
        (640, 480, 2, 3, (640, 720)),
        // 16.5 and 16.25 lines
        (33, 11, 2, 3, (33, 17)),
        (33, 13, 4, 5, (33, 16)),
        (usize::MAX, 1, u64::MAX, 1, (usize::MAX, 1)),
    ] {
        enc.width = width;
        enc.height = height;
        enc.sample_aspect_ratio = Rational { num, den };
        assert!(rt; num > 0 && den > 0);
        assert_eq!(rt; enc.render_size(), want);
    }
}

#[test]
fn a_reciprocal_swaps_the_parts(rt: HostRuntime) {
    let rate = Rational::from_reciprocal(Rational::new(1, 30));
    assert_eq!(rt; [rate.num, rate.den], [30, 1]);
}

#[test]
fn frames_are_predicted_from_others_or_not(rt: HostRuntime) {
    for (frame_type, has_inter, all_intra) in [
        (FrameType::KEY, false, true),
        (FrameType::INTER, true, false),
        (FrameType::INTRA_ONLY, false, true),
        (FrameType::SWITCH, true, false),
    ] {
        let answers = [frame_type.has_inter(), frame_type.all_intra()];
        assert_eq!(rt; answers, [has_inter, all_intra]);
    }
}

#[test]
fn several_references_follow_from_reordering(rt: HostRuntime) {
    let mut enc = EncoderConfig::default();
    assert!(rt; !enc.temporal_rdo());
    enc.speed_settings.transform.tx_domain_distortion = false;
    assert!(rt; enc.temporal_rdo());
    enc.speed_settings.multiref = false;
    for (low_latency, multiref) in [(false, true), (true, false)] {
        enc.low_latency = low_latency;
        assert_eq!(rt; enc.multiref(), multiref);
    }
}

#[test]
fn headers_have_their_bytes(rt: HostRuntime) {
    let mut enc = EncoderConfig::default();
    for (bit_depth, sampling, want) in [
        (8, ChromaSampling::Cs420, [0x81, 0x1f, 0x0c, 0x00]),
        (8, ChromaSampling::Cs400, [0x81, 0x1f, 0x18, 0x00]),
        (10, ChromaSampling::Cs444, [0x81, 0x3f, 0x40, 0x00]),
        (12, ChromaSampling::Cs420, [0x81, 0x5f, 0x6c, 0x00]),
    ] {
        enc.bit_depth = bit_depth;
        enc.chroma_sampling = sampling;
        assert_eq!(rt; container_sequence_header(&enc), want);
    }
}
