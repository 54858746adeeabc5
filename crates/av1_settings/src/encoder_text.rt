ghost use Rattle.std.specs.Prelude.{Some};
ghost use Rattle.std.specs.Fmt.{DisplaysOnOk};
ghost use Rattle.av1_settings.specs.EncoderText.{encoder_text, joined, spaced, rate_pairs, frame_pairs, filter_pairs, partition_pairs, transform_pairs, prediction_pairs};

use crate::{EncoderConfig, SpeedSettings};
use std::fmt;

/// One line of names and values, with a blank between them.
impl fmt::Display for EncoderConfig {
    ghost output = { λ enc. Some (encoder_text enc) };

    #[tactic(auto, unfolding(crate::specs::EncoderText::encoder_text))]
    fn fmt<W: fmt::Write>(&self, f: &mut fmt::Formatter<W>) -> fmt::Result {
        let speed = &self.speed_settings;
        write_rate(self, f)?;
        write_frames(self, f)?;
        write_filters(self, f)?;
        write_partition(speed, f)?;
        write_transform(speed, f)?;
        write_prediction(speed, f)
    }
}

fn write_rate<W: fmt::Write>(enc: &EncoderConfig, f: &mut fmt::Formatter<W>) -> fmt::Result
    ensures { DisplaysOnOk W.write_str_gives f.old result
        (Some (joined (rate_pairs enc.now))) f.new }
{
    write!(
        f,
        "keyint_min={} keyint_max={} quantizer={} bitrate={} min_quantizer={}",
        enc.min_key_frame_interval,
        enc.max_key_frame_interval,
        enc.quantizer,
        enc.bitrate,
        enc.min_quantizer
    )
}

fn write_frames<W: fmt::Write>(enc: &EncoderConfig, f: &mut fmt::Formatter<W>) -> fmt::Result
    ensures { DisplaysOnOk W.write_str_gives f.old result
        (Some (spaced (frame_pairs enc.now))) f.new }
{
    let multiref = enc.multiref();
    write!(
        f,
        " low_latency={} tune={} rdo_lookahead_frames={} multiref={}",
        enc.low_latency, enc.tune, enc.speed_settings.rdo_lookahead_frames, multiref
    )
}

fn write_filters<W: fmt::Write>(enc: &EncoderConfig, f: &mut fmt::Formatter<W>) -> fmt::Result
    ensures { DisplaysOnOk W.write_str_gives f.old result
        (Some (spaced (filter_pairs enc.now))) f.new }
{
    let speed = &enc.speed_settings;
    write!(
        f,
        " fast_deblock={} scene_detection_mode={} cdef={} lrf={} enable_timing_info={}",
        speed.fast_deblock,
        speed.scene_detection_mode,
        speed.cdef,
        speed.lrf,
        enc.enable_timing_info
    )
}

fn write_partition<W: fmt::Write>(speed: &SpeedSettings, f: &mut fmt::Formatter<W>) -> fmt::Result
    ensures { DisplaysOnOk W.write_str_gives f.old result
        (Some (spaced (partition_pairs speed.now))) f.new }
{
    let partition = &speed.partition;
    write!(
        f,
        " min_block_size={} max_block_size={} encode_bottomup={} non_square_partition_max_threshold={}",
        partition.partition_range.min,
        partition.partition_range.max,
        partition.encode_bottomup,
        partition.non_square_partition_max_threshold
    )
}

fn write_transform<W: fmt::Write>(speed: &SpeedSettings, f: &mut fmt::Formatter<W>) -> fmt::Result
    ensures { DisplaysOnOk W.write_str_gives f.old result
        (Some (spaced (transform_pairs speed.now))) f.new }
{
    let transform = &speed.transform;
    write!(
        f,
        " reduced_tx_set={} tx_domain_distortion={} tx_domain_rate={} rdo_tx_decision={}",
        transform.reduced_tx_set,
        transform.tx_domain_distortion,
        transform.tx_domain_rate,
        transform.rdo_tx_decision
    )
}

fn write_prediction<W: fmt::Write>(speed: &SpeedSettings, f: &mut fmt::Formatter<W>) -> fmt::Result
    ensures { DisplaysOnOk W.write_str_gives f.old result
        (Some (spaced (prediction_pairs speed.now))) f.new }
{
    write!(
        f,
        " prediction_modes={} fine_directional_intra={} include_near_mvs={} use_satd_subpel={}",
        speed.prediction.prediction_modes,
        speed.prediction.fine_directional_intra,
        speed.motion.include_near_mvs,
        speed.motion.use_satd_subpel
    )
}
