//! Rows of the place table: which input stands at a place of a group, on which level, and where it is shown.
#![tactic(auto, unfolding(pyramid::specs::Rows::rows))]

ghost use Rattle.std.specs.Prelude.{◌≡◌};

use crate::pyramids::write_slots;
use av1_settings::EncoderConfig;
use pyramid::InterConfig;
use std::test::Fail;

/// A pyramid of depth 2 with several references.
fn reordered() -> InterConfig
    ensures { result.depth ≡ 2 }
{
    let mut enc = EncoderConfig::default();
    enc.low_latency = false;
    enc.switch_frame_interval = 0;
    InterConfig::new(&enc)
}

/// Depth 0 with several references, and a switch frame in every second place.
fn straight() -> InterConfig
    ensures { result.depth ≡ 0 }
{
    let mut enc = EncoderConfig::default();
    enc.low_latency = true;
    enc.speed_settings.multiref = true;
    enc.switch_frame_interval = 2;
    InterConfig::new(&enc)
}

#[test]
fn places_of_a_pyramid(rt: HostRuntime) {
    let cfg = reordered();
    let inputs = [
        cfg.get_input_frameno(0, 5),
        cfg.get_input_frameno(1, 5),
        cfg.get_input_frameno(2, 5),
        cfg.get_input_frameno(3, 5),
    ];
    assert_eq!(rt; inputs, [5, 9, 7, 6]);
    assert_eq!(rt; [cfg.get_idx_in_group_output(11), cfg.get_level(4)], [4, 2]);
    assert_eq!(rt; [cfg.get_order_hint(11, 4), cfg.get_slot_idx(2, 7)], [7, 5]);
    let shown = [
        cfg.get_show_frame(1),
        cfg.get_show_frame(3),
        cfg.get_show_existing_frame(1),
        cfg.get_show_existing_frame(3),
    ];
    assert_eq!(rt; shown, [false, true, false, true]);
    assert_eq!(rt; [cfg.keyframe_lookahead_distance(), cfg.ahead()], [5, 6]);
}

#[test]
fn slots_of_position_seven(rt: HostRuntime) -> Result<(), Fail> {
    let mut slots = String::new(rt.alloc());
    write_slots(&mut slots, &reordered().refs_of(2, 7))?;
    assert_eq!(rt; slots.as_str(), "425");
    Ok(())
}

#[test]
fn places_without_reordering(rt: HostRuntime) {
    let cfg = straight();
    let numbers = [
        cfg.get_input_frameno(3, 5),
        cfg.get_level(0),
        cfg.place(3).position,
        cfg.ahead(),
    ];
    assert_eq!(rt; numbers, [8, 0, 3, 3]);
    assert!(rt; cfg.get_show_frame(0));
}

#[test]
fn rows_of_the_place_table(rt: HostRuntime) {
    let cfg = reordered();
    let row = cfg.place(11);
    assert_eq!(rt; [row.position, row.level], [7, 2]);
    let shown = [row.shown, row.show_existing, cfg.place(4).show_existing];
    assert_eq!(rt; shown, [true, false, true]);
}
