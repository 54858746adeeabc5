//! Tallies and windows of metrics.

ghost use Rattle.std.specs.Prelude.{◌≡◌};

use metrics_window::{MetricsWindow, Tally};
use pass_stats::RCFrameMetrics;
use std::alloc::Global;
use std::process::Abort;
use std::test::Fail;

/// Counts, sums of scales, shown frames, coded frames and all frames.
pub fn told_tally(alloc: Global, tally: &Tally) -> Result<String, Fail> {
    let counts = tally.counts.as_slice();
    let sums = tally.sums.as_slice();
    let coded = tally.coded_frames();
    let all = tally.all_frames();
    Ok(format!(in alloc; "{counts:?} {sums:?} {} {coded} {all}", tally.shown)?)
}

/// Metrics that come, or leave.
#[derive(Clone, Copy)]
enum Move {
    Come(u8, bool, i32),
    Leave(u8, bool, i32),
}

fn metrics(fti: u8, show_frame: bool, log_scale_q24: i32) -> RCFrameMetrics
    ensures { result.fti ≡ fti }
{
    RCFrameMetrics {
        log_scale_q24,
        fti,
        show_frame,
    }
}

#[test]
fn tallies_count_scales_and_shown_frames(rt: HostRuntime) -> Result<(), Fail> {
    let rows = [
        (
            Move::Come(0, true, 0),
            "[1, 0, 0, 0, 0] [16777216, 0, 0, 0] 1 1 1",
        ),
        (
            Move::Come(2, false, 1 << 24),
            "[1, 0, 1, 0, 0] [16777216, 0, 33554432, 0] 1 2 2",
        ),
        (
            Move::Come(4, true, 1 << 24),
            "[1, 0, 1, 0, 1] [16777216, 0, 33554432, 0] 2 2 3",
        ),
        (
            Move::Leave(2, false, 0),
            "[1, 0, 0, 0, 1] [16777216, 0, 16777216, 0] 2 1 2",
        ),
        (
            Move::Leave(4, true, 0),
            "[1, 0, 0, 0, 0] [16777216, 0, 16777216, 0] 1 1 1",
        ),
    ];
    let mut tally = Tally::new();
    for (by, expected) in rows {
        match by {
            Move::Come(fti, shown, log_scale) => {
                assert!(rt; fti <= 4);
                tally.add(&metrics(fti, shown, log_scale));
            }
            Move::Leave(fti, shown, log_scale) => {
                assert!(rt; fti <= 4);
                tally.take_off(&metrics(fti, shown, log_scale));
            }
        }
        assert_eq!(rt; told_tally(rt.alloc(), &tally)?.as_str(), expected);
    }
    Ok(())
}

/// How many metrics are held, whether that is all, how many frames are shown, and from the last key frame on; the first subtype,
/// show flag and scale; the tally.
fn told_window(alloc: Global, window: &MetricsWindow) -> Result<String, Fail> {
    let (fti, flag, scale) = match window.first() {
        Some(m) => (m.fti, m.show_frame, m.log_scale_q24),
        None => (9, false, 0),
    };
    let length = window.len();
    let full = window.is_full();
    let shown = window.shown();
    let late = window.shown_from_last_key();
    let tally = told_tally(alloc, &window.tally())?;
    Ok(format!(in alloc; "{length} {full} {shown} {late}: {fti} {flag} {scale}: {tally}")?)
}

/// The first metrics leave, so many times, and others come.
fn change(rt: &impl Abort, window: &mut MetricsWindow, leave: u8, come: &[(u8, bool, i32)]) {
    for _ in 0..leave {
        window.pop();
    }
    for (fti, shown, log_scale) in come {
        assert!(rt; *fti <= 4 && !window.is_full());
        window.push(metrics(*fti, *shown, *log_scale));
    }
}

/// How many leave, what comes, and what is told then.
type Row = (u8, &'static [(u8, bool, i32)], &'static str);

#[test]
fn windows_give_metrics_in_order(rt: HostRuntime) -> Result<(), Fail> {
    let alloc = rt.alloc();
    let rows: [Row; 5] = [
        (
            0,
            &[],
            "0 false 0 0: 9 false 0: [0, 0, 0, 0, 0] [0, 0, 0, 0] 0 0 0",
        ),
        (
            0,
            &[(0, true, 0)],
            "1 false 1 0: 0 true 0: [1, 0, 0, 0, 0] [16777216, 0, 0, 0] 1 1 1",
        ),
        (
            0,
            &[(1, false, 1 << 24)],
            "2 true 1 0: 0 true 0: [1, 1, 0, 0, 0] [16777216, 33554432, 0, 0] 1 2 2",
        ),
        (
            1,
            &[(4, true, 0)],
            "2 true 1 0: 1 false 16777216: [0, 1, 0, 0, 1] [0, 33554432, 0, 0] 1 1 2",
        ),
        (
            3,
            &[],
            "0 false 0 0: 9 false 0: [0, 0, 0, 0, 0] [0, 0, 0, 0] 0 0 0",
        ),
    ];
    assert_eq!(rt; MetricsWindow::new(alloc).len(), 0);
    let mut window = MetricsWindow::with_room(alloc, 2)?;
    for (leave, come, expected) in rows {
        change(&rt, &mut window, leave, come);
        assert_eq!(rt; told_window(alloc, &window)?.as_str(), expected);
    }
    Ok(())
}

#[test]
fn the_last_key_frame_ends_the_look_ahead(rt: HostRuntime) -> Result<(), Fail> {
    let alloc = rt.alloc();
    let rows: [Row; 2] = [
        (
            0,
            &[(0, true, 0), (1, true, 0)],
            "[1, 1, 0, 0, 0] [16777216, 16777216, 0, 0] 2 2 2",
        ),
        (
            0,
            &[(0, true, 0), (2, false, 0), (0, true, 0), (4, true, 0)],
            "[2, 1, 1, 0, 0] [33554432, 16777216, 16777216, 0] 3 4 4",
        ),
    ];
    let mut window = MetricsWindow::with_room(alloc, 8)?;
    for (leave, come, expected) in rows {
        change(&rt, &mut window, leave, come);
        assert_eq!(rt;
            told_tally(alloc, &window.before_last_key())?.as_str(),
            expected
        );
    }
    Ok(())
}
