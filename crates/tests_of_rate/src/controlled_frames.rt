//! Frames that a rate controller codes one after the other, at every sampling, bit depth and subtype.

use crate::controllers::{Controller, Frame, PLAIN, Start, started};
use av1_frame::ChromaSampling;
use ratecontrol::QuantizerParameters;
use std::process::Abort;
use std::test::Fail;

/// The subtype, the bits, whether it is shown, and the mean scale; then what the search gave, base and target, the luma
/// AC index, and the reservoir afterwards. A show of a coded frame has no quantiser.
type Row = (usize, i64, bool, i64, i64, i64, i64, u8, i128);

const ROWS_420: [Row; 8] = [
    (
        0,
        60_000,
        true,
        0,
        517_367_306_079_676_416,
        517_367_306_079_676_416,
        460_738_146_754_016_488,
        8,
        2_358_064,
    ),
    (
        1,
        20_000,
        false,
        48_038_396_025_285_290,
        406_454_287_582_976_000,
        470_972_578_138_082_216,
        470_972_578_138_083_328,
        12,
        2_338_064,
    ),
    (
        2,
        9_000,
        false,
        0,
        395_509_483_485_927_424,
        424_577_850_196_488_016,
        481_207_009_522_150_168,
        9,
        2_329_064,
    ),
    (
        3,
        5_000,
        true,
        0,
        361_433_537_741_592_576,
        378_183_122_254_893_816,
        491_441_440_906_217_008,
        10,
        2_344_048,
    ),
    (4, 24, true, 0, 0, 0, 0, 0, 2_364_008),
    (
        3,
        0,
        true,
        -28_823_037_615_171_175,
        374_278_423_367_972_864,
        374_278_423_367_972_864,
        487_536_742_019_298_864,
        8,
        2_383_992,
    ),
    (4, 24, true, 0, 0, 0, 0, 0, 2_403_952),
    (
        1,
        20_000,
        true,
        0,
        373_205_873_519_441_920,
        373_205_873_519_441_920,
        373_205_873_519_443_968,
        5,
        2_403_936,
    ),
];

const ROWS_422: [Row; 8] = [
    (
        0,
        60_000,
        true,
        0,
        531_314_062_681_704_447,
        531_314_062_681_704_447,
        474_684_903_356_040_424,
        38,
        14_458_064,
    ),
    (
        1,
        20_000,
        false,
        48_038_396_025_285_290,
        403_248_400_588_879_871,
        484_919_334_740_110_247,
        484_919_334_740_111_360,
        51,
        14_438_064,
    ),
    (
        2,
        9_000,
        false,
        0,
        344_769_275_320_907_844,
        438_524_606_798_516_047,
        495_153_766_124_178_200,
        42,
        14_429_064,
    ),
    (
        3,
        5_000,
        true,
        0,
        344_769_275_320_907_844,
        392_129_878_856_921_847,
        505_388_197_508_245_040,
        45,
        14_544_048,
    ),
    (4, 24, true, 0, 0, 0, 0, 0, 14_664_008),
    (
        3,
        0,
        true,
        -28_823_037_615_171_175,
        344_769_275_320_907_844,
        345_735_150_915_327_647,
        458_993_469_566_649_904,
        31,
        14_783_992,
    ),
    (4, 24, true, 0, 0, 0, 0, 0, 14_903_952),
    (
        1,
        20_000,
        true,
        0,
        344_769_275_320_907_844,
        344_769_275_320_907_845,
        344_769_275_320_909_824,
        20,
        15_003_936,
    ),
];

const ROWS_444: [Row; 8] = [
    (
        0,
        60_000,
        true,
        0,
        265_679_860_698_470_567,
        265_679_860_698_470_567,
        209_050_701_372_810_472,
        43,
        -38_830,
    ),
    (
        1,
        20_000,
        false,
        48_038_396_025_285_290,
        576_460_752_303_423_488,
        312_074_588_640_064_767,
        3_160_522_924_948_417_408,
        255,
        -58_830,
    ),
    (
        2,
        9_000,
        false,
        0,
        576_460_752_303_423_488,
        358_469_316_581_658_967,
        2_585_920_225_222_827_648,
        255,
        -67_830,
    ),
    (
        3,
        5_000,
        true,
        0,
        576_460_752_303_423_488,
        404_864_044_523_253_167,
        2_480_635_841_830_001_280,
        255,
        -70_713,
    ),
    (4, 24, true, 0, 0, 0, 0, 0, -68_620),
    (
        3,
        0,
        true,
        -28_823_037_615_171_175,
        576_460_752_303_423_488,
        451_258_772_464_847_367,
        2_968_441_575_079_697_984,
        255,
        -66_503,
    ),
    (4, 24, true, 0, 0, 0, 0, 0, -64_410),
    (
        1,
        20_000,
        true,
        0,
        576_460_752_303_423_488,
        497_653_500_406_441_567,
        3_742_817_638_143_966_976,
        255,
        -82_293,
    ),
];

const ROWS_400: [Row; 10] = [
    (
        0,
        60_000,
        true,
        0,
        18_913_104_387_663_872,
        18_913_104_387_663_872,
        -37_716_054_937_996_056,
        1,
        4_606_550,
    ),
    (
        1,
        20_000,
        false,
        48_038_396_025_285_290,
        0,
        0,
        0,
        1,
        4_586_550,
    ),
    (
        2,
        9_000,
        false,
        0,
        0,
        0,
        56_629_159_325_661_976,
        1,
        4_577_550,
    ),
    (
        3,
        5_000,
        true,
        0,
        0,
        0,
        113_258_318_651_323_952,
        1,
        5_239_200,
    ),
    (4, 24, true, 0, 0, 0, 0, 0, 5_905_826),
    (
        3,
        0,
        true,
        -28_823_037_615_171_175,
        0,
        0,
        113_258_318_651_323_952,
        1,
        6_572_476,
    ),
    (4, 24, true, 0, 0, 0, 0, 0, 7_239_102),
    (
        1,
        20_000,
        true,
        0,
        0,
        0,
        -247_066_139_108_581_760,
        1,
        7_885_752,
    ),
    (
        0,
        60_000,
        true,
        0,
        0,
        0,
        -756_685_515_491_179_200,
        1,
        7_999_800,
    ),
    (
        1,
        20_000,
        false,
        48_038_396_025_285_290,
        0,
        0,
        -771_860_704_241_639_936,
        1,
        7_979_800,
    ),
];

/// The rows' starts: indices between bounds, a reservoir that runs dry, and one that runs over.
const SESSIONS: [(Start, &[Row]); 4] = [
    (
        Start {
            bitrate: 600_000,
            ..PLAIN
        },
        &ROWS_420,
    ),
    (
        Start {
            size: [1920, 1080],
            frames_per_second: 25,
            bitrate: 3_000_000,
            greatest: Some(200),
            least: 20,
            bit_depth: 10,
            chroma: ChromaSampling::Cs422,
            ..PLAIN
        },
        &ROWS_422,
    ),
    (
        Start {
            size: [64, 64],
            bitrate: 64_000,
            least: 10,
            interval: 12,
            bit_depth: 12,
            chroma: ChromaSampling::Cs444,
            ..PLAIN
        },
        &ROWS_444,
    ),
    (
        Start {
            bitrate: 20_000_000,
            delay: Some(12),
            chroma: ChromaSampling::Cs400,
            ..PLAIN
        },
        &ROWS_400,
    ),
];

/// Codes a frame, or tries it: the searched base, the base, the target and the luma AC index of what was selected for it, whether it
/// was dropped, and the reservoir.
fn coded(
    rt: &impl Abort,
    controller: &mut Controller,
    row: &Row,
    trial: bool,
    previous: Option<i64>,
) -> [i128; 6] {
    let (fti, bits, shown, mean_scale, ..) = *row;
    let [searched, base, target, index] = if fti < 4 {
        numbers(&controller.select(rt, fti, previous, mean_scale))
    } else {
        [0; 4]
    };
    let dropped = controller.update(
        rt,
        Frame {
            bits: if trial { 800 } else { bits },
            fti,
            shown,
            target,
            trial,
            droppable: false,
        },
    );
    [
        searched as i128,
        base as i128,
        target as i128,
        index as i128,
        dropped as i128,
        controller.state.reservoir(),
    ]
}

fn numbers(selected: &QuantizerParameters) -> [i64; 4] {
    let [index, ..] = selected.ac_qi;
    let searched = selected.searched_q.unwrap_or(-1);
    [
        searched,
        selected.log_base_q,
        selected.log_target_q,
        index as i64,
    ]
}

/// Codes the rows' frames, one after the other, each after a trial where one is due.
fn follow(rt: &impl Abort, controller: &mut Controller, rows: &[Row]) {
    let mut previous = None;
    for row in rows {
        let (fti, bits, _, _, searched, base, target, index, reservoir) = *row;
        let mut numbers = [0; 6];
        for trial in [true, false] {
            if !trial || (fti < 4 && controller.is_trial_due(rt, fti)) {
                numbers = coded(rt, controller, row, trial, previous);
            }
        }
        let dropped = bits == 0;
        let expected = [
            searched as i128,
            base as i128,
            target as i128,
            index as i128,
            dropped as i128,
            reservoir,
        ];
        assert_eq!(rt; numbers, expected);
        if fti < 4 {
            previous = Some(base);
        }
    }
}

#[test]
fn frames_of_four_sessions(rt: HostRuntime) -> Result<(), Fail> {
    for (start, rows) in SESSIONS {
        let mut controller = started(&rt, rt.alloc(), &start)?;
        follow(&rt, &mut controller, rows);
    }
    Ok(())
}
