//! Tables of quantisers, and the quantiser parameters of frames at every sampling, bit depth and subtype.

use av1_frame::ChromaSampling;
use quantizers::{BadTable, LogQuantizer, QSettings, QTables, QuantizerParameters, flat_quantizer};
use std::test::Fail;

/// `8 * (i + 1)` at index `i`, but for other values at some places.
fn steps_but(others: &[(usize, u16)]) -> [u16; 256] {
    let mut values = [0; 256];
    for (value, i) in values.iter_mut().zip(1..=256_u16) {
        *value = i.wrapping_mul(8);
    }
    for (place, other) in others {
        if let Some(value) = values.get_mut(*place) {
            *value = *other;
        }
    }
    values
}

/// The tables with `8 * (i + 1)` at index `i`, but for other DC values at some places.
fn tables_but(others: &[(usize, u16)]) -> Result<QTables, BadTable> {
    QTables::new(steps_but(&[]), steps_but(others))
}

/// The tables with `8 * (i + 1)` at index `i`.
pub fn tables() -> Result<QTables, BadTable> {
    tables_but(&[])
}

#[test]
fn nearest_indices(rt: HostRuntime) -> Result<(), Fail> {
    let tables = tables()?;
    assert_eq!(rt; [tables.ac(0), tables.ac(255), tables.dc(1)], [8, 2048, 16]);
    for (q, i) in [
        (i64::MIN, 0),
        (0, 0),
        (8, 0),
        (11, 0),
        (12, 1),
        (16, 1),
        (2047, 255),
        (2048, 255),
        (3000, 255),
        (i64::MAX, 255),
    ] {
        assert_eq!(rt;
            [tables.nearest_ac(q), tables.nearest_dc(q)],
            [i, i],
            "at {q}"
        );
    }
    Ok(())
}

#[test]
fn equal_values_have_the_least_index(rt: HostRuntime) -> Result<(), Fail> {
    let tables = tables_but(&[(1, 8), (2, 8)])?;
    // The values are 8, 8, 8 and 32, and 16 is the geometric mean of 8 and 32.
    for (q, i) in [(7, 0), (8, 0), (9, 2), (15, 2), (16, 3), (32, 3)] {
        assert_eq!(rt; tables.nearest_dc(q), i, "at {q}");
    }
    Ok(())
}

#[test]
fn bad_tables(rt: HostRuntime) -> Result<(), Fail> {
    let good: &[(usize, u16)] = &[];
    let level: &[(usize, u16)] = &[(7, 56)];
    let zero: &[(usize, u16)] = &[(0, 0)];
    let falling: &[(usize, u16)] = &[(44, 8), (200, 8)];
    for (ac, dc, text) in [
        (level, good, "bad table value at place 7"),
        (zero, good, "bad table value at place 0"),
        (good, zero, "bad table value at place 256"),
        (good, falling, "bad table value at place 300"),
        (falling, zero, "bad table value at place 44"),
        (good, level, ""),
    ] {
        match QTables::new(steps_but(ac), steps_but(dc)) {
            Ok(_) => assert_eq!(rt; text, ""),
            Err(e) => assert_eq!(rt; e.to_string(rt.alloc())?.as_str(), text),
        }
    }
    Ok(())
}

#[test]
fn flat_quantisers(rt: HostRuntime) -> Result<(), Fail> {
    let tables = tables()?;
    for (bit_depth, i, subtype, base, target) in [
        (8, 0, 0, 0, -56_629_159_325_661_976),
        (8, 100, 1, 959_549_400_085_598_094, 959_549_400_085_598_208),
        (
            8,
            100,
            2,
            959_549_400_085_598_094,
            1_016_178_559_411_260_184,
        ),
        (
            8,
            255,
            3,
            1_152_921_504_606_846_976,
            1_266_179_823_258_170_928,
        ),
        (10, 0, 0, -288_230_376_151_711_744, -344_859_535_477_373_720),
        (10, 100, 1, 671_319_023_933_886_350, 671_319_023_933_886_464),
        (10, 100, 2, 671_319_023_933_886_350, 727_948_183_259_548_440),
        (10, 255, 3, 864_691_128_455_135_232, 977_949_447_106_459_184),
        (12, 0, 0, -576_460_752_303_423_488, -633_089_911_629_085_464),
        (12, 100, 1, 383_088_647_782_174_606, 383_088_647_782_174_720),
        (12, 100, 2, 383_088_647_782_174_606, 439_717_807_107_836_696),
        (12, 255, 3, 576_460_752_303_423_488, 689_719_070_954_747_440),
    ] {
        assert!(rt; 8 <= bit_depth && bit_depth <= 12 && subtype < 4);
        let flat = flat_quantizer(&tables, bit_depth, i, subtype);
        assert_eq!(rt;
            [flat.base, flat.target],
            [base, target],
            "of {i} at {bit_depth}"
        );
    }
    Ok(())
}

type Row = (
    ChromaSampling,
    u8,
    bool,
    i64,
    i64,
    [u8; 3],
    [u8; 3],
    i64,
    [i64; 3],
);

// Sampling, bit depth, intra, target and mean scale; then the DC and AC indices, lambda and the distortion scales.
const PARAMETERS: [Row; 27] = [
    (
        ChromaSampling::Cs420,
        8,
        true,
        956_993_919_357_957_352,
        -28_823_037_615_171_175,
        [86, 45, 32],
        [86, 45, 32],
        1_856_341_763_485_572_354,
        [65_536, 229_287, 449_402],
    ),
    (
        ChromaSampling::Cs420,
        8,
        false,
        676_300_591_629_239_856,
        20_587_884_010_836_553,
        [29, 21, 14],
        [29, 21, 14],
        1_393_776_951_280_152_818,
        [58_073, 116_191, 227_734],
    ),
    (
        ChromaSampling::Cs422,
        8,
        true,
        952_177_157_205_329_128,
        0,
        [97, 74, 53],
        [97, 74, 53],
        1_904_354_314_410_658_256,
        [65_536, 110_962, 217_485],
    ),
    (
        ChromaSampling::Cs422,
        8,
        false,
        844_224_032_857_600_000,
        -28_823_037_615_171_175,
        [53, 45, 32],
        [53, 45, 32],
        1_630_801_990_484_857_650,
        [58_070, 79_325, 155_477],
    ),
    (
        ChromaSampling::Cs444,
        8,
        true,
        1_083_738_375_588_553_960,
        48_038_396_025_285_290,
        [230, 237, 169],
        [230, 237, 169],
        2_263_553_543_227_678_500,
        [65_536, 61_964, 121_449],
    ),
    (
        ChromaSampling::Cs444,
        8,
        false,
        882_109_492_918_577_944,
        48_038_396_025_285_290,
        [86, 98, 69],
        [86, 98, 69],
        1_860_295_777_887_726_468,
        [66_324, 51_827, 101_582],
    ),
    (
        ChromaSampling::Cs400,
        8,
        true,
        347_953_323_262_350_568,
        48_038_396_025_285_290,
        [6, 0, 0],
        [6, 0, 0],
        791_983_438_575_271_716,
        [65_536, 21_400, 41_943],
    ),
    (
        ChromaSampling::Cs400,
        8,
        false,
        1_089_924_249_398_303_512,
        48_038_396_025_285_290,
        [237, 0, 0],
        [237, 0, 0],
        2_275_925_290_847_177_604,
        [65_536, 21_400, 41_943],
    ),
    (
        ChromaSampling::Cs420,
        10,
        true,
        756_736_236_936_807_656,
        48_038_396_025_285_290,
        [191, 128, 128],
        [191, 128, 128],
        1_609_549_265_924_185_892,
        [65_536, 167_282, 327_872],
    ),
    (
        ChromaSampling::Cs420,
        10,
        false,
        600_949_525_845_073_920,
        20_587_884_010_836_553,
        [79, 62, 44],
        [79, 62, 44],
        1_243_074_819_711_820_946,
        [65_536, 104_740, 205_291],
    ),
    (
        ChromaSampling::Cs422,
        10,
        true,
        523_055_134_559_204_584,
        48_038_396_025_285_290,
        [61, 66, 47],
        [61, 66, 47],
        1_142_187_061_168_979_748,
        [65_536, 57_426, 112_554],
    ),
    (
        ChromaSampling::Cs422,
        10,
        false,
        -59_813_207_267_102_720,
        48_038_396_025_285_290,
        [3, 6, 4],
        [3, 6, 4],
        -23_549_622_483_634_860,
        [65_536, 21_400, 41_943],
    ),
    (
        ChromaSampling::Cs444,
        10,
        true,
        634_318_984_967_251_176,
        48_038_396_025_285_290,
        [106, 134, 96],
        [106, 134, 96],
        1_364_714_761_985_072_932,
        [65_536, 40_624, 79_624],
    ),
    (
        ChromaSampling::Cs444,
        10,
        false,
        752_161_452_925_988_864,
        -28_823_037_615_171_175,
        [129, 161, 114],
        [129, 161, 114],
        1_446_676_830_621_635_378,
        [65_536, 42_219, 82_749],
    ),
    (
        ChromaSampling::Cs400,
        10,
        true,
        616_738_297_602_954_472,
        48_038_396_025_285_290,
        [97, 0, 0],
        [97, 0, 0],
        1_329_553_387_256_479_524,
        [65_536, 21_400, 41_943],
    ),
    (
        ChromaSampling::Cs400,
        10,
        false,
        671_319_023_933_886_464,
        20_587_884_010_836_553,
        [111, 0, 0],
        [111, 0, 0],
        1_383_813_815_889_446_034,
        [65_536, 21_400, 41_943],
    ),
    (
        ChromaSampling::Cs420,
        12,
        true,
        412_809_902_259_995_880,
        0,
        [116, 119, 85],
        [116, 119, 85],
        825_619_804_519_991_760,
        [65_536, 61_446, 120_434],
    ),
    (
        ChromaSampling::Cs420,
        12,
        false,
        594_857_538_653_215_512,
        48_038_396_025_285_290,
        [255, 255, 193],
        [255, 255, 193],
        1_285_791_869_357_001_604,
        [65_536, 110_615, 216_806],
    ),
    (
        ChromaSampling::Cs422,
        12,
        true,
        264_577_465_442_133_224,
        -28_823_037_615_171_175,
        [49, 70, 50],
        [49, 70, 50],
        471_508_855_653_924_098,
        [65_536, 32_165, 63_042],
    ),
    (
        ChromaSampling::Cs422,
        12,
        false,
        491_345_015_985_602_560,
        -28_823_037_615_171_175,
        [147, 173, 123],
        [147, 173, 123],
        925_043_956_740_862_770,
        [65_536, 47_600, 93_295],
    ),
    (
        ChromaSampling::Cs444,
        12,
        true,
        -488_974_723_553_229_592,
        -28_823_037_615_171_175,
        [1, 1, 1],
        [1, 1, 1],
        -1_035_595_522_336_801_534,
        [65_536, 21_400, 41_943],
    ),
    (
        ChromaSampling::Cs444,
        12,
        false,
        477_436_750_174_101_504,
        -28_823_037_615_171_175,
        [137, 195, 139],
        [137, 195, 139],
        897_227_425_117_860_658,
        [65_536, 32_616, 63_927],
    ),
    (
        ChromaSampling::Cs400,
        12,
        true,
        418_175_729_539_470_568,
        20_587_884_010_836_553,
        [131, 0, 0],
        [131, 0, 0],
        877_527_227_100_614_242,
        [65_536, 21_400, 41_943],
    ),
    (
        ChromaSampling::Cs400,
        12,
        false,
        594_581_429_962_188_336,
        48_038_396_025_285_290,
        [255, 0, 0],
        [255, 0, 0],
        1_285_239_651_974_947_252,
        [65_536, 21_400, 41_943],
    ),
    (
        ChromaSampling::Cs420,
        8,
        false,
        9_223_372_036_854_775_807,
        2_305_843_009_213_693_952,
        [255, 255, 255],
        [255, 255, 255],
        9_223_372_036_854_775_807,
        [3_637, 15_923_552_933_704_347, 31_210_163_750_060_521],
    ),
    (
        ChromaSampling::Cs444,
        8,
        false,
        -9_223_372_036_854_775_808,
        -2_305_843_009_213_693_952,
        [1, 1, 1],
        [1, 1, 1],
        -9_223_372_036_854_775_808,
        [1_896_420, 619_239, 1_213_709],
    ),
    (
        ChromaSampling::Cs420,
        8,
        false,
        1_152_921_504_606_846_976,
        0,
        [255, 192, 192],
        [255, 192, 192],
        2_305_843_009_213_693_952,
        [49_760, 332_623, 651_940],
    ),
];

/// Indices of the DC and AC coefficients, then the logarithms of the base, the target, the searched base and lambda, and the
/// distortion scales.
fn indices_and_numbers(p: &QuantizerParameters) -> ([u8; 6], [i64; 7]) {
    let [dc_y, dc_u, dc_v] = p.dc_qi;
    let [ac_y, ac_u, ac_v] = p.ac_qi;
    let [y, u, v] = p.dist_scale_q16;
    let searched = p.searched_q.unwrap_or(-1);
    (
        [dc_y, dc_u, dc_v, ac_y, ac_u, ac_v],
        [
            p.log_base_q,
            p.log_target_q,
            searched,
            p.lambda_q57,
            y,
            u,
            v,
        ],
    )
}

#[test]
fn parameters_of_frames(rt: HostRuntime) -> Result<(), Fail> {
    let tables = tables()?;
    for (chroma, bit_depth, intra, target, mean_scale, dc, ac, lambda, scales) in PARAMETERS {
        assert!(rt; 8 <= bit_depth && bit_depth <= 12);
        let settings = QSettings {
            bit_depth,
            chroma,
            quantizer: 100,
            max_key_frame_interval: 240,
        };
        let log_q = LogQuantizer { base: 5, target };
        let parameters = QuantizerParameters::new_from_log_q(
            &tables,
            &settings,
            log_q,
            mean_scale,
            intra,
            Some(3),
        );
        let (indices, numbers) = indices_and_numbers(&parameters);
        let [y, u, v] = scales;
        assert_eq!(rt;
            indices,
            [dc[0], dc[1], dc[2], ac[0], ac[1], ac[2]],
            "at {target}"
        );
        assert_eq!(rt; numbers, [5, target, 3, lambda, y, u, v], "at {target}");
    }
    Ok(())
}
