ghost use Rattle.std.specs.Prelude.{◌≡◌, ℕ, ◌<◌, ◌^◌, pos, ◌<ℤ◌, ◌≤ℤ◌, FitsSigned};
ghost use Rattle.std.specs.Int.{int_shr, w64};
ghost use Rattle.fixed_log.specs.Table.{angle_of, stepped};

/// Entry `i` is `2^(62 + i) * atanh(2^-(i + 1)) * log2(e)`, rounded.
const ATANH_LOG2: [u64; 32] = [
    0x32B8_0347_3F7A_D0F4,
    0x2F2A_71BD_4E25_E916,
    0x2E68_B244_BB93_BA06,
    0x2E39_FB91_98CE_62E4,
    0x2E2E_683F_6856_5C8F,
    0x2E2B_850B_E207_7FC1,
    0x2E2A_CC58_FE7B_78DB,
    0x2E2A_9E2D_E52F_D5F2,
    0x2E2A_92A3_38D5_3EEC,
    0x2E2A_8FC0_8F5E_19B6,
    0x2E2A_8F07_E51A_485E,
    0x2E2A_8ED9_BA8A_F388,
    0x2E2A_8ECE_2FE7_384A,
    0x2E2A_8ECB_4D3E_4B1A,
    0x2E2A_8ECA_9494_0FE8,
    0x2E2A_8ECA_6669_811D,
    0x2E2A_8ECA_5ADE_DD6A,
    0x2E2A_8ECA_57FC_347E,
    0x2E2A_8ECA_5743_8A43,
    0x2E2A_8ECA_5715_5FB4,
    0x2E2A_8ECA_5709_D510,
    0x2E2A_8ECA_5706_F267,
    0x2E2A_8ECA_5706_39BD,
    0x2E2A_8ECA_5706_0B92,
    0x2E2A_8ECA_5706_0008,
    0x2E2A_8ECA_5705_FD25,
    0x2E2A_8ECA_5705_FC6C,
    0x2E2A_8ECA_5705_FC3E,
    0x2E2A_8ECA_5705_FC33,
    0x2E2A_8ECA_5705_FC30,
    0x2E2A_8ECA_5705_FC2F,
    0x2E2A_8ECA_5705_FC2F,
];

/// The angle of turn `i`; from turn 31 on the table has converged.
#[inline(always)]
pub fn angle(i: usize) -> i64
    ensures value { result ≡ pos (angle_of i) }
    ensures small { result <ℤ pos (2 ^ 62) }
{
    ATANH_LOG2[i.min(31)] as i64
}

/// `a - b` where the flag is set, else `a + b`.
#[inline(always)]
pub fn step(back: bool, a: i64, b: i64) -> i64
    requires { FitsSigned w64 (stepped back a b) }
    ensures { result ≡ stepped back a b }
{
    if back { a - b } else { a + b }
}

/// `step`, with the second number shifted to the right.
#[inline(always)]
pub fn step_shifted(back: bool, a: i64, b: i64, shift: usize) -> i64
    requires shift { shift < 64 }
    requires fits { FitsSigned w64 (stepped back a (int_shr b shift)) }
    ensures { result ≡ stepped back a (int_shr b shift) }
{
    step(back, a, b >> shift)
}
