//! Little-endian numbers at a position, and bytes put behind others.

ghost use Rattle.std.specs.Prelude.{◌≡◌, ◌+◌, ◌≤◌, ◌++◌, length, take, drop, FitsSigned};
ghost use Rattle.std.specs.Int.{w32, w64};
ghost use Rattle.arrayvec.specs.ArrayVec.{array_vec_len};
ghost use Rattle.pass_stats.specs.Bytes.{u32_at, i32_at, i64_at, i32_bytes, i64_bytes};

use arrayvec::ArrayVec;

pub(crate) fn chunk<const N: usize>(bytes: &[u8], at: usize) -> [u8; N]
    requires { at + N ≤ length bytes.now }
    ensures { result ≡ take N (drop at bytes.now) }
{
    *bytes[at..].first_chunk().unwrap()
}

#[tactic(auto, unfolding(crate::specs::Bytes::u32_at))]
pub(crate) fn read_u32(bytes: &[u8], at: usize) -> u32
    requires { at + 4 ≤ length bytes.now }
    ensures { result ≡ u32_at bytes.now at }
{
    u32::from_le_bytes(chunk(bytes, at))
}

#[tactic(auto, unfolding(crate::specs::Bytes::i32_at))]
pub(crate) fn read_i32(bytes: &[u8], at: usize) -> i32
    requires { at + 4 ≤ length bytes.now }
    ensures { result ≡ i32_at bytes.now at }
{
    i32::from_le_bytes(chunk(bytes, at))
}

#[tactic(auto, unfolding(crate::specs::Bytes::i64_at))]
pub(crate) fn read_i64(bytes: &[u8], at: usize) -> i64
    requires { at + 8 ≤ length bytes.now }
    ensures { result ≡ i64_at bytes.now at }
{
    i64::from_le_bytes(chunk(bytes, at))
}

pub(crate) fn append(bytes: &mut ArrayVec<u8, 68>, part: &[u8])
    requires { array_vec_len bytes.old + length part.now ≤ 68 }
    ensures items { bytes.new.items ≡ bytes.old.items ++ part.now }
    ensures len { array_vec_len bytes.new ≡ array_vec_len bytes.old + length part.now }
{
    bytes.try_extend_from_slice(part).unwrap();
}

#[tactic(auto, unfolding(crate::specs::Bytes::i32_bytes))]
pub(crate) fn append_i32(bytes: &mut ArrayVec<u8, 68>, number: i32)
    requires { array_vec_len bytes.old + 4 ≤ 68 }
    ensures items { bytes.new.items ≡ bytes.old.items ++ i32_bytes number }
    ensures len { array_vec_len bytes.new ≡ array_vec_len bytes.old + 4 }
    ensures fits { FitsSigned w32 number }
{
    append(bytes, &number.to_le_bytes());
}

#[tactic(auto, unfolding(crate::specs::Bytes::i64_bytes))]
pub(crate) fn append_i64(bytes: &mut ArrayVec<u8, 68>, number: i64)
    requires { array_vec_len bytes.old + 8 ≤ 68 }
    ensures items { bytes.new.items ≡ bytes.old.items ++ i64_bytes number }
    ensures len { array_vec_len bytes.new ≡ array_vec_len bytes.old + 8 }
    ensures fits { FitsSigned w64 number }
{
    append(bytes, &number.to_le_bytes());
}
