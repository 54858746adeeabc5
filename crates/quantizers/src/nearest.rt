ghost use Rattle.std.specs.Prelude.{◌≡◌, ℕ, ◌*◌, ◌+◌, ◌<◌, ◌≤◌, int_lt, pos, ◌*ℤ◌, slice_index, length};
ghost use Rattle.std.specs.List.Sorted.{IsNonDecreasing};
ghost use Rattle.quantizers.specs.Nearest.{count_below, is_nearer_below, nearest_from, nearest as nearest_of};

/// How many values lie below `q`.
fn values_below(values: &[u16; 256], q: i64) -> usize
    requires { IsNonDecreasing values.now }
    ensures value { result ≡ count_below values.now q }
    ensures most { result ≤ 256 }
{
    values.partition_point(
        |value: &u16| -> bool
            ensures { result ≡ int_lt (pos value.now) q }
        { i64::from(*value) < q },
    )
}

/// Whether `q` lies below the geometric mean of `u` and `v`.
fn is_nearer(u: u16, q: i64, v: u16) -> bool
    ensures { result ≡ is_nearer_below u q v }
{
    q as i128 * (q as i128) < u as i128 * v as i128
}

/// The index of the value that is nearest to `q`, by ratio.
#[tactic(auto, unfolding(crate::specs::Nearest::nearest))]
pub fn nearest(values: &[u16; 256], q: i64) -> u8
    requires { IsNonDecreasing values.now }
    ensures { result ≡ nearest_of values.now q }
{
    let place = values_below(values, q);
    if place == 0 {
        return 0;
    }
    if place == 256 {
        return 255;
    }
    if is_nearer(values[place - 1], q, values[place]) {
        (place - 1) as u8
    } else {
        place as u8
    }
}
