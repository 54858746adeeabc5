ghost use Rattle.std.specs.Prelude.{◌≡◌, ℕ, ◌*◌, ◌≤◌, ◌^◌, int_div, pos, ◌*ℤ◌, ◌≤ℤ◌, ◌<ℤ◌};
ghost use Rattle.fixed_log.specs.Within.{IsWithin};

/// The product, whose size is at most that of the factors' bounds.
pub fn times(a: i128, b: i64) -> i128
    requires a { IsWithin (2 ^ 63) a }
    requires b { IsWithin (2 ^ 63) b }
    ensures value { result ≡ a *ℤ b }
    ensures within { (m n : ℕ) → IsWithin m a → IsWithin n b → IsWithin (m * n) result }
{
    a * b as i128
}

/// The quotient, rounded towards 0.
pub fn quotient(a: i128, b: i128) -> i128
    requires { pos 1 ≤ℤ b }
    ensures value { result ≡ int_div a b }
    ensures within { (m k : ℕ) → pos k ≤ℤ b → IsWithin (m * k) a → IsWithin m result }
{
    a / b
}
