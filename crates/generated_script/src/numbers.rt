ghost use Rattle.std.specs.Prelude.{◌≡◌, ◌<◌, IfOk};
ghost use Rattle.generated_script.specs.Numbers.{next_number, numbers_after};

use coding_base::OutOfMemory;
use std::alloc::Global;

// The linear congruential generator.
const MULTIPLIER: u64 = 1_103_515_245;

const INCREMENT: u64 = 12_345;

const MODULUS: u64 = 0x8000_0000;

/// So many numbers that follow on a seed, each made from the one before.
pub fn numbers_after(alloc: Global, seed: u64, count: usize) -> Result<Vec<u64>, OutOfMemory>
    ensures { IfOk result (λ numbers. numbers.items ≡ numbers_after seed count) }
{
    let mut numbers = Vec::new(alloc);
    let mut last = seed;
    for _done in 0..count {
        last = next_number(last);
        numbers.push(last)?;
    }
    Ok(numbers)
}

fn next_number(last: u64) -> u64
    ensures { result ≡ next_number last }
{
    let sum = u128::from(last) * u128::from(MULTIPLIER) + u128::from(INCREMENT);
    (sum % u128::from(MODULUS)) as u64
}
