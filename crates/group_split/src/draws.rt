// The numbers by which rows of R fall to groups.

ghost use Rattle.std.specs.Prelude.{◌≡◌, ◌%◌, ◌<◌, ◌≤◌, All, IfOk, length};
ghost use Rattle.rand_pcg.specs.Lcg.{increment_of, started};
ghost use Rattle.rand_pcg.specs.Pcg.{multiplier_64, pcg32};
ghost use Rattle.group_split.specs.Sizes.{numbers_of};

use epoch_tags::Counts;
use rand_core::utils::NextWord;
use rand_pcg::Lcg64Xsh32;
use std::alloc::{AllocError, Global};

// The stream of the generator that deals rows out to groups.
const STREAM: u64 = 57;

// The generator with this seed, before its first word.
fn generator(seed: u64) -> Lcg64Xsh32
    ensures { result ≡ started 64 multiplier_64 seed (increment_of 64 57) }
{
    Lcg64Xsh32::new(seed, STREAM)
}

// The next word modulo the number of joiners.
fn next_number(generator: &mut Lcg64Xsh32, joiners: u32) -> u64
    requires { 1 ≤ joiners }
    ensures value { result ≡ (pcg32 generator.old).0 % joiners }
    ensures moves_on { generator.new ≡ (pcg32 generator.old).1 }
{
    let word = generator.next_word();
    u64::from(word % joiners)
}

/// A number below that of joiners for each of so many rows: the words of the generator with this seed, modulo the
/// number of joiners. So a row falls to each group in proportion to its size.
pub fn numbers(alloc: Global, seed: u64, joiners: u32, count: u64) -> Result<Counts, AllocError>
    requires some { 1 ≤ joiners }
    requires few { joiners ≤ 64 }
    ensures are { IfOk result (λ numbers. numbers ≡ numbers_of seed joiners count) }
    ensures below { IfOk result (λ numbers. All (λ number. number < joiners) numbers) }
    ensures many { IfOk result (λ numbers. length numbers ≡ count) }
{
    let mut generator = generator(seed);
    let mut numbers = Counts::new(alloc);
    for _i in 0..count {
        numbers.push(next_number(&mut generator, joiners))?;
    }
    Ok(numbers)
}
