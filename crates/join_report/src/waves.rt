// What the waves of a run have together.

ghost use Rattle.std.specs.Prelude.{◌≡◌, ◌<◌, ◌≤◌, ◌+◌, ◌^◌, ℕ, All, IfOk};
ghost use Rattle.join_report.specs.Waves.{sums_of};

use epoch_tags::Counts;
use std::alloc::{AllocError, Global};

/// The numbers of two waves, such as the pairs that each joiner made, added up place by place. What the longer list
/// has past the end of the other is passed over. With `within` the sums of some waves can be added to those of the
/// next.
pub fn sum_counts(alloc: Global, counts: &Counts, more: &Counts) -> Result<Counts, AllocError>
    requires counts { All (λ count. count < 2 ^ 63) counts.now }
    requires more { All (λ count. count < 2 ^ 63) more.now }
    ensures sums { IfOk result (λ sums. sums ≡ sums_of counts.now more.now) }
    ensures within { (m n : ℕ) → All (λ count. count ≤ m) counts.now
        → All (λ count. count ≤ n) more.now → IfOk result (All (λ sum. sum ≤ m + n)) }
{
    let mut sums = Counts::new(alloc);
    let places = counts.len().min(more.len());
    for place in 0..places {
        let count = counts.at(place);
        let other = more.at(place);
        sums.push(*count + *other)?;
    }
    Ok(sums)
}
