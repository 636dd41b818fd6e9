ghost use Rattle.std.specs.Prelude.{◌≡◌, ◌<◌, ◌^◌, All, IfOk};

use crate::runs::push_counts;
use epoch_tags::Counts;
use join_report::sum_counts;
use std::alloc::{AllocError, Global};
use std::test::Fail;

fn counts(alloc: Global, numbers: &[u64]) -> Result<Counts, AllocError>
    ensures { IfOk result (λ counts. counts ≡ numbers.now) }
{
    let mut counts = Counts::new(alloc);
    match push_counts(&mut counts, numbers) {
        Ok(()) => Ok(counts),
        Err(refused) => {
            drop(counts);
            Err(refused)
        }
    }
}

// The sums of these counts and of others.
fn sums_with(alloc: Global, first: &Counts, numbers: &[u64]) -> Result<Counts, AllocError>
    requires first { All (λ count. count < 2 ^ 63) first.now }
    requires numbers { All (λ count. count < 2 ^ 63) numbers.now }
{
    let second = counts(alloc, numbers)?;
    let sums = sum_counts(alloc, first, &second);
    drop(second);
    sums
}

fn sums_of(alloc: Global) -> Result<Counts, AllocError> {
    let first = counts(alloc, &[16, 0, 3])?;
    let sums = sums_with(alloc, &first, &[1, 2, 0]);
    drop(first);
    sums
}

#[test]
fn waves_are_added_place_by_place(rt: HostRuntime) -> Result<(), Fail> {
    let sums = sums_of(rt.alloc())?;
    assert!(rt; sums.as_slice() == [17, 2, 3].as_slice());
    drop(sums);
    Ok(())
}
