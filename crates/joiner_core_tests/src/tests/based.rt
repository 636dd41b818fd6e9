// A joiner that begins with a store.

ghost use Rattle.std.specs.Prelude.{◌≡◌, ◌≤◌, [], IfOk, OnOk};
ghost use Rattle.std.specs.List.{AllByRecursion};
ghost use Rattle.epoch_tags.specs.declared.tuple.Tuple.{Tuple as Tuple'};
ghost use Rattle.joiner_core.specs.State.{tuples_of, AreRows, IsKeyOf};

use super::given::row;
use super::{play, theta};
use joiner_core::Joiner;
use row_cells::Side;
use std::alloc::{AllocError, Global};
use std::process::Abort;
use std::test::Fail;
use store_parts::Store;
use theta_pred::Theta;

// Adds R row 0 and S row 0, both of stamp 1, to a store without tuples.
fn add_both(alloc: Global, store: &mut Store, theta: &Theta) -> Result<(), AllocError>
    requires r { theta.now.width_r ≡ 1 }
    requires s { theta.now.width_s ≡ 1 }
    requires key { IsKeyOf theta.now store.old.key }
    requires empty_r { store.old.r ≡ [] }
    requires empty_s { store.old.s ≡ [] }
    ensures key { OnOk result (IsKeyOf theta.now store.new.key) }
    ensures stamps { OnOk result
        (AllByRecursion (λ (x : Tuple'). x.stamp ≤ 2) (tuples_of store.new)) }
    ensures rows { OnOk result (AreRows theta.now (tuples_of store.new)) }
{
    let first = row(alloc, Side::R, 0, 0, 1)?;
    store.fits_key(theta, &first);
    store.add(first)?;
    let second = row(alloc, Side::S, 0, 0, 1)?;
    store.fits_key(theta, &second);
    store.add(second)
}

// A store with R row 0 and S row 0, both of stamp 1.
fn base(alloc: Global, theta: &Theta) -> Result<Store, AllocError>
    requires r { theta.now.width_r ≡ 1 }
    requires s { theta.now.width_s ≡ 1 }
    ensures key { IfOk result (λ store. IsKeyOf theta.now store.key) }
    ensures stamps { IfOk result
        (λ store. AllByRecursion (λ (x : Tuple'). x.stamp ≤ 2) (tuples_of store)) }
    ensures rows { IfOk result (λ store. AreRows theta.now (tuples_of store)) }
{
    let mut store = Store::new(alloc, theta.key_atom()?);
    match add_both(alloc, &mut store, theta) {
        Ok(()) => Ok(store),
        Err(refused) => {
            drop(store);
            Err(refused)
        }
    }
}

// A joiner with that base, at epoch 2.
fn with_base<'a>(alloc: Global, theta: &'a Theta) -> Result<Joiner<'a>, AllocError>
    requires r { theta.now.width_r ≡ 1 }
    requires s { theta.now.width_s ≡ 1 }
{
    let rows = base(alloc, theta)?;
    Joiner::start_at(alloc, 0, 0, 0, 2, 1, theta, rows)
}

// The steps, and how it stands then.
fn finishes(
    rt: &impl Abort,
    alloc: Global,
    joiner: &mut Joiner<'_>,
    steps: &[&str],
) -> Result<(), AllocError> {
    play(rt, alloc, joiner, steps)?;
    has_finished(rt, joiner, 2, 2);
    Ok(())
}

fn has_finished(rt: &impl Abort, joiner: &Joiner<'_>, epoch: u32, rows_s: u64) {
    assert_eq!(rt; joiner.settled_epoch(), epoch);
    assert!(rt; joiner.finished());
    assert_eq!(rt; joiner.store().side(Side::S).len(), rows_s);
}

fn run_with_base(
    rt: &impl Abort,
    alloc: Global,
    predicate: &str,
    steps: &[&str],
) -> Result<(), AllocError> {
    let theta = theta(rt, alloc, predicate)?;
    run_with_base_over(rt, alloc, &theta, steps)
}

fn run_with_base_over(
    rt: &impl Abort,
    alloc: Global,
    theta: &Theta,
    steps: &[&str],
) -> Result<(), AllocError>
    requires r { theta.now.width_r ≡ 1 }
    requires s { theta.now.width_s ≡ 1 }
{
    let mut joiner = with_base(alloc, theta)?;
    let finished = finishes(rt, alloc, &mut joiner, steps);
    drop(joiner);
    finished
}

#[test]
fn a_base_is_not_joined_again(rt: HostRuntime) -> Result<(), Fail> {
    let steps = [
        "feeder_0 row S 1 0 2 holds 0 sends [found 0 1]",
        "feeder_0 end holds 0 sends [fin 1 2 moved]",
    ];
    run_with_base(&rt, rt.alloc(), "1 = 1", &steps)?;
    Ok(())
}
