// A run whose order is made by hand: a feeder begins, and then all that can be taken is taken.

use super::inputs::{eight_rows_a_side, four_joiners};
use super::is;
use epoch_tags::{Actor, Tuples};
use joiner_core::Joiner;
use link_trace::{Core, Input, Run, Setting, Step, World};
use load_controller::{Cause, Journal};
use row_cells::Side;
use std::alloc::{AllocError, Global};
use std::process::Abort;
use std::test::Fail;

// The links of one feeder and four joiners, in the order of a replay, a letter for each end: the feeder, the joiners
// 0 to 3, the controller, the collector (o).
const LINKS: &str = "f0f1f2f30102101323203231cffc0c1c2c3c0o1o2o3o";

pub(super) fn actor(letter: u8) -> Actor {
    match letter {
        b'f' => Actor::Feeder(0),
        b'c' => Actor::Controller,
        b'o' => Actor::Collector,
        digit => Actor::Joiner(digit.wrapping_sub(b'0') as u32),
    }
}

// Makes the event of the link at this place, counted from 0, if it has one.
pub(super) fn deliver(world: &mut World, place: usize) -> Result<Step, AllocError> {
    match LINKS.as_bytes().chunks(2).nth(place) {
        Some(&[from, to]) => world.deliver(actor(from), actor(to)),
        _ => Err(AllocError),
    }
}

// Takes what can be taken over the links from this place on, up to that one, until nothing is left there.
fn deliver_all(world: &mut World, first: usize, end: usize) -> Result<u64, AllocError> {
    let mut events = 0u64;
    for _ in 0..100 {
        for place in first..end {
            if deliver(world, place)? == Step::Took {
                events = events.wrapping_add(1);
            }
        }
    }
    Ok(events)
}

fn begin(world: &mut World) -> Result<u64, AllocError> {
    Ok(if world.begin(0)? == Step::Took { 1 } else { 0 })
}

// The feeder drains before the last step is settled: between its last two beginnings it and the controller alone act.
fn make_all(world: &mut World) -> Result<u64, AllocError> {
    let mut events = 0u64;
    for _ in 0..3 {
        events = events.wrapping_add(begin(world)?);
        events = events.wrapping_add(deliver_all(world, 0, 22)?);
    }
    for _ in 0..2 {
        events = events.wrapping_add(begin(world)?);
        events = events.wrapping_add(deliver_all(world, 12, 14)?);
    }
    Ok(events.wrapping_add(deliver_all(world, 0, 22)?))
}

// How many of the rows have the stamp that these runs give them: R and the first half of S are counted in epoch 1, the
// other half in the last epoch.
fn rightly_stamped(tuples: &Tuples, last: u32) -> u64 {
    let mut count = 0u64;
    for tuple in tuples.as_slice() {
        let stamp = if tuple.side == Side::S && tuple.index >= 4 {
            last
        } else {
            1
        };
        if tuple.stamp == stamp {
            count = count.wrapping_add(1);
        }
    }
    count
}

fn rightly_stamped_of_joiner(joiner: &Joiner, last: u32) -> u64 {
    let store = joiner.store();
    let of_r = rightly_stamped(store.side(Side::R), last);
    let of_s = rightly_stamped(store.side(Side::S), last);
    of_r.wrapping_add(of_s)
}

// The same of all joiners together.
fn rightly_stored(world: &World, last: u32) -> u64 {
    let mut count = 0u64;
    for id in 0..4 {
        if let Some(Core::Joiner(joiner)) = world.machine(Actor::Joiner(id)) {
            count = count.wrapping_add(rightly_stamped_of_joiner(joiner, last));
        }
    }
    count
}

// A digit for each line: its epoch.
fn epochs_number(journal: &Journal) -> u64 {
    let mut number = 0u64;
    for line in journal.as_slice() {
        number = number.wrapping_mul(10).wrapping_add(line.epoch as u64);
    }
    number
}

// The place of the line where the feeder drains.
fn drain_place(journal: &Journal) -> Option<usize> {
    journal
        .as_slice()
        .iter()
        .position(|line| line.cause == Cause::Drain { feeder: 0 })
}

/// A world of a valid input and setting.
pub(super) fn started<'a>(
    alloc: Global,
    input: &'a Input,
    setting: &Setting,
) -> Result<World<'a>, AllocError> {
    if !input.valid() || !setting.valid() {
        return Err(AllocError);
    }
    World::start(alloc, input, setting)
}

/// The run of a world that is done.
pub(super) fn finished(world: World<'_>, events: u64) -> Result<Run, AllocError> {
    if !world.done() {
        drop(world);
        return Err(AllocError);
    }
    world.finish(events)
}

// How many rows the joiners of a world store with their stamps, and its run.
fn stored_and_run(world: World<'_>, events: u64, last: u32) -> Result<(u64, Run), AllocError> {
    let stored = rightly_stored(&world, last);
    let run = finished(world, events)?;
    Ok((stored, run))
}

fn made_in(mut world: World<'_>, last: u32) -> Result<(u64, Run), AllocError> {
    match make_all(&mut world) {
        Ok(events) => stored_and_run(world, events, last),
        Err(refused) => {
            drop(world);
            Err(refused)
        }
    }
}

// The run that ends in this epoch, and how many rows its joiners store with their stamps.
fn made_by_hand(
    alloc: Global,
    input: &Input,
    setting: &Setting,
    last: u32,
) -> Result<(u64, Run), AllocError> {
    let world = started(alloc, input, setting)?;
    made_in(world, last)
}

// The same of eight rows a side.
fn eight_made_by_hand(
    alloc: Global,
    setting: &Setting,
    last: u32,
) -> Result<(u64, Run), AllocError> {
    let input = eight_rows_a_side(alloc)?;
    let made = made_by_hand(alloc, &input, setting, last);
    drop(input);
    made
}

// The rows of R and of S that each joiner holds, where all hold equally many.
fn held_by_each(run: &Run) -> Option<(u64, u64)> {
    let loads = run.loads.as_slice();
    let first = loads.first()?;
    if loads.iter().all(|load| load == first) {
        Some((first.rows_r, first.rows_s))
    } else {
        None
    }
}

fn has_each_part(rt: &impl Abort, run: &Run) {
    is(
        rt,
        epochs_number(&run.journal),
        1_1111_1122_2222,
        "an epoch a line",
    );
    is(
        rt,
        drain_place(&run.journal),
        Some(9),
        "the line where the feeder drains",
    );
    is(rt, run.moved.as_slice(), [0, 8].as_slice(), "moved");
    is(rt, held_by_each(run), Some((4, 4)), "rows of each joiner");
    is(rt, run.made.as_slice(), [16, 16, 16, 16].as_slice(), "made");
    is(rt, run.pairs.len(), 64, "pairs");
}

#[test]
fn eight_rows_a_side_by_hand(rt: HostRuntime) -> Result<(), Fail> {
    let (stored, run) = eight_made_by_hand(rt.alloc(), &four_joiners(), 2)?;
    is(&rt, stored, 32, "rows that are stored with their stamps");
    has_each_part(&rt, &run);
    drop(run);
    Ok(())
}

// Four joiners, and rows of R that weigh twice those of S.
fn heavy_rows() -> Setting {
    let mut setting = four_joiners();
    setting.weights.r = 2;
    setting
}

// Four rows of R lead to shift 0, where the grid stays: with all rows shift 1 has as many copies, 48.
fn has_one_step(rt: &impl Abort, run: &Run) {
    is(
        rt,
        epochs_number(&run.journal),
        1_1111_1111,
        "an epoch a line",
    );
    is(
        rt,
        drain_place(&run.journal),
        Some(9),
        "the line where the feeder drains",
    );
    is(rt, run.moved.as_slice(), [0].as_slice(), "moved");
    is(rt, held_by_each(run), Some((2, 8)), "rows of each joiner");
    is(rt, run.made.as_slice(), [16, 16, 16, 16].as_slice(), "made");
    is(rt, run.pairs.len(), 64, "pairs");
}

#[test]
fn heavy_rows_of_r_by_hand(rt: HostRuntime) -> Result<(), Fail> {
    let (stored, run) = eight_made_by_hand(rt.alloc(), &heavy_rows(), 1)?;
    is(&rt, stored, 40, "rows that are stored with their stamps");
    has_one_step(&rt, &run);
    drop(run);
    Ok(())
}
