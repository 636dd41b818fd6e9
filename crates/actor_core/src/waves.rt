// The machines of a wave at its beginning.

ghost use Rattle.std.specs.Prelude.{◌≡◌, ◌<◌, ◌≤◌, ◌+◌, ◌++◌, ◌^◌, IfOk, OnOk, map, filter, not, if◌then◌else◌, ◌∷◌, []};
ghost use Rattle.std.specs.List.{AllByRecursion};
ghost use Rattle.row_tickets.specs.Share.{share as share'};
ghost use Rattle.row_cells.specs.declared.table.Side.TheVariants.{R as R', S as S'};
ghost use Rattle.epoch_tags.specs.declared.tuple.Tuple.{Tuple as Tuple'};
ghost use Rattle.joiner_core.specs.State.{tuples_of, AreRows, IsKeyOf};
ghost use Rattle.load_controller.specs.Journal.{Fits, begun, begun_by as begun_by'};
ghost use Rattle.trace_law.specs.Join.{row_count};
ghost use Rattle.trace_law.specs.Validity.{IsValidInput, IsValidSetting};
ghost use Rattle.trace_law.specs.Family.{is_old, tuple_of, feeder_start, joiner_start, rules_of};
ghost use Rattle.actor_core.specs.Lists.{no_lists};
ghost use Rattle.actor_core.specs.Standing.{Stands, HasGivenNone, IsLive, JoinsBy, OfFeeder, OfJoiner, OfController};
ghost use Rattle.actor_core.specs.Numbers.{cast_of, count_of};
ghost use Rattle.actor_core.specs.Players.{AllStand};
ghost use Rattle.actor_core.specs.Rests.{upto, task_upto, at_line, with_base, IsWithin, IsRestOf, AreMade};

use crate::machines::Core;
use crate::rests::{Rest, Upto};
use crate::start::{collector, tuple};
use epoch_tags::Tuples;
use joiner_core::Joiner;
use load_controller::{Cause, Controller, TurnLine};
use reshuffler_core::Feeder;
use row_cells::Side;
use row_tickets::{Place, share};
use std::alloc::{AllocError, Global};
use store_parts::Store;
use trace_law::{Input, Setting};

// Whether the row wasn't counted before the wave that goes on from this line.
fn is_new(line: &TurnLine, place: Place) -> bool
    ensures { result ≡ not (is_old line.now place) }
{
    match place.side {
        Side::R => line.rows_r <= place.index as u64,
        Side::S => line.rows_s <= place.index as u64,
    }
}

// Adds the row's tuple, if it is of the wave.
fn add_new(
    alloc: Global,
    input: &Input,
    line: &TurnLine,
    place: Place,
    tuples: &mut Tuples,
) -> Result<(), AllocError>
    ensures { OnOk result (tuples.new ≡ tuples.old
        ++ (if not (is_old line.now place) then tuple_of input.now 0 place ∷ [] else [])) }
{
    if is_new(line, place) {
        tuples.push(tuple(alloc, input, place)?)?;
    }
    Ok(())
}

// The rows of the wave in a feeder's share, in order.
fn load_of_wave(
    alloc: Global,
    input: &Input,
    setting: &Setting,
    line: &TurnLine,
    end: Upto,
    p: u32,
) -> Result<Tuples, AllocError>
    requires input { IsValidInput input.now }
    requires feeder { p < setting.now.feeders }
    requires end { IsWithin end input.now }
    ensures { IfOk result (λ tuples. tuples ≡ map (tuple_of input.now 0)
        (filter (λ place. not (is_old line.now place))
        (share' setting.now.feed setting.now.feeders p end.rows_r end.rows_s))) }
{
    let places = share(
        alloc,
        setting.feed,
        setting.feeders,
        p,
        end.rows_r,
        end.rows_s,
    )?;
    let mut tuples = Tuples::new(alloc);
    for place in places.as_slice() {
        add_new(alloc, input, line, *place, &mut tuples)?;
    }
    Ok(tuples)
}

fn feeder_in_wave<'a>(
    alloc: Global,
    input: &Input,
    setting: &Setting,
    line: &TurnLine,
    end: Upto,
    p: u32,
) -> Result<Core<'a>, AllocError>
    requires input { IsValidInput input.now }
    requires setting { IsValidSetting setting.now }
    requires feeder { p < setting.now.feeders }
    requires end { IsWithin end input.now }
    requires shift { line.now.shift ≤ setting.now.k }
    ensures stands { IfOk result (λ core. Stands (OfFeeder p setting.now.feeders
        (feeder_start (upto end input.now) setting.now (at_line line.now) p)) no_lists core) }
    ensures live { IfOk result IsLive }
    ensures given { IfOk result (HasGivenNone (2 ^ setting.now.k)) }
    ensures joins { IfOk result (JoinsBy input.now.theta) }
{
    let load = load_of_wave(alloc, input, setting, line, end, p)?;
    Ok(Core::Feeder(Feeder::start_at(
        alloc,
        setting.k,
        line.shift,
        line.epoch,
        p,
        load,
        setting.batch,
    )))
}

fn joiner_in_wave<'a>(
    alloc: Global,
    input: &'a Input,
    setting: &Setting,
    line: &TurnLine,
    j: u32,
    base: Store,
) -> Result<Core<'a>, AllocError>
    requires setting { IsValidSetting setting.now }
    requires joiner { j < 2 ^ setting.now.k }
    requires shift { line.now.shift ≤ setting.now.k }
    requires stamps { AllByRecursion (λ (x : Tuple'). x.stamp ≤ line.now.epoch) (tuples_of base) }
    requires rows { AreRows input.now.theta (tuples_of base) }
    requires key { IsKeyOf input.now.theta base.key }
    ensures stands { IfOk result (λ core. Stands
        (OfJoiner (joiner_start input.now setting.now (with_base line.now (tuples_of base)) j))
        no_lists core) }
    ensures live { IfOk result IsLive }
    ensures given { IfOk result (HasGivenNone (2 ^ setting.now.k)) }
    ensures joins { IfOk result (JoinsBy input.now.theta) }
{
    let joiner = Joiner::start_at(
        alloc,
        setting.k,
        j,
        line.shift,
        line.epoch,
        setting.feeders,
        &input.theta,
        base,
    )?;
    Ok(Core::Joiner(joiner))
}

// Why the first line of a wave stands that goes on from a line with this cause.
fn begun_by(cause: Cause) -> Cause
    ensures { result ≡ begun_by' cause }
{
    match cause {
        Cause::Start => Cause::Start,
        _ => Cause::Wave,
    }
}

// The first line of a wave that goes on from this one.
fn first_line(line: &TurnLine) -> TurnLine
    ensures { result ≡ begun line.now }
{
    let mut first = *line;
    first.cause = begun_by(line.cause);
    first
}

fn controller_in_wave<'a>(
    alloc: Global,
    setting: &Setting,
    line: &TurnLine,
) -> Result<Core<'a>, AllocError>
    requires setting { IsValidSetting setting.now }
    requires fits { Fits (rules_of setting.now) line.now }
    requires epoch { line.now.epoch ≤ 2 ^ 31 }
    ensures stands { IfOk result (λ core. Stands (OfController (record {
      rules = rules_of setting.now;
      first = begun line.now;
    })) no_lists core) }
    ensures live { IfOk result IsLive }
    ensures given { IfOk result (HasGivenNone (2 ^ setting.now.k)) }
{
    Ok(Core::Controller(Controller::start_at(
        alloc,
        setting.k,
        setting.feeders,
        setting.fixed,
        setting.weights,
        first_line(line),
    )?))
}

// The feeders' machines.
fn feeders_in_wave<'a>(
    alloc: Global,
    rest: &Rest,
    input: &Input,
    setting: &Setting,
    end: Upto,
) -> Result<Vec<Core<'a>>, AllocError>
    requires input { IsValidInput input.now }
    requires setting { IsValidSetting setting.now }
    requires end { IsWithin end input.now }
    requires rest { IsRestOf (upto end input.now) setting.now rest.now }
    ensures { IfOk result (λ cores. AreMade (task_upto end input.now setting.now rest.now)
        setting.now.feeders cores.items) }
{
    let mut cores = Vec::new(alloc);
    for p in 0..setting.feeders {
        cores.push(feeder_in_wave(alloc, input, setting, &rest.line, end, p)?)?;
    }
    Ok(cores)
}

// The feeders' machines and, behind them, the joiners'.
fn joiners_in_wave<'a>(
    alloc: Global,
    rest: Rest,
    input: &'a Input,
    setting: &Setting,
    end: Upto,
) -> Result<Vec<Core<'a>>, AllocError>
    requires input { IsValidInput input.now }
    requires setting { IsValidSetting setting.now }
    requires end { IsWithin end input.now }
    requires rest { IsRestOf (upto end input.now) setting.now rest }
    ensures { IfOk result (λ cores. AreMade (task_upto end input.now setting.now rest)
        (setting.now.feeders + 2 ^ setting.now.k) cores.items) }
{
    let mut cores = feeders_in_wave(alloc, &rest, input, setting, end)?;
    let Rest { line, stores, .. } = rest;
    let mut j = 0u32;
    for store in stores.into_vec() {
        cores.push(joiner_in_wave(alloc, input, setting, &line, j, store)?)?;
        j += 1;
    }
    Ok(cores)
}

/// The machines of all actors of a wave, by their numbers, before its first event. The feeders deal the rows from those
/// on that the rest's line has counted, up to `end`.
pub fn cores_in_wave<'a>(
    alloc: Global,
    rest: Rest,
    input: &'a Input,
    setting: &Setting,
    end: Upto,
) -> Result<Vec<Core<'a>>, AllocError>
    requires input { IsValidInput input.now }
    requires setting { IsValidSetting setting.now }
    requires end { IsWithin end input.now }
    requires rest { IsRestOf (upto end input.now) setting.now rest }
    requires epoch { rest.line.epoch ≤ 2 ^ 31 }
    ensures made { IfOk result (λ cores. AreMade (task_upto end input.now setting.now rest)
        (count_of (cast_of setting.now)) cores.items) }
    ensures stands { IfOk result (λ cores. AllStand (task_upto end input.now setting.now rest)
        (cast_of setting.now) cores.items (λ actor. no_lists)) }
{
    let line = rest.line;
    let mut cores = joiners_in_wave(alloc, rest, input, setting, end)?;
    cores.push(controller_in_wave(alloc, setting, &line)?)?;
    cores.push(collector(alloc, setting)?)?;
    Ok(cores)
}
