// The machines of a run at its beginning.

ghost use Rattle.std.specs.Prelude.{◌≡◌, ◌<◌, ◌≤◌, ◌+◌, ◌^◌, IfOk, map};
ghost use Rattle.row_tickets.specs.Share.{share as share'};
ghost use Rattle.row_cells.specs.declared.table.Side.TheVariants.{R as R', S as S'};
ghost use Rattle.load_controller.specs.Journal.{begun};
ghost use Rattle.load_controller.specs.Standing.{just_begun as controller_begun};
ghost use Rattle.pair_collector.specs.Standing.{just_begun as collector_begun};
ghost use Rattle.trace_law.specs.Join.{row_count};
ghost use Rattle.trace_law.specs.Validity.{IsValidInput, IsValidSetting};
ghost use Rattle.trace_law.specs.Family.{tuple_of, feeder_start, joiner_start, rules_of, first_rest};
ghost use Rattle.actor_core.specs.FirstCores.{IsFirst, IsFirstAt};
ghost use Rattle.actor_core.specs.Lists.{no_lists};
ghost use Rattle.actor_core.specs.Standing.{Stands, HasGivenNone, IsLive, OfFeeder, OfJoiner, OfController, OfCollector};
ghost use Rattle.actor_core.specs.Families.{start_for};
ghost use Rattle.actor_core.specs.Numbers.{actor_at, cast_of};
ghost use Rattle.actor_core.specs.Tasks.{task_of};
ghost use Rattle.actor_core.specs.declared.machines.Core.TheVariants.{Controller as TheController, Collector as TheCollector};

use crate::machines::Core;
use epoch_tags::{Tuple, Tuples};
use joiner_core::Joiner;
use load_controller::Controller;
use pair_collector::Collector;
use reshuffler_core::Feeder;
use row_cells::{Cells, Side};
use row_tickets::{Place, share};
use std::alloc::{AllocError, Global};
use trace_law::{Input, Setting};

// The shift at which a run begins.
fn first_shift(setting: &Setting) -> u32
    ensures { result ≡ (first_rest setting.now).line.shift }
{
    setting.fixed.unwrap_or(setting.k / 2)
}

// Two to this power.
pub(crate) fn power(exponent: u32) -> u32
    requires { exponent < 32 }
    ensures { result ≡ 2 ^ exponent }
{
    1 << exponent
}

/// How many joiners there are. It takes no memory.
pub fn joiners_of(setting: &Setting) -> u32
    requires { setting.now.k ≤ 8 }
    ensures value { result ≡ 2 ^ setting.now.k }
    ensures few { result ≤ 256 }
{
    power(setting.k)
}

// The tuple of a row, not yet stamped.
pub(crate) fn tuple(alloc: Global, input: &Input, place: Place) -> Result<Tuple, AllocError>
    ensures { IfOk result (λ tuple. tuple ≡ tuple_of input.now 0 place) }
{
    let (table, tickets) = match place.side {
        Side::R => (&input.table_r, &input.tickets_r),
        Side::S => (&input.table_s, &input.tickets_s),
    };
    let cells = match table.rows.as_slice().get(place.index as usize) {
        Some(row) => row.copy()?,
        None => Cells::new(alloc),
    };
    let ticket = match tickets.as_slice().get(place.index as usize) {
        Some(ticket) => *ticket,
        None => 0,
    };
    Ok(Tuple {
        side: place.side,
        index: place.index,
        ticket,
        stamp: 0,
        cells,
    })
}

// The rows of a feeder's share, in order.
fn load(alloc: Global, input: &Input, setting: &Setting, p: u32) -> Result<Tuples, AllocError>
    requires input { IsValidInput input.now }
    requires feeder { p < setting.now.feeders }
    ensures { IfOk result (λ tuples. tuples ≡ map (tuple_of input.now 0)
        (share' setting.now.feed setting.now.feeders p (row_count input.now R')
        (row_count input.now S'))) }
{
    let rows_r = input.table_r.rows.len();
    let rows_s = input.table_s.rows.len();
    let places = share(alloc, setting.feed, setting.feeders, p, rows_r, rows_s)?;
    let mut tuples = Tuples::new(alloc);
    for place in places.as_slice() {
        tuples.push(tuple(alloc, input, *place)?)?;
    }
    Ok(tuples)
}

fn feeder<'a>(
    alloc: Global,
    input: &Input,
    setting: &Setting,
    p: u32,
) -> Result<Core<'a>, AllocError>
    requires input { IsValidInput input.now }
    requires setting { IsValidSetting setting.now }
    requires feeder { p < setting.now.feeders }
    ensures stands { IfOk result (λ core. Stands (OfFeeder p setting.now.feeders
        (feeder_start input.now setting.now (first_rest setting.now) p)) no_lists core) }
    ensures live { IfOk result IsLive }
    ensures given { IfOk result (HasGivenNone (2 ^ setting.now.k)) }
    ensures first { IfOk result (IsFirst input.now.theta (OfFeeder p setting.now.feeders
        (feeder_start input.now setting.now (first_rest setting.now) p))) }
{
    let load = load(alloc, input, setting, p)?;
    let shift = first_shift(setting);
    Ok(Core::Feeder(Feeder::start(alloc, setting.k, shift, p, load, setting.batch)))
}

fn joiner<'a>(
    alloc: Global,
    input: &'a Input,
    setting: &Setting,
    j: u32,
) -> Result<Core<'a>, AllocError>
    requires setting { IsValidSetting setting.now }
    requires joiner { j < 2 ^ setting.now.k }
    ensures stands { IfOk result (λ core. Stands
        (OfJoiner (joiner_start input.now setting.now (first_rest setting.now) j)) no_lists core) }
    ensures live { IfOk result IsLive }
    ensures given { IfOk result (HasGivenNone (2 ^ setting.now.k)) }
    ensures first { IfOk result (IsFirst input.now.theta
        (OfJoiner (joiner_start input.now setting.now (first_rest setting.now) j))) }
{
    let shift = first_shift(setting);
    let joiner = Joiner::start(alloc, setting.k, j, shift, setting.feeders, &input.theta)?;
    Ok(Core::Joiner(joiner))
}

fn controller<'a>(alloc: Global, setting: &Setting) -> Result<Core<'a>, AllocError>
    requires setting { IsValidSetting setting.now }
    ensures stands { IfOk result (λ core. Stands (OfController (record {
      rules = rules_of setting.now;
      first = begun (first_rest setting.now).line;
    })) no_lists core) }
    ensures live { IfOk result IsLive }
    ensures given { IfOk result (HasGivenNone (2 ^ setting.now.k)) }
    ensures first { IfOk result (λ core. core ≡ TheController
        (controller_begun (rules_of setting.now) (begun (first_rest setting.now).line))) }
{
    Ok(Core::Controller(Controller::start(
        alloc,
        setting.k,
        setting.feeders,
        setting.fixed,
        setting.weights,
    )?))
}

pub(crate) fn collector<'a>(alloc: Global, setting: &Setting) -> Result<Core<'a>, AllocError>
    requires setting { IsValidSetting setting.now }
    ensures stands { IfOk result (λ core. Stands (OfCollector (2 ^ setting.now.k)) no_lists core) }
    ensures live { IfOk result IsLive }
    ensures given { IfOk result (HasGivenNone (2 ^ setting.now.k)) }
    ensures first { IfOk result (λ core. core
        ≡ TheCollector (collector_begun (2 ^ setting.now.k))) }
{
    Ok(Core::Collector(Collector::start(alloc, joiners_of(setting))?))
}

/// The machine of the actor with this number, at the beginning of a run.
pub fn core_at<'a>(
    alloc: Global,
    input: &'a Input,
    setting: &Setting,
    n: u32,
) -> Result<Core<'a>, AllocError>
    requires input { IsValidInput input.now }
    requires setting { IsValidSetting setting.now }
    ensures stands { IfOk result (λ core. Stands (start_for (task_of input.now setting.now)
        (actor_at (cast_of setting.now) n)) no_lists core) }
    ensures live { IfOk result IsLive }
    ensures given { IfOk result (HasGivenNone (2 ^ setting.now.k)) }
    // all that it holds is determined by the input, the setting and its number
    ensures first { IfOk result (IsFirstAt (task_of input.now setting.now) n) }
{
    let joiners = joiners_of(setting);
    if n < setting.feeders {
        feeder(alloc, input, setting, n)
    } else if n < setting.feeders + joiners {
        joiner(alloc, input, setting, n - setting.feeders)
    } else if n == setting.feeders + joiners {
        controller(alloc, setting)
    } else {
        collector(alloc, setting)
    }
}
