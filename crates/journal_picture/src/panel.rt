// The panel of a journal.

ghost use Rattle.std.specs.Prelude.{◌≤◌};
ghost use Rattle.grid_map.specs.Load.{AreWeights};

use crate::axes::{tick, write_axis_across, write_axis_up, write_bound};
use crate::changes::{Step, steps, waves};
use crate::curve::{Greatest, Stretch, greatest_heights, stretches};
use crate::labels::{Labels, lanes};
use crate::place::{across, down, height, rows};
use crate::point::{Point, points};
use crate::words::{write_greatest, write_shapes};
use grid_map::Weights;
use load_controller::TurnLine;
use row_cells::Items;
use std::alloc::{AllocError, Global};

/// What is drawn of a journal of 2^k joiners.
#[derive(Drop)]
pub(crate) struct Chart {
    pub(crate) k: u32,
    /// How many rows were counted in the end.
    pub(crate) total: u64,
    pub(crate) greatest: Greatest,
    pub(crate) stretches: Items<Stretch>,
    pub(crate) steps: Items<Step>,
    /// The lines that begin the waves behind the first.
    pub(crate) waves: Items<TurnLine>,
}

fn last_rows(points: &[Point]) -> u64 {
    match points {
        [.., last] => last.rows,
        [] => 0,
    }
}

/// What is drawn of this journal.
pub(crate) fn make_chart(
    alloc: Global,
    k: u32,
    weights: Weights,
    journal: &[TurnLine],
) -> Result<Chart, AllocError>
    requires k { k ≤ 8 }
    requires weights { AreWeights weights }
{
    let points = points(alloc, k, weights, journal)?;
    let total = last_rows(points.as_slice());
    Ok(Chart {
        k,
        total,
        greatest: greatest_heights(points.as_slice()),
        stretches: stretches(alloc, total, points.as_slice())?,
        steps: steps(alloc, journal)?,
        waves: waves(alloc, journal)?,
    })
}

fn write_band(text: &mut String, total: u64, step: &Step) -> Result<(), AllocError> {
    let x = across(total, rows(step.begun));
    let width = across(total, rows(step.ended)).saturating_sub(x).max(1);
    write!(
        text,
        "<rect x='{x}' width='{width}' height='200' fill='#4c9be8' fill-opacity='.3'/>\n"
    )
}

fn write_bands(text: &mut String, chart: &Chart) -> Result<(), AllocError> {
    for step in chart.steps.as_slice() {
        write_band(text, chart.total, step)?;
    }
    Ok(())
}

/// Adds a mark where each wave behind the first begins, numbered from 2.
fn write_waves(text: &mut String, total: u64, waves: &[TurnLine]) -> Result<(), AllocError> {
    let mut wave: u64 = 1;
    for &line in waves {
        let x = across(total, rows(line));
        wave = wave.saturating_add(1);
        write!(
            text,
            "<path d='M{x} 0V200' stroke='#1c2733' stroke-dasharray='2 3'/><text x='{x}' dx='4' y='195' text-anchor='start'>wave {wave}</text>\n"
        )?;
    }
    Ok(())
}

fn write_label(
    text: &mut String,
    k: u32,
    step: &Step,
    place: u128,
    up: u64,
) -> Result<(), AllocError> {
    write!(
        text,
        "<g transform='translate({place} -{up})' text-anchor='start'><path d='M0 -8V{up}v200' stroke='#1f5fa8' stroke-opacity='.5'/><text x='4'>"
    )?;
    write_shapes(text, k, step)?;
    write!(text, "</text></g>\n")
}

fn write_labels(text: &mut String, chart: &Chart, lanes: u64) -> Result<(), AllocError> {
    let mut labels = Labels::none();
    for step in chart.steps.as_slice() {
        let place = across(chart.total, rows(step.begun));
        labels = labels.with(place);
        let up = lanes
            .saturating_sub(labels.lane)
            .saturating_mul(14)
            .saturating_sub(6);
        write_label(text, chart.k, step, place, up)?;
    }
    Ok(())
}

/// Adds a stretch: up to its highest point, and to its last, from where the curve goes on.
fn write_stretch(
    text: &mut String,
    total: u64,
    tick: u128,
    stretch: &Stretch,
) -> Result<(), AllocError> {
    let x = across(total, stretch.last.rows);
    let highest = down(tick, height(stretch.highest));
    let last = down(tick, height(stretch.last));
    write!(text, "H{x}V{highest}")?;
    if last != highest {
        write!(text, "V{last}")?;
    }
    Ok(())
}

fn write_curve(
    text: &mut String,
    total: u64,
    tick: u128,
    stretches: &[Stretch],
) -> Result<(), AllocError> {
    let [first, ..] = stretches else {
        return Ok(());
    };
    let x = across(total, first.last.rows);
    let y = down(tick, height(first.highest));
    write!(
        text,
        "<path fill='none' stroke='#1f5fa8' stroke-width='1.5' d='M{x} {y}"
    )?;
    for stretch in stretches {
        write_stretch(text, total, tick, stretch)?;
    }
    write!(text, "H600'/>\n")
}

/// The distance between the marks of the load, in thousandths of the best: five of them hold the bound and the curve.
fn tick_up(greatest: Greatest) -> u128 {
    let most = greatest.still.max(greatest.moving);
    tick(most.saturating_sub(1000), 5).max(100)
}

fn write_heading(
    text: &mut String,
    heading: &str,
    chart: &Chart,
    lanes: u64,
) -> Result<(), AllocError> {
    let up = lanes.saturating_mul(14).saturating_add(16);
    let total = chart.total;
    let changes = chart.steps.len();
    write!(
        text,
        "<g transform='translate(-40 -{up})' text-anchor='start'><text y='-16' font-size='13'>{heading}, rows counted: {total}, changes of the grid: {changes}</text><text>"
    )?;
    write_greatest(text, chart.greatest)?;
    write!(text, "</text></g>\n")
}

/// Adds the panel of a chart, so far below the top, and answers how high it is.
pub(crate) fn write_panel(
    text: &mut String,
    heading: &str,
    chart: &Chart,
    top: u64,
) -> Result<u64, AllocError> {
    let lanes = lanes(chart.total, chart.steps.as_slice());
    let above = lanes.saturating_mul(14).saturating_add(52);
    let plot = top.saturating_add(above);
    let tick = tick_up(chart.greatest);
    write!(text, "<g transform='translate(64 {plot})'>\n")?;
    write_heading(text, heading, chart, lanes)?;
    write_axis_up(text, tick)?;
    write_bands(text, chart)?;
    write_waves(text, chart.total, chart.waves.as_slice())?;
    write_labels(text, chart, lanes)?;
    write_axis_across(text, chart.total)?;
    write_bound(text, tick)?;
    write_curve(text, chart.total, tick, chart.stretches.as_slice())?;
    write!(text, "</g>\n")?;
    Ok(above.saturating_add(260))
}
