// The range of some tests of two sums.

ghost use Rattle.std.specs.Prelude.{◌≡◌, map, not, option_map, true, IfOk};
ghost use Rattle.theta_pred.specs.Accesses.{
  first_interval,
  first_narrow,
  interval,
  interval_among,
  interval_of_two,
  narrow_of,
  range_of,
  reach_of,
  span,
  tells_more,
};
ghost use Rattle.theta_pred.specs.Keys.{atom_of, parts_on};
ghost use Rattle.theta_pred.specs.Spans.{bound_above, bound_below, do_enclose, first_met, is_one_sided, upright};

use crate::agree::{Interval, Range};
use crate::atom::KeyAtom;
use crate::spans::{first_met, met_with, parts_on, same_parts, same_test, upright};
use row_cells::Side;
use std::alloc::{AllocError, Global};

// Whether a test has one bound only.
fn is_one_sided(atom: &KeyAtom) -> bool
    ensures { result ≡ is_one_sided (atom_of atom.now) }
{
    if atom.low.is_some() {
        atom.high.is_none()
    } else {
        atom.high.is_some()
    }
}

// The bound below the sum of this side.
fn bound_below(side: Side, atom: &KeyAtom) -> Option<i128>
    ensures { result ≡ bound_below side (atom_of atom.now) }
{
    match side {
        Side::R => atom.low,
        Side::S => atom.high,
    }
}

// The bound above it.
fn bound_above(side: Side, atom: &KeyAtom) -> Option<i128>
    ensures { result ≡ bound_above side (atom_of atom.now) }
{
    match side {
        Side::R => atom.high,
        Side::S => atom.low,
    }
}

// Whether the tests have one sum of this side, the first a bound below it, the second one above.
fn do_enclose(points: Side, lower: &KeyAtom, upper: &KeyAtom) -> bool
    ensures { result ≡ do_enclose points (atom_of lower.now) (atom_of upper.now) }
{
    same_parts(parts_on(points, lower), parts_on(points, upper))
        && bound_below(points, lower).is_some()
        && bound_above(points, upper).is_some()
}

// The interval between these.
fn interval(points: Side, lower: &KeyAtom, upper: &KeyAtom) -> Result<Range, AllocError>
    requires { parts_on points (atom_of lower.now) ≡ parts_on points (atom_of upper.now) }
    ensures { IfOk result (λ range.
        reach_of range ≡ interval points (atom_of lower.now) (atom_of upper.now)) }
{
    Ok(Range::Interval(Interval {
        points,
        lower: lower.copy()?,
        upper: upper.copy()?,
    }))
}

// The interval that two tests make, in either order.
fn interval_of_two(points: Side, a: &KeyAtom, b: &KeyAtom) -> Result<Option<Range>, AllocError>
    ensures { IfOk result (λ range. option_map reach_of range
        ≡ interval_of_two points (atom_of a.now) (atom_of b.now)) }
{
    if do_enclose(points, a, b) {
        return Ok(Some(interval(points, a, b)?));
    }
    if do_enclose(points, b, a) {
        return Ok(Some(interval(points, b, a)?));
    }
    Ok(None)
}

// The first interval that a test makes with one of these.
fn first_interval(
    alloc: Global,
    points: Side,
    atom: &KeyAtom,
    others: &[KeyAtom],
) -> Result<Option<Range>, AllocError>
    ensures { IfOk result (λ range. option_map reach_of range
        ≡ first_interval points (atom_of atom.now) (map atom_of others.now)) }
{
    for other in others {
        let other = upright(alloc, points, other)?;
        if let Some(range) = interval_of_two(points, atom, &other)? {
            return Ok(Some(range));
        }
    }
    Ok(None)
}

// The same, of a test as it stands.
fn interval_on(
    alloc: Global,
    points: Side,
    atom: &KeyAtom,
    others: &[KeyAtom],
) -> Result<Option<Range>, AllocError>
    ensures { IfOk result (λ range. option_map reach_of range
        ≡ first_interval points (upright points (atom_of atom.now)) (map atom_of others.now)) }
{
    let atom = upright(alloc, points, atom)?;
    first_interval(alloc, points, &atom, others)
}

// The first interval of R's sum; where there is none, the first of S's.
fn interval_among(
    alloc: Global,
    atom: &KeyAtom,
    others: &[KeyAtom],
) -> Result<Option<Range>, AllocError>
    ensures { IfOk result (λ range. option_map reach_of range
        ≡ interval_among (atom_of atom.now) (map atom_of others.now)) }
{
    if let Some(range) = interval_on(alloc, Side::R, atom, others)? {
        return Ok(Some(range));
    }
    interval_on(alloc, Side::S, atom, others)
}

// What a test says that has two bounds, or makes an interval with one of these.
fn narrow_of(alloc: Global, atom: KeyAtom, others: &[KeyAtom]) -> Result<Option<Range>, AllocError>
    ensures { IfOk result (λ range. option_map reach_of range
        ≡ narrow_of (atom_of atom) (map atom_of others.now)) }
{
    if is_one_sided(&atom) {
        interval_among(alloc, &atom, others)
    } else {
        Ok(Some(Range::Span(atom)))
    }
}

// The first of these tests that does, each met with all.
fn first_narrow(
    alloc: Global,
    all: &[KeyAtom],
    atoms: &[KeyAtom],
) -> Result<Option<Range>, AllocError>
    ensures { IfOk result (λ range. option_map reach_of range
        ≡ first_narrow (map atom_of all.now) (map atom_of atoms.now)) }
{
    for atom in atoms {
        let met = met_with(atom.copy()?, all);
        if let Some(range) = narrow_of(alloc, met, all)? {
            return Ok(Some(range));
        }
    }
    Ok(None)
}

// The span of the first of some tests.
fn first_span(alloc: Global, spans: &[KeyAtom]) -> Result<Option<Range>, AllocError>
    ensures { IfOk result (λ range. option_map reach_of range
        ≡ option_map span (first_met (map atom_of spans.now))) }
{
    match first_met(spans)? {
        Some(atom) => Ok(Some(Range::Span(atom))),
        None => Ok(None),
    }
}

// The range of some tests, where there is one.
pub(crate) fn range_of(alloc: Global, spans: &[KeyAtom]) -> Result<Option<Range>, AllocError>
    ensures { IfOk result (λ range. option_map reach_of range ≡ range_of (map atom_of spans.now)) }
{
    if let Some(range) = first_narrow(alloc, spans, spans)? {
        return Ok(Some(range));
    }
    first_span(alloc, spans)
}

// Whether a range says more than this key atom.
pub(crate) fn tells_more(
    alloc: Global,
    key: &Option<KeyAtom>,
    range: &Option<Range>,
) -> Result<bool, AllocError>
    ensures { IfOk result (λ more. more
        ≡ tells_more (option_map atom_of key.now) (option_map reach_of range.now)) }
{
    match (key, range) {
        (_, None) => Ok(false),
        (Some(key), Some(Range::Span(atom))) => {
            let key = upright(alloc, Side::R, key)?;
            Ok(!same_test(&key, atom))
        }
        _ => Ok(true),
    }
}
