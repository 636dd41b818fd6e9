// What a row finds in a store, as a text.

ghost use Rattle.std.specs.Prelude.{◌≡◌, ◌<◌};
ghost use Rattle.store_parts.specs.Accessed.{IsOwnAccess};
ghost use Rattle.store_parts.specs.Keyed.{IsOwn};
ghost use Rattle.store_parts.specs.Matches.{HasWidth};
ghost use Rattle.store_parts.specs.Stored.{HaveWidths};

use super::rows::tuple;
use epoch_tags::{Pairs, Tuple};
use std::alloc::{AllocError, Global};
use std::marker::Brand;
use std::process::Abort;
use std::sync::ledger::{Blank, Ledger};
use std::test::*;
use store_parts::{Steps, Store, Which};
use theta_pred::Theta;

// What a probe is to find: a row, the stored tuples that it looks at, and the pairs as a text.
#[derive(Clone, Copy)]
pub(super) struct Probe<'a> {
    pub(super) line: &'a str,
    pub(super) which: Which,
    pub(super) wanted: &'a str,
}

// How many tuples a probe evaluates can't be read: a step has no code.
fn counted<L: Ledger>(
    alloc: Global,
    store: &Store,
    tuple: &Tuple,
    theta: &Theta,
    which: Which,
    blank: Blank,
) -> Result<Pairs, AllocError>
    requires width { HasWidth theta.now tuple.now.side tuple.now }
    requires widths { HaveWidths theta.now store.now }
    requires own { IsOwn theta.now store.now.key }
    requires name { blank.name ≡ L.name }
    requires parts { blank.parts ≡ L.parts }
    requires some { 0 < blank.parts }
{
    let mut found = Pairs::new(alloc);
    let mut steps = Steps::<L>::new(blank);
    let outcome = store.probe(tuple, theta, which, &mut found, &mut steps);
    drop(steps);
    match outcome {
        Ok(()) => Ok(found),
        Err(refused) => {
            drop(found);
            Err(refused)
        }
    }
}

fn found(
    alloc: Global,
    store: &Store,
    tuple: &Tuple,
    theta: &Theta,
    which: Which,
) -> Result<Pairs, AllocError>
    requires width { HasWidth theta.now tuple.now.side tuple.now }
    requires widths { HaveWidths theta.now store.now }
    requires own { IsOwn theta.now store.now.key }
{
    counted::<Brand>(alloc, store, tuple, theta, which, Blank::new(1))
}

// The same as a joiner finds them.
fn found_uncounted(
    alloc: Global,
    store: &Store,
    tuple: &Tuple,
    theta: &Theta,
    which: Which,
) -> Result<Pairs, AllocError>
    requires width { HasWidth theta.now tuple.now.side tuple.now }
    requires widths { HaveWidths theta.now store.now }
    requires own { IsOwn theta.now store.now.key }
    requires access { IsOwnAccess theta.now store.now.access }
{
    let mut found = Pairs::new(alloc);
    match store.find_uncounted(tuple, theta, which, &mut found) {
        Ok(()) => Ok(found),
        Err(refused) => {
            drop(found);
            Err(refused)
        }
    }
}

fn write_pairs(text: &mut String, pairs: &Pairs) -> Result<(), AllocError> {
    for pair in pairs.as_slice() {
        let i = pair.i;
        let j = pair.j;
        write!(text, "[{i} {j}]")?;
    }
    Ok(())
}

// These pairs as a text.
fn text(alloc: Global, pairs: Pairs) -> Result<String, AllocError> {
    let mut text = String::new(alloc);
    let outcome = write_pairs(&mut text, &pairs);
    drop(pairs);
    match outcome {
        Ok(()) => Ok(text),
        Err(refused) => {
            drop(text);
            Err(refused)
        }
    }
}

// That the pairs that a row finds are told so.
fn is_told(rt: &impl Abort, told: &str, probe: Probe<'_>, how: &str) {
    let line = probe.line;
    let which = probe.which;
    assert!(rt; told == probe.wanted, "{line}, {which:?}{how}");
}

fn tells(
    rt: &impl Abort,
    alloc: Global,
    pairs: Pairs,
    probe: Probe<'_>,
    how: &str,
) -> Result<(), AllocError> {
    let told = text(alloc, pairs)?;
    is_told(rt, told.as_str(), probe, how);
    drop(told);
    Ok(())
}

// That a tuple finds these pairs, by a probe that counts and as a joiner finds them.
fn finds_both_ways(
    rt: &impl Abort,
    alloc: Global,
    store: &Store,
    theta: &Theta,
    tuple: &Tuple,
    probe: Probe<'_>,
) -> Result<(), AllocError>
    requires width { HasWidth theta.now tuple.now.side tuple.now }
    requires widths { HaveWidths theta.now store.now }
    requires own { IsOwn theta.now store.now.key }
    requires access { IsOwnAccess theta.now store.now.access }
{
    let first = found(alloc, store, tuple, theta, probe.which)?;
    tells(rt, alloc, first, probe, "")?;
    let second = found_uncounted(alloc, store, tuple, theta, probe.which)?;
    tells(rt, alloc, second, probe, ", as a joiner finds them")
}

// That a row finds them.
pub(super) fn finds(
    rt: &impl Abort,
    alloc: Global,
    store: &Store,
    theta: &Theta,
    probe: Probe<'_>,
) -> Result<(), AllocError>
    requires r { theta.now.width_r ≡ 2 }
    requires s { theta.now.width_s ≡ 2 }
    requires widths { HaveWidths theta.now store.now }
    requires own { IsOwn theta.now store.now.key }
    requires access { IsOwnAccess theta.now store.now.access }
{
    let tuple = tuple(alloc, probe.line)?;
    let outcome = finds_both_ways(rt, alloc, store, theta, &tuple, probe);
    drop(tuple);
    outcome
}

fn named(word: &str) -> Which {
    match word.parse::<u32>() {
        Ok(stamp) => Which::OnlyStamp(stamp),
        Err(_) => Which::All,
    }
}

// A probe is a row, the stamp that it looks at or `all`, and the pairs that it finds.
fn find_one(
    rt: &impl Abort,
    alloc: Global,
    store: &Store,
    theta: &Theta,
    probe: &str,
) -> Result<(), AllocError>
    requires r { theta.now.width_r ≡ 2 }
    requires s { theta.now.width_s ≡ 2 }
    requires widths { HaveWidths theta.now store.now }
    requires own { IsOwn theta.now store.now.key }
    requires access { IsOwnAccess theta.now store.now.access }
{
    let Some((line, rest)) = probe.split_once(" among ") else {
        return Err(AllocError);
    };
    let Some((word, wanted)) = rest.split_once(" finds ") else {
        return Err(AllocError);
    };
    let which = named(word);
    let probe = Probe {
        line,
        which,
        wanted,
    };
    finds(rt, alloc, store, theta, probe)
}

// That each of these does.
pub(super) fn find(
    rt: &impl Abort,
    alloc: Global,
    store: &Store,
    theta: &Theta,
    probes: &[&str],
) -> Result<(), AllocError>
    requires r { theta.now.width_r ≡ 2 }
    requires s { theta.now.width_s ≡ 2 }
    requires widths { HaveWidths theta.now store.now }
    requires own { IsOwn theta.now store.now.key }
    requires access { IsOwnAccess theta.now store.now.access }
{
    for probe in probes {
        find_one(rt, alloc, store, theta, probe)?;
    }
    Ok(())
}
