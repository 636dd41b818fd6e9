// Predicates over two columns, stores with their keys and accesses, and what such stores find.

mod equalities;
mod kept;
mod many;
mod own;
mod probes;
mod ranges;
mod rows;

ghost use Rattle.std.specs.Prelude.{◌≡◌, IfOk};
ghost use Rattle.store_parts.specs.Accessed.{IsOwnAccess};
ghost use Rattle.store_parts.specs.Keyed.{IsOwn};
ghost use Rattle.store_parts.specs.Stored.{HaveWidths};

use probes::find;
use row_cells::{Bytes, Names};
use rows::filled;
use std::alloc::{AllocError, Global};
use std::process::Abort;
use store_parts::{KeyAtom, Store};
use theta_pred::{ResolveFault, Theta, resolve};
use theta_text::parse;

fn theta_from(answer: Result<Theta, ResolveFault>) -> Result<Theta, AllocError> {
    match answer {
        Ok(theta) => Ok(theta),
        Err(fault) => {
            drop(fault);
            Err(AllocError)
        }
    }
}

// The predicate of a text over two tables with these columns.
fn over(alloc: Global, text: &str, names: &Names) -> Result<Theta, AllocError> {
    match parse(alloc, text) {
        Ok(pred) => {
            let answer = resolve(alloc, &pred, names, names);
            drop(pred);
            theta_from(answer)
        }
        Err(_) => Err(AllocError),
    }
}

// The columns x and a.
fn x_and_a(alloc: Global) -> Result<Names, AllocError> {
    let mut names = Names::new(alloc);
    match push_x_and_a(alloc, &mut names) {
        Ok(()) => Ok(names),
        Err(refused) => {
            drop(names);
            Err(refused)
        }
    }
}

fn push_x_and_a(alloc: Global, names: &mut Names) -> Result<(), AllocError> {
    names.push(Bytes::from_slice(alloc, b"x")?)?;
    names.push(Bytes::from_slice(alloc, b"a")?)
}

// The predicate of a text over two tables with these.
fn read_over_x_and_a(alloc: Global, text: &str) -> Result<Theta, AllocError> {
    let names = x_and_a(alloc)?;
    let theta = over(alloc, text, &names);
    drop(names);
    theta
}

fn has_two_columns_a_side(rt: &impl Abort, theta: &Theta)
    ensures r { theta.now.width_r ≡ 2 }
    ensures s { theta.now.width_s ≡ 2 }
{
    assert_eq!(rt; theta.width_r(), 2);
    assert_eq!(rt; theta.width_s(), 2);
}

// The same, of which is known that they have two columns.
fn over_x_and_a(rt: &impl Abort, alloc: Global, text: &str) -> Result<Theta, AllocError>
    ensures r { IfOk result (λ theta. theta.width_r ≡ 2) }
    ensures s { IfOk result (λ theta. theta.width_s ≡ 2) }
{
    let theta = read_over_x_and_a(alloc, text)?;
    has_two_columns_a_side(rt, &theta);
    Ok(theta)
}

fn no_key(theta: &Theta) -> Option<KeyAtom>
    ensures { IsOwn theta.now result }
{
    None
}

fn key(theta: &Theta) -> Result<Option<KeyAtom>, AllocError>
    ensures { IfOk result (IsOwn theta.now) }
{
    theta.key_atom()
}

fn key_copy(alloc: Global, theta: &Theta) -> Result<Option<KeyAtom>, AllocError>
    ensures { IfOk result (IsOwn theta.now) }
{
    let key = key(theta)?;
    let copy = copied(alloc, theta, &key);
    drop(key);
    copy
}

// The copy of a predicate's key.
fn copied(
    alloc: Global,
    theta: &Theta,
    key: &Option<KeyAtom>,
) -> Result<Option<KeyAtom>, AllocError>
    requires { IsOwn theta.now key.now }
    ensures { IfOk result (IsOwn theta.now) }
{
    match key {
        Some(key) => Ok(Some(key.copy()?)),
        None => Ok(None),
    }
}

fn has_key(theta: &Theta) -> Result<bool, AllocError> {
    let key = theta.key_atom()?;
    let has = key.is_some();
    drop(key);
    Ok(has)
}

fn has_access(theta: &Theta) -> Result<bool, AllocError> {
    let access = theta.access()?;
    let has = access.is_some();
    drop(access);
    Ok(has)
}

// That a store with this key finds these.
fn find_with(
    rt: &impl Abort,
    alloc: Global,
    theta: &Theta,
    key: Option<KeyAtom>,
    lines: &[&str],
    probes: &[&str],
) -> Result<(), AllocError>
    requires r { theta.now.width_r ≡ 2 }
    requires s { theta.now.width_s ≡ 2 }
    requires own { IsOwn theta.now key }
{
    let store = filled(alloc, theta, Store::new(alloc, key), lines)?;
    let outcome = find(rt, alloc, &store, theta, probes);
    drop(store);
    outcome
}

// The same store with the predicate's access.
fn with_its_access(theta: &Theta, store: Store) -> Result<Store, AllocError>
    requires widths { HaveWidths theta.now store }
    requires own { IsOwn theta.now store.key }
    ensures widths { IfOk result (λ store. HaveWidths theta.now store) }
    ensures own { IfOk result (λ store. IsOwn theta.now store.key) }
    ensures access { IfOk result (λ store. IsOwnAccess theta.now store.access) }
{
    match theta.access() {
        Ok(access) => store.with_access(access),
        Err(refused) => {
            drop(store);
            Err(refused)
        }
    }
}

// A store with the predicate's key and access.
fn accessed(alloc: Global, theta: &Theta) -> Result<Store, AllocError>
    ensures widths { IfOk result (λ store. HaveWidths theta.now store) }
    ensures own { IfOk result (λ store. IsOwn theta.now store.key) }
    ensures access { IfOk result (λ store. IsOwnAccess theta.now store.access) }
{
    with_its_access(theta, Store::new(alloc, key(theta)?))
}

// That a store that has the access before its rows finds these.
fn find_by_access(
    rt: &impl Abort,
    alloc: Global,
    theta: &Theta,
    lines: &[&str],
    probes: &[&str],
) -> Result<(), AllocError>
    requires r { theta.now.width_r ≡ 2 }
    requires s { theta.now.width_s ≡ 2 }
{
    let store = filled(alloc, theta, accessed(alloc, theta)?, lines)?;
    let outcome = find(rt, alloc, &store, theta, probes);
    drop(store);
    outcome
}

// A store of these lines that is given the access after them.
fn accessed_after(alloc: Global, theta: &Theta, lines: &[&str]) -> Result<Store, AllocError>
    requires r { theta.now.width_r ≡ 2 }
    requires s { theta.now.width_s ≡ 2 }
    ensures widths { IfOk result (λ store. HaveWidths theta.now store) }
    ensures own { IfOk result (λ store. IsOwn theta.now store.key) }
    ensures access { IfOk result (λ store. IsOwnAccess theta.now store.access) }
{
    let store = filled(alloc, theta, Store::new(alloc, key(theta)?), lines)?;
    with_its_access(theta, store)
}

// That such a store finds these, too.
fn find_by_later_access(
    rt: &impl Abort,
    alloc: Global,
    theta: &Theta,
    lines: &[&str],
    probes: &[&str],
) -> Result<(), AllocError>
    requires r { theta.now.width_r ≡ 2 }
    requires s { theta.now.width_s ≡ 2 }
{
    let store = accessed_after(alloc, theta, lines)?;
    let outcome = find(rt, alloc, &store, theta, probes);
    drop(store);
    outcome
}

// The same with no key, with the predicate's, with a copy of it, and by the predicate's access.
fn find_with_each(
    rt: &impl Abort,
    alloc: Global,
    theta: &Theta,
    lines: &[&str],
    probes: &[&str],
) -> Result<(), AllocError>
    requires r { theta.now.width_r ≡ 2 }
    requires s { theta.now.width_s ≡ 2 }
{
    find_with(rt, alloc, theta, no_key(theta), lines, probes)?;
    find_with(rt, alloc, theta, key(theta)?, lines, probes)?;
    find_with(rt, alloc, theta, key_copy(alloc, theta)?, lines, probes)?;
    find_by_access(rt, alloc, theta, lines, probes)?;
    find_by_later_access(rt, alloc, theta, lines, probes)
}

// Whether the predicate has a key, and whether an access.
fn finds_by(
    rt: &impl Abort,
    theta: &Theta,
    predicate: &str,
    wanted: (bool, bool),
) -> Result<(), AllocError> {
    let found = (has_key(theta)?, has_access(theta)?);
    assert!(rt; found == wanted, "{predicate}");
    Ok(())
}

// That a store of these lines finds these, whatever its key, and by the access, which there is or isn't.
fn probed(
    rt: &impl Abort,
    alloc: Global,
    predicate: &str,
    keyed: bool,
    accessed: bool,
    lines: &[&str],
    probes: &[&str],
) -> Result<(), AllocError> {
    let theta = over_x_and_a(rt, alloc, predicate)?;
    let outcome = probed_by(
        rt,
        alloc,
        &theta,
        predicate,
        (keyed, accessed),
        lines,
        probes,
    );
    drop(theta);
    outcome
}

fn probed_by(
    rt: &impl Abort,
    alloc: Global,
    theta: &Theta,
    predicate: &str,
    wanted: (bool, bool),
    lines: &[&str],
    probes: &[&str],
) -> Result<(), AllocError>
    requires r { theta.now.width_r ≡ 2 }
    requires s { theta.now.width_s ≡ 2 }
{
    finds_by(rt, theta, predicate, wanted)?;
    find_with_each(rt, alloc, theta, lines, probes)
}
