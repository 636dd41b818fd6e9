// The key atoms of predicates.

use super::texts::{is_told, over_x_and_a, write_atom};
use std::alloc::{AllocError, Global};
use std::process::Abort;
use std::test::Fail;
use theta_pred::{KeyAtom, Theta};

// R's columns, S's columns, the least and the greatest difference.
fn write_key(text: &mut String, key: &Option<KeyAtom>) -> Result<(), AllocError> {
    match key {
        Some(atom) => write_atom(text, atom),
        None => text.push_str("no key"),
    }
}

fn told(alloc: Global, key: &Option<KeyAtom>) -> Result<String, AllocError> {
    let mut text = String::new(alloc);
    match write_key(&mut text, key) {
        Ok(()) => Ok(text),
        Err(refused) => {
            drop(text);
            Err(refused)
        }
    }
}

fn copied(key: &Option<KeyAtom>) -> Result<Option<KeyAtom>, AllocError> {
    match key {
        Some(atom) => Ok(Some(atom.copy()?)),
        None => Ok(None),
    }
}

fn key_text(alloc: Global, theta: &Theta) -> Result<String, AllocError> {
    let key = theta.key_atom()?;
    let told = told(alloc, &key);
    drop(key);
    told
}

fn told_copy(alloc: Global, key: &Option<KeyAtom>) -> Result<String, AllocError> {
    let copy = copied(key)?;
    let told = told(alloc, &copy);
    drop(copy);
    told
}

fn copied_key_text(alloc: Global, theta: &Theta) -> Result<String, AllocError> {
    let key = theta.key_atom()?;
    let told = told_copy(alloc, &key);
    drop(key);
    told
}

fn is_told_so(rt: &impl Abort, told: String, wanted: &str, text: &str, how: &str) {
    is_told(rt, told.as_str(), wanted, text, how, "");
    drop(told);
}

// Tells the key of this predicate so, and its copy's.
fn tells_key(
    rt: &impl Abort,
    alloc: Global,
    theta: &Theta,
    text: &str,
    wanted: &str,
) -> Result<(), AllocError> {
    is_told_so(rt, key_text(alloc, theta)?, wanted, text, "");
    is_told_so(
        rt,
        copied_key_text(alloc, theta)?,
        wanted,
        text,
        ", of the copy",
    );
    Ok(())
}

fn tells_key_of(
    rt: &impl Abort,
    alloc: Global,
    text: &str,
    wanted: &str,
) -> Result<(), AllocError> {
    let theta = over_x_and_a(alloc, text)?;
    let outcome = tells_key(rt, alloc, &theta, text, wanted);
    drop(theta);
    outcome
}

// A line is a predicate and its key.
fn tells_line(rt: &impl Abort, alloc: Global, line: &str) -> Result<(), AllocError> {
    match line.split_once(" | ") {
        Some((text, wanted)) => tells_key_of(rt, alloc, text, wanted),
        None => Err(AllocError),
    }
}

fn tells_keys(rt: &impl Abort, alloc: Global, lines: &[&str]) -> Result<(), AllocError> {
    for line in lines {
        tells_line(rt, alloc, line)?;
    }
    Ok(())
}

#[test]
fn predicates_with_their_keys(rt: HostRuntime) -> Result<(), Fail> {
    let lines = [
        "r.x = s.a | +0 +1 0 0",
        "r.x + 5 = s.a | +0 +1 -5 -5",
        "s.a - r.x = 3 | -0 -1 3 3",
        "r.x + r.x - r.a = s.x + s.x | +0+0-1 +0+0 0 0",
        "r.x = s.x - 9223372036854775807 | +0 +0 -9223372036854775807 -9223372036854775807",
        "abs(r.a - s.a) <= 2 and r.x >= s.x | +1 +1 -2 2",
        "abs(r.x - s.a + 1) < 3 | +0 +1 -3 1",
        "abs(r.x - s.x) < 0 | +0 +0 1 -1",
        "r.x - s.x <= 4 | +0 +0 none 4",
        "r.x < s.x and text(r.a) = 'u' | +0 +0 none -1",
        "r.x >= s.x | +0 +0 0 none",
        "r.x > s.x + 2 | +0 +0 3 none",
    ];
    tells_keys(&rt, rt.alloc(), &lines)?;
    Ok(())
}

#[test]
fn the_first_member_has_the_key(rt: HostRuntime) -> Result<(), Fail> {
    let lines = [
        "r.x < s.x and abs(r.a - s.x) <= 2 and r.x = s.a and r.a = s.x | +0 +1 0 0",
        "r.x < s.x and (r.x = s.a and r.a = s.x) | +0 +0 none -1",
        "(r.x < s.x and r.x = s.a) | +0 +1 0 0",
        "r.x = 3 and r.x > s.x | +0 +0 1 none",
    ];
    tells_keys(&rt, rt.alloc(), &lines)?;
    Ok(())
}

#[test]
fn predicates_without_a_key(rt: HostRuntime) -> Result<(), Fail> {
    let lines = [
        "r.x = 3 | no key",
        "r.x = s.x or 1 = 1 | no key",
        "not r.x = s.x | no key",
        "r.x != s.x | no key",
        "text(r.x) = text(s.x) | no key",
    ];
    tells_keys(&rt, rt.alloc(), &lines)?;
    Ok(())
}
