mod by_hand;
mod inputs;
mod later;
mod rows;
mod seeds;
mod starving;
mod waves;

use std::fmt::Debug;
use std::process::Abort;

// That these are equal: one call, where an assertion in its place is dear to prove.
fn is<T: Copy + Debug + PartialEq>(rt: &impl Abort, seen: T, wanted: T, what: &str) {
    assert!(rt; seen == wanted, "{what}");
}
