// Probes: what they ask of the stored tuples, and the ways to find the answer.

pub(crate) mod by_access;
pub(crate) mod by_key;
pub(crate) mod found_pairs;

use crate::by_stamp::Which;
use epoch_tags::Tuple;
use theta_pred::Theta;

// What a probe asks: with which stored tuples of the other side, of those that `which` names, the predicate is true of
// this one.
#[derive(Clone, Copy)]
pub(crate) struct Query<'a> {
    pub(crate) tuple: &'a Tuple,
    pub(crate) theta: &'a Theta,
    pub(crate) which: Which,
}
