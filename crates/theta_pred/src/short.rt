// How long the sums of a predicate are.

ghost use Rattle.std.specs.Prelude.{◌≡◌};
ghost use Rattle.theta_tree.specs.Sizes;

use theta_tree::Pred;

/// How many terms the longest sum of the predicate has, or 0. It takes no memory.
pub fn longest_sum(pred: &Pred) -> u64
    ensures { result ≡ Sizes.longest_sum pred.now }
{
    match pred {
        Pred::Or(members) => {
            let mut longest = 0;
            for member in members {
                longest = longest_sum(member).max(longest);
            }
            longest
        }
        Pred::And(members) => {
            let mut longest = 0;
            for member in members {
                longest = longest_sum(member).max(longest);
            }
            longest
        }
        Pred::Not(member) => longest_sum(member),
        Pred::Num { left, op: _, right } => left.len().max(right.len()),
        Pred::Abs {
            sum,
            op: _,
            bound: _,
        } => sum.len(),
        Pred::Txt {
            left: _,
            op: _,
            right: _,
        } => 0,
    }
}
