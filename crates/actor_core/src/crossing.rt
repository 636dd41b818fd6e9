// That predicates may be read by several threads, and accesses may go to another, said once: the proof that a machine
// may go to another thread stands on it, and would else go down through the predicate's tree.

ghost use denote.Param.Send.{IsSend, IsSync};
ghost use Rattle.theta_pred.specs.contracts.agree.Access as access;
ghost use Rattle.theta_pred.specs.contracts.theta.Theta as theta;

use std::marker::{Send, Sync};
use theta_pred::{Access, Theta};

fn may_share<T: Sync>()
    ensures { IsSync T.row }
{}

fn may_send<T: Send>()
    ensures { IsSend T.row }
{}

/// A predicate may be read by several threads at once, and an access, which has predicates of its own, may go to
/// another thread.
pub fn shares_predicates()
    ensures shared { IsSync theta.the_row }
    ensures sent { IsSend access.the_row }
{
    may_share::<Theta>();
    may_send::<Access>();
}
