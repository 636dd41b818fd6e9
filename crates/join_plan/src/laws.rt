// What holds of every plan.

ghost use Rattle.join_plan.specs.Plan.{EveryRequestHasAPlan, RequestsHaveOnePlan};

/// Whatever the words ask for, over any files there is one plan of it, and no second. It does
/// nothing: its contract is the law.
pub fn requests_have_one_plan()
    ensures some { EveryRequestHasAPlan }
    ensures one { RequestsHaveOnePlan }
{}
