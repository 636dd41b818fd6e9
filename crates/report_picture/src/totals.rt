// What the joiners have together, and the most that one has.

ghost use Rattle.std.specs.Prelude.{◌≡◌, ◌≤◌, ◌+◌, ◌^◌, length};
ghost use Rattle.report_picture.specs.Totals as of;

use report_lines::Joiner;

/// The rows and the pairs of all joiners, and the most rows that one joiner holds.
#[derive(Clone, Copy)]
pub(crate) struct Totals {
    pub rows_r: u128,
    pub rows_s: u128,
    pub made: u128,
    pub most: u128,
}

/// How many rows a joiner holds.
pub(crate) fn held(joiner: Joiner) -> u128
    ensures { result ≡ of.held_by joiner }
{
    u128::from(joiner.rows_r) + u128::from(joiner.rows_s)
}

fn plus(total: u128, more: u64) -> u128
    requires { total ≤ 2 ^ 80 }
    ensures sum { result ≡ total + more }
    ensures within { result ≤ total + 2 ^ 64 }
{
    total + u128::from(more)
}

/// The totals of at most 256 by 256 joiners.
#[tactic(auto, using(std::proofs::lemmas::List::Sums::sum_by_more, std::proofs::lemmas::List::Sums::fold_more))]
pub(crate) fn sum_up(joiners: &[Joiner]) -> Totals
    requires { length joiners.now ≤ 2 ^ 16 }
    ensures rows_r { result.rows_r ≡ of.all_rows_r joiners.now }
    ensures rows_s { result.rows_s ≡ of.all_rows_s joiners.now }
    ensures made { result.made ≡ of.all_made joiners.now }
    ensures most { result.most ≡ of.most_held joiners.now }
{
    let mut rows_r = 0;
    let mut rows_s = 0;
    let mut made = 0;
    let mut most: u128 = 0;
    for &joiner in joiners {
        rows_r = plus(rows_r, joiner.rows_r);
        rows_s = plus(rows_s, joiner.rows_s);
        made = plus(made, joiner.made);
        most = most.max(held(joiner));
    }
    Totals {
        rows_r,
        rows_s,
        made,
        most,
    }
}
