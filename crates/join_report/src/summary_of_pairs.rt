// The summary of a join.

ghost use Rattle.std.specs.Prelude.{◌≡◌, ◌<◌, ◌^◌, IfOk, string_bytes, sum_by};
ghost use Rattle.join_report.specs.Summary.{numbers_of as numbers_of', summary_of};

use epoch_tags::Pair;
use std::alloc::{AllocError, Global};

/// The numbers of a pair's rows, counted from 1, added up.
fn numbers_of(pair: Pair) -> u64
    ensures { result ≡ numbers_of' pair }
{
    (u64::from(pair.i) + 1) + (u64::from(pair.j) + 1)
}

/// Their sum over all pairs.
fn sum(pairs: &[Pair]) -> u64
    requires { sum_by numbers_of' pairs.now < 2 ^ 64 }
    ensures { result ≡ sum_by numbers_of' pairs.now }
{
    let mut sum = 0;
    for pair in pairs {
        sum += numbers_of(*pair);
    }
    sum
}

/// The summary of a join of `rows_r` rows of R with `rows_s` of S: a line `rows x y` of these numbers; a line
/// `pairs p`, how many pairs there are; and a line `sum z`, the numbers of the rows of all pairs, counted from 1,
/// added up. Pairs of rows of two tables always keep the condition.
pub fn summary_text(
    alloc: Global,
    rows_r: u64,
    rows_s: u64,
    pairs: &[Pair],
) -> Result<String, AllocError>
    requires small { sum_by numbers_of' pairs.now < 2 ^ 64 }
    ensures { IfOk result (λ text. string_bytes text ≡ summary_of rows_r rows_s pairs.now) }
{
    let count = pairs.len();
    let sum = sum(pairs);
    let mut text = String::new(alloc);
    write!(text, "rows {rows_r} {rows_s}\npairs {count}\nsum {sum}\n")?;
    Ok(text)
}
