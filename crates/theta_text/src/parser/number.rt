// The value of a number's digits.

ghost use Rattle.std.specs.Prelude.{◌≡◌, ◌<◌, ◌≤◌, pos, MatchOption};
ghost use Rattle.theta_tree.specs.Tokens.{number_of};

// The greatest number.
const GREATEST: u128 = 9223372036854775807;

// The number that the digits spell, or `None` where it is greater than the greatest.
pub(crate) fn number(digits: &[u8]) -> Option<i64>
    ensures { MatchOption result (9223372036854775807 < number_of digits.now)
        (λ value. (value ≡ pos (number_of digits.now))
        × (number_of digits.now ≤ 9223372036854775807)) }
{
    let mut value = 0;
    for b in digits {
        value = value * 10 + b.saturating_sub(b'0') as u128;
        if value > GREATEST {
            return None;
        }
    }
    Some(value as i64)
}
