// Equal headers.

ghost use Rattle.std.specs.Prelude.{◌≡◌};
ghost use Rattle.join_plan.specs.Headers;

use row_cells::Bytes;

/// Whether two headers have the same names.
pub(crate) fn same_names(one: &[Bytes], other: &[Bytes]) -> bool
    ensures { result ≡ Headers.same_names one.now other.now }
{
    if one.len() != other.len() {
        return false;
    }
    for place in 0..one.len() {
        if one[place].as_slice() != other[place].as_slice() {
            return false;
        }
    }
    true
}
