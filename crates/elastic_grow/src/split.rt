// The four joiners that come of one.

ghost use Rattle.std.specs.Prelude.{◌≡◌, ◌*◌, ◌%◌, ◌<◌, ◌≤◌, ◌^◌};
ghost use Rattle.elastic_grow.specs.Children.{child, children_of, parent_of};

// Two to this power.
pub(crate) fn power(exponent: u32) -> u32
    requires { exponent < 32 }
    ensures { result ≡ 2 ^ exponent }
{
    1 << exponent
}

// Where a row of so many columns begins, in a grid of so many joiners at most.
fn begin(row: u32, shift: u32) -> u32
    requires row { row ≤ 2 ^ 10 }
    requires shift { shift ≤ 8 }
    ensures value { result ≡ row * 2 ^ shift }
    ensures small { result ≤ 2 ^ 18 }
{
    row * power(shift)
}

// The column of a joiner.
fn column(shift: u32, id: u32) -> u32
    requires shift { shift ≤ 8 }
    ensures value { result ≡ id % 2 ^ shift }
    ensures small { result ≤ 2 ^ 8 }
{
    id % power(shift)
}

// The child in this half of its parent's row, and in this half of its column.
fn child(shift: u32, id: u32, a: u32, d: u32) -> u32
    requires shift { shift ≤ 6 }
    requires id { id ≤ 2 ^ 8 }
    requires a { a ≤ 1 }
    requires d { d ≤ 1 }
    ensures { result ≡ child shift id a d }
{
    begin(2 * (id >> shift) + a, shift + 1) + (begin(d, shift) + column(shift, id))
}

/// The joiners of a grid of 2^(k + 2) and one more shift into which a joiner splits: the halves of its row, and in
/// each the halves of its column.
pub fn children(k: u32, shift: u32, id: u32) -> [u32; 4]
    requires within { shift ≤ k }
    requires small { k ≤ 6 }
    requires id { id < 2 ^ k }
    ensures { result ≡ children_of shift id }
{
    [
        child(shift, id, 0, 0),
        child(shift, id, 0, 1),
        child(shift, id, 1, 0),
        child(shift, id, 1, 1),
    ]
}

// The joiner whose child this one is.
pub(crate) fn parent(shift: u32, id: u32) -> u32
    requires shift { shift ≤ 6 }
    requires id { id ≤ 2 ^ 8 }
    ensures { result ≡ parent_of shift id }
{
    begin(id >> (shift + 2), shift) + column(shift, id)
}
