// The shape of a grid.

ghost use Rattle.std.specs.Prelude.{◌≡◌, ◌<◌, ◌^◌};

/// A grid of 2^k joiners with 2^shift columns, and so 2^(k - shift) rows.
#[derive(Clone, Copy, Debug, PartialEq, Eq)]
pub struct Shape {
    pub k: u32,
    pub shift: u32,
}

// Two to this power.
pub(crate) fn power(exponent: u32) -> u32
    requires { exponent < 32 }
    ensures { result ≡ 2 ^ exponent }
{
    1 << exponent
}
