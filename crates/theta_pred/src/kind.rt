// The kinds of test that an index serves.

ghost use Rattle.std.specs.Prelude.{◌≡◌};
ghost use Rattle.theta_pred.specs.Keys.{is_num_kind, is_band_kind};

use theta_tree::Op;

#[derive(Clone, Copy)]
pub enum Kind {
    Equality,
    Band,
    Inequality,
}

impl Kind {
    // Whether a test of two sums is of this kind.
    pub(crate) fn is_of_num(self, op: Op) -> bool
        ensures { result ≡ is_num_kind self op }
    {
        match self {
            Kind::Equality => matches!(op, Op::Eq),
            Kind::Band => false,
            Kind::Inequality => matches!(op, Op::Lt | Op::Le | Op::Gt | Op::Ge),
        }
    }

    // Whether a test of an absolute value is of this kind.
    pub(crate) fn is_of_band(self, op: Op) -> bool
        ensures { result ≡ is_band_kind self op }
    {
        match self {
            Kind::Band => matches!(op, Op::Lt | Op::Le),
            Kind::Equality | Kind::Inequality => false,
        }
    }
}
