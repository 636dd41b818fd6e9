// Which stored tuples a probe looks at.

ghost use Rattle.std.specs.Prelude.{◌≡◌};
ghost use Rattle.store_parts.specs.Matches.{is_named};

use epoch_tags::Tuple;

/// The stored tuples that a probe looks at: all, or those with this stamp.
#[derive(Clone, Copy, Debug, PartialEq, Eq)]
pub enum Which {
    All,
    OnlyStamp(u32),
}

impl Which {
    pub(crate) fn names(self, tuple: &Tuple) -> bool
        ensures { result ≡ is_named self tuple.now }
    {
        match self {
            Which::All => true,
            Which::OnlyStamp(stamp) => tuple.stamp == stamp,
        }
    }
}
