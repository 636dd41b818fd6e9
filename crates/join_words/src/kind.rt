// How the tables are joined.

ghost use Rattle.std.specs.Prelude.{◌≡◌, map, option_map};
ghost use Rattle.join_words.specs.Words.{asked_chain, asked_kind, asked_wave, chain_of, grid_of, is_early as is_early'};
ghost use Rattle.join_words.specs.Words.{later_of, replay_of};

/// The grid of a run's joiners.
#[derive(Clone, Copy, Debug, PartialEq, Eq)]
pub struct Grid {
    /// There are 2^k joiners.
    pub k: u32,
    /// The grid's shift, where it was given: the grid then has 2^fixed columns, and stays so.
    pub fixed: Option<u32>,
}

/// The two files of a wave behind the first.
#[derive(Clone, Copy, Debug, PartialEq, Eq)]
pub struct Wave<'a> {
    /// The name of its file of R.
    pub name_r: &'a str,
    /// The name of its file of S.
    pub name_s: &'a str,
}

/// A second join, of the joined rows with a third file.
#[derive(Clone, Copy, Debug, PartialEq, Eq)]
pub struct Chain<'a> {
    /// The text of its predicate, in which `r` is the joined row and `s` a row of the third file.
    pub on: &'a str,
    /// The name of the third file.
    pub name: &'a str,
}

/// How the tables are joined, with what may be asked for of such a run alone.
#[derive(Debug, Drop, PartialEq, Eq)]
pub enum Kind<'a> {
    /// In waves: the rows that came later come in waves of their own, at most three. The run may be a replay, in the
    /// order of this seed. Each joiner may split into four behind a wave that isn't the last; no shift is fixed then.
    Waves {
        grid: Grid,
        replay: Option<u64>,
        later: Vec<Wave<'a>>,
        grow: Option<u32>,
    },
    /// In one wave, whose pairs are wanted as they are found, bout by bout.
    Early {
        grid: Grid,
    },
    /// By joiners in groups, one for each binary digit of their number, 1 to 64, of as many joiners as the digit is
    /// worth.
    Groups {
        joiners: u32,
    },
    /// Over rings, in whose run no thread waits for another's step.
    Rings {
        grid: Grid,
    },
    /// As a chain of two joins, the second of the joined rows with a third file.
    Chain {
        grid: Grid,
        chain: Chain<'a>,
    },
}

impl<'a> Kind<'a> {
    /// The grid. Groups have one each, so theirs is that of a single joiner.
    pub fn grid(&self) -> Grid
        ensures { result ≡ grid_of (asked_kind self.now) }
    {
        match self {
            Kind::Waves { grid, .. } => *grid,
            Kind::Early { grid } => *grid,
            Kind::Groups { .. } => Grid { k: 0, fixed: None },
            Kind::Rings { grid } => *grid,
            Kind::Chain { grid, .. } => *grid,
        }
    }

    /// The waves behind the first, in order.
    pub fn later(&self) -> &[Wave<'a>]
        ensures { map asked_wave result.now ≡ later_of (asked_kind self.now) }
    {
        match self {
            Kind::Waves { later, .. } => later.as_slice(),
            _ => &[],
        }
    }

    /// The seed of the order of a replay, where one is asked for.
    pub fn replay(&self) -> Option<u64>
        ensures { result ≡ replay_of (asked_kind self.now) }
    {
        match self {
            Kind::Waves { replay, .. } => *replay,
            _ => None,
        }
    }

    /// Whether the pairs are wanted as they are found.
    pub fn is_early(&self) -> bool
        ensures { result ≡ is_early' (asked_kind self.now) }
    {
        match self {
            Kind::Early { .. } => true,
            _ => false,
        }
    }

    /// The second join, where one is asked for.
    pub fn chain(&self) -> Option<Chain<'a>>
        ensures { option_map asked_chain result ≡ chain_of (asked_kind self.now) }
    {
        match self {
            Kind::Chain { chain, .. } => Some(*chain),
            _ => None,
        }
    }
}
