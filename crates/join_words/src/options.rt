// What the words ask for, and what may be wrong with them.

ghost use Rattle.std.proofs.Props.{props};
ghost use Rattle.grid_map.specs.Load.{AreWeights};
ghost use Rattle.join_words.specs.Requests.{AreCounted, StandTogether, asked_kind};

use crate::kind::Kind;
use grid_map::Weights;
use row_tickets::Feed;

/// What the words ask for, and can be asked for at once: each number is within the bounds that stand at its field, and
/// nothing is said beside what it doesn't stand together with.
#[derive(Debug, Drop, PartialEq, Eq)]
pub struct Options<'a> {
    /// The text of the predicate.
    pub on: &'a str,
    /// How the tables are joined.
    pub kind: Kind<'a>,
    /// How many feeders share the rows, 1 to 8.
    pub feeders: u32,
    /// How many threads work the run, 1 to 16. A replay has one thread, whatever stands here.
    pub workers: u32,
    /// How many rows a feeder asks for at once, 1 to 4,096.
    pub batch: u32,
    /// In which order a feeder takes its rows.
    pub feed: Feed,
    /// What a row of each side weighs in a grid's load, 1 to 1,024. The grid follows the load, which the rows
    /// of a side weigh in with their number times this.
    pub weights: Weights,
    /// The seed of the tickets.
    pub seed: u64,
    /// How many rows a side has, 1 to 65,536, where tables are to be made. There are no files then: no later wave, no
    /// second join, and no joined rows; nor are pairs wanted early.
    pub make: Option<u64>,
    /// A report is wanted beside the output.
    pub report: bool,
    /// The joined rows are wanted in place of their numbers. They aren't where pairs are wanted early, nor of a chain.
    pub rows: bool,
    /// The name of the first wave's file of R, empty where tables are made.
    pub name_r: &'a str,
    /// The name of the first wave's file of S, empty where tables are made.
    pub name_s: &'a str,
    pub ghost counted: { AreCounted feeders workers batch },
    pub ghost weighed: { AreWeights weights },
    pub ghost together: { StandTogether (asked_kind kind) make rows } by { Prim.hlevel props },
}

/// What is wrong with the words. Where several things are, the first in this order is told.
#[derive(Clone, Copy, Debug, PartialEq, Eq)]
pub enum WordsFault {
    /// The list of words is empty, or the command has no match for it, or `--feed` has no order's name. A
    /// request for help or for the version is no match.
    NoMatch,
    /// The number of joiners isn't a power of two. With `--groups` any number will do.
    Joiners,
    /// `--fixed` is given without `--groups`, and is greater than k.
    Fixed,
    /// `--early` stands with `--replay`, `--make`, `--rows` or more than two names of files; `--make` stands with
    /// `--rows`;
    /// `--groups` stands with `--fixed`, `--early`, `--replay`, `--then` or more than two names of files; `--then`
    /// stands with `--early`, `--rows`, `--make` or `--replay`; `--rings` stands with `--groups`, `--then`, `--early`,
    /// `--replay` or more than two names of files; `--grow` stands with `--fixed`, `--groups`, `--then` or `--rings`,
    /// or twice its number isn't below the number of names of files.
    Together,
    /// There aren't two, four, six or eight names of files, or with `--then` there aren't three, or with `--make` there
    /// is one.
    Files,
}

/// Why nothing was read from the words.
#[derive(Clone, Copy, Debug, PartialEq, Eq)]
pub enum WordsError {
    Fault(WordsFault),
    Memory,
}
