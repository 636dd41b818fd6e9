// What is kept of one joiner.

ghost use Rattle.std.specs.Prelude.{◌≡◌, OnOk, OnErr, length, drop, is_some, slice_index};
ghost use Rattle.pair_collector.specs.Standing.{kept_after, nothing_kept, moves_of, held_of};

use crate::collected::Held;
use epoch_tags::{Counts, Pair, ToCollector};
use std::alloc::{AllocError, Global};
use std::marker::Model;

/// What a joiner's `Fin` carries.
#[derive(Debug, Drop)]
pub(crate) struct Last {
    pub(crate) held: Held,
    pub(crate) moved: Counts,
}

/// The pairs of one joiner up to its first `Fin`, and what that carries.
#[derive(Debug, Drop)]
pub(crate) struct Part {
    pairs: Vec<Pair>,
    last: Option<Last>,
}

impl Model for Part {
    ghost use Rattle.pair_collector.specs.Kept.{Kept};

    ghost Value = { Kept };

    ghost view = { λ p. record { pairs = p.pairs.items; last = p.last } };
}

impl Part {
    pub(crate) fn new(alloc: Global) -> Part
        ensures { result ≡ nothing_kept }
    {
        Part {
            pairs: Vec::new(alloc),
            last: None,
        }
    }

    /// Takes the joiner's next message. Nothing counts behind a `Fin`.
    pub(crate) fn take(&mut self, m: ToCollector) -> Result<(), AllocError>
        ensures ok { OnOk result (self.new ≡ kept_after self.old m) }
        ensures err { OnErr result (self.new ≡ self.old) }
    {
        if self.last.is_some() {
            return Ok(());
        }
        match m {
            ToCollector::Found(pairs) => self.pairs.extend_from_slice(pairs.as_slice()),
            ToCollector::Fin {
                rows_r,
                rows_s,
                moved,
            } => {
                let held = Held { rows_r, rows_s };
                self.last = Some(Last { held, moved });
                Ok(())
            }
        }
    }

    /// Whether the joiner has ended.
    pub(crate) fn ended(&self) -> bool
        ensures { result ≡ is_some self.now.last }
    {
        self.last.is_some()
    }

    /// The pairs in the order in which they were taken.
    pub(crate) fn pairs(&self) -> &[Pair]
        ensures { result.now ≡ self.now.pairs }
    {
        &self.pairs
    }

    /// The pairs behind so many, and none where there are fewer.
    pub(crate) fn pairs_behind(&self, given: u64) -> &[Pair]
        ensures { result.now ≡ drop given self.now.pairs }
    {
        let given = (given as usize).min(self.pairs.len());
        &self.pairs[given..]
    }

    /// What the joiner holds, and nothing before its end.
    pub(crate) fn held(&self) -> Held
        ensures { result ≡ held_of self.now.last }
    {
        match &self.last {
            Some(last) => last.held,
            None => Held {
                rows_r: 0,
                rows_s: 0,
            },
        }
    }

    /// In how many steps the joiner may have moved rows.
    pub(crate) fn steps(&self) -> u64
        ensures { result ≡ length (moves_of self.now.last) }
    {
        match &self.last {
            Some(last) => last.moved.len(),
            None => 0,
        }
    }

    /// How many rows the joiner moved in a step, and 0 past its last one.
    pub(crate) fn moved_in(&self, step: u64) -> u64
        ensures { result ≡ slice_index (moves_of self.now.last) step }
    {
        match &self.last {
            Some(last) if step < last.moved.len() => *last.moved.at(step),
            _ => 0,
        }
    }
}
