// The store, and how a tuple finds others in it.

mod filling;

ghost use Rattle.std.specs.Prelude.{◌≡◌, ◌+◌, ◌<◌, ◌++◌, count_by, All, OnOk, OnErr};
ghost use Rattle.store_parts.specs.Accessed.{IsOwnAccess};
ghost use Rattle.store_parts.specs.Indexed.{IsIndexed};
ghost use Rattle.store_parts.specs.Keyed.{IsOwn};
ghost use Rattle.store_parts.specs.Matches.{matches, other_side, AppendsFront, HasWidth};
ghost use Rattle.store_parts.specs.Evaluated.{evaluated, looked_at, stands_by};
ghost use Rattle.store_parts.specs.Stored.{others_of, side_of, HaveWidths};

use crate::by_stamp::Which;
use crate::counted_looks::Looks;
use crate::counted_steps::Steps;
use crate::half::Half;
use crate::probe::Query;
use crate::probe::by_access::seek_by;
use crate::probe::by_key::{find_keyed, seek, sift};
use crate::probe::found_pairs::{find_each, scan};
use epoch_tags::{Pairs, Tuple, Tuples};
use row_cells::Side;
use std::alloc::{AllocError, Global};
use std::marker::{Brand, Model};
use std::sync::ledger::{Blank, Ledger};
use theta_pred::{Access, KeyAtom, Theta};

/// The tuples of both sides that a joiner holds, those of a side in the order of adding.
#[derive(Drop)]
pub struct Store {
    key: Option<KeyAtom>,
    access: Option<Access>,
    r: Half,
    s: Half,
    alloc: Global,
}

impl Model for Store {
    ghost use Rattle.std.specs.Coded.{codes};
    ghost use Rattle.row_cells.specs.declared.table.Side.TheVariants.{R, S};
    ghost use Rattle.theta_pred.specs.FormulaCode.{formula_code};
    ghost use Rattle.store_parts.specs.Indexed.{IsIndexed};
    ghost use Rattle.store_parts.specs.Stored.{Stored, AreSided};

    ghost Value = { Stored };

    ghost coded = { Prim.hlevel (codes, formula_code (Prim.hlevel codes)) };

    ghost view = { λ store. record {
      key = store.key;
      access = store.access;
      r = store.r.tuples;
      s = store.s.tuples;
    } };

    ghost invariant = { λ store. AreSided store.r.tuples store.s.tuples
        × IsIndexed store.key store.access R store.r.tuples store.r.index
        × IsIndexed store.key store.access S store.s.tuples store.s.index };
}

// A joiner's probe whose looks are counted from this blank on.
fn look_from<L: Ledger, M: Ledger>(
    store: &Store,
    tuple: &Tuple,
    theta: &Theta,
    which: Which,
    found: &mut Pairs,
    steps: &mut Steps<L>,
    blank: Blank,
) -> Result<(), AllocError>
    requires width { HasWidth theta.now tuple.now.side tuple.now }
    requires widths { HaveWidths theta.now store.now }
    requires own { IsOwn theta.now store.now.key }
    requires access { IsOwnAccess theta.now store.now.access }
    requires name { blank.name ≡ M.name }
    requires parts { blank.parts ≡ M.parts }
    requires some { 0 < blank.parts }
    ensures ok { let others = others_of store.now tuple.now in
        OnOk result (found.new ≡ found.old ++ matches theta.now tuple.now which others) }
    ensures err { let others = others_of store.now tuple.now in
        OnErr result (AppendsFront found.old found.new (matches theta.now tuple.now which others)) }
{
    let mut looks = Looks::<M>::new(blank);
    store.find(tuple, theta, which, found, steps, &mut looks)
}

// A joiner's probe whose steps are counted from this blank on.
fn find_from<L: Ledger>(
    store: &Store,
    tuple: &Tuple,
    theta: &Theta,
    which: Which,
    found: &mut Pairs,
    blank: Blank,
) -> Result<(), AllocError>
    requires width { HasWidth theta.now tuple.now.side tuple.now }
    requires widths { HaveWidths theta.now store.now }
    requires own { IsOwn theta.now store.now.key }
    requires access { IsOwnAccess theta.now store.now.access }
    requires name { blank.name ≡ L.name }
    requires parts { blank.parts ≡ L.parts }
    requires some { 0 < blank.parts }
    ensures ok { let others = others_of store.now tuple.now in
        OnOk result (found.new ≡ found.old ++ matches theta.now tuple.now which others) }
    ensures err { let others = others_of store.now tuple.now in
        OnErr result (AppendsFront found.old found.new (matches theta.now tuple.now which others)) }
{
    let mut steps = Steps::<L>::new(blank);
    look_from::<L, Brand>(store, tuple, theta, which, found, &mut steps, Blank::new(1))
}

impl Store {
    /// The tuples of a side.
    pub fn side(&self, side: Side) -> &Tuples
        ensures tuples { result.now ≡ side_of self.now side }
        ensures own { All (λ tuple. tuple.side ≡ side) result.now }
    {
        match side {
            Side::R => &self.r.tuples,
            Side::S => &self.s.tuples,
        }
    }

    // The tuples that a probe with one of this side may find, and their index.
    fn others(&self, side: Side) -> &Half
        ensures tuples { result.now.tuples ≡ side_of self.now (other_side side) }
        ensures indexed { IsIndexed self.now.key self.now.access (other_side side)
            result.now.tuples result.now.index }
    {
        match side {
            Side::R => &self.s,
            Side::S => &self.r,
        }
    }

    /// Appends the pairs of a tuple with the stored ones of the other side that `which` names and the predicate is
    /// true of, in stored order. A step is one evaluation of the predicate; nothing is said of their number after
    /// want of memory.
    pub fn probe<L: Ledger>(
        &self,
        tuple: &Tuple,
        theta: &Theta,
        which: Which,
        found: &mut Pairs,
        steps: &mut Steps<L>,
    ) -> Result<(), AllocError>
        requires width { HasWidth theta.now tuple.now.side tuple.now }
        requires widths { HaveWidths theta.now self.now }
        requires own { IsOwn theta.now self.now.key }
        ensures ok { let others = others_of self.now tuple.now in
            OnOk result (found.new ≡ found.old ++ matches theta.now tuple.now which others) }
        ensures err { let others = others_of self.now tuple.now in
            OnErr result
            (AppendsFront found.old found.new (matches theta.now tuple.now which others)) }
        ensures steps { let others = others_of self.now tuple.now in
            OnOk result (steps.new ≡ steps.old + evaluated self.now.key tuple.now which others) }
    {
        let query = Query {
            tuple,
            theta,
            which,
        };
        let others = self.others(tuple.side);
        match (&self.key, &self.access) {
            (Some(key), None) => seek(self.alloc, &query, others, key, found, steps),
            (Some(key), Some(_)) => sift(&query, others.tuples.as_slice(), key, found, steps),
            (None, _) => scan(&query, others.tuples.as_slice(), found, steps),
        }
    }

    /// Appends the same pairs, found by the store's access where it has one. It tries just the stored tuples that
    /// `which` names and that agree with this one in all of the access, and evaluates the predicate for them where
    /// agreeing isn't all that it says. It looks at just those whose number lies between those that this one asks
    /// for; others that agree in nothing may have such a number. A look is one stored tuple whose place the index
    /// gave. Nothing is said of either number after want of memory.
    pub fn find<L: Ledger, M: Ledger>(
        &self,
        tuple: &Tuple,
        theta: &Theta,
        which: Which,
        found: &mut Pairs,
        steps: &mut Steps<L>,
        looks: &mut Looks<M>,
    ) -> Result<(), AllocError>
        requires width { HasWidth theta.now tuple.now.side tuple.now }
        requires widths { HaveWidths theta.now self.now }
        requires own { IsOwn theta.now self.now.key }
        requires access { IsOwnAccess theta.now self.now.access }
        ensures ok { let others = others_of self.now tuple.now in
            OnOk result (found.new ≡ found.old ++ matches theta.now tuple.now which others) }
        ensures err { let others = others_of self.now tuple.now in
            OnErr result
            (AppendsFront found.old found.new (matches theta.now tuple.now which others)) }
        ensures steps { let others = others_of self.now tuple.now in
            OnOk result (steps.new ≡ steps.old
            + looked_at self.now.key self.now.access tuple.now which others) }
        ensures looks { let others = others_of self.now tuple.now in
            OnOk result (looks.new ≡ looks.old
            + count_by (stands_by self.now.key self.now.access tuple.now) others) }
    {
        let query = Query {
            tuple,
            theta,
            which,
        };
        let others = self.others(tuple.side);
        match (&self.access, &self.key) {
            (Some(access), _) => seek_by(self.alloc, &query, others, access, found, steps, looks),
            (None, Some(key)) => find_keyed(self.alloc, &query, others, key, found, steps, looks),
            (None, None) => find_each(&query, others.tuples.as_slice(), found, steps, looks),
        }
    }

    /// The same, where nobody counts.
    pub fn find_uncounted(
        &self,
        tuple: &Tuple,
        theta: &Theta,
        which: Which,
        found: &mut Pairs,
    ) -> Result<(), AllocError>
        requires width { HasWidth theta.now tuple.now.side tuple.now }
        requires widths { HaveWidths theta.now self.now }
        requires own { IsOwn theta.now self.now.key }
        requires access { IsOwnAccess theta.now self.now.access }
        ensures ok { let others = others_of self.now tuple.now in
            OnOk result (found.new ≡ found.old ++ matches theta.now tuple.now which others) }
        ensures err { let others = others_of self.now tuple.now in
            OnErr result
            (AppendsFront found.old found.new (matches theta.now tuple.now which others)) }
    {
        find_from::<Brand>(self, tuple, theta, which, found, Blank::new(1))
    }
}
