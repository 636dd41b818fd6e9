// A predicate over the places of columns.

ghost use Rattle.std.specs.Prelude.{◌≡◌, IfOk, IsTrue, option_map, Some};
ghost use Rattle.row_cells.specs.declared.table.Side.TheVariants.{R as R', S as S'};
ghost use Rattle.theta_pred.specs.Accesses.{access_of, terms_of, IsAccessOf, IsOverRows, Suffices, Terms};
ghost use Rattle.theta_pred.specs.Formula.{formula_of};
ghost use Rattle.theta_pred.specs.Keys.{atom_of, key_of, Atom, IsKeyOf};
ghost use Rattle.theta_pred.specs.Numeric.{AreNumeric};
ghost use Rattle.theta_pred.specs.OneSided.{is_true_alone};
ghost use Rattle.theta_pred.specs.Sound.{IsSound};
ghost use Rattle.theta_pred.specs.Sufficing.{agreements_suffice};
ghost use Rattle.theta_pred.specs.Truth.{holds, width_of, IsRowOf};

use crate::access::{access_law, access_of};
use crate::agree::Access;
use crate::atom::KeyAtom;
use crate::copies::copy_of;
use crate::key::{key_law, key_of};
use crate::numeric::numeric_places;
use crate::suffice::{agreements_suffice, suffice_law};
use crate::tree::{Columns, Tree};
use crate::truth::is_true;
use row_cells::{Cells, Side};
use std::alloc::{AllocError, Global};
use std::marker::Model;

/// A predicate over the rows of two tables.
#[derive(Drop)]
pub struct Theta {
    alloc: Global,
    tree: Tree,
    width_r: u64,
    width_s: u64,
    numeric_r: Columns,
    numeric_s: Columns,
    enough: bool,
}

impl Model for Theta {
    ghost use Rattle.std.specs.Coded.{codes};
    ghost use Rattle.std.specs.Prelude.{◌≡◌};
    ghost use Rattle.theta_pred.specs.Formula.{Meaning, formula_of};
    ghost use Rattle.theta_pred.specs.FormulaCode.{formula_code};
    ghost use Rattle.theta_pred.specs.Numeric.{IsWhole};
    ghost use Rattle.theta_pred.specs.Sufficing.{agreements_suffice};

    ghost Value = { Meaning };

    ghost coded = { Prim.hlevel (codes, formula_code (Prim.hlevel codes)) };

    ghost view = { λ theta. record {
      formula = formula_of theta.tree;
      width_r = theta.width_r;
      width_s = theta.width_s;
    } };

    ghost invariant = { λ theta. IsWhole (formula_of theta.tree) theta.width_r theta.width_s
        theta.numeric_r theta.numeric_s
        × (theta.enough ≡ agreements_suffice (formula_of theta.tree)) };
}

// The places of both sides' columns that stand in a sum.
fn numeric_of_both(
    alloc: Global,
    tree: &Tree,
    width_r: u64,
    width_s: u64,
) -> Result<(Columns, Columns), AllocError>
    requires { IsSound width_r width_s (formula_of tree.now) }
    ensures r { IfOk result (λ places. AreNumeric (formula_of tree.now) R' width_r places.0) }
    ensures s { IfOk result (λ places. AreNumeric (formula_of tree.now) S' width_s places.1) }
{
    let numeric_r = numeric_places(alloc, tree, Side::R, width_r, width_s)?;
    match numeric_places(alloc, tree, Side::S, width_r, width_s) {
        Ok(numeric_s) => Ok((numeric_r, numeric_s)),
        Err(refused) => {
            drop(numeric_r);
            Err(refused)
        }
    }
}

impl Theta {
    // The predicate of a tree over headers of these widths.
    pub(crate) fn over(
        alloc: Global,
        tree: Tree,
        width_r: u64,
        width_s: u64,
    ) -> Result<Theta, AllocError>
        requires { IsSound width_r width_s (formula_of tree) }
        ensures { IfOk result (λ theta.
            theta ≡ record { formula = formula_of tree; width_r = width_r; width_s = width_s }) }
    {
        match numeric_of_both(alloc, &tree, width_r, width_s) {
            Ok((numeric_r, numeric_s)) => {
                let enough = agreements_suffice(&tree);
                Ok(Theta {
                    alloc,
                    tree,
                    width_r,
                    width_s,
                    numeric_r,
                    numeric_s,
                    enough,
                })
            }
            Err(refused) => {
                drop(tree);
                Err(refused)
            }
        }
    }

    /// An equal predicate.
    pub fn copy(&self) -> Result<Theta, AllocError>
        ensures { IfOk result (λ theta. theta ≡ self.now) }
    {
        let tree = copy_of(self.alloc, &self.tree)?;
        Theta::over(self.alloc, tree, self.width_r, self.width_s)
    }

    /// How many columns a row of R has.
    pub fn width_r(&self) -> u64
        ensures { result ≡ self.now.width_r }
    {
        self.width_r
    }

    /// How many columns a row of S has.
    pub fn width_s(&self) -> u64
        ensures { result ≡ self.now.width_s }
    {
        self.width_s
    }

    /// The places of the side's columns that stand in a sum, that of a test on an absolute value
    /// included, counted from 0. It takes no memory.
    pub fn numeric(&self, side: Side) -> &Columns
        ensures { AreNumeric self.now.formula side (width_of self.now side) result.now }
    {
        match side {
            Side::R => &self.numeric_r,
            Side::S => &self.numeric_s,
        }
    }

    /// The test that an index of stored rows serves: the first equality of the top conjunction's
    /// members that names a column of each side; where there is none, the first band of these,
    /// which is a test that an absolute value is at most or below a number; where there is none,
    /// the first inequality. A conjunction inside another member isn't looked into.
    pub fn key_atom(&self) -> Result<Option<KeyAtom>, AllocError>
        ensures { IfOk result (λ key. option_map atom_of key ≡ key_of self.now.formula) }
    {
        key_of(self.alloc, &self.tree, self.width_r, self.width_s)
    }

    /// What the key atom says of the predicate. It has no code.
    pub fn key_law(&self)
        ensures { (atom : Atom) → key_of self.now.formula ≡ Some atom → IsKeyOf self.now atom }
    {
        key_law(&self.tree, self.width_r, self.width_s);
    }

    /// All equalities of the top conjunction, and of the conjunctions within it however deep, by which
    /// rows of the two sides agree: each of two sums that names a column of both sides, and each of
    /// a text of R and one of S. Among them, in the order of writing, each member that names columns of
    /// one side alone, or of none, which rows of a side pass or don't. Beside them the range of a sum: the first band
    /// of these conjunctions that names a column of both sides, or the first inequality where there is none, met with
    /// every other that has the same two sums. Where that has one bound only, and another test bounds the
    /// same sum of one side from the other side, the range is the interval between the two. None where
    /// there is no such member and the range says no more than the key atom, whose index serves then.
    pub fn access(&self) -> Result<Option<Access>, AllocError>
        ensures says { IfOk result (λ access.
            option_map terms_of access ≡ access_of self.now.formula) }
        // its tests of one side read rows of the predicate's own widths
        ensures widths { IfOk result (IsOverRows self.now) }
    {
        access_of(self.alloc, &self.tree, self.width_r, self.width_s)
    }

    /// What the access says of the predicate. It has no code.
    pub fn access_law(&self)
        ensures { (terms : Terms) → access_of self.now.formula ≡ Some terms
            → IsAccessOf self.now terms }
    {
        access_law(&self.tree, self.width_r, self.width_s);
    }

    /// Whether the predicate says no more than the agreements of its access: each member of the top conjunction,
    /// and of the conjunctions within it however deep, is an equality of both sides or names columns of one side
    /// at most. It was found out when the predicate was made.
    pub fn agreements_suffice(&self) -> bool
        ensures { result ≡ agreements_suffice self.now.formula }
    {
        self.enough
    }

    /// What follows for the access: rows that agree in all of it make such a predicate true. It has no code.
    pub fn suffice_law(&self)
        ensures { (terms : Terms) → IsTrue (agreements_suffice self.now.formula)
            → access_of self.now.formula ≡ Some terms → Suffices self.now terms }
    {
        suffice_law(&self.tree, self.width_r, self.width_s);
    }

    /// Whether the predicate is true of a row of R and a row of S. It takes no memory.
    pub fn holds(&self, r: &Cells, s: &Cells) -> bool
        requires row_r { IsRowOf self.now Side.R r.now }
        requires row_s { IsRowOf self.now Side.S s.now }
        ensures { result ≡ holds self.now r.now s.now }
    {
        is_true(&self.tree, self.width_r, self.width_s, r, s)
    }

    /// Whether the predicate is true of a row of this side with none of the other beside it: each cell of
    /// the other is missing, so it has no number and the empty text. It takes no memory.
    pub fn holds_alone(&self, side: Side, row: &Cells) -> bool
        ensures { result ≡ is_true_alone side row.now self.now.formula }
    {
        let none = Cells::new(self.alloc);
        match side {
            Side::R => is_true(&self.tree, self.width_r, self.width_s, row, &none),
            Side::S => is_true(&self.tree, self.width_r, self.width_s, &none, row),
        }
    }
}
