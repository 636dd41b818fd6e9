// The predicate that a text is.

ghost use Rattle.std.specs.Prelude.{◌≡◌, ◌≤◌, ◌⊎◌, ℕ, IfOk, MatchResult};
ghost use Rattle.theta_tree.specs.Grammar.{Tree, Reads};
ghost use Rattle.theta_tree.specs.Faults.{words, IsSyntaxFault, IsDeepFault, IsWideFault, IsLiteralFault};
ghost use Rattle.theta_tree.specs.Texts.{tree_of, limits, TextReads, IsSyntaxAt, IsDeepAt, IsWideAt, IsLiteralAt, IsFaultOf};
ghost use Rattle.theta_tree.specs.Sizes.{longest_sum};
ghost use Rattle.theta_tree.specs.declared.fault.PredFault.{PredFault as Fault};

mod number;
mod parts;
mod sums;
mod units;

use crate::lexer::lex;
use crate::parser::parts::next;
use crate::parser::units::predicate;
use std::alloc::Global;
use theta_tree::{Placed, Pred, PredFault};

// How deep units nest.
const NESTING: u32 = 32;

/// The predicate that the text is. Units nest at most 32 deep, a sum has at most 16 terms, and no
/// number is greater than 9223372036854775807. It takes time in proportion to the text's length.
pub fn parse(alloc: Global, text: &str) -> Result<Pred, PredFault>
    ensures ok { IfOk result (λ pred. TextReads limits text.now (tree_of pred)) }
    ensures only { (tree : Tree) → TextReads limits text.now tree
        → MatchResult result (λ pred. tree_of pred ≡ tree) (λ fault. fault ≡ PredFault.Memory) }
    ensures narrow { IfOk result (λ pred. longest_sum pred ≤ 16) }
    ensures syntax { (place : ℕ) → result ≡ Err (PredFault.Syntax place)
        → IsSyntaxAt limits text.now place }
    ensures deep { (place : ℕ) → result ≡ Err (PredFault.Deep place)
        → IsDeepAt limits text.now place }
    ensures wide { (place : ℕ) → result ≡ Err (PredFault.Wide place)
        → IsWideAt limits text.now place }
    ensures literal { (place : ℕ) → result ≡ Err (PredFault.Literal place)
        → IsLiteralAt limits text.now place }
    ensures exact { (fault : Fault) → IsFaultOf limits text.now fault
        → MatchResult result (λ pred. ⊥) (λ found. (found ≡ fault) ⊎ (found ≡ PredFault.Memory)) }
{
    let tokens = lex(alloc, text.as_bytes())?;
    whole(alloc, &tokens, text.len() as u64)
}

// The tree of the tokens of a text that ends at `end`.
fn whole(alloc: Global, tokens: &[Placed], end: u64) -> Result<Pred, PredFault>
    ensures ok { IfOk result (λ pred. Reads limits (words tokens.now) (tree_of pred)) }
    ensures only { (tree : Tree) → Reads limits (words tokens.now) tree
        → MatchResult result (λ pred. tree_of pred ≡ tree) (λ fault. fault ≡ PredFault.Memory) }
    ensures narrow { IfOk result (λ pred. longest_sum pred ≤ 16) }
    ensures syntax { (place : ℕ) → result ≡ Err (PredFault.Syntax place)
        → IsSyntaxFault limits end tokens.now place }
    ensures deep { (place : ℕ) → result ≡ Err (PredFault.Deep place)
        → IsDeepFault limits tokens.now place }
    ensures wide { (place : ℕ) → result ≡ Err (PredFault.Wide place)
        → IsWideFault limits tokens.now place }
    ensures literal { (place : ℕ) → result ≡ Err (PredFault.Literal place)
        → IsLiteralFault limits tokens.now place }
{
    let (tree, rest) = predicate(alloc, tokens, end, NESTING)?;
    match next(rest) {
        None => Ok(tree),
        Some((stray, _)) => Err(PredFault::Syntax { place: stray.place }),
    }
}
