// What the verdict on words and files has to do with the outcome of joining them.

ghost use Rattle.why_law.specs.Agreement.{VerdictsAgree};

use join_rows::{Shelf, Sink};

/// The verdict of `join_why` on words and the outcome of `join_main` for the same words, where their shelves tell the
/// same files and no call of shelf or sink fails, say the same: the same fault of the words, the same refusal, or that
/// the files are joined. Memory may run out in either. It does nothing: its contract is the law.
pub fn verdicts_agree<F: Shelf, H: Shelf, K: Sink>()
    ensures { VerdictsAgree F.Shelf H.Shelf K.Sink }
{}
