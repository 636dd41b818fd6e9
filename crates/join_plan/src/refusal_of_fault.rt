// Each fault as the refusal that tells it.

ghost use Rattle.std.specs.Prelude.{◌≡◌};
ghost use Rattle.join_plan.specs.Refusals.{column_refusal, file_refusal, text_refusal, told_by};

use crate::fault::{InputFault, LimitFault, Refusal, TextFault};
use join_rows::TableFault;
use row_cells::Side;
use theta_pred::ResolveFault;
use theta_tree::PredFault;

/// Which of the two predicates is meant.
#[derive(Clone, Copy, Debug, PartialEq, Eq)]
pub enum Which {
    /// That of the two tables.
    On,
    /// That of a second join.
    Then,
}

/// The refusal of a predicate with this fault.
fn told(which: Which, fault: TextFault) -> Refusal
    ensures { result ≡ told_by which fault }
{
    match which {
        Which::On => Refusal::Predicate(fault),
        Which::Then => Refusal::Then(fault),
    }
}

/// The refusal of a text that is no predicate.
pub(crate) fn text_refused(which: Which, fault: PredFault) -> Refusal
    ensures { result ≡ text_refusal which fault }
{
    match fault {
        PredFault::Syntax { place } => told(which, TextFault::Syntax { place }),
        PredFault::Deep { place } => told(which, TextFault::Deep { place }),
        PredFault::Wide { place } => told(which, TextFault::Wide { place }),
        PredFault::Literal { place } => told(which, TextFault::Literal { place }),
        PredFault::Memory => Refusal::Memory,
    }
}

/// The refusal of a side's file in a wave that is no table.
pub(crate) fn file_refused(side: Side, wave: u32, fault: TableFault) -> Refusal
    ensures { result ≡ file_refusal side wave fault }
{
    match fault {
        TableFault::Read => Refusal::Read,
        TableFault::TooLong => Refusal::Limit(LimitFault::TooLong { side, wave }),
        TableFault::NoHeader => Refusal::Input(InputFault::NoHeader { side, wave }),
        TableFault::Width { row, found } => Refusal::Input(InputFault::Width {
            side,
            wave,
            row,
            found,
        }),
        TableFault::TooMany => Refusal::Limit(LimitFault::TooMany { side, wave }),
        TableFault::Memory => Refusal::Memory,
    }
}

/// The refusal of a predicate that doesn't fit the headers.
pub(crate) fn columns_refused(which: Which, fault: ResolveFault) -> Refusal
    ensures { result ≡ column_refusal which fault }
{
    match fault {
        ResolveFault::NoColumn { side, name } => told(which, TextFault::NoColumn { side, name }),
        ResolveFault::TwoColumns { side, name } => {
            told(which, TextFault::TwoColumns { side, name })
        }
        ResolveFault::Memory => Refusal::Memory,
    }
}
