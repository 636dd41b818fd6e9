// The text of pairs.

ghost use Rattle.std.specs.Prelude.{◌≡◌, ◌++◌, IfOk, OnOk, string_bytes};
ghost use Rattle.join_report.specs.PairLines.{pair_line, pair_lines};

use epoch_tags::Pair;
use itoa::Buffer;
use std::alloc::{AllocError, Global};

/// Adds the line of a pair.
fn write_pair(text: &mut String, pair: Pair) -> Result<(), AllocError>
    ensures { OnOk result (string_bytes text.new ≡ string_bytes text.old ++ pair_line pair) }
{
    let mut buffer = Buffer::new();
    text.push_str(buffer.format(u64::from(pair.i) + 1))?;
    text.push(',')?;
    text.push_str(buffer.format(u64::from(pair.j) + 1))?;
    text.push('\n')
}

/// A line for each pair, in their order: the numbers of its rows, counted from 1.
pub fn pairs_text(alloc: Global, pairs: &[Pair]) -> Result<String, AllocError>
    ensures { IfOk result (λ text. string_bytes text ≡ pair_lines pairs.now) }
{
    let mut text = String::new(alloc);
    for pair in pairs {
        write_pair(&mut text, *pair)?;
    }
    Ok(text)
}
