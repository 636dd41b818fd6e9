// The header of the joined rows.

ghost use Rattle.std.specs.Prelude.{◌≡◌, ◌++◌, IfOk, OnOk, map};
ghost use Rattle.joined_rows.specs.Joined.{joined_names as joined_names'};

use row_cells::{Bytes, Names};
use std::alloc::{AllocError, Global};

// A name after a prefix.
fn prefixed(alloc: Global, prefix: &[u8], name: &Bytes) -> Result<Bytes, AllocError>
    ensures { IfOk result (λ joined. joined ≡ prefix.now ++ name.now) }
{
    let mut joined = Bytes::from_slice(alloc, prefix)?;
    joined.append(name.as_slice())?;
    Ok(joined)
}

// Appends names, each after a prefix.
fn add_names(
    alloc: Global,
    joined: &mut Names,
    prefix: &[u8],
    names: &Names,
) -> Result<(), AllocError>
    ensures { OnOk result
        (joined.new ≡ joined.old ++ map (λ name. prefix.now ++ name) names.now) }
{
    for name in names.as_slice() {
        joined.push(prefixed(alloc, prefix, name)?)?;
    }
    Ok(())
}

/// The names of joined rows: those of R, each after `r_`, and then those of S, each after `s_`.
pub fn joined_names(alloc: Global, names_r: &Names, names_s: &Names) -> Result<Names, AllocError>
    ensures { IfOk result (λ names. names ≡ joined_names' names_r.now names_s.now) }
{
    let mut joined = Names::new(alloc);
    add_names(alloc, &mut joined, b"r_", names_r)?;
    add_names(alloc, &mut joined, b"s_", names_s)?;
    Ok(joined)
}
