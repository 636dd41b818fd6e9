// The columns of names.

ghost use Rattle.std.specs.Prelude.{◌≡◌, [], ◌∷◌, length, IfOk, IfErr, OnOk};
ghost use Rattle.theta_pred.specs.Names.{places_from, StandsOnce};
ghost use Rattle.theta_pred.specs.Resolved.{column_of, Tells};
ghost use Rattle.theta_pred.specs.Sound.{IsWithin};
ghost use Rattle.theta_pred.specs.Standing.{IsStanding};
ghost use Rattle.theta_pred.specs.Sums.{of_side};

use crate::fault::ResolveFault;
use crate::tree::Column;
use row_cells::{Bytes, Names, Side};
use theta_tree::Name;

// How often a word stands among names.
#[derive(Clone, Copy)]
pub enum Standing {
    Nowhere,
    Once(u64),
    Often,
}

fn standing_of(word: &Bytes, names: &Names) -> Standing
    ensures { IsStanding result (places_from 0 word.now names.now) }
{
    let mut found = None;
    for (place, name) in names.as_slice().iter().enumerate() {
        if name.as_slice() == word.as_slice() {
            if found.is_some() {
                return Standing::Often;
            }
            found = Some(place as u64);
        }
    }
    match found {
        None => Standing::Nowhere,
        Some(place) => Standing::Once(place),
    }
}

// The header of a side.
fn header_of<'a>(side: Side, names_r: &'a Names, names_s: &'a Names) -> &'a Names
    ensures { result.now ≡ of_side names_r.now names_s.now side }
{
    match side {
        Side::R => names_r,
        Side::S => names_s,
    }
}

// The column of a name.
pub(crate) fn resolved_name(
    name: &Name,
    names_r: &Names,
    names_s: &Names,
) -> Result<Column, ResolveFault>
    ensures ok { IfOk result (λ column. column ≡ column_of names_r.now names_s.now name.now) }
    ensures within { IfOk result (IsWithin (length names_r.now) (length names_s.now)) }
    ensures once { OnOk result (StandsOnce names_r.now names_s.now name.now) }
    ensures err { IfErr result (Tells names_r.now names_s.now (name.now ∷ [])) }
{
    match standing_of(&name.word, header_of(name.side, names_r, names_s)) {
        Standing::Once(place) => Ok(Column {
            side: name.side,
            place,
        }),
        Standing::Nowhere => Err(ResolveFault::NoColumn {
            side: name.side,
            name: name.word.copy()?,
        }),
        Standing::Often => Err(ResolveFault::TwoColumns {
            side: name.side,
            name: name.word.copy()?,
        }),
    }
}
