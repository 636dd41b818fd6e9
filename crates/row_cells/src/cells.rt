// The cells of a row, which copies of it share.

ghost use Rattle.std.specs.Prelude.{◌≡◌, ◌++◌, ◌*◌, ◌∷◌, [], ℕ, List, length, map, option_and_then, slice_get, IfOk, OnOk, OnErr};
ghost use Rattle.row_cells.specs.Cells.{cells_of, text_in};
ghost use Rattle.row_cells.specs.Shared.{AreRowsOf, part_of};

use crate::list::Items;
use crate::number::number_in;
use crate::table::Cell;
use crate::texts::Texts;
use std::alloc::{AllocError, Global};
use std::marker::Model;
use std::sync::Arc;

// The texts of rows of one width, one row behind the other.
#[derive(Debug, Drop)]
pub(crate) struct Sheet {
    texts: Texts,
    width: u64,
}

/// The cells of a row in their order. There are their texts, of which a number is made where one is asked for. Copies
/// share them, and the rows of a file have one list of texts for all.
#[derive(Debug, Drop)]
pub struct Cells {
    alloc: Global,
    // None is the empty list, which takes no memory.
    shared: Option<Arc<Sheet, Global>>,
    // Which of the shared texts is that of the row's first cell.
    first: u64,
}

impl Model for Cells {
    ghost use Rattle.std.specs.Prelude.{List};
    ghost use Rattle.row_cells.specs.declared.table.Cell.{Cell};
    ghost use Rattle.row_cells.specs.Shared.{row_at};

    ghost Value = { List Cell };

    ghost view = { λ cells. row_at cells.shared cells.first };
}

// How many texts a row has that begins at this one of a sheet.
fn count_of(sheet: &Sheet, first: u64) -> u64
    ensures { result ≡ length (part_of sheet.now.texts first sheet.now.width) }
{
    let rest = sheet.texts.len().saturating_sub(first);
    rest.min(sheet.width)
}

// The text at a place of the row that begins at this one of a sheet, empty where the row has none.
fn text_of(sheet: &Sheet, first: u64, place: u64) -> &[u8]
    ensures { result.now
        ≡ text_in (slice_get (cells_of (part_of sheet.now.texts first sheet.now.width)) place) }
{
    let all = sheet.texts.len();
    let Some(at) = first.checked_add(place) else {
        return &[];
    };
    if place < sheet.width && at < all {
        sheet.texts.at(at)
    } else {
        &[]
    }
}

impl Cells {
    /// No cells. It takes no memory.
    pub fn new(alloc: Global) -> Cells
        ensures { result ≡ [] }
    {
        Cells {
            alloc,
            shared: None,
            first: 0,
        }
    }

    /// The cells of texts.
    pub fn from_texts(alloc: Global, texts: Texts) -> Result<Cells, AllocError>
        ensures { IfOk result (λ cells. cells ≡ cells_of texts) }
    {
        let sheet = Sheet {
            width: texts.len(),
            texts,
        };
        Ok(Cells {
            alloc,
            shared: Some(Arc::new(alloc, sheet)?),
            first: 0,
        })
    }

    /// How many cells there are.
    pub fn len(&self) -> u64
        ensures { result ≡ length self.now }
    {
        match &self.shared {
            Some(sheet) => count_of(sheet, self.first),
            None => 0,
        }
    }

    /// The text of the cell at `place`, counted from 0; where there is none, it is empty.
    pub fn text_at(&self, place: u64) -> &[u8]
        ensures { result.now ≡ text_in (slice_get self.now place) }
    {
        match &self.shared {
            Some(sheet) => text_of(sheet, self.first, place),
            None => &[],
        }
    }

    /// The number of the cell at `place`, counted from 0, where there is one that has a number. It is made of the text.
    pub fn number_at(&self, place: u64) -> Option<i64>
        ensures { result ≡ option_and_then (λ cell. cell.num) (slice_get self.now place) }
    {
        number_in(self.text_at(place))
    }

    /// Appends the texts of the cells to others.
    pub fn add_texts(&self, texts: &mut Texts) -> Result<(), AllocError>
        ensures { OnOk result (cells_of texts.new ≡ cells_of texts.old ++ self.now) }
    {
        for place in 0..self.len() {
            texts.push(self.text_at(place))?;
        }
        Ok(())
    }

    /// Appends a cell, which is dropped where memory is wanting. Cells that are shared are copied first.
    pub fn push(&mut self, cell: Cell) -> Result<(), AllocError>
        ensures ok { OnOk result (self.new ≡ self.old ++ cell ∷ []) }
        ensures err { OnErr result (self.new ≡ self.old) }
    {
        let mut texts = Texts::new(self.alloc);
        self.add_texts(&mut texts)?;
        texts.push(cell.text.as_slice())?;
        *self = Cells::from_texts(self.alloc, texts)?;
        Ok(())
    }

    /// Equal cells, which are shared. It takes no memory.
    pub fn copy(&self) -> Result<Cells, AllocError>
        ensures { IfOk result (λ cells. cells ≡ self.now) }
    {
        let shared = match &self.shared {
            Some(cells) => Some(Arc::try_clone(cells)?),
            None => None,
        };
        Ok(Cells {
            alloc: self.alloc,
            shared,
            first: self.first,
        })
    }
}

/// `count` rows of `width` cells each, which share these texts: row `i` has those of the `width` texts from `i * width`
/// on. The only error is want of memory.
pub fn rows_over(
    alloc: Global,
    texts: Texts,
    width: u64,
    count: u64,
) -> Result<Items<Cells>, AllocError>
    requires whole { length texts ≡ count * width }
    ensures { (rows : List (List (List ℕ))) → AreRowsOf rows width count texts
        → IfOk result (λ made. made ≡ map cells_of rows) }
{
    let all = texts.len();
    let shared = Arc::new(alloc, Sheet { texts, width })?;
    let mut rows = Items::with_room(alloc, count as usize)?;
    for place in 0..count {
        rows.push(Cells {
            alloc,
            shared: Some(Arc::try_clone(&shared)?),
            first: place * width,
        })?;
    }
    Ok(rows)
}
