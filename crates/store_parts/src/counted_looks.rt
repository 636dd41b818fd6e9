// Counted looks at stored tuples.

ghost use Rattle.std.specs.Prelude.{◌≡◌, ◌+◌, ◌<◌, length};

use std::marker::Model;
use std::sync::ledger::{Blank, Book, Ledger, Share};

/// How many stored tuples were looked at, whether or not they were evaluated. It takes no bytes.
#[derive(Drop)]
pub struct Looks<L: Ledger> {
    book: Book<L>,
    share: Share<L>,
}

impl<L: Ledger> Model for Looks<L> {
    ghost use Rattle.std.specs.Prelude.{ℕ, ◌<◌};

    ghost Value = { ℕ };

    ghost view = { λ looks. looks.book.total };

    ghost invariant = { λ looks. 0 < looks.share.parts };
}

impl<L: Ledger> Looks<L> {
    /// No looks yet.
    pub fn new(blank: Blank) -> Looks<L>
        requires name { blank.name ≡ L.name }
        requires parts { blank.parts ≡ L.parts }
        requires some { 0 < blank.parts }
        ensures { result ≡ 0 }
    {
        let (book, share) = blank.open::<L>();
        Looks { book, share }
    }

    // One look for each of these places. It has no code.
    pub(crate) fn note(&mut self, places: &[u64])
        ensures { self.new ≡ self.old + length places.now }
    {
        self.book.add(&mut self.share, places.len() as u64);
    }

    // So many looks. It has no code.
    pub(crate) fn note_all(&mut self, count: u64)
        ensures { self.new ≡ self.old + count }
    {
        self.book.add(&mut self.share, count);
    }
}
