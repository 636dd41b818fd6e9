// A row's ticket: a byte of a generator that each side has for itself.

ghost use Rattle.std.specs.Prelude.{◌≡◌};
ghost use Rattle.rand_pcg.specs.Pcg.{pcg32};
ghost use Rattle.row_tickets.specs.Tickets.{top_byte, before_word};

use rand_core::utils::NextWord;
use rand_pcg::Lcg64Xsh32;
use row_cells::Side;
use std::marker::Model;

/// Draws the tickets of one side, one after another.
#[derive(Drop)]
pub struct Tickets {
    generator: Lcg64Xsh32,
}

impl Model for Tickets {
    ghost use Rattle.rand_pcg.specs.Lcg.{Lcg};

    ghost Value = { Lcg };

    ghost view = { λ tickets. tickets.generator };
}

impl Tickets {
    /// Stands before the ticket of row `index`, counted from 0. The time that this takes grows with
    /// the digits of the index alone, after Brown, "Random Number Generation with Arbitrary Stride"
    /// (1994). It takes no memory.
    pub fn at(seed: u64, side: Side, index: u64) -> Tickets
        ensures { result ≡ before_word seed side index }
    {
        let stream = match side {
            Side::R => 54,
            Side::S => 55,
        };
        let mut generator = Lcg64Xsh32::new(seed, stream);
        generator.advance(index);
        Tickets { generator }
    }

    /// The ticket of the row before which it stands, which is drawn and left behind. It takes no
    /// memory.
    pub fn draw(&mut self) -> u8
        ensures value { result ≡ top_byte (pcg32 self.old).0 }
        ensures moves_on { self.new ≡ (pcg32 self.old).1 }
    {
        let word = self.generator.next_word();
        (word >> 24) as u8
    }
}
