// The picture of one journal or several.

ghost use Rattle.std.specs.Prelude.{◌≤◌};
ghost use Rattle.grid_map.specs.Load.{AreWeights};

use crate::panel::{make_chart, write_panel};
use crate::words::write_words;
use grid_map::Weights;
use load_controller::TurnLine;
use std::alloc::{AllocError, Global};

/// How far below the top the first panel begins.
const FIRST: u64 = 108;

/// A picture over time, to which journals are added one by one: each has a panel, below those before it.
#[derive(Drop)]
pub struct Drawing {
    panels: String,
    words: String,
    height: u64,
}

impl Drawing {
    /// A picture with no panel. It takes no memory.
    pub fn new(alloc: Global) -> Drawing {
        Drawing {
            panels: String::new(alloc),
            words: String::new(alloc),
            height: FIRST,
        }
    }

    /// Adds the panel of a journal of 2^k joiners, whose rows weigh so much, under a heading without markup: to the
    /// right the rows of both sides that were counted, upward the load at each line against the best; each change of
    /// the grid as a band from the line that began it to the one that ended it, with the grid's rows and columns
    /// before and after; and a line at 5/4 of the best. After an error the picture is of no use.
    pub fn add(
        &mut self,
        alloc: Global,
        heading: &str,
        k: u32,
        weights: Weights,
        journal: &[TurnLine],
    ) -> Result<(), AllocError>
        requires k { k ≤ 8 }
        requires weights { AreWeights weights }
    {
        let chart = make_chart(alloc, k, weights, journal)?;
        write_words(&mut self.words, heading, &chart)?;
        let height = write_panel(&mut self.panels, heading, &chart, self.height)?;
        self.height = self.height.saturating_add(height);
        Ok(())
    }

    /// The picture as an SVG: for those who don't see it a title and a description in words, then what the marks
    /// mean, and the panels.
    pub fn picture(&self, alloc: Global) -> Result<String, AllocError> {
        let mut text = String::new(alloc);
        write_head(&mut text, self.height)?;
        write!(
            text,
            "<title>A run of jm over time</title>\n<desc>The load of the grid against the least load of a grid of as many joiners for the same rows, over the rows that were counted."
        )?;
        text.push_str(self.words.as_str())?;
        write!(
            text,
            "</desc>\n<rect width='100%' height='100%' fill='#ffffff'/>\n"
        )?;
        write_legend(&mut text)?;
        text.push_str(self.panels.as_str())?;
        text.push_str("</svg>\n")?;
        Ok(text)
    }
}

fn write_head(text: &mut String, height: u64) -> Result<(), AllocError> {
    write!(
        text,
        "<svg xmlns='http://www.w3.org/2000/svg' width='800' height='{height}' viewBox='0 0 800 {height}' role='img' font-family='monospace' font-size='11' text-anchor='middle' fill='#1c2733'>\n"
    )
}

fn write_legend(text: &mut String) -> Result<(), AllocError> {
    text.push_str(
        "<g transform='translate(24 32)' text-anchor='start'><text font-size='15'>the grid over time</text>\n<path d='M0 22h24' stroke='#1f5fa8' stroke-width='1.5'/><text x='32' y='26'>load, as a multiple of the least load that a grid of as many joiners has for the same rows</text>\n<rect y='32' width='24' height='12' fill='#4c9be8' fill-opacity='.3'/><path d='M0 32v12' stroke='#1f5fa8' stroke-opacity='.5'/><text x='32' y='42'>a change of the grid is under way: its rows &#215; columns before and after</text>\n<path d='M0 54h24' stroke='#b3261e' stroke-width='1.5' stroke-dasharray='6 4'/><text x='32' y='58'>5/4 of the best: proved to be the most while no change is under way, unless the shift is fixed</text></g>\n",
    )
}
