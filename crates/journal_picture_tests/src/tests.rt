use grid_map::Weights;
use journal_picture::{
    Drawing, Greatest, greatest_heights, height, points, steps, stretches, waves,
};
use load_controller::{Cause, TurnLine};
use std::test::Fail;

const ONE: Weights = Weights { r: 1, s: 1 };

// A line that counts so many rows of each side.
fn line(rows_r: u64, rows_s: u64, epoch: u32, shift: u32, moving: bool) -> TurnLine {
    TurnLine {
        cause: Cause::Start,
        rows_r,
        rows_s,
        base_r: 0,
        base_s: 0,
        epoch,
        shift,
        goal: shift,
        moving,
    }
}

// Four joiners that go from two columns to one and back, the second step right behind the first.
fn journal() -> [TurnLine; 8] {
    [
        line(0, 0, 0, 1, false),
        line(4, 4, 0, 1, false),
        line(10, 4, 0, 1, false),
        line(16, 4, 1, 0, true),
        line(16, 16, 1, 0, true),
        line(16, 17, 1, 0, true),
        line(16, 17, 2, 1, true),
        line(16, 20, 2, 1, false),
    ]
}

// That journal, and below it one of one joiner with a row of S alone.
const PICTURE: &str =
    "<svg xmlns='http://www.w3.org/2000/svg' width='800' height='746' viewBox='0 0 800 746' role='img' font-family='monospace' font-size='11' text-anchor='middle' fill='#1c2733'>\n<title>A run of jm over time</title>\n<desc>The load of the grid against the least load of a grid of as many joiners for the same rows, over the rows that were counted. joiners: 4, rows counted: 36, changes of the grid: 2; greatest load / best load: 1.07 while no change is under way, 1.27 while one is. From 20 to 33 rows: 2 &#215; 2 &#8594; 4 &#215; 1. From 33 to 36 rows: 4 &#215; 1 &#8594; 2 &#215; 2. joiners: 1, rows counted: 1, changes of the grid: 0; greatest load / best load: 1.00 while no change is under way, none while one is.</desc>\n<rect width='100%' height='100%' fill='#ffffff'/>\n<g transform='translate(24 32)' text-anchor='start'><text font-size='15'>the grid over time</text>\n<path d='M0 22h24' stroke='#1f5fa8' stroke-width='1.5'/><text x='32' y='26'>load, as a multiple of the least load that a grid of as many joiners has for the same rows</text>\n<rect y='32' width='24' height='12' fill='#4c9be8' fill-opacity='.3'/><path d='M0 32v12' stroke='#1f5fa8' stroke-opacity='.5'/><text x='32' y='42'>a change of the grid is under way: its rows &#215; columns before and after</text>\n<path d='M0 54h24' stroke='#b3261e' stroke-width='1.5' stroke-dasharray='6 4'/><text x='32' y='58'>5/4 of the best: proved to be the most while no change is under way, unless the shift is fixed</text></g>\n<g transform='translate(64 174)'>\n<g transform='translate(-40 -30)' text-anchor='start'><text y='-16' font-size='13'>joiners: 4, rows counted: 36, changes of the grid: 2</text><text>greatest load / best load: 1.07 while no change is under way, 1.27 while one is</text></g>\n<path d='M0 200H600' stroke='#d5dde6'/><text x='-8' y='200' dy='4' text-anchor='end'>1.00</text>\n<path d='M0 160H600' stroke='#d5dde6'/><text x='-8' y='160' dy='4' text-anchor='end'>1.10</text>\n<path d='M0 120H600' stroke='#d5dde6'/><text x='-8' y='120' dy='4' text-anchor='end'>1.20</text>\n<path d='M0 80H600' stroke='#d5dde6'/><text x='-8' y='80' dy='4' text-anchor='end'>1.30</text>\n<path d='M0 40H600' stroke='#d5dde6'/><text x='-8' y='40' dy='4' text-anchor='end'>1.40</text>\n<path d='M0 0H600' stroke='#d5dde6'/><text x='-8' y='0' dy='4' text-anchor='end'>1.50</text>\n<path d='M0 0V200' stroke='#1c2733'/><text transform='translate(-52 100) rotate(-90)'>load / best load</text>\n<rect x='333' width='217' height='200' fill='#4c9be8' fill-opacity='.3'/>\n<rect x='550' width='50' height='200' fill='#4c9be8' fill-opacity='.3'/>\n<g transform='translate(333 -8)' text-anchor='start'><path d='M0 -8V8v200' stroke='#1f5fa8' stroke-opacity='.5'/><text x='4'>2 &#215; 2 &#8594; 4 &#215; 1</text></g>\n<g transform='translate(550 -8)' text-anchor='start'><path d='M0 -8V8v200' stroke='#1f5fa8' stroke-opacity='.5'/><text x='4'>4 &#215; 1 &#8594; 2 &#215; 2</text></g>\n<path d='M0 200v5' stroke='#1c2733'/><text x='0' y='217'>0</text>\n<path d='M83 200v5' stroke='#1c2733'/><text x='83' y='217'>5</text>\n<path d='M166 200v5' stroke='#1c2733'/><text x='166' y='217'>10</text>\n<path d='M250 200v5' stroke='#1c2733'/><text x='250' y='217'>15</text>\n<path d='M333 200v5' stroke='#1c2733'/><text x='333' y='217'>20</text>\n<path d='M416 200v5' stroke='#1c2733'/><text x='416' y='217'>25</text>\n<path d='M500 200v5' stroke='#1c2733'/><text x='500' y='217'>30</text>\n<path d='M583 200v5' stroke='#1c2733'/><text x='583' y='217'>35</text>\n<path d='M0 200H600' stroke='#1c2733'/><text x='300' y='234'>rows of R and S that were counted</text>\n<path d='M0 100H600' stroke='#b3261e' stroke-width='1.5' stroke-dasharray='6 4'/><text x='612' y='100' dy='4' text-anchor='start' fill='#b3261e'>5/4 of the best</text>\n<path fill='none' stroke='#1f5fa8' stroke-width='1.5' d='M133 200H133V200H233V170H333V200H533V100H550V92V200H600V200H600'/>\n</g>\n<g transform='translate(64 486)'>\n<g transform='translate(-40 -16)' text-anchor='start'><text y='-16' font-size='13'>joiners: 1, rows counted: 1, changes of the grid: 0</text><text>greatest load / best load: 1.00 while no change is under way, none while one is</text></g>\n<path d='M0 200H600' stroke='#d5dde6'/><text x='-8' y='200' dy='4' text-anchor='end'>1.00</text>\n<path d='M0 160H600' stroke='#d5dde6'/><text x='-8' y='160' dy='4' text-anchor='end'>1.10</text>\n<path d='M0 120H600' stroke='#d5dde6'/><text x='-8' y='120' dy='4' text-anchor='end'>1.20</text>\n<path d='M0 80H600' stroke='#d5dde6'/><text x='-8' y='80' dy='4' text-anchor='end'>1.30</text>\n<path d='M0 40H600' stroke='#d5dde6'/><text x='-8' y='40' dy='4' text-anchor='end'>1.40</text>\n<path d='M0 0H600' stroke='#d5dde6'/><text x='-8' y='0' dy='4' text-anchor='end'>1.50</text>\n<path d='M0 0V200' stroke='#1c2733'/><text transform='translate(-52 100) rotate(-90)'>load / best load</text>\n<path d='M0 200v5' stroke='#1c2733'/><text x='0' y='217'>0</text>\n<path d='M600 200v5' stroke='#1c2733'/><text x='600' y='217'>1</text>\n<path d='M0 200H600' stroke='#1c2733'/><text x='300' y='234'>rows of R and S that were counted</text>\n<path d='M0 100H600' stroke='#b3261e' stroke-width='1.5' stroke-dasharray='6 4'/><text x='612' y='100' dy='4' text-anchor='start' fill='#b3261e'>5/4 of the best</text>\n<path fill='none' stroke='#1f5fa8' stroke-width='1.5' d='M600 200H600V200H600'/>\n</g>\n</svg>\n";

#[test]
fn two_journals_are_drawn(rt: HostRuntime) -> Result<(), Fail> {
    let alloc = rt.alloc();
    let mut drawing = Drawing::new(alloc);
    drawing.add(alloc, "joiners: 4", 2, ONE, &journal())?;
    let lone = [line(0, 0, 0, 0, false), line(0, 1, 0, 0, false)];
    drawing.add(alloc, "joiners: 1", 0, Weights { r: 2, s: 1 }, &lone)?;
    let text = drawing.picture(alloc)?;
    assert!(rt; text.as_str() == PICTURE);
    Ok(())
}

#[test]
fn a_journal_has_points_and_steps(rt: HostRuntime) -> Result<(), Fail> {
    let alloc = rt.alloc();
    let points = points(alloc, 2, ONE, &journal())?;
    let mut heights = String::new(alloc);
    for point in points.as_slice() {
        let rows = point.rows;
        let height = height(*point);
        write!(heights, "{rows} {height};")?;
    }
    assert_eq!(rt;
        heights.as_str(),
        "8 1000;14 1076;20 1000;32 1250;33 1272;33 1000;36 1000;"
    );
    let greatest = greatest_heights(points.as_slice());
    assert_eq!(rt;
        greatest,
        Greatest {
            still: 1076,
            moving: 1272
        }
    );
    let mut shapes = String::new(alloc);
    for step in steps(alloc, &journal())?.as_slice() {
        let shift = step.begun.shift;
        let from = step.begun.rows_s;
        let to = step.ended.rows_s;
        write!(shapes, "{shift} {from} {to};")?;
    }
    assert_eq!(rt; shapes.as_str(), "0 4 17;1 17 20;");
    Ok(())
}

// Two points of one column are one stretch, that goes up to the higher.
#[test]
fn a_column_keeps_its_highest_point(rt: HostRuntime) -> Result<(), Fail> {
    let alloc = rt.alloc();
    let points = points(alloc, 2, ONE, &journal())?;
    let stretches = stretches(alloc, 36, points.as_slice())?;
    assert_eq!(rt; stretches.len(), 6);
    assert!(rt;
        stretches.as_slice().iter().any(|stretch| height(stretch.highest) == 1272
            && height(stretch.last) == 1000)
    );
    Ok(())
}

// A line with which a wave begins has the numbers of the line before it.
fn wave_line(rows_r: u64, rows_s: u64) -> TurnLine {
    TurnLine {
        cause: Cause::Wave,
        ..line(rows_r, rows_s, 0, 1, false)
    }
}

// Two waves behind the first, the last of which brings no row.
#[test]
fn waves_are_marked(rt: HostRuntime) -> Result<(), Fail> {
    let alloc = rt.alloc();
    let journal = [
        line(0, 0, 0, 1, false),
        line(4, 4, 0, 1, false),
        wave_line(4, 4),
        line(8, 8, 0, 1, false),
        wave_line(8, 8),
    ];
    assert_eq!(rt; waves(alloc, &journal)?.len(), 2);
    assert_eq!(rt; steps(alloc, &journal)?.len(), 0);
    let mut drawing = Drawing::new(alloc);
    drawing.add(alloc, "joiners: 4", 2, ONE, &journal)?;
    let text = drawing.picture(alloc)?;
    assert!(rt;
        text.as_str().contains(
            "<path d='M300 0V200' stroke='#1c2733' stroke-dasharray='2 3'/><text x='300' dx='4' y='195' text-anchor='start'>wave 2</text>"
        )
    );
    assert!(rt;
        text.as_str().contains(
            "<path d='M600 0V200' stroke='#1c2733' stroke-dasharray='2 3'/><text x='600' dx='4' y='195' text-anchor='start'>wave 3</text>"
        )
    );
    Ok(())
}
