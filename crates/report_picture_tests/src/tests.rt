use report_picture::{ReportError, picture, read_report};
use std::alloc::{AllocError, Global};
use std::test::Fail;

// Two joiners that go from one column to two.
const REPORT: &str =
    "1,1\n1,7\ninput 1 9\ngrid 1 1 2 moved 1\nfinal 1 2 copies 11 best 11\njoiner 0 held 1 5 made 1\njoiner 1 held 1 4 made 1\n";

const PICTURE: &str =
    "<svg xmlns='http://www.w3.org/2000/svg' width='640' height='488' viewBox='0 0 640 488' role='img' font-family='monospace' font-size='11' text-anchor='middle' fill='#1c2733'>\n<title>A run of jm, joiners: 2</title>\n<desc>Rows of R: 1, rows of S: 9, pairs: 2. Changes of the grid: 1. Last grid: rows 1, columns 2. Load: 1.00 times the best.</desc>\n<rect width='100%' height='100%' fill='#ffffff'/>\n<text x='24' y='32' text-anchor='start' font-size='15'>rows of R: 1, rows of S: 9, pairs: 2</text>\n<g transform='translate(24 84)'>\n<pattern id='grid0' width='128' height='64' patternUnits='userSpaceOnUse'><path d='M0 0H128V128H0Z' fill='#e8f1fb' stroke='#1f5fa8' stroke-width='2'/></pattern>\n<rect width='128' height='128' fill='url(#grid0)' stroke='#1f5fa8'/>\n<text x='64' y='-10'>first grid</text><text x='64' y='148'>2 &#215; 1</text></g>\n<g transform='translate(232 84)'>\n<pattern id='grid1' width='64' height='128' patternUnits='userSpaceOnUse'><path d='M0 0H128V128H0Z' fill='#e8f1fb' stroke='#1f5fa8' stroke-width='2'/></pattern>\n<rect width='128' height='128' fill='url(#grid1)' stroke='#1f5fa8'/>\n<text x='64' y='-10'>epoch 1</text><text x='64' y='148'>1 &#215; 2</text>\n<path d='M-72 64H-8m-8 -5l8 5l-8 5' fill='none' stroke='#1c2733'/><text x='-40' y='56'>1</text><text x='-40' y='80'>moved</text></g>\n<g transform='translate(24 272)' text-anchor='start'><text font-size='13'>load 11: 1.00 &#215; best (11), at most 5/4 of it</text>\n<rect y='12' width='0' height='12' fill='#4c9be8'/><path d='M0 12H400V24H0Z' fill='none' stroke='#1f5fa8'/><path d='M0 8v20' stroke='#1c2733' stroke-width='3'/><text y='40'>best</text><text x='400' y='40' text-anchor='end'>5/4 of best</text></g>\n<g transform='translate(24 352)' text-anchor='start'><text font-size='13'>last grid: 1 &#215; 2 joiners, rows of R that they hold: 2, of S: 9</text>\n<linearGradient id='shade'><stop stop-color='#4c9be8' stop-opacity='.1'/><stop offset='1' stop-color='#4c9be8' stop-opacity='.9'/></linearGradient><text y='26'>shade: 0 rows</text><rect x='96' y='16' width='200' height='12' fill='url(#shade)' stroke='#1f5fa8'/><text x='304' y='26'>6 rows, the most that a joiner holds</text></g>\n<g transform='translate(24 396)'><rect width='120' height='68' fill='#4c9be8' fill-opacity='.900' stroke='#1f5fa8'/><text x='60' y='15'>joiner 0</text><text x='60' y='31'>R 1</text><text x='60' y='46'>S 5</text><text x='60' y='61'>pairs 1</text></g>\n<g transform='translate(148 396)'><rect width='120' height='68' fill='#4c9be8' fill-opacity='.766' stroke='#1f5fa8'/><text x='60' y='15'>joiner 1</text><text x='60' y='31'>R 1</text><text x='60' y='46'>S 4</text><text x='60' y='61'>pairs 1</text></g>\n</svg>\n";

// Two joiners that go to two columns, grow to eight, and go to one row.
const GROWN: &str =
    "input 4 9\ngrid 1 1 2 moved 2\ngrow 2 4 placed 34\ngrid 2 1 8 moved 8\nfinal 1 8 copies 41 best 34\njoiner 0 held 4 2 made 0\njoiner 1 held 4 1 made 1\njoiner 2 held 4 1 made 2\njoiner 3 held 4 1 made 3\njoiner 4 held 4 1 made 4\njoiner 5 held 4 1 made 5\njoiner 6 held 4 1 made 6\njoiner 7 held 4 1 made 7\n";

const GROWN_PICTURE: &str =
    "<svg xmlns='http://www.w3.org/2000/svg' width='1040' height='488' viewBox='0 0 1040 488' role='img' font-family='monospace' font-size='11' text-anchor='middle' fill='#1c2733'>\n<title>A run of jm, joiners: 8</title>\n<desc>Rows of R: 4, rows of S: 9, pairs: 28. Changes of the grid: 2. Grown to rows 2, columns 4, rows placed: 34. Last grid: rows 1, columns 8. Load: 1.21 times the best.</desc>\n<rect width='100%' height='100%' fill='#ffffff'/>\n<text x='24' y='32' text-anchor='start' font-size='15'>rows of R: 4, rows of S: 9, pairs: 28</text>\n<g transform='translate(24 84)'>\n<pattern id='grid0' width='128' height='64' patternUnits='userSpaceOnUse'><path d='M0 0H128V128H0Z' fill='#e8f1fb' stroke='#1f5fa8' stroke-width='2'/></pattern>\n<rect width='128' height='128' fill='url(#grid0)' stroke='#1f5fa8'/>\n<text x='64' y='-10'>first grid</text><text x='64' y='148'>2 &#215; 1</text></g>\n<g transform='translate(232 84)'>\n<pattern id='grid1' width='64' height='128' patternUnits='userSpaceOnUse'><path d='M0 0H128V128H0Z' fill='#e8f1fb' stroke='#1f5fa8' stroke-width='2'/></pattern>\n<rect width='128' height='128' fill='url(#grid1)' stroke='#1f5fa8'/>\n<text x='64' y='-10'>epoch 1</text><text x='64' y='148'>1 &#215; 2</text>\n<path d='M-72 64H-8m-8 -5l8 5l-8 5' fill='none' stroke='#1c2733'/><text x='-40' y='56'>2</text><text x='-40' y='80'>moved</text></g>\n<g transform='translate(440 84)'>\n<pattern id='grid2' width='32' height='64' patternUnits='userSpaceOnUse'><path d='M0 0H128V128H0Z' fill='#e8f1fb' stroke='#1f5fa8' stroke-width='2'/></pattern>\n<rect width='128' height='128' fill='url(#grid2)' stroke='#1f5fa8'/>\n<text x='64' y='-10'>grown to</text><text x='64' y='148'>2 &#215; 4</text>\n<path d='M-72 64H-8m-8 -5l8 5l-8 5' fill='none' stroke='#1c2733'/><text x='-40' y='56'>34</text><text x='-40' y='80'>placed</text></g>\n<g transform='translate(648 84)'>\n<pattern id='grid3' width='16' height='128' patternUnits='userSpaceOnUse'><path d='M0 0H128V128H0Z' fill='#e8f1fb' stroke='#1f5fa8' stroke-width='2'/></pattern>\n<rect width='128' height='128' fill='url(#grid3)' stroke='#1f5fa8'/>\n<text x='64' y='-10'>epoch 2</text><text x='64' y='148'>1 &#215; 8</text>\n<path d='M-72 64H-8m-8 -5l8 5l-8 5' fill='none' stroke='#1c2733'/><text x='-40' y='56'>8</text><text x='-40' y='80'>moved</text></g>\n<g transform='translate(24 272)' text-anchor='start'><text font-size='13'>load 41: 1.21 &#215; best (34), at most 5/4 of it</text>\n<rect y='12' width='329' height='12' fill='#4c9be8'/><path d='M0 12H400V24H0Z' fill='none' stroke='#1f5fa8'/><path d='M329 8v20' stroke='#1c2733' stroke-width='3'/><text y='40'>best</text><text x='400' y='40' text-anchor='end'>5/4 of best</text></g>\n<g transform='translate(24 352)' text-anchor='start'><text font-size='13'>last grid: 1 &#215; 8 joiners, rows of R that they hold: 32, of S: 9</text>\n<linearGradient id='shade'><stop stop-color='#4c9be8' stop-opacity='.1'/><stop offset='1' stop-color='#4c9be8' stop-opacity='.9'/></linearGradient><text y='26'>shade: 0 rows</text><rect x='96' y='16' width='200' height='12' fill='url(#shade)' stroke='#1f5fa8'/><text x='304' y='26'>6 rows, the most that a joiner holds</text></g>\n<g transform='translate(24 396)'><rect width='120' height='68' fill='#4c9be8' fill-opacity='.900' stroke='#1f5fa8'/><text x='60' y='15'>joiner 0</text><text x='60' y='31'>R 4</text><text x='60' y='46'>S 2</text><text x='60' y='61'>pairs 0</text></g>\n<g transform='translate(148 396)'><rect width='120' height='68' fill='#4c9be8' fill-opacity='.766' stroke='#1f5fa8'/><text x='60' y='15'>joiner 1</text><text x='60' y='31'>R 4</text><text x='60' y='46'>S 1</text><text x='60' y='61'>pairs 1</text></g>\n<g transform='translate(272 396)'><rect width='120' height='68' fill='#4c9be8' fill-opacity='.766' stroke='#1f5fa8'/><text x='60' y='15'>joiner 2</text><text x='60' y='31'>R 4</text><text x='60' y='46'>S 1</text><text x='60' y='61'>pairs 2</text></g>\n<g transform='translate(396 396)'><rect width='120' height='68' fill='#4c9be8' fill-opacity='.766' stroke='#1f5fa8'/><text x='60' y='15'>joiner 3</text><text x='60' y='31'>R 4</text><text x='60' y='46'>S 1</text><text x='60' y='61'>pairs 3</text></g>\n<g transform='translate(520 396)'><rect width='120' height='68' fill='#4c9be8' fill-opacity='.766' stroke='#1f5fa8'/><text x='60' y='15'>joiner 4</text><text x='60' y='31'>R 4</text><text x='60' y='46'>S 1</text><text x='60' y='61'>pairs 4</text></g>\n<g transform='translate(644 396)'><rect width='120' height='68' fill='#4c9be8' fill-opacity='.766' stroke='#1f5fa8'/><text x='60' y='15'>joiner 5</text><text x='60' y='31'>R 4</text><text x='60' y='46'>S 1</text><text x='60' y='61'>pairs 5</text></g>\n<g transform='translate(768 396)'><rect width='120' height='68' fill='#4c9be8' fill-opacity='.766' stroke='#1f5fa8'/><text x='60' y='15'>joiner 6</text><text x='60' y='31'>R 4</text><text x='60' y='46'>S 1</text><text x='60' y='61'>pairs 6</text></g>\n<g transform='translate(892 396)'><rect width='120' height='68' fill='#4c9be8' fill-opacity='.766' stroke='#1f5fa8'/><text x='60' y='15'>joiner 7</text><text x='60' y='31'>R 4</text><text x='60' y='46'>S 1</text><text x='60' y='61'>pairs 7</text></g>\n</svg>\n";

#[test]
fn a_report_is_drawn(rt: HostRuntime) -> Result<(), Fail> {
    let alloc = rt.alloc();
    for (lines, wanted) in [(REPORT, PICTURE), (GROWN, GROWN_PICTURE)] {
        let report = read_report(alloc, lines.as_bytes())?;
        let text = picture(alloc, &report)?;
        assert!(rt; text.as_str() == wanted);
    }
    Ok(())
}

// Whether a report is drawn with both of these.
fn is_drawn_with(alloc: Global, lines: &str, first: &str, grown: &str) -> Result<bool, Fail> {
    let report = read_report(alloc, lines.as_bytes())?;
    let drawn = picture(alloc, &report);
    drop(report);
    let text = drawn?;
    let found = text.as_str().contains(first) && text.as_str().contains(grown);
    drop(text);
    Ok(found)
}

// The report of 256 joiners that hold nothing, in as many rows as a grid has at most.
fn of_256_joiners(alloc: Global) -> Result<String, AllocError> {
    let mut lines = String::from_str(
        alloc,
        "input 9 0\ngrow 256 1 placed 9\nfinal 256 1 copies 9 best 9\n",
    )?;
    for id in 0..256 {
        write!(lines, "joiner {id} held 0 0 made 0\n")?;
    }
    Ok(lines)
}

// A grid that grows where it never changed: from one joiner, and from 64 to as many rows as a grid has at most.
#[test]
fn a_grid_grows_before_it_changes(rt: HostRuntime) -> Result<(), Fail> {
    let alloc = rt.alloc();
    let four =
        "input 2 2\ngrow 2 2 placed 8\nfinal 2 2 copies 8 best 8\njoiner 0 held 1 1 made 1\njoiner 1 held 1 1 made 1\njoiner 2 held 1 1 made 1\njoiner 3 held 1 1 made 1\n";
    let first = "first grid</text><text x='64' y='148'>1 &#215; 1<";
    let grown = "grown to</text><text x='64' y='148'>2 &#215; 2<";
    assert!(rt; is_drawn_with(alloc, four, first, grown)?);
    let many = of_256_joiners(alloc)?;
    let first = "first grid</text><text x='64' y='148'>8 &#215; 8<";
    let grown = "grown to</text><text x='64' y='148'>256 &#215; 1<";
    assert!(rt; is_drawn_with(alloc, many.as_str(), first, grown)?);
    Ok(())
}

// A text, and the line that doesn't fit.
const REFUSED: [(&str, u64); 16] = [
    ("", 1),
    ("1,1\n2,1\n", 3),
    ("input 1 2", 1),
    ("input 1  2\n", 1),
    ("input 1 +2\n", 1),
    ("1,1\ninput 1 2\n", 3),
    ("input 1 2\ngrid 2 1 1 moved 0\n", 2),
    ("input 1 2\ngrid 1 0 1 moved 0\n", 2),
    ("input 1 2\ngrow 1 0 placed 0\n", 2),
    ("input 1 2\ngrow 2 2 placed 8\ngrid 2 2 2 moved 0\n", 3),
    ("input 1 2\ngrow 2 2 placed 8\ngrow 2 2 placed 8\n", 3),
    ("input 1 2\nfinal 1 1 copies 3 best 3\n", 3),
    (
        "input 1 2\nfinal 1 1 copies 3 best 3\njoiner 1 held 1 2 made 0\n",
        3,
    ),
    (
        "input 1 2\nfinal 1 1 copies 3 best 3\njoiner 0 held 1 2 made 0",
        3,
    ),
    (
        "input 1 2\nfinal 1 1 copies 3 best 3\njoiner 0 held 1 2 made 0\n\n",
        4,
    ),
    (
        "input 1 2\nfinal 1 1 copies 3 best 3\njoiner 0 held 1 2 made 0\njoiner 1 held 1 2 made 0\n",
        4,
    ),
];

#[test]
fn no_other_text_is_read(rt: HostRuntime) -> Result<(), Fail> {
    for (text, line) in REFUSED {
        let fault = read_report(rt.alloc(), text.as_bytes()).err();
        assert!(rt; fault == Some(ReportError::Line { line }), "line {line}");
    }
    Ok(())
}
