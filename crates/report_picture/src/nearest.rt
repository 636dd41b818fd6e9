// The report that a text comes nearest to. Its lines are read loosely, each number by its place in its line, into a
// report that is whole in any case.

ghost use Rattle.std.specs.Prelude.{◌≡◌, ◌≤◌, ◌<◌, ◌*◌, ◌^◌, ℕ, [], All, List, IfOk, OnOk, Some, fold};
ghost use Rattle.std.specs.Prelude.{length, slice_get, unwrap_or};
ghost use Rattle.std.specs.Fmt.{decimal};
ghost use Rattle.report_lines.specs.declared.report_numbers.Growth.{Growth as TheGrowth};
ghost use Rattle.report_lines.specs.declared.report_numbers.Joiner.{Joiner as TheJoiner};
ghost use Rattle.report_lines.specs.declared.report_numbers.Report.{Report as TheReport};
ghost use Rattle.report_lines.specs.declared.report_numbers.Step.{Step as TheStep};
ghost use Rattle.report_lines.specs.Grids.{HasGrids, HasGrownSides, HasSides, IsSide, IsWhole};
ghost use Rattle.report_lines.specs.Lines.{report_lines};
ghost use Rattle.report_picture.specs.Texts.{words_in};
ghost use Rattle.report_picture.specs.Reading.{Entry, Final, Grid, Grow, Held, Input, IsReadable, NumbersFit};
ghost use Rattle.report_picture.specs.Reading.{line_of, nothing_yet as blank, taken, text_of};
ghost use Rattle.report_picture.specs.Reading.{with_grid, with_step, words_of};

use report_lines::{Growth, Joiner, Joiners, Report, Step, Steps};
use row_cells::Items;
use std::alloc::{AllocError, Global};
use std::{mem, str};

// A word of a line, the words parted by spaces; the empty one where there is none.
fn word(line: &[u8], place: usize) -> &[u8]
    ensures { result.now ≡ unwrap_or (slice_get (words_in line.now) place) [] }
{
    let Some(word) = line.split(|byte| *byte == b' ').nth(place) else {
        return &[];
    };
    word
}

// The number that a word writes; 0 where it writes none.
fn value(word: &[u8]) -> u64
    ensures { (n : ℕ) → n < 2 ^ 64 → word.now ≡ decimal n → result ≡ n }
{
    let Ok(word) = str::from_utf8(word) else {
        return 0;
    };
    word.parse().unwrap_or(0)
}

// The number that a word of a line writes.
fn number(line: &[u8], place: usize) -> u64
    ensures { (n : ℕ) → n < 2 ^ 64 → slice_get (words_in line.now) place ≡ Some (decimal n)
        → result ≡ n }
{
    value(word(line, place))
}

// The same as a number of rows or columns, the nearest one.
fn side(line: &[u8], place: usize) -> u64
    ensures side { IsSide result }
    ensures exact { (n : ℕ) → IsSide n → slice_get (words_in line.now) place ≡ Some (decimal n)
        → result ≡ n }
{
    number(line, place).clamp(1, 256)
}

fn read_step(line: &[u8]) -> Step
    ensures sides { HasSides result }
    ensures exact { (epoch : ℕ) (wanted : TheStep) → IsReadable (Grid epoch wanted)
        → words_in line.now ≡ words_of (Grid epoch wanted) → result ≡ wanted }
{
    let n = side(line, 2);
    let m = side(line, 3);
    let moved = number(line, 5);
    Step { n, m, moved }
}

fn read_growth(line: &[u8]) -> Growth
    ensures sides { HasGrownSides result }
    ensures exact { (wanted : TheGrowth) → IsReadable (Grow wanted)
        → words_in line.now ≡ words_of (Grow wanted) → result ≡ wanted }
{
    let n = side(line, 1);
    let m = side(line, 2);
    let placed = number(line, 4);
    Growth { n, m, placed }
}

fn read_joiner(line: &[u8]) -> Joiner
    ensures { (id : ℕ) (wanted : TheJoiner) → IsReadable (Held id wanted)
        → words_in line.now ≡ words_of (Held id wanted) → result ≡ wanted }
{
    let rows_r = number(line, 3);
    let rows_s = number(line, 4);
    let made = number(line, 6);
    Joiner {
        rows_r,
        rows_s,
        made,
    }
}

// As many steps as a report has at most, and as many since a growth.
const MOST_STEPS: u64 = 65536;

fn push_step(steps: &mut Steps, step: Step) -> Result<(), AllocError>
    requires few { length steps.old ≤ 2 ^ 16 }
    requires sides { All HasSides steps.old }
    requires step { HasSides step }
    ensures few { length steps.new ≤ 2 ^ 16 }
    ensures sides { All HasSides steps.new }
    ensures exact { OnOk result (steps.new ≡ with_step steps.old step) }
{
    if steps.len() < MOST_STEPS {
        steps.push(step)?;
    }
    Ok(())
}

fn take_input(report: &mut Report, line: &[u8])
    requires { HasGrids report.old }
    ensures grids { HasGrids report.new }
    ensures exact { (x y : ℕ) → IsReadable (Input x y) → words_in line.now ≡ words_of (Input x y)
        → report.new ≡ taken report.old (Input x y) }
{
    let x = number(line, 1);
    let y = number(line, 2);
    report.x = x;
    report.y = y;
}

fn take_grid(report: &mut Report, step: Step) -> Result<(), AllocError>
    requires grids { HasGrids report.old }
    requires step { HasSides step }
    ensures grids { HasGrids report.new }
    ensures exact { OnOk result (report.new ≡ with_grid report.old step) }
{
    if report.growth.is_some() {
        push_step(&mut report.later, step)
    } else {
        push_step(&mut report.steps, step)
    }
}

fn take_growth(report: &mut Report, growth: Growth)
    requires grids { HasGrids report.old }
    requires growth { HasGrownSides growth }
    ensures grids { HasGrids report.new }
    ensures exact { report.new ≡ taken report.old (Grow growth) }
{
    report.growth = Some(growth);
}

fn take_final(report: &mut Report, line: &[u8])
    requires { HasGrids report.old }
    ensures grids { HasGrids report.new }
    ensures exact { (n m copies best : ℕ) → IsReadable (Final n m copies best)
        → words_in line.now ≡ words_of (Final n m copies best)
        → report.new ≡ taken report.old (Final n m copies best) }
{
    let n = side(line, 1);
    let m = side(line, 2);
    let copies = number(line, 4);
    let best = number(line, 6);
    report.n = n;
    report.m = m;
    report.copies = copies;
    report.best = best;
}

fn take_joiner(report: &mut Report, joiner: Joiner) -> Result<(), AllocError>
    requires { HasGrids report.old }
    ensures grids { HasGrids report.new }
    ensures exact { (id : ℕ) → OnOk result (report.new ≡ taken report.old (Held id joiner)) }
{
    report.joiners.push(joiner)?;
    Ok(())
}

fn take_line(report: &mut Report, line: &[u8]) -> Result<(), AllocError>
    requires { HasGrids report.old }
    ensures grids { HasGrids report.new }
    ensures exact { (entry : Entry) → IsReadable entry → line.now ≡ line_of entry
        → OnOk result (report.new ≡ taken report.old entry) }
{
    if line.starts_with(b"input ") {
        take_input(report, line);
        Ok(())
    } else if line.starts_with(b"grid ") {
        take_grid(report, read_step(line))
    } else if line.starts_with(b"grow ") {
        take_growth(report, read_growth(line));
        Ok(())
    } else if line.starts_with(b"final ") {
        take_final(report, line);
        Ok(())
    } else if line.starts_with(b"joiner ") {
        take_joiner(report, read_joiner(line))
    } else {
        Ok(())
    }
}

fn take_lines(report: &mut Report, text: &[u8]) -> Result<(), AllocError>
    requires { HasGrids report.old }
    ensures grids { HasGrids report.new }
    ensures exact { (entries : List Entry) → All IsReadable entries → text.now ≡ text_of entries
        → OnOk result (report.new ≡ fold taken report.old entries) }
{
    for line in text.split(|byte| *byte == b'\n') {
        take_line(report, line)?;
    }
    Ok(())
}

// So many of the joiners: what is too much goes, what is missing holds nothing.
fn so_many(joiners: Joiners, places: usize) -> Result<Joiners, AllocError>
    ensures many { IfOk result (λ fitted. length fitted ≡ places) }
    ensures same { length joiners ≡ places → IfOk result (λ fitted. fitted ≡ joiners) }
{
    let nothing = Joiner {
        rows_r: 0,
        rows_s: 0,
        made: 0,
    };
    let mut held = joiners.into_vec();
    held.resize(places, nothing)?;
    Ok(Items::from_vec(held))
}

// As many joiners as the last grid has.
fn fit_joiners(report: &mut Report) -> Result<(), AllocError>
    requires { HasGrids report.old }
    ensures whole { OnOk result (IsWhole report.new) }
    ensures same { length report.old.joiners ≡ report.old.n * report.old.m
        → OnOk result (report.new ≡ report.old) }
{
    let none = Items::new(report.joiners.allocator());
    let joiners = mem::replace(&mut report.joiners, none);
    report.joiners = so_many(joiners, (report.n * report.m) as usize)?;
    Ok(())
}

// What a reader begins with.
fn nothing_yet(alloc: Global) -> Report
    ensures grids { HasGrids result }
    ensures nothing { result ≡ blank }
{
    Report {
        x: 0,
        y: 0,
        steps: Items::new(alloc),
        growth: None,
        later: Items::new(alloc),
        n: 1,
        m: 1,
        copies: 0,
        best: 0,
        joiners: Items::new(alloc),
    }
}

// The report that the lines of a text come nearest to.
pub(crate) fn nearest(alloc: Global, text: &[u8]) -> Result<Report, AllocError>
    ensures whole { IfOk result IsWhole }
    ensures exact { (wanted : TheReport) → IsWhole wanted → NumbersFit wanted
        → text.now ≡ report_lines wanted → IfOk result (λ read. read ≡ wanted) }
{
    let mut report = nothing_yet(alloc);
    take_lines(&mut report, text)?;
    fit_joiners(&mut report)?;
    Ok(report)
}
