// What predicates answer.

mod accesses;
mod columns;
mod keys;
mod names;
mod predicates;
mod sums;
mod texts;

ghost use Rattle.std.specs.Prelude.{◌≤◌};
ghost use Rattle.theta_tree.specs.Sizes.{longest_sum as longest_sum'};

use self::predicates::{apart, band, compared, either, negated, text_below};
use self::texts::{is_told, over_x_and_a};
use row_cells::{Bytes, Cell, Cells, Names, Side};
use std::alloc::{AllocError, Global};
use std::process::Abort;
use std::test::Fail;
use theta_pred::{Op, Pred, ResolveFault, Theta, longest_sum, resolve};

fn push_words(alloc: Global, names: &mut Names, words: &str) -> Result<(), AllocError> {
    for word in words.split(' ') {
        names.push(Bytes::from_slice(alloc, word.as_bytes())?)?;
    }
    Ok(())
}

// Columns of these names, with a blank between two.
fn header(alloc: Global, words: &str) -> Result<Names, AllocError> {
    let mut names = Names::new(alloc);
    match push_words(alloc, &mut names, words) {
        Ok(()) => Ok(names),
        Err(refused) => {
            drop(names);
            Err(refused)
        }
    }
}

fn has_short_sums(rt: &impl Abort, pred: &Pred)
    ensures { longest_sum' pred.now ≤ 16 }
{
    assert!(rt; longest_sum(pred) <= 16);
}

// ---- what they answer

// The predicate over these columns and y, id.
fn over_y(alloc: Global, pred: &Pred, names_r: &Names) -> Result<Theta, ResolveFault>
    requires { longest_sum' pred.now ≤ 16 }
{
    let names_s = header(alloc, "y id")?;
    let theta = resolve(alloc, pred, names_r, &names_s);
    drop(names_s);
    theta
}

// The predicate over the columns id, x and y, id.
fn over_x_and_y(rt: &impl Abort, alloc: Global, pred: &Pred) -> Result<Theta, Fail> {
    has_short_sums(rt, pred);
    let names_r = header(alloc, "id x")?;
    let theta = over_y(alloc, pred, &names_r);
    drop(names_r);
    Ok(theta?)
}

// The same of a predicate that nobody needs any more.
fn made_over_x_and_y(rt: &impl Abort, alloc: Global, pred: Pred) -> Result<Theta, Fail> {
    let theta = over_x_and_y(rt, alloc, &pred);
    drop(pred);
    theta
}

// The cell of a word. A colon stands for an empty cell.
fn cell(alloc: Global, word: &str) -> Result<Cell, AllocError> {
    let text = if word == ":" { "" } else { word };
    Ok(Cell::new(Bytes::from_slice(alloc, text.as_bytes())?))
}

fn push_cell(alloc: Global, row: &mut Cells, word: &str) -> Result<(), AllocError> {
    row.push(cell(alloc, word)?)
}

fn push_both(alloc: Global, row: &mut Cells, first: &str, second: &str) -> Result<(), AllocError> {
    push_cell(alloc, row, first)?;
    push_cell(alloc, row, second)
}

fn row(alloc: Global, first: &str, second: &str) -> Result<Cells, AllocError> {
    let mut row = Cells::new(alloc);
    match push_both(alloc, &mut row, first, second) {
        Ok(()) => Ok(row),
        Err(refused) => {
            drop(row);
            Err(refused)
        }
    }
}

fn answer(rt: &impl Abort, theta: &Theta, r: &Cells, s: &Cells) -> bool {
    assert_eq!(rt; r.len(), theta.width_r());
    assert_eq!(rt; s.len(), theta.width_s());
    theta.holds(r, s)
}

fn answer_beside(
    rt: &impl Abort,
    alloc: Global,
    theta: &Theta,
    r: &Cells,
    y: &str,
) -> Result<bool, AllocError> {
    let s = row(alloc, y, "1")?;
    let answer = answer(rt, theta, r, &s);
    drop(s);
    Ok(answer)
}

// What the predicate answers at a row with x and a row with y.
fn answer_at(
    rt: &impl Abort,
    alloc: Global,
    theta: &Theta,
    x: &str,
    y: &str,
) -> Result<bool, AllocError> {
    let r = row(alloc, "1", x)?;
    let answer = answer_beside(rt, alloc, theta, &r, y);
    drop(r);
    answer
}

// What its copy answers there.
fn copy_answer_at(
    rt: &impl Abort,
    alloc: Global,
    theta: &Theta,
    x: &str,
    y: &str,
) -> Result<bool, AllocError> {
    let copy = theta.copy()?;
    let answer = answer_at(rt, alloc, &copy, x, y);
    drop(copy);
    answer
}

fn word_of(answer: bool) -> &'static str {
    if answer { "true" } else { "false" }
}

// That both answer so.
fn both_answer(
    rt: &impl Abort,
    alloc: Global,
    theta: &Theta,
    x: &str,
    y: &str,
    wanted: &str,
) -> Result<(), AllocError> {
    let first = answer_at(rt, alloc, theta, x, y)?;
    is_told(rt, word_of(first), wanted, x, " and ", y);
    let second = copy_answer_at(rt, alloc, theta, x, y)?;
    is_told(rt, word_of(second), wanted, x, ", by the copy, and ", y);
    Ok(())
}

fn answers_cells(
    rt: &impl Abort,
    alloc: Global,
    theta: &Theta,
    cells: &str,
    wanted: &str,
) -> Result<(), AllocError> {
    match cells.split_once(' ') {
        Some((x, y)) => both_answer(rt, alloc, theta, x, y, wanted),
        None => Err(AllocError),
    }
}

// A line is x, y and whether the predicate holds.
fn answers_line(
    rt: &impl Abort,
    alloc: Global,
    theta: &Theta,
    line: &str,
) -> Result<(), AllocError> {
    match line.split_once(" is ") {
        Some((cells, wanted)) => answers_cells(rt, alloc, theta, cells, wanted),
        None => Err(AllocError),
    }
}

fn answers_each(
    rt: &impl Abort,
    alloc: Global,
    theta: &Theta,
    lines: &[&str],
) -> Result<(), AllocError> {
    for line in lines {
        answers_line(rt, alloc, theta, line)?;
    }
    Ok(())
}

fn answers(rt: &impl Abort, alloc: Global, pred: Pred, lines: &[&str]) -> Result<(), Fail> {
    let theta = made_over_x_and_y(rt, alloc, pred)?;
    let outcome = answers_each(rt, alloc, &theta, lines);
    drop(theta);
    outcome?;
    Ok(())
}

// Whether a predicate is true of a row with this beside 1, and none of the other side.
fn holds_alone(alloc: Global, theta: &Theta, side: Side, x: &str) -> Result<bool, AllocError> {
    let row = row(alloc, x, "1")?;
    Ok(theta.holds_alone(side, &row))
}

// That a predicate is true, or not, of a row with this beside 1, and none of the other side.
fn answers_alone(
    rt: &impl Abort,
    alloc: Global,
    text: &str,
    side: Side,
    x: &str,
    wanted: bool,
) -> Result<(), AllocError> {
    let theta = over_x_and_a(alloc, text)?;
    let answer = holds_alone(alloc, &theta, side, x);
    drop(theta);
    assert!(rt; answer? == wanted, "{text} of {x}");
    Ok(())
}

#[test]
fn a_row_of_one_side_alone(rt: HostRuntime) -> Result<(), Fail> {
    for (text, side, x, wanted) in [
        ("text(r.x) = 'u' and r.a = 1", Side::R, "u", true),
        ("text(r.x) = 'u' and r.a = 1", Side::R, "v", false),
        ("s.x > s.a", Side::S, "2", true),
        ("s.x > s.a", Side::S, "1", false),
        ("not s.x > s.a", Side::S, "u", true), // a cell without a number
        ("r.x = s.x", Side::R, "2", false), // S's cell is missing
        ("text(r.x) > text(s.x)", Side::R, "u", true), // and has the empty text
        ("1 = 1", Side::S, "2", true),
    ] {
        answers_alone(&rt, rt.alloc(), text, side, x, wanted)?;
    }
    Ok(())
}

#[test]
fn bands_compare_whole_numbers(rt: HostRuntime) -> Result<(), Fail> {
    let lines = [
        "10 15 is true",
        "10 26 is false",
        "10 4 is false",
        "20 15 is true",
    ];
    answers(&rt, rt.alloc(), band(rt.alloc())?, &lines)
}

#[test]
fn differences_compare_whole_numbers(rt: HostRuntime) -> Result<(), Fail> {
    let lines = [
        "9223372036854775807 -9223372036854775808 is true",
        "-9223372036854775808 9223372036854775807 is false",
    ];
    answers(&rt, rt.alloc(), apart(rt.alloc())?, &lines)
}

#[test]
fn orders_compare_whole_numbers(rt: HostRuntime) -> Result<(), Fail> {
    let lines = ["1 2 is true", "2 2 is false"];
    answers(&rt, rt.alloc(), compared(rt.alloc(), Op::Lt)?, &lines)
}

#[test]
fn empty_cells_make_a_test_false(rt: HostRuntime) -> Result<(), Fail> {
    let alloc = rt.alloc();
    let equal = [": 5 is false", "5 5 is true"];
    answers(&rt, alloc, compared(alloc, Op::Eq)?, &equal)?;
    let unequal = [": 5 is false"];
    answers(&rt, alloc, compared(alloc, Op::Ne)?, &unequal)?;
    let not_equal = [": 5 is true", "5 5 is false"];
    answers(&rt, alloc, negated(alloc)?, &not_equal)
}

#[test]
fn texts_compare_byte_by_byte(rt: HostRuntime) -> Result<(), Fail> {
    let lines = [
        "ab abc is true",
        "abc ab is false",
        ": a is true",
        "b abc is false",
    ];
    answers(&rt, rt.alloc(), text_below(rt.alloc())?, &lines)
}

#[test]
fn one_of_two_is_enough(rt: HostRuntime) -> Result<(), Fail> {
    let lines = ["u 7 is true", "7 7 is true", "v 7 is false"];
    answers(&rt, rt.alloc(), either(rt.alloc())?, &lines)
}
