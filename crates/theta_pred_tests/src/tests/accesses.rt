// The accesses of predicates.

use super::texts::{is_told, over_x_and_a, write_atom, write_sums};
use row_cells::Side;
use std::alloc::{AllocError, Global};
use std::process::Abort;
use std::test::Fail;
use theta_pred::{Access, Interval, KeyAtom, Range, Same, SumPair, TextAtom};

fn write_pair(text: &mut String, pair: &SumPair) -> Result<(), AllocError> {
    text.push_str("[")?;
    write_sums(text, &pair.r_sum, &pair.s_sum)?;
    let gap = pair.gap;
    write!(text, " {gap}]")
}

// R's column and S's of equal texts, or R's columns, S's and how much R's sum is above S's, or the side whose rows a
// test reads alone.
fn write_same(text: &mut String, same: &Same) -> Result<(), AllocError> {
    match same {
        Same::Texts(TextAtom { r, s }) => write!(text, "[{r} {s}]"),
        Same::Sums(pair) => write_pair(text, pair),
        Same::Alone(alone) => text.push_str(side_alone(alone.side)),
    }
}

fn side_alone(side: Side) -> &'static str {
    match side {
        Side::R => "{r}",
        Side::S => "{s}",
    }
}

fn side_before(side: Side) -> &'static str {
    match side {
        Side::R => "(r: ",
        Side::S => "(s: ",
    }
}

// The side of the sum that lies between two, and the tests that bound it from below and from above.
fn write_interval(text: &mut String, interval: &Interval) -> Result<(), AllocError> {
    text.push_str(side_before(interval.points))?;
    write_atom(text, &interval.lower)?;
    text.push_str("; ")?;
    write_atom(text, &interval.upper)?;
    text.push_str(")")
}

fn write_span(text: &mut String, atom: &KeyAtom) -> Result<(), AllocError> {
    text.push_str("(")?;
    write_atom(text, atom)?;
    text.push_str(")")
}

// The range of an access, if it has one.
fn write_range(text: &mut String, range: &Option<Range>) -> Result<(), AllocError> {
    match range {
        Some(Range::Span(atom)) => write_span(text, atom),
        Some(Range::Interval(interval)) => write_interval(text, interval),
        None => Ok(()),
    }
}

fn write_access(text: &mut String, access: &Access) -> Result<(), AllocError> {
    for same in access.sames.as_slice() {
        write_same(text, same)?;
    }
    write_range(text, &access.range)
}

fn write_if_any(text: &mut String, access: &Option<Access>) -> Result<(), AllocError> {
    match access {
        Some(access) => write_access(text, access),
        None => text.push_str("none"),
    }
}

fn told_access(alloc: Global, access: &Option<Access>) -> Result<String, AllocError> {
    let mut text = String::new(alloc);
    match write_if_any(&mut text, access) {
        Ok(()) => Ok(text),
        Err(refused) => {
            drop(text);
            Err(refused)
        }
    }
}

fn copied_access(access: &Option<Access>) -> Result<Option<Access>, AllocError> {
    match access {
        Some(access) => Ok(Some(access.copy()?)),
        None => Ok(None),
    }
}

fn access_of(alloc: Global, text: &str) -> Result<Option<Access>, AllocError> {
    let theta = over_x_and_a(alloc, text)?;
    let access = theta.access();
    drop(theta);
    access
}

// The access of a predicate, told. (An access is let go by a call: where it is alive at a `?`, each of these is dear to
// prove.)
fn told(alloc: Global, text: &str) -> Result<String, AllocError> {
    let access = access_of(alloc, text)?;
    let told = told_access(alloc, &access);
    drop(access);
    told
}

// The copy of an access, told.
fn told_copy(alloc: Global, access: &Option<Access>) -> Result<String, AllocError> {
    let copy = copied_access(access)?;
    let told = told_access(alloc, &copy);
    drop(copy);
    told
}

// The copy of a predicate's access, told.
fn told_as_copied(alloc: Global, text: &str) -> Result<String, AllocError> {
    let access = access_of(alloc, text)?;
    let told = told_copy(alloc, &access);
    drop(access);
    told
}

fn is_told_so(rt: &impl Abort, told: String, wanted: &str, text: &str, how: &str) {
    is_told(rt, told.as_str(), wanted, text, how, "");
    drop(told);
}

// A predicate and its access, which its copy is too.
fn tells_both(rt: &impl Abort, alloc: Global, text: &str, wanted: &str) -> Result<(), AllocError> {
    is_told_so(rt, told(alloc, text)?, wanted, text, "");
    is_told_so(rt, told_as_copied(alloc, text)?, wanted, text, ", copied");
    Ok(())
}

// A line is both.
fn tells_access(rt: &impl Abort, alloc: Global, line: &str) -> Result<(), AllocError> {
    match line.split_once(" | ") {
        Some((text, wanted)) => tells_both(rt, alloc, text, wanted),
        None => Err(AllocError),
    }
}

fn tells_accesses(rt: &impl Abort, alloc: Global, lines: &[&str]) -> Result<(), AllocError> {
    for line in lines {
        tells_access(rt, alloc, line)?;
    }
    Ok(())
}

#[test]
fn predicates_with_their_accesses(rt: HostRuntime) -> Result<(), Fail> {
    let lines = [
        "text(r.x) = text(s.a) | [0 1]",
        "text(s.a) = text(r.x) | [0 1]",
        "r.x + 5 = s.a | [+0 +1 -5]",
        "s.a - r.x = 3 | [-0 -1 3]",
        "r.x + r.a = s.x - s.a + s.a | [+0+1 +0-1+1 0]",
        "text(r.x) = text(s.a) and (r.a = s.x and (r.a = s.x + 1)) | [0 1][+1 +0 0][+1 +0 1]",
        "(text(r.x) = text(s.a) or 1 = 1) and r.x = s.x | [+0 +0 0]",
        "abs(r.a - r.x) <= 2 and text(r.x) = text(s.x) | {r}[0 0]",
        "abs(r.a - s.a) > 2 and text(r.x) = text(s.x) | [0 0]",
    ];
    tells_accesses(&rt, rt.alloc(), &lines)?;
    Ok(())
}

#[test]
fn equalities_with_a_range_beside_them(rt: HostRuntime) -> Result<(), Fail> {
    let lines = [
        "r.x < s.x and text(r.a) = text(s.x) and r.x = s.a | [1 0][+0 +1 0](+0 +0 none -1)",
        "abs(r.a - s.a) <= 2 and text(r.x) = text(s.x) and r.x = s.x | [0 0][+0 +0 0](+1 +1 -2 2)",
        "abs(r.a - s.a) <= 2 and text(r.x) = text(s.x) | [0 0](+1 +1 -2 2)",
        "text(r.x) = text(s.x) and r.x <= s.x and abs(r.a - s.a) < 1 | [0 0](+1 +1 0 0)",
        "text(r.x) = text(s.x) and (r.x != s.x and s.x <= r.x) | [0 0](+0 +0 0 none)",
        "r.x = s.x and s.a - r.a < 3 and r.a - s.a < 3 | [+0 +0 0](+1 +1 -2 2)",
    ];
    tells_accesses(&rt, rt.alloc(), &lines)?;
    Ok(())
}

#[test]
fn tests_of_the_same_sums_are_met(rt: HostRuntime) -> Result<(), Fail> {
    let lines = [
        "r.x <= s.x and r.x >= s.x - 4 | (+0 +0 -4 0)",
        "s.x - 4 <= r.x and s.x >= r.x | (+0 +0 -4 0)",
        "abs(s.x - r.x) <= 5 and r.x < s.x and s.x < r.x + 9 | (+0 +0 -5 -1)",
        "(r.x <= s.x and r.a <= s.a) and (r.x >= s.x - 4 or 1 = 1) and r.x > s.x - 2 | (+0 +0 -1 0)",
        "r.x + r.a <= s.x and s.x - 2 <= r.x + r.a | (+0+1 +0 -2 0)",
        "0 - r.x - r.a <= s.x - s.a and s.x - s.a <= 8 - r.x - r.a | (+0+1 -0+1 0 8)",
        "r.a + r.x <= s.x and s.x - 2 <= r.x + r.a | (+0+1 +0 -2 0)",
        "r.x - r.a <= s.x and s.x + r.a <= r.x + 7 | (+0-1 +0 -7 0)",
        "s.x + s.a - r.a - r.x >= 0 and 9 + r.x >= s.a - r.a + s.x | (+0+1 +0+1 -9 0)",
        "r.x < s.x and r.x > s.x | (+0 +0 1 -1)",
        "abs(r.x - s.x) <= 2 and abs(r.a - s.a) <= 9 and abs(s.x - r.x - 1) <= 2 | (+0 +0 -2 1)",
    ];
    tells_accesses(&rt, rt.alloc(), &lines)?;
    Ok(())
}

#[test]
fn a_sum_between_two_sums_of_the_other_side(rt: HostRuntime) -> Result<(), Fail> {
    let lines = [
        "s.x <= r.x and r.x <= s.a | (r: +0 +0 0 none; +0 +1 none 0)",
        "r.x <= s.a and s.x <= r.x | (r: +0 +0 0 none; +0 +1 none 0)",
        "r.x <= s.x and s.x < r.a | (s: +0 +0 none 0; +1 +0 1 none)",
        "s.x >= r.x and s.x <= r.a + 3 | (s: +0 +0 none 0; +1 +0 -3 none)",
        "0 - r.x <= s.x and s.x <= r.a | (s: -0 +0 none 0; +1 +0 0 none)",
        "s.x <= 0 - r.x and 0 - r.x <= s.a | (r: +0 -1 0 none; +0 -0 none 0)",
        "text(r.x) = text(s.x) and s.x + 1 <= r.x + r.a and r.x + r.a < s.a \
            | [0 0](r: +0+1 +0 1 none; +0+1 +1 none -1)",
        "r.x <= s.x and r.a <= s.x and s.x <= r.a | (s: +0 +0 none 0; +1 +0 0 none)",
    ];
    tells_accesses(&rt, rt.alloc(), &lines)?;
    Ok(())
}

#[test]
fn a_range_with_two_bounds_goes_before_one_with_one(rt: HostRuntime) -> Result<(), Fail> {
    let lines = [
        "r.a <= s.a and s.x <= r.x and r.x <= s.x + 4 | (+0 +0 0 4)",
        "r.a <= s.a and s.x <= r.x and r.x < s.a | (r: +0 +0 0 none; +0 +1 none -1)",
        "text(r.x) = text(s.x) and r.a > s.x and s.a >= r.x and s.a < r.a \
            | [0 0](s: +0 +1 none 0; +1 +1 1 none)",
        "r.a <= s.a and s.x <= r.x and r.x > s.a | (s: +1 +1 none 0; +0 +1 1 none)",
    ];
    tells_accesses(&rt, rt.alloc(), &lines)?;
    Ok(())
}

#[test]
fn members_that_read_one_side_alone(rt: HostRuntime) -> Result<(), Fail> {
    let lines = [
        "r.x > 5 | {r}",
        "s.x != s.a or abs(s.a) < 3 | {s}",
        "1 = 2 | {r}{s}",
        "not (r.x = 1 and text(r.a) = '') | {r}",
        "r.x = 3 and r.x = r.a | {r}{r}",
        "text(r.x) = text(r.a) and text(s.x) = 'u' | {r}{s}",
        "text(r.x) = 'u' and r.a = s.a | {r}[+1 +1 0]",
        "(r.x = 1 and text(s.a) = 'u') and r.a = s.a | {r}{s}[+1 +1 0]",
        "1 = 1 and (text(r.x) = text(s.a) and (r.a = s.x and 2 = 2)) | {r}{s}[0 1][+1 +0 0]{r}{s}",
        "r.x > 5 and s.x <= r.x | {r}(+0 +0 0 none)",
        "text(r.x) = text(s.x) and (1 = 1 and s.x <= r.x) | [0 0]{r}{s}(+0 +0 0 none)",
        "abs(r.a - s.a) <= 2 and 's' < text(s.x) | {s}(+1 +1 -2 2)",
        "r.x > 5 or s.x > 5 | none",
    ];
    tells_accesses(&rt, rt.alloc(), &lines)?;
    Ok(())
}

#[test]
fn predicates_without_an_access(rt: HostRuntime) -> Result<(), Fail> {
    let lines = [
        "r.x <= s.x | none",
        "s.x >= r.x | none",
        "abs(r.a - s.a) <= 2 | none",
        "r.x <= s.x and r.a <= s.a | none",
        "abs(s.a - r.a) <= 2 and s.x <= r.x and r.x <= s.a | none",
        "s.x <= r.x and s.a <= r.x | none",
        "r.x <= s.x and r.x < s.x + 3 | none",
        "r.x != s.x | none",
        "text(r.x) < text(s.a) | none",
        "text(r.x) = text(s.a) or 1 = 1 | none",
        "not text(r.x) = text(s.a) | none",
    ];
    tells_accesses(&rt, rt.alloc(), &lines)?;
    Ok(())
}

// Whether agreeing is all that a predicate says.
fn is_agreeing_enough(alloc: Global, text: &str) -> Result<bool, AllocError> {
    let theta = over_x_and_a(alloc, text)?;
    let enough = theta.agreements_suffice();
    drop(theta);
    Ok(enough)
}

#[test]
fn agreeing_is_enough_where_each_member_is_an_agreement(rt: HostRuntime) -> Result<(), Fail> {
    let lines = [
        "r.x = s.x",
        "text(r.x) = text(s.a) and (r.a + 1 = s.x and r.x > 5)",
        "not (text(s.x) = 'u' or s.a = 1) and (1 = 1 and s.x - r.x = 3)",
    ];
    for line in lines {
        let enough = is_agreeing_enough(rt.alloc(), line)?;
        assert!(&rt; enough, "{line}");
    }
    Ok(())
}

#[test]
fn it_is_not_where_one_is_none(rt: HostRuntime) -> Result<(), Fail> {
    let lines = [
        "r.x = s.x and text(r.a) != text(s.a)",
        "(r.x = s.x and (r.a = s.a or r.x > 5)) and 1 = 1",
        "r.x = s.x and not r.a = s.a",
        "r.x = s.x and abs(r.a - s.a) <= 2",
        "r.x = s.x or r.a = s.a",
    ];
    for line in lines {
        let enough = is_agreeing_enough(rt.alloc(), line)?;
        assert!(&rt; !enough, "{line}");
    }
    Ok(())
}
