// Texts of the grammar, with their trees.

use crate::tests::shown::shown;
use std::alloc::Global;
use std::process::Abort;
use std::test::Fail;
use theta_text::parse;

// The tree of the text, in brackets.
fn reads_as(rt: &impl Abort, alloc: Global, text: &str, tree: &str) -> Result<(), Fail> {
    let read = parse(alloc, text)?;
    let brackets = shown(alloc, &read)?;
    assert!(rt; brackets.as_slice() == tree.as_bytes(), "{text}");
    Ok(())
}

#[test]
fn sums_are_read(rt: HostRuntime) -> Result<(), Fail> {
    let cases = [
        ("r.x = s.y", "[+r{x} = +s{y}]"),
        ("r.x=s.y", "[+r{x} = +s{y}]"),
        (" \t\n\rr\n. x =\ts . y ", "[+r{x} = +s{y}]"),
        ("r.x != s.y", "[+r{x} != +s{y}]"),
        ("r.x<s.y", "[+r{x} < +s{y}]"),
        ("r.x<=s.y", "[+r{x} <= +s{y}]"),
        ("r.x > s.y", "[+r{x} > +s{y}]"),
        ("r.x >= s.y", "[+r{x} >= +s{y}]"),
        ("1 = 2", "[+1 = +2]"),
        ("0 = 9223372036854775807", "[+0 = +9223372036854775807]"),
        ("007 = 1", "[+7 = +1]"),
        ("00000000000000000000000000001 = 10", "[+1 = +10]"),
        ("-r.x = +s.y", "[-r{x} = +s{y}]"),
        ("r.x=-s.y", "[+r{x} = -s{y}]"),
        ("r.x + 3 - s.y < 4", "[+r{x} +3 -s{y} < +4]"),
        ("r.x-1=s.y", "[+r{x} -1 = +s{y}]"),
        (
            "1+1+1+1+1+1+1+1+1+1+1+1+1+1+1+1 = 2",
            "[+1 +1 +1 +1 +1 +1 +1 +1 +1 +1 +1 +1 +1 +1 +1 +1 = +2]",
        ),
        (
            "+1+1+1+1+1+1+1+1+1+1+1+1+1+1+1+1=-2",
            "[+1 +1 +1 +1 +1 +1 +1 +1 +1 +1 +1 +1 +1 +1 +1 +1 = -2]",
        ),
        ("abs(r.at - s.at) <= 2", "[abs +r{at} -s{at} <= 2]"),
        ("abs(-5) = 0", "[abs -5 = 0]"),
        (
            "abs ( r.x ) > 9223372036854775807",
            "[abs +r{x} > 9223372036854775807]",
        ),
        ("r.and = s.or", "[+r{and} = +s{or}]"),
        ("r.not = s.abs", "[+r{not} = +s{abs}]"),
        ("r.text = s.r", "[+r{text} = +s{r}]"),
        ("s.s = r.s", "[+s{s} = +r{s}]"),
        ("r.AND = s.Text", "[+r{AND} = +s{Text}]"),
        ("r._a1 = s.B_2", "[+r{_a1} = +s{B_2}]"),
        ("r.\"Unit Price\" >= s.bid", "[+r{Unit Price} >= +s{bid}]"),
        ("r.\"\" = s.\"x\"", "[+r{} = +s{x}]"),
        ("r.\"\"\"\" = s.\"c\"\"d''e\"", "[+r{\"} = +s{c\"d''e}]"),
    ];
    for (text, tree) in cases {
        reads_as(&rt, rt.alloc(), text, tree)?;
    }
    Ok(())
}

#[test]
fn texts_are_read(rt: HostRuntime) -> Result<(), Fail> {
    let cases = [
        ("text(r.a) = text(s.b)", "[text r{a} = text s{b}]"),
        ("text(r.a) != 'x'", "[text r{a} != <x>]"),
        ("'x' < text ( s.b )", "[<x> < text s{b}]"),
        ("'a'<='b'", "[<a> <= <b>]"),
        ("'' = ''", "[<> = <>]"),
        ("'it''s' > ''''", "[<it's> > <'>]"),
        ("'''''' >= 'a''''b'", "[<''> >= <a''b>]"),
        ("'a\"b' = text(r.\"c\"\"d\")", "[<a\"b> = text r{c\"d}]"),
        ("text(r.text) = 'and'", "[text r{text} = <and>]"),
        ("'é \n(' = 'R.x'", "[<é \n(> = <R.x>]"),
    ];
    for (text, tree) in cases {
        reads_as(&rt, rt.alloc(), text, tree)?;
    }
    Ok(())
}

#[test]
fn groups_are_read(rt: HostRuntime) -> Result<(), Fail> {
    let cases = [
        ("not 1=1", "not [+1 = +1]"),
        ("not not 1=1", "not not [+1 = +1]"),
        ("1=1 and 2=2", "([+1 = +1] and [+2 = +2])"),
        (
            "1=1 and 2=2 and 3=3",
            "([+1 = +1] and [+2 = +2] and [+3 = +3])",
        ),
        ("1=1 or 2=2", "([+1 = +1] or [+2 = +2])"),
        ("1=1 or 2=2 or 3=3", "([+1 = +1] or [+2 = +2] or [+3 = +3])"),
        (
            "1=1 or 2=2 and 3=3",
            "([+1 = +1] or ([+2 = +2] and [+3 = +3]))",
        ),
        (
            "1=1 and 2=2 or 3=3",
            "(([+1 = +1] and [+2 = +2]) or [+3 = +3])",
        ),
        (
            "(1=1 or 2=2) and 3=3",
            "(([+1 = +1] or [+2 = +2]) and [+3 = +3])",
        ),
        (
            "1=1 and (2=2 or 3=3)",
            "([+1 = +1] and ([+2 = +2] or [+3 = +3]))",
        ),
        ("not 1=1 and 2=2", "(not [+1 = +1] and [+2 = +2])"),
        ("not (1=1 and 2=2)", "not ([+1 = +1] and [+2 = +2])"),
        ("not 1=1 or 2=2", "(not [+1 = +1] or [+2 = +2])"),
        ("(1=1)", "[+1 = +1]"),
        ("((1=1))", "[+1 = +1]"),
    ];
    for (text, tree) in cases {
        reads_as(&rt, rt.alloc(), text, tree)?;
    }
    Ok(())
}

#[test]
fn brackets_are_read(rt: HostRuntime) -> Result<(), Fail> {
    let cases = [
        (
            "(1=1 and 2=2) and 3=3",
            "(([+1 = +1] and [+2 = +2]) and [+3 = +3])",
        ),
        (
            "1=1 and (2=2 and 3=3)",
            "([+1 = +1] and ([+2 = +2] and [+3 = +3]))",
        ),
        (
            "(1=1 or 2=2) or 3=3",
            "(([+1 = +1] or [+2 = +2]) or [+3 = +3])",
        ),
        (
            "not(1=1)or(2=2)and(3=3)",
            "(not [+1 = +1] or ([+2 = +2] and [+3 = +3]))",
        ),
        ("not (not (1=1))", "not not [+1 = +1]"),
        (
            "abs(r.at - s.at) <= 2 and r.\"Unit Price\" >= s.bid",
            "([abs +r{at} -s{at} <= 2] and [+r{Unit Price} >= +s{bid}])",
        ),
        (
            "((((((((((((((((((((((((((((((((1=1))))))))))))))))))))))))))))))))",
            "[+1 = +1]",
        ),
        (
            "(((((((((((((((((((((((((((((((not 1=1)))))))))))))))))))))))))))))))",
            "not [+1 = +1]",
        ),
        (
            "not not not not not not not not not not not not not not not not not not not not not not not not not not not not not not not not 1=1",
            "not not not not not not not not not not not not not not not not not not not not not not not not not not not not not not not not [+1 = +1]",
        ),
        (
            "((((((((((((((((((((((((((((((((abs(1)=1))))))))))))))))))))))))))))))))",
            "[abs +1 = 1]",
        ),
        (
            "((((((((((((((((((((((((((((((((text(r.a)='b'))))))))))))))))))))))))))))))))",
            "[text r{a} = <b>]",
        ),
        (
            "(((((((((((((((((((((((((((((((1=1)))))))))))))))))))))))))))))) and (2=2))",
            "([+1 = +1] and [+2 = +2])",
        ),
    ];
    for (text, tree) in cases {
        reads_as(&rt, rt.alloc(), text, tree)?;
    }
    Ok(())
}
