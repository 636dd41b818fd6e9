// Faulty texts, with the places that follow from the grammar.

use theta_text::parse;
use theta_tree::PredFault;

#[test]
fn parts_and_words_out_of_place(rt: HostRuntime) {
    let cases = [
        ("", PredFault::Syntax { place: 0 }),
        ("   ", PredFault::Syntax { place: 3 }),
        ("r.x = ", PredFault::Syntax { place: 6 }),
        ("r.x == s.y", PredFault::Syntax { place: 5 }),
        ("r", PredFault::Syntax { place: 1 }),
        ("r.", PredFault::Syntax { place: 2 }),
        ("r.x", PredFault::Syntax { place: 3 }),
        (".x = 1", PredFault::Syntax { place: 0 }),
        ("x = 1", PredFault::Syntax { place: 0 }),
        ("R.x = 1", PredFault::Syntax { place: 0 }),
        ("r x = 1", PredFault::Syntax { place: 2 }),
        ("r. = 1", PredFault::Syntax { place: 3 }),
        ("r.1 = 1", PredFault::Syntax { place: 2 }),
        ("r.'x' = 1", PredFault::Syntax { place: 2 }),
        ("r.x s.y", PredFault::Syntax { place: 4 }),
        ("r.x ! s.y", PredFault::Syntax { place: 4 }),
        ("r.x = s.y)", PredFault::Syntax { place: 9 }),
        ("(r.x = s.y", PredFault::Syntax { place: 10 }),
        ("r.x = 'a'", PredFault::Syntax { place: 6 }),
        ("'a' = r.x", PredFault::Syntax { place: 6 }),
        ("'a' = 1", PredFault::Syntax { place: 6 }),
        ("1 = 'a'", PredFault::Syntax { place: 4 }),
        ("'a' + 'b' = 'c'", PredFault::Syntax { place: 4 }),
        ("text(r.a) = 'a''", PredFault::Syntax { place: 15 }),
        ("'abc", PredFault::Syntax { place: 0 }),
        ("'abc''", PredFault::Syntax { place: 5 }),
        ("r.x = 1 and 'abc", PredFault::Syntax { place: 12 }),
        ("r.\"x = 1", PredFault::Syntax { place: 2 }),
        ("r.x = 1 and", PredFault::Syntax { place: 11 }),
        ("r.x = 1 or", PredFault::Syntax { place: 10 }),
        ("r.x = 1 and and 1=1", PredFault::Syntax { place: 12 }),
        ("and 1=1", PredFault::Syntax { place: 0 }),
        ("or", PredFault::Syntax { place: 0 }),
        ("not", PredFault::Syntax { place: 3 }),
        ("not and 1=1", PredFault::Syntax { place: 4 }),
        ("1=1 not 1=1", PredFault::Syntax { place: 4 }),
        ("1=1 AND 2=2", PredFault::Syntax { place: 4 }),
        ("1=1 Or 2=2", PredFault::Syntax { place: 4 }),
        ("NOT 1=1", PredFault::Syntax { place: 0 }),
        ("ABS(1) = 1", PredFault::Syntax { place: 0 }),
        ("Text(r.a) = 'b'", PredFault::Syntax { place: 0 }),
    ];
    for (text, fault) in cases {
        assert!(rt; parse(rt.alloc(), text).err() == Some(fault), "{text}");
    }
}

#[test]
fn tests_out_of_place_and_texts_past_the_limits(rt: HostRuntime) {
    let cases = [
        ("abs 1 = 1", PredFault::Syntax { place: 4 }),
        ("abs() = 1", PredFault::Syntax { place: 4 }),
        ("abs(1 = 1", PredFault::Syntax { place: 6 }),
        ("abs(1) 1", PredFault::Syntax { place: 7 }),
        ("abs(1) <= -5", PredFault::Syntax { place: 10 }),
        ("abs(1) <= r.x", PredFault::Syntax { place: 10 }),
        ("abs(1) + 1 = 2", PredFault::Syntax { place: 7 }),
        ("text r.a = 'b'", PredFault::Syntax { place: 5 }),
        ("text(1) = 'b'", PredFault::Syntax { place: 5 }),
        ("text(r.a = 'b'", PredFault::Syntax { place: 9 }),
        ("text('a') = 'b'", PredFault::Syntax { place: 5 }),
        ("text(r.a) = s.b", PredFault::Syntax { place: 12 }),
        ("()", PredFault::Syntax { place: 1 }),
        ("(1=1))", PredFault::Syntax { place: 5 }),
        ("1", PredFault::Syntax { place: 1 }),
        ("1 = ", PredFault::Syntax { place: 4 }),
        ("1 + = 2", PredFault::Syntax { place: 4 }),
        ("1 - - 1 = 2", PredFault::Syntax { place: 4 }),
        ("+ + 1 = 2", PredFault::Syntax { place: 2 }),
        ("1 = 2 = 3", PredFault::Syntax { place: 6 }),
        ("1 = 2 3", PredFault::Syntax { place: 6 }),
        ("r.9223372036854775808 = 1", PredFault::Syntax { place: 2 }),
        ("1 = 1 9223372036854775808", PredFault::Syntax { place: 6 }),
        (
            "((((((((((((((((((((((((((((((((abs((1)",
            PredFault::Syntax { place: 36 },
        ),
        (
            "(((((((((((((((((((((((((((((((()",
            PredFault::Syntax { place: 32 },
        ),
        ("r.x = 1 ; ", PredFault::Syntax { place: 8 }),
        ("r.x @ 1", PredFault::Syntax { place: 4 }),
        ("é = 1", PredFault::Syntax { place: 0 }),
        ("r.é = 1", PredFault::Syntax { place: 2 }),
        ("1a = 1", PredFault::Syntax { place: 1 }),
        ("r.\"a\" \"b\" = 1", PredFault::Syntax { place: 6 }),
        ("r.x <> 1", PredFault::Syntax { place: 5 }),
        ("r.x =< 1", PredFault::Syntax { place: 5 }),
        ("r.x >= = 1", PredFault::Syntax { place: 7 }),
        ("! = 1", PredFault::Syntax { place: 0 }),
        ("r.x != ", PredFault::Syntax { place: 7 }),
        ("1=1 and (2=2 or )", PredFault::Syntax { place: 16 }),
        (
            "(((((((((((((((((((((((((((((((((",
            PredFault::Deep { place: 32 },
        ),
        (
            "not not not not not not not not not not not not not not not not not not not not not not not not not not not not not not not not not ",
            PredFault::Deep { place: 128 },
        ),
        (
            "((((((((((((((((((((((((((((((((not 1=1",
            PredFault::Deep { place: 32 },
        ),
        (
            "((((((((((((((((((((((((((((((( not not 1=1",
            PredFault::Deep { place: 36 },
        ),
        (
            "1=1 and (((((((((((((((((((((((((((((((((",
            PredFault::Deep { place: 40 },
        ),
        (
            "1+1+1+1+1+1+1+1+1+1+1+1+1+1+1+1+1 = 1",
            PredFault::Wide { place: 31 },
        ),
        (
            "+1+1+1+1+1+1+1+1+1+1+1+1+1+1+1+1+1 = 1",
            PredFault::Wide { place: 32 },
        ),
        (
            "1 = 1+1+1+1+1+1+1+1+1+1+1+1+1+1+1+1+1",
            PredFault::Wide { place: 35 },
        ),
        (
            "abs(1+1+1+1+1+1+1+1+1+1+1+1+1+1+1+1+1) = 1",
            PredFault::Wide { place: 35 },
        ),
        (
            "1+1+1+1+1+1+1+1+1+1+1+1+1+1+1+1-",
            PredFault::Wide { place: 31 },
        ),
        ("r.x = 9223372036854775808", PredFault::Literal { place: 6 }),
        ("9223372036854775808 = 1", PredFault::Literal { place: 0 }),
        (
            "1 + 9223372036854775808 = 1",
            PredFault::Literal { place: 4 },
        ),
        ("18446744073709551616 = 1", PredFault::Literal { place: 0 }),
        ("18446744073709551617=1", PredFault::Literal { place: 0 }),
        (
            "340282366920938463463374607431768211456 = 1",
            PredFault::Literal { place: 0 },
        ),
        (
            "abs(r.t - s.t) <= 9223372036854775808",
            PredFault::Literal { place: 18 },
        ),
        (
            "1 = 1 and abs(1) = 9223372036854775808 )",
            PredFault::Literal { place: 19 },
        ),
    ];
    for (text, fault) in cases {
        assert!(rt; parse(rt.alloc(), text).err() == Some(fault), "{text}");
    }
}
