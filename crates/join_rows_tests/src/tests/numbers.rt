use row_cells::{Bytes, Cell};
use std::test::Fail;

#[test]
fn texts_and_their_numbers(rt: HostRuntime) -> Result<(), Fail> {
    let cases: [(&[u8], Option<i64>); 27] = [
        (b"7", Some(7)),
        (b"+4", Some(4)),
        (b" -07 ", Some(-7)),
        (b"  0", Some(0)),
        (b"-0", Some(0)),
        (b"0000000000000000000000000000042", Some(42)),
        (b"999999999999999999", Some(999999999999999999)),
        (b"000000000000000042", Some(42)),
        (b"1000000000000000000", Some(1000000000000000000)),
        (b"9223372036854775807", Some(9223372036854775807)),
        (b"9223372036854775808", None),
        (b"-9223372036854775808", Some(-9223372036854775808)),
        (b"-9223372036854775809", None),
        (b"18446744073709551617", None),
        (b"", None),
        (b"   ", None),
        (b"+", None),
        (b"- 7", None),
        (b"1 2", None),
        (b"+-3", None),
        (b"4x", None),
        (b"x4", None),
        (b"4/", None),
        (b"/4", None),
        (b":4", None),
        (b"\t5", None),
        (b"\xFF6", None),
    ];
    for (text, number) in cases {
        let cell = Cell::new(Bytes::from_slice(rt.alloc(), text)?);
        assert!(rt; cell.num == number);
    }
    Ok(())
}
