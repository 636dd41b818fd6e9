use join_rows::{ListSink, Sink};
use std::test::Fail;

#[test]
fn puts_that_fit_and_others(rt: HostRuntime) -> Result<(), Fail> {
    let mut sink = ListSink::new(rt.alloc(), 5)?;
    sink.fail_put(2)?;
    let cases: [(&[u8], bool); 6] = [
        (b"abc", true),
        (b"d", false),
        (b"def", false),
        (b"de", true),
        (b"", true),
        (b"f", false),
    ];
    for (piece, taken) in cases {
        assert!(rt; sink.put(piece).is_ok() == taken);
    }
    assert!(rt; sink.written() == b"abcde".as_slice());
    Ok(())
}
