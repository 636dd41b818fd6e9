mod grown;
mod joined;
mod reports;
mod sums;

use epoch_tags::Pair;
use join_report::pairs_text;
use std::alloc::{AllocError, Global};
use std::process::Abort;
use std::test::Fail;

fn has_text(rt: &impl Abort, text: &str, wanted: &str) {
    assert!(rt; text == wanted);
}

fn tells_pairs(
    rt: &impl Abort,
    alloc: Global,
    pairs: &[Pair],
    wanted: &str,
) -> Result<(), AllocError> {
    let text = pairs_text(alloc, pairs)?;
    has_text(rt, text.as_str(), wanted);
    drop(text);
    Ok(())
}

#[test]
fn pairs_are_counted_from_1(rt: HostRuntime) -> Result<(), Fail> {
    tells_pairs(&rt, rt.alloc(), &[], "")?;
    let pairs = [Pair { i: 0, j: 0 }, Pair { i: 0, j: 2 }];
    tells_pairs(&rt, rt.alloc(), &pairs, "1,1\n1,3\n")?;
    Ok(())
}
