// What a joiner sends, as a text.

use epoch_tags::{Actor, Counts, Msg, Pairs, Post, Sends, ToCollector, ToController, ToJoiner};
use std::alloc::{AllocError, Global};

fn write_moved(text: &mut String, to: Actor, m: &ToJoiner) -> Result<(), AllocError> {
    match m {
        ToJoiner::Moved { epoch, tuple } => {
            let index = tuple.index;
            write!(text, "[{to:?} moved {epoch} {index}]")
        }
        ToJoiner::MovedEnd { epoch } => write!(text, "[{to:?} moved_end {epoch}]"),
        _ => write!(text, "[{to:?}]"),
    }
}

fn write_last(text: &mut String, r: u64, s: u64, moved: &Counts) -> Result<(), AllocError> {
    write!(text, "[fin {r} {s} moved")?;
    for count in moved.as_slice() {
        write!(text, " {count}")?;
    }
    write!(text, "]")
}

fn write_found(text: &mut String, pairs: &Pairs) -> Result<(), AllocError> {
    for pair in pairs.as_slice() {
        let i = pair.i;
        let j = pair.j;
        write!(text, "[found {i} {j}]")?;
    }
    Ok(())
}

fn write_told(text: &mut String, m: &ToCollector) -> Result<(), AllocError> {
    match m {
        ToCollector::Found(pairs) => write_found(text, pairs),
        ToCollector::Fin {
            rows_r,
            rows_s,
            moved,
        } => write_last(text, *rows_r, *rows_s, moved),
    }
}

fn write_post(text: &mut String, post: &Post) -> Result<(), AllocError> {
    match &post.msg {
        Msg::Joiner(m) => write_moved(text, post.to, m),
        Msg::Collector(m) => write_told(text, m),
        Msg::Controller(ToController::Settled { epoch }) => write!(text, "[settled {epoch}]"),
        _ => write!(text, "[other]"),
    }
}

pub(super) fn sent(alloc: Global, sends: &Sends) -> Result<String, AllocError> {
    let mut text = String::new(alloc);
    for post in sends.as_slice() {
        write_post(&mut text, post)?;
    }
    Ok(text)
}
