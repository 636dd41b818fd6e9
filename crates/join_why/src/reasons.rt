// Why `jm` would refuse its words and files, or what it would do.

use crate::file::{explain_input, explain_limit, explain_read};
use crate::kept::KeptFile;
use crate::plan::explain_plan;
use crate::predicate::explain_text;
use crate::verdict::Verdict;
use crate::words::explain_words;
use join_plan::{Refusal, Which};
use join_words::{Options, read_words};
use std::alloc::{AllocError, Global};

/// Why what the options ask for is refused.
fn explain_refusal(
    alloc: Global,
    options: &Options<'_>,
    files: &[KeptFile],
    cause: &str,
    refusal: &Refusal,
) -> Result<String, AllocError> {
    match refusal {
        Refusal::Predicate(fault) => explain_text(alloc, options, files, Which::On, fault),
        Refusal::Then(fault) => explain_text(alloc, options, files, Which::Then, fault),
        Refusal::Input(fault) => explain_input(alloc, options, files, *fault),
        Refusal::Limit(fault) => explain_limit(alloc, options, files, *fault),
        Refusal::Read => explain_read(alloc, options, files, cause),
        Refusal::Memory => Err(AllocError),
    }
}

/// A verdict on words in plain words, some lines: why `jm` would refuse them, or what the join would be. The files are
/// those that were read for the verdict, in their order, and the cause says why the last of them couldn't be.
pub fn explain(
    alloc: Global,
    words: &[String],
    verdict: &Verdict,
    files: &[KeptFile],
    cause: &str,
) -> Result<String, AllocError> {
    if let Verdict::Words(fault) = verdict {
        return explain_words(alloc, words, *fault);
    }
    // (they ask for something, so it is memory that is wanting)
    let Ok(options) = read_words(alloc, words) else {
        return Err(AllocError);
    };
    match verdict {
        Verdict::Joins(planned) => explain_plan(alloc, &options, planned),
        Verdict::Refuses(refusal) => explain_refusal(alloc, &options, files, cause, refusal),
        Verdict::Words(_) => Err(AllocError),
    }
}
