use super::refusal;
use join_words::{WordsError, WordsFault};
use std::test::Fail;

// Lines that clap refuses. The first is empty.
const NO_MATCH: &str = "\n\
jm\n\
jm|--help\n\
jm|-h\n\
jm|--version\n\
jm|-V\n\
jm|--on|p|r|s|--help\n\
jm|r|s\n\
jm|r|s|--on\n\
jm|--on|-r.x = s.y|r|s\n\
jm|--on|p|--on|p|r|s\n\
jm|--on|p|--workers|0|r|s\n\
jm|--on|p|--workers|17|r|s\n\
jm|--on|p|--repor|r|s\n\
jm|--on|p|--report=true|r|s\n\
jm|--on|p|--report|--report|r|s\n\
jm|--on|p|-x|r|s\n\
jm|--on|p|--joiners|0|r|s\n\
jm|--on|p|--joiners|65|r|s\n\
jm|--on|p|--joiners|four|r|s\n\
jm|--on|p|--joiners||r|s\n\
jm|--on|p|--feeders|0|r|s\n\
jm|--on|p|--feeders|9|r|s\n\
jm|--on|p|--batch|0|r|s\n\
jm|--on|p|--batch|4097|r|s\n\
jm|--on|p|--feed|RFirst|r|s\n\
jm|--on|p|--feed||r|s\n\
jm|--on|p|--replay|-1|r|s\n\
jm|--on|p|--weight-r|0|r|s\n\
jm|--on|p|--weight-r|1025|r|s\n\
jm|--on|p|--weight-s|0|r|s\n\
jm|--on|p|--weight-s|1025|r|s\n\
jm|--on|p|--weight-s|1.5|r|s\n\
jm|--on|p|--weight-r|4|--weight-r|4|r|s\n\
jm|--on|p|r|s|--weight-r\n\
jm|--on|p|--weight|4|r|s\n\
jm|--on|p|--joiners|3|--weight-s|0|r|s\n\
jm|--on|p|--joiners|3|--feed|both|r\n\
jm|--on|p|--fixed|7|r|s\n\
jm|--on|p|--fixed|-1|r|s\n\
jm|--on|p|--seed|18446744073709551616|r|s\n\
jm|--on|p|--joiners|3|--fixed|7|r";

// Lines with a number of joiners that is no power of two.
const JOINERS: &str = "jm|--on|p|--joiners|3|r|s\n\
jm|--on|p|--joiners|63|r|s\n\
jm|--on|p|--joiners|3|--fixed|6|r";

// Lines with a shift that the grid has not.
const FIXED: &str = "jm|--on|p|--joiners|4|--fixed|3|r|s\n\
jm|--on|p|--joiners|1|--fixed|1|r|s\n\
jm|--on|p|--fixed|3|r";

// Lines with too few files, or too many.
const FILES: &str = "jm|--on|p\n\
jm|--on|p|r\n\
jm|--on|p|r|s|t\n\
jm|--on|p|r|s|--|--report";

#[test]
fn tells_the_first_fault(rt: HostRuntime) -> Result<(), Fail> {
    let cases = [
        (NO_MATCH, WordsFault::NoMatch),
        (JOINERS, WordsFault::Joiners),
        (FIXED, WordsFault::Fixed),
        (FILES, WordsFault::Files),
    ];
    for (lines, fault) in cases {
        for line in lines.split('\n') {
            let told = refusal(rt.alloc(), line)?;
            assert!(rt; told == Some(WordsError::Fault(fault)), "{line}");
        }
    }
    Ok(())
}
