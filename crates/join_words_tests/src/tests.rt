mod refused;
mod together;
mod waves;

use grid_map::Weights;
use join_words::{Chain, Grid, Kind, Options, Wave, WordsError, read_words};
use row_tickets::Feed;
use std::alloc::{AllocError, Global};
use std::test::Fail;

/// The words of a line, between its bars. An empty line has none.
fn words(alloc: Global, line: &str) -> Result<Vec<String>, AllocError> {
    let mut words = Vec::new(alloc);
    if !line.is_empty() {
        for word in line.split('|') {
            words.push(String::from_str(alloc, word)?)?;
        }
    }
    Ok(words)
}

/// A kind of run whose later waves are a slice.
#[derive(Clone, Copy)]
enum Run {
    Waves(InWaves),
    Early(Grid),
    Groups(u32),
    Rings(Grid),
    Chain(Grid, Chain<'static>),
}

/// A run in waves.
#[derive(Clone, Copy)]
struct InWaves {
    grid: Grid,
    replay: Option<u64>,
    later: &'static [Wave<'static>],
    grow: Option<u32>,
}

/// What is to be read: options with such a kind of run.
#[derive(Clone, Copy)]
struct Wanted {
    on: &'static str,
    run: Run,
    feeders: u32,
    workers: u32,
    batch: u32,
    feed: Feed,
    weights: Weights,
    seed: u64,
    make: Option<u64>,
    report: bool,
    rows: bool,
    name_r: &'static str,
    name_s: &'static str,
}

const GRID: Grid = Grid { k: 2, fixed: None };

const ONE_WAVE: InWaves = InWaves {
    grid: GRID,
    replay: None,
    later: &[],
    grow: None,
};

const PLAIN: Wanted = Wanted {
    on: "p",
    run: Run::Waves(ONE_WAVE),
    feeders: 2,
    workers: 4,
    batch: 64,
    feed: Feed::Alternate,
    weights: Weights { r: 1, s: 1 },
    seed: 1,
    make: None,
    report: false,
    rows: false,
    name_r: "r",
    name_s: "s",
};

/// Such a kind of run, in the options.
fn kind(alloc: Global, run: Run) -> Result<Kind<'static>, AllocError> {
    match run {
        Run::Waves(waves) => Ok(Kind::Waves {
            grid: waves.grid,
            replay: waves.replay,
            later: Vec::from_slice(alloc, waves.later)?,
            grow: waves.grow,
        }),
        Run::Early(grid) => Ok(Kind::Early { grid }),
        Run::Groups(joiners) => Ok(Kind::Groups { joiners }),
        Run::Rings(grid) => Ok(Kind::Rings { grid }),
        Run::Chain(grid, chain) => Ok(Kind::Chain { grid, chain }),
    }
}

/// Whether the options say so of all but the kind of run.
fn agree(options: &Options<'_>, wanted: &Wanted) -> bool {
    options.on == wanted.on
        && options.feeders == wanted.feeders
        && options.workers == wanted.workers
        && options.batch == wanted.batch
        && options.feed == wanted.feed
        && options.weights == wanted.weights
        && options.seed == wanted.seed
        && options.make == wanted.make
        && options.report == wanted.report
        && options.rows == wanted.rows
        && options.name_r == wanted.name_r
        && options.name_s == wanted.name_s
}

/// Whether these are options of such a kind of run that say the rest so.
fn says<'a>(read: Result<Options<'a>, WordsError>, wanted: &Wanted, run: Kind<'a>) -> bool {
    match read {
        Ok(options) => agree(&options, wanted) && options.kind == run,
        Err(_) => false,
    }
}

/// Whether those options are read from a line.
fn reads(alloc: Global, line: &str, wanted: Wanted) -> Result<bool, AllocError> {
    let words = words(alloc, line)?;
    let run = kind(alloc, wanted.run)?;
    Ok(says(read_words(alloc, &words), &wanted, run))
}

/// What is wrong with a line, if something is.
fn refusal(alloc: Global, line: &str) -> Result<Option<WordsError>, AllocError> {
    let words = words(alloc, line)?;
    match read_words(alloc, &words) {
        Ok(_) => Ok(None),
        Err(error) => Ok(Some(error)),
    }
}

/// The plain options of such a run.
fn of(run: Run) -> Wanted {
    Wanted { run, ..PLAIN }
}

fn grid(k: u32, fixed: Option<u32>) -> Wanted {
    of(Run::Waves(InWaves {
        grid: Grid { k, fixed },
        ..ONE_WAVE
    }))
}

fn feeders(feeders: u32, batch: u32, feed: Feed) -> Wanted {
    Wanted {
        feeders,
        batch,
        feed,
        ..PLAIN
    }
}

fn workers(workers: u32) -> Wanted {
    Wanted { workers, ..PLAIN }
}

fn weights(r: u32, s: u32) -> Wanted {
    Wanted {
        weights: Weights { r, s },
        ..PLAIN
    }
}

fn replay(seed: u64) -> Wanted {
    of(Run::Waves(InWaves {
        replay: Some(seed),
        ..ONE_WAVE
    }))
}

fn on(text: &'static str) -> Wanted {
    Wanted { on: text, ..PLAIN }
}

fn seed(seed: u64) -> Wanted {
    Wanted { seed, ..PLAIN }
}

fn name_r(name: &'static str) -> Wanted {
    Wanted {
        name_r: name,
        ..PLAIN
    }
}

#[test]
fn reads_what_the_words_ask_for(rt: HostRuntime) -> Result<(), Fail> {
    let report = Wanted {
        report: true,
        ..PLAIN
    };
    let cases = [
        ("jm|--on|p|r|s", PLAIN),
        ("another name|r|s|--on=p", PLAIN),
        ("jm|r|--report|--on|p|s", report),
        ("jm|--on|p|--joiners|1|r|s", grid(0, None)),
        ("jm|--on|p|--joiners=64|--fixed=6|r|s", grid(6, Some(6))),
        ("jm|--on|p|--fixed|0|r|s", grid(2, Some(0))),
        ("jm|--on|p|--fixed|2|r|s", grid(2, Some(2))),
        ("jm|--on|p|--joiners|+8|r|s", grid(3, None)),
        ("jm|--on|p|--joiners|008|r|s", grid(3, None)),
        (
            "jm|--on|p|--feeders|1|--batch|4096|r|s",
            feeders(1, 4096, Feed::Alternate),
        ),
        (
            "jm|--feed=rfirst|--on|p|--batch|1|--feeders|8|r|s",
            feeders(8, 1, Feed::RFirst),
        ),
        ("jm|--on|p|r|s|--feed|sfirst", feeders(2, 64, Feed::SFirst)),
        ("jm|--on|p|--feed|alternate|r|s", PLAIN),
        ("jm|--on|p|--workers|1|r|s", workers(1)),
        ("jm|--on|p|r|s|--workers=16", workers(16)),
        ("jm|--on|p|--weight-r|1|r|s", PLAIN),
        ("jm|--on|p|--weight-r|4|r|s", weights(4, 1)),
        ("jm|--on|p|r|s|--weight-s=1024", weights(1, 1024)),
        (
            "jm|--weight-s|2|--on|p|--weight-r|1024|r|s",
            weights(1024, 2),
        ),
        ("jm|--on|p|--replay|0|r|s", replay(0)),
        (
            "jm|--on|p|--replay|18446744073709551615|r|s",
            replay(u64::MAX),
        ),
        ("jm|--on|p|--seed|0|r|s", seed(0)),
        ("jm|--on|p|--seed|18446744073709551615|r|s", seed(u64::MAX)),
        ("jm|--on| -r.x = s.y|r|s", on(" -r.x = s.y")),
        ("jm|--on= -r.x = s.y|r|s", on(" -r.x = s.y")),
        ("jm|--on=-r.x = s.y|r|s", on("-r.x = s.y")),
        ("jm|--on||r|s", on("")),
        ("jm|--on|p|-|s", name_r("-")),
        ("jm|--on|p|--|--report|s", name_r("--report")),
    ];
    for (line, wanted) in cases {
        assert!(rt; reads(rt.alloc(), line, wanted)?, "{line}");
    }
    Ok(())
}
