use super::{GRID, InWaves, ONE_WAVE, PLAIN, Run, Wanted, of, reads, refusal};
use join_words::{Grid, Wave, WordsError, WordsFault};
use std::test::Fail;

const SECOND: Wave<'static> = Wave {
    name_r: "r2",
    name_s: "s2",
};

const THIRD: Wave<'static> = Wave {
    name_r: "r3",
    name_s: "s3",
};

const FOURTH: Wave<'static> = Wave {
    name_r: "r4",
    name_s: "s4",
};

const ONE: InWaves = InWaves {
    later: &[SECOND],
    ..ONE_WAVE
};

const TWO: InWaves = InWaves {
    later: &[SECOND, THIRD],
    ..ONE_WAVE
};

const THREE: InWaves = InWaves {
    later: &[SECOND, THIRD, FOURTH],
    ..ONE_WAVE
};

#[test]
fn two_to_eight_files_are_one_to_four_waves(rt: HostRuntime) -> Result<(), Fail> {
    let replay = InWaves {
        grid: Grid {
            fixed: Some(1),
            ..GRID
        },
        replay: Some(7),
        ..TWO
    };
    let options_of_all = Wanted {
        report: true,
        rows: true,
        ..of(Run::Waves(replay))
    };
    let cases = [
        ("jm|--on|p|r|s", PLAIN),
        ("jm|--on|p|r|s|r2|s2", of(Run::Waves(ONE))),
        ("jm|r|s|--on|p|r2|s2|r3|s3", of(Run::Waves(TWO))),
        ("jm|r|s|r2|s2|r3|s3|r4|s4|--on|p", of(Run::Waves(THREE))),
        (
            "jm|--fixed|1|r|s|--replay|7|r2|s2|--rows|--on|p|r3|--report|s3",
            options_of_all,
        ),
    ];
    for (line, wanted) in cases {
        assert!(rt; reads(rt.alloc(), line, wanted)?, "{line}");
    }
    Ok(())
}

fn grown(waves: InWaves, wave: u32) -> Wanted {
    of(Run::Waves(InWaves {
        grow: Some(wave),
        ..waves
    }))
}

#[test]
fn joiners_split_behind_a_wave(rt: HostRuntime) -> Result<(), Fail> {
    let replay = InWaves {
        replay: Some(0),
        ..ONE
    };
    let cases = [
        ("jm|--on|p|--grow|1|r|s|r2|s2", grown(ONE, 1)),
        ("jm|--on|p|--grow=1|r|s|r2|s2|r3|s3", grown(TWO, 1)),
        ("jm|r|s|r2|s2|r3|s3|--grow|2|--on|p", grown(TWO, 2)),
        ("jm|--grow|3|--on|p|r|s|r2|s2|r3|s3|r4|s4", grown(THREE, 3)),
        ("jm|--on|p|--replay|0|--grow|01|r|s|r2|s2", grown(replay, 1)),
    ];
    for (line, wanted) in cases {
        assert!(rt; reads(rt.alloc(), line, wanted)?, "{line}");
    }
    Ok(())
}

#[test]
fn faults_of_waves_and_of_growth(rt: HostRuntime) -> Result<(), Fail> {
    let cases = [
        (
            WordsFault::Files,
            "jm|--on|p|r|s|r2\njm|--on|p|r|s|r2|s2|r3\njm|--on|p|r|s|r2|s2|r3|s3|r4\njm|--on|p|r|s|r2|s2|r3|s3|r4|s4|r5|s5\njm|--on|p|--then|p|r|s|r2|s2\njm|--on|p|--make|3|r|s|r2|s2",
        ),
        (
            WordsFault::Files,
            "jm|--on|p|--grow|1|r|s|r2\njm|--on|p|--grow|2|r|s|r2|s2|r3\njm|--on|p|--grow|3|r|s|r2|s2|r3|s3|r4|s4|r5|s5",
        ),
        (
            WordsFault::Together,
            "jm|--on|p|--early|r|s|r2|s2\njm|--on|p|--early|r|s|r2\njm|--on|p|--groups|r|s|r2|s2\njm|--on|p|--rings|r|s|r2|s2|r3|s3",
        ),
        (
            WordsFault::Together,
            "jm|--on|p|--grow|1|r|s\njm|--on|p|--grow|2|r|s|r2|s2\njm|--on|p|--grow|3|r|s|r2|s2|r3|s3\njm|--on|p|--grow|1|r\njm|--on|p|--grow|1\njm|--on|p|--grow|1|--make|3",
        ),
        (
            WordsFault::Together,
            "jm|--on|p|--grow|1|--fixed|1|r|s|r2|s2\njm|--on|p|--grow|1|--groups|r|s|r2|s2\njm|--on|p|--grow|1|--rings|r|s|r2|s2\njm|--on|p|--grow|1|--then|p|r|s|q\njm|--on|p|--grow|1|--early|r|s|r2|s2",
        ),
        (
            WordsFault::NoMatch,
            "jm|--on|p|--grow|0|r|s|r2|s2\njm|--on|p|--grow|4|r|s|r2|s2|r3|s3|r4|s4\njm|--on|p|--grow||r|s|r2|s2\njm|--on|p|r|s|r2|s2|--grow\njm|--on|p|--grow|1|--grow|1|r|s|r2|s2\njm|--on|p|--grow|one|r|s|r2|s2",
        ),
        (
            WordsFault::Fixed,
            "jm|--on|p|--grow|3|--fixed|3|r|s\njm|--on|p|--early|--fixed|3|r|s|r2|s2",
        ),
    ];
    for (fault, lines) in cases {
        for line in lines.split('\n') {
            let wanted = Some(WordsError::Fault(fault));
            assert!(rt; refusal(rt.alloc(), line)? == wanted, "{line}");
        }
    }
    Ok(())
}
