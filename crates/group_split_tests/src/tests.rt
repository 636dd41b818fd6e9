ghost use Rattle.std.specs.Prelude.{◌<◌, ◌↔◌, All, IsTrue};

use epoch_tags::{Counts, Pairs};
use grid_map::Weights;
use group_split::{GroupsRun, group_of, numbers, run_groups, sizes};
use row_tickets::Feed;
use run_inputs::three_rows_a_side;
use std::alloc::{AllocError, Global};
use std::fmt::Debug;
use std::process::Abort;
use std::sync::Wait;
use std::test::Fail;
use std::thread::Threads;
use trace_law::{Input, Run, Setting};
use worker_gate::NoGate;

// That these are equal: one call, where an assertion in its place is dear to prove.
fn is<T: Copy + Debug + PartialEq>(rt: &impl Abort, seen: T, wanted: T, what: &str) {
    assert!(rt; seen == wanted, "{what}");
}

// Two feeders and two workers; the number of joiners in it isn't used.
fn setting() -> Setting {
    Setting {
        k: 0,
        feeders: 2,
        workers: 2,
        batch: 1,
        feed: Feed::Alternate,
        fixed: None,
        weights: Weights { r: 1, s: 1 },
    }
}

// Numbers below 100 as one number, two digits each.
fn as_number(numbers: &Counts) -> u64 {
    let mut all = 0u64;
    for number in numbers.as_slice() {
        all = all.wrapping_mul(100).wrapping_add(*number);
    }
    all
}

fn sizes_of(alloc: Global, joiners: u32) -> Result<u64, AllocError> {
    if !(1..=64).contains(&joiners) {
        return Err(AllocError);
    }
    let sizes = sizes(alloc, joiners)?;
    let number = as_number(&sizes);
    drop(sizes);
    Ok(number)
}

fn numbers_of(alloc: Global, seed: u64, joiners: u32, count: u64) -> Result<u64, AllocError> {
    if !(1..=64).contains(&joiners) {
        return Err(AllocError);
    }
    let numbers = numbers(alloc, seed, joiners, count)?;
    let number = as_number(&numbers);
    drop(numbers);
    Ok(number)
}

fn group_at(joiners: u32, number: u64) -> Option<u32> {
    if joiners <= 64 && number < u64::from(joiners) {
        Some(group_of(joiners, number))
    } else {
        None
    }
}

#[test]
fn sizes_are_those_of_the_binary_digits(rt: HostRuntime) -> Result<(), Fail> {
    let cases = [
        (1u32, 1u64),
        (5, 4_01),
        (6, 4_02),
        (7, 4_02_01),
        (63, 32_16_08_04_02_01),
        (64, 64),
    ];
    for (joiners, wanted) in cases {
        assert!(rt;
            sizes_of(rt.alloc(), joiners)? == wanted,
            "{joiners} joiners"
        );
    }
    Ok(())
}

#[test]
fn each_number_is_of_one_group(rt: HostRuntime) -> Result<(), Fail> {
    let cases = [
        (5u32, 3u64, 0u32),
        (5, 4, 1),
        (7, 3, 0),
        (7, 4, 1),
        (7, 6, 2),
        (63, 62, 5),
        (64, 63, 0),
    ];
    for (joiners, number, wanted) in cases {
        assert!(rt;
            group_at(joiners, number) == Some(wanted),
            "{number} of {joiners}"
        );
    }
    Ok(())
}

// Those of seed 42 are the words of another program's generator.
#[test]
fn numbers_are_words_of_stream_57(rt: HostRuntime) -> Result<(), Fail> {
    is(&rt, numbers_of(rt.alloc(), 1, 1, 3)?, 0, "one joiner");
    is(
        &rt,
        numbers_of(rt.alloc(), 42, 5, 8)?,
        4_03_03_02_01_04_01_02,
        "five",
    );
    is(
        &rt,
        numbers_of(rt.alloc(), 42, 64, 4)?,
        23_49_26_53,
        "sixty-four",
    );
    Ok(())
}

fn all_below(numbers: &Counts, joiners: u64) -> bool
    ensures { IsTrue result ↔ All (λ number. number < joiners) numbers.now }
{
    numbers.as_slice().iter().all(|number| *number < joiners)
}

fn run_checked<R: Threads + Wait + Sync>(
    rt: &R,
    alloc: Global,
    input: &Input,
    joiners: u32,
    numbers: &Counts,
    setting: &Setting,
) -> Result<GroupsRun, AllocError> {
    if input.valid()
        && setting.valid()
        && setting.fixed.is_none()
        && (1..=64).contains(&joiners)
        && numbers.len() == input.table_r.rows.len()
        && all_below(numbers, u64::from(joiners))
    {
        run_groups(rt, alloc, input, joiners, numbers, setting, &NoGate)
    } else {
        Err(AllocError)
    }
}

// The pairs as digits: each row of R and of S, behind a 9.
fn pairs_number(pairs: &Pairs) -> u64 {
    let mut number = 9u64;
    for pair in pairs.as_slice() {
        let digits = u64::from(pair.i)
            .wrapping_mul(10)
            .wrapping_add(u64::from(pair.j));
        number = number.wrapping_mul(100).wrapping_add(digits);
    }
    number
}

fn pairs_of(run: Option<&Run>) -> u64 {
    match run {
        Some(run) => pairs_number(&run.pairs),
        None => 0,
    }
}

// What is seen of an answer: all pairs, those of the first two groups, and how many groups left their ends.
fn seen(answer: &GroupsRun) -> (u64, u64, u64, u64) {
    let runs = answer.runs.as_slice();
    (
        pairs_number(&answer.pairs),
        pairs_of(runs.first()),
        pairs_of(runs.get(1)),
        answer.trail.len(),
    )
}

// The same of a run.
fn seen_of<R: Threads + Wait + Sync>(
    rt: &R,
    alloc: Global,
    input: &Input,
    joiners: u32,
    numbers: &Counts,
) -> Result<(u64, u64, u64, u64), AllocError> {
    let answer = run_checked(rt, alloc, input, joiners, numbers, &setting())?;
    let seen = seen(&answer);
    drop(answer);
    Ok(seen)
}

// The same of three rows a side with these numbers.
fn seen_of_three<R: Threads + Wait + Sync>(
    rt: &R,
    alloc: Global,
    joiners: u32,
    numbers: &Counts,
) -> Result<(u64, u64, u64, u64), AllocError> {
    let input = three_rows_a_side(alloc, [161, 123, 186])?;
    let seen = seen_of(rt, alloc, &input, joiners, numbers);
    drop(input);
    seen
}

fn counts(alloc: Global, numbers: [u64; 3]) -> Result<Counts, AllocError> {
    let mut held = Counts::new(alloc);
    for number in numbers {
        held.push(number)?;
    }
    Ok(held)
}

fn seen_with<R: Threads + Wait + Sync>(
    rt: &R,
    alloc: Global,
    joiners: u32,
    numbers: [u64; 3],
) -> Result<(u64, u64, u64, u64), AllocError> {
    let numbers = counts(alloc, numbers)?;
    let seen = seen_of_three(rt, alloc, joiners, &numbers);
    drop(numbers);
    seen
}

#[test]
fn two_groups_find_the_pairs(rt: HostRuntime) -> Result<(), Fail> {
    let seen = seen_with(&rt, rt.alloc(), 5, [0, 4, 2])?;
    assert_eq!(rt; seen, (9_10_12_21, 9_11, 9_00_02, 2));
    Ok(())
}

#[test]
fn a_group_without_rows_finds_none(rt: HostRuntime) -> Result<(), Fail> {
    let seen = seen_with(&rt, rt.alloc(), 3, [0, 0, 0])?;
    assert_eq!(rt; seen, (9_10_12_21, 9_10_12_21, 9, 2));
    Ok(())
}
