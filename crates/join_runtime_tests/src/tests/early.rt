// Lines that are put as their pairs come.

ghost use Rattle.std.specs.Prelude.{◌<◌};
ghost use Rattle.join_rows.specs.Shelves.{last_fault};

use super::{is, setting};
use join_rows::{ListSink, Sink};
use join_runtime::{EarlyFault, run_early};
use run_inputs::three_rows_a_side;
use std::alloc::{AllocError, Global};
use std::sync::Wait;
use std::test::Fail;
use std::thread::Threads;
use trace_law::{Input, Setting};
use worker_gate::NoGate;

// The fault of an early run, if it has one.
fn fault_of<R: Threads + Wait + Sync, K: Sink>(
    rt: &R,
    alloc: Global,
    input: &Input,
    setting: &Setting,
    sink: &mut K,
) -> Option<EarlyFault>
    requires { K.faults sink.old < last_fault }
{
    if !input.valid() || !setting.valid() {
        return Some(EarlyFault::Memory);
    }
    match run_early(rt, alloc, input, setting, &NoGate, sink) {
        Ok(told) => {
            drop(told);
            None
        }
        Err(fault) => Some(fault),
    }
}

fn has_line(text: &[u8], line: &[u8]) -> bool {
    for part in text.chunks(4) {
        if part == line {
            return true;
        }
    }
    false
}

// Whether the text is the lines of the three pairs, each once, in some order.
fn has_each_line(text: &[u8]) -> bool {
    text.len() == 12
        && has_line(text, b"2,1\n")
        && has_line(text, b"2,3\n")
        && has_line(text, b"3,2\n")
}

// Whether an early run puts each line once, and has no fault.
fn puts_each<R: Threads + Wait + Sync>(
    rt: &R,
    alloc: Global,
    input: &Input,
    setting: &Setting,
) -> Result<bool, AllocError> {
    let mut sink = ListSink::new(alloc, 64)?;
    let fault = fault_of(rt, alloc, input, setting, &mut sink);
    let puts = fault.is_none() && has_each_line(sink.written());
    drop(sink);
    Ok(puts)
}

// The same of three rows a side with these tickets.
fn puts_each_line<R: Threads + Wait + Sync>(
    rt: &R,
    alloc: Global,
    tickets: [u8; 3],
    feeders: u32,
    workers: u32,
) -> Result<bool, AllocError> {
    let input = three_rows_a_side(alloc, tickets)?;
    let puts = puts_each(rt, alloc, &input, &setting(feeders, workers));
    drop(input);
    puts
}

#[test]
fn each_line_is_put_once(rt: HostRuntime) -> Result<(), Fail> {
    let alloc = rt.alloc();
    let tickets = [161, 123, 186];
    is(
        &rt,
        puts_each_line(&rt, alloc, tickets, 2, 1)?,
        true,
        "with 1 worker",
    );
    is(
        &rt,
        puts_each_line(&rt, alloc, tickets, 2, 4)?,
        true,
        "with 4 workers",
    );
    is(
        &rt,
        puts_each_line(&rt, alloc, tickets, 1, 16)?,
        true,
        "with 16 workers",
    );
    is(
        &rt,
        puts_each_line(&rt, alloc, [0, 0, 0], 1, 2)?,
        true,
        "with equal tickets",
    );
    Ok(())
}

// The fault of an early run whose first put fails, and how many bytes it wrote.
fn first_put_fails<R: Threads + Wait + Sync>(
    rt: &R,
    alloc: Global,
    input: &Input,
) -> Result<(Option<EarlyFault>, usize), AllocError> {
    let mut sink = ListSink::new(alloc, 64)?;
    let seen = match sink.fail_put(1) {
        Ok(()) => {
            let fault = fault_of(rt, alloc, input, &setting(1, 2), &mut sink);
            Ok((fault, sink.written().len()))
        }
        Err(refused) => Err(refused),
    };
    drop(sink);
    seen
}

fn first_put_of_three_fails<R: Threads + Wait + Sync>(
    rt: &R,
    alloc: Global,
) -> Result<(Option<EarlyFault>, usize), AllocError> {
    let input = three_rows_a_side(alloc, [161, 123, 186])?;
    let seen = first_put_fails(rt, alloc, &input);
    drop(input);
    seen
}

#[test]
fn the_first_put_that_fails_ends_it(rt: HostRuntime) -> Result<(), Fail> {
    let (fault, written) = first_put_of_three_fails(&rt, rt.alloc())?;
    is(&rt, fault, Some(EarlyFault::Write), "the fault");
    is(&rt, written, 0, "what was written");
    Ok(())
}
