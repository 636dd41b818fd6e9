//! `jm_why` takes the words of `jm`, and explains why `jm` would refuse them, or what it would do.
#![tactic(auto)]

use join_rows::{DiskShelf, StdSink};
use join_why::{KeptShelf, why_program};
use join_words::command_words;
use std::process::ExitCode;

fn main(rt: HostRuntime) -> ExitCode {
    let mut shelf = KeptShelf::new(rt.alloc(), DiskShelf::new(rt.alloc(), &rt));
    why_program(
        &rt,
        rt.alloc(),
        command_words(&rt),
        &mut shelf,
        &rt,
        &mut StdSink::new(rt.stdout()),
    )
}
