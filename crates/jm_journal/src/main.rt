//! `jm_journal --on TEXT [options] R.csv S.csv > journal.svg` makes the run that `jm` makes for these words, and
//! draws its journal.
#![tactic(auto)]

mod draw;
mod journals;
mod nothing;

use draw::draw;
use join_cli::{Outcome, command_words, exit_code, tell};
use join_rows::{DiskShelf, StdSink};
use std::process::ExitCode;
use worker_gate::NoGate;

fn main(rt: HostRuntime) -> ExitCode {
    let alloc = rt.alloc();
    let outcome = match command_words(&rt) {
        Ok(words) => draw(
            &rt,
            alloc,
            &words,
            &mut DiskShelf::new(alloc, &rt),
            &mut StdSink::new(rt.stdout()),
            &NoGate,
        ),
        Err(_) => Outcome::Memory,
    };
    tell(alloc, &outcome, &mut StdSink::new(rt.stderr()));
    exit_code(&outcome)
}
