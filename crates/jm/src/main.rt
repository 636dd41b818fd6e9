//! `jm --on TEXT [options] R.csv S.csv` joins two CSV files by a predicate.
#![tactic(auto)]

use join_cli::{Ended, command_words, jm_program};
use join_rows::{DiskShelf, StdSink};
use std::alloc::AllocError;
use std::io::{IsTerminal, Stderr, Write};
use worker_gate::{LastGate, ProgressGate, Screen};

// Standard error, where it is a terminal on which no early pairs stand.
#[derive(Drop)]
struct Terminal {
    to: Option<Stderr>,
}

impl Screen for Terminal {
    fn show(&self, text: &[u8]) {
        if let Some(mut to) = self.to {
            let _ = to.write_all(text);
        }
    }
}

fn ask_for_early_pairs(words: &Result<Vec<String>, AllocError>) -> bool {
    match words {
        Ok(words) => words.iter().any(|word| word.as_str() == "--early"),
        Err(_) => false,
    }
}

fn main(rt: HostRuntime) -> Ended {
    let words = command_words(&rt);
    let shares = rt.stdout().is_terminal() && ask_for_early_pairs(&words);
    let shows = rt.stderr().is_terminal() && !shares;
    let terminal = Terminal {
        to: shows.then_some(rt.stderr()),
    };
    jm_program(
        &rt,
        rt.alloc(),
        words,
        &mut DiskShelf::new(rt.alloc(), &rt),
        &mut StdSink::new(rt.stdout()),
        &mut StdSink::new(rt.stderr()),
        &LastGate::new(ProgressGate::new(terminal)),
    )
}
