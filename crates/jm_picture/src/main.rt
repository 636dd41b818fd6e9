//! `jm_picture < report > picture.svg` draws the report of a run, as `jm --report` writes it.
#![tactic(auto)]

mod fault;

use fault::Fault;
use report_picture::{picture, read_report};
use std::io::{Read, Write};
use std::process::ExitCode;

/// The bytes of standard input.
fn input(rt: &HostRuntime) -> Result<Vec<u8>, Fault> {
    let mut text = Vec::new(rt.alloc());
    match rt.stdin().read_to_end(&mut text) {
        Ok(_) => Ok(text),
        Err(_) => Err(Fault::Read),
    }
}

/// Writes the picture of the report that standard input ends with, once it is made whole.
fn draw(rt: &HostRuntime) -> Result<(), Fault> {
    let text = input(rt)?;
    let report = read_report(rt.alloc(), &text)?;
    let svg = picture(rt.alloc(), &report)?;
    match rt.stdout().write_all(svg.as_bytes()) {
        Ok(()) => Ok(()),
        Err(_) => Err(Fault::Write),
    }
}

fn main(rt: HostRuntime) -> ExitCode {
    let Err(fault) = draw(&rt) else {
        return ExitCode::SUCCESS;
    };
    let _ = writeln!(rt.stderr(), "{fault}");
    ExitCode::from(fault.status())
}
