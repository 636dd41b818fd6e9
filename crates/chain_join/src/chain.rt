// The two runs of a chain.

ghost use Rattle.std.specs.Prelude.{◌≡◌, ◌<◌, ◌≤◌, ◌+◌, ◌^◌, ℕ, All, Err, IfOk, length, map};
ghost use Rattle.trace_law.specs.Join.{nested_loop};
ghost use Rattle.trace_law.specs.Validity.{IsValidInput, IsValidSetting};
ghost use Rattle.chain_join.specs.declared.chain.ChainFault.TheVariants.{Between as Between', Memory as Memory'};
ghost use Rattle.chain_join.specs.Chains.{IsToldOf, IsWide, nested3, second_input as second_input'};
ghost use Rattle.chain_join.specs.Triples.{triple_at};

use crate::second::{Third, second_input};
use crate::triples::{Triples, triples_of};
use epoch_tags::Pair;
use join_runtime::{Told, run};
use std::alloc::{AllocError, Global};
use std::sync::Wait;
use std::thread::Threads;
use thiserror::Error;
use trace_law::{Input, Setting};
use worker_gate::{EarlierGate, Gate};

/// The answer of a chain.
#[derive(Drop)]
pub struct ChainRun {
    /// All triples, by the row of R, then by the row of S and then by the row of Q.
    pub triples: Triples,
    /// The run that joins R with S.
    pub first: Told,
    /// The run that joins the joined rows with Q.
    pub second: Told,
}

/// Why a chain has no answer.
#[derive(Clone, Copy, Debug, PartialEq, Eq, Error)]
pub enum ChainFault {
    /// R and S join to so many pairs, which are more than 2^18.
    #[error("the first two tables join to {pairs} rows, more than 262144")]
    Between { pairs: u64 },
    #[error("out of memory")]
    Memory,
}

impl From<AllocError> for ChainFault {
    ghost from_gives = { λ _ fault. fault ≡ Memory' };

    fn from(_: AllocError) -> ChainFault {
        ChainFault::Memory
    }
}

// A run that begins with no rows, so that its pairs are those of the nested loop.
fn whole_run<R: Threads + Wait + Sync, G: Gate + Sync>(
    rt: &R,
    alloc: Global,
    input: &Input,
    setting: &Setting,
    gate: &G,
) -> Result<Told, AllocError>
    requires input { IsValidInput input.now }
    requires setting { IsValidSetting setting.now }
    ensures told { IfOk result (IsToldOf input.now setting.now) }
    ensures pairs { IfOk result (λ told. told.run.pairs ≡ nested_loop input.now) }
{
    run(rt, alloc, input, setting, gate)
}

// The triples of a second run over this input, behind one with these pairs, and what is told of it.
fn run_second<R: Threads + Wait + Sync, G: Gate + Sync>(
    rt: &R,
    alloc: Global,
    pairs: &[Pair],
    second: &Input,
    setting: &Setting,
    gate: &G,
) -> Result<(Triples, Told), AllocError>
    requires second { IsValidInput second.now }
    requires setting { IsValidSetting setting.now }
    requires places { All (λ pair. pair.i < length pairs.now) (nested_loop second.now) }
    ensures triples { IfOk result (λ run. run.0
        ≡ map (triple_at pairs.now) (nested_loop second.now)) }
    ensures second { IfOk result (λ run. IsToldOf second.now setting.now run.1) }
{
    let told = whole_run(rt, alloc, second, setting, gate)?;
    match triples_of(alloc, pairs, told.run.pairs.as_slice()) {
        Ok(triples) => Ok((triples, told)),
        Err(refused) => {
            gate.let_go(told);
            Err(refused)
        }
    }
}

/// Joins R with S by a run, and then the joined rows, one for each pair of the first run and in their
/// order, with the third table by another, with tickets of `seed` for both of its sides. In the third's
/// predicate `r` is the joined row and `s` the row of the third table. `Between` comes before a joined
/// row is made. Where memory runs out the answer is `Memory`. What it promises holds if it returns.
pub fn run_chain<R: Threads + Wait + Sync, G: Gate + Sync>(
    rt: &R,
    alloc: Global,
    first: &Input,
    third: Third,
    setting: &Setting,
    seed: u64,
    gate: &G,
) -> Result<ChainRun, ChainFault>
    requires input { IsValidInput first.now }
    requires setting { IsValidSetting setting.now }
    requires rows { length third.table.rows ≤ 2 ^ 18 }
    requires width_r { third.theta.width_r
        ≡ length first.now.table_r.names + length first.now.table_s.names }
    requires width_s { IsWide third.table third.theta.width_s }
    ensures triples { IfOk result (λ run. run.triples ≡ nested3 first.now third) }
    ensures first { IfOk result (λ run. IsToldOf first.now setting.now run.first) }
    ensures second { IfOk result (λ run.
        IsToldOf (second_input' first.now third seed) setting.now run.second) }
    ensures valid { IfOk result (λ _. IsValidInput (second_input' first.now third seed)) }
    ensures few { IfOk result (λ _. length (nested_loop first.now) ≤ 2 ^ 18) }
    ensures between { (pairs : ℕ) → result ≡ Err (Between' pairs)
        → (pairs ≡ length (nested_loop first.now)) × (2 ^ 18 < pairs) }
{
    let told = whole_run(rt, alloc, first, setting, &EarlierGate::new(gate))?;
    let pairs = told.run.pairs.len();
    if pairs > 1 << 18 {
        gate.let_go(told);
        gate.let_go(third);
        return Err(ChainFault::Between { pairs });
    }
    let second = match second_input(alloc, first, told.run.pairs.as_slice(), third, seed) {
        Ok(second) => second,
        Err(_) => {
            gate.let_go(told);
            return Err(ChainFault::Memory);
        }
    };
    let ran = run_second(rt, alloc, told.run.pairs.as_slice(), &second, setting, gate);
    gate.let_go(second);
    match ran {
        Ok((triples, second)) => Ok(ChainRun {
            triples,
            first: told,
            second,
        }),
        Err(_) => {
            gate.let_go(told);
            Err(ChainFault::Memory)
        }
    }
}
