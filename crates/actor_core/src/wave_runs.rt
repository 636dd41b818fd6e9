// What a wave answers, and what it leaves for the next.

ghost use Rattle.std.specs.Prelude.{ℕ, ◌≡◌, ◌<◌, ◌≤◌, ◌^◌, ◌∷◌, IfOk, IfSome, List, reverse, true, false};
ghost use Rattle.load_controller.specs.Journal.{last_line as last_line'};
ghost use Rattle.load_controller.specs.declared.line.TurnLine.{TurnLine as TurnLine'};
ghost use Rattle.pair_collector.specs.Law.{CollectorLists};
ghost use Rattle.pair_collector.specs.Standing.{is_complete, StandsFor as CollectorStands};
ghost use Rattle.actor_core.specs.Endings.{IsAnswerOf};

use crate::answers::answer;
use crate::rests::{Rest, Stores};
use load_controller::{Controller, Journal, TurnLine};
use pair_collector::Collector;
use std::alloc::{AllocError, Global};
use trace_law::Run;

/// What a wave answers, and what it leaves for the next.
#[derive(Drop)]
pub struct WaveRun {
    pub run: Run,
    pub rest: Rest,
}

// The last line of a journal.
#[tactic(auto, using(crate::proofs::LastLines::last_there, crate::proofs::LastLines::last_is))]
fn last_line(journal: &Journal) -> Option<TurnLine>
    ensures back { IfSome result (λ last. (line : TurnLine') (past : List TurnLine')
        → reverse journal.now ≡ line ∷ past → last ≡ line) }
    ensures last { IfSome result (λ last. (first : TurnLine')
        → last ≡ last_line' first journal.now) }
{
    let count = journal.len();
    if count == 0 {
        return None;
    }
    Some(*journal.at(count - 1))
}

// Whether there are two to this power of joiners.
fn is_power(joiners: u32, k: u32) -> bool
    requires { k < 32 }
    ensures up { result ≡ true → joiners ≡ 2 ^ k }
    ensures down { result ≡ false → joiners ≡ 2 ^ k → ⊥ }
{
    1u32 << k == joiners
}

// Of which power of two this many joiners are.
#[tactic(auto, using(crate::proofs::LastLines::same_power, crate::proofs::LastLines::none_below))]
fn exponent_of(joiners: u32) -> u32
    ensures { (k : ℕ) → k ≤ 8 → joiners ≡ 2 ^ k → result ≡ k }
{
    for k in 0..9u32 {
        if is_power(joiners, k) {
            return k;
        }
    }
    0
}

/// What a wave's controller and complete collector have to tell, and what the wave leaves for the next: the last line
/// of the journal, and the stores of so many joiners. An error also comes where the journal has no line.
pub fn wave_run(
    alloc: Global,
    joiners: u32,
    stores: Stores,
    controller: &Controller,
    collector: Collector,
    bouts: u64,
) -> Result<WaveRun, AllocError>
    requires { is_complete collector ≡ true }
    ensures run { IfOk result (λ wave. (joiners : ℕ) (lists : CollectorLists)
        → CollectorStands joiners lists collector
        → IsAnswerOf joiners lists controller.now.journal bouts wave.run) }
    ensures journal { IfOk result (λ wave. wave.run.journal ≡ controller.now.journal) }
    ensures bouts { IfOk result (λ wave. wave.run.bouts ≡ bouts) }
    ensures k { IfOk result (λ wave. (k : ℕ) → k ≤ 8 → joiners ≡ 2 ^ k → wave.rest.k ≡ k) }
    ensures line { IfOk result (λ wave. (line : TurnLine') (past : List TurnLine')
        → reverse controller.now.journal ≡ line ∷ past → wave.rest.line ≡ line) }
    ensures last { IfOk result (λ wave. (first : TurnLine')
        → wave.rest.line ≡ last_line' first wave.run.journal) }
    ensures stores { IfOk result (λ wave. wave.rest.stores ≡ stores) }
{
    let Some(line) = last_line(controller.journal()) else {
        return Err(AllocError);
    };
    let k = exponent_of(joiners);
    let run = answer(alloc, controller, collector, bouts)?;
    Ok(WaveRun {
        run,
        rest: Rest { k, line, stores },
    })
}
