// A run of several waves in which each joiner splits into four behind one of them.

ghost use Rattle.std.specs.Prelude.{◌≡◌, ◌+◌, ◌≤◌, IfOk};
ghost use Rattle.actor_core.specs.Rests.{IsRestOf};
ghost use Rattle.elastic_grow.specs.Growth.{grown_line, grown_setting as grown_setting'};
ghost use Rattle.join_cli.specs.GrownSteps.{AreFirstWaves, AreGrownWaves, AreWavesGrown, MayGrow};
ghost use Rattle.join_cli.specs.WaveSteps.{AreFewWaves, AreWavesBehind, MayGoThrough};
ghost use Rattle.join_cli.specs.WaveTexts.{no_waves as no_waves'};
ghost use Rattle.join_cli.specs.Works.{view_of};

use crate::in_one::no_waves;
use crate::waves::{Waved, through};
use crate::work::Work;
use elastic_grow::grow;
use join_plan::WaveEnd;
use join_runtime::Trail;
use link_trace::{Rest, Run, Setting};
use load_controller::TurnLine;
use std::alloc::{AllocError, Global};
use std::sync::Wait;
use std::thread::Threads;
use worker_gate::Gate;

/// All waves of a run with a growth: those before it in one, the line with which the others begin, those in one, and
/// what the seats of all left.
#[derive(Drop)]
pub(crate) struct Grown {
    pub(crate) before: Run,
    pub(crate) line: TurnLine,
    pub(crate) since: Run,
    pub(crate) trail: Trail,
}

/// The same setting with four times as many joiners.
pub(crate) fn grown_setting(setting: &Setting) -> Setting
    requires { setting.now.k ≤ 6 }
    ensures { result ≡ grown_setting' setting.now }
{
    Setting {
        k: setting.k + 2,
        ..*setting
    }
}

/// What waves left, with each joiner split into four.
fn grown_rest(alloc: Global, rest: Rest, work: &Work<'_>) -> Result<Rest, AllocError>
    requires grows { MayGrow work.now.setting.now }
    requires rest { IsRestOf work.now.input.now work.now.setting.now rest }
    ensures line { IfOk result (λ grown. grown.line
        ≡ grown_line work.now.setting.now.weights work.now.setting.now.k rest.line) }
    ensures rest { IfOk result (IsRestOf work.now.input.now (grown_setting' work.now.setting.now)) }
{
    grow(alloc, rest, work.setting.weights, &work.input.theta)
}

/// The waves up to these ends, the first of which begins with no rows, and what they leave.
fn first_waves<R: Threads + Wait + Sync, G: Gate + Sync>(
    rt: &R,
    alloc: Global,
    work: &Work<'_>,
    ends: &[WaveEnd],
    gate: &G,
) -> Result<Waved, AllocError>
    requires { AreFewWaves work.now.input.now ends.now }
    ensures { IfOk result (AreFirstWaves (view_of work.now) ends.now) }
{
    let rest = Rest::empty(alloc, work.setting.k, work.setting.fixed, &work.input.theta)?;
    let run = no_waves(alloc, work.setting)?;
    let trail = Trail::new(alloc);
    let none = Waved { run, trail, rest };
    through(rt, alloc, work, none, ends, gate)
}

/// The waves up to these ends, which go on from this rest, behind a run that left this.
fn waves_from<R: Threads + Wait + Sync, G: Gate + Sync>(
    rt: &R,
    alloc: Global,
    work: &Work<'_>,
    trail: Trail,
    rest: Rest,
    ends: &[WaveEnd],
    gate: &G,
) -> Result<Waved, AllocError>
    requires { MayGoThrough work.now rest ends.now }
    ensures { IfOk result (AreWavesBehind (view_of work.now)
        (record { run = no_waves' work.now.setting.now; trail = trail; rest = rest }) ends.now) }
{
    match no_waves(alloc, work.setting) {
        Ok(run) => {
            let none = Waved { run, trail, rest };
            through(rt, alloc, work, none, ends, gate)
        }
        Err(refused) => {
            drop(trail);
            drop(rest);
            Err(refused)
        }
    }
}

/// The line of this rest with each joiner split into four, and the waves up to these ends that go on from there.
fn waves_grown<R: Threads + Wait + Sync, G: Gate + Sync>(
    rt: &R,
    alloc: Global,
    work: &Work<'_>,
    trail: Trail,
    rest: Rest,
    ends: &[WaveEnd],
    gate: &G,
) -> Result<(TurnLine, Waved), AllocError>
    requires grows { MayGrow work.now.setting.now }
    requires waves { MayGoThrough work.now rest ends.now }
    ensures { IfOk result (λ since.
        AreWavesGrown (view_of work.now) trail rest.line ends.now since.0 since.1) }
{
    match grown_rest(alloc, rest, work) {
        Ok(rest) => {
            let line = rest.line;
            let setting = grown_setting(work.setting);
            let grown = Work {
                input: work.input,
                setting: &setting,
                number: work.number,
            };
            let waves = waves_from(rt, alloc, &grown, trail, rest, ends, gate)?;
            Ok((line, waves))
        }
        Err(refused) => {
            drop(trail);
            Err(refused)
        }
    }
}

/// The waves up to these ends, with a growth behind so many of them. Want of memory is told also where there are fewer.
pub(crate) fn grown_waves<R: Threads + Wait + Sync, G: Gate + Sync>(
    rt: &R,
    alloc: Global,
    work: &Work<'_>,
    wave: u32,
    ends: &[WaveEnd],
    gate: &G,
) -> Result<Grown, AllocError>
    requires grows { MayGrow work.now.setting.now }
    requires ends { AreFewWaves work.now.input.now ends.now }
    ensures { IfOk result (AreGrownWaves (view_of work.now) wave ends.now) }
{
    let Some((early, later)) = ends.split_at_checked(wave as usize) else {
        return Err(AllocError);
    };
    let first = first_waves(rt, alloc, work, early, gate)?;
    let Waved {
        run: before,
        trail,
        rest,
    } = first;
    match waves_grown(rt, alloc, work, trail, rest, later, gate) {
        Ok((line, waves)) => {
            let Waved {
                run: since,
                trail,
                rest,
            } = waves;
            gate.let_go(rest);
            Ok(Grown {
                before,
                line,
                since,
                trail,
            })
        }
        Err(refused) => {
            drop(before);
            Err(refused)
        }
    }
}
