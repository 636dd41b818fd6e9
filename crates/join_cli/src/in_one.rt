// The runs of several waves in one.

ghost use Rattle.std.specs.Prelude.{◌≡◌, ◌++◌, ◌≤◌, ◌^◌, IfOk, OnOk, replicate};
ghost use Rattle.trace_law.specs.Validity.{IsValidSetting};
ghost use Rattle.join_cli.specs.WaveTexts.{no_waves as no_waves', sums_of, with_wave};

use epoch_tags::{Counts, Pairs};
use join_runtime::Trail;
use link_trace::{Run, Setting};
use load_controller::Journal;
use pair_collector::Loads;
use std::alloc::{AllocError, Global};
use std::mem;

/// Adds up the numbers of two lists, place by place, behind these sums.
fn add_sums(sums: &mut Counts, counts: &[u64], more: &[u64]) -> Result<(), AllocError>
    ensures { OnOk result (sums.new ≡ sums.old ++ sums_of counts.now more.now) }
{
    let [count, counts @ ..] = counts else {
        return Ok(());
    };
    let [other, more @ ..] = more else {
        return Ok(());
    };
    let Some(sum) = count.checked_add(*other) else {
        return Err(AllocError);
    };
    sums.push(sum)?;
    add_sums(sums, counts, more)
}

/// The numbers of two lists added up, place by place. Want of memory is told also where a sum doesn't fit 64 bits.
fn sums(alloc: Global, counts: &Counts, more: &Counts) -> Result<Counts, AllocError>
    ensures { IfOk result (λ sums. sums ≡ sums_of counts.now more.now) }
{
    let mut sums = Counts::new(alloc);
    add_sums(&mut sums, counts.as_slice(), more.as_slice())?;
    Ok(sums)
}

/// Some pairs, and more behind them.
fn pairs_of_both(pairs: Pairs, more: &Pairs) -> Result<Pairs, AllocError>
    ensures { IfOk result (λ both. both ≡ pairs ++ more.now) }
{
    let mut both = pairs.into_vec()?;
    both.extend_from_slice(more.as_slice())?;
    Ok(Pairs::from_vec(both))
}

/// Some numbers, and more behind them.
fn counts_of_both(counts: Counts, more: &Counts) -> Result<Counts, AllocError>
    ensures { IfOk result (λ both. both ≡ counts ++ more.now) }
{
    let mut both = counts.into_vec();
    both.extend_from_slice(more.as_slice())?;
    Ok(Counts::from_vec(both))
}

/// A journal, and another behind it.
pub(crate) fn journal_of_both(journal: Journal, more: &Journal) -> Result<Journal, AllocError>
    ensures { IfOk result (λ both. both ≡ journal ++ more.now) }
{
    let mut both = journal.into_vec();
    both.extend_from_slice(more.as_slice())?;
    Ok(Journal::from_vec(both))
}

/// Takes the next wave into some waves. The loads of the two are exchanged.
fn add_wave(alloc: Global, all: &mut Run, next: &mut Run) -> Result<(), AllocError>
    ensures { OnOk result (all.new ≡ with_wave all.old next.old) }
{
    let pairs = mem::replace(&mut all.pairs, Pairs::new(alloc));
    all.pairs = pairs_of_both(pairs, &next.pairs)?;
    all.made = sums(alloc, &all.made, &next.made)?;
    let moved = mem::replace(&mut all.moved, Counts::new(alloc));
    all.moved = counts_of_both(moved, &next.moved)?;
    let journal = mem::replace(&mut all.journal, Journal::new(alloc));
    all.journal = journal_of_both(journal, &next.journal)?;
    mem::swap(&mut all.loads, &mut next.loads);
    all.bouts = 0;
    Ok(())
}

/// Some waves and the next in one.
pub(crate) fn run_of_both(alloc: Global, before: Run, next: Run) -> Result<Run, AllocError>
    ensures { IfOk result (λ both. both ≡ with_wave before next) }
{
    let mut all = before;
    let mut next = next;
    let added = add_wave(alloc, &mut all, &mut next);
    drop(next);
    match added {
        Ok(()) => Ok(all),
        Err(refused) => {
            drop(all);
            Err(refused)
        }
    }
}

/// Some ends, and more behind them.
pub(crate) fn trail_of_both(trail: Trail, more: Trail) -> Result<Trail, AllocError>
    ensures { IfOk result (λ both. both ≡ trail ++ more) }
{
    let mut both = trail;
    for ends in more.into_vec() {
        both.push(ends)?;
    }
    Ok(both)
}

/// So many zeros as there are joiners.
fn zeros(alloc: Global, k: u32) -> Result<Counts, AllocError>
    requires { k ≤ 8 }
    ensures { IfOk result (λ zeros. zeros ≡ replicate (2 ^ k) 0) }
{
    let count = (1u32 << k) as usize;
    Ok(Counts::from_vec(vec![in alloc; 0u64; count]?))
}

/// Before the first wave no joiner has made a pair, and nothing has moved.
pub(crate) fn no_waves(alloc: Global, setting: &Setting) -> Result<Run, AllocError>
    requires setting { IsValidSetting setting.now }
    ensures { IfOk result (λ run. run ≡ no_waves' setting.now) }
{
    Ok(Run {
        pairs: Pairs::new(alloc),
        made: zeros(alloc, setting.k)?,
        loads: Loads::new(alloc),
        moved: Counts::new(alloc),
        journal: Journal::new(alloc),
        bouts: 0,
    })
}
