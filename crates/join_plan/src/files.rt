// The tables of both sides, made or read, with the rows of later files, and the third of a second join.

ghost use Rattle.std.specs.Prelude.{◌≡◌, ◌⊎◌, ◌<◌, ◌≤◌, ◌+◌, ℕ, List, [], length, Option, None, Some};
ghost use Rattle.std.specs.Prelude.{Ok, Err, IfErr, IfOk, IfSome, is_some};
ghost use Rattle.join_rows.specs.Shelves.{last_fault};
ghost use Rattle.join_rows.specs.Records.{IsTable};
ghost use Rattle.join_words.specs.Words.{asked, chain_of, later_of};
ghost use Rattle.join_plan.specs.Causes.{Refuses};
ghost use Rattle.join_plan.specs.Files.{made_tables, tables_by, third_by};
ghost use Rattle.join_plan.specs.Later;
ghost use Rattle.join_plan.specs.Later.{gathered_behind, gathered_by, waves_by};
ghost use Rattle.join_plan.specs.Seen.{AllSeen, BehindSeen, GatheredSeen, LaterSeen, TablesAsked};
ghost use Rattle.join_plan.specs.Waves.{AreEnds, first_wave as first_wave'};

use crate::both_files::read_tables;
use crate::fault::Refusal;
use crate::later::read_later;
use crate::reading::third_table;
use crate::waves::{InWaves, WaveEnds, first_wave};
use join_rows::{Shelf, make_table};
use join_words::Options;
use row_cells::{Side, Table};
use std::alloc::{AllocError, Global};
use std::thread::Threads;

/// The tables of both sides.
#[derive(Debug, Drop)]
pub struct Tables {
    pub of_r: Table,
    pub of_s: Table,
}

/// The tables of both sides with the rows of all waves, the ends of these, and the third table, where there is one.
#[derive(Debug, Drop)]
pub struct Gathered {
    pub tables: Tables,
    pub ends: WaveEnds,
    pub third: Option<Table>,
}

/// The tables that are made of so many rows a side.
fn made(alloc: Global, count: u64) -> Result<Tables, AllocError>
    requires some { 1 ≤ count }
    requires few { count ≤ 65536 }
    ensures made { IfOk result (λ tables. tables ≡ made_tables count) }
    ensures whole_r { IfOk result (λ tables. IsTable tables.of_r) }
    ensures whole_s { IfOk result (λ tables. IsTable tables.of_s) }
{
    let of_r = make_table(alloc, Side::R, count)?;
    match make_table(alloc, Side::S, count) {
        Ok(of_s) => Ok(Tables { of_r, of_s }),
        Err(refused) => {
            drop(of_r);
            Err(refused)
        }
    }
}

/// The two tables that the options ask for, or the first refusal: made ones, for which the shelf isn't
/// called, or those of the two files.
fn two_tables<R: Threads, H: Shelf>(
    rt: &R,
    alloc: Global,
    options: &Options<'_>,
    shelf: &mut H,
) -> Result<Tables, Refusal>
    requires faults { H.faults shelf.old < last_fault }
    ensures told { H.told shelf.new ≡ H.told shelf.old }
    ensures rises { H.faults shelf.old ≤ H.faults shelf.new }
    ensures answer { (files : List ℕ → Option (List ℕ)) → H.told shelf.old ≡ Some files
        → H.faults shelf.new ≡ H.faults shelf.old → (result ≡ Err Refusal.Memory)
        ⊎ (result ≡ tables_by options.now.make files
        options.now.name_r.now options.now.name_s.now) }
    ensures found { IfOk result
        (λ tables. (files : List ℕ → Option (List ℕ)) → H.told shelf.old ≡ Some files
        → tables_by options.now.make files
        options.now.name_r.now options.now.name_s.now ≡ Ok tables) }
    ensures made { (count : ℕ) → options.now.make ≡ Some count → (shelf.new ≡ shelf.old)
        × ((result ≡ Err Refusal.Memory) ⊎ (result ≡ Ok (made_tables count))) }
    ensures seen { (result ≡ Err Refusal.Read → ⊥) → (result ≡ Err Refusal.Memory → ⊥)
        → TablesAsked (H.told shelf.old) (H.picked shelf.new) (asked options.now) options.now.make
        result }
    ensures sound { H.sound shelf.old
        → H.sound shelf.new × (H.faults shelf.new ≡ H.faults shelf.old) }
    ensures counts { (result ≡ Err Refusal.Read → ⊥) → H.faults shelf.new ≡ H.faults shelf.old }
    ensures refused { IfErr result (Refuses (H.faults shelf.old) (H.faults shelf.new)
        (H.told shelf.old) (H.picked shelf.new) (asked options.now)) }
    ensures whole_r { IfOk result (λ tables. IsTable tables.of_r) }
    ensures whole_s { IfOk result (λ tables. IsTable tables.of_s) }
{
    match options.make {
        Some(count) => match made(alloc, count) {
            Ok(tables) => Ok(tables),
            Err(AllocError) => Err(Refusal::Memory),
        },
        None => read_tables(rt, alloc, shelf, options),
    }
}

/// The waves of two tables and the later files.
fn all_waves<H: Shelf>(
    alloc: Global,
    options: &Options<'_>,
    tables: Tables,
    shelf: &mut H,
) -> Result<InWaves, Refusal>
    requires faults { H.faults shelf.old < last_fault }
    requires table_r { IsTable tables.of_r }
    requires table_s { IsTable tables.of_s }
    ensures told { H.told shelf.new ≡ H.told shelf.old }
    ensures rises { H.faults shelf.old ≤ H.faults shelf.new }
    ensures answer { (files : List ℕ → Option (List ℕ)) → H.told shelf.old ≡ Some files
        → H.faults shelf.new ≡ H.faults shelf.old → (result ≡ Err Refusal.Memory)
        ⊎ (result ≡ waves_by (asked options.now) files tables) }
    ensures found { IfOk result
        (λ waves. (files : List ℕ → Option (List ℕ)) → H.told shelf.old ≡ Some files
        → waves_by (asked options.now) files tables ≡ Ok waves) }
    ensures alone { later_of (asked options.now).kind ≡ [] → (shelf.new ≡ shelf.old)
        × IfOk result (λ waves. waves ≡ first_wave' tables) }
    ensures seen { (result ≡ Err Refusal.Read → ⊥) → (result ≡ Err Refusal.Memory → ⊥)
        → LaterSeen (H.told shelf.old) (H.picked shelf.old) (H.picked shelf.new)
        (asked options.now) (Ok tables) result }
    ensures sound { H.sound shelf.old
        → H.sound shelf.new × (H.faults shelf.new ≡ H.faults shelf.old) }
    ensures counts { (result ≡ Err Refusal.Read → ⊥) → H.faults shelf.new ≡ H.faults shelf.old }
    ensures refused { IfErr result (Refuses (H.faults shelf.old) (H.faults shelf.new)
        (H.told shelf.old) (H.picked shelf.new) (asked options.now)) }
    ensures whole_r { IfOk result (λ waves. IsTable waves.tables.of_r) }
    ensures whole_s { IfOk result (λ waves. IsTable waves.tables.of_s) }
    ensures ends { IfOk result (λ waves. AreEnds waves.tables waves.ends) }
    ensures waves { IfOk result (λ waves.
        length waves.ends ≡ length (later_of (asked options.now).kind) + 1) }
{
    match first_wave(alloc, tables) {
        Ok(waves) => read_later(alloc, shelf, 2, options.kind.later(), waves),
        Err(AllocError) => Err(Refusal::Memory),
    }
}

/// The tables of all waves, and then the third of a second join.
fn with_third<H: Shelf>(
    alloc: Global,
    options: &Options<'_>,
    waves: InWaves,
    shelf: &mut H,
) -> Result<Gathered, Refusal>
    requires faults { H.faults shelf.old < last_fault }
    ensures told { H.told shelf.new ≡ H.told shelf.old }
    ensures rises { H.faults shelf.old ≤ H.faults shelf.new }
    ensures answer { (files : List ℕ → Option (List ℕ)) → H.told shelf.old ≡ Some files
        → H.faults shelf.new ≡ H.faults shelf.old → (result ≡ Err Refusal.Memory)
        ⊎ (result ≡ Later.with_third waves (third_by (chain_of (asked options.now).kind) files)) }
    ensures found { IfOk result
        (λ found. (files : List ℕ → Option (List ℕ)) → H.told shelf.old ≡ Some files
        → Later.with_third waves (third_by (chain_of (asked options.now).kind) files) ≡ Ok found) }
    ensures alone { chain_of (asked options.now).kind ≡ None → shelf.new ≡ shelf.old }
    ensures seen { (result ≡ Err Refusal.Read → ⊥) → (result ≡ Err Refusal.Memory → ⊥)
        → AllSeen (H.told shelf.old) (H.picked shelf.old) (H.picked shelf.new)
        (chain_of (asked options.now).kind) (Ok waves) result }
    ensures sound { H.sound shelf.old
        → H.sound shelf.new × (H.faults shelf.new ≡ H.faults shelf.old) }
    ensures counts { (result ≡ Err Refusal.Read → ⊥) → H.faults shelf.new ≡ H.faults shelf.old }
    ensures refused { IfErr result (Refuses (H.faults shelf.old) (H.faults shelf.new)
        (H.told shelf.old) (H.picked shelf.new) (asked options.now)) }
    ensures tables { IfOk result (λ found. found.tables ≡ waves.tables) }
    ensures ends { IfOk result (λ found. found.ends ≡ waves.ends) }
    ensures whole { IfOk result (λ found. IfSome found.third IsTable) }
    ensures chained { IfOk result (λ found.
        is_some found.third ≡ is_some (chain_of (asked options.now).kind)) }
{
    let InWaves { tables, ends } = waves;
    match third_table(alloc, options, shelf) {
        Ok(third) => Ok(Gathered {
            tables,
            ends,
            third,
        }),
        Err(refusal) => {
            drop(tables);
            drop(ends);
            Err(refusal)
        }
    }
}

/// Two tables, and then the later files and the third.
fn with_others<H: Shelf>(
    alloc: Global,
    options: &Options<'_>,
    tables: Tables,
    shelf: &mut H,
) -> Result<Gathered, Refusal>
    requires faults { H.faults shelf.old < last_fault }
    requires table_r { IsTable tables.of_r }
    requires table_s { IsTable tables.of_s }
    ensures told { H.told shelf.new ≡ H.told shelf.old }
    ensures rises { H.faults shelf.old ≤ H.faults shelf.new }
    ensures answer { (files : List ℕ → Option (List ℕ)) → H.told shelf.old ≡ Some files
        → H.faults shelf.new ≡ H.faults shelf.old → (result ≡ Err Refusal.Memory)
        ⊎ (result ≡ gathered_behind (asked options.now) files tables) }
    ensures found { IfOk result
        (λ found. (files : List ℕ → Option (List ℕ)) → H.told shelf.old ≡ Some files
        → gathered_behind (asked options.now) files tables ≡ Ok found) }
    ensures alone { later_of (asked options.now).kind ≡ []
        → chain_of (asked options.now).kind ≡ None
        → (shelf.new ≡ shelf.old) × IfOk result (λ found. found.tables ≡ tables) }
    ensures seen { (result ≡ Err Refusal.Read → ⊥) → (result ≡ Err Refusal.Memory → ⊥)
        → BehindSeen (H.told shelf.old) (H.picked shelf.old) (H.picked shelf.new)
        (asked options.now) (Ok tables) result }
    ensures sound { H.sound shelf.old
        → H.sound shelf.new × (H.faults shelf.new ≡ H.faults shelf.old) }
    ensures counts { (result ≡ Err Refusal.Read → ⊥) → H.faults shelf.new ≡ H.faults shelf.old }
    ensures refused { IfErr result (Refuses (H.faults shelf.old) (H.faults shelf.new)
        (H.told shelf.old) (H.picked shelf.new) (asked options.now)) }
    ensures whole_r { IfOk result (λ found. IsTable found.tables.of_r) }
    ensures whole_s { IfOk result (λ found. IsTable found.tables.of_s) }
    ensures whole { IfOk result (λ found. IfSome found.third IsTable) }
    ensures chained { IfOk result (λ found.
        is_some found.third ≡ is_some (chain_of (asked options.now).kind)) }
    ensures ends { IfOk result (λ found. AreEnds found.tables found.ends) }
    ensures waves { IfOk result (λ found.
        length found.ends ≡ length (later_of (asked options.now).kind) + 1) }
{
    match all_waves(alloc, options, tables, shelf) {
        Ok(waves) => with_third(alloc, options, waves, shelf),
        Err(refusal) => Err(refusal),
    }
}

/// All tables that the options ask for, or the first refusal. For made ones the shelf isn't called.
pub(crate) fn all_tables<R: Threads, H: Shelf>(
    rt: &R,
    alloc: Global,
    options: &Options<'_>,
    shelf: &mut H,
) -> Result<Gathered, Refusal>
    requires faults { H.faults shelf.old < last_fault }
    ensures told { H.told shelf.new ≡ H.told shelf.old }
    ensures rises { H.faults shelf.old ≤ H.faults shelf.new }
    ensures answer { (files : List ℕ → Option (List ℕ)) → H.told shelf.old ≡ Some files
        → H.faults shelf.new ≡ H.faults shelf.old → (result ≡ Err Refusal.Memory)
        ⊎ (result ≡ gathered_by (asked options.now) files) }
    ensures found { IfOk result
        (λ found. (files : List ℕ → Option (List ℕ)) → H.told shelf.old ≡ Some files
        → gathered_by (asked options.now) files ≡ Ok found) }
    ensures made { (count : ℕ) → options.now.make ≡ Some count → (shelf.new ≡ shelf.old)
        × IfOk result (λ found. found.tables ≡ made_tables count) }
    ensures seen { (result ≡ Err Refusal.Read → ⊥) → (result ≡ Err Refusal.Memory → ⊥)
        → GatheredSeen (H.told shelf.old) (H.picked shelf.new) (asked options.now) result }
    ensures sound { H.sound shelf.old
        → H.sound shelf.new × (H.faults shelf.new ≡ H.faults shelf.old) }
    ensures counts { (result ≡ Err Refusal.Read → ⊥) → H.faults shelf.new ≡ H.faults shelf.old }
    ensures refused { IfErr result (Refuses (H.faults shelf.old) (H.faults shelf.new)
        (H.told shelf.old) (H.picked shelf.new) (asked options.now)) }
    ensures whole_r { IfOk result (λ found. IsTable found.tables.of_r) }
    ensures whole_s { IfOk result (λ found. IsTable found.tables.of_s) }
    ensures whole { IfOk result (λ found. IfSome found.third IsTable) }
    ensures chained { IfOk result (λ found.
        is_some found.third ≡ is_some (chain_of (asked options.now).kind)) }
    ensures ends { IfOk result (λ found. AreEnds found.tables found.ends) }
    ensures waves { IfOk result (λ found.
        length found.ends ≡ length (later_of (asked options.now).kind) + 1) }
{
    match two_tables(rt, alloc, options, shelf) {
        Ok(tables) => with_others(alloc, options, tables, shelf),
        Err(refusal) => Err(refusal),
    }
}
