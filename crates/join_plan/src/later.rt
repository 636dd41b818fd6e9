// The files of the later waves, read one after the other.

ghost use Rattle.std.specs.Prelude.{◌≡◌, ◌⊎◌, ◌<◌, ◌≤◌, ◌++◌, ◌∷◌, ◌+◌, ℕ, List, [], Option, Some, Ok, Err};
ghost use Rattle.std.specs.Prelude.{length, map};
ghost use Rattle.std.specs.Prelude.{IfErr, IfOk};
ghost use Rattle.join_rows.specs.Shelves.{last_fault};
ghost use Rattle.join_rows.specs.Records.{IsTable};
ghost use Rattle.join_words.specs.Words.{Asked, asked_wave};
ghost use Rattle.join_plan.specs.Causes.{AreAsked, IsSourceOf, Refuses};
ghost use Rattle.join_plan.specs.Files.{later_sources, source_of, wave_sources};
ghost use Rattle.join_plan.specs.Later.{gathered, step};
ghost use Rattle.join_plan.specs.Seen.{IsNextSeen, SeenFrom};
ghost use Rattle.join_plan.specs.Waves.{AreEnds, AreWithin, end_of as end_of'};

use crate::continued::with_more;
use crate::fault::Refusal;
use crate::reading::{File, table};
use crate::waves::InWaves;
use join_rows::Shelf;
use join_words::Wave;
use row_cells::Side;
use std::alloc::Global;

/// The waves with the rows of the next file, or the refusal of it.
fn read_next<H: Shelf>(
    alloc: Global,
    shelf: &mut H,
    file: &File<'_>,
    waves: InWaves,
) -> Result<InWaves, Refusal>
    requires faults { H.faults shelf.old < last_fault }
    requires table_r { IsTable waves.tables.of_r }
    requires table_s { IsTable waves.tables.of_s }
    requires ends { AreWithin waves.tables waves.ends }
    ensures told { H.told shelf.new ≡ H.told shelf.old }
    ensures rises { H.faults shelf.old ≤ H.faults shelf.new }
    ensures answer { (files : List ℕ → Option (List ℕ)) → H.told shelf.old ≡ Some files
        → H.faults shelf.new ≡ H.faults shelf.old → (result ≡ Err Refusal.Memory)
        ⊎ (result ≡ step (source_of file.now) waves (files file.now.name.now)) }
    ensures found { IfOk result
        (λ all. (files : List ℕ → Option (List ℕ)) → H.told shelf.old ≡ Some files
        → step (source_of file.now) waves (files file.now.name.now) ≡ Ok all) }
    ensures seen { (result ≡ Err Refusal.Read → ⊥) → (result ≡ Err Refusal.Memory → ⊥)
        → IsNextSeen (H.told shelf.old) (H.picked shelf.new) (source_of file.now) waves result }
    ensures sound { H.sound shelf.old
        → H.sound shelf.new × (H.faults shelf.new ≡ H.faults shelf.old) }
    ensures counts { (result ≡ Err Refusal.Read → ⊥) → H.faults shelf.new ≡ H.faults shelf.old }
    ensures refused { (asked : Asked) → IsSourceOf asked (source_of file.now)
        → IfErr result (Refuses (H.faults shelf.old) (H.faults shelf.new)
        (H.told shelf.old) (H.picked shelf.new) asked) }
    ensures whole_r { IfOk result (λ all. IsTable all.tables.of_r) }
    ensures whole_s { IfOk result (λ all. IsTable all.tables.of_s) }
    ensures within { IfOk result (λ all. AreWithin all.tables all.ends) }
    ensures begun { file.now.side ≡ Side.R → IfOk result (λ all. all.ends ≡ waves.ends) }
    ensures ended { file.now.side ≡ Side.S
        → IfOk result (λ all. all.ends ≡ waves.ends ++ end_of' all.tables ∷ []) }
{
    match table(alloc, shelf, file) {
        Ok(more) => with_more(file, waves, more),
        Err(refusal) => {
            drop(waves);
            Err(refusal)
        }
    }
}

/// The waves with the rows of one more, whose file of R is read before that of S.
fn read_wave<H: Shelf>(
    alloc: Global,
    shelf: &mut H,
    number: u32,
    wave: &Wave<'_>,
    waves: InWaves,
) -> Result<InWaves, Refusal>
    requires faults { H.faults shelf.old < last_fault }
    requires table_r { IsTable waves.tables.of_r }
    requires table_s { IsTable waves.tables.of_s }
    requires ends { AreWithin waves.tables waves.ends }
    ensures told { H.told shelf.new ≡ H.told shelf.old }
    ensures rises { H.faults shelf.old ≤ H.faults shelf.new }
    ensures answer { (files : List ℕ → Option (List ℕ)) → H.told shelf.old ≡ Some files
        → H.faults shelf.new ≡ H.faults shelf.old → (result ≡ Err Refusal.Memory)
        ⊎ (result ≡ gathered files waves (wave_sources number (asked_wave wave.now))) }
    ensures found { IfOk result
        (λ all. (files : List ℕ → Option (List ℕ)) → H.told shelf.old ≡ Some files
        → gathered files waves (wave_sources number (asked_wave wave.now)) ≡ Ok all) }
    ensures seen { (result ≡ Err Refusal.Read → ⊥) → (result ≡ Err Refusal.Memory → ⊥)
        → SeenFrom (H.told shelf.old) (H.picked shelf.old) (H.picked shelf.new) waves
        (wave_sources number (asked_wave wave.now)) result }
    ensures sound { H.sound shelf.old
        → H.sound shelf.new × (H.faults shelf.new ≡ H.faults shelf.old) }
    ensures counts { (result ≡ Err Refusal.Read → ⊥) → H.faults shelf.new ≡ H.faults shelf.old }
    ensures refused { (asked : Asked) → AreAsked asked (wave_sources number (asked_wave wave.now))
        → IfErr result (Refuses (H.faults shelf.old) (H.faults shelf.new)
        (H.told shelf.old) (H.picked shelf.new) asked) }
    ensures whole_r { IfOk result (λ all. IsTable all.tables.of_r) }
    ensures whole_s { IfOk result (λ all. IsTable all.tables.of_s) }
    ensures within { IfOk result (λ all. AreWithin all.tables all.ends) }
    ensures ended { IfOk result (λ all. all.ends ≡ waves.ends ++ end_of' all.tables ∷ []) }
{
    let file_r = File {
        side: Side::R,
        wave: number,
        name: wave.name_r,
    };
    let file_s = File {
        side: Side::S,
        wave: number,
        name: wave.name_s,
    };
    match read_next(alloc, shelf, &file_r, waves) {
        Ok(waves) => read_next(alloc, shelf, &file_s, waves),
        Err(refusal) => Err(refusal),
    }
}

/// The waves with the rows of these, the first of which has this number.
pub(crate) fn read_later<H: Shelf>(
    alloc: Global,
    shelf: &mut H,
    number: u32,
    later: &[Wave<'_>],
    waves: InWaves,
) -> Result<InWaves, Refusal>
    requires faults { H.faults shelf.old < last_fault }
    requires table_r { IsTable waves.tables.of_r }
    requires table_s { IsTable waves.tables.of_s }
    requires ends { AreEnds waves.tables waves.ends }
    requires number { length waves.ends + 1 ≡ number }
    requires few { number + length later.now ≤ 5 }
    ensures told { H.told shelf.new ≡ H.told shelf.old }
    ensures rises { H.faults shelf.old ≤ H.faults shelf.new }
    ensures answer { (files : List ℕ → Option (List ℕ)) → H.told shelf.old ≡ Some files
        → H.faults shelf.new ≡ H.faults shelf.old → (result ≡ Err Refusal.Memory)
        ⊎ (result ≡ gathered files waves (later_sources number (map asked_wave later.now))) }
    ensures found { IfOk result
        (λ all. (files : List ℕ → Option (List ℕ)) → H.told shelf.old ≡ Some files
        → gathered files waves (later_sources number (map asked_wave later.now)) ≡ Ok all) }
    ensures seen { (result ≡ Err Refusal.Read → ⊥) → (result ≡ Err Refusal.Memory → ⊥)
        → SeenFrom (H.told shelf.old) (H.picked shelf.old) (H.picked shelf.new) waves
        (later_sources number (map asked_wave later.now)) result }
    ensures sound { H.sound shelf.old
        → H.sound shelf.new × (H.faults shelf.new ≡ H.faults shelf.old) }
    ensures counts { (result ≡ Err Refusal.Read → ⊥) → H.faults shelf.new ≡ H.faults shelf.old }
    ensures refused { (asked : Asked)
        → AreAsked asked (later_sources number (map asked_wave later.now))
        → IfErr result (Refuses (H.faults shelf.old) (H.faults shelf.new)
        (H.told shelf.old) (H.picked shelf.new) asked) }
    ensures whole_r { IfOk result (λ all. IsTable all.tables.of_r) }
    ensures whole_s { IfOk result (λ all. IsTable all.tables.of_s) }
    ensures ends { IfOk result (λ all. AreEnds all.tables all.ends) }
    ensures waves { IfOk result (λ all. length all.ends ≡ length waves.ends + length later.now) }
    ensures alone { later.now ≡ [] → (shelf.new ≡ shelf.old) × IfOk result (λ all. all ≡ waves) }
{
    let [wave, others @ ..] = later else {
        return Ok(waves);
    };
    match read_wave(alloc, shelf, number, wave, waves) {
        Ok(waves) => read_later(alloc, shelf, number + 1, others, waves),
        Err(refusal) => Err(refusal),
    }
}
