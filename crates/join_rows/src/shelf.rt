// Where the files are that a table is read from.

ghost use Rattle.std.specs.Prelude.{◌≡◌, ◌⊎◌, ◌≤◌, ◌<◌, ℕ, length, OnOk, OnErr, IfOk, Some, None, Ok};
ghost use Rattle.join_rows.specs.Shelves.{AtEnd, Faulted, Lacks, Nexts, Spot, Told, moved, raised};

/// A call of a shelf or of a sink that failed.
#[derive(Clone, Copy, Debug, PartialEq, Eq)]
pub struct Failed;

/// Files by their names, of which one is picked and read from its beginning.
///
/// A shelf may tell its files, a real one doesn't. It counts the calls that failed; the count never falls, and stays
/// at 2^64 - 1.
pub trait Shelf {
    /// The bytes under each name, where the shelf tells its files.
    ghost told: { Self → Told };

    /// The picked name, and the place in its file.
    ghost picked: { Self → Spot };

    /// How many calls failed.
    ghost faults: { Self → ℕ };

    /// No call fails from here on, but a pick of a name that isn't there.
    ghost sound: { Self → Type 0 };

    /// Goes to the beginning of a file, also of the one that is picked. After a failed pick nothing is picked.
    fn pick(&mut self, name: &str) -> Result<(), Failed>
        ensures told { told self.new ≡ told self.old }
        ensures rises { faults self.old ≤ faults self.new }
        ensures picks { OnOk result (picked self.new ≡ Some (name.now, 0)) }
        ensures there { OnOk result (Lacks (told self.old) name.now → ⊥) }
        ensures counts { OnOk result (faults self.new ≡ faults self.old) }
        ensures fails { OnErr result (Lacks (told self.old) name.now
            ⊎ Faulted (faults self.old) (faults self.new)) }
        ensures nothing { OnErr result (picked self.new ≡ None) }
        ensures sound { sound self.old → sound self.new × (faults self.new ≡ faults self.old) };

    /// Reads the next bytes, as many as there is room for at most, and none only at the end. With nothing picked
    /// it reads none.
    fn read(&mut self, into: &mut [u8]) -> Result<usize, Failed>
        ensures told { told self.new ≡ told self.old }
        ensures rises { faults self.old ≤ faults self.new }
        ensures room { IfOk result (λ n. n ≤ length into.old) }
        ensures moves { IfOk result (λ n. picked self.new ≡ moved n (picked self.old)) }
        ensures next { IfOk result (λ n. Nexts (told self.old) (picked self.old) n into.new) }
        ensures end { IfOk result (λ n. n ≡ 0 → 0 < length into.old
            → AtEnd (told self.old) (picked self.old)) }
        ensures counts { OnOk result (faults self.new ≡ faults self.old) }
        ensures fails { OnErr result (Faulted (faults self.old) (faults self.new)) }
        ensures nothing { picked self.old ≡ None → result ≡ Ok 0 }
        ensures sound { sound self.old → sound self.new × (faults self.new ≡ faults self.old) };
}

// One more fault, up to the last value.
pub(crate) fn one_more(faults: u64) -> u64
    ensures { result ≡ raised faults }
{
    faults.saturating_add(1)
}
