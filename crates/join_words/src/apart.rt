// Words that don't stand together.

ghost use Rattle.std.specs.Prelude.{◌≡◌, IfSome, is_some, true};
ghost use Rattle.join_words.specs.Apart;
ghost use Rattle.join_words.specs.Apart.{are_apart, has_word};

/// A word of the command line that doesn't stand together with each other one. `ManyFiles` is more than two names of
/// files;
/// `FewFiles` is that twice the number of `--grow` isn't below the number of names of files, so that no wave is behind.
#[derive(Clone, Copy, Debug, PartialEq, Eq)]
pub enum Word {
    Fixed,
    Replay,
    Make,
    Early,
    Rows,
    Groups,
    Then,
    Rings,
    ManyFiles,
    Grow,
    FewFiles,
}

/// Which of these words are given.
#[derive(Clone, Copy, Debug)]
pub(crate) struct Given {
    pub(crate) fixed: bool,
    pub(crate) replay: bool,
    pub(crate) make: bool,
    pub(crate) early: bool,
    pub(crate) rows: bool,
    pub(crate) groups: bool,
    pub(crate) chain: bool,
    pub(crate) rings: bool,
    pub(crate) many_files: bool,
    pub(crate) grow: bool,
    pub(crate) few_files: bool,
}

/// The pairs of words that don't stand together.
const APART: [(Word, Word); 24] = [
    (Word::Early, Word::Replay),
    (Word::Early, Word::Make),
    (Word::Early, Word::Rows),
    (Word::Make, Word::Rows),
    (Word::Groups, Word::Fixed),
    (Word::Groups, Word::Early),
    (Word::Groups, Word::Replay),
    (Word::Groups, Word::ManyFiles),
    (Word::Groups, Word::Then),
    (Word::Then, Word::Early),
    (Word::Then, Word::Rows),
    (Word::Then, Word::Make),
    (Word::Then, Word::Replay),
    (Word::Rings, Word::Groups),
    (Word::Rings, Word::Then),
    (Word::Rings, Word::Early),
    (Word::Rings, Word::Replay),
    (Word::Rings, Word::ManyFiles),
    (Word::Early, Word::ManyFiles),
    (Word::Grow, Word::Fixed),
    (Word::Grow, Word::Groups),
    (Word::Grow, Word::Then),
    (Word::Grow, Word::Rings),
    (Word::Grow, Word::FewFiles),
];

impl Given {
    /// Whether this word is.
    fn has(&self, word: Word) -> bool
        ensures { result ≡ has_word self.now word }
    {
        match word {
            Word::Fixed => self.fixed,
            Word::Replay => self.replay,
            Word::Make => self.make,
            Word::Early => self.early,
            Word::Rows => self.rows,
            Word::Groups => self.groups,
            Word::Then => self.chain,
            Word::Rings => self.rings,
            Word::ManyFiles => self.many_files,
            Word::Grow => self.grow,
            Word::FewFiles => self.few_files,
        }
    }

    /// Whether both words of a pair are.
    fn has_both(&self, pair: &(Word, Word)) -> bool
        ensures { result ≡ are_apart self.now pair.now }
    {
        self.has(pair.0) && self.has(pair.1)
    }

    /// The first of these pairs that has both its words.
    fn first_of(&self, pairs: &[(Word, Word)]) -> Option<(Word, Word)>
        ensures any { is_some result ≡ Apart.any_of self.now pairs.now }
        ensures both { IfSome result (λ pair. are_apart self.now pair ≡ true) }
    {
        for pair in pairs {
            if self.has_both(pair) {
                return Some(*pair);
            }
        }
        None
    }

    /// The first two words that are given and don't stand together.
    pub(crate) fn clash(&self) -> Option<(Word, Word)>
        ensures any { is_some result ≡ Apart.any_of self.now Apart.apart }
        ensures both { IfSome result (λ pair. are_apart self.now pair ≡ true) }
    {
        self.first_of(&APART)
    }
}
