// Laws of the command.

ghost use Rattle.std.specs.Prelude.{◌≡◌, ℕ, List, [], ◌∷◌, Err, codes};
ghost use Rattle.join_words.specs.Words.{asked_of};
ghost use Rattle.join_words.specs.declared.options.WordsFault.TheVariants.{NoMatch};

/// An empty list of words has no match, nor has a request for help or for the version, whatever the
/// program's name. It does nothing: its contract is the law.
pub fn requests_have_no_match()
    ensures empty { asked_of [] ≡ Err NoMatch }
    ensures name_alone { (name : List ℕ) → asked_of (name ∷ []) ≡ Err NoMatch }
    ensures help { (name : List ℕ) → asked_of (name ∷ codes "--help" ∷ []) ≡ Err NoMatch }
    ensures short_help { (name : List ℕ) → asked_of (name ∷ codes "-h" ∷ []) ≡ Err NoMatch }
    ensures version { (name : List ℕ) → asked_of (name ∷ codes "--version" ∷ []) ≡ Err NoMatch }
{}
