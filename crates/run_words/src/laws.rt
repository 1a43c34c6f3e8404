ghost use Rattle.std.specs.Prelude.{◌≡◌, ℕ, List};
ghost use Rattle.run_words.specs.Words.{Asked, AreWords};

/// Words ask for one thing at most.
pub fn one_meaning()
    ensures { (words : List (List ℕ)) (a b : Asked) →
        AreWords words a → AreWords words b → a ≡ b }
{}
