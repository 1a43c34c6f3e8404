ghost use Rattle.std.specs.Prelude.{◌≡◌, ℕ, List};
ghost use Rattle.session_script.specs.declared.call.Line.{Line};
ghost use Rattle.session_script.specs.declared.why.Why.{Why};
ghost use Rattle.session_script.specs.Script.{IsScript, IsRefusedAt};

/// A text is that of one script at most.
pub fn one_script()
    ensures { (text : List ℕ) (a b : List Line) → IsScript text a → IsScript text b → a ≡ b }
{}

/// A text is refused at one line at most, and for one reason.
pub fn one_refusal()
    ensures { (text : List ℕ) (l m : ℕ) (a b : Why) → IsRefusedAt text l a → IsRefusedAt text m b
        → (l ≡ m) × (a ≡ b) }
{}

/// No text is that of a script and refused as well.
pub fn script_or_refusal()
    ensures { (text : List ℕ) (script : List Line) (line : ℕ) (why : Why) → IsScript text script
        → IsRefusedAt text line why → ⊥ }
{}
