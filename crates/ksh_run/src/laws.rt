ghost use Rattle.std.specs.Prelude.{◌≡◌, ℕ, List, Option, Err};
ghost use Rattle.ksh_base.specs.Words.{words_plan};
ghost use Rattle.ksh_base.specs.declared.words.UsageFault.{UsageFault};
ghost use Rattle.ksh_run.specs.Checks.{ChecksBy};
ghost use Rattle.ksh_run.specs.Texts.{source_line, usage_line};
ghost use Rattle.ksh_run.specs.declared.check.Checked.{Checked};
ghost use Rattle.ksh_run.specs.declared.check.Checked.TheVariants.{Refused};
ghost use Rattle.ksh_run.specs.declared.ended.Why.TheVariants.{SourceFault, Usage};

/// A check tells a usage fault wherever the words have it, and a failed read wherever the source's count changed.
pub fn causes_are_exact()
    ensures usage { (words : List (List ℕ)) (left : Option (List ℕ)) (before now : ℕ) (checked : Checked) (f : UsageFault)
        → ChecksBy words left before now checked → words_plan words ≡ Err f → checked ≡ Refused 2 (Usage f) (usage_line f) }
    ensures source { (words : List (List ℕ)) (left : Option (List ℕ)) (before now : ℕ) (checked : Checked)
        → ChecksBy words left before now checked → (now ≡ before → ⊥) → checked ≡ Refused 122 SourceFault source_line }
{}
