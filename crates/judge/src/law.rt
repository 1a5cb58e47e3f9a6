// A law over the definitions.
ghost use Rattle.std.specs.Prelude.{◌≡◌, ℕ, List};
ghost use Rattle.nvm_model.specs.declared.script.Script.{Script};
ghost use Rattle.judge.specs.Verdict.{IsVerdict};
ghost use Rattle.judge.specs.declared.verdict.Verdict.{Verdict};

/// A law: one verdict at most is true of a text.
pub fn one_verdict()
    ensures { (s : Script) (text : List ℕ) (v w : Verdict) → IsVerdict s text v → IsVerdict s text w → w ≡ v }
{}
