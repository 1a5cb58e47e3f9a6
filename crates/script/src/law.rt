// Laws over the definitions: what a text says, it says in one way.
ghost use Rattle.std.specs.Prelude.{◌≡◌, ℕ, List};
ghost use Rattle.nvm_model.specs.ScriptText.{IsScript, script_text};
ghost use Rattle.nvm_model.specs.declared.script.Script.{Script};
ghost use Rattle.script.specs.BadLine.{IsBadLine};
ghost use Rattle.script.specs.declared.refusal.BadLine.{BadLine};

/// A law: a text has at most one first line that isn't right, with one cause.
pub fn one_bad_line()
    ensures { (text : List ℕ) (a b : BadLine) → IsBadLine text a → IsBadLine text b → a ≡ b }
{}

/// A law: a text spells one script at most.
pub fn one_script()
    ensures { (s t : Script) → IsScript s → IsScript t → script_text s ≡ script_text t → s ≡ t }
{}
