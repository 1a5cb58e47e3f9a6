ghost use Rattle.std.specs.Prelude.{◌≤◌, ℕ, List};
ghost use Rattle.move_core.specs.declared.event.CoreEvent.{CoreEvent};
ghost use Rattle.move_core.specs.State.{CoreState, Steps, start_core};
ghost use Rattle.move_core.specs.Covered.{IsCoreCovered};

/// A law: whatever happens to a core from its start on, each block in which its sides differ is owed, or in a span that is
/// still told, or the mark is up.
pub fn moves_are_covered()
    ensures { (blocks cells : ℕ) (events : List CoreEvent) (c : CoreState) → Steps (start_core blocks cells) events c → IsCoreCovered c }
{}
