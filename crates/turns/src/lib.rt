//! Laws of the model's turns. For the layer above: turns are a legal history, and from lanes at rest a run can be brought to
//! its end turn by turn, with no fault; an event leads to one world at most, and events are cut into turns in one way only.
#![tactic(auto)]

ghost use Rattle.std.specs.Prelude.{◌≡◌, ◌≤◌, ℕ, List};
ghost use Rattle.nvm_model.specs.declared.line.Line.{Line};
ghost use Rattle.nvm_model.specs.declared.script.Script.{Script};
ghost use Rattle.nvm_model.specs.Event.{One};
ghost use Rattle.nvm_model.specs.History.{Steps};
ghost use Rattle.nvm_model.specs.Turn.{Turns, events_in};
ghost use Rattle.nvm_model.specs.World.{World};
ghost use Rattle.turns.specs.Frame.{AreAtRest, AreServed, EndsInTurns};

/// A law: the events of turns are steps of the world, one after another.
pub fn turns_are_steps()
    ensures { (s : Script) (n : ℕ) (w : World) (turns : List (List Line)) (v : World) → Turns s n w turns v → Steps s w (events_in turns) v }
{}

/// A law: from lanes at rest, whatever the order of the pieces was so far, there are turns after which all is complete and
/// that show no fault.
pub fn runs_end()
    ensures { (s : Script) (n : ℕ) (w : World) → 1 ≤ s.head.burst → AreAtRest s 1 w.lanes → AreServed s 1 w.lanes → EndsInTurns s n w }
{}

/// A law: from one world an event leads to one world at most.
pub fn one_next_world()
    ensures { (s : Script) (w : World) (e : Line) (v u : World) → One s w e v → One s w e u → u ≡ v }
{}

/// A law: events can be cut into turns in one way only.
pub fn one_cut_into_turns()
    ensures { (s : Script) (n : ℕ) (w : World) (turns others : List (List Line)) (v u : World) →
        Turns s n w turns v → Turns s n w others u → events_in turns ≡ events_in others → others ≡ turns }
{}
