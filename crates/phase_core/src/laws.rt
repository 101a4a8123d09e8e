// What is so in every state.
ghost use Rattle.std.specs.Prelude.{List};
ghost use Rattle.phase_core.specs.States.{empty_state};
ghost use Rattle.phase_core.specs.Steps.{Runs};
ghost use Rattle.phase_core.specs.Sound.{Sound};
ghost use Rattle.phase_core.specs.declared.event.Event.{Event};
ghost use Rattle.phase_core.specs.declared.state.CoreState.{CoreState as State};

/// Every state that events lead to from the empty one is sound.
pub fn sound()
    ensures { (events : List Event) (state : State) → Runs empty_state events state → Sound state }
{}
