// What the table of moves and the orders of refusals come to.
ghost use Rattle.std.specs.Prelude.{◌≡◌, ◌⊎◌, ◌↔◌, true, false, Some, None};
ghost use Rattle.arm_state.specs.declared.mode.Mode.{Mode};
ghost use Rattle.arm_state.specs.declared.mode.Mode.TheVariants as modes;
ghost use Rattle.arm_state.specs.declared.moves.Move.{Move};
ghost use Rattle.arm_state.specs.declared.moves.Move.TheVariants as moves;
ghost use Rattle.arm_state.specs.declared.refusal.SaveState.{SaveState};
ghost use Rattle.arm_state.specs.Modes.{is_disarming, has_ended, is_backed, accepts_writes};
ghost use Rattle.arm_state.specs.Moves.{mode_after};
ghost use Rattle.arm_state.specs.Refusals.{arm_refusal, disarm_refusal, save_refusal, HasNoneInTheWay, MayBegin};

/// How a mode is come by, other than by staying in it: each has its cause and the modes that it follows.
pub fn ways_into_a_mode()
    ensures disarmed { (x : Move) (m : Mode) → mode_after x m ≡ modes.Disarmed
        → (m ≡ modes.Disarmed) ⊎ ((x ≡ moves.EndSave) × (is_disarming m ≡ true)) }
    ensures armed { (x : Move) (m : Mode) → mode_after x m ≡ modes.Armed
        → (m ≡ modes.Armed) ⊎ ((x ≡ moves.Arm) × (m ≡ modes.Disarmed)) }
    ensures disarming { (x : Move) (m : Mode) → mode_after x m ≡ modes.Disarming
        → (m ≡ modes.Disarming) ⊎ (((x ≡ moves.Disarm) ⊎ (x ≡ moves.RunLow)) × (m ≡ modes.Armed)) }
    ensures stranded { (x : Move) (m : Mode) → mode_after x m ≡ modes.Stranded
        → (m ≡ modes.Stranded) ⊎ ((x ≡ moves.FailSave) × (m ≡ modes.Disarming)) }
    ensures closing { (x : Move) (m : Mode) → mode_after x m ≡ modes.Closing
        → (m ≡ modes.Closing) ⊎ ((x ≡ moves.CloseUnsaved) × (has_ended m ≡ false)) }
    ensures saved { (x : Move) (m : Mode) → mode_after x m ≡ modes.Saved
        → (m ≡ modes.Saved) ⊎ ((x ≡ moves.CloseSaved) × (is_backed m ≡ true)) }
{}

/// What a move does where it is one of the mode.
pub fn moves_of_a_mode()
    ensures arm { mode_after moves.Arm modes.Disarmed ≡ modes.Armed }
    ensures disarm { mode_after moves.Disarm modes.Armed ≡ modes.Disarming }
    ensures low { mode_after moves.RunLow modes.Armed ≡ modes.Disarming }
    ensures end { (m : Mode) → is_disarming m ≡ true → mode_after moves.EndSave m ≡ modes.Disarmed }
    ensures fail { mode_after moves.FailSave modes.Disarming ≡ modes.Stranded }
    ensures saved { (m : Mode) → is_backed m ≡ true → mode_after moves.CloseSaved m ≡ modes.Saved }
    ensures unsaved { (m : Mode) → has_ended m ≡ false
        → mode_after moves.CloseUnsaved m ≡ modes.Closing }
{}

/// Where arming, disarming and a save aren't refused.
pub fn refused_nothing()
    ensures arm { (m : Mode) (saves : SaveState)
        → (arm_refusal m saves ≡ None)
        ↔ ((m ≡ modes.Armed) ⊎ ((m ≡ modes.Disarmed) × HasNoneInTheWay saves)) }
    ensures disarm { (m : Mode) → (disarm_refusal m ≡ None) ↔ (accepts_writes m ≡ true) }
    ensures save { (m : Mode) (saves : SaveState)
        → (save_refusal m saves ≡ None) ↔ ((has_ended m ≡ false) × MayBegin m saves) }
{}
