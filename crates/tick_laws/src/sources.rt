//! Laws of sources: how the blocks of a feed change them.

ghost use Rattle.std.specs.Prelude.{◌≡◌, ℕ, suc, slice_index_or};
ghost use Rattle.tick_laws.specs.Reached.{KeepsRules};
ghost use Rattle.tick_model.specs.Tables.{no_table};
ghost use Rattle.tick_model.specs.Sources.{HasTables, source_ticks, sources, tick_at};
ghost use Rattle.tick_model.specs.Updates.{IsTick};
ghost use Rattle.tick_model.specs.declared.feed.Run.{Run};

/// While no batch breaks a rule, the change of each source at each step is a tick, also where several
/// blocks of the step change it.
pub fn sources_are_ticks()
    ensures { (run : Run) → HasTables run → (step : ℕ) → KeepsRules run step
        → (place : ℕ) → IsTick (tick_at (source_ticks run step) place) }
{}

/// It is from the source's table at the step before to its table at the step.
pub fn sources_go_from_step_to_step()
    ensures old { (run : Run) (step place : ℕ)
        → (tick_at (source_ticks run (suc step)) place).old ≡ slice_index_or (sources run step) place no_table }
    ensures new { (run : Run) (step place : ℕ)
        → (tick_at (source_ticks run step) place).new ≡ slice_index_or (sources run step) place no_table }
{}
