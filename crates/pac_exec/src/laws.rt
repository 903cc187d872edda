//! Laws of what instructions do, for whoever watches what they read.

ghost use Rattle.pac_exec.specs.CellsReadLaws.{EffectRestsOnReads};
ghost use Rattle.pac_exec.specs.Refresh.{RefreshIsLeft};

/// An instruction rests on no cells but those that it reads.
pub fn effect_rests_on_reads()
    ensures { EffectRestsOnReads }
{}

/// An effect that leaves R comes to the same with another R.
pub fn refresh_is_left()
    ensures { RefreshIsLeft }
{}
