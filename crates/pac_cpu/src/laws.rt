//! Laws of the processor's part of a step, for whoever joins two ways of seeing one bus.

ghost use Rattle.std.specs.Prelude.{◌≡◌, ℕ, Option};
ghost use Rattle.pac_bus.specs.Action.{Action};
ghost use Rattle.pac_exec.specs.declared.regs.Regs.{Regs};
ghost use Rattle.pac_cpu.specs.StepLaws.{CpuStepRestsOnAnswers, EachCpuStepIsInTime};
ghost use Rattle.pac_cpu.specs.StepLaws.{surroundings_of};
ghost use Rattle.pac_cpu.specs.Step.{cpu_step};
ghost use Rattle.pac_cpu.specs.StepReadsLaws.{CpuStepRestsOnReads};
ghost use Rattle.pac_cpu.specs.StepRefresh.{StepLeavesRefresh};

use pac_bus::Bus;

/// A step rests on the answers to its questions alone.
pub fn cpu_step_rests_on_answers()
    ensures { CpuStepRestsOnAnswers }
{}

/// A step rests on no other cells than its code and those that it reads as data.
pub fn cpu_step_rests_on_reads()
    ensures { CpuStepRestsOnReads }
{}

/// A step that leaves R comes to the same with another.
pub fn step_leaves_refresh()
    ensures { StepLeavesRefresh }
{}

/// A step that is no stop takes 4 to 23 T-states.
pub fn each_cpu_step_is_in_time()
    ensures { EachCpuStepIsInTime }
{}

/// The processor's part is the same over a bus and over any view of it that keeps what is read, what the
/// ports give and what writes and outputs make.
pub fn cpu_step_commutes_with_views<From: Bus, To: Bus>()
    ensures { (view : From → To)
        → ((bus : From) (at : ℕ) → From.byte_at bus at ≡ To.byte_at (view bus) at)
        → ((bus : From) (port : ℕ) → From.input_at bus port ≡ To.input_at (view bus) port)
        → ((bus : From) (action : Action) → view (From.after bus action)
        ≡ To.after (view bus) action)
        → (bus : From) (regs : Regs) (request : Option ℕ)
        → cpu_step (surroundings_of From.byte_at From.input_at From.after bus) regs request
        ≡ cpu_step (surroundings_of To.byte_at To.input_at To.after (view bus)) regs request }
{}
