ghost use Rattle.std.specs.Prelude.{ℕ, List};
ghost use Rattle.aseba_vm.specs.State.{State};
ghost use Rattle.aseba_debug.specs.declared.command.Command.{Command};
ghost use Rattle.aseba_debug.specs.Breaks.{AreBreaks};
ghost use Rattle.aseba_debug.specs.Commanded.{commanded};
ghost use Rattle.aseba_debug.specs.Worked.{SixteenBreakpoints};

/// No command makes the breakpoints more than sixteen, or sets one twice.
pub fn at_most_sixteen()
    ensures { (command : Command) (machine : State) (breaks : List ℕ)
        → AreBreaks breaks → AreBreaks (commanded command machine breaks).2 }
{}

/// Behind sixteen breakpoints there is no place for another one, and they stay as they are.
pub fn sixteen_breakpoints()
    ensures { SixteenBreakpoints }
{}
