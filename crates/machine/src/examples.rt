// Worked examples of the machine, computed by the check.
ghost use Rattle.machine.specs.Examples.{Worked};

// The short runs of specs/Examples give what is said there.
pub fn examples_hold()
    ensures { Worked }
{}
