// Worked examples of playing a sheet, computed by the check.
ghost use Rattle.player.specs.Examples.{Examples};

// The sheets of specs/Examples print what is said there.
pub fn examples_hold()
    ensures { Examples }
{}
