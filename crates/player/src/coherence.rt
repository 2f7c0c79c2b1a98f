// Coherence, of every sheet.
ghost use Rattle.player.specs.Coherently.{AllCoherent};

use machine::coherence::coherent;

// Whatever a sheet's bytes are, what specs/Coherently states of playing it holds.
pub fn played_coherently()
    ensures { AllCoherent }
{
    coherent();
}
