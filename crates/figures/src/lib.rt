// Figures that a reader can compute by hand.
#![tactic(auto)]

ghost use Rattle.figures.specs.Figures.{Figures};

// Every figure of the list holds.
pub fn figures_hold()
    ensures { Figures }
{}
