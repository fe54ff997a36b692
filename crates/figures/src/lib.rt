#![tactic(auto)]

//! Figures about the rules that were worked out by hand, as proved facts.
ghost use Rattle.figures.specs.Figures.{Figures};
ghost use Rattle.figures.specs.PairFigures.{PairFigures};

// The figures hold of the definitions that the contracts of all calls speak of. Calling this does nothing.
pub fn figures()
    ensures { Figures }
{}

/// The figures about two bytes in one search hold of the definitions that the contracts of these calls speak of. Calling
/// this does nothing.
pub fn pair_figures()
    ensures { PairFigures }
{}
