ghost use Rattle.pair_commission.specs.Laws.{EveryChainIsLawful};

/// What holds of every series of calls of a scanner that was new, by whomever and with whatever arguments they are made:
/// calls that keep the clauses of `load`, `feed` and `restart`, and find both cards as the call before left them, make a
/// chain. Calling this does nothing.
pub fn laws()
    ensures { EveryChainIsLawful }
{}
