ghost use Rattle.std.specs.Prelude.{List};
ghost use Rattle.gateway.specs.Gateways.{Seen, IsBlank};
ghost use Rattle.gateway.specs.Laws.{Event, Chain, Lawful, IsSole, IsToldAlike};

/// What holds of every series of calls of a gateway that was new, by whomever and with whatever arguments they are made,
/// refused ones included: calls that keep the clauses `step` of their contracts make a chain. And no other answers would
/// do. It does nothing: an owner who makes calls of his own takes the law from its contract.
pub fn laws()
    ensures lawful { (first last : Seen) (events : List Event)
        → IsBlank first → Chain first events last → Lawful events }
    ensures sole { (first last : Seen) (events : List Event)
        → Chain first events last → IsSole first events last }
    ensures alike { (first last : Seen) (events : List Event)
        → IsBlank first → Chain first events last → IsToldAlike first events }
{}
