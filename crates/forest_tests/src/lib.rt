#![tactic(auto)]

// Plans of automata whose trees, codes and shadows are worked out by hand.

#[cfg(test)]
mod tests {
    use automaton::words::Automaton;
    use forest::plan::{Placement, Plan};
    use std::alloc::{AllocError, Global};
    use std::process::Abort;
    use std::test::Fail;
    use ternary::refusal::Refusal;
    use ternary::words::{StateCode, StateNo};

    // An automaton by its kind, with the number of its states beside it.
    #[derive(Clone, Copy)]
    enum Kind {
        // marks each "ab"
        Ab,
        // every byte leads to this state
        AllTo(u16),
        // on byte b the state s goes to q + 1 where q = b / 8 is below s, else to 0
        Chain,
        // on each byte a state goes to the next of three
        Round,
        // the low and the high bytes lead to the states 0 and 1
        Halves,
        // byte 0 leads the states 1 and 2 to the state 1, and all else leads to the state 0
        Apart,
        // the bytes below this lead to the state 0, and all else leads back
        Below(u16),
        // four states in a cycle: 0 and 1 share 90 bytes, 1 and 2 share 70, 2 and 3 share 50, 0 and 3 share 40
        Cycle,
    }

    fn successor(kind: Kind, state: u16, byte: u16) -> u16 {
        match kind {
            Kind::Ab => match (state, byte) {
                (_, 0x61) => 1,
                (1, 0x62) => 2,
                _ => 0,
            },
            Kind::AllTo(next) => next,
            Kind::Chain => { if byte / 8 < state { byte / 8 + 1 } else { 0 } }
            Kind::Round => [1, 2, 0][state as usize % 3],
            Kind::Halves => byte / 128,
            Kind::Apart => { if byte == 0 && state > 0 { 1 } else { 0 } }
            Kind::Below(end) => { if byte < end { 0 } else { state } }
            Kind::Cycle => match (byte, state) {
                (0..=89, 0 | 1) | (210..=249, 0 | 3) => 0,
                (90..=159, 1 | 2) => 1,
                (160..=209, 2 | 3) => 2,
                _ => state,
            },
        }
    }

    // The plan of an automaton whose states are all of class 5, with so many numbers of working memory.
    fn planned(
        heap: Global,
        kind: Kind,
        states: u16,
        room: usize,
    ) -> Result<Result<Plan, Refusal>, AllocError> {
        let mut successors = Vec::new(heap);
        for place in 0..256 * states as usize {
            let next = successor(kind, (place / 256) as u16, (place % 256) as u16);
            successors.push(StateNo(next))?;
        }
        let classes = vec![in heap; 5; states as usize]?;
        let mut work = vec![in heap; 7; room]?;
        let automaton = Automaton {
            states,
            start: StateNo(0),
            successors: successors.as_slice(),
            classes: classes.as_slice(),
        };
        Ok(Plan::of(automaton, work.as_mut_slice()))
    }

    // A root with its code and the mask of its shadow.
    fn root(code: u16, mask: u16) -> Placement {
        Placement {
            parent: None,
            depth: 0,
            code: StateCode(code),
            mask,
        }
    }

    // A state that defers to another, so many steps from its root.
    fn below(parent: u16, depth: u16, code: u16, mask: u16) -> Placement {
        Placement {
            parent: Some(StateNo(parent)),
            depth,
            code: StateCode(code),
            mask,
        }
    }

    // The least working memory for so many states.
    fn least_room(states: u16) -> usize {
        states as usize * states as usize + 8192
    }

    // Passes a plan that has this width and these places, and no place behind them.
    fn check_plan(
        rt: &impl Abort,
        heap: Global,
        kind: Kind,
        width: u8,
        places: &[Placement],
    ) -> Result<(), Fail> {
        let states = places.len().min(512) as u16;
        let Ok(plan) = planned(heap, kind, states, least_room(states))? else {
            assert!(rt; false);
            return Ok(());
        };
        assert_eq!(rt; plan.states(), states);
        assert_eq!(rt; plan.width(), width);
        for (s, place) in places.iter().enumerate() {
            assert_eq!(rt; plan.placement(StateNo(s.min(512) as u16)), Some(*place));
        }
        assert_eq!(rt; plan.placement(StateNo(states)), None);
        assert_eq!(rt; plan.placement(StateNo(65535)), None);
        Ok(())
    }

    #[test]
    fn plans_small_automata(rt: HostRuntime) -> Result<(), Fail> {
        let heap = rt.alloc();
        // the states 0 and 2 share 256 bytes, the others 255, and 255 bytes lead from the state 0 to itself
        check_plan(
            &rt,
            heap,
            Kind::Ab,
            2,
            &[root(0, 0), below(0, 1, 1, 3), below(0, 1, 2, 3)],
        )?;
        check_plan(&rt, heap, Kind::AllTo(0), 0, &[root(0, 0)])?;
        // no byte is shared though all states are of one class
        check_plan(
            &rt,
            heap,
            Kind::Round,
            2,
            &[root(0, 3), root(1, 3), root(2, 3)],
        )?;
        // 128 bytes lead back from either state: the lower one is the root
        check_plan(&rt, heap, Kind::Halves, 1, &[root(0, 0), below(0, 1, 1, 1)])?;
        // 31 shared bytes do not join two states, and 32 do
        check_plan(&rt, heap, Kind::Below(31), 1, &[root(0, 1), root(1, 1)])?;
        check_plan(
            &rt,
            heap,
            Kind::Below(32),
            1,
            &[root(0, 0), below(0, 1, 1, 1)],
        )
    }

    // Of a cycle's four pairs the one that shares least is left out, and the others form a chain.
    #[test]
    fn leaves_out_the_pair_that_shares_least(rt: HostRuntime) -> Result<(), Fail> {
        let places = [
            root(0, 0),
            below(0, 1, 4, 4),
            below(1, 2, 6, 6),
            below(2, 3, 7, 7),
        ];
        check_plan(&rt, rt.alloc(), Kind::Cycle, 3, &places)
    }

    // Where pairs share equally many bytes, the lower smaller state comes first, then the lower larger one.
    #[test]
    fn joins_lower_numbers_first(rt: HostRuntime) -> Result<(), Fail> {
        let heap = rt.alloc();
        // all share 256 bytes: (0, 1) and (0, 2) are joined, and the root is 1; not (1, 2), by which 2 would defer to 1
        check_plan(
            &rt,
            heap,
            Kind::AllTo(1),
            2,
            &[below(1, 1, 2, 2), root(0, 0), below(0, 2, 3, 3)],
        )?;
        // (1, 2) share 256 bytes; of (0, 1) and (0, 2), which share 255, the first is joined, so that 2 defers to 1
        check_plan(
            &rt,
            heap,
            Kind::Apart,
            2,
            &[root(0, 0), below(0, 1, 2, 2), below(1, 2, 3, 3)],
        )
    }

    // Each state defers to the one before: the prefix of the state s is s ones, in 16 bits.
    #[test]
    fn plans_a_chain_of_17_states(rt: HostRuntime) -> Result<(), Fail> {
        let Ok(plan) = planned(rt.alloc(), Kind::Chain, 17, least_room(17))? else {
            assert!(rt; false);
            return Ok(());
        };
        assert_eq!(rt; plan.width(), 16);
        assert_eq!(rt; plan.placement(StateNo(0)), Some(root(0, 0)));
        let mut ones = 0;
        for s in 1..17 {
            ones = ones / 2 | 0x8000;
            assert_eq!(rt;
                plan.placement(StateNo(s)),
                Some(below(s - 1, s, ones, ones))
            );
        }
        assert_eq!(rt; ones, 65535);
        assert_eq!(rt; plan.placement(StateNo(17)), None);
        Ok(())
    }

    // One state more would need 17 bits: nothing is joined, and 5 bits number the states.
    #[test]
    fn plans_a_chain_of_18_states_flat(rt: HostRuntime) -> Result<(), Fail> {
        let Ok(plan) = planned(rt.alloc(), Kind::Chain, 18, least_room(18))? else {
            assert!(rt; false);
            return Ok(());
        };
        assert_eq!(rt; plan.width(), 5);
        for s in 0..18 {
            assert_eq!(rt; plan.placement(StateNo(s)), Some(root(s, 31)));
        }
        assert_eq!(rt; plan.placement(StateNo(18)), None);
        Ok(())
    }

    // 511 states defer to the state 0, which numbers them in 9 bits.
    #[test]
    fn plans_512_states(rt: HostRuntime) -> Result<(), Fail> {
        let Ok(plan) = planned(rt.alloc(), Kind::AllTo(0), 512, 270_336)? else {
            assert!(rt; false);
            return Ok(());
        };
        assert_eq!(rt; plan.states(), 512);
        assert_eq!(rt; plan.width(), 9);
        assert_eq!(rt; plan.placement(StateNo(0)), Some(root(0, 0)));
        for s in 1..512 {
            assert_eq!(rt; plan.placement(StateNo(s)), Some(below(0, 1, s, 511)));
        }
        assert_eq!(rt; plan.placement(StateNo(512)), None);
        Ok(())
    }

    // What planning refuses, if it does.
    fn refused(heap: Global, states: u16, room: usize) -> Result<Option<Refusal>, AllocError> {
        match planned(heap, Kind::AllTo(0), states, room)? {
            Ok(_) => Ok(None),
            Err(refusal) => Ok(Some(refusal)),
        }
    }

    #[test]
    fn refuses_limits_before_memory(rt: HostRuntime) -> Result<(), Fail> {
        let heap = rt.alloc();
        let cases = [
            (0, 8192, Some(Refusal::BadAutomaton)),
            (513, 271_361, Some(Refusal::BadAutomaton)),
            (513, 0, Some(Refusal::BadAutomaton)),
            (512, 270_335, Some(Refusal::WorkTooShort)),
            (1, 8192, Some(Refusal::WorkTooShort)),
            (1, 8193, None),
        ];
        for (states, room, answer) in cases {
            assert_eq!(rt; refused(heap, states, room)?, answer);
        }
        Ok(())
    }
}
