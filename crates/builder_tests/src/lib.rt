#![tactic(auto)]

// Images built for small and large automata, and the refusals of a build. Every expected value is worked out by hand.
#[cfg(test)]
mod tests {
    use automaton::words::Automaton;
    use builder::build::build;
    use std::test::Fail;
    use table::check::check as check_image;
    use ternary::refusal::Refusal;
    use ternary::words::StateNo;

    // The image of the automaton that marks each "ab", and five bytes behind it that a build leaves.
    const AB: &[u8; 50] = b"\
        \x01\x00\x00\x00\x28\x02\x00\x03\x00\x00\x00\x03\
        \x00\x00\x00\x01\x00\x02\
        \x00\x01\x00\x03\x62\xff\x00\x02\x07\
        \x00\x00\x00\x00\x61\xff\x00\x01\x00\
        \x00\x00\x00\x00\x00\x00\x00\x00\x00\
        \x09\x09\x09\x09\x09";

    // The image of one state of class 4, which every byte leads back to: no code bit, and one entry of stars.
    const ALONE: &[u8; 23] = b"\
        \x01\x00\x00\x00\x12\x00\x00\x01\x00\x00\x00\x01\
        \x00\x00\
        \x00\x00\x00\x00\x00\x00\x00\x00\x04";

    // Automata by their successors.
    #[derive(Clone, Copy)]
    enum Kind {
        // "a" leads to state 1, "b" after it to state 2, all else to state 0
        Ab,
        // with q an eighth of the byte, to state q + 1 from the states above q, else to state 0
        Chain,
        // one byte leads on to the next of 512 states, all else to state 0
        Steps,
        // each byte leads on by itself, around 32 states
        Spread,
    }

    // The successor of a state on a byte.
    fn successor(kind: Kind, state: u16, byte: u8) -> u16 {
        let s = state % 512;
        let b = byte as u16;
        match kind {
            Kind::Ab => {
                if byte == b'a' {
                    1
                } else if byte == b'b' && s == 1 {
                    2
                } else {
                    0
                }
            }
            Kind::Chain => { if b / 8 < s { b / 8 + 1 } else { 0 } }
            Kind::Steps => { if b == s % 256 { (s + 1) % 512 } else { 0 } }
            Kind::Spread => (s + b) % 32,
        }
    }

    // Fills a buffer with the successors, state by state.
    fn fill(kind: Kind, successors: &mut [StateNo]) {
        for (i, next) in successors.iter_mut().enumerate() {
            let state = (i / 256 % 512) as u16;
            let byte = (i % 256) as u8;
            *next = StateNo(successor(kind, state, byte));
        }
    }

    // An automaton that starts at state 0.
    fn automaton<'a>(successors: &'a [StateNo], classes: &'a [u8]) -> Automaton<'a> {
        Automaton {
            states: (classes.len() % 1024) as u16,
            start: StateNo(0),
            successors,
            classes,
        }
    }

    // Builds into this output for the automaton that marks each "ab", with so many numbers of working memory.
    fn build_ab(numbers: usize, out: &mut [u8]) -> Result<usize, Refusal> {
        let mut successors = [StateNo(0); 768];
        fill(Kind::Ab, &mut successors);
        let mut work = [7; 8201];
        match work.get_mut(0..numbers) {
            Some(lent) => build(automaton(&successors, &[0, 0, 7]), lent, out),
            None => Err(Refusal::NotLoaded),
        }
    }

    #[test]
    fn builds_ab_and_leaves_the_bytes_behind(rt: HostRuntime) {
        let mut out = [9; 50];
        assert_eq!(rt; build_ab(8201, &mut out), Ok(45));
        assert!(rt; &out == AB);
    }

    #[test]
    fn takes_an_output_of_just_the_size(rt: HostRuntime) {
        let mut out = [9; 45];
        assert_eq!(rt; build_ab(8201, &mut out), Ok(45));
        assert!(rt; out[44] == 0);
        let mut short = [9; 44];
        assert_eq!(rt; build_ab(8201, &mut short), Err(Refusal::OutputTooShort));
        assert!(rt; short == [9; 44]);
    }

    // Builds into 37,900 bytes, which always suffice, and checks the image; answers its size and its code bits.
    fn built(automaton: Automaton<'_>) -> Result<(usize, u8), Refusal> {
        let mut work = [7; 270336];
        let mut out = [9; 37900];
        let size = build(automaton, &mut work, &mut out)?;
        match out.get(0..size) {
            Some(image) => check_image(automaton, image)?,
            None => return Err(Refusal::NotLoaded),
        }
        Ok((size, out[5]))
    }

    // With the root at one end 17 states in a chain need 16 code bits. Each state has one entry: the eight bytes on
    // which it differs from the state before it, and for the root all bytes.
    #[test]
    fn builds_a_chain_of_17(rt: HostRuntime) -> Result<(), Fail> {
        let mut successors = [StateNo(0); 4352];
        fill(Kind::Chain, &mut successors);
        let (size, width) = built(automaton(&successors, &[3; 17]))?;
        assert_eq!(rt; width, 16);
        assert_eq!(rt; size, 12 + 2 * 17 + 9 * 17);
        Ok(())
    }

    // 18 would need 17 code bits, so they are built flat. The state s has an entry for each of its s + 1 successors.
    #[test]
    fn builds_a_chain_of_18_flat(rt: HostRuntime) -> Result<(), Fail> {
        let mut successors = [StateNo(0); 4608];
        fill(Kind::Chain, &mut successors);
        let (size, width) = built(automaton(&successors, &[3; 18]))?;
        assert_eq!(rt; width, 5);
        assert_eq!(rt; size, 12 + 2 * 18 + 9 * 171);
        Ok(())
    }

    #[test]
    fn builds_one_state(rt: HostRuntime) {
        let mut work = [7; 8193];
        let mut out = [9; 23];
        let alone = automaton(&[StateNo(0); 256], &[4]);
        assert_eq!(rt; build(alone, &mut work, &mut out), Ok(23));
        assert!(rt; &out == ALONE);
    }

    // State 511, which every byte leaves for state 0, shares 255 bytes with each other state, and so do states 256
    // apart. So the root, 0, has the children 256 and 511; that has 1 to 255, and the states s of these but the last
    // have one child each, s + 256: 2, 8 and 1 bits. The root has two entries, and each other state one.
    #[test]
    fn builds_512_states(rt: HostRuntime) -> Result<(), Fail> {
        let mut successors = [StateNo(0); 131072];
        fill(Kind::Steps, &mut successors);
        let (size, width) = built(automaton(&successors, &[1; 512]))?;
        assert_eq!(rt; width, 11);
        assert_eq!(rt; size, 12 + 2 * 512 + 9 * 513);
        Ok(())
    }

    // What a build answers, if it leaves the output as it was.
    fn refused(automaton: Automaton<'_>, work: &mut [u32]) -> Result<usize, Refusal> {
        let mut out = [9; 11];
        let answer = build(automaton, work, &mut out);
        if out == [9; 11] {
            answer
        } else {
            Err(Refusal::NotLoaded)
        }
    }

    // Each refusal beside all that come after it: no state, then a working memory one too short, then 32 states of
    // 249 entries each, and then an output of eleven bytes.
    #[test]
    fn refuses_in_sequence(rt: HostRuntime) {
        let mut successors = [StateNo(0); 8192];
        fill(Kind::Spread, &mut successors);
        let spread = automaton(&successors, &[0; 32]);
        let mut work = [7; 9215];
        let none = automaton(&[], &[]);
        assert_eq!(rt; refused(none, &mut work), Err(Refusal::BadAutomaton));
        assert_eq!(rt; refused(spread, &mut work), Err(Refusal::WorkTooShort));
        assert!(rt; work == [7; 9215]);
        let mut enough = [7; 9216];
        assert_eq!(rt; refused(spread, &mut enough), Err(Refusal::TooManyEntries));
        let alone = automaton(&[StateNo(0); 256], &[4]);
        assert_eq!(rt; refused(alone, &mut work), Err(Refusal::OutputTooShort));
    }
}
