#![tactic(auto)]

// Images checked against the automaton that marks each "ab". Every expected value is worked out by hand.
#[cfg(test)]
mod tests {
    use automaton::file::read;
    use automaton::words::Automaton;
    use image::writer::pack;
    use table::check::check as check_image;
    use ternary::entry::Entry;
    use ternary::refusal::Refusal;
    use ternary::words::{StateCode, StateNo};

    // The automaton: every "a" leads to state 1, "b" from state 1 to state 2 of class 7, all else to state 0.
    const FILE: &[u8; 40] = b"\
        \x01\x00\x00\x00\x23\x00\x03\x00\x00\
        \x00\x07\x00\x00\x00\x61\x61\x00\x01\
        \x00\x0b\x00\x00\x00\x61\x61\x00\x01\x62\x62\x00\x02\
        \x00\x07\x07\x00\x00\x61\x61\x00\x01";

    // Its image: two code bits, three states, three entries.
    const IMAGE: &[u8; 45] = b"\
        \x01\x00\x00\x00\x28\x02\x00\x03\x00\x00\x00\x03\
        \x00\x00\x00\x01\x00\x02\
        \x00\x01\x00\x03\x62\xff\x00\x02\x07\
        \x00\x00\x00\x00\x61\xff\x00\x01\x00\
        \x00\x00\x00\x00\x00\x00\x00\x00\x00";

    // The codes of its states.
    const CODES: [StateCode; 3] = [StateCode(0), StateCode(1), StateCode(2)];

    // What a check of these bytes answers.
    fn verdict(bytes: &[u8]) -> Result<(), Refusal> {
        let mut successors = [StateNo(0); 768];
        let mut classes = [0; 3];
        let header = read(FILE, &mut successors, &mut classes)?;
        let automaton = Automaton {
            states: header.states,
            start: header.start,
            successors: &successors,
            classes: &classes,
        };
        check_image(automaton, bytes)
    }

    // What a check of the image of these parts answers.
    fn checked(start: u16, codes: &[StateCode], entries: &[Entry]) -> Result<(), Refusal> {
        let mut bytes = [0; 100];
        let size = pack(2, StateNo(start), codes, entries, &mut bytes)?;
        match bytes.get(0..size) {
            Some(image) => verdict(image),
            None => Err(Refusal::OutputTooShort),
        }
    }

    // From code 1, "b" leads to code 2 with class 7.
    fn second_letter() -> Entry {
        Entry::new(1, 3, b'b', 255, StateCode(2), 7)
    }

    // From anywhere, "a" leads to code 1.
    fn first_letter() -> Entry {
        Entry::new(0, 0, b'a', 255, StateCode(1), 0)
    }

    // From anywhere, anything leads to code 0.
    fn otherwise() -> Entry {
        Entry::new(0, 0, 0, 0, StateCode(0), 0)
    }

    // One entry before the three.
    fn with_first(entry: Entry) -> Result<(), Refusal> {
        checked(
            0,
            &CODES,
            &[entry, second_letter(), first_letter(), otherwise()],
        )
    }

    #[test]
    fn accepts_its_image(rt: HostRuntime) {
        assert_eq!(rt; verdict(IMAGE), Ok(()));
        assert_eq!(rt;
            checked(0, &CODES, &[second_letter(), first_letter(), otherwise()]),
            Ok(())
        );
    }

    #[test]
    fn names_the_lowest_state_and_byte(rt: HostRuntime) {
        // the last two entries swapped: "a" leads to code 0
        assert_eq!(rt;
            checked(0, &CODES, &[second_letter(), otherwise(), first_letter()]),
            Err(Refusal::WrongEntry(StateNo(0), 0x61))
        );
        // the first removed: "b" after "a" leads to code 0
        assert_eq!(rt;
            checked(0, &CODES, &[first_letter(), otherwise()]),
            Err(Refusal::WrongEntry(StateNo(1), 0x62))
        );
        // both: the lower state first
        assert_eq!(rt;
            checked(0, &CODES, &[otherwise(), first_letter()]),
            Err(Refusal::WrongEntry(StateNo(0), 0x61))
        );
        // no entry for "a", and none for most bytes: the lowest byte first
        assert_eq!(rt;
            checked(0, &CODES, &[second_letter()]),
            Err(Refusal::WrongEntry(StateNo(0), 0))
        );
        assert_eq!(rt;
            checked(0, &CODES, &[]),
            Err(Refusal::WrongEntry(StateNo(0), 0))
        );
    }

    #[test]
    fn code_and_class_must_both_be_right(rt: HostRuntime) {
        // the class of the state that is left, and not of the one that is reached
        assert_eq!(rt;
            with_first(Entry::new(1, 3, b'b', 255, StateCode(2), 0)),
            Err(Refusal::WrongEntry(StateNo(1), 0x62))
        );
        // the class is right, the code is not
        assert_eq!(rt;
            with_first(Entry::new(1, 3, b'b', 255, StateCode(3), 7)),
            Err(Refusal::WrongEntry(StateNo(1), 0x62))
        );
        // the last place of all
        assert_eq!(rt;
            with_first(Entry::new(2, 3, 255, 255, StateCode(1), 0)),
            Err(Refusal::WrongEntry(StateNo(2), 0xff))
        );
        // wrong only for a code that no state has, or said once more: nothing else is asked
        assert_eq!(rt; with_first(Entry::new(3, 3, 0, 0, StateCode(3), 9)), Ok(()));
        assert_eq!(rt; with_first(second_letter()), Ok(()));
    }

    #[test]
    fn states_may_share_a_code(rt: HostRuntime) {
        let codes = [StateCode(0), StateCode(1), StateCode(0)];
        let marking = Entry::new(1, 3, b'b', 255, StateCode(0), 7);
        assert_eq!(rt;
            checked(0, &codes, &[marking, first_letter(), otherwise()]),
            Ok(())
        );
        // codes shared by states that do not go on alike
        assert_eq!(rt;
            checked(
                0,
                &[StateCode(1), StateCode(1), StateCode(2)],
                &[
                    second_letter(),
                    first_letter(),
                    Entry::new(0, 0, 0, 0, StateCode(1), 0),
                ],
            ),
            Err(Refusal::WrongEntry(StateNo(0), 0x62))
        );
    }

    // Each with all the later faults too.
    #[test]
    fn refuses_in_sequence(rt: HostRuntime) {
        let entries = [second_letter(), otherwise(), first_letter()];
        // one class too few for the automaton, and no image
        let automaton = Automaton {
            states: 1,
            start: StateNo(0),
            successors: &[StateNo(0); 256],
            classes: &[],
        };
        assert_eq!(rt; check_image(automaton, b""), Err(Refusal::BadAutomaton));
        // a wrong version, another start state, a wrong entry
        let mut bytes = *IMAGE;
        bytes[0] = 2;
        bytes[9] = 1;
        bytes[26] = 6;
        assert_eq!(rt; verdict(&bytes), Err(Refusal::Malformed(0)));
        // code 4 of two bits, for state 1
        bytes[0] = 1;
        bytes[15] = 4;
        assert_eq!(rt; verdict(&bytes), Err(Refusal::Malformed(14)));
        assert_eq!(rt; verdict(b""), Err(Refusal::Malformed(0)));
        // another start state, and a wrong entry
        bytes[15] = 1;
        assert_eq!(rt; verdict(&bytes), Err(Refusal::Mismatch));
        bytes[9] = 0;
        assert_eq!(rt; verdict(&bytes), Err(Refusal::WrongEntry(StateNo(1), 0x62)));
        assert_eq!(rt; checked(1, &CODES, &entries), Err(Refusal::Mismatch));
        // a state too few, or too many
        assert_eq!(rt;
            checked(0, &[StateCode(0), StateCode(1)], &entries),
            Err(Refusal::Mismatch)
        );
        assert_eq!(rt;
            checked(0, &[StateCode(0); 4], &entries),
            Err(Refusal::Mismatch)
        );
    }
}
