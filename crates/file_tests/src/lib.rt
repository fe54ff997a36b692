#![tactic(auto)]

// Automaton files written out byte by byte, with what the rules say of them worked out by hand.

#[cfg(test)]
mod tests {
    use automaton::file::read;
    use automaton::words::{Automaton, Header};
    use printed::summary::summary_line;
    use std::alloc::{AllocError, Global};
    use std::test::Fail;
    use ternary::refusal::Refusal;
    use ternary::words::StateNo;

    // Three states that mark each "ab": the records begin at 9, 18 and 31.
    const AB: &[u8; 40] = b"\
        \x01\x00\x00\x00\x23\x00\x03\x00\x00\
        \x00\x07\x00\x00\x00\x61\x61\x00\x01\
        \x00\x0b\x00\x00\x00\x61\x61\x00\x01\x62\x62\x00\x02\
        \x00\x07\x07\x00\x00\x61\x61\x00\x01";

    // One byte of the file changed, and the offset at which it is then refused.
    const BROKEN: [(usize, u8, usize); 26] = [
        (0, 0x00, 0), // version 0
        (0, 0x02, 0), // version 2
        (4, 0x22, 1), // the rest is longer than said
        (4, 0x24, 1), // the rest is shorter than said
        (1, 0x01, 1), // the highest byte of the length counts
        (6, 0x00, 5), // no state
        (5, 0x02, 5), // 515 states
        (8, 0x03, 7), // the start is no state
        (10, 0x06, 9), // a length that is not 3 plus a multiple of 4
        (10, 0x08, 9),
        (10, 0xff, 9), // a record beyond the file
        (9, 0x7f, 9),
        (13, 0x03, 12), // a default that is no state
        (14, 0x62, 14), // a range that ends before it begins
        (17, 0x03, 16), // a successor that is no state
        (19, 0x0a, 18), // the same in the second record
        (22, 0x03, 21),
        (27, 0x63, 27),
        (30, 0x03, 29),
        (32, 0x0b, 31), // the last record beyond the file
        (35, 0x09, 34),
        (36, 0x62, 36),
        (39, 0x03, 38),
        (32, 0x03, 36), // the last record ends early: bytes after it
        (6, 0x02, 29), // two states, and a successor 2
        (6, 0x04, 40), // four states, and no fourth record
    ];

    #[test]
    fn names_the_first_wrong_field(rt: HostRuntime) {
        for (index, value, offset) in BROKEN {
            let mut file = *AB;
            if index < 40 {
                file[index] = value;
            }
            let mut successors = [StateNo(9); 1024];
            let mut classes = [9; 4];
            assert_eq!(rt;
                read(&file, &mut successors, &mut classes),
                Err(Refusal::Malformed(offset))
            );
        }
    }

    // A file that is cut short is refused at its length below 9 bytes, and then at the length of the rest.
    #[test]
    fn refuses_files_cut_short(rt: HostRuntime) {
        let file = *AB;
        for len in 0..40 {
            let mut successors = [StateNo(9); 768];
            let mut classes = [9; 3];
            let offset = if len < 9 { len } else { 1 };
            assert_eq!(rt;
                read(&file[0..len], &mut successors, &mut classes),
                Err(Refusal::Malformed(offset))
            );
        }
    }

    #[test]
    fn reads_the_example(rt: HostRuntime) {
        let mut successors = [StateNo(9); 769];
        let mut classes = [9; 4];
        let header = Header {
            states: 3,
            start: StateNo(0),
        };
        assert_eq!(rt; read(AB, &mut successors, &mut classes), Ok(header));
        assert!(rt; &classes[0..4] == &[0, 0, 7, 9][0..4]);
        let rows = [
            (0x61, 1),
            (0x62, 0),
            (256 + 0x61, 1),
            (256 + 0x62, 2),
            (512 + 0x61, 1),
            (512 + 0x62, 0),
            (768, 9),
        ];
        for (place, state) in rows {
            assert!(rt; place < 769 && successors[place].0 == state);
        }
        let mut few = [StateNo(9); 767];
        assert_eq!(rt;
            read(AB, &mut few, &mut classes),
            Err(Refusal::OutputTooShort)
        );
        let mut two = [9; 2];
        assert_eq!(rt;
            read(AB, &mut successors, &mut two),
            Err(Refusal::OutputTooShort)
        );
    }

    // A file of states with no range, each going to the state 0.
    fn plain(heap: Global, states: u16, last_class: u8) -> Result<Vec<u8>, AllocError> {
        let rest = 4 + 5 * states as u32;
        let mut file = Vec::new(heap);
        file.push(1)?;
        file.extend_from_slice(&rest.to_be_bytes())?;
        file.extend_from_slice(&states.to_be_bytes())?;
        file.extend_from_slice(&[0, 0])?;
        for state in 0..states {
            let class = if state + 1 == states { last_class } else { 0 };
            file.extend_from_slice(&[0, 3, class, 0, 0])?;
        }
        Ok(file)
    }

    #[test]
    fn reads_512_states_and_refuses_513(rt: HostRuntime) -> Result<(), Fail> {
        let heap = rt.alloc();
        let mut successors = vec![in heap; StateNo(9); 131_328]?;
        let mut classes = vec![in heap; 9; 513]?;
        let most = plain(heap, 512, 255)?;
        let header = Header {
            states: 512,
            start: StateNo(0),
        };
        assert_eq!(rt;
            read(
                most.as_slice(),
                successors.as_mut_slice(),
                classes.as_mut_slice(),
            ),
            Ok(header)
        );
        let more = plain(heap, 513, 255)?;
        assert_eq!(rt;
            read(
                more.as_slice(),
                successors.as_mut_slice(),
                classes.as_mut_slice(),
            ),
            Err(Refusal::Malformed(5))
        );
        Ok(())
    }

    #[test]
    fn limits_are_512_states(rt: HostRuntime) -> Result<(), Fail> {
        let heap = rt.alloc();
        let successors = vec![in heap; StateNo(0); 131_328]?;
        let classes = vec![in heap; 0; 513]?;
        for (states, answer) in [
            (0, Err(Refusal::BadAutomaton)),
            (512, Ok(())),
            (513, Err(Refusal::BadAutomaton)),
        ] {
            let count = states as usize;
            if count <= 513 {
                let automaton = Automaton {
                    states,
                    start: StateNo(0),
                    successors: &successors.as_slice()[0..256 * count],
                    classes: &classes.as_slice()[0..count],
                };
                assert_eq!(rt; automaton.limits(), answer);
            }
        }
        Ok(())
    }

    // The lines of the program: 64 states are printed and 65 are refused, 65,536 bytes are read and one more is
    // refused before all else.
    #[test]
    fn prints_lines(rt: HostRuntime) -> Result<(), Fail> {
        let heap = rt.alloc();
        assert!(rt; summary_line(heap, AB)?.as_str() == "3 states, start 0, 1 marking");
        assert!(rt; summary_line(heap, &[])?.as_str() == "refused 10 at 0");
        assert!(rt;
            summary_line(heap, plain(heap, 64, 1)?.as_slice())?.as_str()
                == "64 states, start 0, 1 marking"
        );
        assert!(rt; summary_line(heap, plain(heap, 65, 1)?.as_slice())?.as_str() == "refused 3");
        let long = vec![in heap; 0; 65_537]?;
        assert!(rt; summary_line(heap, &long.as_slice()[0..65_536])?.as_str() == "refused 10 at 0");
        assert!(rt; summary_line(heap, long.as_slice())?.as_str() == "refused 3");
        Ok(())
    }
}
