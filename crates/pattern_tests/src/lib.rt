#![tactic(auto)]

// Pattern texts right and wrong, and the automata of small ones. Every expected value is worked out by hand.
#[cfg(test)]
mod tests {
    use automaton::words::Header;
    use compiler::compile::compile;
    use std::alloc::{AllocError, Global};
    use std::process::Abort;
    use std::test::Fail;
    use syntax::class::class_holds;
    use syntax::fault::fault;
    use syntax::places::place::Place;
    use ternary::refusal::Refusal;
    use ternary::words::StateNo;

    // A text, and the place of its first token that cannot follow those before it, or of its end.
    const FAULTS: [(&[u8], Option<usize>); 44] = [
        (b"a", None),
        (b"ab|c", None),
        (b"a(b|c)*d", None),
        (b"((a))", None),
        (b"(a*)*", None),
        (b"a+b?c*", None),
        (b".", None),
        (b"{},-^$", None), // these stand for themselves
        (b"\\|\\*\\+\\?\\.\\[\\]\\(\\)\\\\", None),
        (b"\\a", None), // a backslash may stand before any byte
        (b"[a]", None),
        (b"[a-z]+\\.|.", None),
        (b"[^a]", None),
        (b"[a-a]", None), // a range of one byte
        (b"[\\^\\-\\]\\\\]", None),
        (b"[|*+?.[()]", None), // none of these needs a backslash inside
        (b"[a\\-z]", None), // three bytes
        (b"[+-\\]]", None),
        (b"[\x00-\xff]", None),
        (b"\x00\xff", None),
        (b"", Some(0)), // an empty pattern
        (b"|a", Some(0)), // an empty branch
        (b"a||b", Some(2)), // the same
        (b"a|", Some(2)), // the same, at the end
        (b"*a", Some(0)), // nothing to repeat
        (b"a**", Some(2)), // two signs of repetition
        (b"a+?", Some(2)), // the same
        (b"(*a)", Some(1)),
        (b"a|*", Some(2)),
        (b"()", Some(1)), // an empty pattern in parentheses
        (b"(a|)", Some(3)),
        (b"(ab", Some(3)), // an open parenthesis
        (b"ab)", Some(2)), // none is open
        (b"ab]", Some(2)), // no class is open
        (b"ab\\", Some(2)), // a backslash at the end
        (b"a[]", Some(1)), // an empty class
        (b"a[^]", Some(1)),
        (b"a[b", Some(1)), // a class without its end
        (b"a[z-b]", Some(1)), // a falling range
        (b"a[b-]", Some(1)), // a range without its end
        (b"a[-b]", Some(1)), // a range without its beginning
        (b"a[b-d-f]", Some(1)),
        (b"a[b^]", Some(1)), // ^ inside needs a backslash
        (b"a[^\x00-\xff]", Some(1)), // no byte remains
    ];

    #[test]
    fn finds_the_first_token_that_cannot_follow(rt: HostRuntime) {
        for (text, place) in FAULTS {
            assert_eq!(rt; fault(text), place, "in {text:?}");
        }
    }

    // The text between the brackets of a class, a byte, and whether the class has it.
    const CLASSES: [(&[u8], u8, bool); 16] = [
        (b"a-cx", b'a', true),
        (b"a-cx", b'b', true),
        (b"a-cx", b'c', true), // the highest byte of a range
        (b"a-cx", b'x', true),
        (b"a-cx", b'd', false),
        (b"a-cx", b'-', false),
        (b"^a-cx", b'b', false),
        (b"^a-cx", b'd', true),
        (b"^a-cx", b'^', true),
        (b"^\\^", b'^', false),
        (b"\\^a", b'^', true),
        (b"\\^a", b'b', false),
        (b"a\\-z", b'-', true),
        (b"a\\-z", b'b', false),
        (b"a\\-z", b'\\', false),
        (b"+-\\]", b'\\', true), // from 2Bh to 5Dh
    ];

    #[test]
    fn tells_the_bytes_of_a_class(rt: HostRuntime) {
        for (text, byte, has) in CLASSES {
            assert_eq!(rt; class_holds(text, byte), has, "{byte} in {text:?}");
        }
    }

    // What a compiling answers, over buffers that had 9 throughout, and what they hold afterwards.
    #[derive(Drop)]
    struct Compiled {
        answer: Result<Header, Refusal>,
        successors: Vec<StateNo>,
        classes: Vec<u8>,
    }

    // Compiles the lines of a text into buffers for so many states.
    fn compile_lines(heap: Global, text: &[u8], states: u16) -> Result<Compiled, AllocError> {
        let mut places = Vec::new(heap);
        let mut start = 0;
        for line in text.split(|byte| *byte == b'\n') {
            places.push(Place {
                start,
                len: line.len(),
            })?;
            start = start.wrapping_add(line.len() + 1);
        }
        let states = states as usize;
        let mut successors = vec![in heap; StateNo(9); 256 * states]?;
        let mut classes = vec![in heap; 9; states]?;
        let answer = compile(
            text,
            places.as_slice(),
            successors.as_mut_slice(),
            classes.as_mut_slice(),
        );
        Ok(Compiled {
            answer,
            successors,
            classes,
        })
    }

    // The state that an input leads to, and its class; no state where the automaton has none.
    fn class_after(compiled: &Compiled, input: &[u8]) -> Option<u8> {
        let mut state = 0;
        for byte in input {
            let next = compiled
                .successors
                .get(256 * (state % 512) + *byte as usize)?;
            state = next.0 as usize;
        }
        compiled.classes.get(state).copied()
    }

    // The file of three states that mark each "ab" has the same successors.
    #[test]
    fn compiles_one_pattern(rt: HostRuntime) -> Result<(), Fail> {
        let compiled = compile_lines(rt.alloc(), b"ab", 4)?;
        let header = Header {
            states: 3,
            start: StateNo(0),
        };
        assert_eq!(rt; compiled.answer, Ok(header));
        for (place, next) in compiled.successors.iter().enumerate() {
            let want = match (place / 256, place % 256) {
                (3, _) => 9,
                (_, 0x61) => 1,
                (1, 0x62) => 2,
                _ => 0,
            };
            assert_eq!(rt; next.0, want, "at {place}");
        }
        assert_eq!(rt; compiled.classes.as_slice(), [0, 0, 1, 9].as_slice());
        Ok(())
    }

    // Patterns, one a line, an input, and its class.
    const INPUTS: [(&[u8], &[u8], u8); 25] = [
        (b"ab\nb", b"", 0),
        (b"ab\nb", b"a", 0),
        (b"ab\nb", b"ab", 1), // both have a word that ends here
        (b"ab\nb", b"abb", 2),
        (b"ab\nb", b"xb", 2),
        (b"a*", b"", 1), // the empty word
        (b"a*", b"x", 1),
        (b"x\na*", b"", 2),
        (b"x\na*", b"x", 1),
        (b"x\na*", b"xy", 2),
        (b"a+b", b"b", 0), // not the empty word
        (b"a+b", b"aab", 1),
        (b"a?b", b"b", 1),
        (b".b", b"b", 0),
        (b".b", b"bb", 1),
        (b"(ab)+c", b"ababc", 1),
        (b"(ab)+c", b"abbc", 0),
        (b"(ab)+c", b"bababc", 1), // a match may begin anywhere
        (b"(a|bc)*d", b"bcad", 1),
        (b"(a|bc)*d", b"cd", 1), // d alone
        (b"x(a|bc)*d", b"xcd", 0),
        (b"[^a-c]", b"b", 0),
        (b"[^a-c]", b"d", 1),
        (b"a\\*", b"a*", 1),
        (b"a\\*", b"aa", 0),
    ];

    #[test]
    fn marks_the_lowest_pattern(rt: HostRuntime) -> Result<(), Fail> {
        for (text, input, class) in INPUTS {
            let compiled = compile_lines(rt.alloc(), text, 20)?;
            assert!(rt; compiled.answer.is_ok(), "{text:?}");
            assert_eq!(rt;
                class_after(&compiled, input),
                Some(class),
                "{text:?} on {input:?}"
            );
        }
        Ok(())
    }

    // Patterns at their limits, one a line, each a text between two others that stand so many times, and the answer: the number
    // of states or the refusal.
    const LIMITS: [(&[u8], usize, &[u8], &[u8], usize, Result<u16, Refusal>); 14] = [
        (b"a\n", 31, b"a", b"", 0, Ok(2)), // 32 patterns
        (b"a\n", 32, b"a", b"", 0, Err(Refusal::PatternsTooLarge)),
        (b"a", 255, b"a", b"", 0, Ok(257)), // 256 positions
        (b"a", 256, b"a", b"", 0, Err(Refusal::PatternsTooLarge)),
        (b"(", 32, b"a", b")", 32, Ok(2)), // 32 deep
        (b"(", 33, b"a", b")", 33, Err(Refusal::PatternsTooLarge)),
        // a set for each choice of which of the last nine bytes were a
        (b"", 0, b"a", b".", 8, Ok(512)),
        (b"", 0, b"a", b".", 9, Err(Refusal::TooManySets)),
        // the same sets, each with one position more, and the empty one
        (b"", 0, b".*a", b".", 8, Err(Refusal::TooManySets)),
        (b"a\n", 32, b"a", b".", 9, Err(Refusal::PatternsTooLarge)), // 20 before 21
        (
            b"a\n",
            32,
            b"a**",
            b"",
            0,
            Err(Refusal::WrongPattern(33, 2)),
        ), // 19 before 20
        (
            b"a\n",
            3,
            b"a**\n*",
            b"",
            0,
            Err(Refusal::WrongPattern(4, 2)),
        ), // the first
        (b"a\n", 3, b"", b"", 0, Err(Refusal::WrongPattern(4, 0))),
        (b"(", 33, b"a", b")", 32, Err(Refusal::WrongPattern(1, 66))),
    ];

    // A text between two others that stand so many times.
    fn repeated(
        heap: Global,
        before: &[u8],
        times: usize,
        middle: &[u8],
        after: &[u8],
        times_after: usize,
    ) -> Result<Vec<u8>, AllocError> {
        let mut text = Vec::new(heap);
        for _round in 0..times {
            text.extend_from_slice(before)?;
        }
        text.extend_from_slice(middle)?;
        for _round in 0..times_after {
            text.extend_from_slice(after)?;
        }
        Ok(text)
    }

    #[test]
    fn keeps_its_limits(rt: HostRuntime) -> Result<(), Fail> {
        let heap = rt.alloc();
        for (before, times, middle, after, times_after, want) in LIMITS {
            let text = repeated(heap, before, times, middle, after, times_after)?;
            let compiled = compile_lines(heap, text.as_slice(), 512)?;
            let answer = compiled.answer.map(|header| header.states);
            assert_eq!(rt; answer, want, "{times} times {before:?}, {middle:?}");
        }
        Ok(())
    }

    // Places of patterns in the buffer "ab**", room for so many successors and classes, and the refusal.
    const PLACES: [(&[Place], usize, usize, Refusal); 8] = [
        (&[], 768, 3, Refusal::PatternsTooLarge),
        (
            &[Place { start: 0, len: 5 }],
            768,
            3,
            Refusal::OutsideBuffer,
        ),
        (
            &[Place { start: 5, len: 0 }],
            768,
            3,
            Refusal::OutsideBuffer,
        ), // empty, and outside
        (
            &[Place { start: 4, len: 0 }],
            768,
            3,
            Refusal::WrongPattern(1, 0),
        ), // empty, at the end
        (
            &[Place { start: 1, len: 3 }, Place { start: 3, len: 2 }],
            768,
            3,
            Refusal::OutsideBuffer, // 14 before 19
        ),
        (
            &[Place {
                start: usize::MAX,
                len: 1,
            }],
            768,
            3,
            Refusal::OutsideBuffer,
        ),
        (
            &[Place { start: 0, len: 2 }],
            767,
            3,
            Refusal::OutputTooShort,
        ),
        (
            &[Place { start: 0, len: 2 }],
            768,
            2,
            Refusal::OutputTooShort,
        ),
    ];

    #[test]
    fn refuses_in_order_and_leaves_the_buffers(rt: HostRuntime) {
        for (places, successors_room, classes_room, why) in PLACES {
            let mut successors = [StateNo(9); 768];
            let mut classes = [9; 3];
            let answer = compile(
                b"ab**",
                places,
                &mut successors[..successors_room],
                &mut classes[..classes_room],
            );
            assert_eq!(rt; answer, Err(why));
            assert!(rt; successors.iter().all(|next| next.0 == 9));
            assert_eq!(rt; classes, [9; 3]);
        }
    }
}
