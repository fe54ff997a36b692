#![tactic(auto)]

// A gateway's rules by examples: refusals in their sequence, the cyclic order, parts in pieces, closes, loads, and lists of
// calls. Every expected value is worked out by hand.
#[cfg(test)]
mod tests {
    use automaton::words::Automaton;
    use card::list::ListCard;
    use card::rules::Card;
    use gateway::gateway::Gateway;
    use gateway::run::run;
    use gateway::words::{Answer, Call, Done, Filing, Part, Served, Turn};
    use std::alloc::{AllocError, Global};
    use std::process::Abort;
    use std::test::Fail;
    use ternary::entry::Entry;
    use ternary::refusal::Refusal;
    use ternary::words::{Mark, StateNo};

    // What a mark slot holds before a turn.
    const STALE: Mark = Mark { place: 9, class: 9 };

    // The table that marks each "ab" with class 7. After an "a" the code is 1, after the "b" of an "ab" it is 2, and else 0.
    const IMAGE: [u8; 45] = [
        1, 0, 0, 0, 40, 2, 0, 3, 0, 0, 0, 3, 0, 0, 0, 1, 0, 2, 0, 1, 0, 3, 98, 255, 0, 2, 7, 0, 0,
        0, 0, 97, 255, 0, 1, 0, 0, 0, 0, 0, 0, 0, 0, 0, 0,
    ];

    // A call of a gateway: a load with so many bytes of the image; a post of a place and a length; and a turn with a buffer,
    // mark slots and a quota.
    #[derive(Clone, Copy)]
    enum Ask {
        Load(usize),
        Open(u8),
        Post(u8, usize, usize),
        Turn(&'static [u8], usize, usize),
        Close(u8),
    }

    // The successors of the automaton that marks each "ab".
    fn successors() -> [StateNo; 768] {
        let mut successors = [StateNo(0); 768];
        successors[97] = StateNo(1);
        successors[256 + 97] = StateNo(1);
        successors[256 + 98] = StateNo(2);
        successors[512 + 97] = StateNo(1);
        successors
    }

    // Loads that automaton with the first bytes of its image.
    fn load<C: Card>(gateway: &mut Gateway<C>, bytes: usize) -> Result<(), Refusal> {
        let automaton = Automaton {
            states: 3,
            start: StateNo(0),
            successors: &successors(),
            classes: &[0, 0, 7],
        };
        gateway.load(automaton, IMAGE.get(..bytes).unwrap_or(&IMAGE))
    }

    // A turn, with the marks that it wrote. A turn that wrote other slots than it says is answered as accepted, which no turn
    // is expected to be.
    fn turn<C: Card>(
        gateway: &mut Gateway<C>,
        buffer: &[u8],
        mut marks: Vec<Mark>,
        quota: usize,
    ) -> Answer {
        let answer = gateway.turn(buffer, marks.as_mut_slice(), quota);
        let stale = marks.iter().filter(|mark| **mark == STALE).count();
        let written = marks.len().saturating_sub(stale);
        if written != marks_told(&answer) {
            return Ok(Done::Accepted);
        }
        match answer? {
            None => Ok(Done::Idle),
            Some(served) => {
                marks.truncate(written);
                Ok(Done::Served(served, marks))
            }
        }
    }

    // How many marks a turn says that it wrote.
    fn marks_told(answer: &Result<Option<Served>, Refusal>) -> usize {
        match answer {
            Ok(Some(served)) => match served.walk {
                Ok(progress) | Err(Refusal::NoEntry(progress)) => progress.marks,
                Err(_) => 0,
            },
            _ => 0,
        }
    }

    // Makes a call.
    fn answer<C: Card>(
        heap: Global,
        gateway: &mut Gateway<C>,
        ask: Ask,
    ) -> Result<Answer, AllocError> {
        let done = match ask {
            Ask::Load(bytes) => load(gateway, bytes),
            Ask::Open(coach) => gateway.open(coach),
            Ask::Post(coach, place, length) => gateway.post(coach, place, length),
            Ask::Close(coach) => gateway.close(coach),
            Ask::Turn(buffer, slots, quota) => {
                let marks = vec![in heap; STALE; slots]?;
                return Ok(turn(gateway, buffer, marks, quota));
            }
        };
        Ok(done.map(|()| Done::Accepted))
    }

    // An answer in words.
    fn text(heap: Global, answer: &Answer) -> Result<String, AllocError> {
        match answer {
            Err(why) => format!(in heap; "{why}"),
            Ok(Done::Accepted) => format!(in heap; "accepted"),
            Ok(Done::Idle) => format!(in heap; "none waits"),
            Ok(Done::Served(served, marks)) => match served.walk {
                Err(why) => format!(in heap; "{}: {why}", served.coach),
                Ok(progress) => {
                    let code = progress.code.0;
                    let mut text = format!(in heap;
                        "{}: {} to {code}",
                        served.coach, progress.taken
                    )?;
                    for mark in marks.iter() {
                        text = format!(in heap; "{text} {mark}")?;
                    }
                    Ok(text)
                }
            },
        }
    }

    // Makes the calls on a new gateway, and compares the answers.
    fn play(rt: &impl Abort, heap: Global, rows: &[(Ask, &str)]) -> Result<(), AllocError> {
        let mut places = [Entry::default(); 3];
        let mut gateway = Gateway::new(ListCard::new(&mut places));
        for (row, (ask, told)) in rows.iter().enumerate() {
            let answer = answer(heap, &mut gateway, *ask)?;
            let text = text(heap, &answer)?;
            assert_eq!(rt; text.as_str(), *told, "in row {row}");
        }
        Ok(())
    }

    #[test]
    fn refusals_come_in_their_sequence(rt: HostRuntime) -> Result<(), Fail> {
        play(
            &rt,
            rt.alloc(),
            &[
                // nothing else counts before a load
                (Ask::Open(0), "refused 8"),
                (Ask::Open(64), "refused 8"),
                (Ask::Post(255, usize::MAX, 1), "refused 8"),
                (Ask::Turn(b"", 0, 0), "refused 8"),
                (Ask::Close(64), "refused 8"),
                (Ask::Load(44), "refused 10 at 1"),
                (Ask::Turn(b"", 1, 1), "refused 8"),
                (Ask::Load(45), "accepted"),
                // a number of 64 or more, or a coach that is open, or is not
                (Ask::Open(64), "refused 16"),
                (Ask::Open(255), "refused 16"),
                (Ask::Open(63), "accepted"),
                (Ask::Open(63), "refused 16"),
                (Ask::Post(64, 0, 1), "refused 16"),
                (Ask::Post(62, 0, 1), "refused 16"),
                (Ask::Close(64), "refused 16"),
                (Ask::Close(62), "refused 16"),
                // bytes wait already, unless the coach is not open any more
                (Ask::Post(63, 0, 2), "accepted"),
                (Ask::Post(63, 0, 1), "refused 17"),
                (Ask::Post(63, 0, 0), "refused 17"),
                (Ask::Post(127, 0, 1), "refused 16"),
                (Ask::Close(63), "accepted"),
                (Ask::Post(63, 0, 1), "refused 16"),
                (Ask::Close(63), "refused 16"),
                // quotas and slots, also where none waits
                (Ask::Turn(b"", 1, 0), "refused 18"),
                (Ask::Turn(b"", 4097, 4097), "refused 18"),
                (Ask::Turn(b"", 0, usize::MAX), "refused 18"),
                (Ask::Turn(b"", 0, 1), "refused 18"),
                (Ask::Turn(b"", 4095, 4096), "refused 18"),
                (Ask::Turn(b"", 1, 1), "none waits"),
                (Ask::Turn(b"", 4096, 4096), "none waits"),
            ],
        )?;
        Ok(())
    }

    #[test]
    fn a_part_that_leaves_the_buffer_stops_the_turns(rt: HostRuntime) -> Result<(), Fail> {
        play(
            &rt,
            rt.alloc(),
            &[
                (Ask::Load(45), "accepted"),
                (Ask::Open(1), "accepted"),
                (Ask::Open(2), "accepted"),
                (Ask::Post(1, 1, 2), "accepted"),
                (Ask::Post(2, 0, 1), "accepted"),
                (Ask::Turn(b"xa", 1, 1), "refused 18"),
                (Ask::Turn(b"", 4096, 4096), "refused 18"),
                (Ask::Turn(b"xab", 1, 1), "1: 1 to 1"),
                (Ask::Turn(b"x", 1, 1), "2: 1 to 0"),
                (Ask::Turn(b"xa", 1, 1), "refused 18"),
                (Ask::Turn(b"xxb", 1, 1), "1: 1 to 2 (0, 7)"),
                // the sum of place and length would wrap to 0
                (Ask::Post(1, usize::MAX, 1), "accepted"),
                (Ask::Turn(b"xab", 1, 1), "refused 18"),
                (Ask::Post(2, 1, usize::MAX), "accepted"),
                (Ask::Close(1), "accepted"),
                (Ask::Turn(b"xab", 1, 1), "refused 18"),
                (Ask::Close(2), "accepted"),
                (Ask::Open(2), "accepted"),
                (Ask::Post(2, usize::MAX, usize::MAX), "accepted"),
                (Ask::Turn(b"xab", 1, 1), "refused 18"),
                (Ask::Close(2), "accepted"),
                (Ask::Turn(b"xab", 1, 1), "none waits"),
                // no byte waits, wherever the part is
                (Ask::Open(2), "accepted"),
                (Ask::Post(2, usize::MAX, 0), "accepted"),
                (Ask::Turn(b"", 1, 1), "none waits"),
                (Ask::Post(2, 2, 1), "accepted"),
                (Ask::Turn(b"xab", 1, 1), "2: 1 to 0"),
            ],
        )?;
        Ok(())
    }

    #[test]
    fn coaches_come_in_cyclic_order(rt: HostRuntime) -> Result<(), Fail> {
        play(
            &rt,
            rt.alloc(),
            &[
                (Ask::Load(45), "accepted"),
                (Ask::Open(63), "accepted"),
                (Ask::Open(5), "accepted"),
                (Ask::Open(0), "accepted"),
                (Ask::Post(63, 0, 1), "accepted"),
                (Ask::Post(5, 0, 1), "accepted"),
                (Ask::Post(0, 0, 1), "accepted"),
                (Ask::Turn(b"a", 1, 1), "0: 1 to 1"),
                (Ask::Turn(b"a", 1, 1), "5: 1 to 1"),
                // who was served before does not come before who was not
                (Ask::Post(0, 0, 1), "accepted"),
                (Ask::Turn(b"a", 1, 1), "63: 1 to 1"),
                (Ask::Turn(b"b", 1, 1), "0: 1 to 2 (0, 7)"),
                (Ask::Turn(b"b", 1, 1), "none waits"),
                // nor does a coach that still waits come again before the others
                (Ask::Post(5, 0, 3), "accepted"),
                (Ask::Post(63, 0, 1), "accepted"),
                (Ask::Turn(b"bab", 1, 1), "5: 1 to 2 (0, 7)"),
                (Ask::Turn(b"bab", 1, 1), "63: 1 to 2 (0, 7)"),
                (Ask::Turn(b"bab", 1, 1), "5: 1 to 1"),
            ],
        )?;
        Ok(())
    }

    #[test]
    fn the_place_of_the_turn_is_kept_or_reset(rt: HostRuntime) -> Result<(), Fail> {
        play(
            &rt,
            rt.alloc(),
            &[
                (Ask::Load(45), "accepted"),
                (Ask::Open(63), "accepted"),
                (Ask::Open(5), "accepted"),
                (Ask::Open(0), "accepted"),
                (Ask::Post(5, 0, 2), "accepted"),
                (Ask::Turn(b"ab", 1, 1), "5: 1 to 1"),
                // refused turns, and those that find none waiting, keep the place
                (Ask::Turn(b"ab", 0, 0), "refused 18"),
                (Ask::Turn(b"ab", 1, 1), "5: 1 to 2 (0, 7)"),
                (Ask::Turn(b"ab", 1, 1), "none waits"),
                (Ask::Post(0, 0, 1), "accepted"),
                (Ask::Post(63, 0, 1), "accepted"),
                (Ask::Turn(b"x", 1, 1), "63: 1 to 0"),
                (Ask::Post(5, 0, 1), "accepted"),
                (Ask::Turn(b"x", 1, 1), "0: 1 to 0"),
                (Ask::Turn(b"x", 1, 1), "5: 1 to 0"),
                // the only one comes again and again
                (Ask::Post(5, 0, 2), "accepted"),
                (Ask::Turn(b"ab", 1, 1), "5: 1 to 1"),
                (Ask::Turn(b"ab", 1, 1), "5: 1 to 2 (0, 7)"),
                // after a load the search begins at 0
                (Ask::Load(45), "accepted"),
                (Ask::Open(0), "accepted"),
                (Ask::Open(6), "accepted"),
                (Ask::Post(0, 0, 1), "accepted"),
                (Ask::Post(6, 0, 1), "accepted"),
                (Ask::Turn(b"a", 1, 1), "0: 1 to 1"),
            ],
        )?;
        Ok(())
    }

    #[test]
    fn bytes_are_taken_as_they_are_at_the_turn(rt: HostRuntime) -> Result<(), Fail> {
        play(
            &rt,
            rt.alloc(),
            &[
                (Ask::Load(45), "accepted"),
                (Ask::Open(3), "accepted"),
                (Ask::Open(9), "accepted"),
                (Ask::Post(3, 1, 5), "accepted"),
                (Ask::Post(9, 0, 2), "accepted"),
                (Ask::Turn(b"xababab", 4, 2), "3: 2 to 2 (1, 7)"),
                (Ask::Turn(b"xababab", 4, 2), "9: 2 to 1"),
                (Ask::Post(3, 0, 1), "refused 17"),
                (Ask::Turn(b"bbbbbbb", 4, 2), "3: 2 to 0"),
                (Ask::Turn(b"bbbbbab", 4, 2), "3: 1 to 1"),
                (Ask::Turn(b"bbbbbab", 4, 2), "none waits"),
                // the run goes on with the next part, and its places begin at 0 again
                (Ask::Post(9, 6, 1), "accepted"),
                (Ask::Turn(b"aaaaaab", 4, 2), "9: 1 to 2 (0, 7)"),
                (Ask::Post(3, 0, 5), "accepted"),
                (Ask::Turn(b"babab", 5, 5), "3: 5 to 2 (0, 7) (2, 7) (4, 7)"),
                // a close drops what waits, and an open begins at the start
                (Ask::Post(3, 0, 3), "accepted"),
                (Ask::Turn(b"aaa", 4, 2), "3: 2 to 1"),
                (Ask::Close(3), "accepted"),
                (Ask::Turn(b"aaa", 4, 2), "none waits"),
                (Ask::Open(3), "accepted"),
                (Ask::Turn(b"aaa", 4, 2), "none waits"),
                (Ask::Post(3, 0, 1), "accepted"),
                (Ask::Turn(b"b", 4, 2), "3: 1 to 0"),
                // a refused load keeps what waits, and an accepted one closes all
                (Ask::Post(3, 0, 3), "accepted"),
                (Ask::Turn(b"aba", 1, 1), "3: 1 to 1"),
                (Ask::Load(44), "refused 10 at 1"),
                (Ask::Turn(b"aba", 1, 1), "3: 1 to 2 (0, 7)"),
                (Ask::Load(45), "accepted"),
                (Ask::Turn(b"aba", 1, 1), "none waits"),
                (Ask::Post(3, 0, 1), "refused 16"),
                (Ask::Close(9), "refused 16"),
            ],
        )?;
        Ok(())
    }

    // Where the last one served is coach 9 and all 64 wait, they are served from coach 10 on, and coach 9 last.
    #[test]
    fn all_are_served_within_64_turns(rt: HostRuntime) -> Result<(), Fail> {
        let mut places = [Entry::default(); 3];
        let mut gateway = Gateway::new(ListCard::new(&mut places));
        load(&mut gateway, 45)?;
        for coach in 0..64 {
            gateway.open(coach)?;
        }
        gateway.post(9, 0, 1)?;
        let _ = gateway.turn(b"a", &mut [STALE; 1], 1)?;
        for coach in 0..64 {
            gateway.post(coach, 0, 2)?;
        }
        for coach in (10..64).chain(0..10) {
            let served = gateway.turn(b"ab", &mut [STALE; 1], 1)?;
            assert_eq!(rt; served.map(|served| served.coach), Some(coach));
        }
        Ok(())
    }

    // The call on a list of calls.
    fn call(heap: Global, ask: Ask) -> Result<Call, AllocError> {
        Ok(match ask {
            Ask::Load(bytes) => Call::Load(Filing {
                states: 3,
                start: StateNo(0),
                successors: successors().to_vec(heap)?,
                classes: vec![in heap; 0, 0, 7]?,
                image: IMAGE.get(..bytes).unwrap_or(&IMAGE).to_vec(heap)?,
            }),
            Ask::Open(coach) => Call::Open(coach),
            Ask::Post(coach, place, length) => Call::Post(coach, Part { place, length }),
            Ask::Turn(buffer, slots, quota) => Call::Turn(Turn {
                buffer: buffer.to_vec(heap)?,
                slots,
                quota,
            }),
            Ask::Close(coach) => Call::Close(coach),
        })
    }

    // Where memory is left, a run answers each call; and also where it is not, what it did answer is right.
    #[test]
    fn run_answers_each_call(rt: HostRuntime) -> Result<(), Fail> {
        let heap = rt.alloc();
        let rows = [
            (Ask::Open(7), "refused 8"),
            (Ask::Load(45), "accepted"),
            (Ask::Open(7), "accepted"),
            (Ask::Post(7, 1, 4), "accepted"),
            (Ask::Turn(b"xabab", 4, 3), "7: 3 to 1 (1, 7)"),
            (Ask::Turn(b"xabab", 2, 3), "refused 18"),
            (Ask::Turn(b"xabab", 3, 3), "7: 1 to 2 (0, 7)"),
            (Ask::Turn(b"xabab", 3, 3), "none waits"),
            (Ask::Close(7), "accepted"),
            (Ask::Close(7), "refused 16"),
        ];
        let mut calls = Vec::new(heap);
        for (ask, _) in rows {
            calls.push(call(heap, ask)?)?;
        }
        let mut places = [Entry::default(); 3];
        let mut answers = Vec::new(heap);
        let done = run(
            heap,
            ListCard::new(&mut places),
            calls.as_slice(),
            &mut answers,
        );
        for (answer, (_, told)) in answers.iter().zip(rows.iter()) {
            assert_eq!(rt; text(heap, answer)?.as_str(), *told);
        }
        done?;
        assert_eq!(rt; answers.len(), rows.len());
        Ok(())
    }
}
