#![tactic(auto)]

// Walks and cards at their limits. Every expected value is worked out by hand.
#[cfg(test)]
mod tests {
    use card::list::ListCard;
    use card::rules::Card;
    use card::tandem::Tandem;
    use scanner::walk::walk;
    use std::test::Fail;
    use ternary::entry::Entry;
    use ternary::refusal::Refusal;
    use ternary::words::{Mark, Progress, StateCode};

    const NO_MARK: Mark = Mark { place: 9, class: 9 };

    // The entry that any code and byte match.
    fn any() -> Entry {
        Entry::new(0, 0, 0, 0, StateCode(0), 0)
    }

    // The entries that mark each "ab" with class 7, over codes of two bits.
    fn entries_ab() -> [Entry; 3] {
        [
            Entry::new(1, 3, b'b', 255, StateCode(2), 7),
            Entry::new(0, 0, b'a', 255, StateCode(1), 0),
            any(),
        ]
    }

    #[test]
    fn longest_piece_passes(rt: HostRuntime) -> Result<(), Fail> {
        let mut places = [any(); 1];
        let mut card = ListCard::new(&mut places);
        card.append(any())?;
        let piece = vec![in rt.alloc(); b'x'; 65_536]?;
        let progress = walk(&card, StateCode(0), piece.as_slice(), &mut [NO_MARK; 0])?;
        assert_eq!(rt; progress.taken, 65_536);
        assert_eq!(rt; progress.searches, 65_536);
        Ok(())
    }

    #[test]
    fn longer_piece_is_refused(rt: HostRuntime) -> Result<(), Fail> {
        let mut places = [any(); 1];
        let card = ListCard::new(&mut places);
        let piece = vec![in rt.alloc(); b'x'; 65_537]?;
        let mut marks = [NO_MARK; 1];
        let answer = walk(&card, StateCode(0), piece.as_slice(), &mut marks);
        assert_eq!(rt; answer, Err(Refusal::PieceTooLong));
        assert_eq!(rt; Refusal::PieceTooLong.number(), 9);
        assert_eq!(rt; marks[0], NO_MARK);
        Ok(())
    }

    #[test]
    fn empty_piece_takes_nothing(rt: HostRuntime) -> Result<(), Fail> {
        let mut places = [any(); 1];
        let card = ListCard::new(&mut places);
        let progress = walk(&card, StateCode(5), b"", &mut [NO_MARK; 1])?;
        assert_eq!(rt;
            progress,
            Progress {
                taken: 0,
                marks: 0,
                code: StateCode(5),
                marks_full: false,
                searches: 0,
            }
        );
        Ok(())
    }

    #[test]
    fn no_slot_stops_at_the_first_mark(rt: HostRuntime) -> Result<(), Fail> {
        let mut places = [any(); 3];
        let mut card = ListCard::new(&mut places);
        for e in entries_ab() {
            card.append(e)?;
        }
        let progress = walk(&card, StateCode(0), b"xabab", &mut [NO_MARK; 0])?;
        assert_eq!(rt;
            progress,
            Progress {
                taken: 2,
                marks: 0,
                code: StateCode(1),
                marks_full: true,
                searches: 3,
            }
        );
        Ok(())
    }

    #[test]
    fn tandem_of_one_and_two(rt: HostRuntime) -> Result<(), Fail> {
        let mut first = [any(); 1];
        let mut second = [any(); 2];
        let mut pair = Tandem::new(ListCard::new(&mut first), ListCard::new(&mut second));
        assert_eq!(rt; pair.capacity(), 3);
        assert!(rt; pair.is_empty());
        for e in entries_ab() {
            pair.append(e)?;
        }
        assert_eq!(rt; pair.append(any()), Err(Refusal::CardFull));
        assert_eq!(rt; pair.search(StateCode(1), b'b'), Some((StateCode(2), 7)));
        assert_eq!(rt; pair.search(StateCode(2), b'a'), Some((StateCode(1), 0)));
        assert!(rt; !pair.is_empty());
        Ok(())
    }

    #[test]
    fn half_full_first_card_takes_no_more(rt: HostRuntime) -> Result<(), Fail> {
        let mut places = [any(); 2];
        let mut first = ListCard::new(&mut places);
        first.append(any())?;
        let mut others = [any(); 2];
        let mut second = ListCard::new(&mut others);
        second.append(any())?;
        let mut pair = Tandem::new(first, second);
        assert_eq!(rt; pair.append(any()), Ok(()));
        assert_eq!(rt; pair.append(any()), Err(Refusal::CardFull));
        pair.clear();
        for e in [any(); 4] {
            pair.append(e)?;
        }
        assert_eq!(rt; pair.append(any()), Err(Refusal::CardFull));
        Ok(())
    }
}
