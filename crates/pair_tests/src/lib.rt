#![tactic(auto)]

// Two-byte images that are built, read, checked, loaded and fed. Every expected value is worked out by hand.
#[cfg(test)]
mod tests {
    use automaton::file::read;
    use automaton::words::Automaton;
    use card::list::ListCard;
    use pair_builder::build::build as build_pairs;
    use pair_image::reader::unpack;
    use pair_image::writer::pack;
    use pair_scanner::lent::PairScanner;
    use pair_table::check::check as check_pairs;
    use pairs::list::PairCard;
    use pairs::pair::PairEntry;
    use pairs::stride::Stride;
    use std::process::Abort;
    use std::test::Fail;
    use ternary::entry::Entry;
    use ternary::refusal::Refusal;
    use ternary::words::{Mark, Progress, StateCode, StateNo};

    // The automaton that marks each "ab": every "a" leads to state 1, "b" from state 1 to state 2 of class 7, all else to
    // state 0.
    const FILE: &[u8; 40] = b"\
        \x01\x00\x00\x00\x23\x00\x03\x00\x00\
        \x00\x07\x00\x00\x00\x61\x61\x00\x01\
        \x00\x0b\x00\x00\x00\x61\x61\x00\x01\x62\x62\x00\x02\
        \x00\x07\x07\x00\x00\x61\x61\x00\x01";

    // Its one-byte image.
    const ONE: &[u8; 45] = b"\
        \x01\x00\x00\x00\x28\x02\x00\x03\x00\x00\x00\x03\
        \x00\x00\x00\x01\x00\x02\
        \x00\x01\x00\x03\x62\xff\x00\x02\x07\
        \x00\x00\x00\x00\x61\xff\x00\x01\x00\
        \x00\x00\x00\x00\x00\x00\x00\x00\x00";

    // Its two-byte image: the closing entry of the root stands twice, behind each of the root's entries.
    const TWO: &[u8; 66] = b"\
        \x03\x00\x00\x00\x3d\x02\x00\x03\x00\x00\x00\x04\
        \x00\x00\x00\x01\x00\x02\
        \x00\x01\x00\x03\x62\xff\x00\x00\x00\x02\x07\x01\
        \x00\x00\x00\x00\x61\xff\x00\x00\x00\x01\x00\x01\
        \x00\x00\x00\x00\x00\x00\x61\xff\x00\x01\x00\x02\
        \x00\x00\x00\x00\x00\x00\x00\x00\x00\x00\x00\x02";

    // The automaton in which "b" leads to state 1, of class 7, and all else to state 0: its file and its two images.
    const B_FILE: &[u8; 27] = b"\
        \x01\x00\x00\x00\x16\x00\x02\x00\x00\
        \x00\x07\x00\x00\x00\x62\x62\x00\x01\
        \x00\x07\x07\x00\x00\x62\x62\x00\x01";

    const B_ONE: &[u8; 34] = b"\
        \x01\x00\x00\x00\x1d\x01\x00\x02\x00\x00\x00\x02\
        \x00\x00\x00\x01\
        \x00\x00\x00\x00\x62\xff\x00\x01\x07\
        \x00\x00\x00\x00\x00\x00\x00\x00\x00";

    const B_TWO: &[u8; 52] = b"\
        \x03\x00\x00\x00\x2f\x01\x00\x02\x00\x00\x00\x03\
        \x00\x00\x00\x01\
        \x00\x00\x00\x00\x62\xff\x00\x00\x00\x01\x07\x01\
        \x00\x00\x00\x00\x00\x00\x62\xff\x00\x01\x07\x02\
        \x00\x00\x00\x00\x00\x00\x00\x00\x00\x00\x00\x02";

    const NO_MARK: Mark = Mark { place: 9, class: 9 };

    // What a walk answers that finds an entry at each search.
    fn progress(taken: usize, marks: usize, code: u16, full: bool, searches: usize) -> Progress {
        Progress {
            taken,
            marks,
            code: StateCode(code),
            marks_full: full,
            searches,
        }
    }

    // The image that is built for the automaton in a file, into so many bytes.
    fn built(file: &[u8], out: &mut [u8]) -> Result<usize, Refusal> {
        let mut successors = [StateNo(0); 768];
        let mut classes = [0; 3];
        let header = read(file, &mut successors, &mut classes)?;
        let states = header.states as usize;
        let automaton = Automaton {
            states: header.states,
            start: header.start,
            successors: successors.get(0..256 * states).unwrap_or(&[]),
            classes: classes.get(0..states).unwrap_or(&[]),
        };
        build_pairs(automaton, &mut [7; 8201], out)
    }

    // Each image, and the bytes behind it, which a build leaves.
    #[test]
    fn builds_two_automata(rt: HostRuntime) {
        let mut out = [9; 71];
        assert_eq!(rt; built(FILE, &mut out), Ok(66));
        assert!(rt; &out[0..66] == TWO.as_slice());
        assert!(rt; out[66..71] == [9; 5]);
        let mut out = [9; 53];
        assert_eq!(rt; built(B_FILE, &mut out), Ok(52));
        assert!(rt; &out[0..52] == B_TWO.as_slice());
        assert!(rt; out[52] == 9);
    }

    // The image of "ab" with four bytes from `at` on changed.
    fn changed(at: usize, new: [u8; 4]) -> [u8; 66] {
        let mut bytes = *TWO;
        if at < 63 {
            let [a, b, c, d] = new;
            bytes[at] = a;
            bytes[at + 1] = b;
            bytes[at + 2] = c;
            bytes[at + 3] = d;
        }
        bytes
    }

    // That image with four bytes changed, and the offset of the field that then breaks a rule.
    #[test]
    fn refuses_each_broken_rule(rt: HostRuntime) {
        let cases = [
            (0, [1, 0, 0, 0], 0), // version of a one-byte image
            (1, [0, 0, 0, 0x3e], 1), // length of the rest
            (5, [17, 0, 3, 0], 5), // 17 code bits
            (6, [0, 0, 0, 0], 6), // no state
            (6, [0, 3, 0, 3], 8), // start state 3 of three
            (8, [0, 0, 0x10, 1], 10), // 4,097 entries
            (8, [0, 0, 0, 3], 12), // the size is not that of three entries
            (14, [0, 1, 0, 4], 16), // code 4 of two bits
            (18, [0, 1, 0, 2], 18), // code value with a bit under a star
            (18, [0, 1, 0, 7], 20), // code mask 7 of two bits
            (20, [0, 3, 0x62, 0xfd], 22), // byte value with a bit under a star
            (22, [0x62, 0xff, 1, 0], 24), // second byte value under a star
            (48, [0x61, 0xfe, 0, 1], 48), // second byte value with a bit under a star
            (24, [0, 0, 0, 4], 26), // successor code 4 of two bits
            (26, [0, 2, 7, 0], 29), // stride 0
            (26, [0, 2, 7, 3], 29), // stride 3
            (62, [0, 0, 0, 3], 65), // stride 3 in the last entry
        ];
        for (at, new, offset) in cases {
            let refused = unpack(&changed(at, new)).map(|_| ());
            assert_eq!(rt; refused, Err(Refusal::Malformed(offset)));
        }
    }

    // What a check of the automaton "ab" answers of a table with this start and these entries.
    fn checked(start: u16, entries: &[PairEntry]) -> Result<(), Refusal> {
        let mut successors = [StateNo(0); 768];
        let mut classes = [0; 3];
        let header = read(FILE, &mut successors, &mut classes)?;
        let automaton = Automaton {
            states: header.states,
            start: header.start,
            successors: &successors,
            classes: &classes,
        };
        let codes = [StateCode(0), StateCode(1), StateCode(2)];
        let mut bytes = [0; 100];
        let size = pack(2, StateNo(start), &codes, entries, &mut bytes)?;
        check_pairs(automaton, bytes.get(0..size).unwrap_or(&[]))
    }

    // An entry over any code.
    fn pair(byte: Option<u8>, second: Option<u8>, next: u16, stride: Stride) -> PairEntry {
        let (value, mask) = compared(byte);
        let (second_value, second_mask) = compared(second);
        let entry = Entry::new(0, 0, value, mask, StateCode(next), 0);
        PairEntry::new(entry, second_value, second_mask, stride)
    }

    // The value and mask that compare a byte, or nothing.
    fn compared(byte: Option<u8>) -> (u8, u8) {
        match byte {
            Some(byte) => (byte, 255),
            None => (0, 0),
        }
    }

    // The table of "ab", and tables that do not carry it.
    #[test]
    fn checks_tables_of_ab(rt: HostRuntime) {
        let b = Entry::new(1, 3, b'b', 255, StateCode(2), 7);
        let b = PairEntry::new(b, 0, 0, Stride::One);
        let a = pair(Some(b'a'), None, 1, Stride::One);
        let second_a = pair(None, Some(b'a'), 1, Stride::Two);
        let closing = pair(None, None, 0, Stride::Two);
        let wrong = |state, byte, second| Err(Refusal::WrongPair(StateNo(state), byte, second));
        assert_eq!(rt; checked(0, &[b, a, second_a, closing]), Ok(()));
        assert_eq!(rt;
            checked(1, &[b, a, second_a, closing]),
            Err(Refusal::Mismatch)
        );
        // The closing entry stands before the one that looks for "a" in second place.
        assert_eq!(rt; checked(0, &[b, a, closing, second_a]), wrong(0, 0, b'a'));
        // Both bytes are passed over, although the first gives a mark.
        assert_eq!(rt; checked(0, &[a, second_a, closing]), wrong(1, b'b', 0));
        // No entry is left for a second byte but "a".
        assert_eq!(rt; checked(0, &[b, a, second_a]), wrong(0, 0, 0));
        // Every entry takes one byte, and none compares the second.
        let otherwise = pair(None, None, 0, Stride::One);
        assert_eq!(rt; checked(0, &[b, a, otherwise]), Ok(()));
        // The first byte is not looked at.
        let any = pair(None, Some(b'a'), 1, Stride::One);
        assert_eq!(rt; checked(0, &[b, any, otherwise]), wrong(0, 0, b'a'));
    }

    // Loads an automaton's two images onto cards of so many places, and feeds it a piece.
    fn fed(
        images: (&[u8], &[u8], &[u8]),
        places: (usize, usize),
        piece: &[u8],
        marks: &mut [Mark],
    ) -> Result<Progress, Refusal> {
        let (file, two_image, one_image) = images;
        let mut successors = [StateNo(0); 768];
        let mut classes = [0; 3];
        let header = read(file, &mut successors, &mut classes)?;
        let states = header.states as usize;
        let automaton = Automaton {
            states: header.states,
            start: header.start,
            successors: successors.get(0..256 * states).unwrap_or(&[]),
            classes: classes.get(0..states).unwrap_or(&[]),
        };
        let mut two_places = [PairEntry::default(); 8];
        let mut one_places = [Entry::default(); 8];
        let (two, one) = places;
        let mut two = PairCard::new(two_places.get_mut(0..two).unwrap_or(&mut []));
        let mut one = ListCard::new(one_places.get_mut(0..one).unwrap_or(&mut []));
        let mut scanner = PairScanner::new();
        scanner.load(&mut two, &mut one, automaton, two_image, one_image)?;
        scanner.feed(&two, &one, piece, marks)
    }

    // A feed: so many slots, a piece, the answer, and what two slots then hold.
    #[derive(Clone, Copy)]
    struct Feed {
        slots: usize,
        piece: &'static [u8],
        answer: Progress,
        left: [Mark; 2],
    }

    fn row(slots: usize, piece: &'static [u8], answer: Progress, left: [Mark; 2]) -> Feed {
        Feed {
            slots,
            piece,
            answer,
            left,
        }
    }

    // Passes feeds of new scanners that are loaded with these images.
    fn check_feeds(rt: &impl Abort, images: (&[u8], &[u8], &[u8]), feeds: &[Feed]) {
        for Feed {
            slots,
            piece,
            answer,
            left,
        } in feeds.iter().copied() {
            let mut marks = [NO_MARK; 2];
            let lent = marks.get_mut(0..slots).unwrap_or(&mut []);
            assert_eq!(rt; fed(images, (4, 3), piece, lent), Ok(answer));
            assert_eq!(rt; marks, left);
        }
    }

    #[test]
    fn feeds_pieces(rt: HostRuntime) {
        let images = (FILE.as_slice(), TWO.as_slice(), ONE.as_slice());
        let mark = |place| Mark { place, class: 7 };
        let none = [NO_MARK, NO_MARK];
        let two = [mark(2), mark(4)];
        let feeds = [
            row(2, b"xabab", progress(5, 2, 2, false, 4), two),
            row(1, b"xabab", progress(4, 1, 1, true, 4), [mark(2), NO_MARK]),
            row(0, b"xx", progress(2, 0, 0, false, 1), none),
            row(0, b"x", progress(1, 0, 0, false, 1), none),
            row(0, b"", progress(0, 0, 0, false, 0), none),
        ];
        check_feeds(&rt, images, &feeds);
    }

    // Where the mark of a second byte has no slot, the first is searched on the one-byte card.
    #[test]
    fn feeds_a_piece_whose_second_mark_has_no_slot(rt: HostRuntime) {
        let images = (B_FILE.as_slice(), B_TWO.as_slice(), B_ONE.as_slice());
        let mark = |place| Mark { place, class: 7 };
        let two = [mark(0), mark(3)];
        let feeds = [
            row(0, b"xb", progress(1, 0, 0, true, 2), [NO_MARK, NO_MARK]),
            row(2, b"bxxbx", progress(5, 2, 0, false, 4), two),
        ];
        check_feeds(&rt, images, &feeds);
    }

    // Images and places that a load refuses.
    #[test]
    fn refuses_loads(rt: HostRuntime) {
        // The one-byte image of "ab" with codes of three bits.
        let mut wide = *ONE;
        wide[5] = 3;
        let file = FILE.as_slice();
        let (two, one, wide) = (TWO.as_slice(), ONE.as_slice(), wide.as_slice());
        let cases = [
            ((file, one, one), (4, 3), Refusal::Malformed(0)),
            ((file, two, two), (4, 3), Refusal::Malformed(0)),
            ((file, B_TWO.as_slice(), one), (4, 3), Refusal::Mismatch),
            ((file, two, B_ONE.as_slice()), (4, 3), Refusal::Mismatch),
            ((file, two, wide), (3, 2), Refusal::CodesDiffer),
            ((file, two, one), (3, 3), Refusal::CardTooSmall),
            ((file, two, one), (4, 2), Refusal::CardTooSmall),
        ];
        for (images, places, why) in cases {
            assert_eq!(rt; fed(images, places, b"x", &mut []), Err(why));
        }
    }
}
