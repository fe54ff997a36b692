#![tactic(auto)]

// Prefix lists of rows whose least number of words is worked out by hand, and of rows of eight blocks beside a
// search coded apart.
ghost use Rattle.std.specs.Prelude.{◌<◌};

#[cfg(test)]
mod tests {
    use prefix::lists::{shared_bytes, shortest_length, shortest_list};
    use prefix::word::PrefixWord;
    use ternary::words::StateNo;

    // No byte may stay without a match.
    const NONE: [bool; 256] = [false; 256];

    fn word(bits: u8, value: u8, next: u16) -> PrefixWord<StateNo> {
        PrefixWord {
            bits,
            value,
            next: StateNo(next),
        }
    }

    // How many words both calls say that a shortest list has, if they agree.
    fn least(row: &[StateNo; 256], deferrable: &[bool; 256]) -> Option<usize> {
        let listed = shortest_list(row, deferrable).len();
        let counted = shortest_length(row, deferrable);
        if listed == counted {
            Some(listed)
        } else {
            None
        }
    }

    // The row that leads to one state on every byte but one.
    fn but_one(usual: u16, byte: u8, other: u16) -> [StateNo; 256] {
        let mut row = [StateNo(usual); 256];
        row[byte as usize] = StateNo(other);
        row
    }

    // The three states that mark each "ab": 2, 1 and 0 words where the last two defer to the first.
    #[test]
    fn lists_the_states_of_ab(rt: HostRuntime) {
        let start = but_one(0, b'a', 1);
        let mut after_a = but_one(0, b'a', 1);
        after_a[b'b' as usize] = StateNo(2);
        assert_eq!(rt;
            shortest_list(&start, &NONE).as_slice(),
            [word(8, b'a', 1), word(0, 0, 0)].as_slice()
        );
        let shared = shared_bytes(&after_a, &start);
        assert_eq!(rt;
            shortest_list(&after_a, &shared).as_slice(),
            [word(8, b'b', 2)].as_slice()
        );
        let shared = shared_bytes(&start, &start);
        assert!(rt; shortest_list(&start, &shared).is_empty());
    }

    // A row by its kind, whose least number of words is worked out beside the tests.
    #[derive(Clone, Copy)]
    enum Kind {
        Same,
        LowestBit,
        HighestBit,
        Apart,
        Letters,
    }

    fn successor(kind: Kind, byte: u8) -> u16 {
        match kind {
            Kind::Same => 3,
            Kind::LowestBit => byte as u16 % 2,
            Kind::HighestBit => byte as u16 / 128,
            Kind::Apart => byte as u16,
            Kind::Letters => match byte {
                b'a'..=b'z' => 1,
                _ => 0,
            },
        }
    }

    fn row_of(kind: Kind) -> [StateNo; 256] {
        let mut row = [StateNo(0); 256];
        for byte in 0..256usize {
            row[byte] = StateNo(successor(kind, byte as u8));
        }
        row
    }

    #[test]
    fn counts_rows_worked_out_by_hand(rt: HostRuntime) {
        let rows = [
            (Kind::Same, 1),
            // the 128 odd bytes need a word each, and one covers the rest
            (Kind::LowestBit, 129),
            (Kind::HighestBit, 2),
            (Kind::Apart, 256),
            // 60h, 7bh, and 7ch to 7fh lead elsewhere than 60h to 7fh, and these elsewhere than the rest
            (Kind::Letters, 5),
        ];
        for (kind, words) in rows {
            let row = row_of(kind);
            assert_eq!(rt; least(&row, &NONE), Some(words));
            assert_eq!(rt; least(&row, &shared_bytes(&row, &row)), Some(0));
        }
        let row = row_of(Kind::LowestBit);
        // no byte is shared
        assert_eq!(rt;
            least(&row, &shared_bytes(&row, &[StateNo(3); 256])),
            Some(129)
        );
        // the even bytes are shared, and the odd ones need a word each
        assert_eq!(rt;
            least(&row, &shared_bytes(&row, &[StateNo(0); 256])),
            Some(128)
        );
    }

    // The row that has one state for each block of 32 bytes.
    fn spread(blocks: &[u16; 8]) -> [StateNo; 256] {
        let mut row = [StateNo(0); 256];
        for byte in 0..256usize {
            row[byte] = StateNo(blocks[byte / 32]);
        }
        row
    }

    // The blocks of each prefix of 0 to 3 bits, as a set with a bit for each block. On such a row a longer prefix
    // does no more than the prefix of its first 3 bits.
    const COVERS: [u8; 15] = [
        0xff, 0x0f, 0xf0, 0x03, 0x0c, 0x30, 0xc0, 0x01, 0x02, 0x04, 0x08, 0x10, 0x20, 0x40, 0x80,
    ];

    const BLOCK: [u8; 8] = [0x01, 0x02, 0x04, 0x08, 0x10, 0x20, 0x40, 0x80];

    // Whether all blocks of a set lead to one state.
    fn agree(blocks: &[u16; 8], set: u8) -> bool {
        let mut state = None;
        for b in 0..8usize {
            if set & BLOCK[b] != 0 {
                match state {
                    None => state = Some(blocks[b]),
                    Some(other) => {
                        if other != blocks[b] {
                            return false;
                        }
                    }
                }
            }
        }
        true
    }

    fn union(set: u8, other: u8) -> u8 {
        set | other
    }

    // Tries each word after a list that matches these blocks.
    fn extend(blocks: &[u16; 8], words: &mut [u8; 256], matched: u8) {
        let longer = words[matched as usize].saturating_add(1);
        for cover in COVERS {
            if agree(blocks, cover & !matched) {
                let more = union(matched, cover) as usize;
                words[more] = words[more].min(longer);
            }
        }
    }

    // The least number of words by a search over all lists: a word is right where all blocks that it matches first
    // lead to its state, so what a list leaves to do depends only on the set of blocks that it matches.
    fn searched(blocks: &[u16; 8], deferrable: u8) -> u8 {
        let mut words = [255; 256];
        words[0] = 0;
        let mut fewest = 255;
        for matched in 0..256usize {
            if matched as u8 | deferrable == 0xff {
                fewest = words[matched].min(fewest);
            }
            extend(blocks, &mut words, matched as u8);
        }
        fewest
    }

    // The blocks by the digits of a number.
    fn digits(number: u32, base: u32) -> [u16; 8]
        requires { (0 < base) × (base < 10) }
    {
        let mut blocks = [0; 8];
        let mut rest = number;
        for b in 0..8usize {
            blocks[b] = (rest % base) as u16;
            rest /= base;
        }
        blocks
    }

    #[test]
    fn agrees_with_a_search_on_all_rows_of_three_states(rt: HostRuntime) {
        for number in 0..6561u32 {
            let blocks = digits(number, 3);
            assert_eq!(rt;
                least(&spread(&blocks), &NONE),
                Some(searched(&blocks, 0) as usize)
            );
        }
    }

    // The blocks for which two rows have one state.
    fn shared_blocks(blocks: &[u16; 8], others: &[u16; 8]) -> u8 {
        let mut set = 0;
        for b in 0..8usize {
            if blocks[b] == others[b] {
                set |= BLOCK[b];
            }
        }
        set
    }

    #[test]
    fn agrees_with_a_search_on_random_rows_that_defer(rt: HostRuntime) {
        let mut number = 1u32;
        for n in 0..4000u32 {
            number = number.wrapping_mul(1664525).wrapping_add(1013904223);
            let base = 2 + n % 3;
            let blocks = digits(number / 65536, base);
            number = number.wrapping_mul(1664525).wrapping_add(1013904223);
            let others = digits(number / 65536, base);
            let row = spread(&blocks);
            assert_eq!(rt;
                least(&row, &shared_bytes(&row, &spread(&others))),
                Some(searched(&blocks, shared_blocks(&blocks, &others)) as usize)
            );
        }
    }
}
