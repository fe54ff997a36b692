#![tactic(auto)]

// Images written out byte by byte, and what the reader and the writer say of them.
#[cfg(test)]
mod tests {
    use image::reader::{Header, unpack};
    use image::writer::pack;
    use std::test::Fail;
    use ternary::entry::Entry;
    use ternary::refusal::Refusal;
    use ternary::words::{StateCode, StateNo};

    // The table that marks "ab": two code bits, three states, three entries.
    const AB: &[u8; 45] = b"\x01\x00\x00\x00\x28\x02\x00\x03\x00\x00\x00\x03\
        \x00\x00\x00\x01\x00\x02\
        \x00\x01\x00\x03\x62\xff\x00\x02\x07\
        \x00\x00\x00\x00\x61\xff\x00\x01\x00\
        \x00\x00\x00\x00\x00\x00\x00\x00\x00";

    // Whether some bytes are accepted, or how they are refused.
    fn verdict(bytes: &[u8]) -> Result<(), Refusal> {
        match unpack(bytes) {
            Ok(_) => Ok(()),
            Err(refusal) => Err(refusal),
        }
    }

    // The image above with four bytes from `at` on changed.
    fn changed(at: usize, new: [u8; 4]) -> [u8; 45] {
        let mut bytes = *AB;
        if at < 42 {
            let [a, b, c, d] = new;
            bytes[at] = a;
            bytes[at + 1] = b;
            bytes[at + 2] = c;
            bytes[at + 3] = d;
        }
        bytes
    }

    // The image above with four bytes changed, and the offset of the field that then breaks a rule.
    #[test]
    fn refuses_each_broken_rule(rt: HostRuntime) {
        let cases = [
            (0, [2, 0, 0, 0], 0), // version
            (1, [0, 0, 0, 0x29], 1), // length of the rest
            (1, [1, 0, 0, 0x28], 1), // length of the rest, its highest byte
            (5, [17, 0, 3, 0], 5), // 17 code bits
            (6, [0, 0, 0, 0], 6), // no state
            (6, [2, 1, 0, 0], 6), // 513 states
            (6, [0, 3, 0, 3], 8), // start state 3 of three
            (8, [0, 0, 0x10, 1], 10), // 4,097 entries
            (8, [0, 0, 0, 2], 12), // the size is not that of two entries
            (6, [0, 2, 0, 0], 12), // the size is not that of two states
            (14, [0, 1, 0, 4], 16), // code 4 of two bits
            (18, [0, 4, 0, 4], 18), // code value 4 of two bits
            (18, [0, 1, 0, 2], 18), // code value with a bit under a star
            (18, [0, 1, 0, 7], 20), // code mask 7 of two bits
            (20, [0, 3, 0x62, 0xfd], 22), // byte value with a bit under a star
            (22, [0x62, 0xff, 0, 4], 24), // successor code 4 of two bits
            (31, [0x61, 0xff, 0, 4], 33), // successor code 4 in the second entry
        ];
        for (at, new, offset) in cases {
            let bytes = changed(at, new);
            assert_eq!(rt; verdict(&bytes), Err(Refusal::Malformed(offset)));
        }
    }

    // Fewer than twelve bytes are refused by their number, whatever they are.
    #[test]
    fn refuses_short_bytes(rt: HostRuntime) {
        assert_eq!(rt; verdict(b""), Err(Refusal::Malformed(0)));
        let eleven = b"\x02\x00\x00\x00\x28\x11\x00\x00\x00\x00\x00";
        assert_eq!(rt; verdict(eleven), Err(Refusal::Malformed(11)));
    }

    // The parts of the image above, one by one, nothing past the last, and the image made of them again.
    #[test]
    fn hands_out_the_parts(rt: HostRuntime) -> Result<(), Fail> {
        let image = unpack(AB)?;
        let header = Header {
            width: 2,
            states: 3,
            start: StateNo(0),
            entries: 3,
        };
        assert!(rt; image.header() == header);
        let codes = [StateCode(0), StateCode(1), StateCode(2)];
        assert!(rt; image.code(StateNo(2)) == Some(codes[2]));
        assert!(rt; image.code(StateNo(3)) == None);
        let entries = [
            Entry::new(1, 3, 0x62, 0xff, StateCode(2), 7),
            Entry::new(0, 0, 0x61, 0xff, StateCode(1), 0),
            Entry::new(0, 0, 0, 0, StateCode(0), 0),
        ];
        assert!(rt; image.entry(0) == Some(entries[0]));
        assert!(rt; image.entry(3) == None);
        let mut out = [9; 45];
        assert_eq!(rt; pack(2, StateNo(0), &codes, &entries, &mut out), Ok(45));
        assert!(rt; &out == AB);
        Ok(())
    }

    // The least image: no code bit, one state and no entry, in fourteen bytes; the fifteenth stays.
    #[test]
    fn packs_the_least_image(rt: HostRuntime) -> Result<(), Fail> {
        let mut out = [9; 15];
        let size = pack(0, StateNo(0), &[StateCode(0)], &[], &mut out);
        assert_eq!(rt; size, Ok(14));
        assert!(rt; out == [1, 0, 0, 0, 9, 0, 0, 1, 0, 0, 0, 0, 0, 0, 9]);
        let image = unpack(&out[0..14])?;
        assert!(rt; image.code(StateNo(0)) == Some(StateCode(0)));
        assert!(rt; image.entry(0) == None);
        Ok(())
    }

    // The largest image: sixteen code bits, 512 states and 4,096 entries.
    #[test]
    fn packs_the_largest_image(rt: HostRuntime) -> Result<(), Fail> {
        let codes = [StateCode(0xffff); 513];
        let entries = [Entry::new(0xffff, 0xffff, 0, 0, StateCode(0xffff), 255); 4097];
        let mut out = [0; 37900];
        let size = pack(
            16,
            StateNo(511),
            &codes[0..512],
            &entries[0..4096],
            &mut out,
        );
        assert_eq!(rt; size, Ok(37900));
        let image = unpack(&out)?;
        assert!(rt; image.code(StateNo(511)) == Some(StateCode(0xffff)));
        assert!(rt; image.entry(4095) == Some(entries[0]));
        assert!(rt; image.entry(4096) == None);
        let start = StateNo(0);
        assert_eq!(rt;
            pack(16, start, &codes, &entries, &mut out),
            Err(Refusal::Malformed(6))
        );
        assert_eq!(rt;
            pack(16, start, &codes[0..512], &entries, &mut out),
            Err(Refusal::Malformed(10))
        );
        assert_eq!(rt;
            pack(
                16,
                start,
                &codes[0..512],
                &entries[0..4096],
                &mut out[0..37899],
            ),
            Err(Refusal::OutputTooShort)
        );
        Ok(())
    }
}
