#![tactic(auto)]

// Lines written out by hand.

#[cfg(test)]
mod tests {
    use forest::plan::Placement;
    use printed::bits::{code_text, word_text};
    use printed::plans::{file_text, state_line, width_line};
    use printed::tables::{entry_line, table_line};
    use std::test::Fail;
    use ternary::entry::Entry;
    use ternary::words::{StateCode, StateNo};

    // Three states that mark each "ab".
    const AB: &[u8; 40] = b"\
        \x01\x00\x00\x00\x23\x00\x03\x00\x00\
        \x00\x07\x00\x00\x00\x61\x61\x00\x01\
        \x00\x0b\x00\x00\x00\x61\x61\x00\x01\x62\x62\x00\x02\
        \x00\x07\x07\x00\x00\x61\x61\x00\x01";

    // The highest bit comes first, a place past the 16 bits of a number is 0 or a star, and no place is a hyphen.
    #[test]
    fn prints_codes(rt: HostRuntime) -> Result<(), Fail> {
        let heap = rt.alloc();
        let codes = [
            (0, 0, "-"),
            (0, 65535, "-"),
            (1, 1, "1"),
            (2, 1, "01"),
            (2, 6, "10"),
            (16, 0x8001, "1000000000000001"),
            (18, 0x8001, "001000000000000001"),
        ];
        for (width, code, text) in codes {
            assert!(rt; code_text(heap, width, StateCode(code))?.as_str() == text);
        }
        Ok(())
    }

    #[test]
    fn prints_words(rt: HostRuntime) -> Result<(), Fail> {
        let heap = rt.alloc();
        let words = [
            (0, 0, 0, "-"),
            (2, 0, 0, "**"),
            (2, 2, 2, "1*"),
            (2, 3, 2, "1*"),
            (2, 1, 3, "01"),
            (8, 0x62, 0xff, "01100010"),
            (8, 0x60, 0xe0, "011*****"),
            (17, 0, 0xffff, "*0000000000000000"),
        ];
        for (width, value, mask, text) in words {
            assert!(rt; word_text(heap, width, value, mask)?.as_str() == text);
        }
        Ok(())
    }

    #[test]
    fn prints_the_table_of_ab(rt: HostRuntime) -> Result<(), Fail> {
        let heap = rt.alloc();
        assert!(rt; table_line(heap, 3, 2)?.as_str() == "3 entries, 2 code bits");
        let entries = [
            (2, 1, 3, b'b', 0xff, 2, 7, "01 01100010 10 7"),
            (2, 0, 0, b'a', 0xff, 1, 0, "** 01100001 01 0"),
            (2, 0, 0, 0, 0, 0, 0, "** ******** 00 0"),
            // the one entry of a table with no code bit
            (0, 0, 0, 0, 0, 0, 0, "- ******** - 0"),
        ];
        for (width, code, code_mask, byte, byte_mask, next, class, text) in entries {
            let entry = Entry::new(code, code_mask, byte, byte_mask, StateCode(next), class);
            assert!(rt; entry_line(heap, width, &entry)?.as_str() == text);
        }
        Ok(())
    }

    #[test]
    fn prints_plans(rt: HostRuntime) -> Result<(), Fail> {
        let heap = rt.alloc();
        assert!(rt; width_line(heap, 16)?.as_str() == "16 code bits");
        let only = Placement {
            parent: None,
            depth: 0,
            code: StateCode(0),
            mask: 0,
        };
        assert!(rt;
            state_line(heap, 0, StateNo(0), only)?.as_str() == "state 0 code - shadow - root"
        );
        assert!(rt;
            file_text(heap, AB)?.as_str()
                == "2 code bits\nstate 0 code 00 shadow ** root\nstate 1 code 01 shadow 01 defers to 0\nstate 2 code 10 shadow 10 defers to 0\n"
        );
        assert!(rt; file_text(heap, &[])?.as_str() == "refused 10 at 0\n");
        let long = vec![in heap; 0; 65_537]?;
        assert!(rt; file_text(heap, long.as_slice())?.as_str() == "refused 3\n");
        Ok(())
    }
}
