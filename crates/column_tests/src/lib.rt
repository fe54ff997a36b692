#![tactic(auto)]

// Column cards beside list cards: the same entries and questions, and the same answers. The lent words are all ones
// at first. The expected answers are the list card's, whose own contract is the first match.
#[cfg(test)]
mod tests {
    use card::list::ListCard;
    use card::rules::Card;
    use card::tandem::Tandem;
    use column::columns::ColumnCard;
    use std::process::Abort;
    use std::test::Fail;
    use ternary::entry::Entry;
    use ternary::refusal::Refusal;
    use ternary::words::StateCode;

    // What a lent decision holds at first.
    const STALE: (StateCode, u8) = (StateCode(999), 99);

    // Masks of codes and of bytes, from all bits compared to none.
    const MASKS: [(u16, u8); 8] = [
        (0xffff, 0xff),
        (0xff00, 0xff),
        (0x000f, 0xf0),
        (0x8001, 0x81),
        (0xaaaa, 0x0f),
        (0x0ff0, 0x00),
        (0x7fff, 0x55),
        (0xf00f, 0x3c),
    ];

    // A number that looks like chance, a different one for each n.
    fn chance(n: u32) -> u32 {
        n.wrapping_mul(2_654_435_761).rotate_left(13) ^ n
    }

    // A code and a byte for a number.
    fn key(n: u32) -> (StateCode, u8) {
        let [a, b, c, _] = chance(n).to_be_bytes();
        (StateCode(u16::from_be_bytes([a, b])), c)
    }

    // The entry with a number: it compares some bits of the key of that number.
    fn entry(n: u32) -> Entry {
        let (code, byte) = key(n);
        let (code_mask, byte_mask) = MASKS[(n % 8) as usize];
        let [_, _, class, _] = n.to_be_bytes();
        Entry::new(
            code.0,
            code_mask,
            byte,
            byte_mask,
            StateCode(code.0 ^ 0x5a5a),
            class,
        )
    }

    // The entry that any code and byte match.
    fn any() -> Entry {
        Entry::new(0, 0, 0, 0, StateCode(7), 7)
    }

    // Appends the entries of these numbers to both cards: the same answers.
    fn fill<A: Card, B: Card>(rt: &impl Abort, a: &mut A, b: &mut B, first: u32, last: u32) {
        for n in first..last {
            assert_eq!(rt; a.append(entry(n)), b.append(entry(n)));
        }
        assert_eq!(rt; a.is_empty(), b.is_empty());
    }

    // Asks both cards: for keys that entries were made of, and for others.
    fn ask<A: Card, B: Card>(rt: &impl Abort, a: &A, b: &B, last: u32) {
        for n in 0..last {
            let (code, byte) = key(n);
            assert_eq!(rt; a.search(code, byte), b.search(code, byte));
            let near = StateCode(code.0 ^ 1);
            assert_eq!(rt; a.search(near, byte), b.search(near, byte));
            assert_eq!(rt; a.search(code, byte ^ 0x80), b.search(code, byte ^ 0x80));
        }
    }

    // Fills both empty cards with the entries of `count` numbers from `first` on, asks them, and clears them.
    fn turn<A: Card, B: Card>(rt: &impl Abort, a: &mut A, b: &mut B, first: u16, count: u16) {
        assert!(rt; a.is_empty());
        let first = first as u32;
        fill(rt, a, b, first, first + count as u32);
        ask(rt, a, b, 300);
        a.clear();
        b.clear();
        ask(rt, a, b, 10);
    }

    // A column card for 4,096 entries beside a list card, twice, the second time over what the first left.
    fn beside(rt: &impl Abort, count: u16) {
        let mut words = [u64::MAX; 3072];
        let mut decisions = [STALE; 4096];
        let mut column = ColumnCard::new(&mut words, &mut decisions);
        let mut places = [any(); 4096];
        let mut list = ListCard::new(&mut places);
        turn(rt, &mut column, &mut list, 0, count);
        turn(rt, &mut column, &mut list, 5000, count);
    }

    #[test]
    fn few_entries(rt: HostRuntime) {
        beside(&rt, 0);
        beside(&rt, 1);
        beside(&rt, 63);
    }

    #[test]
    fn at_the_end_of_a_word(rt: HostRuntime) {
        beside(&rt, 64);
        beside(&rt, 65);
    }

    #[test]
    fn all_places(rt: HostRuntime) {
        beside(&rt, 4096);
        // one more is refused by both
        beside(&rt, 4097);
    }

    #[test]
    fn first_match_in_a_later_word(rt: HostRuntime) -> Result<(), Fail> {
        let mut words = [u64::MAX; 96];
        let mut decisions = [STALE; 66];
        let mut card = ColumnCard::new(&mut words, &mut decisions);
        for n in 0..64 {
            card.append(Entry::new(n, 0xffff, 0, 0, StateCode(n), 1))?;
        }
        assert_eq!(rt; card.search(StateCode(64), 5), None);
        card.append(any())?;
        assert_eq!(rt; card.search(StateCode(64), 5), Some((StateCode(7), 7)));
        assert_eq!(rt; card.search(StateCode(63), 5), Some((StateCode(63), 1)));
        card.append(Entry::new(64, 0xffff, 0, 0, StateCode(64), 1))?;
        assert_eq!(rt; card.search(StateCode(64), 5), Some((StateCode(7), 7)));
        assert_eq!(rt; card.append(any()), Err(Refusal::CardFull));
        Ok(())
    }

    // The capacity of a card over so many words and decisions.
    fn capacity(words: usize, decisions: usize) -> Option<u16> {
        let mut all_words = [u64::MAX; 4000];
        let mut all_decisions = [STALE; 5000];
        if words <= 4000 && decisions <= 5000 {
            let card = ColumnCard::new(&mut all_words[0..words], &mut all_decisions[0..decisions]);
            Some(card.capacity())
        } else {
            None
        }
    }

    #[test]
    fn capacity_is_the_least_of_three(rt: HostRuntime) {
        assert_eq!(rt; capacity(0, 0), Some(0));
        assert_eq!(rt; capacity(47, 5000), Some(0));
        assert_eq!(rt; capacity(48, 5000), Some(64));
        assert_eq!(rt; capacity(95, 5000), Some(64));
        assert_eq!(rt; capacity(96, 5000), Some(128));
        assert_eq!(rt; capacity(4000, 65), Some(65));
        assert_eq!(rt; capacity(3072, 5000), Some(4096));
        assert_eq!(rt; capacity(4000, 5000), Some(4096));
    }

    // A tandem for 100 entries and a list card, with the same entries.
    fn hundred<C: Card>(rt: &impl Abort, pair: &mut C) {
        let mut places = [any(); 100];
        let mut list = ListCard::new(&mut places);
        assert_eq!(rt; pair.capacity(), 100);
        turn(rt, pair, &mut list, 0, 101);
    }

    #[test]
    fn before_a_list_card(rt: HostRuntime) {
        let mut words = [u64::MAX; 96];
        let mut decisions = [STALE; 65];
        let mut places = [any(); 35];
        let column = ColumnCard::new(&mut words, &mut decisions);
        hundred(&rt, &mut Tandem::new(column, ListCard::new(&mut places)));
    }

    #[test]
    fn behind_a_list_card(rt: HostRuntime) {
        let mut words = [u64::MAX; 48];
        let mut decisions = [STALE; 64];
        let mut places = [any(); 36];
        let column = ColumnCard::new(&mut words, &mut decisions);
        hundred(&rt, &mut Tandem::new(ListCard::new(&mut places), column));
    }
}
