// The words of a shortest list, from the nodes of a row's subtrees.
ghost use Rattle.std.specs.Prelude.{◌≡◌, ◌+◌, ◌^◌, ◌<◌, ◌≤◌, ◌++◌, length};
ghost use Rattle.arrayvec.specs.ArrayVec.{array_vec_len};
ghost use Rattle.prefix.specs.Tree.{leaf};
ghost use Rattle.prefix.specs.States.{flags};
ghost use Rattle.prefix.specs.Listed.{numbered, tree_at, words_for, closing, bare_under, cover};
ghost use Rattle.prefix.specs.Parts.{Inside};
ghost use Rattle.prefix.specs.Subtrees.{Stands, bare_in, covering_in};

use crate::sets::contains;
use crate::trees::{Node, Prefix, Row, Subtrees};
use crate::word::PrefixWord;
use arrayvec::ArrayVec;
use ternary::words::StateNo;

impl Node {
    // Whether a shortest list below a word that decides `above`, if there is one, has no word that covers the subtree.
    fn bare_under(self, states: &[u16], above: Option<StateNo>) -> bool
        requires { Inside (length states.now) self.candidates }
        ensures { result ≡ bare_in states.now self above }
    {
        match above {
            None => self.bare,
            Some(state) => contains(self.candidates.of(states), state.0),
        }
    }

    // The decision of a word that covers the subtree, where a shortest list below `above` has one.
    fn covering(self, states: &[u16], above: Option<StateNo>) -> Option<StateNo>
        requires { (self.candidates.first < self.candidates.end) × Inside (length states.now) self.candidates }
        ensures { result ≡ covering_in states.now self above }
    {
        if self.bare_under(states, above) {
            None
        } else {
            Some(StateNo(states[self.candidates.first as usize]))
        }
    }
}

impl Row<'_> {
    // Whether a shortest list below `above` has no word for the byte.
    fn bare_under(self, byte: u8, above: Option<StateNo>) -> bool
        ensures { result ≡ bare_under above (leaf (numbered self.entry.successors.now byte) (flags self.entry.deferrable.now byte)) }
    {
        match above {
            None => self.deferrable[byte as usize],
            Some(state) => state == self.successors[byte as usize],
        }
    }

    // The decision of a word for the byte, where such a list has one.
    fn covering(self, byte: u8, above: Option<StateNo>) -> Option<StateNo>
        ensures { result ≡ cover above (leaf (numbered self.entry.successors.now byte) (flags self.entry.deferrable.now byte)) }
    {
        if self.bare_under(byte, above) {
            None
        } else {
            Some(self.successors[byte as usize])
        }
    }
}

impl Prefix {
    // Appends a word that covers the bytes of the prefix, where there is a decision for it.
    fn close(self, covering: Option<StateNo>, words: &mut ArrayVec<PrefixWord<StateNo>, 256>)
        requires { array_vec_len words.old + length (closing self covering) ≤ 256 }
        ensures { words.new.items ≡ words.old.items ++ closing self covering }
    {
        if let Some(next) = covering {
            words.push(PrefixWord {
                bits: self.bits,
                value: self.value,
                next,
            });
        }
    }
}

impl Subtrees<'_> {
    // Appends a shortest list for the bytes of a prefix, below a word that decides `above` where there is one.
    #[cycle(emit)]
    pub(crate) fn emit(
        &self,
        number: u16,
        prefix: Prefix,
        above: Option<StateNo>,
        words: &mut ArrayVec<PrefixWord<StateNo>, 256>,
    )
        requires inside { (prefix.bits < 8) × (prefix.value < 2 ^ prefix.bits) }
        requires stands { Stands self.now.nodes.items self.now.candidates.items number (tree_at self.now.row prefix) }
        requires room { array_vec_len words.old + length (words_for self.now.row prefix above) ≤ 256 }
        ensures { words.new.items ≡ words.old.items ++ words_for self.now.row prefix above }
    {
        let node = self.node(number);
        let covering = node.covering(&self.candidates, above);
        if let Some(halves) = node.halves {
            let below = covering.or(above);
            let (low, high) = prefix.halves();
            self.emit_half(halves.low, low, below, words);
            self.emit_half(halves.high, high, below, words);
        }
        prefix.close(covering, words);
    }

    // The same for a half of a prefix, which may be one byte.
    #[cycle(emit)]
    fn emit_half(
        &self,
        number: u16,
        half: Prefix,
        above: Option<StateNo>,
        words: &mut ArrayVec<PrefixWord<StateNo>, 256>,
    )
        requires inside { (half.bits ≤ 8) × (half.value < 2 ^ half.bits) }
        requires stands { Stands self.now.nodes.items self.now.candidates.items number (tree_at self.now.row half) }
        requires room { array_vec_len words.old + length (words_for self.now.row half above) ≤ 256 }
        ensures { words.new.items ≡ words.old.items ++ words_for self.now.row half above }
    {
        if half.bits == 8 {
            half.close(self.row.covering(half.value, above), words);
            return;
        }
        self.emit(number, half, above, words);
    }
}
