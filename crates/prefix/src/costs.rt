// The costs of the subtrees of a row.
ghost use Rattle.std.specs.Prelude.{◌≡◌, ◌+◌, ◌-◌, ◌*◌, ◌^◌, ◌<◌, ◌≤◌, [], ◌∷◌, ◌++◌, cond, nat_eq, slice_get};
ghost use Rattle.arrayvec.specs.ArrayVec.{array_vec_len};
ghost use Rattle.prefix.specs.Tree.{leaf, common, either, extra};
ghost use Rattle.prefix.specs.States.{flags};
ghost use Rattle.prefix.specs.Listed.{numbered, tree_at};
ghost use Rattle.prefix.specs.Parts.{Inside, part_of};
ghost use Rattle.prefix.specs.Subtrees.{Says, Joined, Added, room as states_at_most};

use crate::sets::{Part, States, append_common, append_part};
use crate::trees::{Halves, Node, Prefix, Subtrees};

// Appends the candidates of a subtree from those of its halves: those in common, or all of both where there are none.
// Answers whether there are none.
fn append_candidates(states: &mut States, low: Part, high: Part) -> bool
    requires inside { Inside (array_vec_len states.old) low × Inside (array_vec_len states.old) high }
    requires room { array_vec_len states.old + (low.end - low.first) + (high.end - high.first) ≤ 2304 }
    ensures apart { cond result 1 0 ≡ extra (common nat_eq (part_of states.old.items low) (part_of states.old.items high)) }
    ensures stores { states.new.items ≡ states.old.items ++ either (common nat_eq (part_of states.old.items low) (part_of states.old.items high)) (part_of states.old.items low) (part_of states.old.items high) }
{
    let first = states.len();
    append_common(states, low, high);
    let apart = states.len() == first;
    if apart {
        append_part(states, low);
        append_part(states, high);
    }
    apart
}

impl Node {
    // The node of a whole from those of its halves. Its candidates are appended to the states.
    fn of_halves(low: Node, high: Node, halves: Halves, states: &mut States) -> Node
        requires small { (low.base ≤ 256) × (high.base ≤ 256) × (low.least ≤ 256) × (high.least ≤ 256) }
        requires inside { Inside (array_vec_len states.old) low.candidates × Inside (array_vec_len states.old) high.candidates }
        requires room { array_vec_len states.old + (low.candidates.end - low.candidates.first) + (high.candidates.end - high.candidates.first) ≤ 2304 }
        ensures joined { Joined states.old.items states.new.items low high result }
        ensures halves { result.halves ≡ Some halves }
    {
        let first = states.len() as u16;
        let apart = append_candidates(states, low.candidates, high.candidates);
        let base = low.base + high.base + u16::from(apart);
        let split = low.least + high.least;
        Node {
            base,
            least: split.min(base + 1),
            bare: split <= base + 1,
            candidates: Part {
                first,
                end: states.len() as u16,
            },
            halves: Some(halves),
        }
    }
}

impl Subtrees<'_> {
    // The node of one byte. Its state is appended to the states.
    fn byte(&mut self, value: u8) -> Node
        requires { array_vec_len self.old.candidates < 2304 }
        ensures says { Says self.new.candidates.items result (leaf (numbered self.old.row.successors.now value) (flags self.old.row.deferrable.now value)) }
        ensures alone { result.halves ≡ None }
        ensures rest { (self.new.row ≡ self.old.row) × (self.new.nodes ≡ self.old.nodes) × (self.new.candidates.items ≡ self.old.candidates.items ++ numbered self.old.row.successors.now value ∷ []) }
    {
        let first = self.candidates.len() as u16;
        self.candidates.push(self.row.successors[value as usize].0);
        let deferrable = self.row.deferrable[value as usize];
        Node {
            base: 0,
            least: u16::from(!deferrable),
            bare: deferrable,
            candidates: Part {
                first,
                end: first + 1,
            },
            halves: None,
        }
    }

    // The node of a number.
    pub(crate) fn node(&self, number: u16) -> Node
        requires { number < array_vec_len self.now.nodes }
        ensures { slice_get self.now.nodes.items number ≡ Some result }
    {
        self.nodes[number as usize]
    }

    // Adds a node, and answers its number.
    fn push(&mut self, node: Node) -> u16
        requires { array_vec_len self.old.nodes < 511 }
        ensures number { result ≡ array_vec_len self.old.nodes }
        ensures nodes { self.new.nodes.items ≡ self.old.nodes.items ++ node ∷ [] }
        ensures rest { (self.new.row ≡ self.old.row) × (self.new.candidates ≡ self.old.candidates) }
    {
        let number = self.nodes.len() as u16;
        self.nodes.push(node);
        number
    }

    // Adds the subtree of a prefix, and answers the number of its node.
    #[cycle(add)]
    pub(crate) fn add(&mut self, prefix: Prefix) -> u16
        requires inside { (prefix.bits < 8) × (prefix.value < 2 ^ prefix.bits) }
        requires room { (array_vec_len self.old.nodes + 2 * 2 ^ (8 - prefix.bits) ≤ 512) × (array_vec_len self.old.candidates + states_at_most (8 - prefix.bits) ≤ 2304) }
        ensures { Added self.old self.new result (tree_at self.old.row prefix) }
    {
        let (lower, upper) = prefix.halves();
        let low = self.add_half(lower);
        let high = self.add_half(upper);
        let halves = Halves { low, high };
        let node = Node::of_halves(
            self.node(low),
            self.node(high),
            halves,
            &mut self.candidates,
        );
        self.push(node)
    }

    // The same for a half of a prefix, which may be one byte.
    #[cycle(add)]
    fn add_half(&mut self, half: Prefix) -> u16
        requires inside { (half.bits ≤ 8) × (half.value < 2 ^ half.bits) }
        requires room { (array_vec_len self.old.nodes + 2 * 2 ^ (8 - half.bits) ≤ 512) × (array_vec_len self.old.candidates + states_at_most (8 - half.bits) ≤ 2304) }
        ensures { Added self.old self.new result (tree_at self.old.row half) }
    {
        if half.bits == 8 {
            let node = self.byte(half.value);
            return self.push(node);
        }
        self.add(half)
    }
}
