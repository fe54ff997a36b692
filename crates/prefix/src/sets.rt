ghost use Rattle.std.specs.Prelude.{◌≡◌, ◌+◌, ◌-◌, ◌≤◌, ◌++◌, length, nat_eq};
ghost use Rattle.prefix.specs.Tree.{has, common};
ghost use Rattle.prefix.specs.Parts.{Inside, part_of};
ghost use Rattle.arrayvec.specs.ArrayVec.{array_vec_len};

use arrayvec::ArrayVec;

// States by their numbers. The nodes of a row have 256 candidates at most at each of the nine lengths of a prefix.
pub(crate) type States = ArrayVec<u16, 2304>;

// Some of the states that stand one after another: those from `first` on, up to `end`.
#[derive(Clone, Copy, Default)]
pub(crate) struct Part {
    pub first: u16,
    pub end: u16,
}

impl Part {
    // The states of the part.
    pub(crate) fn of(self, states: &[u16]) -> &[u16]
        requires { Inside (length states.now) self }
        ensures { result.now ≡ part_of states.now self }
    {
        &states[self.first as usize..self.end as usize]
    }
}

// Whether `state` is one of the states. Most nodes have one candidate or two, for which the library's search would be a call.
pub(crate) fn contains(states: &[u16], state: u16) -> bool
    ensures { result ≡ has nat_eq state states.now }
{
    match states {
        [one] => *one == state,
        [one, two] => *one == state || *two == state,
        _ => states.contains(&state),
    }
}

// Appends the states of `low` that are among those of `high` too.
pub(crate) fn append_common(states: &mut States, low: Part, high: Part)
    requires inside { Inside (array_vec_len states.old) low × Inside (array_vec_len states.old) high }
    requires room { array_vec_len states.old + (low.end - low.first) ≤ 2304 }
    ensures { states.new.items ≡ states.old.items ++ common nat_eq (part_of states.old.items low) (part_of states.old.items high) }
{
    // each is read from the list that it is appended to, so no slice of that list is at hand
    for i in low.first..low.end {
        let state = states[i as usize];
        if contains(high.of(states), state) {
            states.push(state);
        }
    }
}

// Appends the states of `part`.
pub(crate) fn append_part(states: &mut States, part: Part)
    requires inside { Inside (array_vec_len states.old) part }
    requires room { array_vec_len states.old + (part.end - part.first) ≤ 2304 }
    ensures { states.new.items ≡ states.old.items ++ part_of states.old.items part }
{
    // as above
    for i in part.first..part.end {
        let state = states[i as usize];
        states.push(state);
    }
}
