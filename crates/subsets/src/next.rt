//! The set after one byte more, and the class of a set.
ghost use Rattle.std.specs.Prelude.{◌≡◌, ℕ, ◌<◌, ◌≤◌, ◌&&◌, ◌||◌, List};
ghost use Rattle.patterns.specs.Language.{Regex};
ghost use Rattle.patterns.specs.Patterns.{class_of, next, total};
ghost use Rattle.positions.specs.Sets.{in_set, some_place};
ghost use Rattle.positions.specs.Tables.{set_at};
ghost use Rattle.positions.specs.Patterns.{ArePositions};
ghost use Rattle.subsets.specs.States.{flags_of, IsWithin};

use positions::build::Positions;
use positions::part::Part;
use positions::set::Set;

/// The positions that may be read next, by some byte.
pub fn reach(p: &Positions, set: &Set) -> Set
    ensures { (q : ℕ)
        → in_set result q ≡ (in_set p.now.first q
        || some_place (λ s. in_set set.now s && in_set (set_at p.now.tables.follow s) q)) }
{
    let mut all = p.first;
    for s in 0..256usize {
        if set.has(s) {
            all = all.union(&p.tables.follow[s]);
        }
    }
    all
}

/// Those of them that the byte reads.
pub fn step(p: &Positions, reach: &Set, b: usize) -> Set
    requires { b < 256 }
    ensures { (q : ℕ)
        → in_set result q ≡ (in_set reach.now q && in_set (set_at p.now.tables.holds b) q) }
{
    reach.both(&p.tables.holds[b])
}

/// Whether a word of a pattern ends at a set: the pattern has the empty word or a last position
/// in the set.
fn ends(part: &Part, set: &Set) -> bool
    ensures { result ≡ (part.now.nullable
        || some_place (λ q. in_set part.now.last q && in_set set.now q)) }
{
    part.nullable || part.last.meets(set)
}

/// The class of a set: the lowest pattern with the empty word or a last position in the set, 0 if
/// none has.
pub fn class_of(p: &Positions, set: &Set) -> u8
    requires { p.now.count ≤ 32 }
    ensures { (rs : List Regex) → total rs ≤ 256 → ArePositions p.now rs → IsWithin rs set.now
        → result ≡ class_of rs (flags_of rs set.now) }
{
    for i in 0..p.count {
        if ends(&p.parts[i], set) {
            return i as u8 + 1;
        }
    }
    0
}
