//! Sets of positions below 256, a bit for each.
ghost use Rattle.std.specs.Prelude.{◌≡◌, ℕ, ◌<◌, ◌&&◌, ◌||◌, true, false, ◌==◌};

/// A set of positions.
#[derive(Clone, Copy)]
pub struct Set {
    pub words: [u64; 4],
}

impl Set {
    ghost use Rattle.positions.specs.Sets.{in_set, some_place};

    /// The set of no position.
    pub fn empty() -> Set
        ensures { (p : ℕ) → in_set result p ≡ false }
    {
        Set { words: [0; 4] }
    }

    /// The set with one position more.
    pub fn with(&self, p: usize) -> Set
        requires { p < 256 }
        ensures { (q : ℕ) → in_set result q ≡ (q == p || in_set self.now q) }
    {
        let mut words = self.words;
        words[p / 64] |= 1u64 << (p % 64);
        Set { words }
    }

    /// Whether the set has a position.
    pub fn has(&self, p: usize) -> bool
        requires { p < 256 }
        ensures { result ≡ in_set self.now p }
    {
        (self.words[p / 64] >> (p % 64)) & 1 == 1
    }

    /// The positions of one set or the other.
    pub fn union(&self, other: &Set) -> Set
        ensures { (p : ℕ) → in_set result p ≡ (in_set self.now p || in_set other.now p) }
    {
        let [a, b, c, d] = self.words;
        let [e, f, g, h] = other.words;
        Set {
            words: [a | e, b | f, c | g, d | h],
        }
    }

    /// The positions of both sets.
    pub fn both(&self, other: &Set) -> Set
        ensures { (p : ℕ) → in_set result p ≡ (in_set self.now p && in_set other.now p) }
    {
        let [a, b, c, d] = self.words;
        let [e, f, g, h] = other.words;
        Set {
            words: [a & e, b & f, c & g, d & h],
        }
    }

    /// Whether the sets have a position in common.
    pub fn meets(&self, other: &Set) -> bool
        ensures { result ≡ some_place (λ p. in_set self.now p && in_set other.now p) }
    {
        for p in 0..256usize {
            if self.has(p) && other.has(p) {
                return true;
            }
        }
        false
    }

    /// Whether the sets have the same positions.
    pub fn is_same(&self, other: &Set) -> bool
        ensures one { result ≡ true → self.now ≡ other.now }
        ensures all { ((p : ℕ) → p < 256 → in_set self.now p ≡ in_set other.now p)
            → result ≡ true }
    {
        let [a, b, c, d] = self.words;
        let [e, f, g, h] = other.words;
        if a != e || b != f {
            return false;
        }
        c == g && d == h
    }
}
