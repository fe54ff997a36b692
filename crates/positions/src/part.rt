//! What is known of an expression whose tokens were read.
ghost use Rattle.std.specs.Prelude.{ℕ, ◌+◌};
ghost use Rattle.patterns.specs.Language.{Regex, both, either};
ghost use Rattle.patterns.specs.Positions.{size};

use crate::set::Set;

/// Whether the expression has the empty word, and which positions may be read first and last.
#[derive(Clone, Copy)]
pub struct Part {
    pub nullable: bool,
    pub first: Set,
    pub last: Set,
}

impl Part {
    ghost use Rattle.positions.specs.Tables.{IsPart};

    /// This expression and then the next one.
    pub fn then(&self, next: &Part) -> Part
        ensures { (k : ℕ) (l r : Regex) → IsPart self.now k l → IsPart next.now (k + size l) r
            → IsPart result k (both l r) }
    {
        let first = if self.nullable {
            self.first.union(&next.first)
        } else {
            self.first
        };
        let last = if next.nullable {
            self.last.union(&next.last)
        } else {
            next.last
        };
        Part {
            nullable: self.nullable && next.nullable,
            first,
            last,
        }
    }

    /// This expression or the other one.
    pub fn or(&self, other: &Part) -> Part
        ensures { (k : ℕ) (l r : Regex) → IsPart self.now k l → IsPart other.now (k + size l) r
            → IsPart result k (either l r) }
    {
        Part {
            nullable: self.nullable || other.nullable,
            first: self.first.union(&other.first),
            last: self.last.union(&other.last),
        }
    }
}
