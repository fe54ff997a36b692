//! The positions that follow each position, and those that each byte reads.
ghost use Rattle.std.specs.Prelude.{◌≡◌, ℕ, ◌+◌, ◌<◌, ◌&&◌, ◌||◌, ◌==◌, List, [], ◌∷◌, ◌++◌, Option};
ghost use Rattle.patterns.specs.Language.{Regex, atom, many, maybe};
ghost use Rattle.patterns.specs.Patterns.{total};
ghost use Rattle.syntax.specs.Tokens.{meaning};

use crate::part::Part;
use crate::set::Set;
use syntax::class::class_holds;
use syntax::token::Token;

/// The tables of the expressions that were read so far.
#[derive(Clone, Copy)]
pub struct Tables {
    /// how many positions there are
    pub count: usize,
    /// for each position, those that may be read right after it
    pub follow: [Set; 256],
    /// for each byte, the positions whose class holds it
    pub holds: [Set; 256],
}

ghost use Rattle.positions.specs.Sets.{in_set};
ghost use Rattle.syntax.specs.Parse.{join, choose, change};
ghost use Rattle.positions.specs.Tables.{is_read, set_at, IsOptional, listed, width};

/// Whether the atom of a token reads a byte.
fn reads(token: Token, b: u8) -> bool
    ensures { result ≡ is_read (meaning token.entry) b }
{
    match token {
        Token::Literal(c) => *c == b,
        Token::Dot => true,
        Token::Class(text) => class_holds(text, b),
        _ => false,
    }
}

/// Lets the bytes that the atom of a token reads read a position.
fn mark(holds: &mut [Set; 256], token: Token, place: usize)
    requires { place < 256 }
    ensures { (b : ℕ) → b < 256 → (p : ℕ)
        → in_set (set_at holds.new b) p
        ≡ (in_set (set_at holds.old b) p || (p == place && is_read (meaning token.entry) b)) }
{
    for b in 0..256usize {
        if reads(token, b as u8) {
            let set = holds[b].with(place);
            holds[b] = set;
        }
    }
}

/// Lets the positions of one set follow those of another.
fn link(follow: &mut [Set; 256], last: &Set, first: &Set)
    ensures { (q : ℕ) → q < 256 → (p : ℕ)
        → in_set (set_at follow.new q) p
        ≡ (in_set (set_at follow.old q) p || (in_set last.now q && in_set first.now p)) }
{
    for q in 0..256usize {
        if last.has(q) {
            let set = follow[q].union(first);
            follow[q] = set;
        }
    }
}

impl Tables {
    ghost use Rattle.positions.specs.Tables.{IsPart, AreTables};

    /// The tables of no expression.
    pub fn new() -> Tables
        ensures { AreTables result [] }
    {
        let none = Set::empty();
        let follow = [none; 256];
        let holds = [none; 256];
        Tables {
            count: 0,
            follow,
            holds,
        }
    }

    /// Adds the position of an atom.
    pub fn add(&mut self, token: Token) -> Part
        requires { self.old.count < 256 }
        ensures count { self.new.count ≡ self.old.count + 1 }
        ensures tables { (rs : List Regex) → AreTables self.old rs
            → AreTables self.new (rs ++ (atom (is_read (meaning token.entry)) ∷ [])) }
        ensures part { (rs : List Regex) → AreTables self.old rs
            → IsPart result (total rs) (atom (is_read (meaning token.entry))) }
    {
        let place = self.count;
        mark(&mut self.holds, token, place);
        self.count = place + 1;
        let only = Set::empty().with(place);
        Part {
            nullable: false,
            first: only,
            last: only,
        }
    }

    /// One expression after another, where either may be absent.
    pub fn join(&mut self, l: Option<Part>, r: Option<Part>) -> Option<Part>
        ensures count { self.new.count ≡ self.old.count }
        ensures tables { (before after : List Regex) (lo ro : Option Regex)
            → IsOptional l (total before) lo → IsOptional r (total before + width lo) ro
            → AreTables self.old (before ++ (listed lo ++ (listed ro ++ after)))
            → AreTables self.new (before ++ (listed (join lo ro) ++ after)) }
        ensures part { (k : ℕ) (lo ro : Option Regex) → IsOptional l k lo
            → IsOptional r (k + width lo) ro → IsOptional result k (join lo ro) }
    {
        match (l, r) {
            (None, r) => r,
            (l, None) => l,
            (Some(l), Some(r)) => {
                link(&mut self.follow, &l.last, &r.first);
                Some(l.then(&r))
            }
        }
    }

    /// An expression one or more times, if there is one.
    pub fn repeat(&mut self, piece: Option<Part>) -> Option<Part>
        ensures count { self.new.count ≡ self.old.count }
        ensures tables { (before after : List Regex) (o : Option Regex)
            → IsOptional piece (total before) o
            → AreTables self.old (before ++ (listed o ++ after))
            → AreTables self.new (before ++ (listed (change many o) ++ after)) }
        ensures part { (k : ℕ) (o : Option Regex) → IsOptional piece k o
            → IsOptional result k (change many o) }
    {
        match piece {
            None => None,
            Some(part) => {
                link(&mut self.follow, &part.last, &part.first);
                Some(part)
            }
        }
    }
}

/// One expression or another, where either may be absent.
pub fn choose(l: Option<Part>, r: Option<Part>) -> Option<Part>
    ensures { (k : ℕ) (lo ro : Option Regex) → IsOptional l k lo → IsOptional r (k + width lo) ro
        → IsOptional result k (choose lo ro) }
{
    match (l, r) {
        (None, r) => r,
        (l, None) => l,
        (Some(l), Some(r)) => Some(l.or(&r)),
    }
}

/// An expression or the empty word, if there is an expression.
pub fn make_optional(piece: Option<Part>) -> Option<Part>
    ensures { (k : ℕ) (o : Option Regex) → IsOptional piece k o
        → IsOptional result k (change maybe o) }
{
    match piece {
        None => None,
        Some(part) => Some(Part {
            nullable: true,
            first: part.first,
            last: part.last,
        }),
    }
}
