//! From tokens to tables, one token after another.
ghost use Rattle.std.specs.Prelude.{◌≡◌, ◌+◌, ◌-◌, ◌≤◌, ◌<◌, [], ◌++◌, List, Option};
ghost use Rattle.patterns.specs.Language.{Regex, atom};
ghost use Rattle.patterns.specs.Patterns.{total};
ghost use Rattle.syntax.specs.Tokens.{Sign, meaning, bar, close_group, open_group, star, plus, question};
ghost use Rattle.syntax.specs.Parse.{Frame, whole, push, closed};
ghost use Rattle.syntax.specs.Compile.{deeper};
ghost use Rattle.positions.specs.Tables.{AreTables, is_read};

use crate::part::Part;
use crate::tables::{Tables, choose, make_optional};
use syntax::token::Token;

/// What was read since an open parenthesis: the branches before, the pieces before in this
/// branch, the last piece.
#[derive(Clone, Copy)]
pub struct Group {
    pub branches: Option<Part>,
    pub pieces: Option<Part>,
    pub piece: Option<Part>,
}

/// The innermost group, and those around it.
#[derive(Clone, Copy)]
pub struct Groups {
    pub inner: Group,
    pub around: [Group; 32],
    pub depth: usize,
}

impl Group {
    ghost use Rattle.std.specs.Prelude.{None, ℕ};
    ghost use Rattle.syntax.specs.Parse.{frame};
    ghost use Rattle.positions.specs.Tables.{IsOptional, listed};
    ghost use Rattle.positions.specs.Groups.{IsGroup, parts_of};

    /// The group of nothing.
    pub fn empty() -> Group
        ensures { (k : ℕ) → IsGroup result k (frame None None None) }
    {
        Group {
            branches: None,
            pieces: None,
            piece: None,
        }
    }

    /// The expression of all that was read.
    pub fn whole(&self, tables: &mut Tables) -> Option<Part>
        ensures count { tables.new.count ≡ tables.old.count }
        ensures tables { (before : List Regex) (f : Frame) → IsGroup self.now (total before) f
            → AreTables tables.old (before ++ parts_of f)
            → AreTables tables.new (before ++ listed (whole f)) }
        ensures part { (k : ℕ) (f : Frame) → IsGroup self.now k f
            → IsOptional result k (whole f) }
    {
        let branch = tables.join(self.pieces, self.piece);
        choose(self.branches, branch)
    }

    /// The group with one piece more, if there is one.
    pub fn closed(&self, tables: &mut Tables, piece: Option<Part>) -> Group
        ensures count { tables.new.count ≡ tables.old.count }
        ensures tables { (before : List Regex) (f : Frame) (o : Option Regex)
            → IsGroup self.now (total before) f
            → AreTables tables.old ((before ++ parts_of f) ++ listed o)
            → IsOptional piece (total (before ++ parts_of f)) o
            → AreTables tables.new (before ++ parts_of (closed o f)) }
        ensures group { (before : List Regex) (f : Frame) (o : Option Regex)
            → IsGroup self.now (total before) f
            → IsOptional piece (total (before ++ parts_of f)) o
            → IsGroup result (total before) (closed o f) }
    {
        match piece {
            None => *self,
            Some(part) => {
                let pieces = tables.join(self.pieces, self.piece);
                Group {
                    branches: self.branches,
                    pieces,
                    piece: Some(part),
                }
            }
        }
    }
}

impl Groups {
    ghost use Rattle.std.specs.Prelude.{None};
    ghost use Rattle.syntax.specs.Parse.{frame};
    ghost use Rattle.positions.specs.Groups.{IsParsed, ReadsSign, atom_count};

    /// Nothing of a pattern was read.
    pub fn new() -> Groups
        ensures depth { result.depth ≡ 0 }
        ensures parsed { (t : Tables) (done : List Regex) → AreTables t done
            → IsParsed t result done (frame None None None) [] }
    {
        let none = Group::empty();
        Groups {
            inner: none,
            around: [none; 32],
            depth: 0,
        }
    }

    /// Reads an atom.
    fn read_atom(&mut self, tables: &mut Tables, token: Token)
        requires { tables.old.count < 256 }
        ensures count { tables.new.count ≡ tables.old.count + 1 }
        ensures depth { self.new.depth ≡ self.old.depth }
        ensures reads { (done : List Regex) (f : Frame) (fs : List Frame)
            → IsParsed tables.old self.old done f fs
            → IsParsed tables.new self.new done (push f (atom (is_read (meaning token.entry)))) fs }
    {
        let part = tables.add(token);
        self.inner = self.inner.closed(tables, Some(part));
    }

    /// Reads an open parenthesis.
    fn open(&mut self)
        requires { self.old.depth < 32 }
        ensures depth { self.new.depth ≡ self.old.depth + 1 }
        ensures reads { (t : Tables) → ReadsSign t self.old t self.new open_group }
    {
        self.around[self.depth] = self.inner;
        self.depth += 1;
        self.inner = Group::empty();
    }

    /// Reads a closing parenthesis.
    fn close(&mut self, tables: &mut Tables)
        requires { self.old.depth ≤ 32 }
        ensures count { tables.new.count ≡ tables.old.count }
        ensures depth { self.new.depth ≡ self.old.depth - 1 }
        ensures reads { ReadsSign tables.old self.old tables.new self.new close_group }
    {
        if self.depth == 0 {
            return;
        }
        let piece = self.inner.whole(tables);
        self.depth -= 1;
        let outer = self.around[self.depth];
        self.inner = outer.closed(tables, piece);
    }

    /// Reads a bar.
    fn bar(&mut self, tables: &mut Tables)
        ensures count { tables.new.count ≡ tables.old.count }
        ensures depth { self.new.depth ≡ self.old.depth }
        ensures reads { ReadsSign tables.old self.old tables.new self.new bar }
    {
        let branches = self.inner.whole(tables);
        self.inner = Group {
            branches,
            pieces: None,
            piece: None,
        };
    }

    /// Reads a star.
    fn star(&mut self, tables: &mut Tables)
        ensures count { tables.new.count ≡ tables.old.count }
        ensures depth { self.new.depth ≡ self.old.depth }
        ensures reads { ReadsSign tables.old self.old tables.new self.new star }
    {
        let piece = tables.repeat(self.inner.piece);
        self.inner.piece = make_optional(piece);
    }

    /// Reads a plus.
    fn plus(&mut self, tables: &mut Tables)
        ensures count { tables.new.count ≡ tables.old.count }
        ensures depth { self.new.depth ≡ self.old.depth }
        ensures reads { ReadsSign tables.old self.old tables.new self.new plus }
    {
        self.inner.piece = tables.repeat(self.inner.piece);
    }

    /// Reads a question mark.
    fn question(&mut self)
        ensures depth { self.new.depth ≡ self.old.depth }
        ensures reads { (t : Tables) → ReadsSign t self.old t self.new question }
    {
        self.inner.piece = make_optional(self.inner.piece);
    }

    /// Reads a token.
    pub fn read(&mut self, tables: &mut Tables, token: Token)
        requires room { tables.old.count + atom_count (meaning token) ≤ 256 }
        requires depth { deeper self.old.depth (meaning token) ≤ 32 }
        requires shallow { self.old.depth ≤ 32 }
        ensures count { tables.new.count ≡ tables.old.count + atom_count (meaning token.entry) }
        ensures depth { self.new.depth ≡ deeper self.old.depth (meaning token.entry) }
        ensures reads { ReadsSign tables.old self.old tables.new self.new (meaning token.entry) }
    {
        match token {
            Token::Literal(_) | Token::Dot | Token::Class(_) => self.read_atom(tables, token),
            Token::Open => self.open(),
            Token::Close => self.close(tables),
            Token::Bar => self.bar(tables),
            Token::Star => self.star(tables),
            Token::Plus => self.plus(tables),
            Token::Question => self.question(),
            Token::Broken => {}
        }
    }
}
