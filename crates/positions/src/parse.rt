//! From a pattern's text to its positions.
ghost use Rattle.std.specs.Prelude.{◌≡◌, ◌+◌, ◌≤◌, List, [], ◌∷◌, ◌++◌, None};
ghost use Rattle.patterns.specs.Language.{Regex};
ghost use Rattle.patterns.specs.Patterns.{total};
ghost use Rattle.syntax.specs.Follow.{fault_of};
ghost use Rattle.syntax.specs.Compile.{signs_of, deepest};
ghost use Rattle.positions.specs.Tables.{AreTables, IsPart};
ghost use Rattle.positions.specs.Groups.{atoms, expression};

use crate::groups::Groups;
use crate::part::Part;
use crate::tables::Tables;
use syntax::lexer::lexeme;

/// Adds a pattern to the tables, and answers what is known of its expression.
pub fn parse(tables: &mut Tables, text: &[u8]) -> Part
    requires known { (done : List Regex) × AreTables tables.old done }
    requires right { fault_of text.now ≡ None }
    requires shallow { deepest 0 (signs_of text.now) ≤ 32 }
    requires room { tables.old.count + atoms (signs_of text.now) ≤ 256 }
    ensures count { tables.new.count ≡ tables.old.count + atoms (signs_of text.now) }
    ensures tables { (done : List Regex) → AreTables tables.old done
        → AreTables tables.new (done ++ (expression text.now ∷ [])) }
    ensures part { (done : List Regex) → AreTables tables.old done
        → IsPart result (total done) (expression text.now) }
{
    let mut groups = Groups::new();
    let mut place = 0;
    while place < text.len() {
        let first = lexeme(&text[place..]);
        groups.read(tables, first.token);
        place += first.width;
    }
    let Some(part) = groups.inner.whole(tables) else {
        unreachable!()
    };
    part
}
