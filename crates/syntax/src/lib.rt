//! The syntax of patterns: bracket classes, tokens, and which token may follow.
#![tactic(auto)]

ghost use Rattle.syntax.specs.Laws.{SyntaxStands, TokensStand, ParseStands};
ghost use Rattle.syntax.specs.Compile.{CompileStands};

pub mod class;
pub mod fault;
pub mod follow;
pub mod lexer;
pub mod places;
pub mod token;

/// A text without a fault is a pattern, and a fault stands at the first token that cannot follow
/// those before it, or at the text's end.
pub fn syntax_stands()
    ensures { SyntaxStands }
{}

/// The tokens of a text take all its bytes.
pub fn tokens_stand()
    ensures { TokensStand }
{}

/// The parse of a pattern is its one expression.
pub fn parse_stands()
    ensures { ParseStands }
{}

/// An automaton that is built follows the patterns that the texts mean.
pub fn compile_stands()
    ensures { CompileStands }
{}
