//! Laws on the two faults of a query's tokens.
//!
//! The parser answers `Syntax` and `TooDeep` with a place each, by `SyntaxAt` and `TooDeepAt` of its definitions. These
//! functions do no work: their contracts are the laws that each of the two has one place at most, that the same tokens
//! never have both, and that the tokens of a query have neither. With `query_parser::one_tree`, no two answers fit the
//! same tokens, but for want of memory.
#![tactic(auto)]

ghost use Rattle.std.specs.Prelude.{◌≡◌, ℕ, List, length};
ghost use Rattle.grammar.specs.Trees as model;
ghost use Rattle.grammar.specs.Forms.{Kind as kind};
ghost use Rattle.grammar.specs.Rules.{query};
ghost use Rattle.grammar.specs.Derivations.{Derivation, depth_to};
ghost use Rattle.grammar.specs.Whole.{Derives};
ghost use Rattle.query_parser.specs.Parsed.{levels, SyntaxAt, TooDeepAt};
ghost use Rattle.query_laws.specs.Fronts.{BeginsWith};

/// The law that the levels open among the first tokens are told by these tokens alone: two queries that begin with them
/// have as many.
pub fn one_depth()
    ensures { (front : List model.Token) (d e : Derivation kind.query query) → BeginsWith d front → BeginsWith e front
        → depth_to (length front) d ≡ depth_to (length front) e }
{}

/// The law that tokens have one place of a syntax fault at most.
pub fn one_syntax_fault()
    ensures { (all : List model.Token) (size one two : ℕ) → SyntaxAt all size one → SyntaxAt all size two → one ≡ two }
{}

/// The law that tokens have one place of a level too many at most.
pub fn one_depth_fault()
    ensures { (all : List model.Token) (one two : ℕ) → TooDeepAt all one → TooDeepAt all two → one ≡ two }
{}

/// The law that the same tokens never have both faults, wherever they may be.
pub fn faults_exclude()
    ensures { (all : List model.Token) (size one two : ℕ) → SyntaxAt all size one → TooDeepAt all two → ⊥ }
{}

/// The law that the tokens of a query have neither fault.
pub fn queries_have_no_fault()
    ensures no_syntax_fault { (all : List model.Token) (size at : ℕ) (v : model.Query) → Derives levels query all v → SyntaxAt all size at → ⊥ }
    ensures no_depth_fault { (all : List model.Token) (at : ℕ) (v : model.Query) → Derives levels query all v → TooDeepAt all at → ⊥ }
{}
