// Expressions.
ghost use Rattle.std.specs.Prelude.{◌≡◌, List, [], ◌∷◌, ◌++◌, length, slice_get, option_copied, OnOk, OnErr};
ghost use Rattle.query_tree.specs.declared.expression.WhenList.{out-WhenList};
ghost use Rattle.std.specs.Prelude.{IfOk, option_map};
ghost use Rattle.grammar.specs.Trees.{Tree as tree};
ghost use Rattle.grammar.specs.Trees.{place_of, otherwise_of};
ghost use Rattle.grammar.specs.Trees.{trees_of as trees};
ghost use Rattle.grammar.specs.Trees.{whens_of as whens};
ghost use Rattle.query_tree.specs.Views.{tree_of, trees_of, whens_of};

use crate::Placed;
use lp_values::{Real, Text};
use std::alloc::{AllocError, Global};

/// An expression; `at` is the place of its first token, in bytes.
#[derive(Drop)]
#[cycle(tree)]
pub enum Expr {
    Integer {
        at: u32,
        value: i64,
    },
    Real {
        at: u32,
        value: Real,
    },
    Text {
        at: u32,
        value: Text,
    },
    Null {
        at: u32,
    },
    /// `TIMESTAMP('value', 'pattern')`.
    Timestamp {
        at: u32,
        value: Placed,
        pattern: Placed,
    },
    Word {
        at: u32,
        name: Text,
    },
    Call {
        at: u32,
        name: Text,
        arguments: ExprList,
    },
    /// `COUNT(*)`.
    CountAll {
        at: u32,
    },
    /// `PROPCOUNT(*)`.
    PropCountAll {
        at: u32,
    },
    Case {
        at: u32,
        subject: Box<Expr>,
        branches: WhenList,
        otherwise: Option<Box<Expr>>,
    },
}

impl Expr {
    /// The place of its first token, in bytes.
    pub fn place(&self) -> u32
        ensures { result ≡ place_of (tree_of self.now) }
    {
        match self {
            Expr::Integer { at, .. } => *at,
            Expr::Real { at, .. } => *at,
            Expr::Text { at, .. } => *at,
            Expr::Null { at } => *at,
            Expr::Timestamp { at, .. } => *at,
            Expr::Word { at, .. } => *at,
            Expr::Call { at, .. } => *at,
            Expr::CountAll { at } => *at,
            Expr::PropCountAll { at } => *at,
            Expr::Case { at, .. } => *at,
        }
    }

    /// A call of a function.
    pub fn call(at: u32, name: Text, arguments: ExprList) -> Expr
        ensures { tree_of result ≡ tree.Call at name (trees (trees_of arguments)) }
    {
        Expr::Call {
            at,
            name,
            arguments,
        }
    }

    /// A CASE with its branches.
    pub fn case(
        alloc: Global,
        at: u32,
        subject: Expr,
        branches: WhenList,
        otherwise: Option<Expr>,
    ) -> Result<Expr, AllocError>
        ensures { IfOk result (λ e. tree_of e ≡ tree.Case at (tree_of subject) (whens (whens_of branches)) (otherwise_of (option_map tree_of otherwise))) }
    {
        let subject = Box::new(alloc, subject)?;
        match otherwise {
            None => Ok(Expr::Case {
                at,
                subject,
                branches,
                otherwise: None,
            }),
            Some(value) => {
                let value = Box::new(alloc, value)?;
                Ok(Expr::Case {
                    at,
                    subject,
                    branches,
                    otherwise: Some(value),
                })
            }
        }
    }
}

/// A WHEN of a CASE and its THEN.
#[derive(Drop)]
#[cycle(tree)]
pub struct When {
    pub test: Expr,
    pub value: Expr,
}

/// Expressions in order.
#[derive(Drop)]
#[cycle(tree)]
pub struct ExprList {
    pub items: Vec<Expr>,
}

impl ExprList {
    pub fn new(alloc: Global) -> Self
        ensures { result.items.items ≡ [] }
    {
        ExprList {
            items: Vec::new(alloc),
        }
    }

    pub fn len(&self) -> usize
        ensures { result ≡ length self.now.items.items }
    {
        self.items.len()
    }

    pub fn get(&self, index: usize) -> Option<&Expr>
        ensures { option_copied result ≡ slice_get self.now.items.items index }
    {
        self.items.get(index)
    }

    /// Adds one at the end. An `Err` changes nothing, and the one is gone.
    pub fn push(&mut self, item: Expr) -> Result<(), AllocError>
        ensures ok { OnOk result (self.new.items.items ≡ self.old.items.items ++ item ∷ []) }
        ensures err { OnErr result (self.new.items.items ≡ self.old.items.items) }
    {
        self.items.push(item)?;
        Ok(())
    }
}

/// The branches of a CASE in order.
#[derive(Drop)]
#[cycle(tree)]
pub struct WhenList {
    pub items: Vec<When>,
}

impl WhenList {
    pub fn new(alloc: Global) -> Self
        ensures { (out-WhenList result).items.items ≡ [] }
    {
        WhenList {
            items: Vec::new(alloc),
        }
    }

    pub fn len(&self) -> usize
        ensures { result ≡ length (out-WhenList self.now).items.items }
    {
        self.items.len()
    }

    pub fn get(&self, index: usize) -> Option<&When>
        ensures { option_copied result ≡ slice_get (out-WhenList self.now).items.items index }
    {
        self.items.get(index)
    }

    /// Adds one at the end. An `Err` changes nothing, and the one is gone.
    pub fn push(&mut self, item: When) -> Result<(), AllocError>
        ensures ok { OnOk result ((out-WhenList self.new).items.items ≡ (out-WhenList self.old).items.items ++ item ∷ []) }
        ensures err { OnErr result ((out-WhenList self.new).items.items ≡ (out-WhenList self.old).items.items) }
    {
        self.items.push(item)?;
        Ok(())
    }
}
