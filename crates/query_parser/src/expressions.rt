// Expressions.
ghost use Rattle.std.specs.Prelude.{◌≡◌, ℕ, true, option_map, IfOk};
ghost use Rattle.grammar.specs.Classes.{is_a};
ghost use Rattle.grammar.specs.declared.Class.TheVariants as class;
ghost use Rattle.grammar.specs.Rules.{expr, exprs, literal, plain_word, counting_word, arguments, count_arguments, case', whens, when, case_end, is_integer};
ghost use Rattle.grammar.specs.Trees.{Tree as tree};
ghost use Rattle.grammar.specs.Trees.{call_of, count_of, listed, placed_text, two_texts};
ghost use Rattle.query_tree.specs.Tokens.{seen};
ghost use Rattle.query_tree.specs.Views.{tree_of, trees_of, when_of, whens_of, placed_of};
ghost use Rattle.query_parser.specs.Answers.{Gives, arguments_of, placed_pair};

use crate::cursor::Cursor;
use crate::fault::Stop;
use crate::token::{Sort, class_of, integer_of, real_of, text_of};
use grammar::Class;
use lp_values::Text;
use query_lexer::Token;
use query_tree::{Expr, ExprList, Placed, When, WhenList};
use std::alloc::{AllocError, Global};

/// The place and the text of an expression that is a text.
fn placed_text(alloc: Global, value: &Expr) -> Result<Option<Placed>, AllocError>
    ensures { IfOk result (λ text. option_map placed_of text ≡ placed_text (tree_of value.now)) }
{
    match value {
        Expr::Text { at, value } => {
            let text = value.copy(alloc)?;
            Ok(Some(Placed { at: *at, text }))
        }
        _ => Ok(None),
    }
}

/// The texts of two expressions, where both are texts and there are no others.
fn two_texts(alloc: Global, values: &ExprList) -> Result<Option<(Placed, Placed)>, AllocError>
    ensures { IfOk result (λ texts. option_map placed_pair texts ≡ two_texts (trees_of values.now)) }
{
    match values.items.as_slice() {
        [first, second] => {
            let Some(value) = placed_text(alloc, first)? else {
                return Ok(None);
            };
            let Some(pattern) = placed_text(alloc, second)? else {
                return Ok(None);
            };
            Ok(Some((value, pattern)))
        }
        _ => Ok(None),
    }
}

/// A call of a word, or a TIMESTAMP of two texts.
fn called(alloc: Global, token: &Token, name: Text, arguments: ExprList) -> Result<Expr, AllocError>
    requires { name ≡ (seen token.now).name }
    ensures { IfOk result (λ e. tree_of e ≡ call_of (is_a class.Timestamp (seen token.now).class) (seen token.now) (trees_of arguments)) }
{
    if Class::Timestamp.is(class_of(token)) {
        if let Some((value, pattern)) = two_texts(alloc, &arguments)? {
            return Ok(Expr::Timestamp {
                at: token.at,
                value,
                pattern,
            });
        }
    }
    Ok(Expr::call(token.at, name, arguments))
}

/// The expression that an integer is.
fn integer(token: &Token) -> Expr
    requires { is_integer (seen token.now).class ≡ true }
    ensures { tree_of result ≡ tree.Integer (seen token.now).at (seen token.now).number }
{
    Expr::Integer {
        at: token.at,
        value: integer_of(token),
    }
}

/// The expression that a number with decimals is.
fn real(token: &Token) -> Expr
    requires { is_a class.Real (seen token.now).class ≡ true }
    ensures { tree_of result ≡ tree.Real (seen token.now).at (seen token.now).number }
{
    Expr::Real {
        at: token.at,
        value: real_of(token),
    }
}

/// COUNT or PROPCOUNT of all rows.
fn count_all(token: &Token) -> Expr
    ensures { tree_of result ≡ count_of (is_a class.Count (seen token.now).class) (seen token.now).at }
{
    if Class::Count.is(class_of(token)) {
        Expr::CountAll { at: token.at }
    } else {
        Expr::PropCountAll { at: token.at }
    }
}

impl<'a> Cursor<'a> {
    /// A number, a text or NULL.
    fn literal(&mut self) -> Result<Expr, Stop>
        ensures { (n : ℕ) → Gives n literal self.old.rest.now self.new.rest.now tree_of result }
    {
        if self.next_in(Sort::Integer) {
            let token = self.take_in(Sort::Integer)?;
            return Ok(integer(token));
        }
        if self.next_is(Class::Real) {
            let token = self.take(Class::Real)?;
            return Ok(real(token));
        }
        if self.next_is(Class::Text) {
            let token = self.take(Class::Text)?;
            let value = text_of(self.alloc, token)?;
            return Ok(Expr::Text {
                at: token.at,
                value,
            });
        }
        let token = self.take(Class::Null)?;
        Ok(Expr::Null { at: token.at })
    }

    /// An expression.
    #[cycle(expressions)]
    pub fn expr(&mut self, left: u32) -> Result<Expr, Stop>
        ensures { Gives left expr self.old.rest.now self.new.rest.now tree_of result }
    {
        if self.next_in(Sort::Literal) {
            return self.literal();
        }
        if self.next_in(Sort::Plain) {
            return self.plain_word(left);
        }
        if self.next_in(Sort::Counting) {
            return self.counting_word(left);
        }
        self.case(left)
    }

    /// A word, or a call.
    #[cycle(expressions)]
    fn plain_word(&mut self, left: u32) -> Result<Expr, Stop>
        ensures { Gives left plain_word self.old.rest.now self.new.rest.now tree_of result }
    {
        let token = self.take_in(Sort::Plain)?;
        let name = text_of(self.alloc, token)?;
        if !self.next_is(Class::Open) {
            return Ok(Expr::Word { at: token.at, name });
        }
        let arguments = self.arguments(left)?;
        let value = called(self.alloc, token, name, arguments)?;
        Ok(value)
    }

    /// COUNT or PROPCOUNT, as a word or a call.
    #[cycle(expressions)]
    fn counting_word(&mut self, left: u32) -> Result<Expr, Stop>
        ensures { Gives left counting_word self.old.rest.now self.new.rest.now tree_of result }
    {
        let token = self.take_in(Sort::Counting)?;
        let name = text_of(self.alloc, token)?;
        if !self.next_is(Class::Open) {
            return Ok(Expr::Word { at: token.at, name });
        }
        let counted = self.count_arguments(left)?;
        match counted {
            None => Ok(count_all(token)),
            Some(arguments) => Ok(Expr::call(token.at, name, arguments)),
        }
    }

    /// What stands in the parentheses of a call.
    #[cycle(expressions)]
    fn arguments(&mut self, left: u32) -> Result<ExprList, Stop>
        ensures { Gives left arguments self.old.rest.now self.new.rest.now (λ es. listed (trees_of es)) result }
    {
        let _open = self.open(Class::Open, left)?;
        if !self.next_in(Sort::Expression) {
            let _close = self.take(Class::Close)?;
            return Ok(ExprList::new(self.alloc));
        }
        let items = self.exprs(left - 1)?;
        let _close = self.take(Class::Close)?;
        Ok(items)
    }

    /// What stands in the parentheses behind COUNT or PROPCOUNT; `None` is `*`.
    #[cycle(expressions)]
    fn count_arguments(&mut self, left: u32) -> Result<Option<ExprList>, Stop>
        ensures { Gives left count_arguments self.old.rest.now self.new.rest.now arguments_of result }
    {
        let _open = self.open(Class::Open, left)?;
        if self.next_is(Class::Star) {
            let _star = self.take(Class::Star)?;
            let _close = self.take(Class::Close)?;
            return Ok(None);
        }
        if !self.next_in(Sort::Expression) {
            let _close = self.take(Class::Close)?;
            return Ok(Some(ExprList::new(self.alloc)));
        }
        let items = self.exprs(left - 1)?;
        let _close = self.take(Class::Close)?;
        Ok(Some(items))
    }

    /// Expressions between commas.
    #[cycle(expressions)]
    pub fn exprs(&mut self, left: u32) -> Result<ExprList, Stop>
        ensures { Gives left exprs self.old.rest.now self.new.rest.now trees_of result }
    {
        let mut items = ExprList::new(self.alloc);
        let first = self.expr(left)?;
        items.push(first)?;
        while self.next_is(Class::Comma) {
            let _comma = self.take(Class::Comma)?;
            let item = self.expr(left)?;
            items.push(item)?;
        }
        Ok(items)
    }

    /// CASE to its END.
    #[cycle(expressions)]
    fn case(&mut self, left: u32) -> Result<Expr, Stop>
        ensures { Gives left case' self.old.rest.now self.new.rest.now tree_of result }
    {
        let token = self.open(Class::Case, left)?;
        let subject = self.expr(left - 1)?;
        let branches = self.whens(left - 1)?;
        let otherwise = self.case_end(left - 1)?;
        let value = Expr::case(self.alloc, token.at, subject, branches, otherwise)?;
        Ok(value)
    }

    /// The branches of a CASE.
    #[cycle(expressions)]
    fn whens(&mut self, left: u32) -> Result<WhenList, Stop>
        ensures { Gives left whens self.old.rest.now self.new.rest.now whens_of result }
    {
        let mut items = WhenList::new(self.alloc);
        let first = self.when(left)?;
        items.push(first)?;
        while self.next_is(Class::When) {
            let item = self.when(left)?;
            items.push(item)?;
        }
        Ok(items)
    }

    /// WHEN and THEN.
    #[cycle(expressions)]
    fn when(&mut self, left: u32) -> Result<When, Stop>
        ensures { Gives left when self.old.rest.now self.new.rest.now when_of result }
    {
        let _when = self.take(Class::When)?;
        let test = self.expr(left)?;
        let _then = self.take(Class::Then)?;
        let value = self.expr(left)?;
        Ok(When { test, value })
    }

    /// ELSE, where it stands there, and END.
    #[cycle(expressions)]
    fn case_end(&mut self, left: u32) -> Result<Option<Expr>, Stop>
        ensures { Gives left case_end self.old.rest.now self.new.rest.now (λ o. option_map tree_of o) result }
    {
        if !self.next_is(Class::Else) {
            let _end = self.take(Class::End)?;
            return Ok(None);
        }
        let _else = self.take(Class::Else)?;
        let value = self.expr(left)?;
        let _end = self.take(Class::End)?;
        Ok(Some(value))
    }
}
