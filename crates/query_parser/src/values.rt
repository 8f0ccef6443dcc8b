// Parts of conditions that have no condition in them.
ghost use Rattle.std.specs.Prelude.{◌≡◌, ℕ, [], IfOk};
ghost use Rattle.grammar.specs.Rules.{comparison, null_test, like, between, values, from, names, string, name};
ghost use Rattle.grammar.specs.Trees.{Set' as set};
ghost use Rattle.query_tree.specs.Views.{placed_of, placed_all, trees_of};
ghost use Rattle.query_parser.specs.Answers.{Gives};
ghost use Rattle.query_parser.specs.Conditions.{tail_of, range_of, numbers_in_tail, numbers_in_range};

use crate::cursor::Cursor;
use crate::fault::Stop;
use crate::tail::{Range, Tail};
use crate::token::{Sort, comparison_of, text_of};
use grammar::Class;
use query_tree::{ExprList, Placed, PlacedList};

impl<'a> Cursor<'a> {
    /// A string with its place.
    fn string(&mut self) -> Result<Placed, Stop>
        ensures { (n : ℕ) → Gives n string self.old.rest.now self.new.rest.now placed_of result }
    {
        let token = self.take(Class::Text)?;
        let text = text_of(self.alloc, token)?;
        Ok(Placed { at: token.at, text })
    }

    /// A name with its place.
    pub fn name(&mut self) -> Result<Placed, Stop>
        ensures { (n : ℕ) → Gives n name self.old.rest.now self.new.rest.now placed_of result }
    {
        let token = self.take(Class::Name)?;
        let text = text_of(self.alloc, token)?;
        Ok(Placed { at: token.at, text })
    }

    /// Names between commas.
    fn names(&mut self) -> Result<PlacedList, Stop>
        ensures { (n : ℕ) → Gives n names self.old.rest.now self.new.rest.now placed_all result }
    {
        let mut items = PlacedList::new(self.alloc);
        let first = self.name()?;
        items.push(first)?;
        while self.next_is(Class::Comma) {
            let _comma = self.take(Class::Comma)?;
            let item = self.name()?;
            items.push(item)?;
        }
        Ok(items)
    }

    /// FROM and its names.
    pub fn from(&mut self) -> Result<PlacedList, Stop>
        ensures { (n : ℕ) → Gives n from self.old.rest.now self.new.rest.now placed_all result }
    {
        let _from = self.take(Class::From)?;
        let names = self.names()?;
        Ok(names)
    }

    /// A sign of comparison and an expression.
    pub fn comparison(&mut self, left: u32) -> Result<Tail, Stop>
        ensures exact { Gives left comparison self.old.rest.now self.new.rest.now (λ t. tail_of t []) result }
        ensures plain { IfOk result (λ t. numbers_in_tail t ≡ []) }
    {
        let sign = self.take(Class::Compares)?;
        let how = comparison_of(sign);
        let right = self.expr(left)?;
        Ok(Tail::Compared(how, right))
    }

    /// IS NULL, or IS NOT NULL.
    pub fn null_test(&mut self) -> Result<Tail, Stop>
        ensures exact { (n : ℕ) → Gives n null_test self.old.rest.now self.new.rest.now (λ t. tail_of t []) result }
        ensures plain { IfOk result (λ t. numbers_in_tail t ≡ []) }
    {
        let _is = self.take(Class::Is)?;
        let negated = self.skip(Class::Not);
        let _null = self.take(Class::Null)?;
        Ok(Tail::Null(negated))
    }

    /// LIKE and its pattern.
    pub fn like(&mut self) -> Result<Range, Stop>
        ensures exact { (n : ℕ) → Gives n like self.old.rest.now self.new.rest.now (λ r. range_of r []) result }
        ensures plain { IfOk result (λ r. numbers_in_range r ≡ []) }
    {
        let _like = self.take(Class::Like)?;
        let pattern = self.string()?;
        Ok(Range::Like(pattern))
    }

    /// BETWEEN and its bounds.
    pub fn between(&mut self, left: u32) -> Result<Range, Stop>
        ensures exact { Gives left between self.old.rest.now self.new.rest.now (λ r. range_of r []) result }
        ensures plain { IfOk result (λ r. numbers_in_range r ≡ []) }
    {
        let _between = self.take(Class::Between)?;
        let low = self.expr(left)?;
        let _and = self.take(Class::And)?;
        let high = self.expr(left)?;
        Ok(Range::Between(low, high))
    }

    /// Expressions between commas or semicolons.
    pub fn values(&mut self, left: u32) -> Result<ExprList, Stop>
        ensures { Gives left values self.old.rest.now self.new.rest.now (λ es. set.values (trees_of es)) result }
    {
        let mut items = ExprList::new(self.alloc);
        let first = self.expr(left)?;
        items.push(first)?;
        while self.next_in(Sort::Separator) {
            let _separator = self.take_in(Sort::Separator)?;
            let item = self.expr(left)?;
            items.push(item)?;
        }
        Ok(items)
    }
}
