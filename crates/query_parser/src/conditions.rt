// Conditions, and the subqueries in them.
ghost use Rattle.std.specs.Prelude.{◌≡◌, [], true, false, length};
ghost use Rattle.grammar.specs.declared.Class.TheVariants as class;
ghost use Rattle.grammar.specs.Forms.{Ref, Opt};
ghost use Rattle.grammar.specs.Forms.{Rule as rule};
ghost use Rattle.grammar.specs.Rules.{a, behind, cond, conj, neg, test, within, where'};
ghost use Rattle.query_tree.specs.Views.{query_of, numbers_in, numbers_of};
ghost use Rattle.query_parser.specs.Conditions.{Asks, negation, nesting, condition_with, conditions_with, tail_of, range_of, set_of, numbers_in_tail, numbers_in_range, numbers_in_values};

use crate::cursor::Cursor;
use crate::fault::Stop;
use crate::subquery::{item_alone, subquery_of};
use crate::tail::{Range, Tail, Values};
use grammar::Class;
use query_tree::{Cond, Query};

/// A place among tokens, and the subqueries that were read before it.
#[derive(Drop)]
pub struct Parser<'a> {
    pub cursor: Cursor<'a>,
    pub subqueries: Vec<Query>,
}

impl<'a> Parser<'a> {
    /// How many subqueries were read.
    fn asked(&self) -> usize
        ensures { result ≡ length self.now.subqueries.items }
    {
        self.subqueries.len()
    }

    /// A condition; `asks` tells whether a subquery may stand in it.
    #[cycle(conditions)]
    pub fn cond(&mut self, asks: bool, left: u32) -> Result<Cond, Stop>
        ensures { Asks asks left (cond asks) self.old.cursor.rest.now self.new.cursor.rest.now self.old.subqueries.items self.new.subqueries.items condition_with numbers_in result }
    {
        let mut test = self.conj(asks, left)?;
        while self.cursor.next_is(Class::Or) {
            match self.or_conj(asks, left) {
                Ok(right) => test = Cond::or(self.cursor.alloc, test, right)?,
                Err(stop) => {
                    drop(test);
                    return Err(stop);
                }
            }
        }
        Ok(test)
    }

    /// Conditions joined by AND.
    #[cycle(conditions)]
    fn conj(&mut self, asks: bool, left: u32) -> Result<Cond, Stop>
        ensures { Asks asks left (conj asks) self.old.cursor.rest.now self.new.cursor.rest.now self.old.subqueries.items self.new.subqueries.items condition_with numbers_in result }
    {
        let mut test = self.neg(asks, left)?;
        while self.cursor.next_is(Class::And) {
            match self.and_neg(asks, left) {
                Ok(right) => test = Cond::and(self.cursor.alloc, test, right)?,
                Err(stop) => {
                    drop(test);
                    return Err(stop);
                }
            }
        }
        Ok(test)
    }

    /// OR and what it joins.
    #[cycle(conditions)]
    fn or_conj(&mut self, asks: bool, left: u32) -> Result<Cond, Stop>
        ensures { Asks asks left (behind (a class.Or) (conj asks)) self.old.cursor.rest.now self.new.cursor.rest.now self.old.subqueries.items self.new.subqueries.items condition_with numbers_in result }
    {
        let _or = self.cursor.take(Class::Or)?;
        let right = self.conj(asks, left)?;
        Ok(right)
    }

    /// AND and what it joins.
    #[cycle(conditions)]
    fn and_neg(&mut self, asks: bool, left: u32) -> Result<Cond, Stop>
        ensures { Asks asks left (behind (a class.And) (neg asks)) self.old.cursor.rest.now self.new.cursor.rest.now self.old.subqueries.items self.new.subqueries.items condition_with numbers_in result }
    {
        let _and = self.cursor.take(Class::And)?;
        let right = self.neg(asks, left)?;
        Ok(right)
    }

    /// NOT, a condition in parentheses, or a test.
    #[cycle(conditions)]
    fn neg(&mut self, asks: bool, left: u32) -> Result<Cond, Stop>
        ensures { Asks asks left (neg asks) self.old.cursor.rest.now self.new.cursor.rest.now self.old.subqueries.items self.new.subqueries.items condition_with numbers_in result }
    {
        if self.cursor.next_is(Class::Not) {
            return self.negated(asks, left);
        }
        if self.cursor.next_is(Class::Open) {
            return self.nested(asks, left);
        }
        self.test(asks, left)
    }

    /// NOT and its condition.
    #[cycle(conditions)]
    fn negated(&mut self, asks: bool, left: u32) -> Result<Cond, Stop>
        ensures { Asks asks left (negation asks) self.old.cursor.rest.now self.new.cursor.rest.now self.old.subqueries.items self.new.subqueries.items condition_with numbers_in result }
    {
        let token = self.cursor.open(Class::Not, left)?;
        let inner = self.neg(asks, left - 1)?;
        let test = Cond::negate(self.cursor.alloc, token.at, inner)?;
        Ok(test)
    }

    /// A condition in parentheses.
    #[cycle(conditions)]
    fn nested(&mut self, asks: bool, left: u32) -> Result<Cond, Stop>
        ensures { Asks asks left (nesting asks) self.old.cursor.rest.now self.new.cursor.rest.now self.old.subqueries.items self.new.subqueries.items condition_with numbers_in result }
    {
        let token = self.cursor.open(Class::Open, left)?;
        let inner = self.cond(asks, left - 1)?;
        match self.cursor.take(Class::Close) {
            Ok(_close) => Ok(inner.moved(token.at)),
            Err(stop) => {
                drop(inner);
                Err(stop)
            }
        }
    }

    /// An expression and what is asked of it.
    #[cycle(conditions)]
    fn test(&mut self, asks: bool, left: u32) -> Result<Cond, Stop>
        ensures { Asks asks left (test asks) self.old.cursor.rest.now self.new.cursor.rest.now self.old.subqueries.items self.new.subqueries.items condition_with numbers_in result }
    {
        let value = self.cursor.expr(left)?;
        let tail = self.tail(asks, left)?;
        Ok(tail.test(value))
    }

    /// What stands behind the first expression of a test.
    #[cycle(conditions)]
    fn tail(&mut self, asks: bool, left: u32) -> Result<Tail, Stop>
        ensures { Asks asks left (Ref (rule.tail_rule asks)) self.old.cursor.rest.now self.new.cursor.rest.now self.old.subqueries.items self.new.subqueries.items tail_of numbers_in_tail result }
    {
        if self.cursor.next_is(Class::Compares) {
            let tail = self.cursor.comparison(left)?;
            return Ok(tail);
        }
        if self.cursor.next_is(Class::Is) {
            let tail = self.cursor.null_test()?;
            return Ok(tail);
        }
        let negated = self.cursor.skip(Class::Not);
        let range = self.range(asks, left)?;
        Ok(Tail::Ranged(negated, range))
    }

    /// LIKE, BETWEEN or IN.
    #[cycle(conditions)]
    fn range(&mut self, asks: bool, left: u32) -> Result<Range, Stop>
        ensures { Asks asks left (Ref (rule.range_rule asks)) self.old.cursor.rest.now self.new.cursor.rest.now self.old.subqueries.items self.new.subqueries.items range_of numbers_in_range result }
    {
        if self.cursor.next_is(Class::Like) {
            let range = self.cursor.like()?;
            return Ok(range);
        }
        if self.cursor.next_is(Class::Between) {
            let range = self.cursor.between(left)?;
            return Ok(range);
        }
        let range = self.within(asks, left)?;
        Ok(range)
    }

    /// IN and its parentheses.
    #[cycle(conditions)]
    fn within(&mut self, asks: bool, left: u32) -> Result<Range, Stop>
        ensures { Asks asks left (within asks) self.old.cursor.rest.now self.new.cursor.rest.now self.old.subqueries.items self.new.subqueries.items range_of numbers_in_range result }
    {
        let _in = self.cursor.take(Class::In)?;
        let _open = self.cursor.open(Class::Open, left)?;
        let values = self.set(asks, left - 1)?;
        let _close = self.cursor.take(Class::Close)?;
        Ok(Range::Within(values))
    }

    /// What stands in the parentheses of IN.
    #[cycle(conditions)]
    fn set(&mut self, asks: bool, left: u32) -> Result<Values, Stop>
        ensures { Asks asks left (Ref (rule.set_rule asks)) self.old.cursor.rest.now self.new.cursor.rest.now self.old.subqueries.items self.new.subqueries.items set_of numbers_in_values result }
    {
        if asks {
            return self.any_set(left);
        }
        let items = self.cursor.values(left)?;
        Ok(Values::Listed(items))
    }

    /// Expressions, or a subquery.
    #[cycle(conditions)]
    fn any_set(&mut self, left: u32) -> Result<Values, Stop>
        ensures { Asks true left (Ref (rule.set_rule true)) self.old.cursor.rest.now self.new.cursor.rest.now self.old.subqueries.items self.new.subqueries.items set_of numbers_in_values result }
    {
        if !self.cursor.next_is(Class::Select) {
            let items = self.cursor.values(left)?;
            return Ok(Values::Listed(items));
        }
        let query = self.subquery(left)?;
        let number = self.asked();
        self.subqueries.push(query)?;
        Ok(Values::Asked(number))
    }

    /// A subquery, in whose condition no other stands.
    #[cycle(conditions)]
    fn subquery(&mut self, left: u32) -> Result<Query, Stop>
        ensures { Asks false left (Ref rule.asked_rule) self.old.cursor.rest.now self.new.cursor.rest.now self.old.subqueries.items self.new.subqueries.items (λ q qs. query_of q) (λ q. []) result }
    {
        let _select = self.cursor.take(Class::Select)?;
        let distinct = self.cursor.skip(Class::Distinct);
        let value = self.cursor.expr(left)?;
        let items = item_alone(self.cursor.alloc, value)?;
        let names = self.cursor.from()?;
        let condition = self.where_part(false, left)?;
        Ok(subquery_of(self.cursor.alloc, distinct, items, names, condition))
    }

    /// WHERE and its condition, where it stands there.
    #[cycle(conditions)]
    pub fn where_part(&mut self, asks: bool, left: u32) -> Result<Option<Cond>, Stop>
        ensures { Asks asks left (Opt (where' asks)) self.old.cursor.rest.now self.new.cursor.rest.now self.old.subqueries.items self.new.subqueries.items conditions_with numbers_of result }
    {
        if !self.cursor.next_is(Class::Where) {
            return Ok(None);
        }
        let _where = self.cursor.take(Class::Where)?;
        let test = self.cond(asks, left)?;
        Ok(Some(test))
    }
}
