// The clauses of a query that have no condition.
ghost use Rattle.std.specs.Prelude.{◌≡◌, ℕ, pos, option_map};
ghost use Rattle.grammar.specs.Forms.{Opt, Seq, Ref};
ghost use Rattle.grammar.specs.Forms.{Rule as rule};
ghost use Rattle.grammar.specs.Rules.{a, behind, word, top, distinct, list, parted, item, using, usings, into, keys, order, direction, selected, there};
ghost use Rattle.grammar.specs.declared.Class.TheVariants as class;
ghost use Rattle.query_tree.specs.Views.{placed_of, items_of, item_of};
ghost use Rattle.query_parser.specs.Answers.{Gives};
ghost use Rattle.query_parser.specs.Clauses.{columns_of, keys_of, selected_of};

use crate::cursor::Cursor;
use crate::fault::Stop;
use crate::token::{Sort, count_of, text_of};
use grammar::Class;
use lp_values::Text;
use query_tree::{ExprList, Item, ItemList, Placed};

/// `*` with its place, or items.
#[derive(Drop)]
pub struct Columns {
    pub star: Option<u32>,
    pub items: ItemList,
}

/// Expressions, and whether they are marked: WITH ROLLUP, or DESC.
#[derive(Drop)]
pub struct Keys {
    pub items: ExprList,
    pub marked: bool,
}

/// What stands from SELECT to the list.
#[derive(Drop)]
pub struct Selected {
    pub top: Option<u64>,
    pub distinct: bool,
    pub columns: Columns,
}

impl<'a> Cursor<'a> {
    /// TOP and its number, where it stands there.
    fn top(&mut self) -> Result<Option<u64>, Stop>
        ensures { (n : ℕ) → Gives n (Opt top) self.old.rest.now self.new.rest.now (λ o. option_map pos o) result }
    {
        if !self.next_is(Class::Top) {
            return Ok(None);
        }
        let _top = self.take(Class::Top)?;
        let token = self.take(Class::Unsigned)?;
        let number = count_of(token);
        Ok(Some(number))
    }

    /// DISTINCT or ALL, where one stands there: whether it is DISTINCT.
    fn distinct(&mut self) -> Result<bool, Stop>
        ensures { (n : ℕ) → Gives n distinct self.old.rest.now self.new.rest.now (λ b. b) result }
    {
        if self.next_is(Class::Distinct) {
            let _distinct = self.take(Class::Distinct)?;
            return Ok(true);
        }
        if self.next_is(Class::All) {
            let _all = self.take(Class::All)?;
            return Ok(false);
        }
        Ok(false)
    }

    /// AS and a word.
    fn alias(&mut self) -> Result<Text, Stop>
        ensures { (n : ℕ) → Gives n (behind (a class.As) word) self.old.rest.now self.new.rest.now (λ t. t) result }
    {
        let _as = self.take(Class::As)?;
        let token = self.take_in(Sort::Word)?;
        let name = text_of(self.alloc, token)?;
        Ok(name)
    }

    /// An item of the list.
    fn item(&mut self, left: u32) -> Result<Item, Stop>
        ensures { Gives left item self.old.rest.now self.new.rest.now item_of result }
    {
        let value = self.expr(left)?;
        if !self.next_is(Class::As) {
            return Ok(Item { value, alias: None });
        }
        let alias = self.alias()?;
        Ok(Item {
            value,
            alias: Some(alias),
        })
    }

    /// An item of USING.
    fn using(&mut self, left: u32) -> Result<Item, Stop>
        ensures { Gives left using self.old.rest.now self.new.rest.now item_of result }
    {
        let value = self.expr(left)?;
        let alias = self.alias()?;
        Ok(Item {
            value,
            alias: Some(alias),
        })
    }

    /// Items between commas.
    fn items(&mut self, left: u32) -> Result<ItemList, Stop>
        ensures { Gives left (parted (a class.Comma) item) self.old.rest.now self.new.rest.now items_of result }
    {
        let mut items = ItemList::new(self.alloc);
        let first = self.item(left)?;
        items.push(first)?;
        while self.next_is(Class::Comma) {
            let _comma = self.take(Class::Comma)?;
            let item = self.item(left)?;
            items.push(item)?;
        }
        Ok(items)
    }

    /// Items of USING between commas.
    fn aliases(&mut self, left: u32) -> Result<ItemList, Stop>
        ensures { Gives left (parted (a class.Comma) using) self.old.rest.now self.new.rest.now items_of result }
    {
        let mut items = ItemList::new(self.alloc);
        let first = self.using(left)?;
        items.push(first)?;
        while self.next_is(Class::Comma) {
            let _comma = self.take(Class::Comma)?;
            let item = self.using(left)?;
            items.push(item)?;
        }
        Ok(items)
    }

    /// `*`, or items.
    fn list(&mut self, left: u32) -> Result<Columns, Stop>
        ensures { Gives left list self.old.rest.now self.new.rest.now columns_of result }
    {
        if self.next_is(Class::Star) {
            let star = self.take(Class::Star)?;
            let items = ItemList::new(self.alloc);
            return Ok(Columns {
                star: Some(star.at),
                items,
            });
        }
        let items = self.items(left)?;
        Ok(Columns { star: None, items })
    }

    /// SELECT to the list.
    pub fn selected(&mut self, left: u32) -> Result<Selected, Stop>
        ensures { Gives left selected self.old.rest.now self.new.rest.now selected_of result }
    {
        let _select = self.take(Class::Select)?;
        let top = self.top()?;
        let distinct = self.distinct()?;
        let columns = self.list(left)?;
        Ok(Selected {
            top,
            distinct,
            columns,
        })
    }

    /// USING and its items, where it stands there.
    pub fn usings(&mut self, left: u32) -> Result<Option<ItemList>, Stop>
        ensures { Gives left (Opt usings) self.old.rest.now self.new.rest.now (λ o. option_map items_of o) result }
    {
        if !self.next_is(Class::Using) {
            return Ok(None);
        }
        let _using = self.take(Class::Using)?;
        let items = self.aliases(left)?;
        Ok(Some(items))
    }

    /// INTO and its name, where it stands there.
    pub fn into_name(&mut self) -> Result<Option<Placed>, Stop>
        ensures { (n : ℕ) → Gives n (Opt into) self.old.rest.now self.new.rest.now (λ o. option_map placed_of o) result }
    {
        if !self.next_is(Class::Into) {
            return Ok(None);
        }
        let _into = self.take(Class::Into)?;
        let name = self.name()?;
        Ok(Some(name))
    }

    /// WITH ROLLUP, where it stands there.
    fn rollup(&mut self) -> Result<bool, Stop>
        ensures { (n : ℕ) → Gives n (there (Seq (a class.With) (a class.Rollup))) self.old.rest.now self.new.rest.now (λ b. b) result }
    {
        if !self.next_is(Class::With) {
            return Ok(false);
        }
        let _with = self.take(Class::With)?;
        let _rollup = self.take(Class::Rollup)?;
        Ok(true)
    }

    /// GROUP BY and its expressions, where it stands there.
    pub fn keys(&mut self, left: u32) -> Result<Option<Keys>, Stop>
        ensures { Gives left (Opt keys) self.old.rest.now self.new.rest.now (λ o. option_map keys_of o) result }
    {
        if !self.next_is(Class::Group) {
            return Ok(None);
        }
        let _group = self.take(Class::Group)?;
        let _by = self.take(Class::By)?;
        let items = self.exprs(left)?;
        let marked = self.rollup()?;
        Ok(Some(Keys { items, marked }))
    }

    /// ASC or DESC, where one stands there: whether it is DESC.
    fn direction(&mut self) -> Result<bool, Stop>
        ensures { (n : ℕ) → Gives n direction self.old.rest.now self.new.rest.now (λ b. b) result }
    {
        if self.next_is(Class::Asc) {
            let _asc = self.take(Class::Asc)?;
            return Ok(false);
        }
        if self.next_is(Class::Desc) {
            let _desc = self.take(Class::Desc)?;
            return Ok(true);
        }
        Ok(false)
    }

    /// ORDER BY and its expressions, where it stands there.
    pub fn order(&mut self, left: u32) -> Result<Option<Keys>, Stop>
        ensures { Gives left (Opt order) self.old.rest.now self.new.rest.now (λ o. option_map keys_of o) result }
    {
        if !self.next_is(Class::Order) {
            return Ok(None);
        }
        let _order = self.take(Class::Order)?;
        let _by = self.take(Class::By)?;
        let items = self.exprs(left)?;
        let marked = self.direction()?;
        Ok(Some(Keys { items, marked }))
    }
}
