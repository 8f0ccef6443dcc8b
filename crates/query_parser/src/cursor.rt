// A place among tokens.
ghost use Rattle.std.specs.Prelude.{◌≡◌, ℕ, ◌<◌, true, false, map, IfOk, IfErr};
ghost use Rattle.grammar.specs.Classes.{is_a};
ghost use Rattle.grammar.specs.Forms.{Kind, Form, Tok, Nest, can_be};
ghost use Rattle.grammar.specs.Reading.{heads_by, Reads};
ghost use Rattle.grammar.specs.Rules.{a, there};
ghost use Rattle.query_tree.specs.Tokens.{seen};
ghost use Rattle.query_parser.specs.Answers.{Gives, Stopped, Opened};
ghost use Rattle.query_parser.specs.Sorts.{in_sort};

use crate::fault::Stop;
use crate::token::{Sort, class_of};
use grammar::Class;
use query_lexer::Token;
use std::alloc::Global;

/// The tokens that are still to be read, and where memory comes from.
#[derive(Drop)]
pub struct Cursor<'a> {
    pub alloc: Global,
    pub rest: &'a [Token],
}

impl<'a> Cursor<'a> {
    pub fn next_is(&self, class: Class) -> bool
        ensures { result ≡ heads_by (is_a class) (map seen self.now.rest.now) }
    {
        match self.rest {
            [first, ..] => class.is(class_of(first)),
            [] => false,
        }
    }

    pub fn next_in(&self, sort: Sort) -> bool
        ensures { result ≡ heads_by (in_sort sort) (map seen self.now.rest.now) }
    {
        match self.rest {
            [first, ..] => sort.has(class_of(first)),
            [] => false,
        }
    }

    /// Takes a token of this class.
    pub fn take(&mut self, class: Class) -> Result<&'a Token, Stop>
        ensures exact { (n : ℕ) → Gives n (a class) self.old.rest.now self.new.rest.now (λ t. seen t.now) result }
        ensures found { IfOk result (λ t. is_a class (seen t.now).class ≡ true) }
    {
        let count = self.rest.len();
        let Some((first, rest)) = self.rest.split_first() else {
            return Err(Stop::Syntax(0));
        };
        if !class.is(class_of(first)) {
            return Err(Stop::Syntax(count));
        }
        self.rest = rest;
        Ok(first)
    }

    /// Takes a token of these classes.
    pub fn take_in(&mut self, sort: Sort) -> Result<&'a Token, Stop>
        ensures exact { (n : ℕ) → Gives n (Tok (in_sort sort)) self.old.rest.now self.new.rest.now (λ t. seen t.now) result }
        ensures found { IfOk result (λ t. in_sort sort (seen t.now).class ≡ true) }
    {
        let count = self.rest.len();
        let Some((first, rest)) = self.rest.split_first() else {
            return Err(Stop::Syntax(0));
        };
        if !sort.has(class_of(first)) {
            return Err(Stop::Syntax(count));
        }
        self.rest = rest;
        Ok(first)
    }

    /// Takes a token that opens a level, where one is left.
    pub fn open(&mut self, class: Class, left: u32) -> Result<&'a Token, Stop>
        ensures ok { IfOk result (λ t. Opened left class self.old.rest.now self.new.rest.now t.now) }
        ensures err { IfErr result (λ e. (k : Kind) (f : Form k) → can_be f ≡ true → Stopped left (Nest (is_a class) f) (map seen self.old.rest.now) e) }
    {
        let count = self.rest.len();
        let Some((first, rest)) = self.rest.split_first() else {
            return Err(Stop::Syntax(0));
        };
        if !class.is(class_of(first)) {
            return Err(Stop::Syntax(count));
        }
        if left == 0 {
            return Err(Stop::TooDeep(count));
        }
        self.rest = rest;
        Ok(first)
    }

    /// Takes a token of this class where one stands here, and tells whether.
    pub fn skip(&mut self, class: Class) -> bool
        ensures { (n : ℕ) → Reads n (there (a class)) (map seen self.old.rest.now) result (map seen self.new.rest.now) }
    {
        let Some((first, rest)) = self.rest.split_first() else {
            return false;
        };
        if !class.is(class_of(first)) {
            return false;
        }
        self.rest = rest;
        true
    }
}
