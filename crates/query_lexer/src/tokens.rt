// The tokens of a text.
ghost use Rattle.std.specs.Prelude.{◌≡◌, List, [], ◌∷◌, ◌++◌, length, slice_get, option_copied, OnOk, OnErr};

use crate::Token;
use std::alloc::{AllocError, Global};
use std::marker::Model;

/// The tokens of a text in its order, and the text's length in bytes.
#[derive(Drop)]
pub struct Tokens {
    items: Vec<Token>,
    text_length: u32,
}

impl Model for Tokens {
    ghost use Rattle.query_lexer.specs.Lexed.{Lexed};

    ghost Value = { Lexed };

    ghost view = { λ t. record { items = t.items.items; text_length = t.text_length } };
}

impl Tokens {
    /// No tokens, of a text of this many bytes.
    pub fn new(alloc: Global, text_length: u32) -> Self
        ensures items { result.items ≡ [] }
        ensures text { result.text_length ≡ text_length }
    {
        Tokens {
            items: Vec::new(alloc),
            text_length,
        }
    }

    /// How many tokens there are.
    pub fn len(&self) -> usize
        ensures { result ≡ length self.now.items }
    {
        self.items.len()
    }

    /// The token at an index.
    pub fn get(&self, index: usize) -> Option<&Token>
        ensures { option_copied result ≡ slice_get self.now.items index }
    {
        self.items.get(index)
    }

    /// The tokens.
    pub fn as_slice(&self) -> &[Token]
        ensures { result.now ≡ self.now.items }
    {
        self.items.as_slice()
    }

    /// The text's length in bytes.
    pub fn text_length(&self) -> u32
        ensures { result ≡ self.now.text_length }
    {
        self.text_length
    }

    /// Adds a token. An `Err` changes nothing, and the token is gone.
    pub fn push(&mut self, token: Token) -> Result<(), AllocError>
        ensures ok { OnOk result (self.new.items ≡ self.old.items ++ token ∷ []) }
        ensures text { self.new.text_length ≡ self.old.text_length }
        ensures err { OnErr result (self.new.items ≡ self.old.items) }
    {
        self.items.push(token)?;
        Ok(())
    }
}
