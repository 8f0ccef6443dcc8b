// One character of a pattern.
ghost use Rattle.std.specs.Prelude.{◌≡◌, ◌≤◌, length};

use std::marker::Model;

/// A character, seen as its bytes, at most four.
#[derive(Drop)]
pub struct Character {
    bytes: [u8; 4],
    length: usize,
}

impl Model for Character {
    ghost use Rattle.std.specs.Prelude.{List, ℕ, ◌≤◌, take};

    ghost Value = { List ℕ };

    ghost view = { λ c. take c.length c.bytes };

    ghost invariant = { λ c. c.length ≤ 4 };
}

impl Character {
    /// The character of these bytes.
    pub fn new(text: &[u8]) -> Character
        requires { length text.now ≤ 4 }
        ensures { result ≡ text.now }
    {
        let mut bytes = [0; 4];
        bytes[..text.len()].copy_from_slice(text);
        Character {
            bytes,
            length: text.len(),
        }
    }

    pub fn as_slice(&self) -> &[u8]
        ensures { result.now ≡ self.now }
    {
        &self.bytes[..self.length]
    }
}
