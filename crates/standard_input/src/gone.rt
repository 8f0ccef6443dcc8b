// Bytes that a stream has given.
ghost use Rattle.std.specs.Prelude.{◌≡◌, ℕ, List, [], ◌++◌};
ghost use Rattle.std.specs.Borrow.{ftrue};

use std::marker::Model;

/// What a stream has given so far. Only proofs read it: it takes no memory, and its methods do nothing at run time.
#[derive(Drop)]
pub struct Gone {
    pub ghost bytes: { List ℕ },
}

impl Model for Gone {
    ghost also_owns = { λ _. ftrue };
}

impl Gone {
    pub(crate) fn new() -> Gone
        ensures { result.bytes ≡ [] }
    {
        Gone {}
    }

    /// These bytes too.
    pub(crate) fn with(&self, _more: &[u8]) -> Gone
        ensures { result.bytes ≡ self.now.bytes ++ _more.now }
    {
        Gone {}
    }
}
