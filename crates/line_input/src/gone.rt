// Bytes that were let go.
ghost use Rattle.std.specs.Prelude.{◌≡◌, ℕ, List, [], ◌++◌};
ghost use Rattle.std.specs.Borrow.{ftrue};

use std::marker::Model;

/// What stood in front of what is kept. Only proofs read it: it takes no memory, and its methods do nothing at run time.
#[derive(Drop)]
pub(crate) struct Gone {
    pub(crate) ghost bytes: { List ℕ },
}

impl Model for Gone {
    ghost also_owns = { λ _. ftrue };
}

impl Gone {
    pub(crate) fn new() -> Gone
        ensures { result.bytes ≡ [] }
    {
        Gone {}
    }

    /// These bytes too.
    pub(crate) fn with(&self, _more: &Vec<u8>) -> Gone
        ensures { result.bytes ≡ self.now.bytes ++ _more.now.items }
    {
        Gone {}
    }
}
