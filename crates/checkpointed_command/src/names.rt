// The names behind FROM, and those of the ledger's files.
ghost use Rattle.std.specs.Prelude.{◌≡◌, ◌++◌, map, codes, None, IfOk};
ghost use Rattle.lp_outside.specs.NameFault.{name_fault};
ghost use Rattle.query_text.specs.Stdin.{names_in};
ghost use Rattle.query_tree.specs.Views.{placed_all, query_of};

use checkpoint::Sources;
use command_words::Spec;
use commit::CommitFiles;
use lp_outside::Name;
use lp_values::TextList;
use query_tree::{PlacedList, Query};
use std::alloc::{AllocError, Global};

/// The texts of names.
pub fn texts_of(alloc: Global, names: &PlacedList) -> Result<TextList, AllocError>
    ensures { IfOk result (λ texts. texts ≡ map (λ name. name.text) (placed_all names.now)) }
{
    let mut texts = TextList::with_capacity(alloc, names.items.len())?;
    for name in &names.items {
        texts.push(name.text.copy(alloc)?)?;
    }
    Ok(texts)
}

/// Where a query looks for its logs.
pub(crate) fn sources_of(alloc: Global, spec: &Spec, query: &Query) -> Result<Sources, AllocError>
    ensures names { IfOk result (λ sources. sources.names ≡ map (λ name. name.text) (names_in (query_of query.now))) }
    ensures rotation { IfOk result (λ sources. sources.rotation ≡ spec.now.rotation) }
{
    let names = texts_of(alloc, &query.names)?;
    Ok(Sources {
        names,
        rotation: spec.rotation,
    })
}

/// The ledger, and the stage beside it.
pub(crate) fn files_of(ledger: &Name) -> CommitFiles
    requires stage { name_fault (ledger.now ++ codes ".stage") ≡ None }
    ensures ledger { result.ledger ≡ ledger.now }
    ensures stage { result.stage ≡ ledger.now ++ codes ".stage" }
{
    match ledger.with_suffix(".stage") {
        Ok(stage) => CommitFiles {
            ledger: ledger.copy(),
            stage,
        },
        Err(_) => unreachable!(),
    }
}
