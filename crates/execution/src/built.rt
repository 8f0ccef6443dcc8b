// Whether standard input is read.
ghost use Rattle.std.specs.Prelude.{◌≡◌};
ghost use Rattle.query_tree.specs.Views.{placed_all};
ghost use Rattle.execution.specs.Built.{reads_stdin};

use query_text::is_stdin;
use query_tree::PlacedList;

/// Whether STDIN is the only name behind FROM: standard input is read.
pub fn reads_stdin(names: &PlacedList) -> bool
    ensures { result ≡ reads_stdin (placed_all names.now) }
{
    match names.items.as_slice() {
        [name] => is_stdin(name.text.as_str()),
        _ => false,
    }
}
