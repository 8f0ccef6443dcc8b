// Lines that have a line's end inside.
ghost use Rattle.std.specs.Prelude.{◌≡◌};
ghost use Rattle.delimited_input.specs.Lines.{is_broken};

use memchr::memchr2;

/// Whether a line has a line's end inside.
pub(crate) fn is_broken(line: &[u8]) -> bool
    ensures { result ≡ is_broken line.now }
{
    memchr2(b'\r', b'\n', line).is_some()
}
