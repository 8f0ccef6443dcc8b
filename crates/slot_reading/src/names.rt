// Names of columns.
ghost use Rattle.std.specs.Prelude.{◌≡◌};
ghost use Rattle.slot_reading.specs.Names.{is_same_name};

/// Whether two names are one, whatever the case of their letters.
#[inline]
pub fn is_same_name(a: &str, b: &str) -> bool
    ensures { result ≡ is_same_name a.now b.now }
{
    a.eq_ignore_ascii_case(b)
}
