// Texts without regard to ASCII case.
ghost use Rattle.std.specs.Prelude.{◌≡◌};
ghost use Rattle.command_words.specs.Texts.{same_text, begins_as, ends_as};

pub fn same_text(a: &[u8], b: &[u8]) -> bool
    ensures { result ≡ same_text a.now b.now }
{
    a.eq_ignore_ascii_case(b)
}

pub fn begins_as(text: &[u8], front: &[u8]) -> bool
    ensures { result ≡ begins_as text.now front.now }
{
    if text.len() < front.len() {
        return false;
    }
    same_text(&text[..front.len()], front)
}

pub fn ends_as(text: &[u8], end: &[u8]) -> bool
    ensures { result ≡ ends_as text.now end.now }
{
    if text.len() < end.len() {
        return false;
    }
    same_text(&text[text.len() - end.len()..], end)
}
