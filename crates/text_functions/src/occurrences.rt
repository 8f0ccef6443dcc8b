// The first and the last occurrence of a part.
ghost use Rattle.std.specs.Prelude.{◌<◌, MatchOption, IfSome, length};
ghost use Rattle.std.specs.Str.{IsUtf8};
ghost use Rattle.text_functions.specs.Pieces.{Lacks, IsCutAtFirst, IsCutAtLast};

/// What stands before the first occurrence, and behind it.
pub(crate) fn cut_first<'t>(text: &'t str, part: &str) -> Option<(&'t str, &'t str)>
    requires { 0 < length part.now }
    ensures cut { MatchOption result (Lacks part.now text.now) (λ x. IsCutAtFirst part.now text.now x.0.now x.1.now) }
    ensures utf8 { IfSome result (λ x. IsUtf8 x.0.now × IsUtf8 x.1.now) }
{
    text.split_once(part)
}

/// What stands before the last occurrence, and behind it.
pub(crate) fn cut_last<'t>(text: &'t str, part: &str) -> Option<(&'t str, &'t str)>
    requires { 0 < length part.now }
    ensures cut { MatchOption result (Lacks part.now text.now) (λ x. IsCutAtLast part.now text.now x.0.now x.1.now) }
    ensures utf8 { IfSome result (λ x. IsUtf8 x.0.now × IsUtf8 x.1.now) }
{
    text.rsplit_once(part)
}
