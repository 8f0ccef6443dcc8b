// Which arguments a function takes, and the kind of what it gives.
ghost use Rattle.std.specs.Prelude.{◌≡◌, Some, length, replicate, [], ◌∷◌};
ghost use Rattle.std.specs.List.{list_any, list_all};
ghost use Rattle.lp_functions.specs.Fitting.{fits, same_kind, takes};
ghost use Rattle.lp_functions.specs.Table.{always, given, given_by, joined, kind_of_call, kind_of_numbers, numbers, one_kind, pattern_place, takes_many, OfNumbers};

use crate::Function;
use crate::place::{Place, fits, same_kind};
use lp_values::Kind;

// Of two rows the one that fits; where both do and differ, Any.
fn joined(a: Option<Kind>, b: Option<Kind>) -> Option<Kind>
    ensures { result ≡ joined a b }
{
    match (a, b) {
        (Some(a), Some(b)) => {
            if same_kind(a, b) {
                Some(a)
            } else {
                Some(Kind::Any)
            }
        }
        (None, Some(b)) => Some(b),
        (a, None) => a,
    }
}

fn given(places: &[Place], kind: Kind, kinds: &[Kind]) -> Option<Kind>
    ensures { result ≡ given (always places.now kind) kinds.now }
{
    if fits(places, kinds) {
        Some(kind)
    } else {
        None
    }
}

fn has(kinds: &[Kind], wanted: Kind) -> bool
    ensures { result ≡ list_any (same_kind wanted) kinds.now }
{
    kinds.iter().any(|kind| same_kind(wanted, *kind))
}

// A Real where one of them is, else an Integer where one of them is.
fn kind_of_numbers(kinds: &[Kind]) -> Kind
    ensures { result ≡ kind_of_numbers kinds.now }
{
    if has(kinds, Kind::Real) {
        Kind::Real
    } else if has(kinds, Kind::Integer) {
        Kind::Integer
    } else {
        Kind::Any
    }
}

fn numbers(kinds: &[Kind]) -> Option<Kind>
    ensures { result ≡ given numbers kinds.now }
{
    if fits(&[Place::Number, Place::Number], kinds) {
        Some(kind_of_numbers(kinds))
    } else {
        None
    }
}

fn takes_all(place: Place, kinds: &[Kind]) -> bool
    ensures { result ≡ list_all (takes place) kinds.now }
{
    kinds.iter().all(|kind| place.takes(*kind))
}

fn fits_all(place: Place, kinds: &[Kind]) -> bool
    ensures { result ≡ fits (replicate (length kinds.now) place) kinds.now }
{
    takes_all(place, kinds)
}

// Any number of kinds at places of one set.
fn all(place: Place, kind: Kind, kinds: &[Kind]) -> Option<Kind>
    ensures { result ≡ given (always (replicate (length kinds.now) place) kind) kinds.now }
{
    if fits_all(place, kinds) {
        Some(kind)
    } else {
        None
    }
}

fn one_kind(kinds: &[Kind]) -> Option<Kind>
    ensures { result ≡ given_by (one_kind (length kinds.now)) kinds.now }
{
    joined(
        all(Place::Integer, Kind::Integer, kinds),
        joined(
            all(Place::Real, Kind::Real, kinds),
            joined(
                all(Place::Text, Kind::Text, kinds),
                all(Place::Stamp, Kind::Stamp, kinds),
            ),
        ),
    )
}

fn coalesced(kinds: &[Kind]) -> Option<Kind>
    ensures { result ≡ kind_of_call Function.Coalesce kinds.now }
{
    if 2 <= kinds.len() {
        one_kind(kinds)
    } else {
        None
    }
}

fn two_of_one_kind(kinds: &[Kind]) -> Option<Kind>
    ensures { result ≡ kind_of_call Function.ReplaceIfNull kinds.now }
{
    joined(
        given(&[Place::Integer, Place::Integer], Kind::Integer, kinds),
        joined(
            given(&[Place::Real, Place::Real], Kind::Real, kinds),
            joined(
                given(&[Place::Text, Place::Text], Kind::Text, kinds),
                given(&[Place::Stamp, Place::Stamp], Kind::Stamp, kinds),
            ),
        ),
    )
}

fn second(kinds: &[Kind]) -> Option<Kind>
    ensures { result ≡ kind_of_call Function.ReplaceIfNotNull kinds.now }
{
    joined(
        given(&[Place::Value, Place::Integer], Kind::Integer, kinds),
        joined(
            given(&[Place::Value, Place::Real], Kind::Real, kinds),
            joined(
                given(&[Place::Value, Place::Text], Kind::Text, kinds),
                given(&[Place::Value, Place::Stamp], Kind::Stamp, kinds),
            ),
        ),
    )
}

impl Function {
    /// The kind of the function's value over arguments of these kinds; `None` where the function has no such arguments.
    pub fn kind(self, kinds: &[Kind]) -> Option<Kind>
        ensures { result ≡ kind_of_call self kinds.now }
    {
        match self {
            Function::Add | Function::Sub | Function::Mul | Function::Div | Function::Mod =>
                numbers(kinds),
            Function::Quantize => joined(
                numbers(kinds),
                given(&[Place::Stamp, Place::Integer], Kind::Stamp, kinds),
            ),
            Function::Strlen | Function::Ipv4ToInt => given(&[Place::Text], Kind::Integer, kinds),
            Function::ToLowercase
            | Function::ToUppercase
            | Function::Trim
            | Function::Ltrim
            | Function::Rtrim
            | Function::ExtractFilename
            | Function::ExtractPath
            | Function::ExtractExtension
            | Function::Urlescape
            | Function::Urlunescape => given(&[Place::Text], Kind::Text, kinds),
            Function::Strcat => given(&[Place::Text, Place::Text], Kind::Text, kinds),
            Function::Strcnt | Function::IndexOf | Function::LastIndexOf => {
                given(&[Place::Text, Place::Text], Kind::Integer, kinds)
            }
            Function::ReplaceStr | Function::ReplaceChr => {
                given(&[Place::Text, Place::Text, Place::Text], Kind::Text, kinds)
            }
            Function::Substr => joined(
                given(&[Place::Text, Place::Integer], Kind::Text, kinds),
                given(
                    &[Place::Text, Place::Integer, Place::Integer],
                    Kind::Text,
                    kinds,
                ),
            ),
            Function::ExtractToken => joined(
                given(&[Place::Text, Place::Integer], Kind::Text, kinds),
                given(
                    &[Place::Text, Place::Integer, Place::Text],
                    Kind::Text,
                    kinds,
                ),
            ),
            Function::ExtractValue => joined(
                given(&[Place::Text, Place::Text], Kind::Text, kinds),
                given(&[Place::Text, Place::Text, Place::Text], Kind::Text, kinds),
            ),
            Function::ExtractPrefix | Function::ExtractSuffix => {
                given(
                    &[Place::Text, Place::Integer, Place::Text],
                    Kind::Text,
                    kinds,
                )
            }
            Function::ToString => joined(
                given(&[Place::Value], Kind::Text, kinds),
                given(&[Place::Stamp, Place::Text], Kind::Text, kinds),
            ),
            Function::ToInt => given(&[Place::NumberOrText], Kind::Integer, kinds),
            Function::ToReal => given(&[Place::NumberOrText], Kind::Real, kinds),
            Function::ToTimestamp => joined(
                given(&[Place::Text, Place::Text], Kind::Stamp, kinds),
                given(&[Place::Stamp, Place::Stamp], Kind::Stamp, kinds),
            ),
            Function::ToDate | Function::ToTime => given(&[Place::Stamp], Kind::Stamp, kinds),
            Function::Coalesce => coalesced(kinds),
            Function::ReplaceIfNull => two_of_one_kind(kinds),
            Function::ReplaceIfNotNull => second(kinds),
            Function::IntToIpv4 => given(&[Place::Integer], Kind::Text, kinds),
        }
    }

    /// Whether the function has a form with so many arguments.
    pub fn takes(self, many: usize) -> bool
        ensures { result ≡ takes_many self many }
    {
        match self {
            Function::Strlen
            | Function::Ipv4ToInt
            | Function::ToLowercase
            | Function::ToUppercase
            | Function::Trim
            | Function::Ltrim
            | Function::Rtrim
            | Function::ExtractFilename
            | Function::ExtractPath
            | Function::ExtractExtension
            | Function::Urlescape
            | Function::Urlunescape
            | Function::ToInt
            | Function::ToReal
            | Function::ToDate
            | Function::ToTime
            | Function::IntToIpv4 => many == 1,
            Function::Add
            | Function::Sub
            | Function::Mul
            | Function::Div
            | Function::Mod
            | Function::Quantize
            | Function::Strcat
            | Function::Strcnt
            | Function::IndexOf
            | Function::LastIndexOf
            | Function::ToTimestamp
            | Function::ReplaceIfNull
            | Function::ReplaceIfNotNull => many == 2,
            Function::ReplaceStr
            | Function::ReplaceChr
            | Function::ExtractPrefix
            | Function::ExtractSuffix => many == 3,
            Function::ToString => many == 1 || many == 2,
            Function::Substr | Function::ExtractToken | Function::ExtractValue => {
                many == 2 || many == 3
            }
            Function::Coalesce => 2 <= many,
        }
    }

    /// Which argument has to be a pattern, of arguments of these kinds.
    pub fn pattern_place(self, kinds: &[Kind]) -> Option<usize>
        ensures { result ≡ pattern_place self kinds.now }
    {
        match self {
            Function::ToString if kinds.len() == 2 => Some(1),
            Function::ToTimestamp if kinds.len() == 2 && has(kinds, Kind::Text) => Some(1),
            _ => None,
        }
    }
}
