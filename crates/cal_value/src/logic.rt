//! Three truth values: none is the unknown one.
ghost use Rattle.std.specs.Prelude.{◌≡◌};
ghost use Rattle.cal_value.specs.Logic as spec;

/// TRUE where both are, FALSE where one is, else unknown.
pub fn and3(a: Option<bool>, b: Option<bool>) -> Option<bool>
    ensures { result ≡ spec.and3 a b }
{
    match (a, b) {
        (Some(false), _) | (_, Some(false)) => Some(false),
        (Some(true), Some(true)) => Some(true),
        _ => None,
    }
}

/// TRUE where one is, FALSE where both are, else unknown.
pub fn or3(a: Option<bool>, b: Option<bool>) -> Option<bool>
    ensures { result ≡ spec.or3 a b }
{
    match (a, b) {
        (Some(true), _) | (_, Some(true)) => Some(true),
        (Some(false), Some(false)) => Some(false),
        _ => None,
    }
}

/// The other truth value; unknown stays unknown.
pub fn not3(a: Option<bool>) -> Option<bool>
    ensures { result ≡ spec.not3 a }
{
    a.map(|known| !known)
}
