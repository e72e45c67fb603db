ghost use Rattle.std.specs.Prelude.{◌≡◌, ◌≢◌, ◌↔◌, ℤ, pos, negsuc, IfOk, IsErrOf};
ghost use Rattle.cr_value.specs.Arithmetic.{Fits};
ghost use Rattle.cr_value.specs.Division.{IsFloorDivision, IsFloorQuotient, IsFloorRemainder};

use crate::arithmetic::{Width, neg};

/// Why a division has no result.
#[derive(Clone, Copy, Debug, PartialEq, Eq)]
pub enum Division {
    /// The divisor is 0.
    ZeroDivisor,
    /// The result does not fit the width.
    Overflow,
}

/// The quotient of `a` by `b`, rounded towards minus infinity: `ZeroDivisor` exactly where `b` is 0, and `Overflow`
/// exactly where the quotient does not fit the width, which is at the smallest number divided by -1.
pub fn floor_div(w: Width, a: i64, b: i64) -> Result<i64, Division>
    requires a_fits { Fits w a }
    requires b_fits { Fits w b }
    ensures ok { IfOk result (λ quotient. IsFloorQuotient a b quotient × Fits w quotient) }
    ensures zero_divisor { IsErrOf result Division.ZeroDivisor ↔ (b ≡ pos 0) }
    ensures overflow { IsErrOf result Division.Overflow ↔ ((q : ℤ) × IsFloorQuotient a b q × (¬ Fits w q)) }
{
    if b == 0 {
        return Err(Division::ZeroDivisor);
    }
    if b == -1 {
        return neg(w, a).ok_or(Division::Overflow);
    }
    let (quotient, _) = floored(a, b);
    if w.holds(quotient) {
        Ok(quotient)
    } else {
        Err(Division::Overflow)
    }
}

/// What the quotient of `a` by `b` that is rounded towards minus infinity leaves, which has the sign of `b` or is 0:
/// `ZeroDivisor` exactly where `b` is 0. It always fits the width.
pub fn floor_mod(w: Width, a: i64, b: i64) -> Result<i64, Division>
    requires a_fits { Fits w a }
    requires b_fits { Fits w b }
    ensures ok { IfOk result (λ remainder. IsFloorRemainder a b remainder × Fits w remainder) }
    ensures zero_divisor { IsErrOf result Division.ZeroDivisor ↔ (b ≡ pos 0) }
    ensures never_overflows { ¬ IsErrOf result Division.Overflow }
{
    if b == 0 {
        return Err(Division::ZeroDivisor);
    }
    if b == -1 {
        return Ok(0);
    }
    let (_, remainder) = floored(a, b);
    Ok(remainder)
}

// The quotient of `a` by `b`, rounded towards minus infinity, and what it leaves. By 0 there is none, and by -1 the
// quotient may not fit 64 bits. Rust rounds towards 0, which is one too high where what is left has the other sign.
fn floored(a: i64, b: i64) -> (i64, i64)
    requires not_zero { b ≢ pos 0 }
    requires not_minus_one { b ≢ negsuc 0 }
    ensures { IsFloorDivision a b result.0 result.1 }
{
    let (quotient, rest) = (a / b, a % b);
    if rest != 0 && (rest < 0) != (b < 0) {
        (quotient - 1, rest + b)
    } else {
        (quotient, rest)
    }
}

/// A law, which does nothing: a division has one quotient towards minus infinity and one remainder.
pub fn floor_division_is_unique()
    ensures { (a b q r p s : ℤ) → IsFloorDivision a b q r → IsFloorDivision a b p s → (q ≡ p) × (r ≡ s) }
{}
