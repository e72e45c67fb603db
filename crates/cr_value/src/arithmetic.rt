ghost use Rattle.std.specs.Prelude.{◌≡◌, ◌↔◌, ◌+ℤ◌, ◌-ℤ◌, ◌*ℤ◌, neg_ℤ, ℤ, IsTrue, SomeIff};
ghost use Rattle.cr_value.specs.Arithmetic.{Fits, Wraps};

/// How wide an integer is.
#[derive(Clone, Copy, Debug, PartialEq, Eq)]
pub enum Width {
    /// An `Int32`, of 32 bits.
    Small,
    /// An `Int64`, of 64 bits.
    Big,
}

impl Width {
    /// Whether an integer of this width can be this number.
    pub fn holds(self, number: i64) -> bool
        ensures { IsTrue result ↔ Fits self number }
    {
        match self {
            Width::Small => i32::try_from(number).is_ok(),
            Width::Big => true,
        }
    }
}

/// `a + b`, or None exactly where the sum does not fit the width.
pub fn add(w: Width, a: i64, b: i64) -> Option<i64>
    requires a_fits { Fits w a }
    requires b_fits { Fits w b }
    ensures { SomeIff result (Fits w (a +ℤ b)) (a +ℤ b) }
{
    a.checked_add(b).filter(|sum| w.holds(*sum))
}

/// `a - b`, or None exactly where the difference does not fit the width.
pub fn sub(w: Width, a: i64, b: i64) -> Option<i64>
    requires a_fits { Fits w a }
    requires b_fits { Fits w b }
    ensures { SomeIff result (Fits w (a -ℤ b)) (a -ℤ b) }
{
    a.checked_sub(b).filter(|difference| w.holds(*difference))
}

/// `a * b`, or None exactly where the product does not fit the width.
pub fn mul(w: Width, a: i64, b: i64) -> Option<i64>
    requires a_fits { Fits w a }
    requires b_fits { Fits w b }
    ensures { SomeIff result (Fits w (a *ℤ b)) (a *ℤ b) }
{
    a.checked_mul(b).filter(|product| w.holds(*product))
}

/// `-a`, or None exactly where it does not fit the width, which is at the smallest number.
pub fn neg(w: Width, a: i64) -> Option<i64>
    requires { Fits w a }
    ensures { SomeIff result (Fits w (neg_ℤ a)) (neg_ℤ a) }
{
    a.checked_neg().filter(|opposite| w.holds(*opposite))
}

/// `a + b` modulo the width.
pub fn wrap_add(w: Width, a: i64, b: i64) -> i64
    requires a_fits { Fits w a }
    requires b_fits { Fits w b }
    ensures { Wraps w (a +ℤ b) result }
{
    match w {
        Width::Small => i64::from((a as i32).wrapping_add(b as i32)),
        Width::Big => a.wrapping_add(b),
    }
}

/// `a - b` modulo the width.
pub fn wrap_sub(w: Width, a: i64, b: i64) -> i64
    requires a_fits { Fits w a }
    requires b_fits { Fits w b }
    ensures { Wraps w (a -ℤ b) result }
{
    match w {
        Width::Small => i64::from((a as i32).wrapping_sub(b as i32)),
        Width::Big => a.wrapping_sub(b),
    }
}

/// `a * b` modulo the width.
pub fn wrap_mul(w: Width, a: i64, b: i64) -> i64
    requires a_fits { Fits w a }
    requires b_fits { Fits w b }
    ensures { Wraps w (a *ℤ b) result }
{
    match w {
        Width::Small => i64::from((a as i32).wrapping_mul(b as i32)),
        Width::Big => a.wrapping_mul(b),
    }
}

/// A law, which does nothing: no two numbers of a width are equal modulo it to one exact result.
pub fn wrapped_number_is_unique()
    ensures { (w : Width) (exact one other : ℤ) → Wraps w exact one → Wraps w exact other → one ≡ other }
{}
