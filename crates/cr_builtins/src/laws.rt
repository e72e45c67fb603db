//! What holds of the definitions, and examples of what they give.
ghost use Rattle.std.specs.Prelude.{◌≡◌, ◌≢◌, ℤ, pos, negsuc, false, ◌∷◌, [], codes};
ghost use Rattle.cr_value.specs.Division.{IsFloorDivision};
ghost use Rattle.cr_value.specs.declared.arithmetic.Width.TheVariants.{Small, Big};
ghost use Rattle.cr_value.specs.declared.value.Value.TheVariants as v;
ghost use Rattle.cr_builtins.specs.declared.raise.Raise.TheVariants.{Overflow, Division, Argument};
ghost use Rattle.cr_builtins.specs.declared.outcome.Outcome.TheVariants.{Gives, Raises, Stuck};
ghost use Rattle.cr_builtins.specs.declared.operation.Reckoning.TheVariants as r;
ghost use Rattle.cr_builtins.specs.declared.operation.NumberOperation.TheVariants as n;
ghost use Rattle.cr_builtins.specs.declared.operation.TextOperation.TheVariants as t;
ghost use Rattle.cr_builtins.specs.declared.raise.Raise.TheVariants.{Index, Key};
ghost use Rattle.cr_builtins.specs.declared.answer.Answer.TheVariants as answer;
ghost use Rattle.cr_builtins.specs.declared.operation.ArrayOperation.TheVariants as a;
ghost use Rattle.cr_builtins.specs.declared.operation.HashOperation.TheVariants as h;
ghost use Rattle.cr_builtins.specs.Arrays.{on_array};
ghost use Rattle.cr_builtins.specs.Cells.{change};
ghost use Rattle.cr_builtins.specs.Equality.{equal_to};
ghost use Rattle.cr_builtins.specs.Hashes.{on_hash};
ghost use Rattle.cr_builtins.specs.Samples.{one, two, nothing, three, pair};
ghost use Rattle.cr_builtins.specs.Numbers.{floor_quotient, floor_remainder, reckon, on_integer};
ghost use Rattle.cr_builtins.specs.Texts.{on_text};

/// The quotient that is computed is the one towards minus infinity, and the remainder what it leaves.
#[tactic(auto, using(crate::proofs::Arithmetic::floor_is))]
pub fn division_law()
    ensures { (a b : ℤ) → b ≢ pos 0 → IsFloorDivision a b (floor_quotient a b) (floor_remainder a b) }
{}

/// Division rounds towards minus infinity, and its remainder has the sign of the divisor.
#[tactic(auto, unfolding(crate::specs::Numbers::reckon))]
pub fn division_examples()
    ensures positive { reckon r.Divide Small (pos 7) (pos 2) ≡ Gives (v.Small (pos 3)) }
    ensures dividend { reckon r.Divide Small (negsuc 6) (pos 2) ≡ Gives (v.Small (negsuc 3)) }
    ensures divisor { reckon r.Divide Big (pos 7) (negsuc 1) ≡ Gives (v.Big (negsuc 3)) }
    ensures both { reckon r.Divide Big (negsuc 6) (negsuc 1) ≡ Gives (v.Big (pos 3)) }
    ensures remainder { reckon r.Remainder Small (negsuc 6) (pos 2) ≡ Gives (v.Small (pos 1)) }
    ensures negative { reckon r.Remainder Small (pos 7) (negsuc 1) ≡ Gives (v.Small (negsuc 0)) }
    ensures zero { reckon r.Divide Small (pos 1) (pos 0) ≡ Raises Division }
    ensures zero_remainder { reckon r.Remainder Big (pos 1) (pos 0) ≡ Raises Division }
    ensures smallest { reckon r.Divide Small (negsuc 2147483647) (negsuc 0) ≡ Raises Overflow }
    ensures smallest_remainder { reckon r.Remainder Small (negsuc 2147483647) (negsuc 0) ≡ Gives (v.Small (pos 0)) }
{}

/// Sums end at the edges of each width.
#[tactic(auto, unfolding(crate::specs::Numbers::reckon, crate::specs::Numbers::on_integer))]
pub fn edge_examples()
    ensures small { reckon r.Add Small (pos 2147483646) (pos 1) ≡ Gives (v.Small (pos 2147483647)) }
    ensures past_small { reckon r.Add Small (pos 2147483647) (pos 1) ≡ Raises Overflow }
    ensures below_small { reckon r.Subtract Small (negsuc 2147483647) (pos 1) ≡ Raises Overflow }
    ensures big { reckon r.Add Big (pos 2147483647) (pos 1) ≡ Gives (v.Big (pos 2147483648)) }
    ensures past_big { reckon r.Add Big (pos 9223372036854775807) (pos 1) ≡ Raises Overflow }
    ensures below_big { reckon r.Subtract Big (negsuc 9223372036854775807) (pos 1) ≡ Raises Overflow }
    ensures opposite { on_integer n.Negate Small (negsuc 2147483647) [] ≡ Raises Overflow }
    ensures turned { on_integer n.ToInt32 Big (pos 2147483647) [] ≡ Gives (v.Small (pos 2147483647)) }
    ensures past_turned { on_integer n.ToInt32 Big (pos 2147483648) [] ≡ Raises Overflow }
{}

/// No text is the empty one, less than none is out of range, and a sum of a number and a text is stuck.
#[tactic(auto, unfolding(crate::specs::Numbers::on_integer, crate::specs::Texts::on_text))]
pub fn operand_examples()
    ensures none { on_text t.Repeat (codes "ab") (v.Small (pos 0) ∷ []) ≡ Gives (v.Word []) }
    ensures twice { on_text t.Repeat (codes "ab") (v.Small (pos 2) ∷ []) ≡ Gives (v.Word (codes "abab")) }
    ensures negative { on_text t.Repeat (codes "ab") (v.Small (negsuc 0) ∷ []) ≡ Raises Argument }
    ensures other_width { on_text t.Repeat (codes "ab") (v.Big (pos 2) ∷ []) ≡ Stuck }
    ensures other_class { on_integer (n.Reckon r.Add) Small (pos 1) (v.Word (codes "a") ∷ []) ≡ Stuck }
    ensures two_widths { equal_to (v.Small (pos 1)) (v.Big (pos 1)) ≡ Stuck }
    ensures two_classes { equal_to v.Nil (v.Flag false) ≡ Gives (v.Flag false) }
{}

/// A negative index counts from the end, and one that names no element raises.
#[tactic(auto, unfolding(crate::specs::Arrays::on_array))]
pub fn index_examples()
    ensures first { on_array a.Get three (v.Small (pos 0) ∷ []) ≡ change three (answer.Gives one) }
    ensures last { on_array a.Get three (v.Small (negsuc 0) ∷ []) ≡ change three (answer.Gives nothing) }
    ensures before { on_array a.Get three (v.Small (negsuc 3) ∷ []) ≡ change three (answer.Raises Index) }
    ensures behind { on_array a.Set three (v.Small (pos 3) ∷ one ∷ []) ≡ change three (answer.Raises Index) }
    ensures set { on_array a.Set three (v.Small (negsuc 0) ∷ two ∷ []) ≡ change (one ∷ two ∷ two ∷ []) (answer.Gives two) }
    ensures none { on_array a.ShiftOrNil [] [] ≡ change [] (answer.Gives v.Nil) }
    ensures shift { on_array a.Shift three [] ≡ change (two ∷ nothing ∷ []) (answer.Gives one) }
    ensures width { on_array a.Get three (v.Big (pos 0) ∷ []) ≡ change three answer.Stuck }
{}

/// A key that is there keeps its place, a new one goes last, and a removal closes up.
#[tactic(auto, unfolding(crate::specs::Hashes::on_hash))]
pub fn key_examples()
    ensures present { on_hash h.Set pair (one ∷ nothing ∷ []) ≡ change ((one, nothing) ∷ (two, two) ∷ []) (answer.Gives nothing) }
    ensures new { on_hash h.Set pair (nothing ∷ two ∷ []) ≡ change ((one, one) ∷ (two, two) ∷ (nothing, two) ∷ []) (answer.Gives two) }
    ensures width { on_hash h.Set pair (v.Big (pos 1) ∷ two ∷ []) ≡ change ((one, one) ∷ (two, two) ∷ (v.Big (pos 1), two) ∷ []) (answer.Gives two) }
    ensures removed { on_hash h.Delete pair (one ∷ []) ≡ change ((two, two) ∷ []) (answer.Gives one) }
    ensures missing { on_hash h.Get pair (nothing ∷ []) ≡ change pair (answer.Raises Key) }
{}
