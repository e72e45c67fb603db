// Examples of what is refused, and of what is not.
ghost use Rattle.std.specs.Prelude.{◌≡◌, true, false};
ghost use Rattle.cr_core.specs.declared.form.Form.TheVariants as form;
ghost use Rattle.cr_core.specs.Core.{none, ◌⊕◌};
ghost use Rattle.cr_core.specs.Arena.{node_id, rows};
ghost use Rattle.cr_shapes.specs.declared.offence.What.TheVariants as what;
ghost use Rattle.cr_shapes.specs.Examples as e;
ghost use Rattle.cr_shapes.specs.Obvious.{is_obvious};
ghost use Rattle.cr_shapes.specs.Offences.{IsOffence};

/// What tells its type at a look, and what does not.
pub fn obvious_examples()
    // `"a"`, `A.new(1)`, `[] of A`
    ensures text { is_obvious (rows e.text) (node_id 0) ≡ true }
    ensures new { is_obvious (rows e.new) (node_id 0) ≡ true }
    ensures empty { is_obvious (rows e.empty_array) (node_id 0) ≡ true }
    // `[1] of A`, `[1]`, `foo`
    ensures typed { is_obvious (rows e.typed_array) (node_id 0) ≡ false }
    ensures array { is_obvious (rows (e.array e.number)) (node_id 0) ≡ false }
    ensures call { is_obvious (rows e.call) (node_id 0) ≡ false }
{}

/// Literals without `of`: `[]`, `[A.new(1), foo]` and `[[1]]` are refused, and `["a", [] of A]` and `{nil => 1}` are not.
pub fn literal_examples()
    ensures no_entry { IsOffence (e.contents (e.array none)) 0 what.NeedType }
    ensures of_call { IsOffence (e.contents (e.array (e.new ⊕ e.call))) 0 what.NeedType }
    ensures of_array { IsOffence (e.contents (e.array (e.array e.number))) 0 what.NeedType }
    ensures array { ¬ (IsOffence (e.contents (e.array (e.text ⊕ e.empty_array))) 0 what.NeedType) }
    ensures hash { ¬ (IsOffence (e.contents (e.hash (e.leaf form.Nil ⊕ e.number))) 0 what.NeedType) }
{}

/// Written types: six atoms in one another are not refused, seven are, at the outermost one; the greatest depth counts.
pub fn depth_examples()
    ensures six { ¬ (IsOffence (e.contents (e.nested 5)) 0 what.TypeTooDeep) }
    ensures seven { IsOffence (e.contents (e.nested 6)) 0 what.TypeTooDeep }
    ensures outermost { ¬ (IsOffence (e.contents (e.nested 7)) 2 what.TypeTooDeep) }
    // `A(A, A | A(A(A(A(A(A))))))`
    ensures greatest { IsOffence (e.contents (e.with_arguments (e.type (e.nested 0) ⊕ e.type (e.nested 0 ⊕ e.nested 5)))) 0 what.TypeTooDeep }
{}

/// A `yield` in a method, in the block of a call and in one of `spawn`, and in a block in that.
pub fn yield_examples()
    ensures method { ¬ (IsOffence (e.contents (e.method (e.leaf form.Yield))) 2 what.YieldInSpawn) }
    ensures block { ¬ (IsOffence (e.contents (e.method (e.block_call 2 (e.leaf form.Yield)))) 4 what.YieldInSpawn) }
    ensures spawn { IsOffence (e.contents (e.method (e.spawn 2 (e.leaf form.Yield)))) 4 what.YieldInSpawn }
    ensures deeper { IsOffence (e.contents (e.method (e.spawn 2 (e.block_call 3 (e.leaf form.Yield))))) 6 what.YieldInSpawn }
{}
