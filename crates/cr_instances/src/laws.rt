// What holds of every table of keys, whatever is added to it.
ghost use Rattle.std.specs.Prelude.{◌≡◌, ◌≢◌, ◌↔◌, ℕ, List, slice_get, Some, AllPairs};
ghost use Rattle.cr_instances.specs.declared.key.Key.{Key};
ghost use Rattle.cr_instances.specs.Keys.{IsFront};

/// A key that is there keeps its place, whatever is added afterwards.
pub fn stay_law()
    ensures key { (old new : List Key) (n : ℕ) (key : Key) →
        IsFront old new → slice_get old n ≡ Some key → slice_get new n ≡ Some key }
    ensures further { (old new newer : List Key) → IsFront old new → IsFront new newer → IsFront old newer }
{}

/// Two keys, one of them added first, have one instance exactly where they are equal.
pub fn number_law()
    ensures { (old new : List Key) (m n : ℕ) (a b : Key) →
        IsFront old new → AllPairs (λ x y. x ≢ y) new →
        slice_get old m ≡ Some a → slice_get new n ≡ Some b → (m ≡ n) ↔ (a ≡ b) }
{}
