//! Lists that get one item more, and give it back where they do not.
ghost use Rattle.std.specs.Prelude.{◌≡◌, ◌<◌, [], ◌∷◌, ◌++◌, IfOk, IfErr, vec_len, vec_capacity};

use cr_core::Listed;

/// Puts an item last, where there is room for it.
pub(crate) fn push_within<T: Drop>(items: &mut Vec<T>, item: T)
    requires { vec_len items.old < vec_capacity items.old }
    ensures { items.new.items ≡ items.old.items ++ item ∷ [] }
{
    let _ = items.push(item);
}

/// The list with an item more. Where memory runs out both are given back.
pub(crate) fn pushed<T: Drop>(items: Listed<T>, item: T) -> Result<Listed<T>, (Listed<T>, T)>
    ensures ok { IfOk result (λ made. made ≡ items ++ item ∷ []) }
    ensures err { IfErr result (λ back. (back.0 ≡ items) × (back.1 ≡ item)) }
{
    let mut all = items.into_vec();
    match all.push(item) {
        Ok(()) => Ok(Listed::of(all)),
        Err(failed) => Err((Listed::of(all), failed.value)),
    }
}
