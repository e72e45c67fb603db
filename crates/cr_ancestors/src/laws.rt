//! What holds of the ancestors of every class and module, and examples of them.
ghost use Rattle.std.specs.Prelude.{◌≡◌, ◌<◌, Bool, true, List, [], ◌∷◌, ◌++◌, length, map, slice_get, Some};
ghost use Rattle.cr_base.specs.declared.ids.ClassId.{ClassId};
ghost use Rattle.cr_ancestors.specs.declared.parents.Parents.{Parents};
ghost use Rattle.cr_ancestors.specs.Above.{ups, IsWithin};
ghost use Rattle.cr_ancestors.specs.Line.{IsOnce, AreAncestors, AreAll};
ghost use Rattle.cr_ancestors.specs.Reckoned.{ancestors_in};
ghost use Rattle.cr_ancestors.specs.Rooted.{IsRooted};
ghost use Rattle.cr_ancestors.specs.Examples.{at_root, including, below, number, numbers};

/// The ancestors of a class or module begin with it, none of them stands there twice, and there is one list of them.
pub fn ancestors_law()
    ensures first { (hierarchy : List (List ClassId)) (class : ClassId) (ancestors : List ClassId) →
        AreAncestors hierarchy class ancestors → slice_get ancestors 0 ≡ Some class }
    ensures once { (hierarchy : List (List ClassId)) (class : ClassId) (ancestors : List ClassId) →
        AreAncestors hierarchy class ancestors → IsOnce ancestors }
    ensures one { (hierarchy : List (List ClassId)) (class : ClassId) (ancestors others : List ClassId) →
        AreAncestors hierarchy class ancestors → AreAncestors hierarchy class others → ancestors ≡ others }
{}

/// The ancestors of a class end with the root of all classes, where each class has one superclass.
pub fn root_law()
    ensures { (parents : List Parents) (is_class : ClassId → Bool) (root class : ClassId) (ancestors : List ClassId) →
        IsRooted parents is_class root → class.0 < length parents → is_class class ≡ true →
        AreAncestors (map ups parents) class ancestors →
        (front : List ClassId) × (ancestors ≡ front ++ root ∷ []) }
{}

/// The ancestors of each class and module, where none stands above itself, are those that a function of the hierarchy gives.
pub fn reckoned_law()
    ensures { (hierarchy table : List (List ClassId)) (class : ClassId) (ancestors : List ClassId) →
        IsWithin hierarchy → AreAll hierarchy table → slice_get table class.0 ≡ Some ancestors → ancestors ≡ ancestors_in hierarchy class }
{}

/// Examples of lookup orders, where 0 is the class at the root.
pub fn examples()
    // The class 1 includes the module 2 and then the module 3.
    ensures last_included_first { AreAncestors
        (map ups (at_root ∷ below 0 (numbers (2 ∷ 3 ∷ [])) ∷ including [] ∷ including [] ∷ []))
        (number 1) (numbers (1 ∷ 3 ∷ 2 ∷ 0 ∷ [])) }
    // The class 1 includes the modules 2 and 3, which both include the module 4.
    ensures kept_where_it_first_stands { AreAncestors
        (map ups (at_root ∷ below 0 (numbers (2 ∷ 3 ∷ [])) ∷ including (numbers (4 ∷ [])) ∷ including (numbers (4 ∷ [])) ∷ including [] ∷ []))
        (number 1) (numbers (1 ∷ 3 ∷ 4 ∷ 2 ∷ 0 ∷ [])) }
    // The class 1 is below the class 2; both include the module 3.
    ensures modules_before_the_superclass { AreAncestors
        (map ups (at_root ∷ below 2 (numbers (3 ∷ [])) ∷ below 0 (numbers (3 ∷ [])) ∷ including [] ∷ []))
        (number 1) (numbers (1 ∷ 3 ∷ 2 ∷ 0 ∷ [])) }
{}
