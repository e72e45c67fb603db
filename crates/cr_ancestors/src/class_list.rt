//! Lists of classes and modules.
ghost use Rattle.std.specs.Prelude.{◌≡◌};
ghost use Rattle.cr_ancestors.specs.Line.{has};

use cr_base::ClassId;
use std::marker::Model;

/// A `Vec` of classes and modules that contracts see as the list of them.
#[derive(Debug, Drop)]
pub struct ClassList {
    classes: Vec<ClassId>,
}

impl Model for ClassList {
    ghost use Rattle.std.specs.Prelude.{List};
    ghost use Rattle.cr_base.specs.declared.ids.ClassId.{ClassId};

    ghost Value = { List ClassId };

    ghost view = { λ list. list.classes.items };
}

impl ClassList {
    /// The classes and modules of a `Vec`. Takes no memory.
    pub fn of(classes: Vec<ClassId>) -> ClassList
        ensures { result ≡ classes.items }
    {
        ClassList { classes }
    }

    /// The classes and modules, in order. Takes no memory.
    pub fn as_slice(&self) -> &[ClassId]
        ensures { result.now ≡ self.now }
    {
        self.classes.as_slice()
    }
}

/// Whether a class or module is listed.
pub(crate) fn has(classes: &[ClassId], class: ClassId) -> bool
    ensures { result ≡ has classes.now class }
{
    classes.contains(&class)
}
