//! What declarations put above classes and modules.
use cr_base::ClassId;

/// That a class or module stands directly above another.
#[derive(Clone, Copy, Debug)]
pub struct Link {
    pub below: ClassId,
    pub above: ClassId,
}
