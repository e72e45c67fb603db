//! What the rewriting of a program gives.

use cr_core::Row;
use cr_making::Slots;
use cr_syntax::Names;

/// The rows of the core form of a program with its prelude, and the names, texts and locals behind them. The locals stand by the
/// number of their scope.
#[derive(Drop)]
pub struct Rewritten {
    pub rows: Vec<Row>,
    pub scopes: Vec<Slots>,
    pub names: Names,
    pub texts: Names,
}
