//! What the names of a core tree stand for, and the offences that names alone decide: unknown classes, things that are defined
//! twice, classes and modules above themselves, wrong numbers of type arguments.
#![tactic(auto)]

mod above;
mod around;
mod built_in;
mod cycle;
mod deciding;
mod firsts;
mod kind;
mod least;
mod lookup;
mod names;
mod offence;
mod offences;
mod twice;

pub use above::Edge;
pub use built_in::BUILT_IN;
pub use cycle::Parentage;
pub use kind::Kind;
pub use least::first_offence;
pub use lookup::Lookup;
pub use names::Names;
pub use offence::{Offence, What};
