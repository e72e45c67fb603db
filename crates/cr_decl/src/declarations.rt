use cr_bodies::Parser;

/// The readers of declarations and programs, with what reads the types and statements inside them.
#[derive(Clone, Copy)]
pub struct Declarations<F> {
    pub parser: Parser<F>,
}
