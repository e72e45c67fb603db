//! Exits of an evaluation, joined.
ghost use Rattle.std.specs.Prelude.{◌≡◌};
ghost use Rattle.cr_flow.specs.Outs as outs;

use cr_core::Form;

/// Where an evaluation can lead without an assignment.
#[derive(Clone, Copy, Debug, PartialEq, Eq)]
pub(crate) struct Outs {
    /// To nodes that are asked for: the least rank of such.
    pub found: Option<u32>,
    /// To its end, with a truthy value.
    pub yes: bool,
    /// To its end, with a falsey value.
    pub no: bool,
    /// Out of the loop around it.
    pub leaves: bool,
    /// Out of the block around it.
    pub skips: bool,
    /// Out of the scope.
    pub returns: bool,
}

fn lower(a: u32, b: u32) -> u32
    ensures { result ≡ outs.lower a b }
{
    if a < b { a } else { b }
}

fn least(a: Option<u32>, b: Option<u32>) -> Option<u32>
    ensures { result ≡ outs.least a b }
{
    match a {
        Some(a) => match b {
            Some(b) => Some(lower(a, b)),
            None => Some(a),
        },
        None => b,
    }
}

impl Outs {
    pub(crate) fn none() -> Outs
        ensures { result ≡ outs.none }
    {
        Outs {
            found: None,
            yes: false,
            no: false,
            leaves: false,
            skips: false,
            returns: false,
        }
    }

    /// Of one that ends with these outcomes.
    pub(crate) fn ending(truthy: bool, falsey: bool) -> Outs
        ensures { result ≡ outs.ending truthy falsey }
    {
        Outs {
            found: None,
            yes: truthy,
            no: falsey,
            leaves: false,
            skips: false,
            returns: false,
        }
    }

    pub(crate) fn join(self, other: Outs) -> Outs
        ensures { result ≡ outs.join self other }
    {
        Outs {
            found: least(self.found, other.found),
            yes: self.yes || other.yes,
            no: self.no || other.no,
            leaves: self.leaves || other.leaves,
            skips: self.skips || other.skips,
            returns: self.returns || other.returns,
        }
    }

    pub(crate) fn goes_on(self) -> bool
        ensures { result ≡ outs.goes_on self }
    {
        self.yes || self.no
    }

    /// Whether the scope of which it is the body can end so.
    pub(crate) fn reaches_end(self) -> bool
        ensures { result ≡ outs.reaches_end self }
    {
        self.goes_on() || self.skips || self.returns
    }

    /// What of it is no end.
    pub(crate) fn jumps(self) -> Outs
        ensures { result ≡ outs.jumps self }
    {
        Outs {
            yes: false,
            no: false,
            ..self
        }
    }

    /// With either outcome where it ends.
    pub(crate) fn either(self) -> Outs
        ensures { result ≡ outs.either self }
    {
        let ended = self.goes_on();
        Outs {
            yes: ended,
            no: ended,
            ..self
        }
    }

    /// Of a loop or block that such jumps end.
    pub(crate) fn stopped(self, jumped: bool) -> Outs
        ensures { result ≡ outs.stopped jumped self }
    {
        Outs {
            found: self.found,
            yes: self.yes || jumped,
            no: self.no || jumped,
            leaves: false,
            skips: false,
            returns: self.returns,
        }
    }

    /// What a node of this form makes of the jumps in it.
    pub(crate) fn caught(self, form: Form) -> Outs
        ensures { result ≡ outs.caught form self }
    {
        match form {
            Form::While => self.stopped(self.leaves),
            Form::Program(_) | Form::Block(_) | Form::Def { .. } => self.stopped(self.skips),
            _ => self,
        }
    }
}
