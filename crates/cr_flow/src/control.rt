//! How control goes through each form: a match a table of the specification.
ghost use Rattle.std.specs.Prelude.{◌≡◌, length, None, Some};
ghost use Rattle.cr_flow.specs.Control as control;
ghost use Rattle.cr_flow.specs.Outs as outs;

use crate::outs::Outs;
use crate::variable::{Arm, Outcome, Variable};
use cr_base::NodeId;
use cr_core::Form;

/// Whether a form goes by the outcome of its first part.
pub(crate) fn is_test(form: Form) -> bool
    ensures { result ≡ control.is_test form }
{
    matches!(
        form,
        Form::Seq | Form::If | Form::And | Form::Or | Form::Not
    )
}

/// Where the outcome of the first part leads.
pub(crate) fn arm(form: Form, outcome: Outcome) -> Arm
    ensures { result ≡ control.arm form outcome }
{
    let (truthy, falsey) = match form {
        Form::If => (Arm::Part(1), Arm::Part(2)),
        Form::And => (Arm::Part(1), gives(false, true)),
        Form::Or => (gives(true, false), Arm::Part(1)),
        Form::Not => (gives(false, true), gives(true, false)),
        _ => (Arm::Part(1), Arm::Part(1)),
    };
    match outcome {
        Outcome::Yes => truthy,
        Outcome::No => falsey,
    }
}

fn gives(truthy: bool, falsey: bool) -> Arm
    ensures { result ≡ control.gives truthy falsey }
{
    Arm::Give { truthy, falsey }
}

/// Whether the outcome of the part to which a condition led is that of the whole.
pub(crate) fn keeps(form: Form) -> bool
    ensures { result ≡ control.keeps form }
{
    matches!(form, Form::And | Form::Or)
}

/// What the act of a node alone leads to.
pub(crate) fn act(form: Form) -> Outs
    ensures { result ≡ outs.act form }
{
    let mut led = Outs::none();
    match form {
        Form::True => led.yes = true,
        Form::False | Form::Nil => led.no = true,
        Form::Break => led.leaves = true,
        Form::Next => led.skips = true,
        Form::Return => led.returns = true,
        Form::Again | Form::Raise | Form::Select { .. } => {}
        _ => {
            led.yes = true;
            led.no = true;
        }
    }
    led
}

/// Whether it is an assignment to the variable.
pub(crate) fn assigns(form: Form, variable: Variable) -> bool
    ensures { result ≡ control.assigns form variable }
{
    match variable {
        Variable::Local { scope, slot } => match form {
            Form::Set(local) => local.scope == scope && local.slot == slot,
            _ => false,
        },
        Variable::Field(name) => match form {
            Form::SetField(set) => set == name,
            _ => false,
        },
    }
}

/// Whether what the last part does is no part of reaching the node's act.
pub(crate) fn ends_apart(form: Form) -> bool
    ensures { result ≡ control.ends_apart form }
{
    has_arm(form) || is_clause(form)
}

/// Whether the last part is what the node's act may run.
pub(crate) fn has_arm(form: Form) -> bool
    ensures { result ≡ control.has_arm form }
{
    match form {
        Form::Call { block, .. } | Form::New { block, .. } => block,
        Form::Spawn { .. } => true,
        Form::Select { otherwise } => otherwise,
        _ => false,
    }
}

pub(crate) fn is_clause(form: Form) -> bool
    ensures { result ≡ control.is_clause form }
{
    matches!(form, Form::Send | Form::Receive | Form::ReceiveOrNil)
}

pub(crate) fn is_choice(form: Form) -> bool
    ensures { result ≡ control.is_choice form }
{
    matches!(form, Form::Select { .. })
}

/// Whether the block of such a node runs in a fiber of its own.
pub(crate) fn runs_apart(form: Form) -> bool
    ensures { result ≡ control.runs_apart form }
{
    matches!(form, Form::Spawn { .. } | Form::New { .. })
}

/// The parts that are taken in order before the act.
pub(crate) fn heads(form: Form, parts: &[NodeId]) -> &[NodeId]
    ensures { result.now ≡ control.heads form parts.now }
{
    if ends_apart(form) {
        &parts[..parts.len().saturating_sub(1)]
    } else {
        parts
    }
}

pub(crate) fn last(parts: &[NodeId]) -> Option<NodeId>
    ensures { result ≡ control.last parts.now }
{
    match parts.get(parts.len().saturating_sub(1)) {
        Some(part) => Some(*part),
        None => None,
    }
}

pub(crate) fn behind(parts: &[NodeId]) -> &[NodeId]
    ensures { result.now ≡ control.behind parts.now }
{
    match parts {
        [_, rest @ ..] => rest,
        [] => parts,
    }
}
