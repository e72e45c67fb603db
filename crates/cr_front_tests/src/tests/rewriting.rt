//! Texts, and the forms of their core trees.

use crate::tests::answer;
use cr_core::{Form, ScopeId};
use cr_rewrite::rewrite_program;
use std::alloc::Global;
use std::process::Abort;
use std::test::Fail;

/// The forms of a text's rows, in the order of the rows. None where the text is no program.
fn forms(rt: &impl Abort, alloc: Global, text: &str) -> Result<Vec<Form>, Fail> {
    let mut forms = Vec::new(alloc);
    let prelude = answer(rt, alloc, "")?;
    let source = answer(rt, alloc, text)?;
    if let (Ok(prelude), Ok(source)) = (prelude, source) {
        let rewritten = rewrite_program(alloc, &prelude, &source)?;
        for row in &rewritten.rows {
            forms.push(row.form)?;
        }
    }
    Ok(forms)
}

#[test]
fn statements_are_a_sequence(rt: HostRuntime) -> Result<(), Fail> {
    let forms = forms(&rt, rt.alloc(), "nil\ntrue")?;
    let want = [Form::Program(ScopeId(0)), Form::Seq, Form::Nil, Form::True];
    assert_eq!(rt; forms.as_slice(), want.as_slice());
    Ok(())
}
