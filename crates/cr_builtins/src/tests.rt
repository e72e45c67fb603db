use crate::{
    Answer, Comparison, Hash, HashOperation, NumberOperation, Outcome, PlainOperation, Raise,
    Reckoning, ReferenceClass, ScalarOperation, TextOperation, scalar, unhandled,
};
use cr_base::FiberId;
use cr_value::{CellRef, TEXT_LIMIT, Text, Value};
use std::alloc::Global;
use std::test::Fail;

// A value, as a table writes it.
#[derive(Clone, Copy, Debug)]
enum Written {
    Nothing,
    Flag(bool),
    Small(i32),
    Big(i64),
    Word(&'static str),
    Cell(u32),
}

// An outcome, as a table writes it.
#[derive(Clone, Copy, Debug)]
enum Want {
    Gives(Written),
    Raises(Raise),
    Stuck,
}

fn value(alloc: Global, written: Written) -> Result<Value, Fail> {
    Ok(match written {
        Written::Nothing => Value::Nil,
        Written::Flag(flag) => Value::Flag(flag),
        Written::Small(number) => Value::Small(number),
        Written::Big(number) => Value::Big(number),
        Written::Word(text) => Value::Word(Text::of(alloc, text)?),
        Written::Cell(cell) => Value::Ref(CellRef { cell, atom: 2 }),
    })
}

fn outcome(alloc: Global, want: Want) -> Result<Outcome, Fail> {
    Ok(match want {
        Want::Gives(written) => Outcome::Gives(value(alloc, written)?),
        Want::Raises(raise) => Outcome::Raises(raise),
        Want::Stuck => Outcome::Stuck,
    })
}

// What the operation gives of a receiver and an argument.
fn given(
    alloc: Global,
    operation: ScalarOperation,
    receiver: Written,
    argument: Written,
) -> Result<Outcome, Fail> {
    let receiver = value(alloc, receiver)?;
    let arguments = [value(alloc, argument)?];
    Ok(scalar(alloc, operation, &receiver, &arguments)?)
}

#[test]
fn integers_of_32_bits_are_reckoned_with(rt: HostRuntime) -> Result<(), Fail> {
    let overflow = Want::Raises(Raise::Overflow);
    let number = |number: i32| Want::Gives(Written::Small(number));
    for (operation, a, b, want) in [
        (Reckoning::Add, i32::MAX, 1, overflow),
        (Reckoning::Subtract, i32::MIN, 1, overflow),
        (Reckoning::Multiply, 65_536, 32_768, overflow),
        (Reckoning::Multiply, -65_536, 32_768, number(i32::MIN)),
        (Reckoning::Divide, 7, 2, number(3)),
        (Reckoning::Divide, -7, 2, number(-4)),
        (Reckoning::Divide, 7, -2, number(-4)),
        (Reckoning::Divide, -7, -2, number(3)),
        (Reckoning::Divide, i32::MIN, -1, overflow),
        (Reckoning::Divide, 1, 0, Want::Raises(Raise::Division)),
        (Reckoning::Remainder, -7, 2, number(1)),
        (Reckoning::Remainder, 7, -2, number(-1)),
        (Reckoning::Remainder, i32::MIN, -1, number(0)),
        (Reckoning::Remainder, 1, 0, Want::Raises(Raise::Division)),
        (Reckoning::WrapAdd, i32::MAX, 1, number(i32::MIN)),
        (Reckoning::WrapSubtract, i32::MIN, 1, number(i32::MAX)),
        (Reckoning::WrapMultiply, i32::MAX, i32::MAX, number(1)),
    ] {
        let operation = ScalarOperation::Int32(NumberOperation::Reckon(operation));
        let given = given(rt.alloc(), operation, Written::Small(a), Written::Small(b))?;
        assert_eq!(rt; given, outcome(rt.alloc(), want)?, "{operation:?} {a} {b}");
    }
    Ok(())
}

#[test]
fn integers_give_what_the_table_says(rt: HostRuntime) -> Result<(), Fail> {
    let small = |operation| ScalarOperation::Int32(operation);
    let big = |operation| ScalarOperation::Int64(operation);
    let add = NumberOperation::Reckon(Reckoning::Add);
    let divide = NumberOperation::Reckon(Reckoning::Divide);
    let at_most = NumberOperation::Compare(Comparison::LessEqual);
    let overflow = Want::Raises(Raise::Overflow);
    let one = Written::Small(1);
    for (operation, receiver, argument, want) in [
        (big(add), Written::Big(i64::MAX), Written::Big(1), overflow),
        (big(add), Written::Big(1), one, Want::Stuck),
        (big(add), one, Written::Big(1), Want::Stuck),
        (
            big(divide),
            Written::Big(i64::MIN),
            Written::Big(-1),
            overflow,
        ),
        (
            big(divide),
            Written::Big(-7),
            Written::Big(2),
            Want::Gives(Written::Big(-4)),
        ),
        (small(at_most), one, one, Want::Gives(Written::Flag(true))),
        (
            small(at_most),
            one,
            Written::Small(-1),
            Want::Gives(Written::Flag(false)),
        ),
        (small(at_most), one, Written::Word("1"), Want::Stuck),
        (
            small(NumberOperation::Negate),
            Written::Small(i32::MIN),
            one,
            overflow,
        ),
        (
            small(NumberOperation::Negate),
            one,
            one,
            Want::Gives(Written::Small(-1)),
        ),
        (
            small(NumberOperation::ToInt64),
            one,
            one,
            Want::Gives(Written::Big(1)),
        ),
        (
            big(NumberOperation::ToInt32),
            Written::Big(1),
            one,
            Want::Gives(one),
        ),
        (
            big(NumberOperation::ToInt32),
            Written::Big(2_147_483_648),
            one,
            overflow,
        ),
        (
            big(NumberOperation::ToText),
            Written::Big(-10),
            one,
            Want::Gives(Written::Word("-10")),
        ),
        (
            small(NumberOperation::Equal),
            one,
            one,
            Want::Gives(Written::Flag(true)),
        ),
        (
            small(NumberOperation::Equal),
            one,
            Written::Big(1),
            Want::Stuck,
        ),
        (
            big(NumberOperation::Equal),
            Written::Big(1),
            one,
            Want::Stuck,
        ),
        (
            small(NumberOperation::Equal),
            one,
            Written::Word("1"),
            Want::Gives(Written::Flag(false)),
        ),
    ] {
        let given = given(rt.alloc(), operation, receiver, argument)?;
        assert_eq!(rt;
            given,
            outcome(rt.alloc(), want)?,
            "{operation:?} {receiver:?} {argument:?}"
        );
    }
    Ok(())
}

#[test]
fn other_values_give_what_the_table_says(rt: HostRuntime) -> Result<(), Fail> {
    let text = |operation| ScalarOperation::String(operation);
    let nothing = Written::Nothing;
    let ab = Written::Word("ab");
    let yes = Want::Gives(Written::Flag(true));
    let no = Want::Gives(Written::Flag(false));
    let same = ScalarOperation::Same(ReferenceClass::Object);
    for (operation, receiver, argument, want) in [
        (
            text(TextOperation::Join),
            ab,
            Written::Word("é"),
            Want::Gives(Written::Word("abé")),
        ),
        (text(TextOperation::Join), ab, nothing, Want::Stuck),
        (
            text(TextOperation::Repeat),
            ab,
            Written::Small(2),
            Want::Gives(Written::Word("abab")),
        ),
        (
            text(TextOperation::Repeat),
            ab,
            Written::Small(0),
            Want::Gives(Written::Word("")),
        ),
        (
            text(TextOperation::Repeat),
            ab,
            Written::Small(-1),
            Want::Raises(Raise::Argument),
        ),
        (
            text(TextOperation::Repeat),
            ab,
            Written::Small(524_289),
            Want::Raises(Raise::Limit),
        ),
        (
            text(TextOperation::Repeat),
            ab,
            Written::Big(1),
            Want::Stuck,
        ),
        (
            text(TextOperation::Compare(Comparison::Less)),
            Written::Word("Z"),
            ab,
            yes,
        ),
        (
            text(TextOperation::Compare(Comparison::Less)),
            Written::Word("é"),
            Written::Word("z"),
            no,
        ),
        (text(TextOperation::StartsWith), ab, Written::Word("a"), yes),
        (text(TextOperation::StartsWith), Written::Word("a"), ab, no),
        (
            text(TextOperation::Size),
            Written::Word("bé"),
            nothing,
            Want::Gives(Written::Small(2)),
        ),
        (
            text(TextOperation::ByteSize),
            Written::Word("bé"),
            nothing,
            Want::Gives(Written::Small(3)),
        ),
        (
            text(TextOperation::IsEmpty),
            Written::Word(""),
            nothing,
            yes,
        ),
        (text(TextOperation::Equal), ab, ab, yes),
        (text(TextOperation::ToText), ab, nothing, Want::Gives(ab)),
        (
            ScalarOperation::Nil(PlainOperation::Equal),
            nothing,
            Written::Flag(false),
            no,
        ),
        (
            ScalarOperation::Nil(PlainOperation::ToText),
            nothing,
            nothing,
            Want::Gives(Written::Word("")),
        ),
        (
            ScalarOperation::Bool(PlainOperation::ToText),
            Written::Flag(true),
            nothing,
            Want::Gives(Written::Word("true")),
        ),
        (
            ScalarOperation::Bool(PlainOperation::ToText),
            nothing,
            nothing,
            Want::Stuck,
        ),
        (same, Written::Cell(3), Written::Cell(3), yes),
        (same, Written::Cell(3), Written::Cell(4), no),
        (same, Written::Cell(3), Written::Small(3), no),
        (same, nothing, nothing, Want::Stuck),
    ] {
        let given = given(rt.alloc(), operation, receiver, argument)?;
        assert_eq!(rt;
            given,
            outcome(rt.alloc(), want)?,
            "{operation:?} {receiver:?} {argument:?}"
        );
    }
    Ok(())
}

#[test]
fn text_at_the_limit_takes_no_byte_more(rt: HostRuntime) -> Result<(), Fail> {
    let alloc = rt.alloc();
    let join = ScalarOperation::String(TextOperation::Join);
    let full = Text::times(alloc, &Text::of(alloc, "x")?, TEXT_LIMIT as u32)?;
    let full = Value::Word(full);
    let more = scalar(alloc, join, &full, &[value(alloc, Written::Word("x"))?])?;
    assert_eq!(rt; more, Outcome::Raises(Raise::Limit));
    let same = scalar(alloc, join, &full, &[value(alloc, Written::Word(""))?])?;
    assert_eq!(rt; same, Outcome::Gives(full));
    Ok(())
}

#[test]
fn unhandled_exception_has_its_line(rt: HostRuntime) -> Result<(), Fail> {
    let raise = Raise::Closed;
    let line = unhandled(rt.alloc(), FiberId(12), raise.class_name(), raise.message())?;
    assert_eq!(rt;
        line.as_str(),
        "Unhandled exception in fiber 12: Channel::ClosedError: Channel is closed\n"
    );
    Ok(())
}

// The answer as its Debug text.
fn text_of(alloc: Global, answer: &Answer) -> Result<String, Fail> {
    Ok(format!(in alloc; "{answer:?}")?)
}

#[test]
fn hash_answers_what_the_table_says(rt: HostRuntime) -> Result<(), Fail> {
    let alloc = rt.alloc();
    let mut hash = Hash::new(alloc);
    let none = Written::Nothing;
    let one = Written::Small(1);
    for (operation, first, second, want) in [
        (
            HashOperation::Set,
            one,
            Written::Word("a"),
            "Gives(Word(Text { string: \"a\" }))",
        ),
        (
            HashOperation::Set,
            Written::Big(1),
            Written::Small(4),
            "Gives(Small(4))",
        ),
        (
            HashOperation::Set,
            none,
            Written::Small(5),
            "Gives(Small(5))",
        ),
        (
            HashOperation::Set,
            one,
            Written::Small(3),
            "Gives(Small(3))",
        ),
        (HashOperation::Set, Written::Cell(0), one, "Stuck"),
        (HashOperation::Size, none, none, "Gives(Small(3))"),
        (HashOperation::IsEmpty, none, none, "Gives(Flag(false))"),
        (HashOperation::Get, one, none, "Gives(Small(3))"),
        (HashOperation::Get, Written::Small(2), none, "Raises(Key)"),
        (HashOperation::Get, Written::Cell(0), none, "Stuck"),
        (
            HashOperation::GetOrNil,
            Written::Small(2),
            none,
            "Gives(Nil)",
        ),
        (HashOperation::HasKey, none, none, "Gives(Flag(true))"),
        (
            HashOperation::HasKey,
            Written::Flag(false),
            none,
            "Gives(Flag(false))",
        ),
        (
            HashOperation::Keys,
            none,
            none,
            "Makes(Array { items: [Small(1), Big(1), Nil] })",
        ),
        (
            HashOperation::Delete,
            Written::Big(1),
            none,
            "Gives(Small(4))",
        ),
        (HashOperation::Delete, Written::Big(1), none, "Gives(Nil)"),
        (
            HashOperation::Values,
            none,
            none,
            "Makes(Array { items: [Small(3), Small(5)] })",
        ),
        (HashOperation::Clear, none, none, "Itself"),
        (HashOperation::Size, none, none, "Gives(Small(0))"),
    ] {
        let arguments = [value(alloc, first)?, value(alloc, second)?];
        let answer = hash.apply(alloc, operation, &arguments)?;
        assert_eq!(rt;
            text_of(alloc, &answer)?.as_str(),
            want,
            "{operation:?} {first:?}"
        );
    }
    Ok(())
}
