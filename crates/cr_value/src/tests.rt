use crate::{
    CellRef, Division, TEXT_LIMIT, Text, TextFault, Value, Width, add, floor_div, floor_mod, mul,
    neg, show, sub, wrap_add, wrap_mul, wrap_sub,
};
use cr_base::NoMemory;
use std::alloc::Global;
use std::cmp::Ordering;
use std::test::Fail;

const SMALL_MIN: i64 = -2_147_483_648;

const SMALL_MAX: i64 = 2_147_483_647;

fn text(alloc: Global, bytes: &str) -> Result<Text, Fail> {
    Ok(Text::of(alloc, bytes)?)
}

#[test]
fn division_rounds_towards_minus_infinity(rt: HostRuntime) {
    for w in [Width::Small, Width::Big] {
        for (a, b, quotient, remainder) in [
            (7, 2, 3, 1),
            (-7, 2, -4, 1),
            (7, -2, -4, -1),
            (-7, -2, 3, -1),
            (6, -3, -2, 0),
            (0, 5, 0, 0),
            (SMALL_MIN, 2, -1_073_741_824, 0),
            (SMALL_MAX, -1, -SMALL_MAX, 0),
        ] {
            assert!(rt; w.holds(a) && w.holds(b));
            assert_eq!(rt; floor_div(w, a, b), Ok(quotient), "{a} // {b}");
            assert_eq!(rt; floor_mod(w, a, b), Ok(remainder), "{a} % {b}");
        }
    }
}

#[test]
fn division_has_no_result_by_zero_and_past_the_width(rt: HostRuntime) {
    for (w, smallest) in [(Width::Small, SMALL_MIN), (Width::Big, i64::MIN)] {
        assert!(rt; w.holds(smallest) && w.holds(0) && w.holds(-1));
        assert_eq!(rt; floor_div(w, smallest, 0), Err(Division::ZeroDivisor));
        assert_eq!(rt; floor_mod(w, smallest, 0), Err(Division::ZeroDivisor));
        assert_eq!(rt; floor_div(w, smallest, -1), Err(Division::Overflow));
        assert_eq!(rt; floor_mod(w, smallest, -1), Ok(0));
    }
    assert_eq!(rt; floor_div(Width::Big, SMALL_MIN, -1), Ok(2_147_483_648));
}

#[test]
fn sums_end_at_the_edges_of_the_width(rt: HostRuntime) {
    for (w, a, b, sum, wrapped) in [
        (Width::Small, SMALL_MAX, SMALL_MIN, Some(-1), -1),
        (Width::Small, SMALL_MAX, 1, None, SMALL_MIN),
        (Width::Small, SMALL_MIN, -1, None, SMALL_MAX),
        (Width::Big, SMALL_MAX, 1, Some(2_147_483_648), 2_147_483_648),
        (Width::Big, i64::MAX, 1, None, i64::MIN),
        (Width::Big, i64::MIN, -1, None, i64::MAX),
    ] {
        assert!(rt; w.holds(a) && w.holds(b));
        assert_eq!(rt; add(w, a, b), sum, "{a} + {b}");
        assert_eq!(rt; wrap_add(w, a, b), wrapped, "{a} &+ {b}");
    }
}

#[test]
fn differences_end_at_the_edges_of_the_width(rt: HostRuntime) {
    for (w, a, b, difference, wrapped) in [
        (Width::Small, -1, SMALL_MAX, Some(SMALL_MIN), SMALL_MIN),
        (Width::Small, SMALL_MIN, 1, None, SMALL_MAX),
        (Width::Small, 1, SMALL_MIN, None, -SMALL_MAX),
        (Width::Big, -1, i64::MAX, Some(i64::MIN), i64::MIN),
        (Width::Big, 0, i64::MIN, None, i64::MIN),
    ] {
        assert!(rt; w.holds(a) && w.holds(b));
        assert_eq!(rt; sub(w, a, b), difference, "{a} - {b}");
        assert_eq!(rt; wrap_sub(w, a, b), wrapped, "{a} &- {b}");
    }
}

#[test]
fn products_end_at_the_edges_of_the_width(rt: HostRuntime) {
    for (w, a, b, product, wrapped) in [
        (Width::Small, SMALL_MIN, 1, Some(SMALL_MIN), SMALL_MIN),
        (Width::Small, SMALL_MIN, -1, None, SMALL_MIN),
        (Width::Small, SMALL_MAX, SMALL_MAX, None, 1),
        (Width::Small, 65_537, 65_537, None, 131_073),
        (
            Width::Big,
            65_537,
            65_537,
            Some(4_295_098_369),
            4_295_098_369,
        ),
        (Width::Big, i64::MAX, 2, None, -2),
        (Width::Big, i64::MIN, -1, None, i64::MIN),
    ] {
        assert!(rt; w.holds(a) && w.holds(b));
        assert_eq!(rt; mul(w, a, b), product, "{a} * {b}");
        assert_eq!(rt; wrap_mul(w, a, b), wrapped, "{a} &* {b}");
    }
}

#[test]
fn the_smallest_number_has_no_opposite(rt: HostRuntime) {
    for (w, a, opposite) in [
        (Width::Small, SMALL_MAX, Some(-SMALL_MAX)),
        (Width::Small, SMALL_MIN, None),
        (Width::Big, SMALL_MIN, Some(2_147_483_648)),
        (Width::Big, i64::MIN, None),
    ] {
        assert!(rt; w.holds(a));
        assert_eq!(rt; neg(w, a), opposite, "-{a}");
    }
}

// The bytes of a text that an operation made, or nothing where it would be too long.
fn made(text: Result<Text, TextFault>) -> Result<Option<u32>, Fail> {
    match text {
        Ok(text) => Ok(Some(text.byte_size())),
        Err(TextFault::TooLong) => Ok(None),
        Err(TextFault::NoMemory) => Err(Fail::from(NoMemory)),
    }
}

fn repeated(alloc: Global, of: &str, count: u32) -> Result<Option<u32>, Fail> {
    let text = text(alloc, of)?;
    made(Text::times(alloc, &text, count))
}

fn joined(alloc: Global, first: &str, second: &str) -> Result<Option<u32>, Fail> {
    let (first, second) = (text(alloc, first)?, text(alloc, second)?);
    made(Text::join(alloc, &first, &second))
}

#[test]
fn a_text_has_at_most_the_limit_of_bytes(rt: HostRuntime) -> Result<(), Fail> {
    let alloc = rt.alloc();
    let most = "x".repeat(alloc, TEXT_LIMIT)?;
    assert_eq!(rt; made(Text::of(alloc, most.as_str()))?, Some(1_048_576));
    assert_eq!(rt; joined(alloc, most.as_str(), "")?, Some(1_048_576));
    assert_eq!(rt; joined(alloc, most.as_str(), "x")?, None);
    let more = "x".repeat(alloc, TEXT_LIMIT + 1)?;
    assert_eq!(rt; made(Text::of(alloc, more.as_str()))?, None);
    Ok(())
}

#[test]
fn a_repeated_text_has_at_most_the_limit_of_bytes(rt: HostRuntime) -> Result<(), Fail> {
    for (of, count, size) in [
        ("x", 1_048_576, Some(1_048_576)),
        ("x", 1_048_577, None),
        ("é", 524_289, None),
        ("é", 3, Some(6)),
        ("", u32::MAX, Some(0)),
        ("xx", 0, Some(0)),
    ] {
        assert_eq!(rt; repeated(rt.alloc(), of, count)?, size, "{of} {count}");
    }
    Ok(())
}

#[test]
fn size_counts_characters(rt: HostRuntime) -> Result<(), Fail> {
    for (written, size, byte_size) in [
        ("", 0, 0),
        ("a", 1, 1),
        ("é", 1, 2),
        ("€", 1, 3),
        ("😀", 1, 4),
        ("aé€😀z", 5, 11),
    ] {
        let text = text(rt.alloc(), written)?;
        assert_eq!(rt; text.size(), size, "{written}");
        assert_eq!(rt; text.byte_size(), byte_size, "{written}");
        assert_eq!(rt; text.as_str().len(), text.as_bytes().len());
    }
    Ok(())
}

#[test]
fn texts_compare_by_bytes(rt: HostRuntime) -> Result<(), Fail> {
    for (a, b, order, begins) in [
        ("", "", Ordering::Equal, true),
        ("ab", "ab", Ordering::Equal, true),
        ("ab", "a", Ordering::Greater, true),
        ("b", "ab", Ordering::Greater, false),
        ("Z", "a", Ordering::Less, false),
        ("ab", "ac", Ordering::Less, false),
        ("z", "é", Ordering::Less, false),
        ("éa", "é", Ordering::Greater, true),
    ] {
        let (left, right) = (text(rt.alloc(), a)?, text(rt.alloc(), b)?);
        assert_eq!(rt; left.compare(&right), order, "{a} {b}");
        assert_eq!(rt; left.begins_with(&right), begins, "{a} {b}");
        assert_eq!(rt; left == right, order == Ordering::Equal, "{a} {b}");
    }
    Ok(())
}

#[test]
fn values_are_shown_and_copied(rt: HostRuntime) -> Result<(), Fail> {
    let alloc = rt.alloc();
    for (value, shown) in [
        (Value::Nil, ""),
        (Value::Flag(true), "true"),
        (Value::Flag(false), "false"),
        (Value::Small(0), "0"),
        (Value::Small(i32::MIN), "-2147483648"),
        (Value::Big(i64::MAX), "9223372036854775807"),
        (Value::Big(i64::MIN), "-9223372036854775808"),
        (Value::Word(text(alloc, "a\né")?), "a\né"),
    ] {
        assert_eq!(rt;
            printed(alloc, &value)?.ok_or("a reference")?.as_str(),
            shown
        );
        assert!(rt; value.copy(alloc)?.is_same(&value));
    }
    Ok(())
}

// The text of a value, if it is no reference.
fn printed(alloc: Global, value: &Value) -> Result<Option<Text>, NoMemory> {
    match value {
        Value::Ref(_) => Ok(None),
        other => Ok(Some(show(alloc, other)?)),
    }
}

#[test]
fn values_are_the_same_where_class_and_value_are(rt: HostRuntime) -> Result<(), Fail> {
    let alloc = rt.alloc();
    let cell = CellRef { cell: 3, atom: 1 };
    let values = [
        Value::Nil,
        Value::Flag(false),
        Value::Small(1),
        Value::Big(1),
        Value::Word(text(alloc, "1")?),
        Value::Word(text(alloc, "")?),
        Value::Ref(cell),
        Value::Ref(CellRef { cell: 4, atom: 1 }),
    ];
    for (i, one) in values.iter().enumerate() {
        for (j, other) in values.iter().enumerate() {
            assert_eq!(rt; one.is_same(other), i == j, "{one:?} {other:?}");
        }
    }
    Ok(())
}
