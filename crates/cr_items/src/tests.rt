use super::*;
use cr_base::FiberId;
use cr_value::{Fate, Text, TextFault, Value};
use std::alloc::{AllocError, Global};
use std::test::Fail;

// What became of each item: w waits, p has passed, x was withdrawn.
fn fates(alloc: Global, items: &Items) -> Result<String, AllocError> {
    let mut text = String::new(alloc);
    for item in 0..items.appended() {
        text.push(match items.fate(item) {
            Fate::Waits => 'w',
            Fate::Passed => 'p',
            Fate::Withdrawn => 'x',
        })?;
    }
    Ok(text)
}

#[test]
fn a_close_keeps_the_settled_items_alone(rt: HostRuntime) -> Result<(), Fail> {
    for (capacity, sent, received, closed, left) in [
        (0, "wwww", "pwww", "pxxx", 0u16),
        (1, "pwww", "ppww", "ppxx", 1),
        (3, "pppw", "pppp", "pppp", 3),
    ] {
        let alloc = rt.alloc();
        let mut items = Items::new(alloc, capacity);
        assert_eq!(rt; items.take(), None, "at {capacity}");
        for number in 0..4u16 {
            if !items.closed() {
                let item = items.append(
                    FiberId(u32::from(number)),
                    Value::Small(i32::from(number)),
                )?;
                assert_eq!(rt; item, u64::from(number), "at {capacity}");
            }
        }
        assert_eq!(rt; fates(alloc, &items)?.as_str(), sent, "at {capacity}");
        assert_eq!(rt; items.take(), Some(Value::Small(0)), "at {capacity}");
        assert_eq!(rt; fates(alloc, &items)?.as_str(), received, "at {capacity}");
        items.close();
        assert_eq!(rt; fates(alloc, &items)?.as_str(), closed, "at {capacity}");
        assert_eq!(rt; items.waiting(), u64::from(left), "at {capacity}");
        assert_eq!(rt;
            items.withdrawn(),
            u64::from(3u16.saturating_sub(left)),
            "at {capacity}"
        );
        for number in 1..=left {
            assert_eq!(rt;
                items.take(),
                Some(Value::Small(i32::from(number))),
                "at {capacity}"
            );
        }
        items.close();
        assert_eq!(rt; items.take(), None, "at {capacity}");
        assert_eq!(rt; items.taken(), 1 + u64::from(left), "at {capacity}");
        assert_eq!(rt; items.appended(), 4, "at {capacity}");
        assert_eq!(rt; items.capacity(), capacity);
        assert!(rt; items.closed());
    }
    Ok(())
}

// A text of this many characters of two bytes.
fn word(alloc: Global, characters: u32) -> Result<Value, TextFault> {
    let text = Text::of(alloc, "é")?;
    Ok(Value::Word(Text::times(alloc, &text, characters)?))
}

#[test]
fn a_text_of_a_mebibyte_is_given_back_equal(rt: HostRuntime) -> Result<(), Fail> {
    let alloc = rt.alloc();
    let mut items = Items::new(alloc, 0);
    items.append(FiberId(0), word(alloc, 524_288)?)?;
    assert_eq!(rt; items.take(), Some(word(alloc, 524_288)?));
    assert_eq!(rt; items.take(), None);
    Ok(())
}
