//! Rows that are made of lent values, compared and shown.

use pg_copy::Row;
use std::alloc::{AllocError, Global};

const VALUES: [Option<&[u8]>; 4] = [Some(b"a\0"), None, Some(b""), Some(b"bc")];

// Whether a row has these values, and none after them.
fn has_values(row: &Row, values: &[Option<&[u8]>]) -> bool {
    for i in 0..values.len() {
        if row.get(i) != Some(values[i]) {
            return false;
        }
    }
    row.len() == values.len() && row.get(values.len()).is_none()
}

// Whether a row of these values, pushed one by one, is the row of them all, and its copy too.
fn is_pushed(alloc: Global, values: &[Option<&[u8]>]) -> Result<bool, AllocError> {
    let all = Row::from_slice(alloc, values)?;
    let mut row = Row::new(alloc);
    for value in values {
        row.push(*value)?;
    }
    let copy = row.clone()?;
    Ok(has_values(&row, values) && row == all && copy == all)
}

#[test]
fn values_are_pushed(rt: HostRuntime) {
    assert!(rt; is_pushed(rt.alloc(), &VALUES) == Ok(true));
    assert!(rt; is_pushed(rt.alloc(), &[]) == Ok(true));
}

/// Rows that differ in one value, or in how many they have.
const OTHERS: [&[Option<&[u8]>]; 4] = [
    &[Some(b"a\0"), None, None, Some(b"bc")],
    &[Some(b"a\0"), Some(b""), Some(b""), Some(b"bc")],
    &[Some(b"a"), None, Some(b"\0"), Some(b"bc")],
    &[Some(b"a\0"), None, Some(b"")],
];

// Whether the row of these values equals none of the others.
fn equals_none(
    alloc: Global,
    values: &[Option<&[u8]>],
    others: &[&[Option<&[u8]>]],
) -> Result<bool, AllocError> {
    let row = Row::from_slice(alloc, values)?;
    for other in others {
        if row == Row::from_slice(alloc, *other)? {
            return Ok(false);
        }
    }
    Ok(true)
}

#[test]
fn rows_differ_in_one_value(rt: HostRuntime) {
    assert!(rt; equals_none(rt.alloc(), &VALUES, &OTHERS) == Ok(true));
}

// Whether a row of these values is shown so.
fn is_shown(alloc: Global, values: &[Option<&[u8]>], text: &str) -> Result<bool, AllocError> {
    let row = Row::from_slice(alloc, values)?;
    Ok(format!(in alloc; "{row:?}")?.as_str() == text)
}

#[test]
fn a_row_is_shown_as_texts(rt: HostRuntime) {
    let text = r#"[Some(b"a\x00"), None, Some(b""), Some(b"bc")]"#;
    assert!(rt; is_shown(rt.alloc(), &VALUES, text) == Ok(true));
}
