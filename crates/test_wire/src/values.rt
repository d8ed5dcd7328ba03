//! The values of a row, kept in one block of memory. Each test lends what it tests to small functions.

use crate::wire::pushed;
use pg_wire::{
    BackDecoder, BackMessage, EncodeFault, FrontMessage, ParameterList, Seq, ValueList, Values,
    WireFault, backend, frontend,
};
use std::alloc::{AllocError, Global};
use testing::holds;

/// A text, a null and the empty text.
const THREE: [Option<&[u8]>; 3] = [Some(b"a\x00"), None, Some(b"")];

/// Others than these.
const OTHER: [Option<&[u8]>; 3] = [Some(b"a\x00"), Some(b""), None];

// The values of `THREE`, pushed one by one.
fn three(alloc: Global) -> Result<Values, EncodeFault> {
    let mut values = Values::new(alloc);
    values.push(Some(b"a\x00"))?;
    values.push(None)?;
    values.push(Some(b""))?;
    Ok(values)
}

// ---- values

// Whether each of these values stands at its index, and none stands after them.
fn are_found(values: &Values, list: &[Option<&[u8]>]) -> bool {
    for (index, value) in list.iter().enumerate() {
        if values.get(index) != Some(*value) {
            return false;
        }
    }
    values.get(list.len()).is_none()
}

// Whether these values are lent, in their order, and none after them.
fn are_lent(values: &Values, list: &[Option<&[u8]>]) -> bool {
    let mut lent = values.iter();
    for value in list {
        if lent.next() != Some(*value) {
            return false;
        }
    }
    lent.next().is_none()
}

#[test]
fn values_are_lent_as_they_were_pushed(rt: HostRuntime) {
    let held = holds(three(rt.alloc()).ok(), |values| {
        values.len() == 3 && are_found(values, &THREE) && are_lent(values, &THREE)
    });
    assert!(rt; held);
}

// Whether these are the values.
fn are(alloc: Global, values: &Values, list: &[Option<&[u8]>]) -> Result<bool, EncodeFault> {
    Ok(*values == Values::from_slice(alloc, list)?)
}

fn are_cloned(alloc: Global, values: &Values, list: &[Option<&[u8]>]) -> bool {
    holds(
        values.clone().ok(),
        |copy| are(alloc, copy, list) == Ok(true),
    )
}

fn are_shown(alloc: Global, values: &Values, text: &str) -> Result<bool, AllocError> {
    Ok(format!(in alloc; "{values:?}")?.as_str() == text)
}

#[test]
fn values_are_compared_copied_and_shown(rt: HostRuntime) {
    let alloc = rt.alloc();
    let text = r#"[Some(b"a\x00"), None, Some(b"")]"#;
    let held = holds(three(alloc).ok(), |values| {
        are(alloc, values, &THREE) == Ok(true)
            && are_cloned(alloc, values, &THREE)
            && are(alloc, values, &OTHER) == Ok(false)
            && !values.is_empty()
            && are_shown(alloc, values, text) == Ok(true)
    });
    assert!(rt; held);
    assert!(rt; holds(Some(Values::new(alloc)), |none| none.is_empty()));
}

// ---- rows

fn three_in_a_row(alloc: Global) -> Option<BackMessage> {
    Some(BackMessage::DataRow(three(alloc).ok()?))
}

fn spelled(alloc: Global, message: &BackMessage) -> Result<Vec<u8>, EncodeFault> {
    let mut bytes = Vec::new(alloc);
    backend::encode(message, &mut bytes)?;
    Ok(bytes)
}

fn gives(decoder: &mut BackDecoder, wanted: &BackMessage) -> bool {
    match decoder.next() {
        Ok(Some(message)) => message == *wanted,
        Ok(None) | Err(_) => false,
    }
}

fn is_read(alloc: Global, bytes: &[u8], wanted: &BackMessage) -> bool {
    holds(pushed(alloc, bytes).ok(), |decoder| gives(decoder, wanted))
}

fn is_read_as_written(alloc: Global, row: &BackMessage) -> bool {
    holds(
        spelled(alloc, row).ok(),
        |bytes| is_read(alloc, bytes.as_slice(), row),
    )
}

#[test]
fn a_row_that_is_read_is_the_row_that_was_written(rt: HostRuntime) {
    let alloc = rt.alloc();
    assert!(rt; holds(three_in_a_row(alloc), |row| is_read_as_written(alloc, row)));
}

// A decoder with the limit 1,024, to which these bytes were pushed.
fn wide(alloc: Global, bytes: &[u8]) -> Result<BackDecoder, WireFault> {
    let mut decoder = BackDecoder::new(alloc, 1_024);
    decoder.push(bytes)?;
    Ok(decoder)
}

// The spelling of a row of these values.
fn row_of<V: ValueList>(alloc: Global, values: V) -> Result<Vec<u8>, EncodeFault> {
    let mut bytes = Vec::new(alloc);
    backend::data_row(values, &mut bytes)?;
    Ok(bytes)
}

// Whether these values, which are those of the list, are of the next row.
fn gives_row(decoder: &mut BackDecoder, values: &Values, list: &[Option<&[u8]>]) -> bool {
    match decoder.next() {
        Ok(Some(BackMessage::DataRow(row))) => row == *values && are_found(&row, list),
        _ => false,
    }
}

fn row_is_read(alloc: Global, bytes: &[u8], values: &Values, list: &[Option<&[u8]>]) -> bool {
    holds(
        wide(alloc, bytes).ok(),
        |decoder| gives_row(decoder, values, list),
    )
}

// Whether these values, which are those of the list, are read as they are written.
fn are_read(alloc: Global, values: &Values, list: &[Option<&[u8]>]) -> bool {
    holds(row_of(alloc, values).ok(), |bytes| {
        row_is_read(alloc, bytes.as_slice(), values, list)
    })
}

// Whether each value of a row of these is found, before it is written and after it was read.
fn is_found(alloc: Global, list: &[Option<&[u8]>]) -> bool {
    holds(Values::from_slice(alloc, list).ok(), |values| {
        values.len() == list.len() && are_found(values, list) && are_read(alloc, values, list)
    })
}

// Whether this is so of each beginning of the list.
fn each_is_found(alloc: Global, list: &[Option<&[u8]>]) -> bool {
    for count in 0..=list.len() {
        if !is_found(alloc, &list[..count]) {
            return false;
        }
    }
    true
}

// A value of each letter, but each third, from the first on, is null.
fn letters<'a>(alloc: Global, text: &'a [u8]) -> Result<Vec<Option<&'a [u8]>>, AllocError> {
    let mut list = Vec::new(alloc);
    for (index, letter) in text.chunks(1).enumerate() {
        list.push(if index % 3 == 0 { None } else { Some(letter) })?;
    }
    Ok(list)
}

#[test]
fn each_value_of_a_long_row_is_found(rt: HostRuntime) {
    let alloc = rt.alloc();
    let text = b"abcdefghijklmnopqrstuvwxyz0123456789AB\xFFC";
    let held = holds(letters(alloc, text).ok(), |list| {
        list.len() == 40 && each_is_found(alloc, list.as_slice())
    });
    assert!(rt; held);
}

// ---- values that are owned or lent

/// A DataRow of `a` and a null.
const ROW: &[u8] = b"D\0\0\0\x0F\0\x02\0\0\0\x01a\xFF\xFF\xFF\xFF";

/// Its values.
const LENT: [Option<&[u8]>; 2] = [Some(b"a"), None];

fn owned(alloc: Global) -> Result<[Option<Seq<u8>>; 2], AllocError> {
    Ok([Some(Seq::from_slice(alloc, b"a")?), None])
}

fn is_row<V: ValueList>(alloc: Global, values: V) -> bool {
    holds(row_of(alloc, values).ok(), |bytes| bytes.as_slice() == ROW)
}

fn owned_is_row(alloc: Global, owned: &[Option<Seq<u8>>; 2]) -> bool {
    is_row(alloc, owned.as_slice()) && is_row(alloc, owned)
}

// The spelling of a Bind of these values.
fn bind_of<V: ValueList>(alloc: Global, values: V) -> Result<Vec<u8>, EncodeFault> {
    let mut bytes = Vec::new(alloc);
    frontend::bind(b"", b"", &[], values, &[], &mut bytes)?;
    Ok(bytes)
}

fn is_bind<V: ValueList>(alloc: Global, values: V, bytes: &[u8]) -> bool {
    holds(bind_of(alloc, values).ok(), |same| same.as_slice() == bytes)
}

fn is_bound_as_lent(alloc: Global, owned: &[Option<Seq<u8>>]) -> bool {
    holds(bind_of(alloc, owned).ok(), |bytes| {
        is_bind(alloc, LENT.as_slice(), bytes.as_slice())
    })
}

#[test]
fn owned_and_lent_values_are_written_alike(rt: HostRuntime) {
    let alloc = rt.alloc();
    assert!(rt; is_row(alloc, LENT.as_slice()));
    let held = holds(
        Values::from_slice(alloc, &LENT).ok(),
        |block| is_row(alloc, &*block),
    );
    assert!(rt; held);
    let held = holds(owned(alloc).ok(), |owned| {
        owned_is_row(alloc, owned) && is_bound_as_lent(alloc, owned.as_slice())
    });
    assert!(rt; held);
}

// ---- parameters that are owned or lent

/// A Startup of the user `u`.
const STARTUP: &[u8] = b"\0\0\0\x10\0\x03\0\0user\0u\0\0";

/// Its parameters.
const USER: [(&[u8], &[u8]); 1] = [(b"user", b"u")];

/// A parameter without a name.
const UNNAMED: [(&[u8], &[u8]); 1] = [(b"", b"u")];

fn owned_user(alloc: Global) -> Result<[(Seq<u8>, Seq<u8>); 1], AllocError> {
    Ok([(
        Seq::from_slice(alloc, b"user")?,
        Seq::from_slice(alloc, b"u")?,
    )])
}

fn startup_of<P: ParameterList>(alloc: Global, pairs: P) -> Result<Vec<u8>, EncodeFault> {
    let mut bytes = Vec::new(alloc);
    frontend::startup_message(pairs, &mut bytes)?;
    Ok(bytes)
}

fn is_startup<P: ParameterList>(alloc: Global, pairs: P) -> bool {
    holds(
        startup_of(alloc, pairs).ok(),
        |bytes| bytes.as_slice() == STARTUP,
    )
}

fn owned_is_startup(alloc: Global, owned: &[(Seq<u8>, Seq<u8>); 1]) -> bool {
    is_startup(alloc, owned.as_slice()) && is_startup(alloc, owned)
}

// Why a Startup of these parameters has no spelling.
fn refused<P: ParameterList>(alloc: Global, pairs: P) -> Option<EncodeFault> {
    match startup_of(alloc, pairs) {
        Ok(_) => None,
        Err(fault) => Some(fault),
    }
}

#[test]
fn owned_and_lent_parameters_are_written_alike(rt: HostRuntime) {
    let alloc = rt.alloc();
    assert!(rt;
        holds(
            owned_user(alloc).ok(),
            |owned| owned_is_startup(alloc, owned)
        )
    );
    assert!(rt; is_startup(alloc, USER.as_slice()));
    assert_eq!(rt;
        refused(alloc, UNNAMED.as_slice()),
        Some(EncodeFault::EmptyName)
    );
}

// ---- limits, rests and tags

fn nulls(alloc: Global, count: u32) -> Result<Values, EncodeFault> {
    let mut values = Values::new(alloc);
    for _ in 0..count {
        values.push(None)?;
    }
    Ok(values)
}

// Whether these values are too many for a row, and nothing is written.
fn are_too_many(values: &Values, bytes: &mut Vec<u8>) -> bool {
    backend::data_row(values, bytes) == Err(EncodeFault::TooMany) && bytes.is_empty()
}

#[test]
fn too_many_values_have_no_spelling(rt: HostRuntime) {
    let alloc = rt.alloc();
    let held = holds(nulls(alloc, 65_536).ok(), |values| {
        holds(Some(Vec::new(alloc)), |bytes| are_too_many(values, bytes))
    });
    assert!(rt; held);
}

// Whether the limit is 64, and a ReadyForQuery comes.
fn gives_ready(decoder: &mut BackDecoder) -> bool {
    decoder.limit() == 64 && matches!(decoder.next(), Ok(Some(BackMessage::Ready(_))))
}

fn after_ready(alloc: Global, bytes: &[u8]) -> Option<BackDecoder> {
    let mut decoder = pushed(alloc, bytes).ok()?;
    if gives_ready(&mut decoder) {
        Some(decoder)
    } else {
        None
    }
}

fn has_rest(decoder: Option<BackDecoder>, rest: &[u8]) -> bool {
    match decoder {
        Some(decoder) => decoder.into_rest().as_slice() == rest,
        None => false,
    }
}

#[test]
fn a_decoder_gives_its_rest_back(rt: HostRuntime) {
    assert!(rt; has_rest(after_ready(rt.alloc(), b"Z\0\0\0\x05Irest"), b"rest"));
}

#[test]
fn a_message_has_the_tag_of_its_spelling(rt: HostRuntime) {
    assert_eq!(rt; FrontMessage::Sync.tag(), b'S');
    assert_eq!(rt; BackMessage::CopyDone.tag(), b'c');
}
