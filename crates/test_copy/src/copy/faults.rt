//! What faults say.

use super::are_told;
use pg_copy::{BinaryFault, OptionFault, RowFault, TextFault};

const TEXT: [(TextFault, &str); 5] = [
    (TextFault::RawReturn, "T1 RawReturn"),
    (TextFault::LoneBackslash, "T2 LoneBackslash"),
    (TextFault::Columns(2), "T3 Columns 2"),
    (TextFault::Memory, "T4 Memory"),
    (TextFault::RawNewline, "T5 RawNewline"),
];

#[test]
fn faults_of_text_have_their_texts(rt: HostRuntime) {
    assert!(rt; are_told(rt.alloc(), &TEXT) == Ok(true));
}

const HEADS: [(BinaryFault, &str); 3] = [
    (BinaryFault::Signature, "B1 Signature"),
    (BinaryFault::Flags(65_536), "B2 Flags 65536"),
    (BinaryFault::Extension(-1), "B3 Extension -1"),
];

#[test]
fn faults_of_heads_have_their_texts(rt: HostRuntime) {
    assert!(rt; are_told(rt.alloc(), &HEADS) == Ok(true));
}

const BINARY_ROWS: [(BinaryFault, &str); 5] = [
    (BinaryFault::FieldCount(2), "B4 FieldCount 2"),
    (BinaryFault::FieldLength(-2), "B5 FieldLength -2"),
    (BinaryFault::Truncated, "B6 Truncated"),
    (BinaryFault::AfterTrailer, "B7 AfterTrailer"),
    (BinaryFault::Memory, "B8 Memory"),
];

#[test]
fn faults_of_binary_rows_have_their_texts(rt: HostRuntime) {
    assert!(rt; are_told(rt.alloc(), &BINARY_ROWS) == Ok(true));
}

const ROWS: [(RowFault, &str); 4] = [
    (RowFault::Width(0), "R1 Width 0"),
    (RowFault::FieldLong, "R2 FieldLong"),
    (RowFault::Memory, "R3 Memory"),
    (RowFault::LikeNull(0), "R4 LikeNull 0"),
];

#[test]
fn faults_of_rows_have_their_texts(rt: HostRuntime) {
    assert!(rt; are_told(rt.alloc(), &ROWS) == Ok(true));
}

const OPTIONS: [(OptionFault, &str); 3] = [
    (OptionFault::Delimiter(97), "O1 Delimiter 97"),
    (OptionFault::NullMark, "O2 NullMark"),
    (OptionFault::Memory, "O3 Memory"),
];

#[test]
fn faults_of_options_have_their_texts(rt: HostRuntime) {
    assert!(rt; are_told(rt.alloc(), &OPTIONS) == Ok(true));
}
