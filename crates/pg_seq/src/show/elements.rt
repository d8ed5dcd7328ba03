//! The types of the language and of its library that `{:?}` writes in lists: bytes as a text, and the others one by one.
use super::{AsText, ByElement, DebugElement};
use crate::Seq;
use std::alloc::Allocator;
use std::fmt;

impl DebugElement for u8 {
    type Form = AsText;
}

impl DebugElement for u16 {
    type Form = ByElement;
}

impl DebugElement for u32 {
    type Form = ByElement;
}

impl DebugElement for u64 {
    type Form = ByElement;
}

impl DebugElement for u128 {
    type Form = ByElement;
}

impl DebugElement for usize {
    type Form = ByElement;
}

impl DebugElement for i8 {
    type Form = ByElement;
}

impl DebugElement for i16 {
    type Form = ByElement;
}

impl DebugElement for i32 {
    type Form = ByElement;
}

impl DebugElement for i64 {
    type Form = ByElement;
}

impl DebugElement for i128 {
    type Form = ByElement;
}

impl DebugElement for isize {
    type Form = ByElement;
}

impl DebugElement for f32 {
    type Form = ByElement;
}

impl DebugElement for f64 {
    type Form = ByElement;
}

impl DebugElement for bool {
    type Form = ByElement;
}

impl DebugElement for char {
    type Form = ByElement;
}

impl DebugElement for () {
    type Form = ByElement;
}

impl DebugElement for &str {
    type Form = ByElement;
}

impl<A: Allocator> DebugElement for String<A> {
    type Form = ByElement;
}

impl<T: fmt::Debug> DebugElement for Option<T> {
    type Form = ByElement;
}

impl<T: fmt::Debug, E: fmt::Debug> DebugElement for Result<T, E> {
    type Form = ByElement;
}

impl<T: fmt::Debug> DebugElement for &T {
    type Form = ByElement;
}

impl<T: fmt::Debug> DebugElement for &[T] {
    type Form = ByElement;
}

impl<T: fmt::Debug, A: Allocator> DebugElement for Vec<T, A> {
    type Form = ByElement;
}

impl<T: fmt::Debug, A: Allocator> DebugElement for Box<T, A> {
    type Form = ByElement;
}

impl<T: DebugElement> DebugElement for Seq<T> {
    type Form = ByElement;
}

impl<A: fmt::Debug, B: fmt::Debug> DebugElement for (A, B) {
    type Form = ByElement;
}

impl<A: fmt::Debug, B: fmt::Debug, C: fmt::Debug> DebugElement for (A, B, C) {
    type Form = ByElement;
}
