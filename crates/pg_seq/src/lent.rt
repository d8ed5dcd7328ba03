//! How a list lends its elements: as a slice, whose methods it has, and by index.
ghost use Rattle.std.specs.Prelude.{◌≡◌, ◌<◌, List, length, slice_index_or};

use crate::Seq;
use std::convert::AsSlice;
use std::ops::{AsDeref, DerefSlice, Index};

/// Where a slice is wanted, a list stands for its elements: `&list` is taken for a `&[T]`, and a slice's methods, as `first` and `last`,
/// are a list's.
impl<T> DerefSlice for Seq<T> {
    type Elem = T;

    ghost deref_gives = { λ list items. items ≡ list };

    fn deref(&self) -> &[T] {
        self.as_slice()
    }
}

/// `as_deref` shows an `Option<Seq<T>>` as an `Option<&[T]>`.
impl<'a, T: 'a> AsDeref<'a> for Seq<T> {
    type Shown = &'a [T];

    ghost as_deref_gives = { λ list items. items.now ≡ list };

    ghost View = { List T };

    ghost view = { λ list. list };

    ghost output_view = { λ items. items.now };

    fn shown(&'a self) -> &'a [T] {
        self.as_slice()
    }
}

/// Stands for Rust's `AsRef<[T]>`: lends the elements to what takes any list.
impl<T> AsSlice<T> for Seq<T> {
    ghost items = { λ list. list };

    fn as_slice(&self) -> &[T] {
        Seq::as_slice(self)
    }
}

/// `list[index]` is the element at `index`, which must be less than the length.
impl<T> Index<usize> for Seq<T> {
    type Output = T;

    ghost can_index = { λ list index. index < length list };

    ghost index_gives = { λ list index item. item ≡ slice_index_or list index item };

    fn index(&self, index: usize) -> &T
        requires { index < length self.now }
        ensures { result.now ≡ slice_index_or self.now index result.now }
    {
        &self.as_slice()[index]
    }
}
