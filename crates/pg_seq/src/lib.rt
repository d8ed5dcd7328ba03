//! [`Seq<T>`](Seq): the list that the library's values are made of. A contract sees its elements and no capacity, so two are equal where their
//! elements are. [`Buffer`]: a queue of bytes, which a contract sees as bytes.
//!
//! Text of the protocol is bytes, a `Seq<u8>`: PostgreSQL doesn't say that it is UTF-8. What takes memory can fail: `Seq::from_slice`, `push`
//! and `Clone` of lists return an error where memory ran out, and leave the list as it was.
//!
//! | File | Definitions in `specs/` | What it has |
//! |---|---|---|
//! | `lib.rt` | | `Seq<T>`, its conversions and iterators |
//! | `buffer.rt` | | `Buffer` |
//! | `compared.rt`, `lent.rt` | | comparing with slices; lending the elements |
//! | `show.rt` | `Text` | `{:?}`, as a derived form writes a list |
#![tactic(auto)]

mod buffer;
mod compared;
mod lent;
mod show;

ghost use Rattle.std.specs.Prelude.{◌≡◌, ◌↔◌, [], ◌∷◌, ◌++◌, length, slice_get, IsTrue, IfOk};
ghost use Rattle.std.specs.Prelude.{IfErr, IsOk, OnOk, OnErr};
ghost use Rattle.std.specs.Iterator.Runs.{EveryRun, ItemsAre, ItemsMapTo};
ghost use Rattle.std.specs.List.{AllZip};
ghost use Rattle.std.specs.Option.{option_copied};
ghost use Rattle.std.specs.Slice.Iter.{iter_rest, iter_steps};
ghost use Rattle.std.specs.Vec.Iter.{into_iter_items, into_iter_steps};
ghost use Rattle.std.specs.declared.alloc.Global.{Global};

pub use buffer::Buffer;
pub use show::{AsText, ByElement, DebugElement, DebugForm};
use std::alloc::{AllocError, AllocFailed, Global};
use std::default::{Emptied, MadeWith};
use std::marker::Model;
use std::{slice, vec};

/// A list on the heap. A clause sees the list of its elements and no capacity, so two are equal where their elements are.
#[derive(Drop)]
pub struct Seq<T> {
    items: Vec<T>,
}

impl<T> Model for Seq<T> {
    ghost use Rattle.std.specs.Prelude.{List};

    ghost Value = { List T };

    ghost view = { λ s. s.items.items };
}

impl<T> Seq<T> {
    /// Makes a list of the elements of `items`. It takes no memory, so `Seq::new(Vec::new(alloc))` is an empty list.
    pub fn new(items: Vec<T>) -> Self
        ensures { result ≡ items.items }
    {
        Self { items }
    }

    /// Gives the elements back as a `Vec`. It takes no memory.
    pub fn into_vec(self) -> Vec<T>
        ensures { result.items ≡ self }
    {
        let Seq { items } = self;
        items
    }

    /// The elements as a slice.
    pub fn as_slice(&self) -> &[T]
        ensures { result.now ≡ self.now }
    {
        self.items.as_slice()
    }

    /// How many elements there are.
    pub fn len(&self) -> usize
        ensures { result ≡ length self.now }
    {
        self.items.len()
    }

    /// Whether there is no element.
    pub fn is_empty(&self) -> bool
        ensures { IsTrue result ↔ (self.now ≡ []) }
    {
        self.items.is_empty()
    }

    /// The element at `index`, or `None` past the end.
    pub fn get(&self, index: usize) -> Option<&T>
        ensures { option_copied result ≡ slice_get self.now index }
    {
        self.items.get(index)
    }

    /// Goes over the elements in their order.
    pub fn iter(&self) -> slice::Iter<'_, T>
        ensures rest { iter_rest result ≡ self.now }
        ensures runs { EveryRun (iter_steps {A = T})
            (λ p. ItemsMapTo p (λ x. x.now) (iter_rest p.from)) }
    {
        self.items.iter()
    }

    /// Adds `value` at the end. Where memory runs out, the list stays as it was, and the error gives `value` back.
    pub fn push(&mut self, value: T) -> Result<(), AllocFailed<T>>
        ensures ok { OnOk result (self.new ≡ self.old ++ value ∷ []) }
        ensures err { OnErr result (self.new ≡ self.old) }
        ensures value_returned { IfErr result (λ e. e.value ≡ value) }
    {
        self.items.push(value)
    }
}

impl<T: Copy> Seq<T> {
    /// Copies the elements of `items` into a new list. It fails only where memory runs out.
    pub fn from_slice(alloc: Global, items: &[T]) -> Result<Self, AllocError>
        ensures { IfOk result (λ list. list ≡ items.now) }
    {
        Ok(Seq::new(Vec::from_slice(alloc, items)?))
    }
}

/// `clone` clones each element, and fails only where memory runs out. Where a clone of an element equals it, as with numbers, the new list equals the
/// old one.
impl<T: Clone> Clone for Seq<T> {
    ghost is_clone = { λ list copy. AllZip T.is_clone list copy
        × (((x y : T) → T.is_clone x y → y ≡ x) → copy ≡ list) };

    fn clone(&self) -> Result<Self, AllocError> {
        Ok(Seq::new(Vec::from_clones(*self.items.allocator(), self.as_slice())?))
    }
}

/// Makes a list of the elements of a `Vec`, as `Seq::new` does. It takes no memory.
impl<T> From<Vec<T>> for Seq<T> {
    ghost from_gives = { λ items list. list ≡ items.items };

    fn from(items: Vec<T>) -> Self {
        Seq::new(items)
    }
}

/// Gives the elements back as a `Vec`, as `Seq::into_vec` does. It takes no memory.
impl<T> From<Seq<T>> for Vec<T> {
    ghost from_gives = { λ list items. items.items ≡ list };

    fn from(list: Seq<T>) -> Self {
        list.into_vec()
    }
}

/// An empty list on the same heap, as `mem::try_take` leaves in a list's place. It takes no memory, so it never fails.
impl<T> Emptied for Seq<T> {
    ghost is_emptied = { λ list. list ≡ [] };

    fn emptied(like: &Self) -> Result<Self, AllocError>
        ensures empty { IfOk result (λ list. list ≡ []) }
        ensures succeeds { IsOk result }
    {
        Ok(Seq::new(Vec::new(*like.items.allocator())))
    }
}

/// An empty list, as `or_default` puts into a map. It stands for Rust's `Default`, where a list has no allocator. It takes no memory.
impl<T> MadeWith<Global> for Seq<T> {
    ghost is_made_with = { λ list. list ≡ [] };

    fn made_with(alloc: Global) -> Self {
        Seq::new(Vec::new(alloc))
    }
}

/// Collects the items in their order. It fails only where memory runs out.
impl<T: Drop> FromIterator<T> for Seq<T> {
    type Alloc = Global;

    ghost from_iter_gives = { λ items list. list ≡ items };

    fn from_iter<I: IntoIterator<Item = T>>(alloc: Global, iter: I) -> Result<Self, AllocError> {
        Ok(Seq::new(Vec::from_iter(alloc, iter)?))
    }
}

/// Adds the items at the end, in their order. Where memory runs out, those that came before are added.
impl<T: Drop> Extend<T> for Seq<T> {
    ghost extend_gives = { λ list items longer. longer ≡ list ++ items };

    fn extend<I: IntoIterator<Item = T>>(&mut self, iter: I) -> Result<(), AllocError> {
        self.items.extend(iter)
    }
}

/// Goes over the elements by value, in their order.
impl<T: Drop> IntoIterator for Seq<T> {
    type Item = T;

    type IntoIter = vec::IntoIter<T>;

    ghost into_iter_gives = { λ list it. (into_iter_items it ≡ list)
        × EveryRun (into_iter_steps {X = T} {Z = Global})
        (λ p. ItemsAre p (into_iter_items p.from)) };

    fn into_iter(self) -> vec::IntoIter<T> {
        self.into_vec().into_iter()
    }
}

/// Goes over the elements by reference, in their order.
impl<'a, T> IntoIterator for &'a Seq<T> {
    type Item = &'a T;

    type IntoIter = slice::Iter<'a, T>;

    ghost into_iter_gives = { λ list it. (iter_rest it ≡ list.now)
        × EveryRun (iter_steps {A = T}) (λ p. ItemsMapTo p (λ x. x.now) (iter_rest p.from)) };

    fn into_iter(self) -> slice::Iter<'a, T> {
        self.iter()
    }
}
