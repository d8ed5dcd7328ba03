//! What the crates of tests have in common: [`holds`] and [`is_told`], by which a test says what is so of a value, [`are_so`], which judges the
//! steps of a table, a link in memory ([`MemoryLink`]), and the values that tests are written with ([`values`]).
#![tactic(auto)]

ghost use Rattle.std.specs.Prelude.{◌≡◌, ◌↔◌, IfOk, IfSome, IsTrue, MatchOption, false};
ghost use Rattle.std.specs.Fn.{FnOnceReturnsAtMut};

mod link;
pub mod values;

pub use link::{MemoryLink, memory_link};
use std::alloc::{AllocError, Global};
use std::fmt::Display;

/// Whether a value could be made for a test, and the test says this of it. The value is let go here, where its type isn't known: to prove
/// for a client or a backend that it is let go takes ten seconds, in each test that owns one.
pub fn holds<T: Drop, F: FnOnce(&mut T) -> bool>(made: Option<T>, says: F) -> bool
    requires { F.IsAlwaysCallable says }
    ensures { MatchOption made (result ≡ false)
        (λ it. (after : _) × FnOnceReturnsAtMut F.FnOnce says it result after) }
{
    match made {
        Some(mut it) => says(&mut it),
        None => false,
    }
}

/// Whether a value is displayed as this text. The clause is about types that state what they display.
pub fn is_told<D: Display + Drop>(alloc: Global, value: D, text: &str) -> Result<bool, AllocError>
    ensures { IfOk result (λ told.
        IfSome (D.output value) (λ bytes. IsTrue told ↔ (bytes ≡ text.now))) }
{
    Ok(format!(in alloc; "{value}")?.as_str() == text)
}

/// A step of a table: what is done with a value that is tested, or what must come of it.
pub trait TestStep<T>: Copy {
    /// Does what the step says, and whether it was so.
    fn is_so(self, alloc: Global, it: &mut T) -> bool;
}

/// Whether each of these steps is so, one after the other.
pub fn are_so<T, S: TestStep<T>>(alloc: Global, it: &mut T, steps: &[S]) -> bool {
    for step in steps {
        if !step.is_so(alloc, it) {
            return false;
        }
    }
    true
}
