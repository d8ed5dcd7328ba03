//! Equality, order and hash of lists, which are those of their slices.
//!
//! Both sides of a comparison have one type. So a list is compared with a slice as `list.as_slice() == slice`, and with an array as
//! `list[..] == [1, 2]`.
ghost use Rattle.std.specs.Cmp.Lexicographic.{pointwise, slice_cmp, slice_partial_cmp};
ghost use Rattle.std.specs.Cmp.Lexicographic.{lists_agrees, lists_equiv, lists_per, lists_po};
ghost use Rattle.std.specs.Cmp.Lexicographic.{lists_ties, lists_total};
ghost use Rattle.std.specs.Hash as fed;
ghost use Rattle.std.specs.Hash.{items_Alike};

use crate::Seq;
use std::cmp::Ordering;
use std::hash::{Hash, Hasher};

/// Two lists are equal where they are of one length and their elements are equal, place by place.
impl<T: PartialEq> PartialEq for Seq<T> {
    ghost eq = { pointwise T.eq };

    ghost laws = { lists_per T.laws };

    fn eq(&self, other: &Self) -> bool {
        self.as_slice() == other.as_slice()
    }
}

impl<T: Eq> Eq for Seq<T> {
    ghost laws = { lists_equiv T.Eq.laws };
}

/// The first elements that are not equal decide, and where there are none the shorter list is less. It is `None` where those elements
/// don't compare.
impl<T: PartialOrd> PartialOrd for Seq<T> {
    ghost partial_cmp = { slice_partial_cmp T.partial_cmp };

    ghost laws = { lists_po T.PartialOrd.laws };

    fn partial_cmp(&self, other: &Self) -> Option<Ordering> {
        self.as_slice().partial_cmp(&other.as_slice())
    }
}

/// The first elements that are not equal decide, and where there are none the shorter list is less.
impl<T: Ord> Ord for Seq<T> {
    ghost cmp = { slice_cmp T.cmp };

    ghost total = { lists_total T.total };

    ghost matches_partial_cmp = { lists_agrees T.matches_partial_cmp };

    ghost matches_eq = { lists_ties T.cmp T.matches_eq };

    fn cmp(&self, other: &Self) -> Ordering {
        self.as_slice().cmp(&other.as_slice())
    }
}

/// Feeds the hasher what a slice feeds it: the length, and then each element.
impl<T: Hash> Hash for Seq<T> {
    ghost hash_input = { fed.slice T.hash_input };

    ghost respects_eq = { (items_Alike (record { fed = T.respects_eq })).fed };

    fn hash<H: Hasher>(&self, state: &mut H) {
        self.as_slice().hash(state);
    }
}
