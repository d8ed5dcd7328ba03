//! Lists. Each test lends its list to small functions; what owns a list does little else.

use pg_seq::Seq;
use std::alloc::{AllocError, Global};
use std::cmp::Ordering;
use std::collections::BTreeMap;
use std::convert::AsSlice;
use std::fmt::Debug;
use std::hash::{DefaultHasher, Hash, Hasher};
use std::mem;
use testing::holds;

// A list of these numbers.
fn numbers(alloc: Global, items: &[u32]) -> Option<Seq<u32>> {
    Seq::from_slice(alloc, items).ok()
}

// A list of these bytes.
fn text(alloc: Global, bytes: &[u8]) -> Option<Seq<u8>> {
    Seq::from_slice(alloc, bytes).ok()
}

// ---- elements

// The list of 3 and 5, to which 8 was pushed.
fn pushed(alloc: Global) -> Result<Seq<u32>, AllocError> {
    let mut list = Seq::from_slice(alloc, &[3u32, 5])?;
    list.push(8)?;
    Ok(list)
}

/// Indices of that list, and what stands there.
const PLACES: [(usize, Option<u32>); 2] = [(1, Some(5)), (3, None)];

fn has_at(list: &Seq<u32>, places: &[(usize, Option<u32>)]) -> bool {
    for (index, item) in places {
        if list.get(*index).copied() != *item {
            return false;
        }
    }
    true
}

fn keeps_three(list: &Seq<u32>) -> bool {
    list.as_slice() == [3, 5, 8].as_slice()
        && list.len() == 3
        && !list.is_empty()
        && list.iter().copied().max() == Some(8)
}

fn is_cloned(list: &Seq<u32>) -> bool {
    match list.clone() {
        Ok(copy) => copy == *list,
        Err(_) => false,
    }
}

fn doubled(alloc: Global, list: &Seq<u32>) -> Result<Seq<u32>, AllocError> {
    list.into_iter().map(|x| x.wrapping_mul(2)).collect(alloc)
}

fn is_doubled(alloc: Global, list: &Seq<u32>) -> bool {
    match doubled(alloc, list) {
        Ok(list) => list.into_vec().as_slice() == [6, 10, 16].as_slice(),
        Err(_) => false,
    }
}

// The last element of the list, which is taken apart.
fn last_taken(alloc: Global) -> Result<Option<u32>, AllocError> {
    Ok(pushed(alloc)?.into_iter().last())
}

#[test]
fn keeps_its_elements(rt: HostRuntime) {
    let alloc = rt.alloc();
    let held = holds(pushed(alloc).ok(), |list| {
        keeps_three(list) && has_at(list, &PLACES) && is_cloned(list) && is_doubled(alloc, list)
    });
    assert!(rt; held);
    assert_eq!(rt; last_taken(alloc), Ok(Some(8)));
}

// ---- a Vec

fn vector(alloc: Global) -> Result<Vec<u8>, AllocError> {
    Ok(vec![in alloc; 1, 2]?)
}

fn taken(alloc: Global) -> Result<Seq<u8>, AllocError> {
    Ok(vector(alloc)?.into())
}

fn is_as_new(alloc: Global, list: &Seq<u8>) -> Result<bool, AllocError> {
    Ok(*list == Seq::new(vector(alloc)?))
}

// Whether a list of these bytes is another one.
fn differs(alloc: Global, list: &Seq<u8>, bytes: &[u8]) -> Result<bool, AllocError> {
    Ok(*list != Seq::from_slice(alloc, bytes)?)
}

fn none(alloc: Global) -> Seq<Seq<u8>> {
    Seq::new(Vec::new(alloc))
}

#[test]
fn takes_a_vec(rt: HostRuntime) {
    let alloc = rt.alloc();
    assert!(rt; holds(Some(none(alloc)), |empty| empty.is_empty()));
    let held = holds(taken(alloc).ok(), |list| {
        is_as_new(alloc, list) == Ok(true) && differs(alloc, list, &[1, 3]) == Ok(true)
    });
    assert!(rt; held);
}

// ---- what is written of a list

const TEXT: &[u8] = b"ab\0\x01'\"\\\n\xff";

/// Bytes, and what is written of them.
const TEXTS: [(&[u8], &str); 2] = [(TEXT, r#"b"ab\x00\x01\'\"\\\n\xff""#), (b"", r#"b"""#)];

fn is_written<D: Debug>(alloc: Global, value: &D, text: &str) -> Result<bool, AllocError> {
    Ok(format!(in alloc; "{value:?}")?.as_str() == text)
}

fn text_is_written(alloc: Global, bytes: &[u8], written: &str) -> bool {
    holds(
        text(alloc, bytes),
        |list| is_written(alloc, list, written) == Ok(true),
    )
}

fn texts_are_written(alloc: Global, texts: &[(&[u8], &str)]) -> bool {
    for (bytes, written) in texts {
        if !text_is_written(alloc, bytes, written) {
            return false;
        }
    }
    true
}

fn row(alloc: Global) -> Result<Seq<Option<Seq<u8>>>, AllocError> {
    let text = Seq::from_slice(alloc, TEXT)?;
    Ok(Seq::new(vec![in alloc; Some(text), None]?))
}

#[test]
fn is_written_by_its_elements(rt: HostRuntime) {
    let alloc = rt.alloc();
    assert!(rt; texts_are_written(alloc, &TEXTS));
    let held = holds(
        numbers(alloc, &[1, 2]),
        |list| is_written(alloc, list, "[1, 2]") == Ok(true),
    );
    assert!(rt; held);
    let written = r#"[Some(b"ab\x00\x01\'\"\\\n\xff"), None]"#;
    let held = holds(
        row(alloc).ok(),
        |row| is_written(alloc, row, written) == Ok(true),
    );
    assert!(rt; held);
}

// ---- a list lends its elements

fn last_of(items: &[u32]) -> Option<u32> {
    items.last().copied()
}

fn count_of<L: AsSlice<u32>>(list: &L) -> usize {
    list.as_slice().len()
}

// Whether the list of 3, 5 and 8 has the methods of a slice.
fn has_methods(list: &Seq<u32>) -> bool {
    list.first().copied() == Some(3) && list.last().copied() == Some(8) && list.contains(&5)
}

// Whether the list of 3, 5 and 8 is read by index.
fn is_read_by_index(list: &Seq<u32>) -> bool {
    if list.len() != 3 {
        return false;
    }
    list[1] == 5 && list[1..] == [5, 8] && list[..] != [3, 5]
}

// Whether the list of 3, 5 and 8 is taken where a slice is wanted.
fn is_taken(list: &Seq<u32>) -> bool {
    last_of(list) == Some(8) && count_of(list) == 3
}

fn is_shown(given: &Option<Seq<u32>>) -> bool {
    given.as_deref() == Some([3, 5, 8].as_slice())
}

#[test]
fn lends_its_elements_as_a_slice(rt: HostRuntime) {
    let alloc = rt.alloc();
    let held = holds(numbers(alloc, &[3, 5, 8]), |list| {
        has_methods(list) && is_read_by_index(list) && is_taken(list)
    });
    assert!(rt; held);
    assert!(rt; holds(numbers(alloc, &[]), |empty| count_of(empty) == 0));
    assert!(rt; holds(Some(numbers(alloc, &[3, 5, 8])), |given| is_shown(given)));
}

// ---- order

/// Bytes that `ab` is compared with, and how it stands to them.
const ORDERED: [(&[u8], Ordering); 4] = [
    (b"abc", Ordering::Less),
    (b"b", Ordering::Less),
    (b"aab", Ordering::Greater),
    (b"ab", Ordering::Equal),
];

fn is_ordered(list: &Seq<u8>, other: &Seq<u8>, order: Ordering) -> bool {
    list.cmp(other) == order
        && (*list < *other) == (order == Ordering::Less)
        && (*list > *other) == (order == Ordering::Greater)
}

fn stands_so(alloc: Global, list: &Seq<u8>, bytes: &[u8], order: Ordering) -> bool {
    holds(text(alloc, bytes), |other| is_ordered(list, other, order))
}

fn all_stand_so(alloc: Global, list: &Seq<u8>, rows: &[(&[u8], Ordering)]) -> bool {
    for (bytes, order) in rows {
        if !stands_so(alloc, list, bytes, *order) {
            return false;
        }
    }
    true
}

// A list of this number and of one that compares with none.
fn floats(alloc: Global, first: f64) -> Option<Seq<f64>> {
    Seq::from_slice(alloc, &[first, f64::NAN]).ok()
}

fn stands_to(list: &Seq<f64>, other: &Seq<f64>, order: Option<Ordering>) -> bool {
    list.partial_cmp(other) == order
}

fn is_above(alloc: Global, list: &Seq<f64>, first: f64) -> bool {
    holds(floats(alloc, first), |smaller| {
        stands_to(smaller, list, Some(Ordering::Less))
    })
}

#[test]
fn is_ordered_by_its_elements(rt: HostRuntime) {
    let alloc = rt.alloc();
    let held = holds(
        text(alloc, b"ab"),
        |list| all_stand_so(alloc, list, &ORDERED),
    );
    assert!(rt; held);
    let held = holds(floats(alloc, 1.0), |list| {
        is_above(alloc, list, 0.5) && stands_to(list, list, None)
    });
    assert!(rt; held);
}

// ---- keys

fn hash_of<T: Hash>(value: &T) -> u64 {
    let mut hasher = DefaultHasher::new();
    value.hash(&mut hasher);
    hasher.finish()
}

// Whether a list is hashed as a slice of the same bytes, and another list otherwise.
fn is_hashed(one: &Seq<u8>, two: &Seq<u8>) -> bool {
    hash_of(one) == hash_of(&b"one".as_slice()) && hash_of(one) != hash_of(two)
}

fn counts(
    alloc: Global,
    one: &Seq<u8>,
    two: &Seq<u8>,
) -> Result<BTreeMap<Seq<u8>, u32>, AllocError> {
    let mut counts = BTreeMap::new(alloc);
    counts.insert(two.clone()?, 2)?;
    counts.insert(one.clone()?, 1)?;
    Ok(counts)
}

fn are_counted(counts: &BTreeMap<Seq<u8>, u32>, one: &Seq<u8>, two: &Seq<u8>) -> bool {
    counts.get(two).copied() == Some(2) && counts.keys().next() == Some(one)
}

fn are_keys(alloc: Global, one: &Seq<u8>, two: &Seq<u8>) -> bool {
    holds(
        counts(alloc, one, two).ok(),
        |counts| are_counted(counts, one, two),
    )
}

#[test]
fn is_a_key(rt: HostRuntime) {
    let alloc = rt.alloc();
    let held = holds(text(alloc, b"one"), |one| {
        holds(text(alloc, b"two"), |two| {
            is_hashed(one, two) && are_keys(alloc, one, two)
        })
    });
    assert!(rt; held);
}

// ---- a list that is emptied

// Takes the elements of a list and adds them again. Whether it was empty between.
fn is_emptied(list: &mut Seq<u32>) -> Result<bool, AllocError> {
    let taken = mem::try_take(list)?;
    let empty = list.is_empty();
    list.extend(taken)?;
    Ok(empty)
}

// Whether the list of 3 and 5 was emptied, and what it has once it is filled again and 8 is added.
fn filled(alloc: Global) -> Result<(bool, Vec<u32>), AllocError> {
    let mut list = Seq::from_slice(alloc, &[3u32, 5])?;
    let emptied = is_emptied(&mut list)?;
    list.extend(vec![in alloc; 8]?)?;
    Ok((emptied, list.into()))
}

// The one list that the key 1 has, which was made empty and to which 13 was pushed.
fn defaulted(alloc: Global) -> Result<BTreeMap<u8, Seq<u32>>, AllocError> {
    let mut lists: BTreeMap<u8, Seq<u32>> = BTreeMap::new(alloc);
    lists.entry(1)?.or_default().push(13)?;
    Ok(lists)
}

fn has_one(lists: &BTreeMap<u8, Seq<u32>>) -> bool {
    match lists.get(&1) {
        Some(list) => list.len() == 1,
        None => false,
    }
}

#[test]
fn is_made_empty(rt: HostRuntime) {
    let alloc = rt.alloc();
    let held = holds(filled(alloc).ok(), |filled| {
        filled.0 && filled.1.as_slice() == [3, 5, 8].as_slice()
    });
    assert!(rt; held);
    assert!(rt; holds(defaulted(alloc).ok(), |lists| has_one(lists)));
}
