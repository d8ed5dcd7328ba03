//! The places where a loop is broken, and what it has come to there.

ghost use Rattle.std.specs.Prelude.{◌≡◌, ◌∷◌, ◌++◌, [], length, map, take, true, IfOk, OnOk};
ghost use Rattle.pg_pair.specs.Headline.{answered_as, settled_as};
ghost use Rattle.pg_pair.specs.Laws.{break_of};
ghost use Rattle.pgpipe_loop.specs.Everywhere.{broken_as, broken_row, first_unseen, places_along};
ghost use Rattle.pgpipe_loop.specs.Everywhere.{places_of, places_row, break_word};
ghost use Rattle.pgpipe_loop.specs.Private.Lines.{with_fields, with_row};
ghost use Rattle.std.specs.Fmt.{decimal};

use crate::lines::{LineBuffer, PutsLine};
use pg_backend::Logged;
use pg_client::Settled;
use pg_pair::{Carry, Event, Pair, Way};
use std::alloc::{AllocError, Global};
use std::fmt;

/// Where a loop is broken: after so many bytes of one way.
#[derive(Clone, Copy, Debug, PartialEq, Eq)]
pub struct Place {
    /// The way that is cut.
    pub way: Way,
    /// How many of its bytes come, at least one.
    pub bytes: usize,
}

impl fmt::Display for Place {
    fn fmt<W: fmt::Write>(&self, f: &mut fmt::Formatter<W>) -> fmt::Result {
        let (word, bytes) = (break_word(self.way), self.bytes);
        write!(f, "{word} {bytes}")
    }
}

/// What a loop has come to where it was broken.
#[derive(Clone, Copy, Debug, PartialEq, Eq)]
pub struct Broken {
    /// Where it was broken.
    pub place: Place,
    /// How many groups the client has settled.
    pub settled: usize,
    /// How many requests were made and aren't settled.
    pub doubt: usize,
    /// How many groups the backend has answered.
    pub logged: usize,
    /// Whether the settled groups were seen to be the first of those that the backend has answered.
    pub begins: bool,
}

/// The event that breaks a way.
pub fn break_of(way: Way) -> Event
    ensures { result ≡ break_of way }
{
    match way {
        Way::ToBackend => Event::BreakToBackend,
        Way::ToClient => Event::BreakToClient,
    }
}

// Puts the places of a way after others: one for each of its bytes.
fn put_places(places: &mut Vec<Place>, way: Way, count: usize) -> Result<(), AllocError>
    ensures { OnOk result (places.new.items ≡ places.old.items ++ places_along way count) }
{
    for before in 0..count {
        places.push(Place {
            way,
            bytes: before + 1,
        })?;
    }
    Ok(())
}

/// The places of a loop that has left this pair: one for each byte that has reached the backend, and one for each that has reached the
/// client.
pub fn places_of<C: Carry>(alloc: Global, pair: &Pair<C>) -> Result<Vec<Place>, AllocError>
    ensures { IfOk result (λ places. places.items ≡ places_of pair.now) }
{
    let mut places = Vec::new(alloc);
    put_places(&mut places, Way::ToBackend, pair.reached(Way::ToBackend))?;
    put_places(&mut places, Way::ToClient, pair.reached(Way::ToClient))?;
    Ok(places)
}

fn is_same<T: Eq>(a: &T, b: &T) -> bool
    ensures { a.now ≡ b.now → result ≡ true }
{
    *a == *b
}

fn is_answered(group: &Settled, logged: &Logged) -> bool
    ensures { settled_as group.now ≡ answered_as logged.now → result ≡ true }
{
    is_same(&group.request, &logged.request) && is_same(&group.outcome, &logged.outcome)
}

/// Whether these settled groups are, in order, the first of those that a backend has answered, each with its request and its outcome.
pub fn begins_log(settled: &[Settled], log: &[Logged]) -> bool
    ensures { map settled_as settled.now ≡ take (length settled.now) (map answered_as log.now)
        → result ≡ true }
{
    for i in 0..settled.len() {
        match log.get(i) {
            Some(logged) => {
                if !is_answered(&settled[i], logged) {
                    return false;
                }
            }
            None => return false,
        }
    }
    true
}

/// How far the pair has come at the end of a loop that was broken in this place.
pub fn broken_as<C: Carry>(place: Place, pair: &Pair<C>) -> Broken
    ensures { result ≡ broken_as place pair.now }
{
    let settled = pair.settled();
    let log = pair.backend().log();
    Broken {
        place,
        settled: settled.len(),
        doubt: pair.handed().len().saturating_sub(settled.len()),
        logged: log.len(),
        begins: begins_log(settled, log),
    }
}

/// The first place where the settled groups weren't seen to be the first of those that the backend has answered.
pub fn first_unseen(all: &[Broken]) -> Option<Place>
    ensures { result ≡ first_unseen all.now }
{
    for broken in all {
        if !broken.begins {
            return Some(broken.place);
        }
    }
    None
}

/// The verb of CALLS that breaks a way.
pub fn break_word(way: Way) -> &'static str
    ensures { result.now ≡ break_word way }
{
    match way {
        Way::ToBackend => "breakback",
        Way::ToClient => "breakclient",
    }
}

// Puts a word and a number into the open line.
fn put_number(word: &[u8], number: usize, lines: &mut LineBuffer) -> Result<(), AllocError>
    ensures { OnOk result (lines.new
        ≡ with_fields lines.old (Some word.now ∷ Some (decimal number) ∷ [])) }
{
    lines.put_text(word)?;
    lines.put_count(number)
}

/// The line of a place.
impl PutsLine for Broken {
    ghost line_row = { broken_row };

    fn put_line(&self, lines: &mut LineBuffer) -> Result<(), AllocError> {
        put_number(
            break_word(self.place.way).as_bytes(),
            self.place.bytes,
            lines,
        )?;
        put_number(b"settled", self.settled, lines)?;
        put_number(b"doubt", self.doubt, lines)?;
        put_number(b"logged", self.logged, lines)?;
        lines.end()
    }
}

/// The line that says how many places there are.
pub fn put_places_line(count: usize, lines: &mut LineBuffer) -> Result<(), AllocError>
    ensures { OnOk result (lines.new ≡ with_row lines.old (places_row count)) }
{
    put_number(b"places", count, lines)?;
    lines.end()
}
