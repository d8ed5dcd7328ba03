//! Carriers that fail, invert a byte, or give fewer bytes: what a loop prints before that is what it prints without it.

ghost use Rattle.std.specs.Prelude.{◌≡◌};

use crate::tests::links::{Paper, sheet};
use crate::tests::runs::{
    FAILED_GROUP, Files, GIVEN_UP_LOAD, LOAD, REFUSED_LOAD, ROW, WRONG_PASSWORD, run,
};
use pg_pair::{Carry, CarryFault, Direct, Way};
use pgpipe_base::ToolFault;
use pgpipe_loop::run_loop::Ran;
use std::alloc::Global;

/// What a carrier does at one place.
#[derive(Clone, Copy)]
enum CarrierFlaw {
    /// This call fails, counted from 1.
    Fails(usize),
    /// Of this call, counted from 1, half of the bytes arrive.
    Fewer(usize),
    /// This byte of a way arrives inverted, counted from 0.
    Inverts(Way, usize),
}

/// Carries each piece whole, but for its flaw.
#[derive(Drop)]
struct Flawed {
    flaw: CarrierFlaw,
    calls: usize,
    to_backend: usize,
    to_client: usize,
    failures: u64,
}

impl Flawed {
    // Counts bytes of a way, and answers how many were counted before.
    fn count(&mut self, way: Way, bytes: usize) -> usize
        ensures { self.new.failures ≡ self.old.failures }
    {
        match way {
            Way::ToBackend => {
                let before = self.to_backend;
                self.to_backend = before.saturating_add(bytes);
                before
            }
            Way::ToClient => {
                let before = self.to_client;
                self.to_client = before.saturating_add(bytes);
                before
            }
        }
    }
}

impl Carry for Flawed {
    ghost failures = { λ c. c.failures };

    ghost carries = { λ _ _ _ _ _. Unit {0} };

    fn carry(&mut self, way: Way, piece: &[u8], into: &mut [u8]) -> Result<usize, CarryFault> {
        into.copy_from_slice(piece);
        self.calls = self.calls.saturating_add(1);
        let before = self.count(way, piece.len());
        let (flaw, calls) = (self.flaw, self.calls);
        match flaw {
            CarrierFlaw::Fails(call) => {
                if call == calls {
                    self.failures = self.failures.saturating_add(1);
                    return Err(CarryFault);
                }
            }
            CarrierFlaw::Fewer(call) => {
                if call == calls {
                    return Ok(piece.len() / 2);
                }
            }
            CarrierFlaw::Inverts(flawed, place) => {
                if flawed == way {
                    if let Some(byte) = into.get_mut(place.wrapping_sub(before)) {
                        *byte = !*byte;
                    }
                }
            }
        }
        Ok(piece.len())
    }
}

// How a loop of these files ends, where the carrier has this flaw; what it prints is sent to the sink.
fn run_flawed(
    alloc: Global,
    files: Files,
    flaw: CarrierFlaw,
    sink: &mut Paper,
) -> Result<Ran, ToolFault> {
    let carrier = Flawed {
        flaw,
        calls: 0,
        to_backend: 0,
        to_client: 0,
        failures: 0,
    };
    run(alloc, files, 4_096, carrier, sink)
}

// What is printed before the line that tells of the carrier, if one does.
fn before_carrier(text: &[u8]) -> Option<&[u8]> {
    for at in 0..text.len() {
        let (before, rest) = text.split_at(at);
        if rest.starts_with(b"fault\tcarry\n") {
            return Some(before);
        }
    }
    None
}

// Whether these lines go on with a group, a fault, a rejected call or the closing lines, so that no group is told in part before.
fn begins_anew(lines: &[u8]) -> bool {
    for word in [
        b"settled\t".as_slice(),
        b"fault\t",
        b"refused\t",
        b"loaded\t",
        b"client\t",
    ] {
        if lines.starts_with(word) {
            return true;
        }
    }
    false
}

// Whether what is printed before the carrier's failure is a beginning of the whole, of whole groups.
fn begins(text: &[u8], whole: &[u8]) -> bool {
    match before_carrier(text) {
        Some(before) => whole.starts_with(before) && begins_anew(whole.split_at(before.len()).1),
        None => false,
    }
}

// Whether the carrier's flaw is told at this place; where it has none there, the loop is whole. None: it is neither.
fn is_told(alloc: Global, files: Files, flaw: CarrierFlaw, whole: &[u8]) -> Option<bool> {
    let mut sink = sheet(alloc, 0);
    let ran = run_flawed(alloc, files, flaw, &mut sink);
    let text = sink.text.as_slice();
    match ran {
        Ok(Ran::CarrierFailed) if begins(text, whole) => Some(true),
        Ok(Ran::Whole) if text == whole => Some(false),
        _ => None,
    }
}

/// The flaw at this place, of one kind.
#[derive(Clone, Copy)]
enum FlawKind {
    Fails,
    Inverts(Way),
}

fn flaw_at(kind: FlawKind, place: usize) -> CarrierFlaw {
    match kind {
        FlawKind::Fails => CarrierFlaw::Fails(place.saturating_add(1)),
        FlawKind::Inverts(way) => CarrierFlaw::Inverts(way, place),
    }
}

// At how many places, one after the other, the carrier's flaw is told, before one where the loop prints all of this.
fn places_before(alloc: Global, files: Files, kind: FlawKind, whole: &[u8]) -> Option<usize> {
    for place in 0..1_000 {
        match is_told(alloc, files, flaw_at(kind, place), whole) {
            Some(true) => {}
            Some(false) => return Some(place),
            None => return None,
        }
    }
    None
}

// At how many places, one after the other, the carrier's flaw is told, before one where the loop is whole.
fn places(alloc: Global, files: Files, kind: FlawKind) -> Option<usize> {
    let mut whole = sheet(alloc, 0);
    match run(alloc, files, 4_096, Direct, &mut whole) {
        Ok(Ran::Whole) => places_before(alloc, files, kind, whole.text.as_slice()),
        _ => None,
    }
}

// A script and calls; and of these the calls of the carrier, and the bytes that go to the backend and to the client.
const PLACES: [(Files, usize, usize, usize); 6] = [
    (ROW, 4, 30, 74),
    (REFUSED_LOAD, 8, 71, 63),
    (GIVEN_UP_LOAD, 6, 40, 75),
    (LOAD, 6, 37, 43),
    (FAILED_GROUP, 4, 59, 44),
    (WRONG_PASSWORD, 4, 57, 72),
];

#[test]
fn a_call_that_fails(rt: HostRuntime) {
    for (files, calls, _, _) in PLACES {
        assert_eq!(rt; places(rt.alloc(), files, FlawKind::Fails), Some(calls));
    }
}

#[test]
fn a_byte_that_is_inverted(rt: HostRuntime) {
    for (files, _, to_backend, to_client) in PLACES {
        let backend = places(rt.alloc(), files, FlawKind::Inverts(Way::ToBackend));
        assert_eq!(rt; backend, Some(to_backend));
        let client = places(rt.alloc(), files, FlawKind::Inverts(Way::ToClient));
        assert_eq!(rt; client, Some(to_client));
    }
}

// Whether a loop of a query with a row, where the carrier has this flaw, ends so and prints this.
fn prints(alloc: Global, flaw: CarrierFlaw, ran: Ran, text: &[u8]) -> bool {
    let mut sink = sheet(alloc, 0);
    run_flawed(alloc, ROW, flaw, &mut sink) == Ok(ran) && sink.text.as_slice() == text
}

#[test]
fn the_first_byte_of_an_answer_is_inverted(rt: HostRuntime) {
    let flaw = CarrierFlaw::Inverts(Way::ToClient, 15);
    let text: &[u8] =
        b"fault\tcarry\nlost\tclear\tquery\tSELECT 1\nclient\tclosed\nbackend\tready\n";
    assert!(rt; prints(rt.alloc(), flaw, Ran::CarrierFailed, text));
}

#[test]
fn fewer_bytes_of_a_call(rt: HostRuntime) {
    let alloc = rt.alloc();
    let mut whole = sheet(alloc, 0);
    assert!(rt; run(alloc, ROW, 4_096, Direct, &mut whole) == Ok(Ran::Whole));
    for call in 1..=8 {
        assert!(rt;
            prints(
                alloc,
                CarrierFlaw::Fewer(call),
                Ran::Whole,
                whole.text.as_slice()
            ),
            "{call}"
        );
    }
}
