use pg_wire::{First, FirstDecoder, FrontDecoder, FrontMessage, WireFault};
use std::alloc::Global;
use testing::holds;

// A decoder to which these bytes were pushed.
fn pushed(alloc: Global, bytes: &[u8]) -> Result<FirstDecoder, WireFault> {
    let mut decoder = FirstDecoder::new(alloc);
    decoder.push(bytes)?;
    Ok(decoder)
}

/// What a decoder gave: of a Startup the number of its parameters.
#[derive(Clone, Copy, PartialEq, Eq)]
enum PacketCame {
    Nothing,
    Startup(usize),
    Gss,
    /// Another packet.
    Other,
    Fault(WireFault),
}

// What the decoder gives.
fn next(decoder: &mut FirstDecoder) -> PacketCame {
    match decoder.next() {
        Ok(None) => PacketCame::Nothing,
        Ok(Some(First::Startup(pairs))) => PacketCame::Startup(pairs.len()),
        Ok(Some(First::Gss)) => PacketCame::Gss,
        Ok(Some(_)) => PacketCame::Other,
        Err(fault) => PacketCame::Fault(fault),
    }
}

// Whether a new decoder gives this first of these bytes.
fn comes_first(alloc: Global, bytes: &[u8], came: PacketCame) -> bool {
    holds(pushed(alloc, bytes).ok(), |first| next(first) == came)
}

fn all_come_first(alloc: Global, rows: &[(&[u8], PacketCame)]) -> bool {
    rows.iter()
        .all(|(bytes, came)| comes_first(alloc, bytes, *came))
}

/// Two lengths that are none, a code that is none, an SSLRequest with a byte after it, and its first seven bytes.
const PACKETS: [(&[u8], PacketCame); 5] = [
    (&[0, 0, 0, 7], PacketCame::Fault(WireFault::ShortLength(7))),
    (
        &[0, 0, 0x27, 0x11],
        PacketCame::Fault(WireFault::LongLength(10_001)),
    ),
    (
        &[0, 0, 0, 8, 0, 2, 0, 0],
        PacketCame::Fault(WireFault::BadFirst(131_072)),
    ),
    (
        &[0, 0, 0, 9, 0x04, 0xD2, 0x16, 0x2F, 0],
        PacketCame::Fault(WireFault::BadBody(0)),
    ),
    (&[0, 0, 0, 9, 0x04, 0xD2, 0x16], PacketCame::Nothing),
];

#[test]
fn packets_are_judged(rt: HostRuntime) {
    assert!(rt; all_come_first(rt.alloc(), &PACKETS));
}

#[test]
fn a_startup_may_have_no_parameter(rt: HostRuntime) {
    let startup = [0, 0, 0, 9, 0, 3, 0, 0, 0];
    assert!(rt; comes_first(rt.alloc(), &startup, PacketCame::Startup(0)));
}

/// GSSENCRequest, a Startup without parameters, and a Sync.
const OPENING: [u8; 22] = [
    0, 0, 0, 8, 0x04, 0xD2, 0x16, 0x30, 0, 0, 0, 9, 0, 3, 0, 0, 0, b'S', 0, 0, 0, 4,
];

// Whether it gives both packets, then nothing, and keeps the Sync once that is whole.
fn gives_opening(first: &mut FirstDecoder) -> bool {
    next(first) == PacketCame::Gss
        && next(first) == PacketCame::Startup(0)
        && next(first) == PacketCame::Nothing
        && first.push(&OPENING[19..]).is_ok()
        && first.kept() == 5
}

// The decoder that goes on after this one, with the limit 64, where this is so.
fn front_where(is_so: bool, first: FirstDecoder) -> Option<FrontDecoder> {
    if is_so {
        Some(first.into_front(64))
    } else {
        None
    }
}

// The decoder that goes on after the opening.
fn after_opening(alloc: Global) -> Option<FrontDecoder> {
    let mut first = pushed(alloc, &OPENING[..19]).ok()?;
    let is_opened = gives_opening(&mut first);
    front_where(is_opened, first)
}

#[test]
fn what_comes_after_the_startup_is_passed_on(rt: HostRuntime) {
    let held = holds(
        after_opening(rt.alloc()),
        |front| matches!(front.next(), Ok(Some(FrontMessage::Sync))),
    );
    assert!(rt; held);
}

// Whether it has this fault, and takes no more.
fn has_fault(first: &mut FirstDecoder, fault: WireFault) -> bool {
    next(first) == PacketCame::Fault(fault) && first.push(&[1]) == Err(fault)
}

// The decoder that goes on after this fault.
fn after_fault(alloc: Global, bytes: &[u8], fault: WireFault) -> Option<FrontDecoder> {
    let mut first = pushed(alloc, bytes).ok()?;
    let is_refused = has_fault(&mut first, fault);
    front_where(is_refused, first)
}

#[test]
fn a_fault_is_passed_on(rt: HostRuntime) {
    let fault = WireFault::ShortLength(7);
    let held = holds(after_fault(rt.alloc(), &[0, 0, 0, 7], fault), |front| {
        matches!(front.next(), Err(given) if given == fault) && front.push(&[1]) == Err(fault)
    });
    assert!(rt; held);
}
