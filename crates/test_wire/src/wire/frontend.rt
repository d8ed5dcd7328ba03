use pg_wire::{EncodeFault, Seq, frontend};
use std::alloc::{AllocError, Global};
use testing::holds;

// A list with the one parameter `user`, whose value has so many bytes.
fn user_of_length(alloc: Global, length: usize) -> Result<Vec<(Seq<u8>, Seq<u8>)>, AllocError> {
    let name = Seq::from_slice(alloc, b"user")?;
    let value = Seq::new(vec![in alloc; b'u'; length]?);
    Ok(vec![in alloc; (name, value)]?)
}

// So many values that are null.
fn nulls(alloc: Global, count: u32) -> Result<Vec<Option<Seq<u8>>>, AllocError> {
    let mut values = Vec::new(alloc);
    for _ in 0..count {
        values.push(None)?;
    }
    Ok(values)
}

// An empty buffer.
fn buffer(alloc: Global) -> Option<Vec<u8>> {
    Some(Vec::new(alloc))
}

/// SSLRequest, a Startup of the user `u`, and a CancelRequest.
const FIRST: &[u8] =
    b"\0\0\0\x08\x04\xD2\x16\x2F\0\0\0\x10\0\x03\0\0user\0u\0\0\0\0\0\x10\x04\xD2\x16\x2E\0\0\0\x01\0\0\0\x02";

#[test]
fn first_packets_are_written(rt: HostRuntime) {
    let alloc = rt.alloc();
    let held = holds(user_of_length(alloc, 1).ok(), |pairs| {
        holds(buffer(alloc), |buf| {
            frontend::ssl_request(buf).is_ok()
                && frontend::startup_message(pairs.as_slice(), buf).is_ok()
                && frontend::cancel_request(1, 2, buf).is_ok()
                && buf.as_slice() == FIRST
        })
    });
    assert!(rt; held);
}

#[test]
fn a_startup_is_written_of_lent_parts(rt: HostRuntime) {
    let alloc = rt.alloc();
    let held = holds(user_of_length(alloc, 1).ok(), |others| {
        holds(buffer(alloc), |buf| {
            let first = frontend::startup(b"a", Some(b"b"), &others.as_slice()[..0], buf).is_ok()
                && buf.as_slice() == b"\0\0\0\x1B\0\x03\0\0user\0a\0database\0b\0\0".as_slice();
            buf.clear();
            first
                && frontend::startup(b"a", None, others.as_slice(), buf).is_ok()
                && buf.as_slice() == b"\0\0\0\x17\0\x03\0\0user\0a\0user\0u\0\0".as_slice()
                && frontend::startup(b"a", Some(b"\0"), others.as_slice(), buf)
                    == Err(EncodeFault::HasZero)
                && buf.len() == 23
        })
    });
    assert!(rt; held);
}

// A buffer with the Startup of a user of so many bytes.
fn startup_of(alloc: Global, length: usize) -> Option<Vec<u8>> {
    let pairs = user_of_length(alloc, length).ok()?;
    let mut buf = Vec::new(alloc);
    match frontend::startup_message(pairs.as_slice(), &mut buf) {
        Ok(()) => Some(buf),
        Err(_) => None,
    }
}

// Whether a Startup of these parameters is too long, and the buffer stays as it is.
fn is_too_long(alloc: Global, pairs: &[(Seq<u8>, Seq<u8>)], buf: &mut Vec<u8>) -> bool {
    match Vec::from_slice(alloc, buf.as_slice()) {
        Ok(before) => {
            frontend::startup_message(pairs, buf) == Err(EncodeFault::TooLong)
                && buf.as_slice() == before.as_slice()
        }
        Err(_) => false,
    }
}

#[test]
fn a_startup_has_at_most_ten_thousand_bytes(rt: HostRuntime) {
    let alloc = rt.alloc();
    let held = holds(user_of_length(alloc, 9_986).ok(), |pairs| {
        holds(startup_of(alloc, 9_985), |buf| {
            buf.len() == 10_000 && is_too_long(alloc, pairs.as_slice(), buf)
        })
    });
    assert!(rt; held);
}

// A buffer with a Bind of so many values that are null.
fn bind_of(alloc: Global, count: u32) -> Option<Vec<u8>> {
    let values = nulls(alloc, count).ok()?;
    let mut buf = Vec::new(alloc);
    match frontend::bind(b"", b"", &[], values.as_slice(), &[], &mut buf) {
        Ok(()) => Some(buf),
        Err(_) => None,
    }
}

// Whether these values are too many for a Bind, and the buffer stays as it is.
fn are_too_many(alloc: Global, values: &[Option<Seq<u8>>], buf: &mut Vec<u8>) -> bool {
    match Vec::from_slice(alloc, buf.as_slice()) {
        Ok(before) => {
            frontend::bind(b"", b"", &[], values, &[], buf) == Err(EncodeFault::TooMany)
                && buf.as_slice() == before.as_slice()
        }
        Err(_) => false,
    }
}

#[test]
fn a_bind_has_at_most_65535_values(rt: HostRuntime) {
    let alloc = rt.alloc();
    let held = holds(nulls(alloc, 65_536).ok(), |values| {
        holds(bind_of(alloc, 65_535), |buf| {
            buf.as_slice().starts_with(&[0x42, 0x00, 0x04, 0x00, 0x08])
                && are_too_many(alloc, values.as_slice(), buf)
        })
    });
    assert!(rt; held);
}

#[test]
fn a_query_has_no_zero_byte(rt: HostRuntime) {
    let held = holds(buffer(rt.alloc()), |buf| {
        frontend::query(b"a\0", buf) == Err(EncodeFault::HasZero)
            && buf.is_empty()
            && frontend::query(b"SELECT 1", buf).is_ok()
            && buf.as_slice() == b"Q\0\0\0\x0DSELECT 1\0".as_slice()
    });
    assert!(rt; held);
}
