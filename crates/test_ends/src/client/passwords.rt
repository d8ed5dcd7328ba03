//! A server that asks for a password.

use super::session::{TriedClient, session_of};
use super::{TableFault, TableRequest, TableStep};
use pg_client::{CallFault, Cause, Client, Phase, Settings};
use pg_wire::{EncodeFault, Seq};
use std::alloc::{AllocError, Global};
use testing::values::WELCOME;
use testing::{are_so, holds};

// A client of the user `c` and the database `d` with this password, in phase New, which has put nothing out.
fn given(alloc: Global, password: &[u8]) -> Result<TriedClient, AllocError> {
    let settings = Settings {
        user: Seq::from_slice(alloc, b"c")?,
        database: Some(Seq::from_slice(alloc, b"d")?),
        pairs: Seq::new(Vec::new(alloc)),
        password: Some(Seq::from_slice(alloc, password)?),
        limit: 65_536,
    };
    Ok(session_of(alloc, Client::new(alloc, settings)))
}

// Whether a client with this password does what these steps say.
fn does(alloc: Global, password: &[u8], steps: &[TableStep]) -> bool {
    holds(
        given(alloc, password).ok(),
        |session| are_so(alloc, session, steps),
    )
}

/// AuthenticationCleartextPassword.
const ASKED: &[u8] = b"R\0\0\0\x08\0\0\0\x03";

/// AuthenticationMD5Password with the salt 1, 2, 3, 4.
const ASKED_MD5: &[u8] = b"R\0\0\0\x0C\0\0\0\x05\x01\x02\x03\x04";

const CLEARTEXT: [TableStep; 4] = [
    TableStep::Start,
    TableStep::Send,
    TableStep::Take(ASKED),
    TableStep::HasPut(b"p\0\0\0\x07ab\0", Phase::Starting),
];

#[test]
fn a_password_is_put_out(rt: HostRuntime) {
    assert!(rt; does(rt.alloc(), b"ab", &CLEARTEXT));
}

const MD5: [TableStep; 4] = [
    TableStep::Start,
    TableStep::Send,
    TableStep::Take(ASKED_MD5),
    TableStep::HasPut(
        b"p\0\0\0\x28md596838e208aad1ff8fc396693d03e488d\0",
        Phase::Starting,
    ),
];

#[test]
fn an_md5_text_is_put_out(rt: HostRuntime) {
    assert!(rt; does(rt.alloc(), b"ab", &MD5));
}

/// The last byte of the salt hasn't come.
const HALF_ASKED: [TableStep; 4] = [
    TableStep::Start,
    TableStep::Send,
    TableStep::Take(b"R\0\0\0\x0C\0\0\0\x05\x01\x02\x03"),
    TableStep::HasPut(b"", Phase::Starting),
];

#[test]
fn it_is_put_out_once_the_question_is_whole(rt: HostRuntime) {
    assert!(rt; does(rt.alloc(), b"ab", &HALF_ASKED));
}

const NOT_ASKED: [TableStep; 4] = [
    TableStep::Start,
    TableStep::Send,
    TableStep::Take(&WELCOME),
    TableStep::HasPut(b"", Phase::Ready),
];

#[test]
fn without_a_question_nothing_is_put_out(rt: HostRuntime) {
    assert!(rt; does(rt.alloc(), b"ab", &NOT_ASKED));
}

const FOLLOWED: [TableStep; 7] = [
    TableStep::Start,
    TableStep::Send,
    TableStep::Take(ASKED),
    TableStep::Send,
    TableStep::Take(&WELCOME),
    TableStep::Make(TableRequest::Query),
    TableStep::HasPut(b"Q\0\0\0\x0DSELECT 1\0", Phase::Busy),
];

#[test]
fn a_session_follows(rt: HostRuntime) {
    assert!(rt; does(rt.alloc(), b"ab", &FOLLOWED));
}

const ASKED_TWICE: [TableStep; 4] = [
    TableStep::Start,
    TableStep::Send,
    TableStep::Take(ASKED),
    TableStep::Refuses(ASKED_MD5, TableFault::Unexpected(0x52), Cause::Unexpected),
];

#[test]
fn a_second_question(rt: HostRuntime) {
    assert!(rt; does(rt.alloc(), b"ab", &ASKED_TWICE));
}

const ANOTHER_WAY: [TableStep; 4] = [
    TableStep::Start,
    TableStep::Send,
    TableStep::Take(ASKED),
    TableStep::Refuses(
        b"R\0\0\0\x08\0\0\0\x0A",
        TableFault::Unexpected(0x52),
        Cause::Unexpected,
    ),
];

#[test]
fn another_way_after_a_question(rt: HostRuntime) {
    assert!(rt; does(rt.alloc(), b"ab", &ANOTHER_WAY));
}

const WITH_A_ZERO: [TableStep; 1] = [TableStep::CannotStart(CallFault::Encode(
    EncodeFault::HasZero,
))];

#[test]
fn a_password_with_a_zero_byte(rt: HostRuntime) {
    assert!(rt; does(rt.alloc(), b"a\0b", &WITH_A_ZERO));
}
