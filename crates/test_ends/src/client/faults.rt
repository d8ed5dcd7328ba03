//! Bytes that are refused.

use super::{ANSWER, ERROR, TableFault, TableStep, does};
use pg_client::Cause;
use pg_wire::WireFault;

const RESULT: [TableStep; 2] = [
    TableStep::Begin,
    TableStep::Refuses(ANSWER, TableFault::Unexpected(67), Cause::Unexpected),
];

#[test]
fn a_result_without_a_request(rt: HostRuntime) {
    assert!(rt; does(rt.alloc(), &RESULT));
}

const END: [TableStep; 2] = [
    TableStep::Begin,
    TableStep::Refuses(ERROR, TableFault::ServerEnd, Cause::ServerEnd),
];

#[test]
fn an_error_without_a_request(rt: HostRuntime) {
    assert!(rt; does(rt.alloc(), &END));
}

const STARTUP: [TableStep; 2] = [
    TableStep::Start,
    TableStep::Refuses(ERROR, TableFault::StartupError, Cause::StartupError),
];

#[test]
fn an_error_of_the_startup(rt: HostRuntime) {
    assert!(rt; does(rt.alloc(), &STARTUP));
}

const ANOTHER_WAY: [TableStep; 2] = [
    TableStep::Start,
    TableStep::Refuses(
        b"R\0\0\0\x08\0\0\0\x0A",
        TableFault::UnsupportedAuth(10),
        Cause::UnsupportedAuth,
    ),
];

#[test]
fn another_way_of_authentication(rt: HostRuntime) {
    assert!(rt; does(rt.alloc(), &ANOTHER_WAY));
}

const PASSWORD: [TableStep; 2] = [
    TableStep::Start,
    TableStep::Refuses(
        b"R\0\0\0\x08\0\0\0\x03",
        TableFault::PasswordWanted,
        Cause::PasswordWanted,
    ),
];

#[test]
fn a_password_that_is_asked_for(rt: HostRuntime) {
    assert!(rt; does(rt.alloc(), &PASSWORD));
}

const READY: [TableStep; 2] = [
    TableStep::Start,
    TableStep::Refuses(
        b"Z\0\0\0\x05I",
        TableFault::Unexpected(90),
        Cause::Unexpected,
    ),
];

#[test]
fn a_ready_without_a_welcome(rt: HostRuntime) {
    assert!(rt; does(rt.alloc(), &READY));
}

const STREAM: [TableStep; 2] = [
    TableStep::Begin,
    TableStep::Refuses(
        b"Z\0\0\0\x03",
        TableFault::Wire(WireFault::ShortLength(3)),
        Cause::Wire,
    ),
];

#[test]
fn a_stream_with_a_fault(rt: HostRuntime) {
    assert!(rt; does(rt.alloc(), &STREAM));
}
