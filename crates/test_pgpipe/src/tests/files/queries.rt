//! What a client is made with, and what is told of a file that is refused.

use crate::tests::files::calls::{CallsClaim, TableSettings, asks};
use pgpipe_files::LineFault;
use testing::is_told;

const CALLS: &[u8] =
    b"user\tu\n\ndatabase\td\noption\ta\tb\npassword\tp\nstart\nquery\tSELECT 1\nterminate\n\
    toback\t100\ntoclient\t4294967295\nstep\nbreakback\nbreakclient\nflow\n\\.\nnonsense\n";

// Calls, and what a client is made with.
const SETTINGS: [(&[u8], TableSettings); 2] = [
    (
        CALLS,
        TableSettings {
            user: b"u",
            database: Some(b"d"),
            pairs: &[(b"a", b"b")],
            password: Some(b"p"),
            limit: 1_073_741_823,
        },
    ),
    (
        b"\n",
        TableSettings {
            user: b"",
            database: None,
            pairs: &[],
            password: None,
            limit: 1_073_741_823,
        },
    ),
];

#[test]
fn settings(rt: HostRuntime) {
    for (file, settings) in SETTINGS {
        assert!(rt;
            asks(rt.alloc(), file, &[CallsClaim::Makes(settings)]),
            "{file:?}"
        );
    }
}

// Calls with a user and a password: the bytes of the file, the user's name and the password.
const TWO_PASSWORDS: [(&[u8], &[u8], &[u8]); 2] = [
    (b"password\ta\nuser\tu\npassword\tb\n", b"u", b"b"),
    (b"password\t\n", b"", b""),
];

fn only_password(user: &'static [u8], password: &'static [u8]) -> TableSettings {
    TableSettings {
        user,
        database: None,
        pairs: &[],
        password: Some(password),
        limit: 1_073_741_823,
    }
}

#[test]
fn the_last_password_counts(rt: HostRuntime) {
    for (file, user, password) in TWO_PASSWORDS {
        let claims = [CallsClaim::Makes(only_password(user, password))];
        assert!(rt; asks(rt.alloc(), file, &claims), "{file:?}");
    }
}

#[test]
fn faults_are_told(rt: HostRuntime) {
    assert!(rt; is_told(rt.alloc(), LineFault::Line(3), "line 3") == Ok(true));
    assert!(rt; is_told(rt.alloc(), LineFault::Memory, "memory") == Ok(true));
}
