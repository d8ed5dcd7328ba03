//! What `{:?}` writes of what holds a password.

use pg_backend::{Auth, Script};
use pg_client::Settings;
use pg_wire::Seq;
use std::alloc::{AllocError, Global};
use std::test::Fail;

// A name and a value.
fn pairs(alloc: Global) -> Result<Seq<(Seq<u8>, Seq<u8>)>, AllocError> {
    let mut pairs = Seq::new(Vec::new(alloc));
    pairs.push((Seq::from_slice(alloc, b"a")?, Seq::from_slice(alloc, b"b")?))?;
    Ok(pairs)
}

#[test]
fn settings(rt: HostRuntime) -> Result<(), Fail> {
    let alloc = rt.alloc();
    let mut settings = Settings::new(alloc, Seq::from_slice(alloc, b"u")?);
    assert_eq!(rt;
        format!(in alloc; "{settings:?}")?.as_str(),
        r#"Settings { user: b"u", database: None, pairs: [], password: None, limit: 1073741823 }"#
    );
    settings.database = Some(Seq::from_slice(alloc, b"d")?);
    settings.pairs = pairs(alloc)?;
    settings.password = Some(Seq::from_slice(alloc, b"secret")?);
    settings.limit = 64;
    assert_eq!(rt;
        format!(in alloc; "{settings:?}")?.as_str(),
        r#"Settings { user: b"u", database: Some(b"d"), pairs: [(b"a", b"b")], password: Some(Password(..)), limit: 64 }"#
    );
    Ok(())
}

#[test]
fn ways_in(rt: HostRuntime) -> Result<(), Fail> {
    let alloc = rt.alloc();
    let trust = Auth::Trust;
    assert_eq!(rt; format!(in alloc; "{trust:?}")?.as_str(), "Trust");
    let cleartext = Auth::Cleartext(Seq::from_slice(alloc, b"secret")?);
    assert_eq!(rt;
        format!(in alloc; "{cleartext:?}")?.as_str(),
        "Cleartext(Password(..))"
    );
    let md5 = Auth::Md5 {
        password: Seq::from_slice(alloc, b"secret")?,
        salt: [1, 2, 3, 255],
    };
    assert_eq!(rt;
        format!(in alloc; "{md5:?}")?.as_str(),
        "Md5 { password: Password(..), salt: [1, 2, 3, 255] }"
    );
    Ok(())
}

#[test]
fn a_script(rt: HostRuntime) -> Result<(), Fail> {
    let alloc = rt.alloc();
    let script = Script {
        auth: Auth::Cleartext(Seq::from_slice(alloc, b"secret")?),
        pairs: pairs(alloc)?,
        key: None,
        answers: Seq::new(Vec::new(alloc)),
    };
    assert_eq!(rt;
        format!(in alloc; "{script:?}")?.as_str(),
        r#"Script { auth: Cleartext(Password(..)), pairs: [(b"a", b"b")], key: None, answers: [] }"#
    );
    Ok(())
}
