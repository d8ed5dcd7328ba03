use pg_wire::{FrontMessage, Seq, frontend, md5_answer};
use std::alloc::Global;
use std::test::Fail;
use testing::holds;

// The answers that are expected here were computed with Python's hashlib.

#[test]
fn an_answer_is_salted(rt: HostRuntime) {
    let answer = md5_answer(b"c", b"ab", [1, 2, 3, 4]);
    assert_eq!(rt; &answer, b"md596838e208aad1ff8fc396693d03e488d");
    let answer = md5_answer(b"c", b"ab", [1, 2, 3, 5]);
    assert!(rt; answer != *b"md596838e208aad1ff8fc396693d03e488d");
}

#[test]
fn a_user_or_a_password_may_be_empty(rt: HostRuntime) {
    let answer = md5_answer(b"", b"secret", [0; 4]);
    assert_eq!(rt; &answer, b"md554a02e14194c8a1db31bdc2e97f212fc");
    let answer = md5_answer(b"postgres", b"", [0xFF, 0xFE, 0, 0x80]);
    assert_eq!(rt; &answer, b"md5807e3bb042e224718cea10889007bf64");
}

#[test]
fn a_password_may_be_longer_than_a_block(rt: HostRuntime) {
    let answer = md5_answer(b"ann", &[b'a'; 70], [0x93, 0x2C, 0xB1, 0x7E]);
    assert_eq!(rt; &answer, b"md547320af15dab51a9371f08ae8c90f451");
}

#[test]
fn an_answer_is_the_text_of_a_message(rt: HostRuntime) -> Result<(), Fail> {
    let mut buf = Vec::new(rt.alloc());
    frontend::password_message(&md5_answer(b"c", b"ab", [1, 2, 3, 4]), &mut buf)?;
    let written = b"p\0\0\0\x28md596838e208aad1ff8fc396693d03e488d\0";
    assert_eq!(rt; buf.as_slice(), written.as_slice());
    Ok(())
}

// Whether this is what `{:?}` writes of a message.
fn is_shown_as(alloc: Global, message: &FrontMessage, text: &str) -> bool {
    match format!(in alloc; "{message:?}") {
        Ok(shown) => shown.as_str() == text,
        Err(_) => false,
    }
}

fn password(alloc: Global, text: &[u8]) -> Option<FrontMessage> {
    Some(FrontMessage::Password(Seq::from_slice(alloc, text).ok()?))
}

fn query(alloc: Global, text: &[u8]) -> Option<FrontMessage> {
    Some(FrontMessage::Query(Seq::from_slice(alloc, text).ok()?))
}

#[test]
fn a_password_is_not_shown(rt: HostRuntime) {
    let alloc = rt.alloc();
    for text in [b"ab".as_slice(), &md5_answer(b"c", b"ab", [1, 2, 3, 4])] {
        assert!(rt;
            holds(
                password(alloc, text),
                |it| is_shown_as(alloc, it, "Password(..)")
            )
        );
    }
    assert!(rt;
        holds(
            query(alloc, b"ab"),
            |it| is_shown_as(alloc, it, r#"Query(b"ab")"#)
        )
    );
}
