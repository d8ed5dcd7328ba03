//! What a stream looks like.

ghost use Rattle.std.specs.Prelude.{◌≡◌};
ghost use Rattle.pgpipe_explain.specs.Guess.{begins_with, exchanged, guess_of, is_capture};
ghost use Rattle.pgpipe_explain.specs.Guess.{side_guess};

use thiserror::Error;

/// What the first bytes of a stream look like.
#[derive(Clone, Copy, Debug, Error)]
pub enum Guess {
    /// What a client sends.
    #[error("this looks like a client's stream: --front")]
    Client,
    /// What a server sends.
    #[error("this looks like a server's stream: leave --front out")]
    Server,
    /// What the other side sends, where there is a file of each.
    #[error("this looks like the other side's stream: maybe the two files are exchanged")]
    Exchanged,
    /// A file of captured packets.
    #[error("this looks like a capture file: take its streams out of it, as tcpflow does")]
    Capture,
    /// The byte that rejects encryption, and then messages.
    #[error("the first byte answers a request for encryption, and is no message: leave it out, as tail -c +2 does")]
    Refusal,
    /// A grant of encryption, and then TLS.
    #[error("the first byte grants encryption: what comes after it is encrypted, and can't be shown")]
    Granted,
    /// TLS.
    #[error("this looks like TLS: an encrypted stream can't be shown")]
    Tls,
}

// Whether a stream begins so.
fn begins_with(first: &[u8], mark: &[u8]) -> bool
    ensures { result ≡ begins_with first.now mark.now }
{
    first.starts_with(mark)
}

// Whether a stream begins as a file of captured packets: pcap in either order of bytes, with micro- or nanoseconds, or pcapng.
fn is_capture(first: &[u8]) -> bool
    ensures { result ≡ is_capture first.now }
{
    begins_with(first, &[0xd4, 0xc3, 0xb2, 0xa1])
        || begins_with(first, &[0xa1, 0xb2, 0xc3, 0xd4])
        || begins_with(first, &[0x4d, 0x3c, 0xb2, 0xa1])
        || begins_with(first, &[0xa1, 0xb2, 0x3c, 0x4d])
        || begins_with(first, &[0x0a, 0x0d, 0x0d, 0x0a])
}

// Whether a server's stream begins with a byte that rejects encryption: after it comes another one, or the tag of an Authentication or an error.
fn is_refusal(first: &[u8]) -> bool
    ensures { result ≡ Rattle.pgpipe_explain.specs.Guess.is_refusal first.now }
{
    begins_with(first, b"NR") || begins_with(first, b"NE") || begins_with(first, b"NN")
}

// Whether a stream begins with a grant of encryption, and TLS after it.
fn is_granted(first: &[u8]) -> bool
    ensures { result ≡ Rattle.pgpipe_explain.specs.Guess.is_granted first.now }
{
    begins_with(first, b"S\x16\x03") || begins_with(first, b"NS\x16\x03")
}

// What a stream looks like that isn't a server's.
fn back_guess(first: &[u8]) -> Option<Guess>
    ensures { result ≡ Rattle.pgpipe_explain.specs.Guess.back_guess first.now }
{
    if is_refusal(first) {
        return Some(Guess::Refusal);
    }
    if begins_with(first, &[0, 0]) {
        return Some(Guess::Client);
    }
    None
}

// What a stream looks like that isn't a client's.
fn front_guess(first: &[u8]) -> Option<Guess>
    ensures { result ≡ Rattle.pgpipe_explain.specs.Guess.front_guess first.now }
{
    if begins_with(first, b"R\0\0") || begins_with(first, b"E\0\0") || is_refusal(first) {
        return Some(Guess::Server);
    }
    None
}

/// What a stream that begins with these bytes looks like, if it can't be what is being read: a client's with `front`, and else a server's.
pub fn guess_of(front: bool, first: &[u8]) -> Option<Guess>
    ensures { result ≡ guess_of front first.now }
{
    if is_capture(first) {
        return Some(Guess::Capture);
    }
    if begins_with(first, &[0x16, 0x03]) {
        return Some(Guess::Tls);
    }
    if is_granted(first) {
        return Some(Guess::Granted);
    }
    if front {
        return front_guess(first);
    }
    back_guess(first)
}

// The same guess, where there is a file of each side.
fn exchanged(guess: Guess) -> Guess
    ensures { result ≡ exchanged guess }
{
    match guess {
        Guess::Client | Guess::Server => Guess::Exchanged,
        other => other,
    }
}

/// What the stream of one side looks like, if it can't be that of the client (`front`) or of the server, where there is a file of each.
pub fn side_guess(front: bool, first: &[u8]) -> Option<Guess>
    ensures { result ≡ side_guess front first.now }
{
    match guess_of(front, first) {
        Some(guess) => Some(exchanged(guess)),
        None => None,
    }
}
