//! A proxy for one client: it connects to a server, passes on the bytes of both, and prints the messages in them.
//!
//! `example_proxy 127.0.0.1:5432` connects to that server. It prints the port that it listens at itself.
#![tactic(auto)]

use anyhow::{Context, Result, bail, ensure};
use pg_wire::{BackMessage, Decoder, First, FirstDecoder, FrontMessage, LONGEST, Message};
use standard_streams::all_open;
use std::io::{ErrorKind, Read, Write};
use std::net::{TcpListener, TcpStream};
use std::time::Duration;
use std::{env, fmt};

// What a client begins its session with. Encryption is declined before, since what is encrypted can't be read.
fn begin<R: AllocGlobal>(rt: &R, client: &mut TcpStream) -> Result<First> {
    let mut decoder = FirstDecoder::new(rt.alloc());
    let mut piece = [0; 4_096];
    for _ in 0..u64::MAX {
        let count = client.read(&mut piece)?;
        ensure!(count > 0, "the client has gone");
        decoder.push(&piece[..count])?;
        match decoder.next()? {
            Some(First::Ssl | First::Gss) => client.write_all(b"N")?,
            Some(packet) if decoder.kept() == 0 => return Ok(packet),
            Some(_) => bail!("the client doesn't wait for an answer"),
            None => {}
        }
    }
    bail!("the client begins nothing")
}

// Passes on what has come from one end, and prints the messages that are whole. The answer is whether that end is still there.
fn pass<R: Print, M: Message + fmt::Debug>(
    rt: &R,
    way: char,
    decoder: &mut Decoder<M>,
    from: &mut TcpStream,
    to: &mut TcpStream,
) -> Result<bool> {
    let mut piece = [0; 4_096];
    match from.read(&mut piece) {
        Ok(count) => {
            to.write_all(&piece[..count])?;
            decoder.push(&piece[..count])?;
            for _ in 0..u64::MAX {
                let Some(message) = decoder.next()? else {
                    break;
                };
                println!(rt; "{way} {message:?}")?;
            }
            Ok(count > 0)
        }
        Err(error) if error.kind() == ErrorKind::WouldBlock => Ok(true),
        Err(error) => Err(error.into()),
    }
}

// Hears each end in its turn, for a moment, until one has gone.
fn relay<R: Print + AllocGlobal>(
    rt: &R,
    client: &mut TcpStream,
    server: &mut TcpStream,
) -> Result<()> {
    let mut front = Decoder::<FrontMessage>::new(rt.alloc(), LONGEST);
    let mut back = Decoder::<BackMessage>::new(rt.alloc(), LONGEST);
    client.set_read_timeout(Some(Duration::from_millis(5)))?;
    server.set_read_timeout(Some(Duration::from_millis(5)))?;
    for _ in 0..u64::MAX {
        let is_there = pass(rt, '>', &mut front, client, server)?;
        if !is_there || !pass(rt, '<', &mut back, server, client)? {
            break;
        }
    }
    Ok(())
}

fn main(rt: HostRuntime) -> Result<()> {
    all_open(&rt.stdin(), &rt.stdout(), &rt.stderr())?;
    let address = env::args(&rt)?.nth(1).context("the word is an address")?;
    let listener = TcpListener::bind(&rt, ("127.0.0.1", 0))?;
    println!(rt; "port {}", listener.local_addr()?.port())?;
    let (mut client, _) = listener.accept()?;
    let mut server = TcpStream::connect(&rt, address.as_str())?;
    let packet = begin(&rt, &mut client)?;
    println!(rt; "> {packet:?}")?;
    let mut bytes = Vec::new(rt.alloc());
    pg_wire::frontend::encode_first(&packet, &mut bytes)?;
    server.write_all(bytes.as_slice())?;
    relay(&rt, &mut client, &mut server)
}
