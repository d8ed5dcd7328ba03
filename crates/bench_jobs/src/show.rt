//! Streams of both directions that are shown.

use crate::digest::Digest;
use crate::fetch::answer;
use crate::orders::Order;
use anyhow::bail;
use pg_wire::backend::{notice_response, parameter_status};
use pg_wire::frontend::{bind, execute, startup, sync};
use pg_wire::{Fields, Over};
use pgpipe_show::show::{Shown, show};
use rand_xoshiro::Xoshiro256PlusPlus;
use std::alloc::Global;

/// How many answers stand in a stream of a server.
const ANSWERS: u32 = 64;

/// How many groups stand in a stream of a client.
const GROUPS: u32 = 8_192;

// What a server has sent.
fn of_server(
    alloc: Global,
    order: &mut Order,
    random: &mut Xoshiro256PlusPlus,
    buf: &mut Vec<u8>,
) -> anyhow::Result<()> {
    let fields = Fields::from_slice(
        alloc,
        &[
            (b'S', b"NOTICE"),
            (b'C', b"00000"),
            (b'M', b"the table is being vacuumed"),
        ],
    )?;
    parameter_status(b"server_version", b"15.9", buf)?;
    for _ in 0..ANSWERS {
        answer(alloc, order, random, buf)?;
        notice_response(&fields, buf)?;
    }
    Ok(())
}

// What a client has sent: rows that it inserts.
fn of_client(
    order: &mut Order,
    random: &mut Xoshiro256PlusPlus,
    buf: &mut Vec<u8>,
) -> anyhow::Result<()> {
    let pairs: [(&[u8], &[u8]); 1] = [(b"application_name", b"import")];
    startup(b"clerk", Some(b"shop"), pairs.as_slice(), buf)?;
    for _ in 0..GROUPS {
        let values = order.next(random);
        bind(b"", b"insert_order", &[0], values.as_slice(), &[0], buf)?;
        execute(b"", 0, buf)?;
        sync(buf)?;
    }
    Ok(())
}

// Shows a stream.
fn put_shown(alloc: Global, front: bool, stream: &[u8], digest: &mut Digest) -> anyhow::Result<()> {
    let mut source = Over::new(stream);
    let mut sink = Over::new(Vec::new(alloc));
    match show(alloc, front, &mut source, &mut sink) {
        Ok(Shown::Whole) => digest.put_bytes(sink.into_inner().as_slice()),
        _ => bail!("a stream isn't shown"),
    }
    Ok(())
}

/// So many streams of each direction are shown.
pub fn show_streams(
    alloc: Global,
    mut random: Xoshiro256PlusPlus,
    streams: u32,
) -> anyhow::Result<u64> {
    let mut digest = Digest::new();
    let mut order = Order::new();
    let mut stream = Vec::new(alloc);
    for _ in 0..streams {
        stream.clear();
        of_server(alloc, &mut order, &mut random, &mut stream)?;
        put_shown(alloc, false, stream.as_slice(), &mut digest)?;
        stream.clear();
        of_client(&mut order, &mut random, &mut stream)?;
        put_shown(alloc, true, stream.as_slice(), &mut digest)?;
    }
    Ok(digest.finish())
}
