//! A client and the scripted backend that it is connected to.

ghost use Rattle.std.specs.Prelude.{IfOk};
ghost use Rattle.pg_backend.specs.Check.{IsChecked};

use crate::fetch::settings;
use anyhow::bail;
use pg_backend::{Answer, Auth, Backend, Script};
use pg_client::{Client, Settled};
use pg_wire::{LONGEST, Request, Seq};
use rand_xoshiro::Xoshiro256PlusPlus;
use rand_xoshiro::rand_core::Rng;
use std::alloc::Global;

/// A client, a backend, and what each has put out for the other.
#[derive(Drop)]
pub struct BothEnds {
    client: Client,
    backend: Backend,
    to_backend: Vec<u8>,
    to_client: Vec<u8>,
}

/// A script of these answers, which wants no password.
pub fn checked(alloc: Global, answers: Vec<Answer>) -> anyhow::Result<Script>
    ensures { IfOk result (λ script. IsChecked script) }
{
    let script = Script {
        auth: Auth::Trust,
        pairs: Seq::new(Vec::new(alloc)),
        key: None,
        answers: Seq::new(answers),
    };
    script.check(alloc)?;
    Ok(script)
}

// Handles all that waits.
fn step_all(backend: &mut Backend, out: &mut Vec<u8>) -> anyhow::Result<()> {
    for _ in 0..u64::MAX {
        if !backend.step(out)? {
            break;
        }
    }
    Ok(())
}

// How many bytes arrive next, where few do and more wait: 1 to 32.
fn few(random: &mut Xoshiro256PlusPlus) -> usize {
    (random.next_u64() >> 59) as usize + 1
}

// Gives bytes to a backend, a few at a time.
fn trickle_to_backend(
    backend: &mut Backend,
    bytes: &[u8],
    out: &mut Vec<u8>,
    random: &mut Xoshiro256PlusPlus,
) -> anyhow::Result<()> {
    let mut rest = bytes;
    for _ in 0..bytes.len() {
        if rest.is_empty() {
            break;
        }
        let (piece, more) = rest.split_at(few(random).min(rest.len()));
        backend.push(piece)?;
        step_all(backend, out)?;
        rest = more;
    }
    Ok(())
}

// Gives bytes to a client, a few at a time.
fn trickle_to_client(
    client: &mut Client,
    bytes: &[u8],
    out: &mut Vec<u8>,
    random: &mut Xoshiro256PlusPlus,
) -> anyhow::Result<()> {
    let mut rest = bytes;
    for _ in 0..bytes.len() {
        if rest.is_empty() {
            break;
        }
        let (piece, more) = rest.split_at(few(random).min(rest.len()));
        client.feed(piece, out)?;
        rest = more;
    }
    Ok(())
}

impl BothEnds {
    /// A session that hasn't begun.
    pub fn new(alloc: Global, script: Script) -> anyhow::Result<BothEnds>
        requires { IsChecked script }
    {
        let settings = settings(alloc)?;
        Ok(BothEnds {
            client: Client::new(alloc, settings),
            backend: Backend::new(alloc, script, LONGEST),
            to_backend: Vec::new(alloc),
            to_client: Vec::new(alloc),
        })
    }

    /// What each end has put out goes to the other, all at once.
    pub fn exchange(&mut self) -> anyhow::Result<()> {
        self.backend.push(self.to_backend.as_slice())?;
        self.to_backend.clear();
        step_all(&mut self.backend, &mut self.to_client)?;
        self.client
            .feed(self.to_client.as_slice(), &mut self.to_backend)?;
        self.to_client.clear();
        Ok(())
    }

    /// What each end has put out goes to the other, a few bytes at a time.
    pub fn trickle(&mut self, random: &mut Xoshiro256PlusPlus) -> anyhow::Result<()> {
        trickle_to_backend(
            &mut self.backend,
            self.to_backend.as_slice(),
            &mut self.to_client,
            random,
        )?;
        self.to_backend.clear();
        trickle_to_client(
            &mut self.client,
            self.to_client.as_slice(),
            &mut self.to_backend,
            random,
        )?;
        self.to_client.clear();
        Ok(())
    }

    /// Begins the session.
    pub fn start(&mut self) -> anyhow::Result<()> {
        self.client.start(&mut self.to_backend)?;
        self.exchange()
    }

    /// Makes a request.
    pub fn ask(&mut self, request: Request) -> anyhow::Result<()> {
        if self.client.request(request, &mut self.to_backend).is_err() {
            bail!("the request is refused");
        }
        Ok(())
    }

    /// Copies a text, handed over in chunks of so many bytes.
    pub fn copy(&mut self, text: &[u8], size: usize) -> anyhow::Result<()> {
        for chunk in text.chunks(size.max(1)) {
            self.client.copy_chunk(chunk, &mut self.to_backend)?;
            self.exchange()?;
        }
        self.client.copy_done(&mut self.to_backend)?;
        self.exchange()
    }

    /// The group that was settled.
    pub fn settled(&mut self) -> anyhow::Result<Settled> {
        match self.client.take_settled() {
            Some(settled) => Ok(settled),
            None => bail!("no group is settled"),
        }
    }

    /// The backend.
    pub fn backend(&self) -> &Backend {
        &self.backend
    }
}
