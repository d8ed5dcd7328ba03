//! What a message changes of a client.

ghost use Rattle.std.specs.Prelude.{◌≡◌, ◌≢◌, [], false, None, Some};
ghost use Rattle.pg_wire.specs.Segment.{aside_of};
ghost use Rattle.pg_wire.specs.message.BackMessage.{BackMessage};
ghost use Rattle.pg_wire.specs.message.BackMessage.TheVariants.{DataRow, KeyData};
ghost use Rattle.pg_wire.specs.message.BackMessage.TheVariants.{ParameterStatus, Ready};
ghost use Rattle.pg_response.specs.Kind.{auth_message, IsPart, is_parameter_status};
ghost use Rattle.pg_client.specs.declared.stand.Stand.TheVariants.{New};
ghost use Rattle.pg_client.specs.Private.Hearing.{HearsMessage, HearsAlone, IsFirst, PassesRow};

use crate::fault::FeedFault;
use crate::keeper::Keeper;
use crate::parameters::Parameters;
use crate::sending::put_answer;
use crate::settings::Settings;
use crate::stand::{Stand, aside_tag};
use crate::startup::Welcome;
use pg_response::{Auth, Kind, Mark};
use pg_wire::{Aside, BackMessage, Seq, Status};
use std::alloc::Global;
use std::mem;

/// What a client knows: all that a message changes of it.
#[derive(Drop)]
pub struct Known<K: Keeper> {
    pub(crate) stand: Stand,
    pub(crate) keeper: K,
    pub(crate) status: Option<Status>,
    pub(crate) parameters: Parameters,
    pub(crate) key: Option<(i32, i32)>,
}

impl<K: Keeper> Known<K> {
    /// What a client knows that was not started.
    pub fn new(alloc: Global) -> Self
        ensures { IsFirst K.way result }
    {
        Known {
            stand: Stand::New,
            keeper: K::new(alloc),
            status: None,
            parameters: Parameters::new(alloc),
            key: None,
        }
    }

    /// Takes a message in, and puts out what it makes the client send. After a fault it is as it was.
    pub fn hear(
        &mut self,
        alloc: Global,
        settings: &Settings,
        message: BackMessage,
        out: &mut Vec<u8>,
    ) -> Result<(), FeedFault>
        ensures { HearsMessage K.way settings.now message self.old result self.new out.old.items
            out.new.items }
    {
        match Kind::of(message) {
            Kind::Aside(aside) => self.hear_aside(aside),
            Kind::Parameter { name, value } => self.hear_parameter(alloc, name, value),
            Kind::Ready(status) => self.hear_ready(alloc, status),
            Kind::Key { process, secret } => self.hear_key(process, secret),
            Kind::Auth(auth) => self.hear_auth(settings, auth, out),
            Kind::Part(message) => self.hear_part(alloc, message),
        }
    }

    // An aside that is no parameter's value.
    fn hear_aside(&mut self, aside: Aside) -> Result<(), FeedFault>
        ensures { (m : BackMessage) → aside_of m ≡ Some aside → is_parameter_status m ≡ false
            → HearsAlone K.way m self.old result self.new }
    {
        K::silent();
        match self.stand {
            Stand::New => return Err(FeedFault::Unexpected(aside_tag(&aside))),
            Stand::Starting(_) => {}
            Stand::Idle | Stand::Busy { .. } => self.keeper.keep_aside(aside)?,
        }
        Ok(())
    }

    fn hear_parameter(
        &mut self,
        alloc: Global,
        name: Seq<u8>,
        value: Seq<u8>,
    ) -> Result<(), FeedFault>
        ensures { HearsAlone K.way (ParameterStatus name value) self.old result self.new }
    {
        K::silent();
        match self.stand {
            Stand::New => return Err(FeedFault::Unexpected(b'S')),
            Stand::Starting(_) => self.parameters.set(name.into_vec(), value)?,
            Stand::Idle | Stand::Busy { .. } => {
                self.keeper
                    .keep_parameter(alloc, name, value, &mut self.parameters)?
            }
        }
        Ok(())
    }

    // It ends the startup, or settles a request.
    fn hear_ready(&mut self, alloc: Global, status: Status) -> Result<(), FeedFault>
        ensures { HearsAlone K.way (Ready status) self.old result self.new }
    {
        K::silent();
        if !self.stand.may_end() {
            return Err(FeedFault::Unexpected(b'Z'));
        }
        if let Stand::Busy {
            request,
            place,
            answer,
        } = mem::replace(&mut self.stand, Stand::Idle)
        {
            if let Err(request) = self.keeper.settle(alloc, request, status) {
                self.stand = Stand::Busy {
                    request,
                    place,
                    answer,
                };
                return Err(FeedFault::Memory);
            }
        }
        self.status = Some(status);
        Ok(())
    }

    // It may come once the startup has let the client in, and before its ReadyForQuery.
    fn hear_key(&mut self, process: i32, secret: i32) -> Result<(), FeedFault>
        ensures { HearsAlone K.way (KeyData process secret) self.old result self.new }
    {
        K::silent();
        match self.stand {
            Stand::Starting(Welcome::Admitted) => {
                self.key = Some((process, secret));
                Ok(())
            }
            _ => Err(FeedFault::Unexpected(b'K')),
        }
    }

    // A message of the authentication, which belongs to the startup alone. A question is answered first.
    fn hear_auth(
        &mut self,
        settings: &Settings,
        auth: Auth,
        out: &mut Vec<u8>,
    ) -> Result<(), FeedFault>
        ensures { HearsMessage K.way settings.now (auth_message auth) self.old result self.new
            out.old.items out.new.items }
    {
        K::silent();
        let Stand::Starting(welcome) = self.stand else {
            return Err(FeedFault::Unexpected(b'R'));
        };
        let next = welcome.next(&auth)?;
        put_answer(settings, &auth, out)?;
        self.stand = Stand::Starting(next);
        Ok(())
    }

    /// A message of a response to a request. What it is decides where it leads, before it is kept.
    pub fn hear_part(&mut self, alloc: Global, message: BackMessage) -> Result<(), FeedFault>
        requires { IsPart message }
        ensures { HearsAlone K.way message self.old result self.new }
    {
        let mark = Mark::of(&message);
        let Some(next) = self.stand.read(mark) else {
            return Err(self.stand.refuse(message));
        };
        let Stand::Busy { request, place, .. } = &self.stand else {
            // nothing leads on elsewhere
            return Err(self.stand.refuse(message));
        };
        self.keeper.keep(alloc, request, place, message)?;
        self.stand.lead(next, mark);
        Ok(())
    }

    /// A row that isn't kept.
    pub fn pass_row(&mut self) -> Result<(), FeedFault>
        ensures { PassesRow self.old result self.new }
    {
        let Some(next) = self.stand.read(Mark::DataRow) else {
            return Err(FeedFault::Unexpected(b'D'));
        };
        self.stand.lead(next, Mark::DataRow);
        Ok(())
    }
}
