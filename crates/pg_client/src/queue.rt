//! Giving what comes as it comes.

ghost use Rattle.std.specs.Prelude.{◌≡◌, ◌≢◌, ◌∷◌, ◌++◌, ◌↔◌, [], IfNone, IfSome, IsTrue};
ghost use Rattle.std.specs.Prelude.{OnErr, OnOk};
ghost use Rattle.pg_client.specs.Private.Hearing.{aside_message};

use crate::item::Item;
use crate::keeper::Keeper;
use crate::parameters::Parameters;
use pg_response::Place;
use pg_wire::{Aside, BackMessage, Request, Seq, Status};
use std::alloc::{AllocError, Global};
use std::collections::VecDeque;
use std::marker::Model;

/// The items that weren't taken, one for each message.
#[derive(Drop)]
pub struct Queue {
    items: VecDeque<Item>,
}

impl Model for Queue {
    ghost use Rattle.std.specs.Prelude.{List};
    ghost use Rattle.pg_client.specs.declared.item.Item.{Item};

    ghost Value = { List Item };

    ghost view = { λ q. q.items.items };
}

impl Queue {
    /// Takes the oldest item.
    pub fn take(&mut self) -> Option<Item>
        ensures some { IfSome result (λ t. self.old ≡ t ∷ self.new) }
        ensures none { IfNone result ((self.old ≡ []) × (self.new ≡ [])) }
    {
        self.items.pop_front()
    }

    fn push(&mut self, item: Item) -> Result<(), AllocError>
        ensures ok { OnOk result (self.new ≡ self.old ++ item ∷ []) }
        ensures err { OnErr result (self.new ≡ self.old) }
    {
        self.items.push_back(item)?;
        Ok(())
    }

    /// Whether an item waits to be taken.
    pub fn has_some(&self) -> bool
        ensures { IsTrue result ↔ (self.now ≢ []) }
    {
        !self.items.is_empty()
    }
}

impl Keeper for Queue {
    ghost use Rattle.pg_client.specs.Keeping.{queueing};

    ghost way = { queueing };

    fn new(alloc: Global) -> Queue {
        Queue {
            items: VecDeque::new(alloc),
        }
    }

    fn keep_aside(&mut self, aside: Aside) -> Result<(), AllocError> {
        self.push(Item::Early(aside_message(aside)))
    }

    // Room for the item is made before the value is kept.
    fn keep_parameter(
        &mut self,
        _alloc: Global,
        name: Seq<u8>,
        value: Seq<u8>,
        parameters: &mut Parameters,
    ) -> Result<(), AllocError> {
        self.items.reserve(1)?;
        let kept_name = name.clone()?;
        let kept_value = value.clone()?;
        parameters.set(name.into_vec(), value)?;
        let message = BackMessage::ParameterStatus {
            name: kept_name,
            value: kept_value,
        };
        self.items.push_back_reserved(Item::Early(message));
        Ok(())
    }

    fn keep(
        &mut self,
        _alloc: Global,
        _request: &Request,
        _place: &Place,
        message: BackMessage,
    ) -> Result<(), AllocError> {
        self.push(Item::Early(message))
    }

    fn settle(&mut self, _alloc: Global, request: Request, status: Status) -> Result<(), Request> {
        if self.items.reserve(1).is_err() {
            return Err(request);
        }
        self.items
            .push_back_reserved(Item::Settled { request, status });
        Ok(())
    }

    fn silent() {}
}

// The message that is this aside.
fn aside_message(aside: Aside) -> BackMessage
    ensures { result ≡ aside_message aside }
{
    match aside {
        Aside::Notice(fields) => BackMessage::NoticeResponse(fields),
        Aside::Parameter { name, value } => BackMessage::ParameterStatus { name, value },
        Aside::Notification {
            process,
            channel,
            payload,
        } => BackMessage::Notification {
            process,
            channel,
            payload,
        },
    }
}
