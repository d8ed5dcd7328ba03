//! Where a client stands.

ghost use Rattle.std.specs.Prelude.{◌≡◌};
ghost use Rattle.pg_client.specs.View.{loss_at, stand_phase};
ghost use Rattle.pg_client.specs.Private.Calling.{with_answer, with_request};
ghost use Rattle.pg_client.specs.Private.Hearing.{led_to, tag_of_aside};
ghost use Rattle.pg_client.specs.Stand.{answer_after, fault_at, is_too_early, leads, may_end_at};
ghost use Rattle.pg_response.specs.Kind.{IsPart};

use crate::fault::FeedFault;
use crate::phase::Phase;
use crate::settled::Loss;
use crate::startup::Welcome;
use pg_response::{Mark, Open, Place};
use pg_wire::{Aside, BackMessage, Request};

/// What was called for the last copy from the client.
#[derive(Clone, Copy)]
pub enum CopyAnswer {
    Awaited,
    Done,
    Refused,
}

/// Where a client stands, in the segment that isn't whole or between two.
#[derive(Drop)]
pub enum Stand {
    New,
    Starting(Welcome),
    /// No request is outstanding.
    Idle,
    /// This request is outstanding.
    Busy {
        request: Request,
        place: Place,
        answer: CopyAnswer,
    },
}

impl Stand {
    /// The phase of a client that stands there and isn't closed.
    pub fn phase(&self) -> Phase
        ensures { result ≡ stand_phase self.now }
    {
        match self {
            Stand::New => Phase::New,
            Stand::Starting(_) => Phase::Starting,
            Stand::Idle => Phase::Ready,
            Stand::Busy { place, answer, .. } => match (place.opened, answer) {
                (Open::CopyIn, CopyAnswer::Awaited) => Phase::CopyingIn,
                _ => Phase::Busy,
            },
        }
    }

    /// Begins a request's segment.
    pub fn ask(&mut self, request: Request)
        ensures { self.new ≡ with_request self.old request }
    {
        if let Stand::Idle = self {
            *self = Stand::Busy {
                request,
                place: Place::start(),
                answer: CopyAnswer::Awaited,
            };
        }
    }

    /// Notes which call answered the open copy in.
    pub fn answer_copy(&mut self, said: CopyAnswer)
        ensures { self.new ≡ with_answer self.old said }
    {
        if let Stand::Busy { answer, .. } = self {
            *answer = said;
        }
    }

    /// Gives back what is lost with the connection.
    pub fn into_loss(self) -> Loss
        ensures { result ≡ loss_at self }
    {
        match self {
            Stand::Busy { request, place, .. } => Loss {
                unsettled: Some(request),
                seen_error: place.failed,
            },
            _ => Loss {
                unsettled: None,
                seen_error: false,
            },
        }
    }

    /// Where a message with this mark leads in the segment of a request; None where it may not come.
    pub fn read(&self, mark: Mark) -> Option<Place>
        ensures { result ≡ leads self.now mark }
    {
        match self {
            Stand::Busy {
                request,
                place,
                answer,
            } if !is_too_early(place.opened, *answer, mark) => place.read(request, mark),
            _ => None,
        }
    }

    /// Goes on to the place that a message with this mark leads to.
    pub fn lead(&mut self, next: Place, mark: Mark)
        ensures { self.new ≡ led_to self.old next mark }
    {
        if let Stand::Busy { place, answer, .. } = self {
            *place = next;
            if let Mark::CopyIn = mark {
                *answer = CopyAnswer::Awaited;
            }
        }
    }

    /// Whether ReadyForQuery may come.
    pub fn may_end(&self) -> bool
        ensures { result ≡ may_end_at self.now }
    {
        match self {
            Stand::Starting(welcome) => matches!(welcome, Welcome::Admitted),
            Stand::Busy { request, place, .. } => place.may_end(request),
            _ => false,
        }
    }

    /// The fault of a message of a response that may not come.
    pub fn refuse(&self, message: BackMessage) -> FeedFault
        requires { IsPart message }
        ensures { result ≡ fault_at self.now message }
    {
        match message {
            BackMessage::ErrorResponse(fields) => match self {
                Stand::Starting(_) => FeedFault::StartupError(fields),
                Stand::Idle => FeedFault::ServerEnd(fields),
                _ => FeedFault::Unexpected(b'E'),
            },
            other => {
                let tag = other.tag();
                drop(other);
                FeedFault::Unexpected(tag)
            }
        }
    }
}

// Whether a CommandComplete would end a copy from the client before its copy_done.
fn is_too_early(opened: Open, answer: CopyAnswer, mark: Mark) -> bool
    ensures { result ≡ is_too_early opened answer mark }
{
    match (opened, answer) {
        (Open::CopyIn, CopyAnswer::Done) => false,
        (Open::CopyIn, _) => matches!(mark, Mark::CommandComplete),
        _ => false,
    }
}

/// The tag of an aside's message.
pub fn aside_tag(aside: &Aside) -> u8
    ensures { result ≡ tag_of_aside aside.now }
{
    match aside {
        Aside::Notice(_) => b'N',
        Aside::Parameter { .. } => b'S',
        Aside::Notification { .. } => b'A',
    }
}
