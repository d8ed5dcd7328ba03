//! Laws of the definitions: each function does nothing, and its contract is the law.

ghost use Rattle.std.specs.Prelude.{ℕ, Result};
ghost use Rattle.pg_backend.specs.Laws.{VerdictStands, ReplyStands, ReplyGrows, AnswerFits};
ghost use Rattle.pg_backend.specs.Laws.{ReplyFits, ReplyBegins, RepliesGrow, SessionLogGrows};
ghost use Rattle.pg_backend.specs.Laws.{SegmentsFitLog, OneCopyEach, WelcomeIsSegment, TurnsRead};
ghost use Rattle.pg_backend.specs.Laws.{TurnsEnd, TurnsLogged, TurnsLoaded, TurnsGoOn, TurnsLeft};
ghost use Rattle.pg_backend.specs.Laws.{TranscriptGrows, LogGrows};
ghost use Rattle.pg_backend.specs.History.{History, IsHistoryOf};
ghost use Rattle.pg_backend.specs.Lists.{IsPrefix};
ghost use Rattle.pg_backend.specs.OverLink.{Answers, Connection};
ghost use Rattle.pg_backend.specs.Carried.{IsCarriedOn, all_received, all_replied};
ghost use Rattle.pg_backend.specs.declared.answered.AnswerFault.{AnswerFault};
ghost use Rattle.pg_backend.specs.declared.answered.Answered.{Answered};

use pg_wire::{Sink, Source};

/// A verdict is final: no message after those that decided a request changes it.
pub fn verdict_stands()
    ensures { VerdictStands }
{}

/// Once a request is decided, no further message changes the reply to it.
pub fn reply_stands()
    ensures { ReplyStands }
{}

/// More messages after a request only append to the reply.
pub fn reply_grows()
    ensures { ReplyGrows }
{}

/// Each request gets an answer that fits it.
pub fn answer_fits()
    ensures { AnswerFits }
{}

/// The reply to a decided request is a whole segment, which fits the request with the verdict's outcome.
pub fn reply_fits()
    ensures { ReplyFits }
{}

/// What is sent for an undecided request is the beginning of a segment that fits it.
pub fn reply_begins()
    ensures { ReplyBegins }
{}

/// More messages only append to what is sent in a session.
pub fn replies_grow()
    ensures { RepliesGrow }
{}

/// More messages only append to the log of a session.
pub fn session_log_grows()
    ensures { SessionLogGrows }
{}

/// The whole segments of what is sent in a session fit the entries of its log, one each.
pub fn segments_fit_log()
    ensures { SegmentsFitLog }
{}

/// Where each answer has at most one copy from the client, so has each segment of what is sent in a session.
pub fn one_copy_each()
    ensures { OneCopyEach }
{}

/// What a client that is let in is sent up to its first ReadyForQuery is one segment, with the question for its password, if there is one.
pub fn welcome_is_segment()
    ensures { WelcomeIsSegment }
{}

/// In the session of a client that takes turns, each request is decided by its own copy messages.
pub fn turns_read()
    ensures { TurnsRead }
{}

/// A Terminate after the last turn ends the session, and changes no exchange.
pub fn turns_end()
    ensures { TurnsEnd }
{}

/// The log of a client that takes turns has the first of its requests, in order.
pub fn turns_logged()
    ensures { TurnsLogged }
{}

/// For each request of the log, the chunks that were taken are the first that a client that takes turns handed over for it.
pub fn turns_loaded()
    ensures { TurnsLoaded }
{}

/// A client that takes turns may make its next request once all that it made are decided.
pub fn turns_go_on()
    ensures { TurnsGoOn }
{}

/// Once all requests of a client that takes turns are decided, the session is between requests, and only copy messages are left to handle.
pub fn turns_left()
    ensures { TurnsLeft }
{}

/// A longer input only appends to what a backend sends.
pub fn transcript_grows()
    ensures { TranscriptGrows }
{}

/// A longer input only appends to a backend's log.
pub fn log_grows()
    ensures { LogGrows }
{}

/// Each history of a backend goes on as it answers. What was received is pushed, but for a piece that it rejected. What it put out is what was sent,
/// but for the end of it where the link failed.
pub fn answering_goes_on<L: Source + Sink>()
    ensures { (turns : ℕ) (old : Connection L) (result : Result Answered AnswerFault)
        (new : Connection L) (h : History) → IsHistoryOf h old.backend
        → (did : Answers L.gives L.takes L.has_ended L.Source.failures L.Sink.failures turns old
        result new)
        → IsCarriedOn h
        (all_received L.gives L.takes L.has_ended L.Source.failures L.Sink.failures turns old result
        new did)
        (all_replied L.gives L.takes L.has_ended L.Source.failures L.Sink.failures turns old result
        new did) new.backend }
{}

/// A request that is decided stays in the log.
pub fn log_only_grows<L: Source + Sink>()
    ensures { (turns : ℕ) (old : Connection L) (result : Result Answered AnswerFault)
        (new : Connection L)
        → Answers L.gives L.takes L.has_ended L.Source.failures L.Sink.failures turns old result new
        → IsPrefix old.backend.log new.backend.log }
{}
