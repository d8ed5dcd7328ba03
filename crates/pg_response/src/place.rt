//! Where one is in the segment of a request: all that decides what may come.

ghost use Rattle.std.specs.Prelude.{◌≡◌};
ghost use Rattle.pg_wire.specs.Segment.{asked};
ghost use Rattle.pg_response.specs.Place.{all_answered, begins, begins_answer, begins_result};
ghost use Rattle.pg_response.specs.Place.{follows, goes, led_to, may_end, next_open, one_more};
ghost use Rattle.pg_response.specs.Place.{start, still_asked};

use crate::mark::Mark;
use pg_wire::{Request, Step, Target};

/// What is unfinished: the first messages of a result or of an answer came, and its last didn't.
#[derive(Clone, Copy)]
pub enum Open {
    Nothing,
    /// The columns of a result came, and perhaps rows.
    Rows,
    /// The head of a copy to the client came, and perhaps chunks.
    CopyOut,
    /// The data of a copy to the client is complete.
    CopyOutEnded,
    /// The head of a copy from the client came.
    CopyIn,
    /// The parameters of a statement came, and its columns are to come.
    Described,
    /// Rows of a portal came.
    Executed,
}

/// Where one is in a segment.
#[derive(Clone, Copy)]
pub struct Place {
    /// How many steps of a group are answered. The results of a query aren't counted: any number may come.
    pub answers: usize,
    /// What is unfinished.
    pub opened: Open,
    /// Whether an error came.
    pub failed: bool,
}

impl Place {
    /// The place before the first message.
    pub fn start() -> Place
        ensures { result ≡ start }
    {
        Place {
            answers: 0,
            opened: Open::Nothing,
            failed: false,
        }
    }

    /// The place that a message with this mark leads to, which is neither an aside nor a ReadyForQuery; None where it may not come.
    pub fn read(&self, request: &Request, mark: Mark) -> Option<Place>
        ensures { result ≡ goes (asked request.now) self.now mark }
    {
        if let Mark::Error = mark {
            return Some(Place {
                opened: Open::Nothing,
                failed: true,
                ..*self
            });
        }
        if self.failed {
            return None;
        }
        match self.next_open(request, mark) {
            Some(opened) => Some(self.moved_to(request, opened)),
            None => None,
        }
    }

    /// Whether ReadyForQuery may come: all that was asked is answered, or an error came.
    pub fn may_end(&self, request: &Request) -> bool
        ensures { result ≡ may_end (asked request.now) self.now }
    {
        if self.failed {
            return true;
        }
        match self.opened {
            Open::Nothing => self.has_all(request),
            _ => false,
        }
    }

    // Whether all that was asked is answered.
    fn has_all(&self, request: &Request) -> bool
        ensures { result ≡ all_answered (asked request.now) self.now.answers }
    {
        match request {
            Request::Query(_) => true,
            Request::Group(steps) => steps.len() <= self.answers,
        }
    }

    // What is unfinished once the message has come.
    fn next_open(&self, request: &Request, mark: Mark) -> Option<Open>
        ensures { result ≡ next_open (asked request.now) self.now.answers self.now.opened mark }
    {
        match self.opened {
            Open::Nothing => self.begin(request, mark),
            opened => follow(opened, mark),
        }
    }

    // The first message of the next result, or of the answer to the next step.
    #[tactic(auto, using(crate::proofs::Steps::begins_step, crate::proofs::Steps::begins_none))]
    fn begin(&self, request: &Request, mark: Mark) -> Option<Open>
        ensures { result ≡ begins (still_asked (asked request.now) self.now.answers) mark }
    {
        match request {
            Request::Query(_) => begin_result(mark),
            Request::Group(steps) => match steps.get(self.answers) {
                Some(step) => begin_answer(step, mark),
                None => None,
            },
        }
    }

    // The place where this is unfinished now. Where nothing is, one more is answered.
    fn moved_to(&self, request: &Request, opened: Open) -> Place
        ensures { result ≡ led_to (asked request.now) self.now opened }
    {
        match opened {
            Open::Nothing => Place {
                answers: self.with_one_more(request),
                opened,
                ..*self
            },
            _ => Place { opened, ..*self },
        }
    }

    // How many steps are answered once one more is.
    fn with_one_more(&self, request: &Request) -> usize
        ensures { result ≡ one_more (asked request.now) self.now.answers }
    {
        match request {
            Request::Group(steps) if self.answers < steps.len() => self.answers + 1,
            _ => self.answers,
        }
    }
}

// The first message of a query's result.
fn begin_result(mark: Mark) -> Option<Open>
    ensures { result ≡ begins_result mark }
{
    match mark {
        Mark::RowDescription => Some(Open::Rows),
        Mark::CommandComplete | Mark::EmptyQuery => Some(Open::Nothing),
        Mark::CopyOut => Some(Open::CopyOut),
        Mark::CopyIn => Some(Open::CopyIn),
        _ => None,
    }
}

// The first message of the answer to a step.
fn begin_answer(step: &Step, mark: Mark) -> Option<Open>
    ensures { result ≡ begins_answer step.now mark }
{
    match (step, mark) {
        (Step::Parse { .. }, Mark::ParseComplete) => Some(Open::Nothing),
        (Step::Bind { .. }, Mark::BindComplete) => Some(Open::Nothing),
        (Step::Close { .. }, Mark::CloseComplete) => Some(Open::Nothing),
        (
            Step::Describe {
                target: Target::Statement,
                ..
            },
            Mark::ParameterDescription,
        ) => Some(Open::Described),
        (
            Step::Describe {
                target: Target::Portal,
                ..
            },
            mark,
        ) => follow(Open::Described, mark),
        (Step::Execute { .. }, mark) => follow(Open::Executed, mark),
        _ => None,
    }
}

// One more message of what is unfinished.
fn follow(opened: Open, mark: Mark) -> Option<Open>
    ensures { result ≡ follows opened mark }
{
    match (opened, mark) {
        (Open::Rows, Mark::DataRow) => Some(Open::Rows),
        (Open::CopyOut, Mark::CopyData) => Some(Open::CopyOut),
        (Open::CopyOut, Mark::CopyDone) => Some(Open::CopyOutEnded),
        (Open::Executed, Mark::DataRow) => Some(Open::Executed),
        (Open::Executed, Mark::EmptyQuery | Mark::PortalSuspended) => Some(Open::Nothing),
        (Open::Described, Mark::RowDescription | Mark::NoData) => Some(Open::Nothing),
        (Open::Rows | Open::CopyOutEnded | Open::CopyIn | Open::Executed, Mark::CommandComplete) =>
            Some(Open::Nothing),
        _ => None,
    }
}
