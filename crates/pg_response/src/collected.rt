//! What was collected of a segment.

ghost use Rattle.std.specs.Prelude.{◌≡◌, OnErr, OnOk};
ghost use Rattle.pg_wire.specs.Segment.{asked};
ghost use Rattle.pg_wire.specs.declared.session.Aside.{Aside};
ghost use Rattle.pg_wire.specs.declared.session.Part.TheVariants.{Executed};
ghost use Rattle.pg_response.specs.Collected.{begins_rows, collected_with, CollectedView};
ghost use Rattle.pg_response.specs.Collected.{closed_by};
ghost use Rattle.pg_response.specs.Collected.{collect};
ghost use Rattle.pg_response.specs.Collected.{completed_by, described_by, emptied_by};
ghost use Rattle.pg_response.specs.Collected.{failed_with, nothing_collected, nothing_yet};
ghost use Rattle.pg_response.specs.Collected.{is_query, outcome_of, whole_part};

use crate::place::Open;
use pg_wire::{
    Aside, BackMessage, Column, CopyHead, ExecEnd, Fields, Outcome, Part, Request, Seq, Status,
    Values,
};
use std::alloc::{AllocError, Global};
use std::marker::Model;
use std::mem;

/// What has come of the result or answer that isn't whole. Which of it counts depends on what is unfinished.
#[derive(Drop)]
pub struct Unfinished {
    columns: Seq<Column>,
    /// The types of a statement's parameters.
    types: Seq<u32>,
    head: CopyHead,
    rows: Seq<Values>,
    chunks: Seq<Seq<u8>>,
}

impl Unfinished {
    // Nothing has come.
    fn new(alloc: Global) -> Unfinished
        ensures { result ≡ nothing_yet }
    {
        Unfinished {
            columns: Seq::new(Vec::new(alloc)),
            types: Seq::new(Vec::new(alloc)),
            head: CopyHead {
                binary: false,
                formats: Seq::new(Vec::new(alloc)),
            },
            rows: Seq::new(Vec::new(alloc)),
            chunks: Seq::new(Vec::new(alloc)),
        }
    }

    // The part that its last message ends; None if the message ends none.
    fn into_whole(self, request: &Request, opened: Open, last: BackMessage) -> Option<Part>
        ensures { result ≡ whole_part (asked request.now) opened self last }
    {
        match last {
            BackMessage::CommandComplete(tag) => Some(self.completed(request, opened, tag)),
            BackMessage::EmptyQuery => Some(self.emptied(request, opened)),
            BackMessage::PortalSuspended => Some(self.executed(ExecEnd::Suspended)),
            BackMessage::RowDescription(columns) => Some(self.described(opened, Some(columns))),
            BackMessage::NoData => Some(self.described(opened, None)),
            // an answer of one message, or a message that ends nothing
            other => {
                drop(self);
                match other {
                    BackMessage::ParseComplete => Some(Part::Parsed),
                    BackMessage::BindComplete => Some(Part::Bound),
                    BackMessage::CloseComplete => Some(Part::Shut),
                    none => {
                        drop(none);
                        None
                    }
                }
            }
        }
    }

    // The rows of a portal, with what ended them.
    fn executed(self, end: ExecEnd) -> Part
        ensures { result ≡ Executed self.rows end }
    {
        Part::Executed {
            rows: self.rows,
            end,
        }
    }

    // The part that ends with the tag of a complete command.
    fn completed(self, request: &Request, opened: Open, tag: Seq<u8>) -> Part
        ensures { result ≡ completed_by (asked request.now) opened self tag }
    {
        match opened {
            Open::Rows => Part::Rows {
                columns: self.columns,
                rows: self.rows,
                tag,
            },
            Open::CopyOutEnded => Part::CopyOut {
                head: self.head,
                chunks: self.chunks,
                tag,
            },
            Open::CopyIn => Part::CopyIn {
                head: self.head,
                tag,
            },
            Open::Nothing if is_query(request) => Part::Command(tag),
            _ => self.executed(ExecEnd::Complete(tag)),
        }
    }

    // The part that an empty query ends.
    fn emptied(self, request: &Request, opened: Open) -> Part
        ensures { result ≡ emptied_by (asked request.now) opened self }
    {
        match opened {
            Open::Nothing if is_query(request) => Part::Empty,
            _ => self.executed(ExecEnd::Empty),
        }
    }

    // What a Describe asked for.
    fn described(self, opened: Open, columns: Option<Seq<Column>>) -> Part
        ensures { result ≡ described_by opened self columns }
    {
        match opened {
            Open::Described => Part::Described {
                parameters: Some(self.types),
                columns,
            },
            _ => Part::Described {
                parameters: None,
                columns,
            },
        }
    }
}

/// What was collected of a segment.
#[derive(Drop)]
pub struct Collected {
    // The whole results or answers.
    parts: Vec<Part>,
    unfinished: Unfinished,
    // The first error.
    error: Option<Fields>,
    asides: Seq<Aside>,
}

impl Model for Collected {
    ghost use Rattle.pg_response.specs.Collected.{CollectedView};

    ghost Value = { CollectedView };

    ghost view = { λ c. record {
      parts = c.parts.items;
      unfinished = c.unfinished;
      error = c.error;
      asides = c.asides;
    } };
}

impl Collected {
    /// Nothing.
    pub fn new(alloc: Global) -> Collected
        ensures { result ≡ nothing_collected }
    {
        Collected {
            parts: Vec::new(alloc),
            unfinished: Unfinished::new(alloc),
            error: None,
            asides: Seq::new(Vec::new(alloc)),
        }
    }

    /// Adds an aside.
    pub fn add_aside(&mut self, aside: Aside) -> Result<(), AllocError>
        ensures ok { OnOk result (self.new ≡ collected_with self.old aside) }
        ensures err { OnErr result (self.new ≡ self.old) }
    {
        self.asides.push(aside)?;
        Ok(())
    }

    /// Takes the last aside away.
    pub fn drop_last_aside(&mut self, alloc: Global)
        ensures { (c : CollectedView) (a : Aside) → self.old ≡ collected_with c a → self.new ≡ c }
    {
        let mut asides = mem::replace(&mut self.asides, Seq::new(Vec::new(alloc))).into_vec();
        let _ = asides.pop();
        self.asides = Seq::new(asides);
    }

    // Adds an error, which cuts off what is unfinished. A later one is dropped.
    fn add_error(&mut self, alloc: Global, fields: Fields)
        ensures { self.new ≡ failed_with self.old self.old.error fields }
    {
        if self.error.is_none() {
            self.unfinished = Unfinished::new(alloc);
            self.error = Some(fields);
        }
    }

    /// Adds a message of a response, where this is unfinished and the message may come. Where memory runs out, nothing changes.
    pub fn add(
        &mut self,
        alloc: Global,
        request: &Request,
        opened: Open,
        message: BackMessage,
    ) -> Result<(), AllocError>
        ensures ok { OnOk result (self.new ≡ collect (asked request.now) opened self.old message) }
        ensures err { OnErr result (self.new ≡ self.old) }
    {
        match message {
            BackMessage::DataRow(row) => {
                self.unfinished.rows.push(row)?;
                Ok(())
            }
            BackMessage::CopyData(chunk) => {
                self.unfinished.chunks.push(chunk)?;
                Ok(())
            }
            BackMessage::CopyDone => Ok(()),
            BackMessage::CopyOut(head) | BackMessage::CopyIn(head) => {
                self.unfinished.head = head;
                Ok(())
            }
            BackMessage::ParameterDescription(types) => {
                self.unfinished.types = types;
                Ok(())
            }
            BackMessage::RowDescription(columns) if begins_rows(request, opened) => {
                self.unfinished.columns = columns;
                Ok(())
            }
            BackMessage::ErrorResponse(fields) => {
                self.add_error(alloc, fields);
                Ok(())
            }
            last => self.close(alloc, request, opened, last),
        }
    }

    // Adds the part that ends with this message.
    fn close(
        &mut self,
        alloc: Global,
        request: &Request,
        opened: Open,
        last: BackMessage,
    ) -> Result<(), AllocError>
        ensures ok { OnOk result (self.new ≡ closed_by (asked request.now) opened self.old last) }
        ensures err { OnErr result (self.new ≡ self.old) }
    {
        if self.parts.reserve(1).is_err() {
            drop(last);
            return Err(AllocError);
        }
        let unfinished = mem::replace(&mut self.unfinished, Unfinished::new(alloc));
        if let Some(part) = unfinished.into_whole(request, opened, last) {
            self.parts.push_reserved(part);
        }
        Ok(())
    }

    /// The outcome that a ReadyForQuery gives the request.
    pub fn into_outcome(self, status: Status) -> Outcome
        ensures { result ≡ outcome_of self status }
    {
        let Collected {
            parts,
            error,
            asides,
            ..
        } = self;
        Outcome {
            parts: Seq::new(parts),
            error,
            status,
            asides,
        }
    }
}

// Whether a RowDescription begins the rows of a result, and isn't what a Describe asked for.
fn begins_rows(request: &Request, opened: Open) -> bool
    ensures { result ≡ begins_rows (asked request.now) opened }
{
    match opened {
        Open::Nothing => is_query(request),
        _ => false,
    }
}

fn is_query(request: &Request) -> bool
    ensures { result ≡ is_query (asked request.now) }
{
    matches!(request, Request::Query(_))
}
