//! How many frames were counted under each label.

ghost use Rattle.std.specs.Prelude.{◌≡◌, OnOk, OnErr};
ghost use Rattle.pgpipe_show.specs.Counts.{counted, counted_at, none_counted, with_frame};
ghost use Rattle.pgpipe_show.specs.Counts.{with_row};
ghost use Rattle.pgpipe_show.specs.Private.CountMap.{rows_of};
ghost use Rattle.pgpipe_show.specs.Summary.{empty};

use std::alloc::{AllocError, Global};
use std::collections::BTreeMap;
use std::marker::Model;

/// How many frames there are, and how many bytes they have together. Neither number goes beyond 18,446,744,073,709,551,615.
#[derive(Clone, Copy)]
pub struct FrameCount {
    pub count: u64,
    pub bytes: u64,
}

// The counts of no frame.
fn none_counted() -> FrameCount
    ensures { result ≡ none_counted }
{
    FrameCount { count: 0, bytes: 0 }
}

// The counts with one more frame, of so many bytes.
fn with_frame(size: usize, counted: FrameCount) -> FrameCount
    ensures { result ≡ with_frame size counted }
{
    FrameCount {
        count: counted.count.saturating_add(1),
        bytes: counted.bytes.saturating_add(size as u64),
    }
}

// What was counted under a label.
fn counted_at(rows: &BTreeMap<Vec<u8>, FrameCount>, label: &[u8]) -> FrameCount
    ensures { result ≡ counted_at label.now (rows_of rows.now.entries) }
{
    match rows.get(label) {
        Some(counted) => *counted,
        None => none_counted(),
    }
}

// Replaces what was counted under a label.
fn put_row(
    alloc: Global,
    label: &[u8],
    counted: FrameCount,
    rows: &mut BTreeMap<Vec<u8>, FrameCount>,
) -> Result<(), AllocError>
    ensures ok { OnOk result (rows_of rows.new.entries
        ≡ with_row label.now counted (rows_of rows.old.entries)) }
    ensures err { OnErr result (rows.new.entries ≡ rows.old.entries) }
{
    let name = Vec::from_slice(alloc, label)?;
    drop(rows.insert(name, counted)?);
    Ok(())
}

/// What was counted of a stream: under each label, and of all frames together. A clause sees the rows in the order of the bytes of their labels.
#[derive(Drop)]
pub struct Summary {
    rows: BTreeMap<Vec<u8>, FrameCount>,
    total: FrameCount,
}

impl Model for Summary {
    ghost use Rattle.pgpipe_show.specs.Counts.{SummaryState};
    ghost use Rattle.pgpipe_show.specs.Private.CountMap.{rows_of};

    ghost Value = { SummaryState };

    ghost view = { λ s. record { rows = rows_of s.rows.entries; total = s.total } };
}

impl Summary {
    /// A summary in which nothing was counted. It takes no memory.
    pub fn new(alloc: Global) -> Summary
        ensures { result ≡ empty }
    {
        Summary {
            rows: BTreeMap::new(alloc),
            total: none_counted(),
        }
    }

    /// Counts one more frame under a label. Where memory runs out, nothing is counted.
    pub fn add(&mut self, alloc: Global, label: &[u8], size: usize) -> Result<(), AllocError>
        ensures ok { OnOk result (self.new ≡ counted label.now size self.old) }
        ensures err { OnErr result (self.new ≡ self.old) }
    {
        let counted = with_frame(size, counted_at(&self.rows, label));
        put_row(alloc, label, counted, &mut self.rows)?;
        self.total = with_frame(size, self.total);
        Ok(())
    }

    /// The rows by their labels.
    pub fn rows(&self) -> &BTreeMap<Vec<u8>, FrameCount>
        ensures { rows_of result.now.entries ≡ self.now.rows }
    {
        &self.rows
    }

    /// All frames together.
    pub fn total(&self) -> FrameCount
        ensures { result ≡ self.now.total }
    {
        self.total
    }
}
