//! Why a line is rejected.

use crate::kind::FieldKind;
use thiserror::Error;

/// Why the line in a row of SCRIPT or CALLS is rejected. Fields are counted from 1, without the verb.
#[derive(Clone, Copy, Debug, Error)]
pub enum LineReason {
    /// It isn't a line of the text format, or its verb is null.
    #[error("it is no line of fields: lines end in one way in the whole file, an escape has a byte after its backslash, and the verb isn't null")]
    NoLine,
    /// Its first field is no verb, and has a space.
    #[error("no line begins with this word: fields are parted by a tab, not by a space")]
    Space,
    /// Its first field is no verb.
    #[error("no line begins with this word")]
    NoVerb,
    /// Its first field is a verb of SCRIPT.
    #[error("this is a line of SCRIPT, not of CALLS")]
    OfScript,
    /// Its first field is a verb of CALLS.
    #[error("this is a line of CALLS, not of SCRIPT")]
    OfCalls,
    /// It has fewer fields than this.
    #[error("the line has too few fields: after its verb come at least {0}")]
    TooFew(usize),
    /// It has more fields than this.
    #[error("the line has too many fields: after its verb come {0}")]
    TooMany(usize),
    /// This field is null.
    #[error("field {0} is null, as only values of `row` and `bind` may be")]
    Null(usize),
    /// This field isn't of this kind.
    #[error("field {0} {1}")]
    Not(usize, FieldKind),
    /// This field is a code, and no value comes after it.
    #[error("field {0} is a code that has no value after it")]
    NoValue(usize),
    /// It has to stand after an `answer`.
    #[error("it stands before the first `answer`")]
    BeforeAnswer,
    /// It has to stand before the answers.
    #[error("it stands after an `answer`, and belongs before all of them")]
    AfterAnswer,
    /// It may stand once.
    #[error("a line with this verb stands before it, and one is the most")]
    Second,
    /// It has to stand in rows.
    #[error("no `rows` or `executed` is the last part before it")]
    NoRows,
    /// It has to stand in a copy.
    #[error("no `copyout` is the last part before it")]
    NoCopyOut,
    /// It stands where a `described` has to.
    #[error("a `described` has to stand here, since a `paramtypes` stands before it")]
    NoDescribed,
    /// It is a `paramtypes` with no `described` after it.
    #[error("no `described` comes after it")]
    LastTypes,
    /// It has to stand before `start`.
    #[error("it stands after `start`, and belongs before it")]
    AfterStart,
    /// It is no step, and stands in a group.
    #[error("it stands in a group, where steps stand and `sync` comes last")]
    InGroup,
    /// It has to stand in a group.
    #[error("it stands in no group: `group` comes before the steps")]
    NoGroup,
    /// It begins a group that isn't ended.
    #[error("the group that it begins isn't ended by `sync`")]
    OpenGroup,
}
