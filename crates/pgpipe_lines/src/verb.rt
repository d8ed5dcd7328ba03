//! The verbs of the lines of SCRIPT and CALLS.

ghost use Rattle.std.specs.Prelude.{◌≡◌};
ghost use Rattle.pgpipe_lines.specs.Verb.{answer_verb, auth_way, call_verb, end_way, format_of};
ghost use Rattle.pgpipe_lines.specs.Verb.{load_way, script_verb, step_verb, target_of};

use pg_wire::Target;

/// What a line of SCRIPT says that stands in no answer, or begins one.
#[derive(Clone, Copy)]
pub enum ScriptVerb {
    Auth,
    Pair,
    Key,
    Answer,
}

impl ScriptVerb {
    /// The verb of this word.
    pub fn named(word: &str) -> Option<ScriptVerb>
        ensures { result ≡ script_verb word.now }
    {
        match word {
            "auth" => Some(ScriptVerb::Auth),
            "pair" => Some(ScriptVerb::Pair),
            "key" => Some(ScriptVerb::Key),
            "answer" => Some(ScriptVerb::Answer),
            _ => None,
        }
    }
}

/// How a line `auth` has a client let in.
#[derive(Clone, Copy)]
pub enum AuthWay {
    Trust,
    Cleartext,
    Md5,
}

impl AuthWay {
    /// The way of this word.
    pub fn named(word: &[u8]) -> Option<AuthWay>
        ensures { result ≡ auth_way word.now }
    {
        match word {
            b"trust" => Some(AuthWay::Trust),
            b"cleartext" => Some(AuthWay::Cleartext),
            b"md5" => Some(AuthWay::Md5),
            _ => None,
        }
    }
}

/// What a line of SCRIPT says about the answer that it stands in.
#[derive(Clone, Copy)]
pub enum AnswerVerb {
    Notice,
    Set,
    Notify,
    Rows,
    Row,
    Command,
    Empty,
    CopyOut,
    Chunk,
    CopyIn,
    Parsed,
    Bound,
    ParamTypes,
    Described,
    Executed,
    Shut,
    Error,
}

impl AnswerVerb {
    /// The verb of this word.
    pub fn named(word: &str) -> Option<AnswerVerb>
        ensures { result ≡ answer_verb word.now }
    {
        match word {
            "notice" => Some(AnswerVerb::Notice),
            "set" => Some(AnswerVerb::Set),
            "notify" => Some(AnswerVerb::Notify),
            "rows" => Some(AnswerVerb::Rows),
            "row" => Some(AnswerVerb::Row),
            "command" => Some(AnswerVerb::Command),
            "empty" => Some(AnswerVerb::Empty),
            "copyout" => Some(AnswerVerb::CopyOut),
            "chunk" => Some(AnswerVerb::Chunk),
            "copyin" => Some(AnswerVerb::CopyIn),
            "parsed" => Some(AnswerVerb::Parsed),
            "bound" => Some(AnswerVerb::Bound),
            "paramtypes" => Some(AnswerVerb::ParamTypes),
            "described" => Some(AnswerVerb::Described),
            "executed" => Some(AnswerVerb::Executed),
            "shut" => Some(AnswerVerb::Shut),
            "error" => Some(AnswerVerb::Error),
            _ => None,
        }
    }
}

/// The format of a copy.
#[derive(Clone, Copy)]
pub enum CopyFormat {
    Text,
    Binary,
}

/// The format of a copy that this word names.
pub fn format_of(word: &[u8]) -> Option<CopyFormat>
    ensures { result ≡ format_of word.now }
{
    match word {
        b"text" => Some(CopyFormat::Text),
        b"binary" => Some(CopyFormat::Binary),
        _ => None,
    }
}

/// What becomes of a copy from the client.
#[derive(Clone, Copy)]
pub enum LoadWay {
    Accept,
    Refuse,
}

impl LoadWay {
    /// The way of this word.
    pub fn named(word: &[u8]) -> Option<LoadWay>
        ensures { result ≡ load_way word.now }
    {
        match word {
            b"accept" => Some(LoadWay::Accept),
            b"refuse" => Some(LoadWay::Refuse),
            _ => None,
        }
    }
}

/// How the run of a portal ended.
#[derive(Clone, Copy)]
pub enum EndWay {
    Complete,
    Empty,
    Suspended,
}

impl EndWay {
    /// The way of this word.
    pub fn named(word: &[u8]) -> Option<EndWay>
        ensures { result ≡ end_way word.now }
    {
        match word {
            b"complete" => Some(EndWay::Complete),
            b"empty" => Some(EndWay::Empty),
            b"suspended" => Some(EndWay::Suspended),
            _ => None,
        }
    }
}

/// What a line of CALLS says that stands in a group, and isn't its end.
#[derive(Clone, Copy)]
pub enum StepVerb {
    Parse,
    Bind,
    Describe,
    Execute,
    Close,
}

impl StepVerb {
    /// The verb of this word.
    pub fn named(word: &str) -> Option<StepVerb>
        ensures { result ≡ step_verb word.now }
    {
        match word {
            "parse" => Some(StepVerb::Parse),
            "bind" => Some(StepVerb::Bind),
            "describe" => Some(StepVerb::Describe),
            "execute" => Some(StepVerb::Execute),
            "close" => Some(StepVerb::Close),
            _ => None,
        }
    }
}

/// What the letter of a step names.
pub fn target_of(letter: &[u8]) -> Option<Target>
    ensures { result ≡ target_of letter.now }
{
    match letter {
        b"S" => Some(Target::Statement),
        b"P" => Some(Target::Portal),
        _ => None,
    }
}

/// What a line of CALLS says that stands in no group.
#[derive(Clone, Copy)]
pub enum CallVerb {
    User,
    Database,
    Parameter,
    Password,
    Start,
    Query,
    Group,
    Chunk,
    File,
    Done,
    Fail,
    Terminate,
    ToBackend,
    ToClient,
    Step,
    BreakToBackend,
    BreakToClient,
    Flow,
}

impl CallVerb {
    /// The verb of this word.
    pub fn named(word: &str) -> Option<CallVerb>
        ensures { result ≡ call_verb word.now }
    {
        match word {
            "user" => Some(CallVerb::User),
            "database" => Some(CallVerb::Database),
            "option" => Some(CallVerb::Parameter),
            "password" => Some(CallVerb::Password),
            "start" => Some(CallVerb::Start),
            "query" => Some(CallVerb::Query),
            "group" => Some(CallVerb::Group),
            "chunk" => Some(CallVerb::Chunk),
            "file" => Some(CallVerb::File),
            "done" => Some(CallVerb::Done),
            "fail" => Some(CallVerb::Fail),
            "terminate" => Some(CallVerb::Terminate),
            "toback" => Some(CallVerb::ToBackend),
            "toclient" => Some(CallVerb::ToClient),
            "step" => Some(CallVerb::Step),
            "breakback" => Some(CallVerb::BreakToBackend),
            "breakclient" => Some(CallVerb::BreakToClient),
            "flow" => Some(CallVerb::Flow),
            _ => None,
        }
    }
}
