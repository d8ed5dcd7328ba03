//! A scripted backend: a server's half of a session for tests, which does no input or output of its own.
//!
//! A [`Backend`] is made of a [`Script`], which has an [`Answer`] for each request. [`Backend::push`] takes the client's bytes in any pieces,
//! and each [`Backend::step`] handles one first packet or one message of them and appends the reply. [`Backend::log`] has each request that is
//! decided, with its outcome and the chunks that were taken for its copies. [`answer`] does the input and output over a link.
//!
//! # Phases
//!
//!                  Ssl, Gss: `N`                             Parse, Bind, Describe, Execute, Close
//!                     +---+                                            +---+
//!                     v   |                      a step                v   |
//!         new -----> First ---------> Ready -------------------------> Grouping
//!                      |    Startup   ^ ^ |                                |
//!              Startup |              | | |                                |
//!                      v   password   | | |                                |
//!                  Password ----------+ | | Query                          | Sync
//!                                     | | v                                v
//!                                     | +-+-- decided at once <------ (a request)
//!                                     |                                    |
//!                                     |  decided: c, f, a chunk that is    | a copy from the client: the reply
//!                                     |  refused, a message out of place   | stops after its G
//!                                     |                                    v
//!                                     +--------------------------------- CopyIn ---+
//!                                                                          ^       | a chunk, Flush, Sync
//!                                                                          +-------+
//!
//!     First    --> Closed: a Cancel, or a Startup that names no user.
//!     Password --> Closed: another password.
//!     Password, Ready, Grouping, CopyIn --> Closed: a Terminate; but from CopyIn also a message that can't stand there (K4).
//!     Any phase but Closed --> Closed: a faulty stream (K1), a step that ran out of memory (K2), LOST.
//!     In Ready and Grouping `H d c f` have no effect.
//!
//! # Over a link
//!
//! [`answer`] receives what a client sends, has a backend handle it, and sends what it replies. It is to a backend what `pg_drive::drive` is to a
//! client. The backend and the link are the caller's, and a call is told how many turns it may take. So a test server is a listener,
//! `Backend::new` and `answer`; nothing else is needed.
//!
//!     answer:  Closed | Lost | TurnsUsed     or A1 Backend, A2 Link
//!
//! **A turn** begins with a step. What the step put out is sent at once; where nothing whole waits, a piece is received and pushed instead. A
//! step that fails is returned with its fault once its last words are sent.
//!
//! # What is proved
//!
//! What a backend sends and logs is a function of its script and of the bytes that it has handled, whatever they are: a session's transcript
//! is the replies to its requests in order, and its log has each decided request with its outcome (`specs/History.antt`,
//! `specs/Input.antt`). A history (`IsHistoryOf`) is the bytes that it was given, what of them it has handled, the rest, and what its steps
//! have sent; no code stores it.
//!
//! Over a link, what was received is what the backend was given, and what it replied is what was sent, in order, as far as the link took it
//! (`Answers`, `specs/OverLink.antt`). Nothing waits to be sent between two turns. The law [`laws::answering_goes_on`] says what becomes of a
//! history of the backend, and [`laws::log_only_grows`] that what is decided stays.
//!
//! # Files
//!
//! | File | Definitions in `specs/` | What it has |
//! |---|---|---|
//! | `script.rt` | `Copies`, `Replies` | scripts: how a copy ends; what an answer comes to, and what is sent for it |
//! | `check.rt`, `script_fault.rt` | `Check` | which scripts can be played |
//! | `meaning.rt` | `Meaning` | what one message means, where a request is awaited and during a copy |
//! | `outcome.rt`, `fitting.rt` | `Outcome`, `Fitting` | the outcome of an answer that is given whole; which answer a request gets |
//! | `own_error.rt` | `OwnError` | the errors that a backend sends on its own account |
//! | | `Session` | messages cut into requests with what follows each; replies, log, place |
//! | `phase.rt` | `Opening`, `Input` | first packets; transcript, log and phase of an input |
//! | `telling.rt` | `Telling` | several messages written as one, for the machine and the check |
//! | `stage.rt` | `Stage` | where a backend stands: its phase, what waits, what a piece or a loss makes of it |
//! | | `Awaited` | what is awaited, for all messages that may come |
//! | | `History` | what a backend went through, and how a call carries it on |
//! | `backend.rt`, `opening.rt`, `playing.rt`, `answering.rt`, `fault.rt` | `Backend`, `Fault` | what each call does |
//! | `over_link.rt`, `answered.rt` | `OverLink` | what a turn does, turns one after the other, and the last turn by what is returned |
//! | `laws.rt` | `Turns`, `Laws`, `Carried` | what holds of one request, of a session, of a client that takes turns, and of a history over a link |
//!
//! # How it works
//!
//! **Definitions are over the whole session.** A verdict reads all messages after its request and says how many it took; the cut into
//! requests goes on after them. Nothing in them is a phase or a counter.
//!
//! **One message at a time.** What one message does is one function (`move`, in `specs/Private/Moves`), which the code computes and which
//! lemmas tie to the definitions of whole sessions: what it sends and logs is what transcript and log grow by, and where it leads is the place
//! after the message. `Awaited` says of a place what holds of all messages that may still come, so nothing of the past is stored but the
//! password that is awaited, and what a copy has loaded. A step that runs out of memory cuts `out` back.
//!
//! **Writing.** Messages are written one after the other (`telling`), and all are judged, also after one for which memory ran out: so the
//! same code answers a request and checks a script.
#![tactic(auto)]

mod answered;
mod answering;
mod backend;
mod check;
mod fault;
mod fitting;
pub mod laws;
mod meaning;
mod opening;
mod outcome;
mod over_link;
mod own_error;
mod phase;
mod playing;
mod script;
mod script_fault;
mod stage;
mod telling;

pub use answered::{AnswerFault, Answered};
pub use backend::Backend;
pub use fault::BackendFault;
pub use over_link::answer;
pub use phase::BackPhase;
pub use script::{Answer, Auth, Key, Load, Logged, Script, ScriptPart};
pub use script_fault::ScriptFault;
