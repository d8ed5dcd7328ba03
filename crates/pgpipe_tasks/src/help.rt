//! What the help says beside the words: ranges, statuses, examples, and where more is told.

/// The version of the program, and what it is proved with.
pub const VERSION: &str = "0.1.0, proved with rattle-kit-13b logic dac8208d650f15bf";

/// What a conversion does with types.
pub const CONVERT: &str = "Convert a COPY file between the text and the binary format

A value is bytes, whatever its type: it is copied as it is from text to binary and back. So of a binary \
file that is made from text only text columns come out as a server expects; an integer, for one, has \
another form there.";

/// How many columns there are.
pub const COLUMNS: &str = "How many fields a row has, 1 to 32,767";

/// What the delimiter is.
pub const DELIMITER: &str =
    "The byte between two fields of a text file, read or written; no newline, return, \
backslash, dot, letter from a to z or digit [default: a tab, which a shell writes $'\\t']";

/// What the null mark is.
pub const NULL: &str =
    "What stands for null in a text file, read or written; it has no newline, return or \
delimiter, isn't \\., and doesn't end in a lone backslash [default: \\N]";

/// Whose side is read.
pub const FRONT: &str = "Read a client's side: its first packets, and then its messages";

/// What is shown of a message that this program doesn't know.
pub const FRAMES: &str =
    "Go on over a message that isn't of the profile: it is shown with `?` before its tag";

/// What a person reads.
pub const DECODE: &str =
    "Print each message by its name with its fields, passwords and keys hidden, \
and go on over one that isn't of the profile";

/// What a program reads.
pub const JSON: &str =
    "Print each message as a JSON object on a line, passwords and keys hidden, and go on over \
one that isn't of the profile";

/// What is counted.
pub const SUMMARY: &str =
    "Print a table at the end instead: how many messages of each name there are, and how many bytes";

/// Both sides of a connection.
pub const FRONT_FILE: &str =
    "The file that has the client's side, to be printed together with the server's, decoded";

/// Both sides of a connection.
pub const BACK_FILE: &str =
    "The file that has the server's side, to be printed together with the client's, decoded";

/// Where the input is.
pub const FILE: &str = "The file to read [default: standard input]";

/// What is carried over a connection.
pub const TCP: &str = "Carry over a TCP connection of this process to itself, on 127.0.0.1";

/// Where a loop is broken.
pub const BREAK: &str =
    "Run the loop again for each byte of each way, with the way broken after it, and \
print what is settled, in doubt and logged there";

/// What is printed about each event.
pub const TRACE: &str =
    "Print each event with what it moved, as show prints messages, and both phases after it";

/// Which lines are no lines.
pub const COMMENTS: &str = "Take each line of SCRIPT and CALLS that begins with # as empty";

/// How many bytes are delivered.
pub const CUT: &str = "How many bytes a flow delivers at a time, 1 to 4,096 [default: 4096]";

/// What is served, and what isn't.
pub const SERVE: &str = "Answer clients from a script, one after another, on a port of 127.0.0.1

Each client is answered from the beginning of SCRIPT, whatever it asks. The first line that is printed is the \
port; then come, for each client, the lines of what it asked and was answered, as `loop` prints them.

It is no PostgreSQL:
- There is no TLS and no GSSAPI: a client that may do without is told that it has to. One that insists ends \
the connection.
- Passwords are those of SCRIPT, in cleartext or by MD5. There is no SCRAM.
- There is no SQL and nothing is stored: a request gets the answer in its place of SCRIPT, and its text isn't \
looked at. Where none is left, or the next one doesn't fit the request, it gets an error.
- Steps of an extended query are answered at Sync, all at once. A Flush has no effect, and a client that waits \
for an answer before its Sync waits forever.
- One connection is served at a time. Another is answered once the one before has ended, also one that asks to \
cancel, which has no effect then. A client that opens a second connection and waits for it waits forever.
- There is no replication. A FunctionCall, by which large objects are read, and protocol 3.2 end the connection.";

/// The port to listen at.
pub const PORT: &str =
    "The port of 127.0.0.1 to listen at, 0 to 65,535; 0 is any free one [default: 0]";

/// How many clients are served.
pub const CONNECTIONS: &str =
    "How many connections are served before the program ends, 1 to 4,294,967,295 [default: it doesn't end]";

/// The path of the script.
pub const SCRIPT: &str = "The file of what the backend answers";

/// The path of the calls.
pub const CALLS: &str = "The file of what happens to the client";

/// What is printed about a fault.
pub const EXPLAIN: &str =
    "Say in a second line where a fault stands, what was expected, and a guess";

/// What is printed while the work goes on.
pub const PROGRESS: &str = "Say on standard error how far it is, up to four times a second";

/// After the help of the program.
pub const AFTER_ALL: &str = "Exit status:
  0  all was done, or help or the version was asked for
  1  a word is wrong
  2  what was read has a fault, or there are no such options
  3  a file, a stream, a connection or a port failed
  4  memory was refused
Where it isn't 0, standard error says why, and with --explain where. What was printed before stays.

Examples:
  pgpipe show answers                a line for each message of a server
  pgpipe help convert                the words of a conversion

docs/PGPIPE.md tells more, docs/PROTOCOL.md has the formats, and docs/PROVED.md what is proved.";

/// After the help of `show`.
pub const AFTER_SHOW: &str =
    "The stream is one direction of one connection, as tcpflow writes it. Length fields are at most 1,073,741,823.
A line has a message's tag, its length field, and its body in hexadecimal, or - where it is empty.

With --decode, --json, --summary or --frames only a length that can't be ends it before.

Exit status:
  0  the stream ends with a whole message, or is empty
  1  a word is wrong
  2  it ends within a message, or has bytes that begin none
  3  the file or a stream failed
  4  memory was refused

Examples:
  pgpipe show --decode answers
  pgpipe show --front --explain < requests

docs/PROTOCOL.md has the messages and the lines, and docs/PGPIPE.md says where a fault often comes from.";

/// After the help of `convert`.
pub const AFTER_CONVERT: &str =
    "A value has at most 1,073,741,823 bytes. With one format on both sides a file is brought to its canonical form.

Exit status:
  0  the whole file was converted
  1  a word is wrong, or the delimiter isn't one byte
  2  the file has a fault, a row can't be written, or there are no such options
  3  the file or a stream failed
  4  memory was refused

Examples:
  pgpipe convert --from text --to binary --columns 2 rows.text > rows.binary
  pgpipe convert --from binary --to text --columns 2 --delimiter , --null '' < rows.binary

docs/PROTOCOL.md has both formats, and what is written.";

/// After the help of `loop`.
pub const AFTER_LOOP: &str = "Exit status:
  0  the loop was run; what its ends answered stands in the lines
  1  a word is wrong, or --break-everywhere stands with --tcp or --trace
  2  a line of SCRIPT or CALLS has no meaning, the script can't be played, or a break has shown what can't be
  3  a file can't be read, standard output failed, or there is no connection
  4  memory was refused

Examples:
  pgpipe loop script calls
  pgpipe loop --cut 1 --trace script calls

docs/LOOP.md has the lines of both files and of what is printed.";

/// After the help of `serve`.
pub const AFTER_SERVE: &str = "Exit status:
  0  as many connections were served as were asked for
  1  a word is wrong
  2  a line of SCRIPT has no meaning, or the script can't be played
  3  SCRIPT can't be read, the port can't be listened at, or standard output failed
  4  memory was refused

Examples:
  pgpipe serve script
  pgpipe serve --port 5433 --connections 1 script

docs/LOOP.md has the lines of SCRIPT and of what is printed.";
