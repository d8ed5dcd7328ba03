//! What the words of the command line ask for.

use crate::failure::Failure;
use example_base::Given;
use std::alloc::Global;

/// What `--help` prints.
pub const HELP: &str =
    "hello_pg [-h HOST] [-p PORT] [-U USER] [-W] [-d DATABASE] [-o FILE] [-f FILE] [--count] -c QUERY [-c QUERY]..

Asks a PostgreSQL server a query, and prints what comes as it comes, in the form of psql -A.

  -h HOST      the server's host [default: $PGHOST, else 127.0.0.1]
  -p PORT      its port [default: $PGPORT, else 5432]
  -U USER      the user [default: $PGUSER, else postgres]
  -W           the password is the first line of standard input [default: $PGPASSWORD]
  -d DATABASE  the database [default: $PGDATABASE, else the user's name]
  -c QUERY     the query; it may hold several statements. Of several -c each is asked in its turn, also after an error
  -o FILE      results go to FILE, not to standard output, and so does the data of COPY .. TO STDOUT
  -f FILE      the data of COPY .. FROM STDIN comes from FILE, not from standard input
  --count      of each result only the number of rows is printed

A variable that is empty counts as not set, and so does -W where that line is empty. PGOPTIONS, PGAPPNAME and
PGCLIENTENCODING go to the server. With PGSSLMODE require, verify-ca or verify-full there is no session.

Errors and notices are lines of standard error: the severity, the code and the message, as
ERROR:  22012: division by zero

Status 0: all was done. 1: the server answered an error. 2: there is no session. 3: the connection was lost, or
the client closed the session, after the query was made; it is printed, and whether it took effect isn't known.
4: the words are wrong. 5: a standard stream is closed, a file, the output or memory failed, or the query is too long.";

// The options that have a value.
const VALUED: [&str; 7] = ["-h", "-p", "-U", "-d", "-c", "-o", "-f"];

/// The words, as they are given.
#[derive(Drop)]
pub struct Words<'a> {
    pub help: bool,
    pub count: bool,
    pub queries: Vec<&'a str>,
    pub output: Option<&'a str>,
    pub input: Option<&'a str>,
    /// What they say of the server, but for the password.
    pub given: Given<'a>,
    pub asks_password: bool,
}

impl<'a> Words<'a> {
    /// What the words say, of which the first is the program's name.
    pub fn of(alloc: Global, words: &'a [String]) -> Result<Words<'a>, Failure> {
        let mut said = Words {
            help: false,
            count: false,
            queries: Vec::new(alloc),
            output: None,
            input: None,
            given: Given::default(),
            asks_password: false,
        };
        let mut option: Option<&str> = None;
        for word in words.iter().skip(1) {
            match (option.take(), word.as_str()) {
                (Some(name), value) => said.set(name, value)?,
                (None, "--help") => said.help = true,
                (None, "--count") => said.count = true,
                (None, "-W") => said.asks_password = true,
                (None, name) if VALUED.contains(&name) => option = Some(name),
                _ => return Err(Failure::Words("there is no such option")),
            }
        }
        if option.is_some() {
            return Err(Failure::Words("an option has no value"));
        }
        if said.queries.iter().all(|query| query.is_empty()) && !said.help {
            return Err(Failure::Words("there is no query"));
        }
        Ok(said)
    }

    // Gives an option its value.
    fn set(&mut self, option: &str, value: &'a str) -> Result<(), Failure> {
        match option {
            "-h" => self.given.host = Some(value),
            "-p" => self.given.port = Some(value),
            "-U" => self.given.user = Some(value),
            "-d" => self.given.database = Some(value),
            "-o" => self.output = Some(value),
            "-f" => self.input = Some(value),
            _ => self.queries.push(value)?,
        }
        Ok(())
    }
}
