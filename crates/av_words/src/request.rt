ghost use Rattle.std.specs.Prelude.{◌≡◌, IfOk, MatchOption, map};
ghost use Rattle.av_words.specs.Requests.{Asks, AskNothing};

use crate::calls::calls_asked;
use crate::verify::verify_asked;
use std::alloc::{AllocError, Global};

/// What the words of a command line ask for.
#[derive(Clone, Copy, Debug, PartialEq, Eq)]
pub enum Request<'a> {
    /// `calls ROOT NAME`: the calls of the class of this name.
    Calls { root: &'a str, name: &'a str },
    /// `verify --app DIR --lib DIR`: that the methods of an application verify, over a library.
    Verify { app: &'a str, lib: &'a str },
}

/// What the words ask for, or none where they are in no command's form. The first word chooses the command; the
/// words of `verify` are read by `clap`, whose every fault but want of memory says that they are in no form, and so
/// does its answer to a plea for help.
pub fn request_of<'a>(
    alloc: Global,
    words: &'a [&'a str],
) -> Result<Option<Request<'a>>, AllocError>
    ensures { IfOk result (λ found. MatchOption found (AskNothing (map (λ w. w.now) words.entry.now))
        (Asks (map (λ w. w.now) words.entry.now))) }
{
    match calls_asked(words) {
        Some((root, name)) => Ok(Some(Request::Calls { root, name })),
        None => match verify_asked(alloc, words)? {
            Some((app, lib)) => Ok(Some(Request::Verify { app, lib })),
            None => Ok(None),
        },
    }
}
