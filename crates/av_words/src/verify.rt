ghost use Rattle.std.specs.Prelude.{◌≡◌, IfOk, MatchOption, map};
ghost use Rattle.clap.specs.Words.{app_of};
ghost use Rattle.av_words.specs.Requests.{AskVerify, AskNoVerify, Reads, ReadsNothing, verify_command};
ghost use Rattle.av_words.specs.Steps.Folders.{HasFolders, HasNoFolders};

use clap::error::ErrorKind;
use clap::{Arg, ArgAction, ArgMatches, Command};
use std::alloc::{AllocError, Global};

/// The command as `clap` reads it: two options, which are required, each with a folder.
fn verify_command<'a>(alloc: Global) -> Result<Command<'a>, AllocError>
    ensures { IfOk result (λ command. app_of command ≡ verify_command) }
{
    let app = Arg::new(alloc, "app")
        .long("app")
        .required(true)
        .action(ArgAction::Set);
    let lib = Arg::new(alloc, "lib")
        .long("lib")
        .required(true)
        .action(ArgAction::Set);
    Command::new(alloc, "verify").arg(app)?.arg(lib)
}

/// The two folders that were read.
fn folders_of<'a>(matches: &ArgMatches<'a>) -> Option<(&'a str, &'a str)>
    ensures { MatchOption result (HasNoFolders matches.now) (λ folders. HasFolders matches.now folders.0.now folders.1.now) }
{
    let Some(app) = matches.get_str("app") else {
        return None;
    };
    let Some(lib) = matches.get_str("lib") else {
        return None;
    };
    Some((app, lib))
}

/// The two folders, as `clap` reads the words, of which the first is passed over.
fn folders_read<'a>(
    alloc: Global,
    words: &'a [&'a str],
) -> Result<Option<(&'a str, &'a str)>, AllocError>
    ensures { IfOk result (λ found. MatchOption found (ReadsNothing (map (λ w. w.now) words.entry.now))
        (λ folders. Reads (map (λ w. w.now) words.entry.now) folders.0.now folders.1.now)) }
{
    let command = verify_command(alloc)?;
    match command.try_get_matches_from(words) {
        Ok(matches) => Ok(folders_of(&matches)),
        Err(error) => match error.kind() {
            ErrorKind::OutOfMemory => Err(AllocError),
            _ => Ok(None),
        },
    }
}

/// The folders of an application and of a library, where the words are `verify` and its two options.
pub fn verify_asked<'a>(
    alloc: Global,
    words: &'a [&'a str],
) -> Result<Option<(&'a str, &'a str)>, AllocError>
    ensures { IfOk result (λ found. MatchOption found (AskNoVerify (map (λ w. w.now) words.entry.now))
        (λ folders. AskVerify (map (λ w. w.now) words.entry.now) folders.0.now folders.1.now)) }
{
    let Some(command) = words.first() else {
        return Ok(None);
    };
    if *command != "verify" {
        return Ok(None);
    }
    folders_read(alloc, words)
}
