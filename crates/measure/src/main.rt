//! Pieces of work to be timed from outside, each by a word of its own:
//!
//! - `read-names`, `names`, `read-descriptors`, `descriptors` ROUNDS: reads a few texts so many times, and
//!   writes them again; prints how many bytes it went over.
//! - `read`, `again`, `decode` ROUNDS PATH..: takes each file that a path ending in `.class` names, and each
//!   class file below every other path, which is a folder. It reads them so many times, or reads them and
//!   writes them again, or decodes the codes of their methods; prints how many files, codes, bytes and
//!   instructions these were. With `again` it prints a line for each file that is refused or not written as
//!   it was. Its status is 0 only where none was refused or changed.
//! - `verify` ROUNDS APPLICATION LIBRARY: reads each class file below the folder APPLICATION and below the folder
//!   LIBRARY, and builds their world; a class that stands in both is one of the application. So many times it
//!   decodes the code of each method of the application, looks at its references, and verifies it. It prints a
//!   line for each method that isn't verified: its class, name and descriptor, and the number of the rule or
//!   that a reference is wrong, with the offset. Then how many classes there are of both, how many codes there
//!   were in all rounds, how many of them were verified, and how many instructions these had. Its status is 0
//!   only where all were verified.
//! - `collect` ROUNDS APPLICATION LIBRARY: reads the class files below the folder APPLICATION, and so many times it
//!   collects what they can meet of the classes below the folder LIBRARY. Each time it prints how many classes, fields
//!   and methods are collected, and the greatest dimension. Just the files of the collected classes are read.
//! - `world` FAMILY CLASSES TESTS: builds a `chain`, a `fan` or a `lattice` of so many classes, and makes so
//!   many subtype tests; prints how many proper supertypes the classes have together and how many tests
//!   answered yes.
//! - `members` CLASSES METHODS OTHERS ROUNDS: resolves and selects each of so many methods of the topmost class
//!   of a chain, from its lowest class, so many times; the other classes have so many methods of other names.
//!   Prints how many were resolved and selected.
//! - `close` SIZE: goes over a graph of so many nodes, each with four successors, from one of them; prints how
//!   many it found.
//! - `join` SIZE: closes a rule of two premises: two sides of so many numbers each force the next number, and
//!   where both have one, they meet; prints how many facts it found.
//! - `sample`: a little of each, over the folder in which it runs.
#![tactic(auto)]

mod classes;
mod codes;
mod collecting;
mod files;
mod graph;
mod members;
mod methods;
mod node;
mod rounds;
mod sides;
mod sources;
mod texts;
mod verifying;
mod worlds;

use anyhow::{Context, Result, bail};
use classes::measure_classes;
use collecting::measure_collection;
use graph::measure_close;
use members::measure_members;
use methods::measure_methods;
use sides::measure_join;
use std::env;
use texts::measure_texts;
use worlds::measure_world;

const USAGE: &str = "measure WORK NUMBER..";

/// The word at a place.
fn word(words: &[String], place: usize) -> Result<&str> {
    Ok(words.get(place).context(USAGE)?.as_str())
}

/// The number at a place.
fn number(words: &[String], place: usize) -> Result<u32> {
    let number = word(words, place)?.parse::<u32>();
    number.context("the word isn't a number")
}

/// A little of each piece of work.
fn sample(rt: &HostRuntime) -> Result<()> {
    measure_texts(rt, "names", 2)?;
    measure_texts(rt, "descriptors", 2)?;
    measure_classes(rt, "again", 2, &["."])?;
    measure_classes(rt, "decode", 1, &["."])?;
    measure_methods(rt, 2, "verify/program", "verify/library")?;
    measure_collection(rt, 1, "collect/application", "collect/library")?;
    measure_world(rt, "lattice", 30, 10)?;
    measure_members(rt, 5, 10, 3, 1)?;
    measure_close(rt, 1000)?;
    measure_join(rt, 1000)
}

/// The piece of work that the words name.
fn work(rt: &HostRuntime, words: &[String]) -> Result<()> {
    let name = word(words, 0)?;
    match name {
        "read-names" | "names" | "read-descriptors" | "descriptors" => {
            measure_texts(rt, name, number(words, 1)?)
        }
        "read" | "again" | "decode" => {
            let mut paths = Vec::new(rt.alloc());
            for path in words.iter().skip(2) {
                paths.push(path.as_str())?;
            }
            measure_classes(rt, name, number(words, 1)?, &paths)
        }
        "verify" => measure_methods(rt, number(words, 1)?, word(words, 2)?, word(words, 3)?),
        "collect" => measure_collection(rt, number(words, 1)?, word(words, 2)?, word(words, 3)?),
        "world" => measure_world(rt, word(words, 1)?, number(words, 2)?, number(words, 3)?),
        "members" => measure_members(
            rt,
            number(words, 1)?,
            number(words, 2)?,
            number(words, 3)?,
            number(words, 4)?,
        ),
        "close" => measure_close(rt, number(words, 1)?),
        "join" => measure_join(rt, number(words, 1)?),
        "sample" => sample(rt),
        _ => bail!("{USAGE}"),
    }
}

fn main(rt: HostRuntime) -> Result<()> {
    let mut words = Vec::new(rt.alloc());
    for word in env::args(&rt)?.skip(1) {
        words.push(word)?;
    }
    work(&rt, &words)
}
