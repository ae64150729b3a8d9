//! What a source in memory is asked, and what it answers.

use crate::library::library_of;
use crate::mem_source::MemSource;
use av_asked::{Look, ask};
use av_collected::CollectStop;
use std::alloc::Global;
use std::test::Fail;
use tests_shapes::name_of;
use tests_text::{part, word};

/// Libraries, the number of the call that fails and of the first one at which a quantity passes, names that are asked
/// for, and what is answered of each.
const ASKED: &str = "\
lib/A,C,,+.m !lib/B = 0 9 = lib/A lib/B lib/C lib/A = class malformed absent class
lib/A,C = 2 9 = lib/A lib/A lib/B = class failed absent
lib/A,C = 0 2 = lib/A lib/A lib/B = class limit limit
lib/A,C = 2 1 = lib/A lib/A lib/A = limit failed limit
!lib/A = 1 9 = lib/A lib/A = failed malformed";

/// The word of an answer.
fn word_of(answer: &Result<Look, CollectStop>) -> &str {
    match answer {
        Ok(Look::Absent) => "absent",
        Ok(Look::File(None)) => "malformed",
        Ok(Look::File(Some(_))) => "class",
        Err(CollectStop::Limit(_)) => "limit",
        Err(CollectStop::Failed) => "failed",
        Err(_) => "other",
    }
}

/// The source of a row.
fn source_of(alloc: Global, row: &str) -> Result<MemSource, Fail> {
    let files = library_of(alloc, part(row, 0))?;
    let numbers = part(row, 1);
    let fail = word(numbers, 0).parse::<u64>()?;
    let limit_from = word(numbers, 1).parse::<u64>()?;
    Ok(MemSource::new(alloc, files, fail, limit_from))
}

/// Whether a source answers the names of a row as it must.
fn is_answered(alloc: Global, row: &str) -> Result<bool, Fail> {
    let mut source = source_of(alloc, row)?;
    for (place, name) in part(row, 2).split(' ').enumerate() {
        let answer = ask(alloc, &name_of(alloc, name)?, &mut source);
        if word_of(&answer) != word(part(row, 3), place) {
            return Ok(false);
        }
    }
    Ok(true)
}

#[test]
fn answers_what_a_library_has(rt: HostRuntime) -> Result<(), Fail> {
    for row in ASKED.lines() {
        assert!(rt; is_answered(rt.alloc(), row)?, "at {row}");
    }
    Ok(())
}
