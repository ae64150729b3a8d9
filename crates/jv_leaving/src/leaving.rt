ghost use Rattle.std.specs.Prelude.{◌≡◌, ◌<◌, ◌^◌, IfOk};
ghost use Rattle.jv_insn.specs.Effects.{cells_taken};
ghost use Rattle.jv_insn.specs.Leaving.{is_written, source_of, source_of_local, source_of_top, words_given, words_taken};
ghost use Rattle.jv_insn.specs.Effects.{shuffle_of, width_of, cells_given};
ghost use Rattle.jv_leaving.specs.Words.{number_of, place_of, place_of_some};

use crate::cells::{cells_taken, spans, width_given, width_of};
use crate::moved::moved;
use crate::word::Word;
use jv_insn::{is_load, is_store, local_of};
use jv_table::{Cell, ops};
use jv_types::Insn;
use std::alloc::{AllocError, Global};

/// How an instruction leaves words: what it takes from the stack, and how many words it takes and gives.
#[derive(Drop)]
pub struct Leaving<'a> {
    pub insn: &'a Insn,
    pub cells: Vec<Cell>,
    pub taken: usize,
    pub given: usize,
    pub ghost cells_taken_here: { cells.items ≡ cells_taken insn.now.op insn.now.arg },
    pub ghost words_taken_here: { taken ≡ words_taken insn.now },
    pub ghost words_given_here: { given ≡ words_given insn.now },
}

/// How many words an instruction takes from the top of the stack, whose cells these are.
fn words_taken(insn: &Insn, cells: &[Cell]) -> usize
    requires { cells.now ≡ cells_taken insn.now.op insn.now.arg }
    ensures { result ≡ words_taken insn.now }
{
    match moved(insn.op) {
        None => width_of(cells),
        Some(words) => words.count as usize,
    }
}

/// How many words stand in their place afterwards.
fn words_given(insn: &Insn) -> usize
    ensures { result ≡ words_given insn.now }
{
    match moved(insn.op) {
        None => width_given(insn),
        Some(words) => words.order.len(),
    }
}

impl<'a> Leaving<'a> {
    /// How an instruction leaves words. Only memory can be wanting.
    pub fn new(alloc: Global, insn: &'a Insn) -> Result<Leaving<'a>, AllocError>
        ensures { IfOk result (λ found. found.insn.now ≡ insn.now) }
    {
        let cells = cells_taken(alloc, insn)?;
        let taken = words_taken(insn, cells.as_slice());
        let given = words_given(insn);
        Ok(Leaving {
            insn,
            cells,
            taken,
            given,
        })
    }

    /// Whether the instruction writes a local variable: a store, of one or two, or iinc.
    fn is_written(&self, local: usize) -> bool
        ensures { result ≡ is_written self.now.insn.now local }
    {
        let first = local_of(self.insn.op, &self.insn.arg) as usize;
        if is_store(self.insn.op) {
            return spans(first, self.cells.as_slice(), local);
        }
        self.insn.op == ops::IINC && first == local
    }

    /// The word that the instruction leaves at a local variable, where so many words stand below those that it
    /// takes.
    fn source_of_local(&self, below: usize, local: usize) -> Option<Word>
        requires below { below < 2 ^ 63 }
        requires local { local < 2 ^ 63 }
        ensures { place_of_some result ≡ source_of_local self.now.insn.now below local }
    {
        if !self.is_written(local) {
            return Some(Word::Local(local));
        }
        if !is_store(self.insn.op) {
            return None;
        }
        let first = local_of(self.insn.op, &self.insn.arg) as usize;
        Some(Word::Stack(below + local.saturating_sub(first)))
    }

    /// The word that the instruction leaves on the stack, so far above those that it doesn't touch.
    fn source_of_top(&self, below: usize, above: usize) -> Option<Word>
        requires below { below < 2 ^ 63 }
        requires above { above < 2 ^ 63 }
        ensures { place_of_some result ≡ source_of_top (shuffle_of self.now.insn.now.op) self.now.insn.now below above }
    {
        match moved(self.insn.op) {
            Some(words) => {
                let from = words.order.get(above)?;
                Some(Word::Stack(below + *from as usize))
            }
            None => {
                if !is_load(self.insn.op) || above >= self.given {
                    return None;
                }
                let first = local_of(self.insn.op, &self.insn.arg) as usize;
                Some(Word::Local(first + above))
            }
        }
    }

    /// The word, before the instruction, that it leaves at a place, where the stack before it has this depth. None
    /// where the word is given anew, or where there is no such word. It takes no memory.
    pub fn source(&self, depth: usize, to: Word) -> Option<Word>
        requires depth { depth < 2 ^ 63 }
        requires to { number_of to < 2 ^ 63 }
        ensures { place_of_some result ≡ source_of self.now.insn.now depth (place_of to) }
    {
        let below = depth.saturating_sub(self.taken);
        match to {
            Word::Local(local) => self.source_of_local(below, local),
            Word::Stack(place) => {
                if place < below {
                    Some(Word::Stack(place))
                } else {
                    self.source_of_top(below, place - below)
                }
            }
        }
    }
}
