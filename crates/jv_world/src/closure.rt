ghost use Rattle.std.specs.Prelude.{◌≡◌, ℕ, ◌^◌, ◌<◌, [], length, IsTrue, IfOk, OnOk};
ghost use Rattle.jv_world.specs.Steps.Building.{AddsAll, AreInRange, AreLed, AreLedFrom, Has, IsClear, IsFound, IsLinked, IsMarking, marked};

use jv_types::ClassId;
use std::alloc::{AllocError, Global};

/// Takes the marks of these classes away, which are all that there are.
fn unmark(marks: &mut [bool], found: &[ClassId])
    requires { IsMarking marks.old found.now }
    ensures { (n : ℕ) → ¬ IsTrue (marked marks.new n) }
{
    for class in found {
        marks[class.number as usize] = false;
    }
}

/// The search for the supertypes of a class: a mark for each class of the list, and the marked ones in
/// the order in which they were found.
#[derive(Drop)]
struct Search {
    marks: Vec<bool>,
    found: Vec<ClassId>,
}

impl Search {
    /// Nothing is marked. Only memory can be wanting.
    fn new(alloc: Global, count: usize) -> Result<Search, AllocError>
        ensures count { IfOk result (λ search. length search.marks.items ≡ count) }
        ensures unmarked { IfOk result (λ search. (n : ℕ) → ¬ IsTrue (marked search.marks.items n)) }
        ensures empty { IfOk result (λ search. search.found.items ≡ []) }
    {
        Ok(Search {
            marks: vec![in alloc; false; count]?,
            found: Vec::new(alloc),
        })
    }

    /// Marks a class, unless it is marked. Only memory can be wanting.
    fn mark(&mut self, class: ClassId) -> Result<(), AllocError>
        requires here { class.number < length self.old.marks.items }
        requires marking { IsMarking self.old.marks.items self.old.found.items }
        ensures { OnOk result (AddsAll (λ n. n ≡ class.number) self.old.marks.items self.old.found.items self.new.marks.items self.new.found.items) }
    {
        if self.marks[class.number as usize] {
            return Ok(());
        }
        self.found.push(class)?;
        self.marks[class.number as usize] = true;
        Ok(())
    }

    /// Marks each class of a list. Only memory can be wanting.
    fn mark_all(&mut self, row: &[ClassId]) -> Result<(), AllocError>
        requires here { (n : ℕ) → Has row.now n → n < length self.old.marks.items }
        requires marking { IsMarking self.old.marks.items self.old.found.items }
        ensures { OnOk result (AddsAll (Has row.now) self.old.marks.items self.old.found.items self.new.marks.items self.new.found.items) }
    {
        for class in row {
            self.mark(*class)?;
        }
        Ok(())
    }

    /// Marks each class that a link of this one leads to. Only memory can be wanting.
    fn follow(&mut self, links: &[Vec<ClassId>], class: ClassId) -> Result<(), AllocError>
        requires here { class.number < length links.now }
        requires range { AreInRange links.now }
        requires count { length self.old.marks.items ≡ length links.now }
        requires marking { IsMarking self.old.marks.items self.old.found.items }
        ensures { OnOk result (AddsAll (IsLinked links.now class.number) self.old.marks.items self.old.found.items self.new.marks.items self.new.found.items) }
    {
        self.mark_all(links[class.number as usize].as_slice())
    }

    /// Finds each class that links of this one lead to. Only memory can be wanting.
    fn find(&mut self, links: &[Vec<ClassId>], class: ClassId) -> Result<(), AllocError>
        requires here { class.number < length links.now }
        requires range { AreInRange links.now }
        requires clear { IsClear links.now self.old.marks.items self.old.found.items }
        ensures { OnOk result (IsFound links.now class.number self.new.marks.items self.new.found.items) }
    {
        self.follow(links, class)?;
        let mut i = 0;
        while i < self.found.len() {
            let next = self.found[i];
            self.follow(links, next)?;
            i += 1;
        }
        Ok(())
    }

    /// The classes that links of this one lead to, by rising numbers. Only memory can be wanting.
    fn led_from(
        &mut self,
        alloc: Global,
        links: &[Vec<ClassId>],
        class: ClassId,
    ) -> Result<Vec<ClassId>, AllocError>
        requires here { class.number < length links.now }
        requires range { AreInRange links.now }
        requires clear { IsClear links.now self.old.marks.items self.old.found.items }
        ensures led { IfOk result (λ row. AreLed links.now class.number row.items) }
        ensures clear { OnOk result (IsClear links.now self.new.marks.items self.new.found.items) }
    {
        self.find(links, class)?;
        self.found.sort_unstable();
        let row = Vec::from_slice(alloc, self.found.as_slice())?;
        unmark(&mut self.marks, self.found.as_slice());
        self.found.clear();
        Ok(row)
    }
}

/// For each class those that links of it lead to, by rising numbers. Only memory can be wanting.
pub fn all_led(alloc: Global, links: &[Vec<ClassId>]) -> Result<Vec<Vec<ClassId>>, AllocError>
    requires range { AreInRange links.now }
    requires few { length links.now < 2 ^ 32 }
    ensures { IfOk result (λ rows. AreLedFrom links.now (length links.now) rows.items) }
{
    let mut search = Search::new(alloc, links.len())?;
    let mut rows = Vec::with_capacity(alloc, links.len())?;
    for number in 0..links.len() {
        let class = ClassId {
            number: number as u32,
        };
        rows.push(search.led_from(alloc, links, class)?)?;
    }
    Ok(rows)
}
