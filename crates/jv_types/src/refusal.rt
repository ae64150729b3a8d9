use crate::copied::Copied;
use crate::name::Name;
use crate::rule::Rule;
use std::alloc::AllocError;

/// Where an input fails.
#[derive(Debug, PartialEq, Eq, PartialOrd, Ord, Drop)]
pub enum RulePlace {
    /// A file, by its name under its root.
    File(Name),
    /// A class, by its name.
    Class(Name),
    /// An instruction of a method, by its offset in bytes from the start of the code. The offset is 0
    /// where the rule has none.
    Method {
        class: Name,
        name: Name,
        desc: Name,
        pc: u32,
    },
}

impl Copied for RulePlace {
    fn copy(&self) -> Result<RulePlace, AllocError> {
        match self {
            RulePlace::File(name) => Ok(RulePlace::File(name.copy()?)),
            RulePlace::Class(name) => Ok(RulePlace::Class(name.copy()?)),
            RulePlace::Method {
                class,
                name,
                desc,
                pc,
            } => Ok(RulePlace::Method {
                class: class.copy()?,
                name: name.copy()?,
                desc: desc.copy()?,
                pc: *pc,
            }),
        }
    }
}

/// A rule that an input fails, and where.
#[derive(Debug, PartialEq, Eq, PartialOrd, Ord, Drop)]
pub struct Refusal {
    pub rule: Rule,
    pub place: RulePlace,
}

impl Copied for Refusal {
    fn copy(&self) -> Result<Refusal, AllocError> {
        Ok(Refusal {
            rule: self.rule,
            place: self.place.copy()?,
        })
    }
}
