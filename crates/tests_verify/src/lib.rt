//! Tests of the instructions that work on references, and of the verifier.
#![tactic(auto)]

#[cfg(test)]
mod arrays;
#[cfg(test)]
mod asked;
#[cfg(test)]
mod calls;
#[cfg(test)]
mod class_files;
#[cfg(test)]
mod constructors;
#[cfg(test)]
mod fields;
#[cfg(test)]
mod instructions;
#[cfg(test)]
mod locals;
#[cfg(test)]
mod moves;
#[cfg(test)]
mod objects;
#[cfg(test)]
mod returns;
#[cfg(test)]
mod steps;
#[cfg(test)]
#[cfg(test)]
mod verifying;
