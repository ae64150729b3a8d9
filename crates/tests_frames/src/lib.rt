//! Tests of verification types and frames, of what an instruction does to a frame, and of a verifier's steps.
#![tactic(auto)]

#[cfg(test)]
mod assignability;
#[cfg(test)]
mod descriptors;
#[cfg(test)]
mod framed;
#[cfg(test)]
mod maps;
#[cfg(test)]
mod parts;
#[cfg(test)]
mod rules;
#[cfg(test)]
#[cfg(test)]
mod words;
