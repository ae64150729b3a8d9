//! Tests of codes: how they are decoded and encoded.
#![tactic(auto)]

#[cfg(test)]
mod decoding;
#[cfg(test)]
mod encoding;
#[cfg(test)]
mod locals;
#[cfg(test)]
mod operands;
#[cfg(test)]
mod pools;
