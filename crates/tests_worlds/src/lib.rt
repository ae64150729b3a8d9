//! Tests of worlds of classes and of what stands on them: least sets, subtypes, resolution, access, selection, and
//! what is asked of a world.
#![tactic(auto)]

#[cfg(test)]
mod access;
#[cfg(test)]
mod conditions;
#[cfg(test)]
mod declared;
#[cfg(test)]
mod dimensions;
#[cfg(test)]
mod fields;
#[cfg(test)]
mod fix;
#[cfg(test)]
mod insns;
#[cfg(test)]
mod methods;
#[cfg(test)]
mod references;
#[cfg(test)]
mod selection;
#[cfg(test)]
mod whole;
#[cfg(test)]
mod worlds;
