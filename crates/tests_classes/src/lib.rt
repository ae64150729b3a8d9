//! Tests of what stands between the bytes of a class file and its value: plain types, numbers and texts,
//! tables, descriptors, the constant pool, attributes and class files.
#![tactic(auto)]

#[cfg(test)]
mod attr;
#[cfg(test)]
mod bytes;
#[cfg(test)]
mod class;
#[cfg(test)]
mod codes;
#[cfg(test)]
mod desc;
#[cfg(test)]
mod names;
#[cfg(test)]
mod pool;
#[cfg(test)]
mod reading;
#[cfg(test)]
mod table;
#[cfg(test)]
mod types;
#[cfg(test)]
mod values;
