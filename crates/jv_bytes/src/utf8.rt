ghost use Rattle.std.specs.Prelude.{◌≡◌, ℕ, List, [], ◌∷◌, ◌++◌, IfOk, OnOk, IfSome, IfNone};
ghost use Rattle.jv_bytes.specs.Utf8.{IsUnitText, Begins, IsText};
ghost use Rattle.jv_bytes.specs.declared.utf8.BadText.TheVariants.{Memory};

use std::alloc::{AllocError, AllocFailed, Global};

/// Why bytes were not read as a text.
#[derive(Clone, Copy, Debug, PartialEq, Eq)]
pub enum BadText {
    /// The bytes are no modified UTF-8.
    Bad,
    /// Memory is wanting.
    Memory,
}

impl From<AllocError> for BadText {
    ghost from_gives = { λ _ e. e ≡ Memory };

    fn from(_e: AllocError) -> BadText {
        BadText::Memory
    }
}

impl<T: Drop> From<AllocFailed<T>> for BadText {
    ghost from_gives = { λ _ e. e ≡ Memory };

    fn from(_e: AllocFailed<T>) -> BadText {
        BadText::Memory
    }
}

/// The unit that this byte spells, where it does.
fn one_byte(a: u8) -> Option<u16>
    ensures found { IfSome result (λ unit. IsUnitText (a ∷ []) unit) }
    ensures none { IfNone result ((unit : ℕ) → IsUnitText (a ∷ []) unit → ⊥) }
{
    if 1 <= a && a < 0x80 {
        Some(u16::from(a))
    } else {
        None
    }
}

/// The unit that these two bytes spell, where they do.
fn two_bytes(a: u8, b: u8) -> Option<u16>
    ensures found { IfSome result (λ unit. IsUnitText (a ∷ b ∷ []) unit) }
    ensures none { IfNone result ((unit : ℕ) → IsUnitText (a ∷ b ∷ []) unit → ⊥) }
{
    if a < 0xc0 || 0xe0 <= a || b < 0x80 || 0xc0 <= b {
        return None;
    }
    let unit = 64 * u16::from(a - 0xc0) + u16::from(b - 0x80);
    if unit == 0 || 0x80 <= unit {
        Some(unit)
    } else {
        None
    }
}

/// The unit that these three bytes spell, where they do.
fn three_bytes(a: u8, b: u8, c: u8) -> Option<u16>
    ensures found { IfSome result (λ unit. IsUnitText (a ∷ b ∷ c ∷ []) unit) }
    ensures none { IfNone result ((unit : ℕ) → IsUnitText (a ∷ b ∷ c ∷ []) unit → ⊥) }
{
    if a < 0xe0 || 0xf0 <= a || b < 0x80 || 0xc0 <= b || c < 0x80 || 0xc0 <= c {
        return None;
    }
    let unit = 4096 * u16::from(a - 0xe0) + 64 * u16::from(b - 0x80) + u16::from(c - 0x80);
    if 0x800 <= unit { Some(unit) } else { None }
}

/// The unit whose spelling the bytes begin with, and the bytes after it.
fn first_unit(bytes: &[u8]) -> Option<(u16, &[u8])>
    ensures found { IfSome result (λ first. Begins bytes.now first.0 first.1.now) }
    ensures none { IfNone result ((unit : ℕ) (rest : List ℕ) → Begins bytes.now unit rest → ⊥) }
{
    let (a, after_a) = bytes.split_first()?;
    if let Some(unit) = one_byte(*a) {
        return Some((unit, after_a));
    }
    let (b, after_b) = after_a.split_first()?;
    if let Some(unit) = two_bytes(*a, *b) {
        return Some((unit, after_b));
    }
    let (c, after_c) = after_b.split_first()?;
    let unit = three_bytes(*a, *b, *c)?;
    Some((unit, after_c))
}

/// The UTF-16 units that the bytes spell in modified UTF-8 (JVMS 4.4.7). The error is `Bad` exactly
/// where the bytes spell none.
pub fn units_of(alloc: Global, bytes: &[u8]) -> Result<Vec<u16>, BadText>
    ensures found { IfOk result (λ units. IsText bytes.now units.items) }
    ensures bad { result ≡ Err BadText.Bad → (units : List ℕ) → IsText bytes.now units → ⊥ }
{
    let mut units = Vec::new(alloc);
    let mut rest = bytes;
    while !rest.is_empty() {
        let Some((unit, after)) = first_unit(rest) else {
            return Err(BadText::Bad);
        };
        units.push(unit)?;
        rest = after;
    }
    Ok(units)
}

/// Adds the spelling of a unit at the end.
fn put_unit(text: &mut Vec<u8>, unit: u16) -> Result<(), AllocError>
    ensures ok { OnOk result ((front : List ℕ) × IsUnitText front unit × (text.new.items ≡ text.old.items ++ front)) }
{
    if 1 <= unit && unit < 0x80 {
        text.push(unit as u8)?;
        Ok(())
    } else if unit < 0x800 {
        text.extend_from_slice(&[0xc0 + (unit / 64) as u8, 0x80 + (unit % 64) as u8])
    } else {
        text.extend_from_slice(&[
            0xe0 + (unit / 4096) as u8,
            0x80 + (unit / 64 % 64) as u8,
            0x80 + (unit % 64) as u8,
        ])
    }
}

/// The spelling of these UTF-16 units in modified UTF-8 (JVMS 4.4.7). Only memory can be wanting.
pub fn text_of(alloc: Global, units: &[u16]) -> Result<Vec<u8>, AllocError>
    ensures { IfOk result (λ text. IsText text.items units.now) }
{
    let mut text = Vec::new(alloc);
    for unit in units {
        put_unit(&mut text, *unit)?;
    }
    Ok(text)
}
