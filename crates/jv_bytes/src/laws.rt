//! Laws of the definitions that the contracts cite. Each function does nothing, and its contract is the
//! law.

ghost use Rattle.std.specs.Prelude.{◌≡◌, ◌<◌, ◌^◌, ◌++◌, ℕ, List, length};
ghost use Rattle.jv_bytes.specs.Numbers.{IsByteString, IsNumberText, number_in, number_text};
ghost use Rattle.jv_bytes.specs.Utf8.{IsUnitText, IsText};

use byteorder::{BigEndian, ByteOrder};

/// A number is what `BigEndian` reads.
pub fn numbers_are_big_endian()
    ensures { (n : ℕ) (bytes : List ℕ) → number_in n bytes ≡ ⟦<BigEndian as ByteOrder>⟧.number_of n bytes }
{}

/// Two strings of one length, as 1, 2 or 4, that are read as one number are equal.
pub fn numbers_have_one_text()
    ensures { (n number : ℕ) (a b : List ℕ) → IsNumberText n a number → IsNumberText n b number → a ≡ b }
{}

/// The text of a number is read as the number, and no other text of that length is.
pub fn number_text_is_read()
    ensures read { (n number : ℕ) → number < 256 ^ n → IsNumberText n (number_text n number) number }
    ensures only { (n number : ℕ) (bytes : List ℕ) → IsNumberText n bytes number → bytes ≡ number_text n number }
    ensures fits { (n number : ℕ) (bytes : List ℕ) → IsNumberText n bytes number → number < 256 ^ n }
{}

/// A number is read from the front whatever follows it, so two readings of one text agree.
pub fn number_fronts_agree()
    ensures { (n a b : ℕ) (x y : List ℕ) → a < 256 ^ n → b < 256 ^ n → number_text n a ++ x ≡ number_text n b ++ y → (a ≡ b) × (x ≡ y) }
{}

/// A UTF-16 unit has a spelling, and only one.
pub fn units_have_one_text()
    ensures some { (unit : ℕ) → unit < 2 ^ 16 → (a : List ℕ) × IsUnitText a unit }
    ensures one { (unit : ℕ) (a b : List ℕ) → IsUnitText a unit → IsUnitText b unit → a ≡ b }
    ensures fits { (unit : ℕ) (a : List ℕ) → IsUnitText a unit → IsByteString a × (unit < 2 ^ 16) }
{}

/// No spelling of a unit is a front of another's.
pub fn unit_fronts_agree()
    ensures { (u v : ℕ) (a b x y : List ℕ) → IsUnitText a u → IsUnitText b v → a ++ x ≡ b ++ y → (a ≡ b) × (u ≡ v) × (x ≡ y) }
{}

/// A text has one spelling and a spelling has one text, so writing what was read gives the bytes again,
/// and reading what was written gives the units again.
pub fn texts_have_one_spelling()
    ensures spelling { (units a b : List ℕ) → IsText a units → IsText b units → a ≡ b }
    ensures reading { (bytes us vs : List ℕ) → IsText bytes us → IsText bytes vs → us ≡ vs }
{}

/// Where the spelling of a text is a front of another's, the text is a front of the other.
pub fn text_fronts_agree()
    ensures { (us vs a x : List ℕ) → IsText a us → IsText (a ++ x) vs → (more : List ℕ) × (vs ≡ us ++ more) × IsText x more }
{}
