//! Laws of the definitions that the contracts cite. Each function does nothing, and its contract is the
//! law.

ghost use Rattle.std.specs.Prelude.{◌≡◌, ◌<◌, ◌^◌, ◌++◌, ℕ, List, length, Some, None};
ghost use Rattle.jv_bytes.specs.Numbers.{number_text};
ghost use Rattle.jv_read.specs.Reading.{number_at, bytes_at};

/// A number is read exactly where its text stands, whatever follows.
pub fn numbers_are_read()
    ensures reads { (n number : ℕ) (rest : List ℕ) → number < 256 ^ n → number_at n (number_text n number ++ rest) ≡ Some (number, rest) }
    ensures spelled { (n number : ℕ) (bytes rest : List ℕ) → number_at n bytes ≡ Some (number, rest) → bytes ≡ number_text n number ++ rest }
    ensures fits { (n number : ℕ) (bytes rest : List ℕ) → number_at n bytes ≡ Some (number, rest) → number < 256 ^ n }
    ensures refuses { (n number : ℕ) (bytes rest : List ℕ) → number_at n bytes ≡ None → number < 256 ^ n → bytes ≡ number_text n number ++ rest → ⊥ }
{}

/// As many bytes are read exactly where as many stand.
pub fn bytes_are_read()
    ensures reads { (text rest : List ℕ) → bytes_at (length text) (text ++ rest) ≡ Some (text, rest) }
    ensures spelled { (n : ℕ) (bytes text rest : List ℕ) → bytes_at n bytes ≡ Some (text, rest) → bytes ≡ text ++ rest }
    ensures len { (n : ℕ) (bytes text rest : List ℕ) → bytes_at n bytes ≡ Some (text, rest) → length text ≡ n }
{}
