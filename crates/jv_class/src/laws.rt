//! Laws of the definitions that the contracts cite. Each function does nothing, and its contract is the
//! law.

ghost use Rattle.std.specs.Prelude.{◌≡◌, ◌++◌, [], ℕ, List};
ghost use Rattle.jv_class.specs.declared.class_file.ClassFile.{ClassFile};
ghost use Rattle.jv_class.specs.ClassTexts.{IsClass, ClassText};
ghost use Rattle.jv_class.specs.Writing.{IsWritten};

/// Bytes are the text of one class, and a class has one text.
pub fn classes_have_one_text()
    ensures class { (bytes : List ℕ) (c d : ClassFile) → ClassText c bytes → ClassText d bytes → c ≡ d }
    ensures text { (a b : List ℕ) (c : ClassFile) → ClassText c a → ClassText c b → a ≡ b }
{}

/// No text of a class begins another one's.
pub fn class_fronts_agree()
    ensures { (c d : ClassFile) (bytes more : List ℕ) → ClassText c bytes → ClassText d (bytes ++ more) → more ≡ [] }
{}

/// A class that is written is the one that is read back, and one that was read is written as it was.
pub fn classes_go_both_ways()
    ensures back { (c d : ClassFile) (bytes : List ℕ) → IsClass c → IsWritten c bytes → ClassText d bytes → c ≡ d }
    ensures again { (c : ClassFile) (bytes read : List ℕ) → ClassText c read → IsWritten c bytes → bytes ≡ read }
{}
