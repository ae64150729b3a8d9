ghost use Rattle.std.specs.Prelude.{◌≡◌};
ghost use Rattle.jv_types.specs.Rules.{rule_number, rule_name};

/// Why an input is refused.
#[derive(Clone, Copy, Debug, PartialEq, Eq, PartialOrd, Ord)]
pub enum Rule {
    /// The file is no class file (JVMS 4.1).
    NotClass,
    /// The major version is outside the accepted ones, or an old file's initialiser isn't static.
    Version,
    /// The class states another name than the file.
    NameMismatch,
    /// The library has a class of that name too.
    InBoth,
    /// The name belongs to the platform or to the stand-in.
    ReservedName,
    /// A library class that is needed has no file.
    MissingClass,
    /// A library class names a class of the application.
    LibraryNamesApplication,
    /// A class is its own proper supertype.
    Circular,
    /// A superclass or superinterface is of the wrong kind, or missing.
    SuperKind,
    /// A final method is overridden.
    FinalOverridden,
    /// A reference isn't found or is of the wrong kind (JVMS 5.4.3).
    Unresolved,
    /// A class or member isn't accessible (JVMS 5.4.4).
    NoAccess,
    /// A call site or constant that is linked at run time.
    InvokeDynamic,
    /// A call of a member that looks up or calls others by name.
    Reflection,
    /// A native method of the application.
    NativeMethod,
    /// `jsr` or `ret`.
    Subroutine,
    /// The code doesn't decode (JVMS 4.9.1).
    CodeForm,
    /// A stack map's frame is malformed (JVMS 4.7.4).
    StackMap,
    /// No table of frames types the method (JVMS 4.10.1).
    TypeRule,
    /// There is no main class with its own public static `main`.
    NoMain,
    /// A library class's file is malformed.
    LibraryForm,
    /// A form of input that isn't built yet.
    NotBuiltYet,
}

impl Rule {
    /// The number that a refusal prints.
    pub fn number(self) -> u8
        ensures { result ≡ rule_number self }
    {
        match self {
            Rule::NotClass => 1,
            Rule::Version => 2,
            Rule::NameMismatch => 3,
            Rule::InBoth => 4,
            Rule::ReservedName => 5,
            Rule::MissingClass => 6,
            Rule::LibraryNamesApplication => 7,
            Rule::Circular => 8,
            Rule::SuperKind => 9,
            Rule::FinalOverridden => 10,
            Rule::Unresolved => 11,
            Rule::NoAccess => 12,
            Rule::InvokeDynamic => 13,
            Rule::Reflection => 14,
            Rule::NativeMethod => 15,
            Rule::Subroutine => 16,
            Rule::CodeForm => 17,
            Rule::StackMap => 18,
            Rule::TypeRule => 19,
            Rule::NoMain => 20,
            Rule::LibraryForm => 21,
            Rule::NotBuiltYet => 22,
        }
    }

    /// The name that a refusal prints, in ASCII.
    pub fn name(self) -> &'static str
        ensures { result.now ≡ rule_name self }
    {
        match self {
            Rule::NotClass => "NotClass",
            Rule::Version => "Version",
            Rule::NameMismatch => "NameMismatch",
            Rule::InBoth => "InBoth",
            Rule::ReservedName => "ReservedName",
            Rule::MissingClass => "MissingClass",
            Rule::LibraryNamesApplication => "LibraryNamesApplication",
            Rule::Circular => "Circular",
            Rule::SuperKind => "SuperKind",
            Rule::FinalOverridden => "FinalOverridden",
            Rule::Unresolved => "Unresolved",
            Rule::NoAccess => "NoAccess",
            Rule::InvokeDynamic => "InvokeDynamic",
            Rule::Reflection => "Reflection",
            Rule::NativeMethod => "NativeMethod",
            Rule::Subroutine => "Subroutine",
            Rule::CodeForm => "CodeForm",
            Rule::StackMap => "StackMap",
            Rule::TypeRule => "TypeRule",
            Rule::NoMain => "NoMain",
            Rule::LibraryForm => "LibraryForm",
            Rule::NotBuiltYet => "NotBuiltYet",
        }
    }
}
