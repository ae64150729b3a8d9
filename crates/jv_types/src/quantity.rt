ghost use Rattle.std.specs.Prelude.{◌≡◌};
ghost use Rattle.jv_types.specs.Quantities.{quantity_name, quantity_limit};

/// What is counted of an input or of an answer, and has a limit.
#[derive(Clone, Copy, Debug, PartialEq, Eq, PartialOrd, Ord)]
pub enum Quantity {
    /// Files listed under the application's root.
    Files,
    /// Bytes of one class file.
    FileBytes,
    /// Bytes of all files of the application.
    AppBytes,
    /// Classes that are collected from the library.
    Classes,
    /// Bytes of the files of all collected classes.
    LibraryBytes,
    /// Instructions of the application.
    Instructions,
    /// Methods of one class of the stand-in.
    Methods,
    /// The greatest index of the constant pool of one class of the stand-in.
    Pool,
    /// Bytes of all files of the stand-in.
    StandinBytes,
    /// Labels of the allocations.
    Labels,
    /// Facts of the least set.
    Facts,
}

impl Quantity {
    /// The name that is printed, in ASCII.
    pub fn name(self) -> &'static str
        ensures { result.now ≡ quantity_name self }
    {
        match self {
            Quantity::Files => "files",
            Quantity::FileBytes => "file-bytes",
            Quantity::AppBytes => "app-bytes",
            Quantity::Classes => "classes",
            Quantity::LibraryBytes => "library-bytes",
            Quantity::Instructions => "instructions",
            Quantity::Methods => "methods",
            Quantity::Pool => "pool",
            Quantity::StandinBytes => "standin-bytes",
            Quantity::Labels => "labels",
            Quantity::Facts => "facts",
        }
    }

    /// The greatest count that is within the limit.
    pub fn limit(self) -> u64
        ensures { result ≡ quantity_limit self }
    {
        match self {
            Quantity::Files => 20_000,
            Quantity::FileBytes => 16_777_216,
            Quantity::AppBytes => 67_108_864,
            Quantity::Classes => 8_000,
            Quantity::LibraryBytes => 268_435_456,
            Quantity::Instructions => 1_000_000,
            Quantity::Methods => 65_535,
            Quantity::Pool => 65_534,
            Quantity::StandinBytes => 268_435_456,
            Quantity::Labels => 1_000_000,
            Quantity::Facts => 100_000_000,
        }
    }
}
