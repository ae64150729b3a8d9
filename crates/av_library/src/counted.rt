ghost use Rattle.std.specs.Prelude.{◌≡◌, ◌≤◌, None};
ghost use Rattle.av_library.specs.Counting.{counted_after, most_library_bytes, passed_of};

use jv_types::Quantity;

/// What was counted of the files of the names that were answered: how many bytes they have together, and whether one of
/// them has more than a class file may have. Once a limit is passed nothing more is counted.
#[derive(Clone, Copy, Debug, PartialEq, Eq)]
pub struct Counted {
    pub bytes: u64,
    pub long: bool,
}

/// The quantity that passes its limit, or none.
pub fn passed(counted: Counted) -> Option<Quantity>
    ensures { result ≡ passed_of counted }
{
    if counted.long {
        return Some(Quantity::FileBytes);
    }
    if counted.bytes > Quantity::LibraryBytes.limit() {
        return Some(Quantity::LibraryBytes);
    }
    None
}

/// What is counted after a file of so many bytes more, or of more than a class file may have.
pub fn count(before: Counted, length: usize) -> Counted
    requires { passed_of before ≡ None }
    ensures { result ≡ counted_after length before }
{
    let length = length as u64;
    if length > Quantity::FileBytes.limit() {
        return Counted {
            bytes: before.bytes,
            long: true,
        };
    }
    Counted {
        bytes: before.bytes + length,
        long: false,
    }
}
