//! Words that are moved on the stack, whatever they hold.

use crate::steps::first_wrong;
use std::test::Fail;

/// pop, pop2, dup, dup_x1, dup_x2, dup2, dup2_x1, dup2_x2 and swap. None of them splits a long or a double.
const MOVES: &str = "\
| float int = 87 2 = | float
| new@0 = 87 1 = |
| long = 87 2 = none
| = 87 1 = none
| app/A int null = 88 3 = | app/A
| long = 88 2 = |
| long int = 88 3 = none
| int = 88 2 = none
this | this! = 89 2 = this | this this!
| new@0 = 89 2 = | new@0 new@0
| int = 89 1 = none
| long = 89 4 = none
| = 89 1 = none
| int null = 90 3 = | null int null
| int null = 90 2 = none
| long int = 90 4 = none
| int long = 90 4 = none
| int = 90 4 = none
| int float null = 91 4 = | null int float null
| long null = 91 4 = | null long null
| long null = 91 3 = none
| int null = 91 4 = none
| long int null = 91 5 = none
| int float = 92 4 = | int float int float
| double = 92 4 = | double double
| double = 92 3 = none
| long int = 92 5 = none
| int = 92 4 = none
| int float null = 93 5 = | float null int float null
| int long = 93 5 = | long int long
| int long = 93 4 = none
| long double = 93 8 = none
| long int float = 93 8 = none
| int float = 93 8 = none
| int float null app/A = 94 6 = | null app/A int float null app/A
| int float long = 94 6 = | long int float long
| long int float = 94 6 = | int float long int float
| long double = 94 6 = | double long double
| long double = 94 5 = none
| int long = 94 6 = none
| int float null = 94 6 = none
| int null = 95 2 = | null int
this | new@0 this! = 95 2 = this | this new@0!
| long int = 95 3 = none
| long = 95 2 = none
| int = 95 2 = none";

#[test]
fn moves_words(rt: HostRuntime) -> Result<(), Fail> {
    assert_eq!(rt; first_wrong(rt.alloc(), "app/A.run", MOVES)?, "");
    Ok(())
}
