//! Objects that are made, asked for their class, compared and thrown.

use crate::steps::first_wrong;
use std::test::Fail;

/// new, of which the object is named by its offset.
const MADE: &str = "\
| = 187 1 class app/B = | new@3
this |! = 187 1 class app/B = this | new@3!
new@3 new@0 | new@0 = 187 2 class app/B = top new@0 | new@0 new@3
| new@3 = 187 2 class app/B = none
| null = 187 1 class app/B = none
| = 187 1 class [I = none";

#[test]
fn makes_objects(rt: HostRuntime) -> Result<(), Fail> {
    assert_eq!(rt; first_wrong(rt.alloc(), "app/A.run", MADE)?, "");
    Ok(())
}

/// checkcast, instanceof and athrow.
const CHECKED: &str = "\
| java/lang/Object = 192 1 class app/A = | app/A
| app/A = 192 1 class java/lang/Runnable = | java/lang/Runnable
| [I = 192 1 class [[J = | [[J
| null = 192 1 class app/A = | app/A
| new@0 = 192 1 class app/A = none
| int = 192 1 class app/A = none
| = 192 1 class app/A = none
| java/lang/Runnable = 193 1 class app/A = | int
| null = 193 1 class [I = | int
this | this! = 193 1 class app/A = none
| float = 193 1 class app/A = none
| = 193 1 class app/A = none
| java/lang/Throwable = 191 1 = |
| java/lang/Exception = 191 1 = |
| null = 191 1 = |
| app/A = 191 1 = none
| java/lang/Object = 191 1 = none
| java/lang/Runnable = 191 1 = none
| new@0 = 191 1 = none
| = 191 1 = none";

#[test]
fn checks_objects(rt: HostRuntime) -> Result<(), Fail> {
    assert_eq!(rt; first_wrong(rt.alloc(), "app/A.run", CHECKED)?, "");
    Ok(())
}

/// if_acmpeq, if_acmpne, ifnull, ifnonnull, monitorenter and monitorexit, on references initialised or not.
const TAKEN: &str = "\
| int app/A null = 165 3 jump 0 = | int
| new@0 [I = 166 2 jump 0 = |
this | this this! = 165 2 jump 0 = this |!
| int null = 165 2 jump 0 = none
| null int = 166 2 jump 0 = none
| null = 165 2 jump 0 = none
| new@0 = 198 1 jump 0 = |
| [[I = 199 1 jump 0 = |
| int = 198 1 jump 0 = none
| = 199 1 jump 0 = none
this | this! = 194 1 = this |!
| null = 195 1 = |
| float = 194 1 = none
| long = 195 2 = none
| = 194 1 = none";

#[test]
fn takes_references(rt: HostRuntime) -> Result<(), Fail> {
    assert_eq!(rt; first_wrong(rt.alloc(), "app/A.run", TAKEN)?, "");
    Ok(())
}
