//! Constants, and references in local variables.

use crate::steps::first_wrong;
use std::test::Fail;

/// aconst_null, ldc and ldc_w.
const CONSTANTS: &str = "\
| = 1 1 = | null
int |! = 1 1 = int | null!
| null = 1 1 = none
| = 18 1 load int = | int
| = 18 1 load float = | float
| = 18 1 load text = | java/lang/String
| = 18 1 load app/A = | java/lang/Class
| = 19 1 load [I = | java/lang/Class
| = 18 2 load long = none
| = 18 2 load double = none
| = 18 2 load handle = none
| = 18 2 load type = none
| int = 18 1 load text = none";

#[test]
fn loads_constants(rt: HostRuntime) -> Result<(), Fail> {
    assert_eq!(rt; first_wrong(rt.alloc(), "app/A.run", CONSTANTS)?, "");
    Ok(())
}

/// aload, and aload_0 to aload_3.
const LOADS: &str = "\
int app/A | = 25 1 local 1 = int app/A | app/A
new@0 | = 42 1 = new@0 | new@0
this |! = 42 1 = this | this!
int null | = 43 1 = int null | null
long [[I | = 44 1 = long [[I | [[I
long int app/A | int = 45 2 = long int app/A | int app/A
int | = 42 1 = none
top | = 42 1 = none
long | = 43 1 = none
app/A | = 43 1 = none
app/A | null = 42 1 = none";

#[test]
fn loads_locals(rt: HostRuntime) -> Result<(), Fail> {
    assert_eq!(rt; first_wrong(rt.alloc(), "app/A.run", LOADS)?, "");
    Ok(())
}

/// astore, and astore_0 to astore_3.
const STORES: &str = "\
int int | app/A = 58 1 local 1 = int app/A |
top | null = 75 1 = null |
this | this! = 75 1 = this |!
int int | int new@0 = 76 2 = int new@0 | int
long | [I = 76 1 = top [I |
long | app/A = 75 1 = app/A top |
int int int int | app/A = 77 1 = int int app/A int |
int int int int | app/A = 78 1 = int int int app/A |
int | int = 75 1 = none
int | long = 75 2 = none
int | = 75 1 = none
int | app/A = 76 1 = none";

#[test]
fn stores_locals(rt: HostRuntime) -> Result<(), Fail> {
    assert_eq!(rt; first_wrong(rt.alloc(), "app/A.run", STORES)?, "");
    Ok(())
}
