//! Items of arrays, and arrays that are made.

use crate::steps::first_wrong;
use std::test::Fail;

/// iaload to saload.
const LOADS: &str = "\
| [I int = 46 2 = | int
| [J int = 47 2 = | long
| [F int = 48 2 = | float
| [D int = 49 2 = | double
| [C int = 52 2 = | int
| [S int = 53 2 = | int
| [B int = 51 2 = | int
| [Z int = 51 2 = | int
| null int = 46 2 = | int
| null int = 47 2 = | long
| null int = 51 2 = | int
| [J int = 46 2 = none
| [[I int = 46 2 = none
| [S int = 52 2 = none
| [C int = 51 2 = none
| [I null = 46 2 = none
| [B float = 51 2 = none
| [I = 46 2 = none
| int = 46 2 = none
| int = 51 2 = none
| [Lapp/A; int = 50 2 = | app/A
| [[I int = 50 2 = | [I
| null int = 50 2 = | null
| [I int = 50 2 = none
| java/lang/Object int = 50 2 = none
| [Lapp/A; float = 50 2 = none
| [Lapp/A; = 50 2 = none
| int = 50 2 = none";

#[test]
fn loads_items(rt: HostRuntime) -> Result<(), Fail> {
    assert_eq!(rt; first_wrong(rt.alloc(), "app/A.run", LOADS)?, "");
    Ok(())
}

/// iastore to sastore. What aastore stores may be any object.
const STORES: &str = "\
| [I int int = 79 3 = |
| [J int long = 80 4 = |
| [F int float = 81 3 = |
| [D int double = 82 4 = |
| [C int int = 85 3 = |
| [S int int = 86 3 = |
| [B int int = 84 3 = |
| [Z int int = 84 3 = |
| null int int = 79 3 = |
| null int int = 84 3 = |
| [S int int = 79 3 = none
| [I int int = 84 3 = none
| [I float int = 79 3 = none
| [B float int = 84 3 = none
| [I int float = 79 3 = none
| [B int null = 84 3 = none
| [I int long = 80 4 = none
| int int = 79 3 = none
| [Lapp/A; int app/B = 83 3 = |
| [Ljava/lang/String; int app/A = 83 3 = |
| [[I int [J = 83 3 = |
| null int null = 83 3 = |
| [I int app/A = 83 3 = none
| app/A int app/A = 83 3 = none
| [Lapp/A; float app/A = 83 3 = none
| [Lapp/A; int int = 83 3 = none
| [Lapp/A; int new@0 = 83 3 = none
| int app/A = 83 3 = none";

#[test]
fn stores_items(rt: HostRuntime) -> Result<(), Fail> {
    assert_eq!(rt; first_wrong(rt.alloc(), "app/A.run", STORES)?, "");
    Ok(())
}

/// newarray, anewarray, multianewarray and arraylength.
const MADE: &str = "\
| int = 188 1 prim Z = | [Z
| int = 188 1 prim C = | [C
| int = 188 1 prim F = | [F
| int = 188 1 prim D = | [D
| int = 188 1 prim B = | [B
| int = 188 1 prim S = | [S
| int = 188 1 prim I = | [I
| int = 188 1 prim J = | [J
| float = 188 1 prim I = none
| = 188 1 prim I = none
| int = 189 1 class app/A = | [Lapp/A;
| int = 189 1 class [I = | [[I
| null = 189 1 class app/A = none
| = 189 1 class app/A = none
| int int = 197 2 multi [[I:2 = | [[I
| app/A int = 197 2 multi [[[Lapp/A;:1 = | app/A [[[Lapp/A;
| float int = 197 2 multi [[I:2 = none
| int float = 197 2 multi [[I:2 = none
| int = 197 2 multi [[I:2 = none
| [I = 190 1 = | int
| [[Lapp/A; = 190 1 = | int
| null = 190 1 = | int
| java/lang/Object = 190 1 = none
| int = 190 1 = none
| = 190 1 = none";

#[test]
fn makes_arrays(rt: HostRuntime) -> Result<(), Fail> {
    assert_eq!(rt; first_wrong(rt.alloc(), "app/A.run", MADE)?, "");
    Ok(())
}
