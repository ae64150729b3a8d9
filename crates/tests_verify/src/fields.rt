//! Fields that are read and written.

use crate::steps::first_wrong;
use std::test::Fail;

/// getstatic, which in `main` pushes the output of System.
const MAIN: &str = "\
[Ljava/lang/String; | = 178 1 field java/lang/System.out:Ljava/io/PrintStream; = [Ljava/lang/String; | java/io/PrintStream";

#[test]
fn reads_the_output(rt: HostRuntime) -> Result<(), Fail> {
    let main = "app/A.main:([Ljava/lang/String;)V";
    assert_eq!(rt; first_wrong(rt.alloc(), main, MAIN)?, "");
    Ok(())
}

/// getstatic and putstatic. A protected field that is static restricts nothing.
const STATICS: &str = "\
| = 178 2 field app/A.wide:J = | long
| null = 178 2 field app/A.wide:J = none
| = 178 1 field lib/Base.shared:I = | int
| int = 179 1 field app/A.count:I = |
| app/B [I = 179 2 field app/A.any:Ljava/lang/Object; = | app/B
| null = 179 1 field app/A.any:Ljava/lang/Object; = |
| float = 179 1 field app/A.count:I = none
| new@0 = 179 1 field app/A.any:Ljava/lang/Object; = none
| = 179 1 field app/A.count:I = none";

#[test]
fn types_statics(rt: HostRuntime) -> Result<(), Fail> {
    assert_eq!(rt; first_wrong(rt.alloc(), "app/A.run", STATICS)?, "");
    Ok(())
}

/// getfield and putfield.
const OBJECTS: &str = "\
| app/A = 180 2 field app/A.wide:J = | long
| app/B = 180 2 field app/A.wide:J = | long
| null = 180 2 field app/A.wide:J = | long
| app/A = 180 1 field app/A.wide:J = none
| java/lang/Object = 180 2 field app/A.wide:J = none
| new@0 = 180 2 field app/A.wide:J = none
| this! = 180 2 field app/A.wide:J = none
| int = 180 2 field app/A.wide:J = none
| = 180 2 field app/A.wide:J = none
| int app/B long = 181 4 field app/A.wide:J = | int
| null long = 181 3 field app/A.wide:J = |
| app/A double = 181 3 field app/A.wide:J = none
| lib/Base long = 181 3 field app/A.wide:J = none
| new@0 long = 181 3 field app/A.wide:J = none
| this int! = 181 2 field app/A.near:I = none
| long = 181 3 field app/A.wide:J = none
| app/A = 181 3 field app/A.wide:J = none";

#[test]
fn types_fields(rt: HostRuntime) -> Result<(), Fail> {
    assert_eq!(rt; first_wrong(rt.alloc(), "app/A.run", OBJECTS)?, "");
    Ok(())
}

/// A protected field of a superclass in another package: the receiver is of the current class.
const PROTECTED: &str = "\
| app/A = 180 1 field lib/Base.kept:I = | int
| app/B = 180 1 field app/A.kept:I = | int
| null = 180 1 field lib/Base.kept:I = | int
| lib/Base = 180 1 field lib/Base.kept:I = none
| lib/Base = 180 1 field lib/Base.open:I = | int
| app/A int = 181 2 field lib/Base.kept:I = |
| null int = 181 2 field lib/Base.kept:I = |
| lib/Base int = 181 2 field lib/Base.kept:I = none
| lib/Base int = 181 2 field lib/Base.open:I = |";

/// The same, and one of a superclass in this package, whose receiver may be of that class.
const BELOW: &str = "\
| app/B = 180 1 field app/A.kept:I = | int
| app/A = 180 1 field app/A.kept:I = none
| app/A int = 181 2 field app/A.kept:I = none
| app/A = 180 1 field app/A.near:I = | int
| app/A int = 181 2 field app/A.near:I = |";

#[test]
fn restricts_protected_fields(rt: HostRuntime) -> Result<(), Fail> {
    assert_eq!(rt; first_wrong(rt.alloc(), "app/A.run", PROTECTED)?, "");
    assert_eq!(rt; first_wrong(rt.alloc(), "app/B.run", BELOW)?, "");
    Ok(())
}

/// In a constructor, before its receiver is initialised: a field that the class declares itself may be written,
/// whatever class the reference names.
const EARLY: &str = "\
this | this int! = 181 2 field app/A.near:I = this |!
this | this int! = 181 2 field app/B.near:I = this |!
this | this float! = 181 2 field app/A.near:I = none
this | this int! = 181 2 field lib/Base.open:I = none
this | this int! = 181 2 field app/A.kept:I = none
this | app/A int! = 181 2 field app/A.near:I = this |!
this | this! = 180 1 field app/A.near:I = none
| new@0 int = 181 2 field app/A.near:I = none";

#[test]
fn writes_own_fields_early(rt: HostRuntime) -> Result<(), Fail> {
    assert_eq!(rt; first_wrong(rt.alloc(), "app/A.<init>", EARLY)?, "");
    Ok(())
}
