//! Methods that are called, but constructors.

use crate::steps::first_wrong;
use std::test::Fail;

/// invokevirtual.
const VIRTUAL: &str = "\
| app/A int long = 182 4 method app/A.put:(IJ)Z = | int
| app/B int long = 182 4 method app/A.put:(IJ)Z = | int
| null int long = 182 4 method app/A.put:(IJ)Z = | int
| lib/Base int long = 182 4 method app/A.put:(IJ)Z = none
| new@0 int long = 182 4 method app/A.put:(IJ)Z = none
| app/A float long = 182 4 method app/A.put:(IJ)Z = none
| app/A int double = 182 4 method app/A.put:(IJ)Z = none
| int long = 182 4 method app/A.put:(IJ)Z = none
| int app/A = 182 3 method app/A.number:()J = | int long
| app/A = 182 1 method app/A.number:()J = none
| app/A = 182 1 method app/A.run = |
this | this! = 182 1 method app/A.run = none
| app/A java/lang/Object = 182 2 method app/A.take:(Ljava/lang/Runnable;)V = |
| app/A = 182 1 method app/A.<init> = none
| app/A = 182 1 method app/A.<clinit> = none";

/// A protected method of a superclass in another package: the receiver is of the current class, or an array for
/// `clone` alone.
const PROTECTED: &str = "\
| app/A int = 182 2 method lib/Base.held:(I)V = |
| app/B int = 182 2 method app/A.held:(I)V = |
| null int = 182 2 method lib/Base.held:(I)V = |
| lib/Base int = 182 2 method lib/Base.held:(I)V = none
| lib/Base = 182 1 method lib/Base.free = |
| [I = 182 1 method [I.clone:()Ljava/lang/Object; = | java/lang/Object
| [Lapp/A; = 182 1 method java/lang/Object.clone:()Ljava/lang/Object; = | java/lang/Object
| app/A = 182 1 method java/lang/Object.clone:()Ljava/lang/Object; = | java/lang/Object
| java/lang/Object = 182 1 method java/lang/Object.clone:()Ljava/lang/Object; = none
| [I = 182 1 method java/lang/Object.finalize = none
| [I = 182 1 method java/lang/Object.hashCode:()I = | int";

#[test]
fn calls_virtual_methods(rt: HostRuntime) -> Result<(), Fail> {
    assert_eq!(rt; first_wrong(rt.alloc(), "app/A.run", VIRTUAL)?, "");
    assert_eq!(rt; first_wrong(rt.alloc(), "app/A.run", PROTECTED)?, "");
    Ok(())
}

/// invokespecial: the receiver is of the current class, which is below the named one.
const SPECIAL: &str = "\
| app/A int = 183 2 method lib/Base.held:(I)V = |
| app/B int = 183 2 method lib/Base.held:(I)V = |
| null int = 183 2 method lib/Base.held:(I)V = |
| app/A = 183 1 imethod java/lang/Runnable.run = |
| app/A = 183 2 method app/A.number:()J = | long
| app/A = 183 1 method app/A.number:()J = none
| lib/Base int = 183 2 method lib/Base.held:(I)V = none
| app/A float = 183 2 method lib/Base.held:(I)V = none
| int = 183 2 method lib/Base.held:(I)V = none
| app/B = 183 1 method app/B.run = none
| java/lang/Object = 183 1 imethod java/lang/Runnable.run = none
this | this! = 183 1 method app/A.run = none
| app/A = 183 1 method app/A.<clinit> = none";

#[test]
fn calls_special_methods(rt: HostRuntime) -> Result<(), Fail> {
    assert_eq!(rt; first_wrong(rt.alloc(), "app/A.run", SPECIAL)?, "");
    Ok(())
}

/// invokestatic.
const STATIC: &str = "\
| null int long = 184 4 method app/A.sum:(IJ)D = | null double
| float long = 184 4 method app/A.sum:(IJ)D = none
| int int = 184 4 method app/A.sum:(IJ)D = none
| long = 184 4 method app/A.sum:(IJ)D = none
| app/B = 184 1 method app/A.of:(Lapp/A;)Lapp/A; = | app/A
| lib/Base = 184 1 method app/A.of:(Lapp/A;)Lapp/A; = none
| new@0 = 184 1 method app/A.of:(Lapp/A;)Lapp/A; = none
| = 184 1 method app/A.big:()J = none
| = 184 0 method app/A.<init> = none
| = 184 0 method app/A.<clinit> = none";

#[test]
fn calls_static_methods(rt: HostRuntime) -> Result<(), Fail> {
    assert_eq!(rt; first_wrong(rt.alloc(), "app/A.run", STATIC)?, "");
    Ok(())
}

/// invokeinterface: each object passes for one of the interface, and an array doesn't.
const INTERFACE: &str = "\
| app/A int = 185 2 imethod app/I.get:(I)Ljava/lang/Object; = | java/lang/Object
| java/lang/Object int = 185 2 imethod app/I.get:(I)Ljava/lang/Object; = | java/lang/Object
| null int = 185 2 imethod app/I.get:(I)Ljava/lang/Object; = | java/lang/Object
| [I int = 185 2 imethod app/I.get:(I)Ljava/lang/Object; = none
| new@0 int = 185 2 imethod app/I.get:(I)Ljava/lang/Object; = none
| app/A float = 185 2 imethod app/I.get:(I)Ljava/lang/Object; = none
| int = 185 2 imethod app/I.get:(I)Ljava/lang/Object; = none
| app/A = 185 1 imethod app/I.big:()J = none
| app/A = 185 1 imethod app/I.<init> = none
| app/A = 185 1 imethod app/I.<clinit> = none";

#[test]
fn calls_interface_methods(rt: HostRuntime) -> Result<(), Fail> {
    assert_eq!(rt; first_wrong(rt.alloc(), "app/A.run", INTERFACE)?, "");
    Ok(())
}
