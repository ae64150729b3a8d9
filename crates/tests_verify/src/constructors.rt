//! Constructors that are called, by invokespecial.

use crate::steps::first_wrong;
use std::test::Fail;

/// On what a `new` of `lib/Base` made at 0. A protected constructor restricts nothing.
const MADE: &str = "\
new@0 new@9 | new@0 new@0 = 183 2 method lib/Base.<init> = lib/Base new@9 | lib/Base
this | new@0! = 183 1 method lib/Base.<init> = this |!
| new@0 float = 183 2 method lib/Base.<init>:(F)V = |
| new@0 int = 183 2 method lib/Base.<init>:(F)V = none
| new@0 = 183 1 method lib/Base.<init>:()I = none
| new@0 = 183 1 method app/A.<init> = none
| new@3 = 183 1 method lib/Base.<init> = none
| lib/Base = 183 1 method lib/Base.<init> = none
| null = 183 1 method lib/Base.<init> = none
| int = 183 1 method lib/Base.<init> = none
| = 183 1 method lib/Base.<init> = none";

#[test]
fn initialises_new_objects(rt: HostRuntime) -> Result<(), Fail> {
    assert_eq!(rt; first_wrong(rt.alloc(), "app/A.run", MADE)?, "");
    Ok(())
}

/// On the receiver of a constructor, which is of the current class afterwards.
const THIS: &str = "\
this int | this this! = 183 2 method lib/Base.<init> = app/A int | app/A
this | this long! = 183 3 method app/A.<init>:(J)V = app/A |
this new@0 | this! = 183 1 method lib/Base.<init> = app/A new@0 |
this | this int! = 183 3 method app/A.<init>:(J)V = none
this | this! = 183 1 method java/lang/Object.<init> = none
this | this! = 183 1 method app/B.<init> = none
this | this! = 183 1 method lib/Base.<init>:()I = none
app/A | app/A = 183 1 method lib/Base.<init> = none";

#[test]
fn initialises_the_receiver(rt: HostRuntime) -> Result<(), Fail> {
    assert_eq!(rt; first_wrong(rt.alloc(), "app/A.<init>", THIS)?, "");
    Ok(())
}
