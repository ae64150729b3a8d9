//! What every world is asked for: its core classes, and the initialisers that a class leads to.

use av_conditions::{initialisers_of, is_as_core};
use jv_world::World;
use std::alloc::Global;
use std::test::Fail;
use tests_shapes::{Asked, are_methods, class_of, first_wrong, shape_of};
use tests_text::word;

/// Classes, and whether each is as a core class has to be.
const CORE: &str = "\
java/lang/Object,C,,+.<init>,#.finalize yes
java/lang/Object,C,,#.finalize,-.m,+.<init> yes
java/lang/Object,C,,+.<init> no
java/lang/Object,C,,#.finalize no
java/lang/Object,C,,+.<init>:(I)V,#.finalize no
java/lang/Object,C,,+.<init>,#.finalize:()I no
java/lang/Object,C,,-.<init>,#.finalize no
java/lang/Object,C,,+.<init>,#sfinalize no
java/lang/Object,A,,+.<init>,#afinalize no
java/lang/Object,I,,+.<init>,#.finalize no
java/lang/Throwable,C yes
java/lang/Throwable,I no
java/lang/String,F yes
java/lang/String,I no
java/lang/Class,F yes
java/lang/Class,I no
java/lang/Cloneable,I yes
java/lang/Cloneable,C no
java/io/Serializable,I yes
java/io/Serializable,C no
a/C,C yes
a/I,I yes";

/// Whether the class of a line is told as it must be.
fn is_told(alloc: Global, line: &str) -> Result<bool, Fail> {
    let shape = shape_of(alloc, word(line, 0))?;
    Ok(is_as_core(&shape) == (word(line, 1) == "yes"))
}

#[test]
fn tells_core_classes(rt: HostRuntime) -> Result<(), Fail> {
    for line in CORE.lines() {
        assert!(rt; is_told(rt.alloc(), line)?, "at {line}");
    }
    Ok(())
}

/// Worlds, each with a class, and the initialisers of it, its superclasses and its superinterfaces, where these are
/// of the application.
const INITIALISERS: &str = "\
a/C,C = a/C = none
a/C,C,,~s<clinit> = a/C = a/C.<clinit>
a/P,C,,~s<clinit> a/I,I,,~s<clinit> a/J,I,,a/I,~s<clinit> a/C,C,a/P,a/J,~s<clinit> = a/C = a/C.<clinit> a/P.<clinit> a/I.<clinit> a/J.<clinit>
a/P,C,,~s<clinit> a/C,C,a/P = a/C = a/P.<clinit>
a/P,C,,~s<clinit> a/C,C,a/P,~s<clinit> = a/P = a/P.<clinit>
lib/P,C,,~s<clinit> a/C,C,lib/P,~s<clinit> = a/C = a/C.<clinit>
a/C,C,,~.<clinit> = a/C = none
a/C,C,,~s<clinit>:(I)V = a/C = none";

/// The initialisers of a class.
struct Initialisers;

impl Asked for Initialisers {
    fn is_answered(
        &self,
        alloc: Global,
        world: &World,
        asked: &str,
        wanted: &str,
    ) -> Result<bool, Fail> {
        let c = class_of(alloc, world, asked)?;
        are_methods(alloc, world, &initialisers_of(alloc, world, c)?, wanted)
    }
}

#[test]
fn finds_initialisers(rt: HostRuntime) -> Result<(), Fail> {
    assert_eq!(rt; first_wrong(rt.alloc(), &Initialisers, INITIALISERS)?, "");
    Ok(())
}
