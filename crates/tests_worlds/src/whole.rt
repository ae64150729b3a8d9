//! Which classes of a list are whole, also where others are broken (JVMS 4.1, 5.3.5).

use jv_types::Shape;
use jv_world::{are_numbered, whole_classes};
use std::alloc::Global;
use std::test::Fail;
use tests_shapes::shapes_of;
use tests_text::part;

/// Classes, and the names of those that are whole, in their order.
const WHOLE: &str = "\
# each class is whole
a/A,C a/B,C,a/A a/C,C,a/B = java/lang/Object a/A a/B a/C
# a supertype that isn't there, at each place of a chain
a/A,C,a/Z a/B,C,a/A a/C,C,a/B = java/lang/Object
a/A,C a/B,C,a/Z a/C,C,a/B = java/lang/Object a/A
a/A,C a/B,C,a/A a/C,C,a/Z = java/lang/Object a/A a/B
a/I,I,,a/Z a/J,I,,a/I a/C,C,,a/J = java/lang/Object
a/I,I a/J,I,,a/Z a/C,C,,a/J = java/lang/Object a/I
a/I,I a/J,I,,a/I a/C,C,,a/J,a/Z = java/lang/Object a/I a/J
java/lang/Object,C,a/Z a/A,C = none
# a class that is its own proper supertype, at each place of a chain
a/A,C,a/A a/B,C,a/A a/C,C,a/B = java/lang/Object
a/A,C a/B,C,a/B a/C,C,a/B = java/lang/Object a/A
a/A,C a/B,C,a/A a/C,C,a/C = java/lang/Object a/A a/B
a/A,C,a/C a/B,C,a/A a/C,C,a/B a/D,C = java/lang/Object a/D
a/A,C a/B,C,a/C a/C,C,a/B a/D,C,a/C = java/lang/Object a/A
a/I,I,,a/J a/J,I,,a/I a/C,C,,a/I = java/lang/Object
# a superclass that is an interface, or final, at each place of a chain
a/I,I a/A,C,a/I a/B,C,a/A a/C,C,a/B = java/lang/Object a/I
a/I,I a/A,C a/B,C,a/I a/C,C,a/B = java/lang/Object a/I a/A
a/I,I a/A,C a/B,C,a/A a/C,C,a/I = java/lang/Object a/I a/A a/B
a/F,F a/A,C,a/F a/B,C,a/A a/C,C,a/B = java/lang/Object a/F
a/A,C a/F,F,a/A a/C,C,a/F = java/lang/Object a/A a/F
# a superinterface that is a class, at each place of a chain
a/A,C a/I,I,,a/A a/J,I,,a/I a/C,C,,a/J = java/lang/Object a/A
a/A,C a/I,I a/J,I,,a/A a/C,C,,a/J = java/lang/Object a/A a/I
a/A,C a/I,I a/J,I,,a/I a/C,C,,a/A = java/lang/Object a/A a/I a/J
# an interface whose superclass isn't Object, and a class that has none
a/A,C a/I,I,a/A a/C,C,,a/I = java/lang/Object a/A
a/I,I,- a/C,C,,a/I = java/lang/Object
a/A,C,- a/B,C,a/A = java/lang/Object";

/// Whether a name is among those of a text.
fn is_among(name: &[u8], names: &str) -> bool {
    for wanted in names.split(' ') {
        if wanted.as_bytes() == name {
            return true;
        }
    }
    false
}

/// Whether exactly the classes of these names are marked.
fn are_marked(shapes: &[Shape], marks: &[bool], names: &str) -> bool {
    for (place, shape) in shapes.iter().enumerate() {
        let wanted = is_among(shape.name.as_slice(), names);
        if marks.get(place).copied() != Some(wanted) {
            return false;
        }
    }
    marks.len() == shapes.len()
}

/// Whether the whole classes of a line are those that it names.
fn is_right(alloc: Global, line: &str) -> Result<bool, Fail> {
    let shapes = shapes_of(alloc, part(line, 0))?;
    if !are_numbered(alloc, shapes.as_slice())? {
        return Ok(false);
    }
    let marks = whole_classes(alloc, shapes.as_slice())?;
    Ok(are_marked(shapes.as_slice(), marks.as_slice(), part(line, 1)))
}

#[test]
fn tells_whole_classes(rt: HostRuntime) -> Result<(), Fail> {
    for line in WHOLE.lines() {
        if !line.starts_with('#') {
            assert!(rt; is_right(rt.alloc(), line)?, "at {line}");
        }
    }
    Ok(())
}
