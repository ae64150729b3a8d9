use crate::names::{member_of, name_of};
use jv_desc::{field_desc, method_desc};
use jv_types::{Access, FieldShape, MethodShape, Name, Seq, Shape};
use std::alloc::{AllocError, Global};
use std::test::Fail;

const ACCESS_MARKS: [(char, u16); 4] = [('+', 1), ('#', 4), ('~', 0), ('-', 2)];

const KIND_MARKS: [(char, u16); 5] = [('s', 8), ('a', 0x400), ('f', 0x10), ('c', 0x18), ('.', 0)];

/// The flags of the mark in front of a text, and what is behind it.
fn marked<'a>(text: &'a str, marks: &[(char, u16)]) -> Option<(u16, &'a str)> {
    for (mark, flags) in marks {
        if let Some(rest) = text.strip_prefix(*mark) {
            return Some((*flags, rest));
        }
    }
    None
}

/// A method of its name, descriptor and flags. It has a code where it isn't abstract.
fn method_shape_of(alloc: Global, name: &str, desc: &str, flags: u16) -> Result<MethodShape, Fail> {
    Ok(MethodShape {
        name: name_of(alloc, name)?,
        desc: method_desc(alloc, desc.as_bytes())?,
        flags: Access(flags),
        code: flags & 0x400 == 0,
    })
}

/// A field of its name, type and flags.
fn field_shape_of(alloc: Global, name: &str, desc: &str, flags: u16) -> Result<FieldShape, Fail> {
    Ok(FieldShape {
        name: name_of(alloc, name)?,
        desc: field_desc(alloc, desc.as_bytes())?,
        flags: Access(flags),
    })
}

/// Adds a field or a method to a class.
fn add_member(alloc: Global, shape: &mut Shape, flags: u16, text: &str) -> Result<(), Fail> {
    let (name, desc) = member_of(text);
    if desc.starts_with('(') {
        shape
            .methods
            .push(method_shape_of(alloc, name, desc, flags)?)?;
    } else {
        shape
            .fields
            .push(field_shape_of(alloc, name, desc, flags)?)?;
    }
    Ok(())
}

/// Adds an interface or a member to a class.
fn add_part(alloc: Global, shape: &mut Shape, text: &str) -> Result<(), Fail> {
    let Some((access, rest)) = marked(text, &ACCESS_MARKS) else {
        shape.interfaces.push(name_of(alloc, text)?)?;
        return Ok(());
    };
    let (kind, member) = marked(rest, &KIND_MARKS).unwrap_or((0, rest));
    add_member(alloc, shape, access | kind, member)
}

/// The superclass of a class.
fn parent_of(alloc: Global, class: &str, text: &str) -> Result<Option<Name>, AllocError> {
    match text {
        "" if class == "java/lang/Object" => Ok(None),
        "-" => Ok(None),
        "" => Ok(Some(name_of(alloc, "java/lang/Object")?)),
        _ => Ok(Some(name_of(alloc, text)?)),
    }
}

/// The access flags of a class.
fn class_flags_of(kind: &str) -> Access {
    Access(match kind {
        "I" => 0x601,
        "F" => 0x31,
        "A" => 0x421,
        "P" => 0x20,
        _ => 0x21,
    })
}

/// Whether a class of this name is of the application.
fn is_of_application(name: &str) -> bool {
    !name.starts_with("java/") && !name.starts_with("lib/")
}

/// A class without interfaces and members, of its name, its kind and its superclass.
fn bare_shape(alloc: Global, name: &str, kind: &str, parent: &str) -> Result<Shape, AllocError> {
    Ok(Shape {
        name: name_of(alloc, name)?,
        flags: class_flags_of(kind),
        parent: parent_of(alloc, name, parent)?,
        interfaces: Seq::new(alloc),
        fields: Seq::new(alloc),
        methods: Seq::new(alloc),
        application: is_of_application(name),
    })
}

/// The part of this number of a class, from 0 on, and an empty one where it has fewer.
fn part_of(text: &str, number: usize) -> &str {
    text.split(',').nth(number).unwrap_or("")
}

/// A class of a text.
pub fn shape_of(alloc: Global, text: &str) -> Result<Shape, Fail> {
    let mut shape = bare_shape(alloc, part_of(text, 0), part_of(text, 1), part_of(text, 2))?;
    for part in text.split(',').skip(3) {
        add_part(alloc, &mut shape, part)?;
    }
    Ok(shape)
}
