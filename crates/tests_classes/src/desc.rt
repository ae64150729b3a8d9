use jv_desc::{BadDesc, arg_words, field_desc, laws, method_desc, show_field, show_method};
use jv_types::{
    Access, Copied, Desc, FieldShape, MethodShape, Name, Prim, RefType, Seq, Shape, is_class_name,
    is_method_name, is_part,
};
use std::alloc::{AllocError, Global};
use std::cmp::Ordering;
use std::test::Fail;

/// Field descriptors (JVMS 4.3.2).
const FIELDS: &str = "Z C F D B S I J La; Ljava/lang/Object; [[J [[Ljava/lang/Object;";

/// What is no field descriptor, first nothing at all.
const NO_FIELDS: &str = " V [V [ II L; La La//b; L/a; La.b; La[b; La;b ()V";

/// Method descriptors (JVMS 4.3.3).
const METHODS: &str = "()I ([[DJ)[La; (IJ[Ljava/lang/Object;)V";

/// What is no method descriptor, first nothing at all.
const NO_METHODS: &str = " () (V)V ()VV ()[V (I I)V ((I)V";

#[test]
fn reads_fields(rt: HostRuntime) -> Result<(), Fail> {
    for text in FIELDS.split(' ') {
        let field = field_desc(rt.alloc(), text.as_bytes())
            .ok()
            .ok_or("a field")?;
        let shown = show_field(rt.alloc(), &field)?;
        assert_eq!(rt; shown.as_slice(), text.as_bytes());
    }
    for text in NO_FIELDS.split(' ') {
        let refused = field_desc(rt.alloc(), text.as_bytes()).err();
        assert_eq!(rt; refused, Some(BadDesc::Bad), "at {text}");
    }
    Ok(())
}

#[test]
fn reads_methods(rt: HostRuntime) -> Result<(), Fail> {
    for text in METHODS.split(' ') {
        let method = method_desc(rt.alloc(), text.as_bytes())
            .ok()
            .ok_or("a method")?;
        let shown = show_method(rt.alloc(), &method)?;
        assert_eq!(rt; shown.as_slice(), text.as_bytes());
    }
    for text in NO_METHODS.split(' ') {
        let refused = method_desc(rt.alloc(), text.as_bytes()).err();
        assert_eq!(rt; refused, Some(BadDesc::Bad), "at {text}");
    }
    Ok(())
}

#[test]
fn counts_words(rt: HostRuntime) -> Result<(), Fail> {
    let text = b"(IJ[Ljava/lang/Object;)V";
    let method = method_desc(rt.alloc(), text).ok().ok_or("a method")?;
    assert_eq!(rt; arg_words(&method, false), 4);
    assert_eq!(rt; arg_words(&method, true), 5);
    Ok(())
}

#[test]
fn reads_an_array_of_arrays(rt: HostRuntime) {
    match field_desc(rt.alloc(), b"[[J") {
        Ok(Desc::Ref(RefType::Array(item))) => {
            assert!(rt; matches!(item.get(), RefType::PrimArray(Prim::Long)));
        }
        _ => assert!(rt; false),
    }
}

fn brackets(alloc: Global, count: usize) -> Result<Vec<u8>, AllocError> {
    let mut text = Vec::new(alloc);
    for _ in 0..count {
        text.push(b'[')?;
    }
    text.push(b'I')?;
    Ok(text)
}

#[test]
fn counts_brackets(rt: HostRuntime) -> Result<(), Fail> {
    let most = brackets(rt.alloc(), 255)?;
    assert!(rt; field_desc(rt.alloc(), &most).is_ok());
    let over = brackets(rt.alloc(), 256)?;
    assert!(rt; field_desc(rt.alloc(), &over).is_err());
    Ok(())
}

/// Types in their order: primitives, classes, arrays of primitives, and arrays of reference types.
const ORDERED: &str = "Z J La; Lb; [I [La; [[I [[La;";

fn field_of(alloc: Global, text: &str) -> Result<Desc, Fail> {
    Ok(field_desc(alloc, text.as_bytes()).ok().ok_or("a field")?)
}

#[test]
fn orders_types(rt: HostRuntime) -> Result<(), Fail> {
    for (i, text) in ORDERED.split(' ').enumerate() {
        let a = field_of(rt.alloc(), text)?;
        for (j, other) in ORDERED.split(' ').enumerate() {
            let b = field_of(rt.alloc(), other)?;
            assert_eq!(rt; a.cmp(&b), i.cmp(&j), "at {i} and {j}");
            assert_eq!(rt; a.is(&b), i == j, "at {i} and {j}");
        }
        let copy = a.copy(rt.alloc())?;
        assert_eq!(rt; copy.cmp(&a), Ordering::Equal);
    }
    Ok(())
}

/// A class with a field and a method.
fn class_shape(alloc: Global) -> Result<Shape, Fail> {
    let name = Name::from_slice(alloc, b"app/A")?;
    let mut fields = Seq::new(alloc);
    fields.push(FieldShape {
        name: name.copy()?,
        desc: field_of(alloc, "[[La;")?,
        flags: Access::PUBLIC,
    })?;
    let mut methods = Seq::new(alloc);
    methods.push(MethodShape {
        name: name.copy()?,
        desc: method_desc(alloc, b"(IJ[Ljava/lang/Object;)[J")
            .ok()
            .ok_or("a method")?,
        flags: Access::STATIC,
        code: true,
    })?;
    Ok(Shape {
        parent: Some(name.copy()?),
        name,
        flags: Access::SUPER,
        interfaces: Seq::new(alloc),
        fields,
        methods,
        application: true,
    })
}

#[test]
fn copies_shapes(rt: HostRuntime) -> Result<(), Fail> {
    let shape = class_shape(rt.alloc())?;
    let copy = shape.copy()?;
    assert!(rt; copy == shape);
    assert_eq!(rt; copy.methods.len(), 1);
    Ok(())
}

/// Names, and which of the three they are: `c` of a class, `p` of a part, `m` of a method (JVMS 4.2.2).
const NAMES: &str = "\
a cpm
a/b c
a//b -
/a -
a/ -
 -
a.b -
a; -
[a -
<init> cpm
<clinit> cpm
<main> cp
a>b cp";

#[test]
fn tells_names(rt: HostRuntime) -> Result<(), Fail> {
    for line in NAMES.lines() {
        let (name, kinds) = line.split_once(' ').ok_or("two words")?;
        let name = name.as_bytes();
        assert_eq!(rt; is_class_name(name), kinds.contains('c'), "at {line}");
        assert_eq!(rt; is_part(name), kinds.contains('p'), "at {line}");
        assert_eq!(rt; is_method_name(name), kinds.contains('m'), "at {line}");
    }
    Ok(())
}

#[test]
fn laws_are_called(_rt: HostRuntime) {
    laws::fields_have_one_text();
    laws::methods_have_one_text();
    laws::field_fronts_agree();
}
