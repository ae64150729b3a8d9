use jv_types::{Access, FieldShape, MethodDesc, MethodShape, Name, Prim, RefType, Seq};

/// One of the static methods of a package's class: it makes objects, or calls, reads or writes what is known.
#[derive(Debug, Drop)]
pub enum Item {
    /// An object of this class becomes known.
    Object(Name),
    /// Arrays of this class in one dimension and more become known.
    Arrays(Name),
    /// Arrays of this primitive type in one dimension and more become known.
    PrimArrays(Prim),
    /// This method is called on what is known.
    Call(Callee),
    /// What this field has becomes known, and it gets what is known.
    Field(HolderField),
    /// An element of a known array becomes known, and gets what is known.
    Elements,
    /// Object's `finalize()V` is called on what was only made.
    Finalize,
}

/// A method as a call names it.
#[derive(Debug, Drop)]
pub struct Callee {
    /// Whether `class` is an interface.
    pub interface: bool,
    pub class: Name,
    pub name: Name,
    pub desc: MethodDesc,
}

/// A field of a reference type as an instruction names it.
#[derive(Debug, Drop)]
pub struct HolderField {
    pub class: Name,
    pub field: FieldShape,
    /// The field's type.
    pub kind: RefType,
}

/// Which code a method has.
#[derive(Debug, Drop)]
pub enum Recipe {
    /// That of the extra constructor of a class with this superclass.
    Extra(Option<Name>),
    /// That of a collected method, of a class with this superclass, as the library declares it.
    Collected(Option<Name>, MethodShape),
    /// What most methods do, and nothing before it.
    Template,
    /// That of an item.
    Item(Item),
}

/// A method of a stand-in's class.
#[derive(Debug, Drop)]
pub struct SketchedMethod {
    pub shape: MethodShape,
    /// None where the method has no code.
    pub recipe: Option<Recipe>,
}

/// A class or interface of a stand-in, with its members in the order of its file (JVMS 4.1).
#[derive(Debug, Drop)]
pub struct Sketch {
    pub name: Name,
    pub flags: Access,
    pub parent: Option<Name>,
    pub interfaces: Seq<Name>,
    pub fields: Seq<FieldShape>,
    pub methods: Seq<SketchedMethod>,
}
