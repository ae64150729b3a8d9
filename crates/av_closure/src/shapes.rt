ghost use Rattle.std.specs.Prelude.{◌≡◌, ◌++◌, ◌∷◌, [], IfNone, IfOk, IfSome, OnOk, map};
ghost use Rattle.std.specs.List.Sorted.{IsStrictlyIncreasing};
ghost use Rattle.jv_types.specs.declared.shapes.Shape.{Shape as ShapeValue};
ghost use Rattle.av_collected.specs.Libraries.{HasShape, IsLibrary};
ghost use Rattle.av_round.specs.declared.class_items.ClassItems.{ClassItems as ClassValue};
ghost use Rattle.std.specs.List.{Contains};
ghost use Rattle.av_refused.specs.Firsts.{file_name};
ghost use Rattle.av_closure.specs.Steps.{AreShapes, HaveShapes, IsClassOf};

use av_asked::NameList;
use av_reduced::reduced;
use av_refused::file_of;
use av_round::{ClassItems, ReadFile};
use jv_types::{Copied, Name, Shape};
use std::alloc::{AllocError, Global};

/// The collected classes as their files have them, and with their collected members alone.
#[derive(Drop)]
pub struct Shapes {
    pub full: Vec<Shape>,
    pub reduced: Vec<Shape>,
}

/// The shape of a class, if its file has one.
fn shape_of<'a>(files: &'a [ReadFile], names: &NameList, name: &Name) -> Option<&'a Shape>
    requires names { names.now ≡ map file_name files.now }
    requires library { IsLibrary files.now }
    ensures found { IfSome result (λ shape. HasShape files.now name.now shape.now) }
    ensures none { IfNone result ((shape : ShapeValue) → ¬ HasShape files.now name.now shape) }
{
    match file_of(files, names, name) {
        None => None,
        Some(file) => file.shape(),
    }
}

impl Shapes {
    /// Adds a class, which has a shape. Only memory can be wanting.
    fn add(
        &mut self,
        alloc: Global,
        class: &ClassItems,
        files: &[ReadFile],
        names: &NameList,
    ) -> Result<(), AllocError>
        requires names { names.now ≡ map file_name files.now }
        requires library { IsLibrary files.now }
        requires there { (shape : ShapeValue) × HasShape files.now class.now.name shape }
        requires fields { IsStrictlyIncreasing class.now.fields }
        requires methods { IsStrictlyIncreasing class.now.methods }
        ensures { OnOk result ((x y : ShapeValue) × (self.new.full.items ≡ self.old.full.items ++ x ∷ [])
            × (self.new.reduced.items ≡ self.old.reduced.items ++ y ∷ []) × IsClassOf files.now class.now x y) }
    {
        match shape_of(files, names, &class.name) {
            None => unreachable!(),
            Some(shape) => {
                let full = shape.copy()?;
                let only = reduced(
                    alloc,
                    shape,
                    class.fields.as_slice(),
                    class.methods.as_slice(),
                )?;
                self.full.push(full)?;
                self.reduced.push(only)?;
                Ok(())
            }
        }
    }
}

/// The shapes of classes that each have one, in their order. Only memory can be wanting.
pub fn shapes_of(
    alloc: Global,
    classes: &[ClassItems],
    files: &[ReadFile],
    names: &NameList,
) -> Result<Shapes, AllocError>
    requires names { names.now ≡ map file_name files.now }
    requires library { IsLibrary files.now }
    requires there { HaveShapes files.now classes.now }
    requires fields { (class : ClassValue) → Contains classes.now class → IsStrictlyIncreasing class.fields }
    requires methods { (class : ClassValue) → Contains classes.now class → IsStrictlyIncreasing class.methods }
    ensures { IfOk result (λ shapes. AreShapes files.now classes.now shapes.full.items shapes.reduced.items) }
{
    let mut shapes = Shapes {
        full: Vec::new(alloc),
        reduced: Vec::new(alloc),
    };
    for class in classes {
        shapes.add(alloc, class, files, names)?;
    }
    Ok(shapes)
}
