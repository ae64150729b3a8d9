ghost use Rattle.std.specs.Prelude.{◌≡◌, Contains, IfOk, map};
ghost use Rattle.av_standin_of.specs.Lists.{AreJust};
ghost use Rattle.av_standin_of.specs.Names.{field_key, member_order};
ghost use Rattle.av_sorted.specs.Orders.{field_row, method_row, sketched_key, value_of, AreApart};

use crate::row::{Row, rows_in_order};
use av_sketches::SketchedMethod;
use jv_desc::{show_field, show_method};
use jv_types::{Copied, FieldShape, Name, Seq};
use std::alloc::AllocError;

/// A field, with what it stands in order by. Only memory can be wanting.
fn field_row(field: FieldShape) -> Result<Row<FieldShape>, AllocError>
    ensures { IfOk result (λ row. row ≡ field_row field) }
{
    let name = field.name.copy()?;
    let desc = show_field(name.allocator(), &field.desc)?;
    Ok(Row {
        name,
        desc: Name::from_vec(desc),
        value: field,
    })
}

/// A method, with what it stands in order by. Only memory can be wanting.
fn method_row(method: SketchedMethod) -> Result<Row<SketchedMethod>, AllocError>
    ensures { IfOk result (λ row. row ≡ method_row method) }
{
    let name = method.shape.name.copy()?;
    let desc = show_method(name.allocator(), &method.shape.desc)?;
    Ok(Row {
        name,
        desc: Name::from_vec(desc),
        value: method,
    })
}

/// The values of rows, in the order of the rows. Only memory can be wanting.
fn values_of<T: Drop>(rows: Vec<Row<T>>) -> Result<Seq<T>, AllocError>
    ensures { IfOk result (λ made. made ≡ map value_of rows.items) }
{
    let mut values = Vec::new(*rows.allocator());
    for row in rows {
        values.push(row.value)?;
    }
    Ok(Seq::from_vec(values))
}

/// Fields, each with what it stands in order by. Only memory can be wanting.
fn field_rows(fields: Vec<FieldShape>) -> Result<Vec<Row<FieldShape>>, AllocError>
    ensures { IfOk result (λ made. made.items ≡ map field_row fields.items) }
{
    let mut rows = Vec::new(*fields.allocator());
    for field in fields {
        rows.push(field_row(field)?)?;
    }
    Ok(rows)
}

/// Methods, each with what it stands in order by. Only memory can be wanting.
fn method_rows(methods: Vec<SketchedMethod>) -> Result<Vec<Row<SketchedMethod>>, AllocError>
    ensures { IfOk result (λ made. made.items ≡ map method_row methods.items) }
{
    let mut rows = Vec::new(*methods.allocator());
    for method in methods {
        rows.push(method_row(method)?)?;
    }
    Ok(rows)
}

/// Fields in order of their names and descriptors, each once. Only memory can be wanting.
pub fn fields_in_order(fields: Vec<FieldShape>) -> Result<Seq<FieldShape>, AllocError>
    ensures { IfOk result (λ made. AreApart field_key fields.items → AreJust member_order field_key (Contains fields.items) made) }
{
    let rows = rows_in_order(field_rows(fields)?)?;
    values_of(rows)
}

/// Methods in order of their names and descriptors, each once. Only memory can be wanting.
pub fn methods_in_order(methods: Vec<SketchedMethod>) -> Result<Seq<SketchedMethod>, AllocError>
    ensures { IfOk result (λ made. AreApart sketched_key methods.items → AreJust member_order sketched_key (Contains methods.items) made) }
{
    let rows = rows_in_order(method_rows(methods)?)?;
    values_of(rows)
}
