// An object, part by part.
ghost use Rattle.std.specs.Prelude.{◌≡◌, codes, false, IfOk, OnOk, map};
ghost use Rattle.serde_json.specs.Data.{no_members, put, string};
ghost use Rattle.serde_json.specs.View.{members_view, view};
ghost use Rattle.serde_json.specs.Written.{members_have_float};
ghost use Rattle.report_fields.specs.Fields.{members_by, with_field, with_fields};
ghost use Rattle.report_fields.specs.Parts.{data_of_told, field_of};

use crate::part::Part;
use crate::told::Told;
use serde_json::{Map, Value, push, put};
use std::alloc::{AllocError, Global};

// The objects of what is told.
fn objects_of(alloc: Global, list: &[Told]) -> Result<Vec<Value>, AllocError>
    ensures { IfOk result (λ objects. map view objects.items ≡ map data_of_told list.now) }
{
    let mut objects = Vec::new(alloc);
    for told in list {
        push(&mut objects, told.object.clone()?)?;
    }
    Ok(objects)
}

// A part under its name in an object, where it has one.
fn put_part(
    members: &mut Map<String, Value>,
    alloc: Global,
    part: &Part<'_>,
) -> Result<(), AllocError>
    ensures { OnOk result (members_view members.new.entries
        ≡ with_field (members_view members.old.entries) (field_of part.now)) }
{
    match *part {
        Part::Word(_) => Ok(()),
        Part::Number(name, value) => put(members, alloc, name, Value::from(value)),
        Part::Aligned(name, value, _) => put(members, alloc, name, Value::from(value)),
        Part::HiddenNumber(name, value) => put(members, alloc, name, Value::from(value)),
        Part::Name(name, value) => put(members, alloc, name, Value::try_from_str(alloc, value)?),
        Part::HiddenName(name, value) => {
            put(members, alloc, name, Value::try_from_str(alloc, value)?)
        }
        Part::Within(name, told) => put(members, alloc, name, told.object.clone()?),
        Part::Each(name, list) => put(members, alloc, name, Value::Array(objects_of(alloc, list)?)),
    }
}

// Parts under their names in an object, where they have some.
fn put_parts(
    members: &mut Map<String, Value>,
    alloc: Global,
    parts: &[Part<'_>],
) -> Result<(), AllocError>
    ensures { OnOk result (members_view members.new.entries
        ≡ with_fields (members_view members.old.entries) (map field_of parts.now)) }
{
    for part in parts {
        put_part(members, alloc, part)?;
    }
    Ok(())
}

/// The members of the object of these parts: the kind under `answer`, and each part that has a name.
pub(crate) fn members_of(
    alloc: Global,
    kind: &str,
    parts: &[Part<'_>],
) -> Result<Map<String, Value>, AllocError>
    ensures are { IfOk result (λ members.
        members_view members.entries ≡ members_by kind.now (map field_of parts.now)) }
    ensures whole { IfOk result (λ members.
        members_have_float (members_view members.entries) ≡ false) }
{
    let mut members = Map::new(alloc);
    put(
        &mut members,
        alloc,
        "answer",
        Value::try_from_str(alloc, kind)?,
    )?;
    put_parts(&mut members, alloc, parts)?;
    Ok(members)
}
