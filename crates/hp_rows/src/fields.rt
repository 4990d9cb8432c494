//! The fields of rows and steps.
use crate::bytes::add_text;
use crate::malformed::Malformed;
use serde_json::{Map, Value};
use std::alloc::Global;

fn is_among(fields: &[&str], name: &str) -> bool {
    fields.iter().any(|field| *field == name)
}

/// Whether a value is an object with no other fields than these.
pub fn has_only(value: &Value, fields: &[&str]) -> bool {
    match value.as_object() {
        Some(object) => object.keys().all(|name| is_among(fields, name.as_str())),
        None => false,
    }
}

/// The string in a field.
pub fn string_in<'a>(object: &'a Value, field: &'static str) -> Result<&'a str, Malformed> {
    match object.get(field).and_then(Value::as_str) {
        Some(string) => Ok(string),
        None => Err(Malformed::Field(field)),
    }
}

/// The number in a field.
pub fn number_in(object: &Value, field: &'static str) -> Result<u64, Malformed> {
    match object.get(field).and_then(Value::as_u64) {
        Some(number) => Ok(number),
        None => Err(Malformed::Field(field)),
    }
}

/// Whether a field is there, and is true.
pub fn is_set(object: &Value, field: &str) -> bool {
    object.get(field).and_then(Value::as_bool) == Some(true)
}

/// The object in a field, if there is such a field.
pub fn object_in<'a>(
    object: &'a Value,
    field: &'static str,
) -> Result<Option<&'a Map<String, Value>>, Malformed> {
    let Some(value) = object.get(field) else {
        return Ok(None);
    };
    match value.as_object() {
        Some(members) => Ok(Some(members)),
        None => Err(Malformed::Field(field)),
    }
}

/// The bytes of the text in a field; none, where there is no such field.
pub fn text_in(alloc: Global, object: &Value, field: &'static str) -> Result<Vec<u8>, Malformed> {
    let mut bytes = Vec::new(alloc);
    if let Some(text) = object.get(field) {
        add_text(text, &mut bytes)?;
    }
    Ok(bytes)
}

/// The items of the list in a field; none, where there is no such field.
pub fn items_in<'a>(object: &'a Value, field: &'static str) -> Result<&'a [Value], Malformed> {
    let Some(value) = object.get(field) else {
        return Ok(&[]);
    };
    match value.as_array() {
        Some(items) => Ok(items.as_slice()),
        None => Err(Malformed::Field(field)),
    }
}

/// The numbers of the list in a field; none, where there is no such field.
pub fn numbers_in(
    alloc: Global,
    object: &Value,
    field: &'static str,
) -> Result<Vec<u64>, Malformed> {
    let mut numbers = Vec::new(alloc);
    for item in items_in(object, field)? {
        let Some(number) = item.as_u64() else {
            return Err(Malformed::Field(field));
        };
        numbers.push(number)?;
    }
    Ok(numbers)
}

/// The strings of the list in a field; none, where there is no such field.
pub fn strings_in(
    alloc: Global,
    object: &Value,
    field: &'static str,
) -> Result<Vec<String>, Malformed> {
    let mut strings = Vec::new(alloc);
    for item in items_in(object, field)? {
        let Some(string) = item.as_str() else {
            return Err(Malformed::Field(field));
        };
        strings.push(String::from_str(alloc, string)?)?;
    }
    Ok(strings)
}
