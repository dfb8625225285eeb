//! The elements of a JSON array that are all of one kind.

ghost use Rattle.std.specs.Prelude.{◌≡◌, IfOk, codes, map, option_map, option_and_then};
ghost use Rattle.serde_json.specs.Find.{get};
ghost use Rattle.serde_json.specs.View.{view, items_view};
ghost use Rattle.claim_file.specs.Fields.{texts_of, numbers_of, number_lists_of, all_of, absent_or};
ghost use Rattle.json_text.specs.Member as json;

use json_text::{items_at, unsigned_of};
use serde_json::Value;
use std::alloc::{AllocError, Global};

/// The texts of an array, None if an element isn't one.
fn texts<'v>(alloc: Global, items: &'v [Value]) -> Result<Option<Vec<&'v str>>, AllocError>
    ensures { IfOk result (λ found.
        option_map (λ v. map (λ text. text.now) v.items) found ≡ texts_of (items_view items.now)) }
{
    let mut found = Vec::new(alloc);
    for item in items {
        match item.as_str() {
            Some(text) => found.push(text)?,
            None => return Ok(None),
        }
    }
    Ok(Some(found))
}

/// The member of that name, if it is an array of texts.
pub(crate) fn texts_at<'v>(
    alloc: Global,
    value: &'v Value,
    name: &str,
) -> Result<Option<Vec<&'v str>>, AllocError>
    ensures { IfOk result (λ found. option_map (λ v. map (λ text. text.now) v.items) found
        ≡ option_and_then texts_of (json.items_at name.now (view value.now))) }
{
    match items_at(value, name) {
        Some(items) => texts(alloc, items),
        None => Ok(None),
    }
}

/// The integers of an array, None if an element isn't one.
fn integers(alloc: Global, items: &[Value]) -> Result<Option<Vec<u64>>, AllocError>
    ensures { IfOk result (λ found.
        option_map (λ v. v.items) found ≡ all_of json.unsigned_of (items_view items.now)) }
{
    let mut found = Vec::new(alloc);
    for item in items {
        match unsigned_of(item) {
            Some(number) => found.push(number)?,
            None => return Ok(None),
        }
    }
    Ok(Some(found))
}

/// The integers of a value that is an array of them, None if it isn't.
fn integers_of(alloc: Global, value: &Value) -> Result<Option<Vec<u64>>, AllocError>
    ensures { IfOk result (λ found.
        option_map (λ v. v.items) found ≡ numbers_of (view value.now)) }
{
    match value.as_array() {
        Some(items) => integers(alloc, items),
        None => Ok(None),
    }
}

/// The arrays of integers of an array, None if an element isn't one.
fn integer_lists(alloc: Global, items: &[Value]) -> Result<Option<Vec<Vec<u64>>>, AllocError>
    ensures { IfOk result (λ found.
        option_map (λ v. map (λ list. list.items) v.items) found
        ≡ all_of numbers_of (items_view items.now)) }
{
    let mut found = Vec::new(alloc);
    for item in items {
        match integers_of(alloc, item)? {
            Some(list) => found.push(list)?,
            None => return Ok(None),
        }
    }
    Ok(Some(found))
}

/// The arrays of integers of a value that is an array of them, None if it isn't.
fn integer_lists_of(alloc: Global, value: &Value) -> Result<Option<Vec<Vec<u64>>>, AllocError>
    ensures { IfOk result (λ found.
        option_map (λ v. map (λ list. list.items) v.items) found
        ≡ number_lists_of (view value.now)) }
{
    match value.as_array() {
        Some(items) => integer_lists(alloc, items),
        None => Ok(None),
    }
}

/// The groups of a claim: Some(None) if there are none, and None if they are of another kind.
pub(crate) fn groups_at(
    alloc: Global,
    value: &Value,
) -> Result<Option<Option<Vec<Vec<u64>>>>, AllocError>
    ensures { IfOk result (λ found.
        option_map (λ groups. option_map (λ v. map (λ list. list.items) v.items) groups) found
        ≡ absent_or number_lists_of (get (codes "groups") (view value.now))) }
{
    match value.get("groups") {
        Some(groups) => match integer_lists_of(alloc, groups)? {
            Some(lists) => Ok(Some(Some(lists))),
            None => Ok(None),
        },
        None => Ok(Some(None)),
    }
}
