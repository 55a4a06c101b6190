//! The body of a message: a submission in compact JSON, with its keys in byte order.
ghost use Rattle.std.specs.Prelude.{◌≡◌, IfOk, OnOk};
ghost use Rattle.serde_json.specs.Data.{string};
ghost use Rattle.serde_json.specs.View.{view, items_view};
ghost use Rattle.cli_submit.specs.Bodies.{body_with, entry_data, Puts};
ghost use Rattle.cli_submit.specs.Messages.{IsBody, IsReadAsBody, OfEntries};
ghost use Rattle.cli_submit.specs.Options.{texts_of};
ghost use Rattle.cli_submit.specs.Rows.{entry_of};

use crate::options::SubmitOptions;
use crate::row::RowEntry;
use serde_json::{Map, Value, json};
use std::alloc::{AllocError, Global};

/// Gives an entry as JSON. An empty prenote or info is left out.
pub fn entry_value(alloc: Global, entry: &RowEntry<'_>) -> Result<Value, AllocError>
    ensures { IfOk result (λ v. view v ≡ entry_data (entry_of entry.now)) }
{
    let mut members = Map::new(alloc);
    add_text(&mut members, alloc, "account", entry.account)?;
    add(&mut members, alloc, "cents", Value::from(entry.cents))?;
    add_text(&mut members, alloc, "id", entry.id)?;
    if let Some(info) = entry.info {
        add_text(&mut members, alloc, "info", info)?;
    }
    add_text(&mut members, alloc, "kind", entry.kind)?;
    add_text(&mut members, alloc, "name", entry.name)?;
    if entry.is_prenote {
        add(&mut members, alloc, "prenote", Value::Bool(true))?;
    }
    add_text(&mut members, alloc, "routing", entry.routing)?;
    Ok(Value::Object(members))
}

fn add_text(
    members: &mut Map<String, Value>,
    alloc: Global,
    key: &str,
    text: &str,
) -> Result<(), AllocError>
    ensures { OnOk result (Puts key.now (string text.now) members.old.entries members.new.entries) }
{
    let value = Value::String(String::from_str(alloc, text)?);
    add(members, alloc, key, value)
}

fn add(
    members: &mut Map<String, Value>,
    alloc: Global,
    key: &str,
    value: Value,
) -> Result<(), AllocError>
    ensures { OnOk result (Puts key.now (view value) members.old.entries members.new.entries) }
{
    let key = String::from_str(alloc, key)?;
    drop(members.insert(key, value)?);
    Ok(())
}

/// Gives the text of the submission of these entries.
pub fn body_text(
    alloc: Global,
    options: &SubmitOptions<'_>,
    entries: Vec<Value>,
) -> Result<Vec<u8>, AllocError>
    ensures text { IfOk result (OfEntries entries (IsBody (texts_of options.now))) }
    ensures reads_back { IfOk result (OfEntries entries (IsReadAsBody (texts_of options.now))) }
{
    body_value(alloc, options, entries)?.to_vec(alloc)
}

fn body_value(
    alloc: Global,
    options: &SubmitOptions<'_>,
    entries: Vec<Value>,
) -> Result<Value, AllocError>
    ensures { IfOk result
        (λ v. view v ≡ body_with (texts_of options.now) (items_view entries.items)) }
{
    json!(in alloc; {
        "day": options.day,
        "description": options.description,
        "direction": options.direction,
        "entries": entries,
        "ref": options.reference,
        "sec": options.sec
    })
}
