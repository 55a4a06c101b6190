//! The bodies of refusals and faults.
ghost use Rattle.std.specs.Prelude.{◌≡◌, IfOk};
ghost use Rattle.std.specs.Str.{IsAscii};
ghost use Rattle.serde_json.specs.View.{view};
ghost use Rattle.serde_json.specs.Written.{compact_text};
ghost use Rattle.http_json.specs.Refusals.{fault_body, numbered_body, bad_field_body, not_retryable_body, not_retryable_text_body, refusal_body};

use crate::field_keys::key_of;
use desk_rules::{Refusal, RefusalName, ReturnCode};
use serde_json::{Value, json};
use std::alloc::{AllocError, Global};

/// Gives a fault's body, which has its name under `error` and nothing else.
pub fn fault_text(alloc: Global, name: &str) -> Result<Vec<u8>, AllocError>
    ensures { IfOk result (λ t. t.items ≡ compact_text (fault_body name.now)) }
{
    let value = fault_value(alloc, name)?;
    value.to_vec(alloc)
}

/// Gives a refusal's body, which has its name under `error` and its `number`. That of a bad field has
/// its `field` and `index` too, and that of a return that may not be tried again its `code`.
pub fn refusal_text(alloc: Global, refusal: Refusal) -> Result<Vec<u8>, AllocError>
    ensures { IfOk result (λ t. t.items ≡ compact_text (refusal_body refusal)) }
{
    let value = refusal_value(alloc, refusal)?;
    value.to_vec(alloc)
}

fn refusal_value(alloc: Global, refusal: Refusal) -> Result<Value, AllocError>
    ensures { IfOk result (λ v. view v ≡ refusal_body refusal) }
{
    match refusal {
        Refusal::BadField { field, index } => bad_field_value(alloc, key_of(field), index),
        Refusal::NotRetryable(code) => not_retryable_value(alloc, code),
        _ => numbered_value(alloc, refusal.name()),
    }
}

fn fault_value(alloc: Global, name: &str) -> Result<Value, AllocError>
    ensures { IfOk result (λ v. view v ≡ fault_body name.now) }
{
    json!(in alloc; {"error": name})
}

fn numbered_value(alloc: Global, name: RefusalName) -> Result<Value, AllocError>
    ensures { IfOk result (λ v. view v ≡ numbered_body name) }
{
    let text = name.text();
    let number = name.number();
    json!(in alloc; {"error": text, "number": number})
}

fn bad_field_value(alloc: Global, key: &str, index: u64) -> Result<Value, AllocError>
    ensures { IfOk result (λ v. view v ≡ bad_field_body key.now index) }
{
    json!(in alloc; {"error": "BadField", "field": key, "index": index, "number": 2u64})
}

fn not_retryable_value(alloc: Global, code: ReturnCode) -> Result<Value, AllocError>
    ensures { IfOk result (λ v. view v ≡ not_retryable_body code) }
{
    let text = code.text();
    code_value(alloc, ascii_text(&text))
}

fn code_value(alloc: Global, code: &str) -> Result<Value, AllocError>
    ensures { IfOk result (λ v. view v ≡ not_retryable_text_body code.now) }
{
    json!(in alloc; {"code": code, "error": "NotRetryable", "number": 12u64})
}

// Bytes below 128 are a text.
fn ascii_text(bytes: &[u8]) -> &str
    requires { IsAscii bytes.now }
    ensures { result.now ≡ bytes.now }
{
    str::from_utf8(bytes).unwrap()
}
