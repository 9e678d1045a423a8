//! Bodies of requests, which are JSON (RFC 8259).
ghost use Rattle.std.specs.Prelude.{◌≡◌, Some, None, IfOk, IsErrOf};
ghost use Rattle.serde_json.specs.View.{view};
ghost use Rattle.block_content.specs.Reads.{Reads};
ghost use Rattle.wire_model.specs.Forms.{command_asked, data_of, text_of_body};

use crate::form::command_in;
use block_content::ContentFault;
use serde_json::Value;
use site_types::Command;
use std::alloc::Global;
use wire_model::CommandForm;

/// The command of a form that a body asks for: an object of exactly the members that the form
/// states. Where a name comes twice the last member counts.
pub fn read_command(alloc: Global, form: CommandForm, body: &[u8]) -> Result<Command, ContentFault>
    ensures { Reads result (command_asked form body.now) }
{
    match read_body(alloc, body) {
        Ok(value) => command_in(alloc, form, &value),
        Err(fault) => Err(fault),
    }
}

/// The JSON that a body is; no bytes are read as an empty object.
fn read_body(alloc: Global, body: &[u8]) -> Result<Value, ContentFault>
    ensures ok { IfOk result (λ value. data_of body.now ≡ Some (view value)) }
    ensures bad { IsErrOf result ContentFault.Bad → data_of body.now ≡ None }
{
    let Ok(text) = str::from_utf8(body) else {
        return Err(ContentFault::Bad);
    };
    match Value::from_str(alloc, or_empty_object(text)) {
        Ok(value) => Ok(value),
        Err(error) => {
            if error.is_memory() {
                Err(ContentFault::Memory)
            } else {
                Err(ContentFault::Bad)
            }
        }
    }
}

/// The text, or an empty object if it has no bytes.
fn or_empty_object(text: &str) -> &str
    ensures { result.now ≡ text_of_body text.now }
{
    if text.is_empty() { "{}" } else { text }
}
