//! Contents at the front of bytes.

ghost use Rattle.std.specs.Prelude.{◌≡◌, IfOk, OnOk};
ghost use Rattle.site_types.specs.Content.{content_form};
ghost use Rattle.byte_forms.specs.Contents.{IsContent};
ghost use Rattle.byte_forms.specs.Fronts.{TellsFront};

use crate::{ReadFault, Reader, Writer};
use site_types::{Bytes, Content, NoMemory};
use std::alloc::Global;

/// The bytes of a content, in memory that is reserved once.
pub fn write_content_bytes(alloc: Global, content: &Content) -> Result<Bytes, NoMemory>
    ensures form { IfOk result (λ bytes. bytes ≡ content_form content.now) }
    ensures has_form { OnOk result (IsContent content.now) }
{
    let mut writer = Writer::with_room(alloc, content.form_length() as usize)?;
    writer.content(content)?;
    Ok(writer.finish())
}

/// The content at the front of bytes and the number of its bytes, or `None` exactly where the bytes
/// begin with no content's form.
pub fn read_content_bytes(alloc: Global, bytes: &[u8]) -> Result<Option<(Content, usize)>, NoMemory>
    ensures { IfOk result (TellsFront content_form IsContent bytes.now) }
{
    let mut reader = Reader::new(bytes);
    match reader.content(alloc) {
        Ok(content) => Ok(Some((content, bytes.len() - reader.left()))),
        Err(ReadFault::NoForm) => Ok(None),
        Err(ReadFault::Memory) => Err(NoMemory),
    }
}
