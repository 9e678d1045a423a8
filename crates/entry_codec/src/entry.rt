//! Entries at the front of bytes.

ghost use Rattle.std.specs.Prelude.{◌≡◌, ◌≤◌, IfOk, OnOk};
ghost use Rattle.byte_forms.specs.Commands.{KeepsForm};
ghost use Rattle.byte_forms.specs.Entries.{entry_form, IsEntry};
ghost use Rattle.byte_forms.specs.Fronts.{TellsFront};
ghost use Rattle.content_codec.specs.Reading.{Reads};
ghost use Rattle.entry_codec.specs.Entries.{entry_number_at, entry_at};

use crate::read_command::read_command;
use crate::write_command::write_command;
use content_codec::{ReadFault, Reader, Writer};
use site_types::{Bytes, Command, Entry, NoMemory};
use std::alloc::Global;

/// The greatest number of bytes that an entry takes beside its content.
const MOST_OTHER_BYTES: usize = 286;

/// The bytes of an entry, in memory that is reserved once.
#[tactic(auto, unfolding(byte_forms::specs::Entries::entry_form))]
pub fn write_entry(alloc: Global, entry: &Entry) -> Result<Bytes, NoMemory>
    requires number { 1 ≤ entry.now.number }
    requires command { KeepsForm entry.now.command }
    ensures form { IfOk result (λ bytes. bytes ≡ entry_form entry.now) }
    ensures has_form { OnOk result (IsEntry entry.now) }
{
    let content_bytes = match &entry.command {
        Command::Create { content, .. } => content.form_length(),
        Command::SaveDesk { content, .. } => content.form_length(),
        _ => 0,
    };
    let mut writer = Writer::with_room(alloc, content_bytes as usize + MOST_OTHER_BYTES)?;
    writer.u64(entry.number)?;
    writer.moment(entry.moment)?;
    writer.user(entry.caller)?;
    write_command(&mut writer, &entry.command)?;
    Ok(writer.finish())
}

/// The entry at the front of bytes and the number of its bytes, or `None` exactly where the bytes
/// begin with no entry's form.
pub fn read_entry(alloc: Global, bytes: &[u8]) -> Result<Option<(Entry, usize)>, NoMemory>
    ensures { IfOk result (TellsFront entry_form IsEntry bytes.now) }
{
    let mut reader = Reader::new(bytes);
    match read_next(alloc, &mut reader) {
        Ok(entry) => Ok(Some((entry, bytes.len() - reader.left()))),
        Err(ReadFault::NoForm) => Ok(None),
        Err(ReadFault::Memory) => Err(NoMemory),
    }
}

/// The next entry.
#[tactic(auto, unfolding(crate::specs::Entries::entry_at))]
fn read_next(alloc: Global, reader: &mut Reader<'_>) -> Result<Entry, ReadFault>
    ensures { Reads result (entry_at reader.old) reader.new }
{
    let number = read_number(reader)?;
    let moment = reader.moment()?;
    let caller = reader.user()?;
    let command = read_command(alloc, reader)?;
    Ok(Entry {
        number,
        moment,
        caller,
        command,
    })
}

/// The next entry's number, at least 1.
#[tactic(auto, unfolding(crate::specs::Entries::entry_number_at))]
fn read_number(reader: &mut Reader<'_>) -> Result<u64, ReadFault>
    ensures { Reads result (entry_number_at reader.old) reader.new }
{
    let number = reader.u64()?;
    if number == 0 {
        return Err(ReadFault::NoForm);
    }
    Ok(number)
}
