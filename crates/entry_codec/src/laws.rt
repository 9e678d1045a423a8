//! Laws of forms. Each is a function that does nothing: its contract is the law.

ghost use Rattle.entry_codec.specs.Laws.{EntriesHaveOneReading, CommandsHaveOneReading, EntriesReadBack};

/// An entry's form is of no other entry and begins no other entry's form.
pub fn entries_have_one_reading()
    ensures { EntriesHaveOneReading }
{}

/// A command's form is of no other command and begins no other command's form.
pub fn commands_have_one_reading()
    ensures { CommandsHaveOneReading }
{}

/// What is written of an entry is read as it, whatever stands after it.
pub fn entries_read_back()
    ensures { EntriesReadBack }
{}
