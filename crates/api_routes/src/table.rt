//! Tables of values by their texts.
ghost use Rattle.std.specs.Prelude.{◌≡◌, map};
ghost use Rattle.wire_model.specs.Tables.{named};

/// The value of the first row with this text, or `None` if no row has it.
pub(crate) fn named<T: Copy>(mut table: &[(&str, T)], text: &str) -> Option<T>
    ensures { result ≡ named (map (λ row. (row.0.now, row.1)) table.entry.now) text.now }
{
    while let [row, rest @ ..] = table {
        if text == row.0 {
            return Some(row.1);
        }
        table = rest;
    }
    None
}
