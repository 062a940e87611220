//! A table of spelled values.
ghost use Rattle.std.specs.Prelude.{◌≡◌, map};
ghost use Rattle.tb_galley.specs.Spelling.{spelled_row, spelled_value};

/// What the first row of this text spells; `None` if no row has this text.
pub fn spelled_value<T: Copy>(rows: &[(&'static [u8], T)], text: &[u8]) -> Option<T>
    ensures { result ≡ spelled_value (map spelled_row rows.now) text.now }
{
    for row in rows {
        if row.0 == text {
            return Some(row.1);
        }
    }
    None
}
