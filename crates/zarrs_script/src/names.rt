//! Tables of names.
ghost use Rattle.std.specs.Prelude.{◌≡◌, map};
ghost use Rattle.zarrs_script.specs.Words.{look_up};

/// Returns what the table has for the name.
pub fn look_up<T: Copy>(mut table: &[(&[u8], T)], name: &[u8]) -> Option<T>
    ensures { result ≡ look_up (map (λ entry. (entry.0.now, entry.1)) table.entry.now) name.now }
{
    while let [entry, others @ ..] = table {
        if name == entry.0 {
            return Some(entry.1);
        }
        table = others;
    }
    None
}
