//! A saved value that was read, where no bytes follow it.
ghost use Rattle.std.specs.Prelude.{◌≡◌, option_map};
ghost use Rattle.saved_fields.specs.Fields.{whole};

/// The value that was read, where nothing follows it.
pub fn whole<T: Drop>(found: Option<(T, &[u8])>) -> Option<T>
    ensures { result ≡ whole (option_map (λ p. (p.0, p.1.now)) found.entry) }
{
    match found {
        Some((value, [])) => Some(value),
        _ => None,
    }
}
