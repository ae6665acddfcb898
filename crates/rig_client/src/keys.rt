//! The key of a tenant, wherever it comes from.

ghost use Rattle.std.specs.Prelude.{◌≡◌};
ghost use Rattle.std.specs.List.{list_all};
ghost use Rattle.rig_model.specs.config.Fields.{from_to};
ghost use Rattle.rig_model.specs.config.Ranges.{is_key};

/// Whether a text is a key: 1 to 64 bytes from 0x21 to 0x7E.
pub fn is_key(text: &str) -> bool
    ensures { result ≡ is_key text.now }
{
    1 <= text.len() && text.len() <= 64 && are_key_bytes(text.as_bytes())
}

fn are_key_bytes(bytes: &[u8]) -> bool
    ensures { result ≡ list_all (from_to 33 126) bytes.now }
{
    bytes.iter().all(|&byte| 0x21 <= byte && byte <= 0x7e)
}

/// The first line of a text, without its LF and without a CR before that.
pub fn first_line(text: &str) -> &str {
    text.lines().next().unwrap_or("")
}
