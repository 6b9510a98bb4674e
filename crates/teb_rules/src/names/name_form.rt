//! The form of a name.

ghost use Rattle.std.specs.Prelude.{◌≡◌};
ghost use Rattle.std.specs.List.{list_all};
ghost use Rattle.teb_rules.specs.names.Names.{is_name, is_name_byte};

/// Returns whether a text is a name: 1 to 32 bytes of `[a-z][a-z0-9_]*`.
#[tactic(auto, unfolding(crate::specs::names::Names::is_name))]
pub fn is_name(text: &[u8]) -> bool
    ensures { result ≡ is_name text.now }
{
    if text.is_empty() {
        return false;
    }
    let is_lower = text[0].is_ascii_lowercase();
    let is_short = text.len() <= 32;
    is_lower && is_short && are_name_bytes(text)
}

fn are_name_bytes(text: &[u8]) -> bool
    ensures { result ≡ list_all is_name_byte text.now }
{
    text.iter().all(|b| is_name_byte(*b))
}

fn is_name_byte(b: u8) -> bool
    ensures { result ≡ is_name_byte b }
{
    b.is_ascii_lowercase() || b.is_ascii_digit() || b == b'_'
}
