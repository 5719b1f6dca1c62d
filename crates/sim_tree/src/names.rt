//! Whether a text is the name of a child, before anything is made of it.

ghost use Rattle.std.specs.{List.list_all, Prelude.◌≡◌};
ghost use Rattle.sim_base.specs.Names.{is_name as is_name_of_bytes, is_name_byte};

/// Whether a text is a name: 1 to 64 bytes of printed ASCII.
pub fn is_name(text: &str) -> bool
    ensures { result ≡ is_name_of_bytes text.now }
{
    let bytes = text.as_bytes();
    1 <= bytes.len() && bytes.len() <= 64 && are_name_bytes(bytes)
}

fn are_name_bytes(bytes: &[u8]) -> bool
    ensures { result ≡ list_all is_name_byte bytes.now }
{
    bytes.iter().all(|byte| byte.is_ascii_graphic())
}
