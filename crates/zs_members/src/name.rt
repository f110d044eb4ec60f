//! The names in a group, and the keys that stand for them.

ghost use Rattle.std.specs.Prelude.{◌≡◌, option_map};
ghost use Rattle.zs_members.specs.Names.{is_name_byte, is_name, name_in, behind};
ghost use Rattle.std.specs.List.{list_all};

/// The most bytes that a name may have.
const NAME_MAX: usize = 64;

/// Whether a text may be a name: it has 1 to 64 of the letters `a` to `z` and the digits.
pub fn is_name(text: &str) -> bool
    ensures { result ≡ is_name text.now }
{
    !text.is_empty() && text.len() <= NAME_MAX && are_name_bytes(text.as_bytes())
}

/// Whether each byte may stand in a name. How many there are is not looked at.
fn are_name_bytes(bytes: &[u8]) -> bool
    ensures { result ≡ list_all is_name_byte bytes.now }
{
    bytes.iter().all(|byte| is_name_byte(*byte))
}

/// Whether a byte is one of the letters `a` to `z` or a digit, in ASCII.
fn is_name_byte(byte: u8) -> bool
    ensures { result ≡ is_name_byte byte }
{
    (97 <= byte && byte <= 122) || (48 <= byte && byte <= 57)
}

/// The name that a key stands for, which is `group/` and a name.
pub fn name_in(key: &str) -> Option<&str>
    ensures { option_map (λ name. name.now) result ≡ name_in key.now }
{
    let Some(name) = behind(key, "group/") else {
        return None;
    };
    if is_name(name) { Some(name) } else { None }
}

/// What a text has behind a front; nothing where it does not begin with it.
fn behind<'a>(text: &'a str, front: &str) -> Option<&'a str>
    ensures { option_map (λ rest. rest.now) result ≡ behind front.now text.now }
{
    text.strip_prefix(front)
}
