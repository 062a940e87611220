//! Names of boxes, floats, marks and notes.

ghost use Rattle.std.specs.Prelude.{◌≡◌, ◌<◌, ◌≤◌, length, Some, None, true, if◌then◌else◌};
ghost use Rattle.std.specs.List.{list_all, fold};
ghost use Rattle.tb_node.specs.Names.{is_name, is_alphanumeric, is_name_byte, with_name_byte};

use crate::Name;

/// These bytes as a name; `None` if they are no name.
pub fn name_of(bytes: &[u8]) -> Option<Name>
    ensures { result ≡ if is_name bytes.now then Some bytes.now else None }
{
    if !is_name(bytes) {
        return None;
    }
    let mut name = [0; 63];
    name[..bytes.len()].copy_from_slice(bytes);
    Some(Name {
        len: bytes.len() as u8,
        bytes: name,
    })
}

fn is_name(bytes: &[u8]) -> bool
    ensures value { result ≡ is_name bytes.now }
    ensures length { result ≡ true → (0 < length bytes.now) × (length bytes.now ≤ 63) }
{
    match bytes {
        [] => false,
        [first, rest @ ..] => is_alphanumeric(*first) && are_name_bytes(rest) && rest.len() <= 62,
    }
}

fn are_name_bytes(bytes: &[u8]) -> bool
    ensures { result ≡ list_all is_name_byte bytes.now }
{
    name_bytes_folded(bytes)
}

// No test ends this loop early, so it takes two instructions for a byte.
fn name_bytes_folded(bytes: &[u8]) -> bool
    ensures { result ≡ fold with_name_byte true bytes.now }
{
    bytes.iter().fold(true, |all, b| with_name_byte(all, *b))
}

fn with_name_byte(all: bool, byte: u8) -> bool
    ensures { result ≡ with_name_byte all byte }
{
    all & is_name_byte(byte)
}

fn is_alphanumeric(byte: u8) -> bool
    ensures { result ≡ is_alphanumeric byte }
{
    (b'0' <= byte && byte <= b'9')
        || (b'A' <= byte && byte <= b'Z')
        || (b'a' <= byte && byte <= b'z')
}

fn is_name_byte(byte: u8) -> bool
    ensures { result ≡ is_name_byte byte }
{
    NAME_BYTES[usize::from(byte)]
}

// Whether each byte may be in a name: letters, digits, `.`, `_` and `-`. A look-up here costs half of what the tests
// do.
const NAME_BYTES: [bool; 256] = [
    false, false, false, false, false, false, false, false, false, false, false, false, false,
    false, false, false, false, false, false, false, false, false, false, false, false, false,
    false, false, false, false, false, false, false, false, false, false, false, false, false,
    false, false, false, false, false, false, true, true, false, true, true, true, true, true,
    true, true, true, true, true, false, false, false, false, false, false, false, true, true,
    true, true, true, true, true, true, true, true, true, true, true, true, true, true, true, true,
    true, true, true, true, true, true, true, true, false, false, false, false, true, false, true,
    true, true, true, true, true, true, true, true, true, true, true, true, true, true, true, true,
    true, true, true, true, true, true, true, true, true, false, false, false, false, false, false,
    false, false, false, false, false, false, false, false, false, false, false, false, false,
    false, false, false, false, false, false, false, false, false, false, false, false, false,
    false, false, false, false, false, false, false, false, false, false, false, false, false,
    false, false, false, false, false, false, false, false, false, false, false, false, false,
    false, false, false, false, false, false, false, false, false, false, false, false, false,
    false, false, false, false, false, false, false, false, false, false, false, false, false,
    false, false, false, false, false, false, false, false, false, false, false, false, false,
    false, false, false, false, false, false, false, false, false, false, false, false, false,
    false, false, false, false, false, false, false, false, false, false, false, false, false,
    false, false, false, false, false, false, false, false, false, false,
];
