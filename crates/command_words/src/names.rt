ghost use Rattle.std.specs.Prelude.{◌≡◌};
ghost use Rattle.command_words.specs.Names.{is_name_byte, all_bytes, starts_with_digit, is_name, is_reserved, is_free_name};

/// Whether a name may go on with this byte.
pub fn is_name_byte(byte: u8) -> bool
    ensures { result ≡ is_name_byte byte }
{
    byte.is_ascii_alphanumeric() || (byte == b'.' || byte == b'_')
}

fn all_name_bytes(bytes: &[u8]) -> bool
    ensures { result ≡ all_bytes is_name_byte bytes.now }
{
    for byte in bytes {
        if !is_name_byte(*byte) {
            return false;
        }
    }
    true
}

fn starts_with_digit(bytes: &[u8]) -> bool
    ensures { result ≡ starts_with_digit bytes.now }
{
    match bytes {
        [] => false,
        [first, ..] => first.is_ascii_digit(),
    }
}

/// Whether these bytes are a name without backquotes.
#[tactic(auto, unfolding(crate::specs::Names::is_name))]
pub fn is_name(bytes: &[u8]) -> bool
    ensures { result ≡ is_name bytes.now }
{
    match bytes {
        [] => false,
        [first, rest @ ..] => (first.is_ascii_alphabetic()
            || (*first == b'.' && !starts_with_digit(rest)))
            && all_name_bytes(rest),
    }
}

#[tactic(auto, unfolding(crate::specs::Names::is_reserved))]
fn is_reserved(bytes: &[u8]) -> bool
    ensures { result ≡ is_reserved bytes.now }
{
    bytes == b"TRUE".as_slice()
        || bytes == b"FALSE".as_slice()
        || bytes == b"NA".as_slice()
        || bytes == b"NA_integer_".as_slice()
        || bytes == b"NA_real_".as_slice()
        || bytes == b"NA_character_".as_slice()
}

/// Whether these bytes are a name that is no reserved word.
pub fn is_free_name(bytes: &[u8]) -> bool
    ensures { result ≡ is_free_name bytes.now }
{
    is_name(bytes) && !is_reserved(bytes)
}
