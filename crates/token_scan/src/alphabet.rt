ghost use Rattle.std.specs.Prelude.{◌≡◌, ◌+◌, ◌≤◌, drop, length, slice_index};
ghost use Rattle.std.specs.List.{prefix_len};
ghost use Rattle.std.specs.Char.{is_ascii_digit};
ghost use Rattle.token_scan.specs.Alphabet.{is_name_byte, is_blank, is_quotable, is_in_line, begins_name, begins_number};

// The byte at this place, and 0 past the end, which is no byte of a token.
pub fn byte_at(bytes: &[u8], at: usize) -> u8
    ensures { result ≡ slice_index bytes.now at }
{
    bytes.get(at).copied().unwrap_or(0)
}

pub fn is_name_byte(byte: u8) -> bool
    ensures { result ≡ is_name_byte byte }
{
    byte.is_ascii_alphanumeric() || byte == b'.' || byte == b'_'
}

pub fn is_blank(byte: u8) -> bool
    ensures { result ≡ is_blank byte }
{
    byte == b' ' || byte == b'\t' || byte == b'\r'
}

pub fn begins_name(bytes: &[u8]) -> bool
    ensures { result ≡ begins_name bytes.now }
{
    let first = byte_at(bytes, 0);
    first.is_ascii_alphabetic() || first == b'.' && !byte_at(bytes, 1).is_ascii_digit()
}

pub fn begins_number(bytes: &[u8]) -> bool
    ensures { result ≡ begins_number bytes.now }
{
    let first = byte_at(bytes, 0);
    first.is_ascii_digit() || first == b'.' && byte_at(bytes, 1).is_ascii_digit()
}

pub fn name_len(bytes: &[u8]) -> usize
    ensures value { result ≡ prefix_len is_name_byte bytes.now }
    ensures within { result ≤ length bytes.now }
{
    bytes.iter().take_while(|b| is_name_byte(**b)).count()
}

pub fn blank_len(bytes: &[u8]) -> usize
    ensures { result ≡ prefix_len is_blank bytes.now }
{
    bytes.iter().take_while(|b| is_blank(**b)).count()
}

pub fn line_len(bytes: &[u8]) -> usize
    ensures { result ≡ prefix_len is_in_line bytes.now }
{
    bytes.iter().take_while(|b| **b != b'\n').count()
}

pub fn quotable_len(bytes: &[u8]) -> usize
    ensures value { result ≡ prefix_len is_quotable bytes.now }
    ensures within { result ≤ length bytes.now }
{
    bytes
        .iter()
        .take_while(|b| !(**b == b'`' || **b == b'\n'))
        .count()
}

// The number of digits from this place on.
pub fn digits_from(bytes: &[u8], from: usize) -> usize
    requires { from ≤ length bytes.now }
    ensures value { result ≡ prefix_len is_ascii_digit (drop from bytes.now) }
    ensures within { from + result ≤ length bytes.now }
{
    let (_, rest) = bytes.split_at(from);
    rest.iter().take_while(|b| b.is_ascii_digit()).count()
}
