ghost use Rattle.std.specs.Prelude.{◌≡◌, ◌≤◌, length};
ghost use Rattle.std.specs.List.{prefix_len};
ghost use Rattle.mz_tree.specs.Bytes.{is_blank, is_inside_line, is_small, is_capital, is_digit, is_name_byte};

pub fn blank(byte: u8) -> bool
    ensures { result ≡ is_blank byte }
{
    byte == b'\t' || byte == b'\n' || byte == b'\r' || byte == b' '
}

pub fn small(byte: u8) -> bool
    ensures { result ≡ is_small byte }
{
    byte.is_ascii_lowercase() || byte == b'_'
}

pub fn capital(byte: u8) -> bool
    ensures { result ≡ is_capital byte }
{
    byte.is_ascii_uppercase()
}

pub fn digit(byte: u8) -> bool
    ensures { result ≡ is_digit byte }
{
    byte.is_ascii_digit()
}

pub fn name_byte(byte: u8) -> bool
    ensures { result ≡ is_name_byte byte }
{
    small(byte) || capital(byte) || digit(byte)
}

/// How many blanks stand at the front.
pub fn blanks(bytes: &[u8]) -> usize
    ensures { result ≡ prefix_len is_blank bytes.now }
{
    bytes.iter().take_while(|byte| blank(**byte)).count()
}

/// How many bytes of a name stand at the front.
pub fn name_bytes(bytes: &[u8]) -> usize
    ensures { result ≡ prefix_len is_name_byte bytes.now }
{
    bytes.iter().take_while(|byte| name_byte(**byte)).count()
}

/// How many digits stand at the front.
pub fn digits(bytes: &[u8]) -> usize
    ensures { result ≡ prefix_len is_digit bytes.now }
{
    bytes.iter().take_while(|byte| digit(**byte)).count()
}

/// How many bytes stand before the line's end.
pub fn rest_of_line(bytes: &[u8]) -> usize
    ensures { result ≡ prefix_len is_inside_line bytes.now }
{
    bytes.iter().take_while(|byte| **byte != b'\n').count()
}
