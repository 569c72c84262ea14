// Classes of bytes, and runs of them.
ghost use Rattle.std.specs.Prelude.{◌≡◌, ◌≤◌, length};
ghost use Rattle.std.specs.List.{prefix_len};
ghost use Rattle.dart_pieces.specs.Bytes.{is_blank, is_digit, is_letter, is_word_byte, is_hex_digit, is_x, is_exponent, is_plus_or_minus, in_line, is_inner, is_name_byte, is_name_start};
ghost use Rattle.dart_pieces.specs.Reader.{after_two, begins};

pub(crate) fn is_blank(b: u8) -> bool
    ensures { result ≡ is_blank b }
{
    b == b' ' || b == b'\t' || b == b'\r' || b == b'\n'
}

pub(crate) fn is_digit(b: u8) -> bool
    ensures { result ≡ is_digit b }
{
    b >= b'0' && b <= b'9'
}

pub(crate) fn is_letter(b: u8) -> bool
    ensures { result ≡ is_letter b }
{
    (b >= b'a' && b <= b'z') || (b >= b'A' && b <= b'Z') || b == b'_' || b == b'$'
}

pub(crate) fn is_word_byte(b: u8) -> bool
    ensures { result ≡ is_word_byte b }
{
    is_letter(b) || is_digit(b)
}

pub(crate) fn is_hex_digit(b: u8) -> bool
    ensures { result ≡ is_hex_digit b }
{
    is_digit(b) || (b >= b'a' && b <= b'f') || (b >= b'A' && b <= b'F')
}

pub(crate) fn is_x(b: u8) -> bool
    ensures { result ≡ is_x b }
{
    b == b'x' || b == b'X'
}

pub(crate) fn is_exponent(b: u8) -> bool
    ensures { result ≡ is_exponent b }
{
    b == b'e' || b == b'E'
}

pub(crate) fn is_plus_or_minus(b: u8) -> bool
    ensures { result ≡ is_plus_or_minus b }
{
    b == b'+' || b == b'-'
}

pub(crate) fn is_inner(b: u8) -> bool
    ensures { result ≡ is_inner b }
{
    b != b'\n' && b != b'\r'
}

pub(crate) fn is_name_byte(b: u8) -> bool
    ensures { result ≡ is_name_byte b }
{
    is_word_byte(b) && b != b'$'
}

pub(crate) fn is_name_start(b: u8) -> bool
    ensures { result ≡ is_name_start b }
{
    is_letter(b) && b != b'$'
}

pub(crate) fn blanks_len(text: &[u8]) -> usize
    ensures value { result ≡ prefix_len is_blank text.now }
    ensures within { result ≤ length text.now }
{
    text.iter().take_while(|b| is_blank(**b)).count()
}

pub(crate) fn word_len(text: &[u8]) -> usize
    ensures value { result ≡ prefix_len is_word_byte text.now }
    ensures within { result ≤ length text.now }
{
    text.iter().take_while(|b| is_word_byte(**b)).count()
}

pub(crate) fn name_len(text: &[u8]) -> usize
    ensures value { result ≡ prefix_len is_name_byte text.now }
    ensures within { result ≤ length text.now }
{
    text.iter().take_while(|b| is_name_byte(**b)).count()
}

pub(crate) fn digits_len(text: &[u8]) -> usize
    ensures value { result ≡ prefix_len is_digit text.now }
    ensures within { result ≤ length text.now }
{
    text.iter().take_while(|b| is_digit(**b)).count()
}

pub(crate) fn hex_digits_len(text: &[u8]) -> usize
    ensures value { result ≡ prefix_len is_hex_digit text.now }
    ensures within { result ≤ length text.now }
{
    text.iter().take_while(|b| is_hex_digit(**b)).count()
}

pub(crate) fn line_len(text: &[u8]) -> usize
    ensures value { result ≡ prefix_len in_line text.now }
    ensures within { result ≤ length text.now }
{
    text.iter().take_while(|b| **b != b'\n').count()
}

pub(crate) fn after_two(text: &[u8]) -> &[u8]
    ensures { result.now ≡ after_two text.now }
{
    match text {
        [_, _, more @ ..] => more,
        _ => &[],
    }
}

pub(crate) fn begins(b: u8, text: &[u8]) -> bool
    ensures { result ≡ begins b text.now }
{
    match text {
        [a, ..] => *a == b,
        [] => false,
    }
}
