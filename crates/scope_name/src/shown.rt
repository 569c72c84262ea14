// The names that stand in strings.
ghost use Rattle.std.specs.Prelude.{◌≡◌, ◌≤◌, length};
ghost use Rattle.std.specs.List.{prefix_len, take_while};
ghost use Rattle.dart_pieces.specs.Bytes.{is_letter, is_name_byte};

// A letter of ASCII, `_` or `$`.
fn is_letter(b: u8) -> bool
    ensures { result ≡ is_letter b }
{
    (b >= b'a' && b <= b'z') || (b >= b'A' && b <= b'Z') || b == b'_' || b == b'$'
}

// What a name behind `$` is made of.
fn is_name_byte(b: u8) -> bool
    ensures { result ≡ is_name_byte b }
{
    (is_letter(b) || (b >= b'0' && b <= b'9')) && b != b'$'
}

fn name_len(text: &[u8]) -> usize
    ensures value { result ≡ prefix_len is_name_byte text.now }
    ensures within { result ≤ length text.now }
{
    text.iter().take_while(|b| is_name_byte(**b)).count()
}

/// What a text behind a `$` begins with that may be a name (ECMA-408, 16.5.1 String Interpolation); empty where it begins with
/// none.
pub(crate) fn name_at_front(text: &[u8]) -> &[u8]
    ensures { result.now ≡ take_while is_name_byte text.now }
{
    &text[..name_len(text)]
}
