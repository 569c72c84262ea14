// Comments.
ghost use Rattle.std.specs.Prelude.{◌≡◌, ◌<◌, ◌+◌, ◌^◌, ℕ, Some};
ghost use Rattle.std.specs.List.{prefix_len};
ghost use Rattle.dart_pieces.specs.Bytes.{in_line};
ghost use Rattle.dart_pieces.specs.Comments.{is_open_mark, is_close_mark};
ghost use Rattle.dart_pieces.specs.Reader.{after_two, is_comment, is_block, scan, block_found};

use crate::bytes::{after_two, line_len};
use crate::piece::{LexReason, PieceClass};

pub(crate) fn is_comment(text: &[u8]) -> bool
    ensures { result ≡ is_comment text.now }
{
    match text {
        [a, b, ..] => *a == b'/' && *b == b'/',
        _ => false,
    }
}

pub(crate) fn comment_len(text: &[u8]) -> usize
    ensures { result ≡ 2 + prefix_len in_line (after_two text.now) }
{
    match text {
        [_, _, more @ ..] => 2 + line_len(more),
        _ => 2,
    }
}

pub(crate) fn is_block(text: &[u8]) -> bool
    ensures { result ≡ is_block text.now }
{
    match text {
        [a, b, ..] => *a == b'/' && *b == b'*',
        _ => false,
    }
}

fn is_open_mark(a: u8, b: u8) -> bool
    ensures { result ≡ is_open_mark a b }
{
    a == b'/' && b == b'*'
}

fn is_close_mark(a: u8, b: u8) -> bool
    ensures { result ≡ is_close_mark a b }
{
    a == b'*' && b == b'/'
}

// How many bytes close the one comment that is open, if they do.
fn scan(text: &[u8]) -> Option<usize>
    ensures size { (n : ℕ) → result ≡ Some n → n < 2 ^ 63 }
    ensures value { result ≡ scan 1 text.now }
{
    let mut depth: usize = 1;
    let mut at: usize = 0;
    while depth > 0 {
        if text.len() - at < 2 {
            return None;
        }
        let a = text[at];
        let b = text[at + 1];
        if is_open_mark(a, b) {
            depth += 1;
            at += 2;
        } else if is_close_mark(a, b) {
            depth -= 1;
            at += 2;
        } else {
            at += 1;
        }
    }
    Some(at)
}

fn block_found(scanned: Option<usize>) -> (PieceClass, usize)
    requires { (n : ℕ) → scanned ≡ Some n → n < 2 ^ 63 }
    ensures { result ≡ block_found scanned }
{
    match scanned {
        Some(length) => (PieceClass::Comment, 2 + length),
        None => (PieceClass::Refused(LexReason::Unknown), 2),
    }
}

/// The comment at the front of a text that begins with `/*`.
pub(crate) fn block_at(text: &[u8]) -> (PieceClass, usize)
    ensures { result ≡ block_found (scan 1 (after_two text.now)) }
{
    block_found(scan(after_two(text)))
}
