// Tokens written out.
ghost use Rattle.std.specs.Prelude.{◌≡◌, ◌++◌, ℕ, [], replicate, IfOk, OnOk};
ghost use Rattle.std.specs.Str.{byte};
ghost use Rattle.dart_lex.specs.Render.{is_greater, begins_greater, separator, text_behind, rendered, Rising, Nests, InUnit, InRange, Restores};

use dart_base::bytes::Bytes;
use dart_token::sign::Sign;
use dart_token::token::{Token, TokenKind};
use std::alloc::{AllocError, Global};

/// The text of tokens: each stands on its own line, and the last is followed by a line feed.
///
/// Tokens of a line are parted by one blank, but `>` and a following `>` or `>=` by nothing. No token gives no byte. A
/// token whose line is before that of the token before it stands on that one's line.
/// Where no line is before the one before it, each lexeme is one of its kind, strings and braces nest and no integer is
/// too large, lexing the text gives the tokens back, columns aside.
pub fn render(alloc: Global, tokens: &[Token]) -> Result<Bytes, AllocError>
    ensures text { IfOk result (λ bytes. bytes ≡ rendered tokens.now) }
    ensures restores { IfOk result (λ bytes. (unit : ℕ) → Rising 1 tokens.now → Nests [] tokens.now
        → InUnit unit tokens.now → InRange tokens.now → Restores unit tokens.now bytes) }
{
    let mut out = Bytes::new(alloc);
    push_tokens(&mut out, tokens)?;
    Ok(out)
}

// Adds the text of tokens.
fn push_tokens(out: &mut Bytes, tokens: &[Token]) -> Result<(), AllocError>
    ensures { OnOk result (out.new ≡ out.old ++ rendered tokens.now) }
{
    let [first, more @ ..] = tokens else {
        return Ok(());
    };
    push_lines(out, first.place.line.saturating_sub(1))?;
    out.append(first.lexeme.as_slice())?;
    push_behind(out, first, more)
}

// Adds the text behind a token.
fn push_behind(out: &mut Bytes, first: &Token, tokens: &[Token]) -> Result<(), AllocError>
    ensures { OnOk result (out.new ≡ out.old ++ text_behind first.now tokens.now) }
{
    let mut before = first;
    for token in tokens {
        push_separator(out, before, token)?;
        out.append(token.lexeme.as_slice())?;
        before = token;
    }
    out.push(b'\n')
}

fn push_separator(out: &mut Bytes, before: &Token, token: &Token) -> Result<(), AllocError>
    ensures { OnOk result (out.new ≡ out.old ++ separator before.now token.now) }
{
    if before.place.line < token.place.line {
        return push_lines(out, token.place.line - before.place.line);
    }
    if is_greater(before.kind) && begins_greater(token.kind) {
        return Ok(());
    }
    out.push(b' ')
}

fn push_lines(out: &mut Bytes, count: u32) -> Result<(), AllocError>
    ensures { OnOk result (out.new ≡ out.old ++ replicate count (byte "\n")) }
{
    for _ in 0..count {
        out.push(b'\n')?;
    }
    Ok(())
}

fn is_greater(kind: TokenKind) -> bool
    ensures { result ≡ is_greater kind }
{
    match kind {
        TokenKind::Sign(Sign::Greater) => true,
        _ => false,
    }
}

fn begins_greater(kind: TokenKind) -> bool
    ensures { result ≡ begins_greater kind }
{
    match kind {
        TokenKind::Sign(Sign::Greater | Sign::GreaterEqual) => true,
        _ => false,
    }
}
