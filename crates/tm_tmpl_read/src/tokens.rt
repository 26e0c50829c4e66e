// The first line of the tokens that are left.
ghost use Rattle.std.specs.Prelude.{◌≡◌, ◌≤◌, ◌<◌, ◌+◌, length, All, not, true};
ghost use Rattle.std.specs.List.{prefix_len};
ghost use Rattle.tm_lex.specs.Lines as lexed;
ghost use Rattle.tm_tmpl_read.specs.Steps as steps;

use tm_lex::{Token, TokenKind};

/// Whether the first token is this word.
#[tactic(auto, unfolding(crate::specs::Steps::opens_with))]
pub fn opens(text: &[u8], tokens: &[Token], word: &[u8]) -> bool
    requires { All (lexed.IsSpan text.now) tokens.now }
    ensures value { result ≡ steps.opens_with text.now tokens.now word.now }
    ensures some { result ≡ true → 0 < length tokens.now }
{
    match tokens {
        [] => false,
        [token, ..] => &text[token.from as usize..token.to as usize] == word,
    }
}

/// How many tokens the first line has.
pub fn line_len(tokens: &[Token]) -> usize
    requires { 0 < length tokens.now }
    ensures len { result ≡ steps.line_len tokens.now }
    ensures some { 0 < result }
    ensures within { result ≤ length tokens.now }
{
    let words = words_len(tokens);
    if words < tokens.len() {
        words + 1
    } else {
        words
    }
}

fn words_len(tokens: &[Token]) -> usize
    ensures len { result ≡ prefix_len (λ t. not (lexed.is_line_end t.kind)) tokens.now }
    ensures within { result ≤ length tokens.now }
{
    tokens
        .iter()
        .take_while(|token| !is_line_end(token.kind))
        .count()
}

fn is_line_end(kind: TokenKind) -> bool
    ensures { result ≡ lexed.is_line_end kind }
{
    match kind {
        TokenKind::LineEnd => true,
        _ => false,
    }
}
