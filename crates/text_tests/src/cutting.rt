//! Tokens, as they are told.

use std::alloc::Global;
use test_texts::Told;
use twelf_lexer::{LexFault, TokenKind, TokenList, lex, tokens};

/// The longest text that is cut.
const LONG: usize = 1_000;

/// The tokens of a text, each as its kind and span, and its end; or the fault.
pub(crate) fn cut(alloc: Global, text: &[u8], told: &mut Told) {
    if text.len() > LONG {
        told.say("a long text");
        return;
    }
    match lex(alloc, text) {
        Ok(cut) => {
            tell_tokens(told, &cut.tokens);
            write!(told, "end {}", cut.end);
        }
        Err(fault) => tell_fault(told, &fault),
    }
}

fn tell_fault(told: &mut Told, fault: &LexFault) {
    match *fault {
        LexFault::NotUtf8 { at } => write!(told, "not UTF-8 at {at}"),
        LexFault::OpenComment { at } => write!(told, "open comment at {at}"),
        LexFault::Memory => told.say("want of memory"),
    }
}

/// The tokens of a text without a fault.
pub(crate) fn cut_alone(alloc: Global, text: &[u8], told: &mut Told) {
    if text.len() > LONG {
        told.say("a long text");
        return;
    }
    match tokens(alloc, text) {
        Ok(list) => tell_tokens(told, &list),
        Err(_) => told.say("a fault"),
    }
}

fn tell_tokens(told: &mut Told, tokens: &TokenList) {
    for token in tokens.as_slice() {
        tell_kind(told, &token.kind);
        write!(told, " {}-{} ", token.span.from, token.span.to);
    }
}

/// Tells a kind of token.
fn tell_kind(told: &mut Told, kind: &TokenKind) {
    match kind {
        TokenKind::Ident(path) => {
            told.say("ident");
            for name in path.as_slice() {
                // A name is told as in a text of Rust, whose signs can be seen.
                write!(told, " {:?}", name.as_str());
            }
        }
        other => told.say(word(other)),
    }
}

/// The word of a kind of token that has no name.
fn word(kind: &TokenKind) -> &'static str {
    match kind {
        TokenKind::Percent => "percent",
        TokenKind::Stray => "stray",
        TokenKind::Assign => ":=",
        TokenKind::Colon => ":",
        TokenKind::LParen => "(",
        TokenKind::RParen => ")",
        TokenKind::LBracket => "[",
        TokenKind::RBracket => "]",
        TokenKind::LBrace => "{",
        TokenKind::RBrace => "}",
        TokenKind::Dot => "dot",
        TokenKind::TypeWord => "type",
        TokenKind::Arrow => "arrow",
        TokenKind::BackArrow => "back",
        TokenKind::Equal => "equal",
        TokenKind::Blank => "blank",
        TokenKind::Ident(_) => "ident",
    }
}
