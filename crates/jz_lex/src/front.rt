//! What stands at the front of a text.

ghost use Rattle.std.specs.Prelude.{◌≡◌, ◌<◌, ◌+◌, true, false, length, codes, option_map, None};
ghost use Rattle.std.specs.Char.{is_ascii_alphabetic};
ghost use Rattle.jz_lex.specs.Lexing.{is_blank, begins_comment};
ghost use Rattle.jz_lex.specs.LexingWords.{begins, heads, begins_word, is_digit, casts};
ghost use Rattle.jz_lex.specs.InnerFront.{first_of, numeral_length, IsFront};

use super::bytes::{
    begins_word, decimal_length, hexadecimal_length, is_blank, is_digit, is_hex_digit, word_length,
};
use super::comment::{before_end, line_length};
use super::number::numeral_value;
use super::sign::{cast_length, sign_length};
use super::string::string_length;
use super::table::begins;
use super::token::LexKind;

/// What sort of lexeme stands somewhere.
#[derive(Clone, Copy, PartialEq, Eq)]
pub(super) enum Shape {
    Word,
    Number(i128),
    Cast,
    Str,
    Sign,
}

/// What stands at the front of a text: a blank byte or a comment and its length, a lexeme and its
/// length, or no token.
#[derive(Clone, Copy, PartialEq, Eq)]
pub(super) enum Front {
    Skipped(usize),
    Lexeme(Shape, usize),
    NoToken(LexKind),
}

#[tactic(auto, unfolding(crate::specs::InnerFront::numeral_length))]
fn numeral_length(text: &[u8]) -> usize
    requires { heads is_digit text.now ≡ true }
    ensures { result ≡ numeral_length text.now }
{
    match text {
        [b'0', b'x', digit, rest @ ..] if is_hex_digit(*digit) => 3 + hexadecimal_length(rest),
        [_, rest @ ..] => 1 + decimal_length(rest),
        [] => 0,
    }
}

fn begins_with_letter(text: &[u8]) -> bool
    ensures { result ≡ heads is_ascii_alphabetic text.now }
{
    match text {
        [] => false,
        [byte, ..] => byte.is_ascii_alphabetic(),
    }
}

fn number_at(text: &[u8]) -> Front
    requires digit { heads is_digit text.now ≡ true }
    requires no_cast { option_map (λ w. length w) (first_of false casts text.now) ≡ None }
    ensures { IsFront text.now result }
{
    let length = numeral_length(text);
    let (numeral, more) = text.split_at(length);
    if begins_with_letter(more) {
        return Front::NoToken(LexKind::BadNumber);
    }
    match numeral_value(numeral) {
        Some(value) => Front::Lexeme(Shape::Number(value), length),
        None => Front::NoToken(LexKind::BadNumber),
    }
}

/// A cast is longer than the numeral that it begins with.
fn cast_or_number_at(text: &[u8]) -> Front
    requires { heads is_digit text.now ≡ true }
    ensures { IsFront text.now result }
{
    match cast_length(text) {
        Some(length) => Front::Lexeme(Shape::Cast, length),
        None => number_at(text),
    }
}

fn block_comment_at(text: &[u8]) -> Front
    requires { begins (codes "/*") text.now ≡ true }
    ensures { IsFront text.now result }
{
    match before_end(&text[2..]) {
        Some(length) => Front::Skipped(2 + length + 2),
        None => Front::NoToken(LexKind::OpenComment),
    }
}

fn no_comment_at(text: &[u8]) -> Front
    requires some { 0 < length text.now }
    requires no_comment { begins_comment text.now ≡ false }
    ensures { IsFront text.now result }
{
    match text {
        [] => unreachable!(),
        [first, rest @ ..] => {
            if is_blank(*first) {
                return Front::Skipped(1);
            }
            if begins_word(*first) {
                return Front::Lexeme(Shape::Word, 1 + word_length(rest));
            }
            if is_digit(*first) {
                return cast_or_number_at(text);
            }
            if *first == b'"' {
                return match string_length(rest) {
                    Some(length) => Front::Lexeme(Shape::Str, 1 + length),
                    None => Front::NoToken(LexKind::BadByte),
                };
            }
            match sign_length(text) {
                Some(length) => Front::Lexeme(Shape::Sign, length),
                None => Front::NoToken(LexKind::BadByte),
            }
        }
    }
}

/// What stands at the front of a text that is not empty.
pub(super) fn front_of(text: &[u8]) -> Front
    requires { 0 < length text.now }
    ensures { IsFront text.now result }
{
    if begins("//", text) {
        return Front::Skipped(line_length(text));
    }
    if begins("/*", text) {
        return block_comment_at(text);
    }
    no_comment_at(text)
}
