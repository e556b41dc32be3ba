//! The steps at what begins a declaration.

ghost use Rattle.std.specs.Prelude.{◌≡◌};
ghost use Rattle.pp_tokens.specs.Spans.{IsSpan};
ghost use Rattle.pp_grammar.specs.Words.{is_trait_word};
ghost use Rattle.pp_grammar.specs.Frames.{Parsed as plain_parsed};
ghost use Rattle.pp_grammar.specs.StepItems.{on_after_at, on_after_case, on_annotation, on_class_word};
ghost use Rattle.pp_grammar.specs.StepItems.{on_declaration, on_def, on_item, on_modifiers, on_start};
ghost use Rattle.pp_parse_state.specs.Shown.{Shown, shown};
ghost use Rattle.pp_parse_items.specs.Shown.{Steps, parsed_of};

use crate::items::{on_object_closed, on_object_word, on_unit_end};
use crate::place::{ItemMode, Parsed, Place};
use pp_parse_state::words::is_known_annotation;
use pp_parse_state::{Current, Kind, Mode, Stack, Stop};
use pp_tokens::{Bracket, Operator, Reserved, TokenKind};

/// The word that begins a class (false) or a trait (true).
fn trait_word(kind: TokenKind) -> Option<bool>
    ensures { result ≡ is_trait_word kind }
{
    match kind {
        TokenKind::Word(Reserved::Class) => Some(false),
        TokenKind::Word(Reserved::Trait) => Some(true),
        _ => None,
    }
}

/// `class` or `trait` is wanted behind its modifiers.
fn on_class_word<'a>(
    cx: &Current<'a, '_>,
    stack: &mut Stack<'a>,
    inside: bool,
    sealed: bool,
    case: bool,
) -> Result<Place<'a>, Stop<'a>>
    requires { IsSpan cx.now.text.now cx.now.token }
    ensures { (d : plain_parsed) → Steps result d (shown stack.new) (on_class_word cx.now.text.now cx.now.token d
        inside (record { sealed = sealed; case = case }) (is_trait_word cx.now.token.kind)) }
{
    match trait_word(cx.token.kind) {
        Some(is_trait) => {
            stack.clear();
            let kind = Kind::Class {
                sealed,
                case,
                is_trait,
            };
            Ok(Place::Within(inside, Mode::WantName(kind)))
        }
        None => Err(cx.refuse()),
    }
}

/// A modifier, or `class` or `trait`.
pub fn on_modifiers<'a>(
    cx: &Current<'a, '_>,
    stack: &mut Stack<'a>,
    inside: bool,
    sealed: bool,
    case: bool,
) -> Result<Place<'a>, Stop<'a>>
    requires { IsSpan cx.now.text.now cx.now.token }
    ensures { (d : plain_parsed) → Steps result d (shown stack.new) (on_modifiers cx.now.text.now cx.now.token d
        inside (record { sealed = sealed; case = case }) cx.now.token.kind) }
{
    match cx.token.kind {
        TokenKind::Word(Reserved::Sealed) => Ok(Place::Between(
            inside,
            ItemMode::AfterModifiers(true, case),
        )),
        TokenKind::Word(Reserved::Case) => Ok(Place::Between(
            inside,
            ItemMode::AfterModifiers(sealed, true),
        )),
        TokenKind::Word(Reserved::Abstract) | TokenKind::Word(Reserved::Final) => {
            Ok(Place::Between(inside, ItemMode::AfterModifiers(sealed, case)))
        }
        _ => on_class_word(cx, stack, inside, sealed, case),
    }
}

/// `def`: functions stand in objects alone.
fn on_def<'a>(
    cx: &Current<'a, '_>,
    stack: &mut Stack<'a>,
    inside: bool,
) -> Result<Place<'a>, Stop<'a>>
    requires { IsSpan cx.now.text.now cx.now.token }
    ensures { (d : plain_parsed) → Steps result d (shown stack.new) (on_def cx.now.text.now cx.now.token d inside) }
{
    if !inside {
        return Err(cx.refuse());
    }
    stack.clear();
    Ok(Place::Within(true, Mode::WantName(Kind::Def)))
}

/// A class, a function or another annotation is wanted.
pub fn on_declaration<'a>(
    cx: &Current<'a, '_>,
    stack: &mut Stack<'a>,
    inside: bool,
) -> Result<Place<'a>, Stop<'a>>
    requires { IsSpan cx.now.text.now cx.now.token }
    ensures { (d : plain_parsed) → Steps result d (shown stack.new) (on_declaration cx.now.text.now cx.now.token d
        inside cx.now.token.kind) }
{
    match cx.token.kind {
        TokenKind::Op(Operator::At) => Ok(Place::Between(inside, ItemMode::AfterAt)),
        TokenKind::Word(Reserved::Def) => on_def(cx, stack, inside),
        TokenKind::Word(Reserved::Case) => Ok(Place::Between(inside, ItemMode::AfterCase)),
        _ => on_modifiers(cx, stack, inside, false, false),
    }
}

/// Behind `case`, the first word of a class.
pub fn on_after_case<'a>(
    cx: &Current<'a, '_>,
    stack: &mut Stack<'a>,
    inside: bool,
) -> Result<Place<'a>, Stop<'a>>
    requires { IsSpan cx.now.text.now cx.now.token }
    ensures { (d : plain_parsed) → Steps result d (shown stack.new) (on_after_case cx.now.text.now cx.now.token d
        inside cx.now.token.kind) }
{
    match cx.token.kind {
        TokenKind::Word(Reserved::Object) => {
            stack.clear();
            Ok(Place::Within(inside, Mode::WantObjectName))
        }
        _ => on_modifiers(cx, stack, inside, false, true),
    }
}

/// Behind `@`.
pub fn on_after_at<'a>(cx: &Current<'a, '_>, inside: bool) -> Result<Place<'a>, Stop<'a>>
    requires { IsSpan cx.now.text.now cx.now.token }
    ensures { (d : plain_parsed) (s : Shown) → Steps result d s (on_after_at cx.now.text.now cx.now.token d
        inside cx.now.token.kind) }
{
    match cx.token.kind {
        TokenKind::Name => {
            if !is_known_annotation(cx.text()) {
                return Err(cx.unsupported());
            }
            Ok(Place::Between(inside, ItemMode::AfterAnnotation))
        }
        _ => Err(cx.refuse()),
    }
}

/// Behind an annotation.
pub fn on_annotation<'a>(
    cx: &Current<'a, '_>,
    stack: &mut Stack<'a>,
    inside: bool,
) -> Result<Place<'a>, Stop<'a>>
    requires { IsSpan cx.now.text.now cx.now.token }
    ensures { (d : plain_parsed) → Steps result d (shown stack.new) (on_annotation cx.now.text.now cx.now.token d
        inside cx.now.token.kind) }
{
    match cx.token.kind {
        TokenKind::Newline => Ok(Place::Between(inside, ItemMode::AfterAnnotationLine)),
        _ => on_declaration(cx, stack, inside),
    }
}

/// An item or a member may begin here.
pub fn on_item<'a>(
    cx: &Current<'a, '_>,
    parsed: &mut Parsed<'a>,
    stack: &mut Stack<'a>,
    inside: bool,
) -> Result<Place<'a>, Stop<'a>>
    requires { IsSpan cx.now.text.now cx.now.token }
    ensures { Steps result (parsed_of parsed.new) (shown stack.new) (on_item cx.now.text.now cx.now.token
        (parsed_of parsed.old) inside cx.now.token.kind) }
{
    match cx.token.kind {
        TokenKind::Newline | TokenKind::Mark(Bracket::Semicolon) => Ok(Place::Between(
            inside,
            ItemMode::AtItem,
        )),
        TokenKind::Mark(Bracket::CloseBrace) => on_object_closed(cx, inside),
        TokenKind::End => on_unit_end(cx, parsed, inside),
        TokenKind::Word(Reserved::Import) => Ok(Place::Between(inside, ItemMode::AfterImport)),
        TokenKind::Word(Reserved::Object) => on_object_word(cx, inside),
        _ => on_declaration(cx, stack, inside),
    }
}

/// At the start of the source.
pub fn on_start<'a>(
    cx: &Current<'a, '_>,
    parsed: &mut Parsed<'a>,
    stack: &mut Stack<'a>,
    inside: bool,
) -> Result<Place<'a>, Stop<'a>>
    requires { IsSpan cx.now.text.now cx.now.token }
    ensures { Steps result (parsed_of parsed.new) (shown stack.new) (on_start cx.now.text.now cx.now.token
        (parsed_of parsed.old) inside cx.now.token.kind) }
{
    match cx.token.kind {
        TokenKind::Newline | TokenKind::Mark(Bracket::Semicolon) => Ok(Place::Between(
            inside,
            ItemMode::AtStart,
        )),
        TokenKind::Word(Reserved::Package) => Ok(Place::Between(inside, ItemMode::AfterPackage)),
        _ => on_item(cx, parsed, stack, inside),
    }
}
