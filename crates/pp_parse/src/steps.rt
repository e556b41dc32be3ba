//! One token.

ghost use Rattle.pp_tokens.specs.Spans.{IsSpan};
ghost use Rattle.pp_grammar.specs.Automaton.{moved, on_item_mode, step};
ghost use Rattle.pp_parse_state.specs.Shown.{move_of, shown};
ghost use Rattle.pp_parse_items.specs.Shown.{Steps, item_mode_of, parsed_of, state_of};

use crate::modes::on_mode;
use pp_parse_items::declarations::{
    on_after_at, on_after_case, on_annotation, on_declaration, on_item, on_modifiers, on_start,
};
use pp_parse_items::items::{
    on_after_import, on_after_item, on_after_object, on_after_package, on_chosen, on_object_line,
    on_object_title, on_package_name, on_path_dot, on_path_name, on_want_chosen,
};
use pp_parse_items::place::{ItemMode, Parsed, Place};
use pp_parse_state::{Current, Move, Stack, Stop};

/// The token stands between declarations.
fn on_item_mode<'a>(
    cx: &Current<'a, '_>,
    parsed: &mut Parsed<'a>,
    stack: &mut Stack<'a>,
    inside: bool,
    mode: ItemMode<'a>,
) -> Result<Place<'a>, Stop<'a>>
    requires { IsSpan cx.now.text.now cx.now.token }
    ensures { Steps result (parsed_of parsed.new) (shown stack.new) (on_item_mode cx.now.text.now cx.now.token
        (parsed_of parsed.old) inside (item_mode_of mode.entry) cx.now.token.kind) }
{
    match mode {
        ItemMode::AtStart => on_start(cx, parsed, stack, inside),
        ItemMode::AtItem => on_item(cx, parsed, stack, inside),
        ItemMode::AfterItem => on_after_item(cx, parsed, inside),
        ItemMode::AfterPackage => on_after_package(cx, inside),
        ItemMode::AfterPackageName => on_package_name(cx, inside),
        ItemMode::AfterImport => on_after_import(cx, inside),
        ItemMode::AfterPathName(first, one) => on_path_name(cx, parsed, inside, first, one),
        ItemMode::AfterPathDot(first, one) => on_path_dot(cx, parsed, inside, first, one),
        ItemMode::WantChosen(first) => on_want_chosen(cx, inside, first),
        ItemMode::AfterChosen(first) => on_chosen(cx, inside, first),
        ItemMode::AfterObject => on_after_object(cx, parsed, inside),
        ItemMode::AfterObjectTitle => on_object_title(cx),
        ItemMode::AfterObjectLine => on_object_line(cx),
        ItemMode::AfterAt => on_after_at(cx, inside),
        ItemMode::AfterAnnotation => on_annotation(cx, stack, inside),
        ItemMode::AfterAnnotationLine => on_declaration(cx, stack, inside),
        ItemMode::AfterCase => on_after_case(cx, stack, inside),
        ItemMode::AfterModifiers(sealed, case) => on_modifiers(cx, stack, inside, sealed, case),
    }
}

/// The move within a declaration. At the token behind a declaration, this joins the others.
fn moved<'a>(
    cx: &Current<'a, '_>,
    parsed: &mut Parsed<'a>,
    stack: &mut Stack<'a>,
    inside: bool,
    step: Move,
) -> Result<Place<'a>, Stop<'a>>
    requires { IsSpan cx.now.text.now cx.now.token }
    ensures { Steps result (parsed_of parsed.new) (shown stack.new) (moved cx.now.text.now cx.now.token
        (parsed_of parsed.old) inside (move_of (shown stack.old) step)) }
{
    match step {
        Move::Go(mode) => Ok(Place::Within(inside, mode)),
        Move::Ends => {
            let decl = stack.take_decl();
            parsed.declare(decl)?;
            on_after_item(cx, parsed, inside)
        }
    }
}

/// One token. Nothing follows the end.
pub(crate) fn step<'a>(
    cx: &Current<'a, '_>,
    parsed: &mut Parsed<'a>,
    stack: &mut Stack<'a>,
    place: Place<'a>,
) -> Result<Place<'a>, Stop<'a>>
    requires { IsSpan cx.now.text.now cx.now.token }
    ensures { Steps result (parsed_of parsed.new) (shown stack.new) (step cx.now.text.now cx.now.token (state_of
        (parsed_of parsed.old) (shown stack.old) place.entry)) }
{
    match place {
        Place::Between(inside, mode) => on_item_mode(cx, parsed, stack, inside, mode),
        Place::Within(inside, mode) => match on_mode(cx, stack, mode) {
            Ok(step) => moved(cx, parsed, stack, inside, step),
            Err(stop) => Err(stop),
        },
        Place::Done(_) => Err(Stop::Syntax(cx.token.from)),
    }
}
