//! The steps between declarations: packages, imports, objects, and the end.

ghost use Rattle.std.specs.Prelude.{List};
ghost use Rattle.pp_tokens.specs.Spans.{IsSpan};
ghost use Rattle.pp_grammar.specs.Frames.{Parsed as plain_parsed};
ghost use Rattle.pp_grammar.specs.StepItems.{on_after_import, on_after_item, on_after_object, on_after_package};
ghost use Rattle.pp_grammar.specs.StepItems.{on_chosen, on_import_all, on_object_closed, on_object_import};
ghost use Rattle.pp_grammar.specs.StepItems.{on_object_line, on_object_title, on_object_word, on_other_import};
ghost use Rattle.pp_grammar.specs.StepItems.{on_package_name, on_path_dot, on_path_end, on_path_name, on_unit_end};
ghost use Rattle.pp_grammar.specs.StepItems.{on_want_chosen};
ghost use Rattle.pp_parse_state.specs.Shown.{Shown};
ghost use Rattle.pp_parse_state.specs.Values.{placed_of};
ghost use Rattle.pp_parse_items.specs.Shown.{Steps, parsed_of};

use crate::place::{ItemMode, Parsed, Place};
use pp_parse_state::words::is_library;
use pp_parse_state::{Current, Placed, Stop};
use pp_tokens::{Bracket, TokenKind};

/// A brace closes an object.
pub fn on_object_closed<'a>(cx: &Current<'a, '_>, inside: bool) -> Result<Place<'a>, Stop<'a>>
    requires { IsSpan cx.now.text.now cx.now.token }
    ensures { (d : plain_parsed) (s : Shown) → Steps result d s
        (on_object_closed cx.now.text.now cx.now.token d inside) }
{
    if !inside {
        return Err(cx.refuse());
    }
    Ok(Place::Between(false, ItemMode::AfterItem))
}

/// The tokens end.
pub fn on_unit_end<'a>(
    cx: &Current<'a, '_>,
    parsed: &mut Parsed<'a>,
    inside: bool,
) -> Result<Place<'a>, Stop<'a>>
    requires { IsSpan cx.now.text.now cx.now.token }
    ensures { (s : Shown) → Steps result (parsed_of parsed.new) s (on_unit_end cx.now.text.now cx.now.token
        (parsed_of parsed.old) inside) }
{
    if inside {
        return Err(cx.refuse());
    }
    Ok(Place::Done(parsed.unit(cx.arena)?))
}

/// Behind an item or a member.
pub fn on_after_item<'a>(
    cx: &Current<'a, '_>,
    parsed: &mut Parsed<'a>,
    inside: bool,
) -> Result<Place<'a>, Stop<'a>>
    requires { IsSpan cx.now.text.now cx.now.token }
    ensures { (s : Shown) → Steps result (parsed_of parsed.new) s (on_after_item cx.now.text.now
        cx.now.token (parsed_of parsed.old) inside cx.now.token.kind) }
{
    match cx.token.kind {
        TokenKind::Newline | TokenKind::Mark(Bracket::Semicolon) => Ok(Place::Between(
            inside,
            ItemMode::AtItem,
        )),
        TokenKind::Mark(Bracket::CloseBrace) => on_object_closed(cx, inside),
        TokenKind::End => on_unit_end(cx, parsed, inside),
        _ => Err(cx.refuse()),
    }
}

/// An import is read that has another form than `import X._`.
fn on_other_import<'a>(
    cx: &Current<'a, '_>,
    inside: bool,
    first: Placed<'a>,
    library: bool,
) -> Result<Place<'a>, Stop<'a>>
    requires { IsSpan cx.now.text.now cx.now.token }
    ensures { (d : plain_parsed) (s : Shown) → Steps result d s (on_other_import cx.now.text.now
        cx.now.token d inside (placed_of first.entry) library) }
{
    if !library {
        return Err(Stop::Unsupported(first.word, first.at));
    }
    Ok(Place::Between(inside, ItemMode::AfterItem))
}

/// A path ends the import before it.
fn on_path_end<'a>(
    cx: &Current<'a, '_>,
    parsed: &mut Parsed<'a>,
    inside: bool,
    first: Placed<'a>,
    library: bool,
) -> Result<Place<'a>, Stop<'a>>
    requires { IsSpan cx.now.text.now cx.now.token }
    ensures { (s : Shown) → Steps result (parsed_of parsed.new) s (on_path_end cx.now.text.now cx.now.token
        (parsed_of parsed.old) inside (placed_of first.entry) library cx.now.token.kind) }
{
    if !library {
        return Err(Stop::Unsupported(first.word, first.at));
    }
    on_after_item(cx, parsed, inside)
}

/// `import X._` is read.
fn on_object_import<'a>(
    cx: &Current<'a, '_>,
    parsed: &mut Parsed<'a>,
    inside: bool,
    first: Placed<'a>,
    library: bool,
) -> Result<Place<'a>, Stop<'a>>
    requires { IsSpan cx.now.text.now cx.now.token }
    ensures { (s : Shown) → Steps result (parsed_of parsed.new) s (on_object_import cx.now.text.now
        cx.now.token (parsed_of parsed.old) inside (placed_of first.entry) library) }
{
    if !library {
        parsed.import(first)?;
    }
    Ok(Place::Between(inside, ItemMode::AfterItem))
}

/// An import of all members is read.
fn on_import_all<'a>(
    cx: &Current<'a, '_>,
    parsed: &mut Parsed<'a>,
    inside: bool,
    first: Placed<'a>,
    one: bool,
) -> Result<Place<'a>, Stop<'a>>
    requires { IsSpan cx.now.text.now cx.now.token }
    ensures { (s : Shown) → Steps result (parsed_of parsed.new) s (on_import_all cx.now.text.now
        cx.now.token (parsed_of parsed.old) inside (placed_of first.entry) one) }
{
    let library = is_library(first.word);
    if one {
        return on_object_import(cx, parsed, inside, first, library);
    }
    on_other_import(cx, inside, first, library)
}

/// Behind `import`.
pub fn on_after_import<'a>(cx: &Current<'a, '_>, inside: bool) -> Result<Place<'a>, Stop<'a>>
    requires { IsSpan cx.now.text.now cx.now.token }
    ensures { (d : plain_parsed) (s : Shown) → Steps result d s (on_after_import cx.now.text.now
        cx.now.token d inside cx.now.token.kind) }
{
    match cx.token.kind {
        TokenKind::Name => {
            let first = Placed {
                word: cx.word()?,
                at: cx.token.from,
            };
            Ok(Place::Between(inside, ItemMode::AfterPathName(first, true)))
        }
        _ => Err(cx.refuse()),
    }
}

/// Behind a name of an import's path.
pub fn on_path_name<'a>(
    cx: &Current<'a, '_>,
    parsed: &mut Parsed<'a>,
    inside: bool,
    first: Placed<'a>,
    one: bool,
) -> Result<Place<'a>, Stop<'a>>
    requires { IsSpan cx.now.text.now cx.now.token }
    ensures { (s : Shown) → Steps result (parsed_of parsed.new) s (on_path_name cx.now.text.now
        cx.now.token (parsed_of parsed.old) inside (placed_of first.entry) one cx.now.token.kind) }
{
    match cx.token.kind {
        TokenKind::Mark(Bracket::Dot) => Ok(Place::Between(
            inside,
            ItemMode::AfterPathDot(first, one),
        )),
        _ => on_path_end(cx, parsed, inside, first, is_library(first.word)),
    }
}

/// Behind a dot of an import's path.
pub fn on_path_dot<'a>(
    cx: &Current<'a, '_>,
    parsed: &mut Parsed<'a>,
    inside: bool,
    first: Placed<'a>,
    one: bool,
) -> Result<Place<'a>, Stop<'a>>
    requires { IsSpan cx.now.text.now cx.now.token }
    ensures { (s : Shown) → Steps result (parsed_of parsed.new) s (on_path_dot cx.now.text.now cx.now.token
        (parsed_of parsed.old) inside (placed_of first.entry) one cx.now.token.kind) }
{
    match cx.token.kind {
        TokenKind::Name => Ok(Place::Between(inside, ItemMode::AfterPathName(first, false))),
        TokenKind::Hole => on_import_all(cx, parsed, inside, first, one),
        TokenKind::Mark(Bracket::OpenBrace) => Ok(Place::Between(
            inside,
            ItemMode::WantChosen(first),
        )),
        _ => Err(cx.refuse()),
    }
}

/// A name in the braces of an import is wanted.
pub fn on_want_chosen<'a>(
    cx: &Current<'a, '_>,
    inside: bool,
    first: Placed<'a>,
) -> Result<Place<'a>, Stop<'a>>
    requires { IsSpan cx.now.text.now cx.now.token }
    ensures { (d : plain_parsed) (s : Shown) → Steps result d s (on_want_chosen cx.now.text.now
        cx.now.token d inside (placed_of first.entry) cx.now.token.kind) }
{
    match cx.token.kind {
        TokenKind::Name => Ok(Place::Between(inside, ItemMode::AfterChosen(first))),
        _ => Err(cx.refuse()),
    }
}

/// Behind a name in the braces of an import.
pub fn on_chosen<'a>(
    cx: &Current<'a, '_>,
    inside: bool,
    first: Placed<'a>,
) -> Result<Place<'a>, Stop<'a>>
    requires { IsSpan cx.now.text.now cx.now.token }
    ensures { (d : plain_parsed) (s : Shown) → Steps result d s (on_chosen cx.now.text.now cx.now.token d
        inside (placed_of first.entry) cx.now.token.kind) }
{
    match cx.token.kind {
        TokenKind::Mark(Bracket::Comma) => Ok(Place::Between(inside, ItemMode::WantChosen(first))),
        TokenKind::Mark(Bracket::CloseBrace) => {
            on_other_import(cx, inside, first, is_library(first.word))
        }
        _ => Err(cx.refuse()),
    }
}

/// Behind `package`.
pub fn on_after_package<'a>(cx: &Current<'a, '_>, inside: bool) -> Result<Place<'a>, Stop<'a>>
    requires { IsSpan cx.now.text.now cx.now.token }
    ensures { (d : plain_parsed) (s : Shown) → Steps result d s (on_after_package cx.now.text.now
        cx.now.token d inside cx.now.token.kind) }
{
    match cx.token.kind {
        TokenKind::Name => Ok(Place::Between(inside, ItemMode::AfterPackageName)),
        _ => Err(cx.refuse()),
    }
}

/// Behind a name of a package's path.
pub fn on_package_name<'a>(cx: &Current<'a, '_>, inside: bool) -> Result<Place<'a>, Stop<'a>>
    requires { IsSpan cx.now.text.now cx.now.token }
    ensures { (d : plain_parsed) (s : Shown) → Steps result d s (on_package_name cx.now.text.now
        cx.now.token d inside cx.now.token.kind) }
{
    match cx.token.kind {
        TokenKind::Mark(Bracket::Dot) => Ok(Place::Between(inside, ItemMode::AfterPackage)),
        TokenKind::Newline | TokenKind::Mark(Bracket::Semicolon) => Ok(Place::Between(
            inside,
            ItemMode::AtStart,
        )),
        _ => Err(cx.refuse()),
    }
}

/// Behind `object`.
pub fn on_after_object<'a>(
    cx: &Current<'a, '_>,
    parsed: &mut Parsed<'a>,
    inside: bool,
) -> Result<Place<'a>, Stop<'a>>
    requires { IsSpan cx.now.text.now cx.now.token }
    ensures { (s : Shown) → Steps result (parsed_of parsed.new) s (on_after_object cx.now.text.now
        cx.now.token (parsed_of parsed.old) inside cx.now.token.kind) }
{
    match cx.token.kind {
        TokenKind::Name => {
            parsed.open(cx.word()?)?;
            Ok(Place::Between(inside, ItemMode::AfterObjectTitle))
        }
        _ => Err(cx.refuse()),
    }
}

/// The brace of an object is wanted.
pub fn on_object_line<'a>(cx: &Current<'a, '_>) -> Result<Place<'a>, Stop<'a>>
    requires { IsSpan cx.now.text.now cx.now.token }
    ensures { (d : plain_parsed) (s : Shown) → Steps result d s (on_object_line cx.now.text.now
        cx.now.token d cx.now.token.kind) }
{
    match cx.token.kind {
        TokenKind::Mark(Bracket::OpenBrace) => Ok(Place::Between(true, ItemMode::AtItem)),
        _ => Err(cx.refuse()),
    }
}

/// Behind the name of an object.
pub fn on_object_title<'a>(cx: &Current<'a, '_>) -> Result<Place<'a>, Stop<'a>>
    requires { IsSpan cx.now.text.now cx.now.token }
    ensures { (d : plain_parsed) (s : Shown) → Steps result d s (on_object_title cx.now.text.now
        cx.now.token d cx.now.token.kind) }
{
    match cx.token.kind {
        TokenKind::Newline => Ok(Place::Between(false, ItemMode::AfterObjectLine)),
        _ => on_object_line(cx),
    }
}

/// `object`: objects stand outside of objects alone.
pub fn on_object_word<'a>(cx: &Current<'a, '_>, inside: bool) -> Result<Place<'a>, Stop<'a>>
    requires { IsSpan cx.now.text.now cx.now.token }
    ensures { (d : plain_parsed) (s : Shown) → Steps result d s
        (on_object_word cx.now.text.now cx.now.token d inside) }
{
    if inside {
        return Err(cx.refuse());
    }
    Ok(Place::Between(false, ItemMode::AfterObject))
}
