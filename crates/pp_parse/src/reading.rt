//! The run over all tokens, and what it answers.

ghost use Rattle.std.specs.Prelude.{◌≡◌, ◌-◌, ◌<◌, All, IfErr, IfOk, length};
ghost use Rattle.pp_tokens.specs.declared.token.Token.{Token};
ghost use Rattle.pp_tokens.specs.Spans.{IsSpan};
ghost use Rattle.pp_tokens.specs.Tokens.{spelled, tokens_of};
ghost use Rattle.pp_tree.specs.Count.{UnitFewCases};
ghost use Rattle.pp_tree.specs.Offsets.{UnitOffsets};
ghost use Rattle.pp_tree.specs.Plain.{UnitTree};
ghost use Rattle.pp_tree.specs.Roots.{too_high, unit_roots};
ghost use Rattle.pp_tree.specs.Shown.{unit_of};
ghost use Rattle.pp_grammar.specs.Automaton.{run, start};
ghost use Rattle.pp_grammar.specs.LeftOut.{first_unused};
ghost use Rattle.pp_grammar.specs.Units.{SpellsUnit};
ghost use Rattle.pp_grammar.specs.Words.{word};
ghost use Rattle.pp_grammar_laws.specs.Laws.{BeginsToken};
ghost use Rattle.pp_parse.specs.Answers.{IsAnswer, IsLast, IsRefusal, IsStop, IsUnsupported, Reads};
ghost use Rattle.pp_parse.specs.Spelled.{AnswersUnit, HasFewNodes, IsWhy, RefusesWord, StandsAtToken};

use crate::fault::ParseFault;
use crate::steps::step;
use crate::unused::first_unused;
use bumpalo::Bump;
use pp_parse_items::place::{ItemMode, Parsed, Place};
use pp_parse_state::{Current, Stack, Stop};
use pp_text::{Name, Text};
use pp_tokens::Token;
use pp_tree::Unit;
use pp_tree_build::Checked;
use std::alloc::Global;

/// The refusal of what has the name and stands at the offset.
fn unsupported(alloc: Global, name: &str, at: u32) -> ParseFault
    ensures { IsUnsupported result name.now at }
{
    match Name::of(alloc, name) {
        Ok(name) => ParseFault::Unsupported(name, at),
        Err(_) => ParseFault::Memory,
    }
}

/// The refusal for which the automaton stops.
fn refusal(alloc: Global, stop: Stop) -> ParseFault
    ensures { IsStop result stop.entry }
{
    match stop {
        Stop::Memory => ParseFault::Memory,
        Stop::Syntax(at) => ParseFault::Syntax(at),
        Stop::Unsupported(name, at) => unsupported(alloc, name, at),
    }
}

/// The unit behind all tokens, or none where they stop before the end of one.
fn read<'a>(
    alloc: Global,
    arena: &'a Bump,
    text: &str,
    tokens: &[Token],
) -> Result<Option<&'a Checked<Unit<'a>>>, Stop<'a>>
    requires { All (IsSpan text.now) tokens.now }
    ensures { Reads (λ u. unit_of u.now.tree) result (run text.now tokens.now start) }
{
    let mut parsed = Parsed::none(alloc);
    let mut stack = Stack::new(alloc, arena)?;
    let mut place = Place::Between(false, ItemMode::AtStart);
    for t in tokens {
        let cx = Current {
            alloc,
            arena,
            text,
            token: *t,
        };
        match step(&cx, &mut parsed, &mut stack, place) {
            Ok(next) => place = next,
            Err(stop) => return Err(stop),
        }
    }
    match place {
        Place::Done(unit) => Ok(Some(unit)),
        _ => Ok(None),
    }
}

/// The offset at which the last token begins, which there is.
fn last_place(tokens: &[Token]) -> u32
    requires { 0 < length tokens.now }
    ensures { IsLast tokens.now result }
{
    tokens[tokens.len() - 1].from
}

/// The unit that the tokens spell, where no tree of it is too high.
fn answer<'a>(
    alloc: Global,
    arena: &'a Bump,
    text: &str,
    tokens: &[Token],
) -> Result<Unit<'a>, ParseFault>
    requires whole_characters { All (IsSpan text.now) tokens.now }
    requires ended { 0 < length tokens.now }
    ensures answered { IfOk result (λ u. IsAnswer text.now tokens.now (unit_of u)) }
    ensures refused { IfErr result (λ f. IsRefusal f text.now tokens.now) }
{
    if let Some(t) = first_unused(tokens) {
        return Err(unsupported(alloc, &text[t.from as usize..t.to as usize], t.from));
    }
    match read(alloc, arena, text, tokens) {
        Err(stop) => Err(refusal(alloc, stop)),
        Ok(None) => Err(ParseFault::Syntax(last_place(tokens))),
        Ok(Some(unit)) => match unit.deep {
            Some(at) => Err(ParseFault::TooDeep(at)),
            None => Ok(unit.tree),
        },
    }
}

/// The unit that the tokens of the text spell.
///
/// The unit and its trees lie in the arena. Trees are built of any height, and none may be higher than 64 in the end,
/// where expressions, patterns and written types are nodes and a leaf has height 1. What is refused leaves its pieces
/// in the arena until the reset.
pub fn parse<'a>(
    alloc: Global,
    arena: &'a Bump,
    text: &Text,
    tokens: &[Token],
) -> Result<Unit<'a>, ParseFault>
    requires { tokens_of text.now ≡ spelled tokens.now }

    // The answer is what the automaton of `pp_grammar` tells.
    ensures answered { IfOk result (λ u. IsAnswer text.now tokens.now (unit_of u)) }
    ensures refused { IfErr result (λ f. IsRefusal f text.now tokens.now) }

    // The tokens spell the unit, and no tree of it is higher than 64.
    ensures spelled { IfOk result (λ u. SpellsUnit text.now tokens.now (unit_of u)) }
    ensures low { IfOk result (λ u. too_high (unit_roots (unit_of u)) ≡ None) }

    // Why each refusal comes, and where it stands.
    ensures why { IfErr result (λ f. IsWhy f text.now tokens.now) }
    ensures at_token { IfErr result (λ f. StandsAtToken f tokens.now) }

    // A unit that the tokens spell is answered, or the refusal of a tree of it that is higher than 64.
    ensures every_unit { (u : UnitTree) → SpellsUnit text.now tokens.now u → AnswersUnit unit_of result u }
    // The first reserved word that the grammar doesn't use is refused.
    ensures every_unused { (t : Token) → first_unused tokens.now ≡ Some t → RefusesWord result (word text.now t)
        t.from }

    // Offsets and sizes; the end isn't counted.
    ensures offsets { IfOk result (λ u. UnitOffsets (BeginsToken tokens.now) (unit_of u)) }
    ensures few_nodes { IfOk result (λ u. HasFewNodes (length tokens.now - 1) (unit_of u)) }
    ensures few_cases { IfOk result (λ u. UnitFewCases (length tokens.now - 1) (unit_of u)) }
{
    answer(alloc, arena, text.as_str(), tokens)
}
