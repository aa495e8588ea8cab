ghost use Rattle.std.specs.Prelude.{◌≡◌, ◌≤◌, ◌^◌, All, length, IfOk};
ghost use Rattle.std.specs.Str.{IsCharBoundary};
ghost use Rattle.scalar_value.specs.Gives.{Gives};
ghost use Rattle.token_scan.specs.Spans.{AreInOrder};
ghost use Rattle.script_session.specs.ReadScript.{scan_kind, syntax_kind, script_tokens, script_tree, read_text, read_script};

use crate::script::{ScriptFault, ScriptKind};
use scalar_value::{Or, Res, Seq};
use std::alloc::Global;
use std::str;
use token_scan::{ScanKind, Token, place_of, scan};
use verb_syntax::{Script, SyntaxKind, parse};

fn scan_kind(kind: ScanKind) -> ScriptKind
    ensures { result ≡ scan_kind kind }
{
    match kind {
        ScanKind::BadChar => ScriptKind::BadChar,
        ScanKind::OpenText => ScriptKind::OpenText,
        ScanKind::NumberRange => ScriptKind::NumberRange,
    }
}

fn syntax_kind(kind: SyntaxKind) -> ScriptKind
    ensures { result ≡ syntax_kind kind }
{
    match kind {
        SyntaxKind::Unexpected => ScriptKind::Unexpected,
        SyntaxKind::Unfinished => ScriptKind::Unfinished,
        SyntaxKind::TooDeep => ScriptKind::TooDeep,
    }
}

// The tokens of a script, each at the start of a character.
#[tactic(auto, unfolding(crate::specs::ReadScript::script_tokens))]
fn script_tokens(alloc: Global, script: &str) -> Res<Seq<Token>, ScriptFault>
    requires { length script.now ≤ 2 ^ 20 }
    ensures given { Gives result (script_tokens script.now) }
    ensures places { IfOk result (λ tokens. All (λ token. IsCharBoundary script.now token.from) tokens) }
    ensures in_order { IfOk result (λ tokens. AreInOrder 0 tokens (length script.now)) }
{
    match scan(alloc, script) {
        Ok(tokens) => Ok(tokens),
        Err(Or::Fault(token_fault)) => Err(Or::Fault(ScriptFault {
            kind: scan_kind(token_fault.kind),
            place: place_of(script, token_fault.at),
        })),
        Err(Or::Memory) => Err(Or::Memory),
    }
}

// The tree of a script's tokens.
#[tactic(auto, unfolding(crate::specs::ReadScript::script_tree))]
fn script_tree(alloc: Global, script: &str, tokens: &[Token]) -> Res<Script, ScriptFault>
    requires short { length script.now ≤ 2 ^ 20 }
    requires places { All (λ token. IsCharBoundary script.now token.from) tokens.now }
    requires in_order { AreInOrder 0 tokens.now (length script.now) }
    ensures { Gives result (script_tree script.now tokens.now) }
{
    match parse(alloc, tokens, script.len() as u32) {
        Ok(tree) => Ok(tree),
        Err(Or::Fault(grammar_fault)) => Err(Or::Fault(ScriptFault {
            kind: syntax_kind(grammar_fault.kind),
            place: place_of(script, grammar_fault.at),
        })),
        Err(Or::Memory) => Err(Or::Memory),
    }
}

#[tactic(auto, unfolding(crate::specs::ReadScript::read_text))]
fn read_text(alloc: Global, script: &str) -> Res<Script, ScriptFault>
    requires { length script.now ≤ 2 ^ 20 }
    ensures { Gives result (read_text script.now) }
{
    let tokens = script_tokens(alloc, script)?;
    script_tree(alloc, script, tokens.as_slice())
}

/// The script that the bytes are, or their first fault.
#[tactic(auto, unfolding(crate::specs::ReadScript::read_script))]
pub fn read_script(alloc: Global, bytes: &[u8]) -> Res<Script, ScriptFault>
    requires { length bytes.now ≤ 2 ^ 20 }
    ensures { Gives result (read_script bytes.now) }
{
    match str::from_utf8(bytes) {
        Ok(script) => read_text(alloc, script),
        Err(_) => Err(Or::Fault(ScriptFault::not_text())),
    }
}
