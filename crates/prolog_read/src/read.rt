ghost use Rattle.std.specs.Prelude.{◌≡◌, ◌++◌, ◌≤◌, List, [], ◌∷◌, map, take, drop, length, All, Ok, Some, None, MatchOption, IfOk, IfErr, OnOk, IsOk};
ghost use Rattle.term_core.specs.Tree.{Tree};
ghost use Rattle.op_table.specs.Table.{iso_prefix, iso_infix, Table};
ghost use Rattle.prolog_read.specs.Variables.{Names, IsNumbered};
ghost use Rattle.prolog_read.specs.Reads.{Reads, is_end, before_end, from_end};
ghost use Rattle.prolog_read.specs.Least.{SyntaxAt, SourceSyntaxAt, IfSyntax};
ghost use Rattle.prolog_read.specs.Clauses.{ReadsClauses, iso, declared, obeyed};
ghost use Rattle.prolog_read.specs.Outcome.{term_read, clauses_read, term_of, reading_of, read_as, place_of, only_term, clauses, IsRefusal, Tells};
ghost use Rattle.std.specs.List.{prefix_len};
ghost use Rattle.prolog_read.specs.Views.{tokens_in, is_inner, AreTokensOf};

use crate::fault::ReadFault;
use crate::lexemes::{after, lexemes};
use op_table::{OpFault, Ops};
use prolog_grammar::{check, read};
use prolog_lex::{Token, TokenKind, tokens};
use std::alloc::Global;
use term_core::{Memory, Node, ReadTerm, Term};

// Whether a token isn't an end.
fn is_inner(token: &Token) -> bool
    ensures { result ≡ is_inner token.now }
{
    !matches!(token.kind, TokenKind::End)
}

// How many tokens stand before the first end.
fn inner_len(tokens: &[Token]) -> usize
    ensures { result ≡ prefix_len is_inner tokens.now }
{
    for (index, token) in tokens.iter().enumerate() {
        if !is_inner(token) {
            return index;
        }
    }
    tokens.len()
}

// The place of the first of these tokens, or the text's end.
fn place_of(text: &str, tokens: &[Token]) -> u64
    ensures { result ≡ place_of text.now (tokens_in tokens.now) }
{
    match tokens.first() {
        Some(token) => token.from,
        None => text.len() as u64,
    }
}

// The term of these tokens, which end at this place.
fn term_of(
    alloc: Global,
    text: &str,
    ops: &Ops,
    tokens: &[Token],
    end: u64,
) -> Result<ReadTerm, ReadFault>
    requires { AreTokensOf text.now tokens.now }
    ensures ok { IfOk result (λ r. term_of ops.now text.now end (tokens_in tokens.now) ≡ Ok (read_as r)) }
    ensures err { IfErr result (Tells (term_of ops.now text.now end (tokens_in tokens.now))) }
{
    let (placed, names) = lexemes(alloc, text, tokens)?;
    let term = read(alloc, ops, &placed, end)?;
    Ok(ReadTerm { term, names })
}

// Whether these tokens, which end at this place, are a term but for its depth and its numbers of arguments.
fn check_syntax(
    alloc: Global,
    text: &str,
    ops: &Ops,
    tokens: &[Token],
    end: u64,
) -> Result<(), ReadFault>
    requires { AreTokensOf text.now tokens.now }
    ensures ok { OnOk result (IsOk (reading_of ops.now text.now end (tokens_in tokens.now))) }
    ensures err { IfErr result (Tells (reading_of ops.now text.now end (tokens_in tokens.now))) }
{
    let (placed, names) = lexemes(alloc, text, tokens)?;
    drop(names);
    check(alloc, ops, &placed, end)?;
    Ok(())
}

// The one term of these tokens, with an end behind it or none.
fn only_term(alloc: Global, text: &str, ops: &Ops, tokens: &[Token]) -> Result<ReadTerm, ReadFault>
    requires { AreTokensOf text.now tokens.now }
    ensures ok { IfOk result (λ r. only_term ops.now text.now (tokens_in tokens.now) ≡ Ok (read_as r)) }
    ensures err { IfErr result (Tells (only_term ops.now text.now (tokens_in tokens.now))) }
{
    let (front, behind) = tokens.split_at(inner_len(tokens));
    let end = place_of(text, behind);
    if behind.len() > 1 {
        check_syntax(alloc, text, ops, front, end)?;
        return Err(ReadFault::Syntax { at: behind[1].from });
    }
    term_of(alloc, text, ops, front, end)
}

/// Reads a text that is one term of priority at most 1200, with an end behind it or none, by the operators of a table
/// (ISO/IEC 13211-1, 6.3).
///
/// The variables are numbered from 0 by first occurrence: equal names are one variable, and each `_` is a new one, without a name.
///
/// # Errors
///
/// The whole text is split into tokens first, so a fault of the lexer (`Lex`) goes before any other. Then the first of these is
/// answered: `Syntax` at the first token that no continuation allows, or at the text's length where the text ends too soon; `Lex` of
/// `IntRange` at 2^127 without an unquoted minus directly before it, where an operand may stand; `Nesting` at the bracket that makes
/// more than 4,000 open ones. Where there is none of them, `Nesting` comes at the term's first byte if its depth passes 1,000 or a
/// compound has more than 1,024 arguments. `Memory` may come for any text.
pub fn read_term(alloc: Global, text: &str, ops: &Ops) -> Result<ReadTerm, ReadFault>
    ensures exact { IfOk result (λ r. term_read ops.now text.now ≡ Ok (read_as r)) }
    ensures reads { IfOk result (λ r. Reads ops.now text.now r.term r.names) }
    ensures numbered { IfOk result (λ r. IsNumbered r.term) }
    ensures fault { IfErr result (Tells (term_read ops.now text.now)) }
    ensures syntax { IfErr result (λ e. IfSyntax e (SyntaxAt ops.now text.now)) }
    ensures refused { IfErr result (λ e. IsRefusal e → (t : Tree) (names : Names) → Reads ops.now text.now t names → ⊥) }
{
    let tokens = tokens(alloc, text)?;
    only_term(alloc, text, ops, &tokens)
}

// The priority, the kind and the name of a directive `:- op(P, K, F)` of an integer, an atom and an atom.
fn declared(clause: &Term) -> Option<(i128, &str, &str)>
    ensures { MatchOption result (declared clause.now ≡ None) (λ d. declared clause.now ≡ Some (d.0, d.1.now, d.2.now)) }
{
    let nodes = clause.nodes();
    if nodes.len() != 5 {
        return None;
    }
    let (Node::Comp(neck, 1), Node::Comp(op, 3)) = (&nodes[0], &nodes[1]) else {
        return None;
    };
    if neck.as_str() != ":-" || op.as_str() != "op" {
        return None;
    }
    match (&nodes[2], &nodes[3], &nodes[4]) {
        (Node::Int(priority), Node::Atom(kind), Node::Atom(name)) => {
            Some((*priority, kind.as_str(), name.as_str()))
        }
        _ => None,
    }
}

// Adds the operator that a clause declares, where the table takes it.
fn obey(ops: &mut Ops, clause: &Term) -> Result<(), Memory>
    ensures { OnOk result (ops.new ≡ obeyed clause.now ops.old) }
{
    let Some((priority, kind, name)) = declared(clause) else {
        return Ok(());
    };
    match ops.add(priority, kind, name) {
        Err(OpFault::Memory) => Err(Memory),
        Ok(()) | Err(OpFault::BadPriority | OpFault::BadKind | OpFault::Clash) => Ok(()),
    }
}

// The terms of these tokens, each with an end.
fn clauses(alloc: Global, text: &str, tokens: &[Token]) -> Result<Vec<ReadTerm>, ReadFault>
    requires { AreTokensOf text.now tokens.now }
    ensures ok { IfOk result (λ v. clauses iso text.now (tokens_in tokens.now) ≡ Ok (map read_as v.items)) }
    ensures err { IfErr result (Tells (clauses iso text.now (tokens_in tokens.now))) }
{
    let mut ops = Ops::iso(alloc)?;
    let mut found = Vec::new(alloc);
    let mut rest = tokens;
    while !rest.is_empty() {
        let (front, behind) = rest.split_at(inner_len(rest));
        let end = place_of(text, behind);
        if behind.is_empty() {
            check_syntax(alloc, text, &ops, front, end)?;
            return Err(ReadFault::Syntax { at: end });
        }
        let clause = term_of(alloc, text, &ops, front, end)?;
        obey(&mut ops, &clause.term)?;
        found.push(clause)?;
        rest = after(behind, 1);
    }
    Ok(found)
}

/// Reads a text that is terms which each have an end (ISO/IEC 13211-1, 6.2), starting from the operators of the standard's table.
///
/// A directive `:- op(P, K, F)` of an integer, an atom and an atom that [`Ops::add`] takes holds for the rest of the text; any other
/// changes no operator. The variables of each term are numbered from 0, as by [`read_term`].
///
/// # Errors
///
/// As of [`read_term`], where the terms are taken in order, and `Nesting` of a whole term comes before a fault of the next one.
pub fn read_clauses(alloc: Global, text: &str) -> Result<Vec<ReadTerm>, ReadFault>
    ensures exact { IfOk result (λ v. clauses_read iso text.now ≡ Ok (map read_as v.items)) }
    ensures reads { IfOk result (λ v. ReadsClauses iso text.now (map read_as v.items)) }
    ensures numbered { IfOk result (λ v. All (λ r. IsNumbered r.term) v.items) }
    ensures fault { IfErr result (Tells (clauses_read iso text.now)) }
    ensures syntax { IfErr result (λ e. IfSyntax e (SourceSyntaxAt iso text.now)) }
    ensures refused { IfErr result (λ e. IsRefusal e → (xs : List (Tree × Names)) → ReadsClauses iso text.now xs → ⊥) }
{
    let tokens = tokens(alloc, text)?;
    clauses(alloc, text, &tokens)
}
