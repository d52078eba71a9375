// Scripts: a source text, the line `---`, and request lines.
ghost use Rattle.std.specs.Prelude.{◌≡◌, ◌≢◌, ◌≤◌, ◌+◌, Ok, Err, IfOk, IfErr, length, map, drop};
ghost use Rattle.std.specs.Str.Lines.{lines};
ghost use Rattle.prolog_read.specs.Clauses.{iso};
ghost use Rattle.prolog_read.specs.Outcome.{term_read};
ghost use Rattle.sandbox_walk.specs.Keeping.{KeepsSandbox};
ghost use Rattle.request_text.specs.declared.fault.ScriptFault.TheVariants as script_fault;
ghost use Rattle.request_text.specs.Spelled.{is_passed, line_term, request_at, requests_in, session_of, session_in, settings_at, script};
ghost use Rattle.request_text.specs.Kept.{script_read};

use crate::fault::{ScriptFault, place_of};
use crate::limits::default_settings;
use crate::options::created;
use crate::parts::parts;
use crate::requests::request_of;
use crate::sent::Sent;
use crate::spec::program_in;
use event_core::{Settings, Spec};
use lib_text::Library;
use op_table::Ops;
use prolog_read::{ReadFault, read_term};
use std::alloc::{AllocError, Global};
use std::sync::Arc;
use term_core::{App, List, Memory, Term};

/// A script (Lager and Wielemaker, TPLP 2014): one pengine, and what is sent to it.
#[derive(Debug, Drop)]
pub struct Script {
    /// What the pengine is made with: the program that the source text spells over the library, no query, and the settings that
    /// the line `create(Options)` gives, or the default ones.
    pub spec: Spec,
    /// What the request lines send, in order.
    pub lines: List<Sent>,
}

/// Whether a request line is passed over.
fn is_passed(line: &str) -> bool
    ensures { result ≡ is_passed line.now }
{
    match line.as_bytes().first() {
        Some(byte) => *byte == b'%',
        None => true,
    }
}

/// The term of a request line with this number.
fn term_at(alloc: Global, ops: &Ops, number: u64, line: &str) -> Result<Term, ScriptFault>
    requires { ops.now ≡ iso }
    ensures term { IfOk result (λ t. line_term number (term_read iso line.now) ≡ Ok t) }
    ensures refused { IfErr result (λ e. e ≢ script_fault.Memory → line_term number (term_read iso line.now) ≡ Err e) }
{
    match read_term(alloc, line, ops) {
        Ok(reading) => Ok(reading.term),
        Err(ReadFault::Memory) => Err(ScriptFault::Memory),
        Err(fault) => Err(ScriptFault::Line {
            line: number,
            at: place_of(fault),
        }),
    }
}

/// The request of a line with this number.
fn request_at(alloc: Global, ops: &Ops, number: u64, line: &str) -> Result<Sent, ScriptFault>
    requires { ops.now ≡ iso }
    ensures request { IfOk result (λ s. request_at number line.now ≡ Ok s) }
    ensures refused { IfErr result (λ e. e ≢ script_fault.Memory → request_at number line.now ≡ Err e) }
{
    let term = term_at(alloc, ops, number, line)?;
    match request_of(alloc, &term, line.len() as u64)? {
        Some(sent) => Ok(sent),
        None => Err(ScriptFault::Line {
            line: number,
            at: 0,
        }),
    }
}

/// The requests of the lines from this one on, counted from 0.
fn requests_from(
    alloc: Global,
    ops: &Ops,
    lines: &[&str],
    first: usize,
) -> Result<List<Sent>, ScriptFault>
    requires iso { ops.now ≡ iso }
    requires within { first ≤ length lines.now }
    ensures requests { IfOk result (λ ss. requests_in (first + 1) (drop first (map (λ l. l.now) lines.now)) ≡ Ok ss) }
    ensures refused { IfErr result (λ e. e ≢ script_fault.Memory →
        requests_in (first + 1) (drop first (map (λ l. l.now) lines.now)) ≡ Err e) }
{
    let mut requests = List::new(alloc);
    for index in first..lines.len() {
        let line = lines[index];
        if !is_passed(line) {
            let request = request_at(alloc, ops, index as u64 + 1, line)?;
            requests.push(request)?;
        }
    }
    Ok(requests)
}

/// The settings that a line gives, if it is `create(Options)`.
fn settings_at(alloc: Global, app: App, ops: &Ops, line: &str) -> Result<Option<Settings>, Memory>
    requires { ops.now ≡ iso }
    ensures { IfOk result (λ o. o ≡ settings_at app (term_read iso line.now)) }
{
    match read_term(alloc, line, ops) {
        Ok(reading) => created(alloc, app, &reading.term),
        Err(ReadFault::Memory) => Err(Memory),
        Err(_) => Ok(None),
    }
}

/// The settings of the pengine, and how many lines stand before those of its requests.
fn opening(alloc: Global, app: App, ops: &Ops, lines: &[&str]) -> Result<(Settings, usize), Memory>
    requires { ops.now ≡ iso }
    ensures session { IfOk result (λ o. session_in app 1 (map (λ l. l.now) lines.now)
        ≡ session_of o.0 (requests_in (o.1 + 1) (drop o.1 (map (λ l. l.now) lines.now)))) }
    ensures within { IfOk result (λ o. o.1 ≤ length lines.now) }
{
    for index in 0..lines.len() {
        let line = lines[index];
        if is_passed(line) {
            continue;
        }
        return match settings_at(alloc, app, ops, line)? {
            Some(settings) => Ok((settings, index + 1)),
            None => Ok((default_settings(app), index)),
        };
    }
    Ok((default_settings(app), lines.len()))
}

/// A text's lines, without their line ends.
fn lines_of(alloc: Global, text: &str) -> Result<Vec<&str>, AllocError>
    ensures { IfOk result (λ v. map (λ l. l.now) v.items ≡ lines text.now) }
{
    text.lines().collect(alloc)
}

/// The settings of the pengine, and what request lines send to it.
fn session_in(alloc: Global, app: App, text: &str) -> Result<(Settings, List<Sent>), ScriptFault>
    ensures session { IfOk result (λ s. session_in app 1 (lines text.now) ≡ Ok (record { settings = s.0; lines = s.1 })) }
    ensures refused { IfErr result (λ e. e ≢ script_fault.Memory → session_in app 1 (lines text.now) ≡ Err e) }
{
    let ops = Ops::iso(alloc)?;
    let lines = lines_of(alloc, text)?;
    let (settings, first) = opening(alloc, app, &ops, &lines)?;
    let requests = requests_from(alloc, &ops, &lines, first)?;
    Ok((settings, requests))
}

/// Reads a script: a source text, the line `---`, and request lines; without that line there are no requests. Lines end in
/// a line feed or a carriage return and a line feed.
///
/// Request lines that are empty or begin with `%` are passed over. The first of the others may be `create(Options)`, with a
/// list of `chunk(N)`, N from 1 to 1,000, `limit(N)`, N from 1 to the [`greatest_limit`](crate::greatest_limit) of the library's application, and
/// `destroy(true)` or `destroy(false)`, each at most once. All others are requests as [`read_request`](crate::read_request) reads them.
///
/// Bytes that aren't UTF-8 are refused first (`Utf8`), then a source text that can't be read or has a clause that is
/// refused (`Spec`), with places and numbers from its start, then the first request line that is refused (`Line`).
pub fn read_script(alloc: Global, library: &Library, bytes: &[u8]) -> Result<Script, ScriptFault>
    ensures script { IfOk result (λ s. script library.now.app bytes.now ≡ Ok (script_read s)) }
    ensures keeps { IfOk result (λ s. KeepsSandbox s.spec.program.value) }
    ensures refused { IfErr result (λ e. e ≢ script_fault.Memory → script library.now.app bytes.now ≡ Err e) }
{
    let text = match str::from_utf8(bytes) {
        Ok(text) => text,
        Err(error) => {
            return Err(ScriptFault::Utf8 {
                at: error.valid_up_to() as u64,
            });
        }
    };
    let (source, requests) = parts(text);
    let program = program_in(alloc, library, source)?;
    let (settings, lines) = session_in(alloc, library.app(), requests)?;
    let spec = Spec {
        program: Arc::new(alloc, program)?,
        ask: None,
        settings,
        bytes: source.len() as u64,
    };
    Ok(Script { spec, lines })
}
