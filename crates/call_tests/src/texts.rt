// Texts: limits of what is written, operators by themselves, sources and scripts.
use lib_text::{Library, source};
use op_table::{Op, OpKind, iso_infix, iso_prefix};
use program::is_body;
use prolog_read::read_clauses;
use prolog_write::{Mode, WriteStop, argument_text, text};
use request_text::{ScriptFault, read_script};
use std::alloc::Global;
use std::test::Fail;
use term_core::{App, Memory, Term};

// `Name(a, 'X')`.
fn pair(alloc: Global, name: &str) -> Result<Term, Memory> {
    let args = vec![in alloc; Term::atom(alloc, "a")?, Term::atom(alloc, "X")?]?;
    Term::comp(alloc, name, &args)
}

#[test]
fn texts_have_limits(rt: HostRuntime) -> Result<(), Fail> {
    let alloc = rt.alloc();
    let rule = pair(alloc, ":-")?;
    let written = argument_text(alloc, &rule, Mode::Plain, 6)?;
    assert_eq!(rt; written.as_slice(), b"(a:-X)".as_slice());
    let long = argument_text(alloc, &rule, Mode::Plain, 5).err();
    assert_eq!(rt; long, Some(WriteStop::TooLong));
    assert_eq!(rt;
        text(alloc, &rule, Mode::Plain, 4)?.as_slice(),
        b"a:-X".as_slice()
    );
    let long = text(alloc, &rule, Mode::Quoted, 5).err();
    assert_eq!(rt; long, Some(WriteStop::TooLong));
    Ok(())
}

#[test]
fn operators_have_operands(rt: HostRuntime) -> Result<(), Fail> {
    let minus = Op {
        priority: 500,
        kind: OpKind::Yfx,
    };
    assert_eq!(rt; iso_infix("-"), Some(minus));
    assert_eq!(rt; (minus.left(), minus.right()), (500, 499));
    assert_eq!(rt; iso_prefix("foo"), None);
    Ok(())
}

#[test]
fn a_library_is_read_and_a_script_is_not(rt: HostRuntime) -> Result<(), Fail> {
    let alloc = rt.alloc();
    let library = Library::read(alloc, App::Sandbox)?;
    assert_eq!(rt; library.terms().len(), 68);
    assert_eq!(rt; read_clauses(alloc, source())?.len(), 68);
    for (bytes, place) in [
        (b"p(a).\n\x80".as_slice(), 6),
        (b"p(a).\n---\nask(p(\x80))\n", 16),
    ] {
        let refused = read_script(alloc, &library, bytes).err();
        assert!(rt; matches!(refused, Some(ScriptFault::Utf8 { at }) if at == place));
    }
    assert!(rt; is_body(alloc, &pair(alloc, "->")?)?);
    Ok(())
}
