// The top call over sources and sinks in memory, with calls that fail.
ghost use Rattle.std.specs.Prelude.{Some};

use crate::run::run_plain;
use outside::{MemSink, MemSource, Sink, Wrote};
use std::alloc::Global;
use std::process::Abort;
use std::test::Fail;
use term_core::Memory;

/// A sink that takes a byte at a time.
#[derive(Drop)]
struct Narrow {
    inner: MemSink,
}

impl Sink for Narrow {
    ghost taken = { λ s. Some s.inner.taken };

    ghost faults = { λ s. s.inner.faults };

    fn write(&mut self, piece: &[u8]) -> Wrote {
        self.inner.write(&piece[..1])
    }
}

/// What is run, which calls fail, and what comes of it.
#[derive(Clone, Copy)]
struct Case {
    words: &'static [&'static str],
    input: &'static [u8],
    read_fails: &'static [u64],
    write_fails: &'static [u64],
    err_fails: &'static [u64],
    status: u8,
    written: &'static [u8],
    said: &'static [u8],
}

/// A script that is done, with no call that fails.
const DONE: Case = Case {
    words: &["session"],
    input: b"p(a). p(b). p(c).\n---\nask(p(X))\nnext\nnext\n",
    read_fails: &[],
    write_fails: &[],
    err_fails: &[],
    status: 0,
    written: b"create\nsuccess([p(a)],true)\nsuccess([p(b)],true)\nsuccess([p(c)],false)\ndestroy\n",
    said: b"",
};

/// A goal that is safe over no source.
const SAFE: Case = Case {
    words: &["check", "nothing_here"],
    input: b"",
    written: b"safe\n",
    ..DONE
};

const REFUSED: Case = Case {
    status: 3,
    written: b"",
    ..DONE
};

const USAGE: Case = Case {
    input: b"p.",
    status: 2,
    written: b"",
    said: b"usage: pengines session\n       pengines check GOAL\n",
    ..DONE
};

static CASES: [Case; 28] = [
    DONE,
    SAFE,
    Case {
        words: &["check", "p", "--"],
        input: b"p :- q. q.",
        ..SAFE
    },
    Case {
        words: &["check", "--", "-(1)"],
        ..SAFE
    },
    // words
    Case {
        words: &[],
        ..USAGE
    },
    Case {
        words: &["sessions"],
        ..USAGE
    },
    Case {
        words: &["check", "-(1)"],
        ..USAGE
    },
    Case {
        words: &["check", ""],
        ..USAGE
    },
    Case {
        words: &["check"],
        ..USAGE
    },
    Case {
        words: &["check", "p", "q"],
        ..USAGE
    },
    Case {
        words: &["check", "--", "p", "q"],
        ..USAGE
    },
    Case {
        words: &["checks", "p"],
        ..USAGE
    },
    // refusals
    Case {
        input: b"p(a).\n---\n% one\nask(p(a))\n\nagain\n",
        said: b"pengines: line 4 refused at byte 0\n",
        ..REFUSED
    },
    Case {
        input: b"append(a). true :- fail.\n---\n",
        said: b"pengines: source refused at clause 2\n",
        ..REFUSED
    },
    Case {
        input: b"p(a).\n---\nask(p(\x80))\n",
        said: b"pengines: source refused at byte 16\n",
        ..REFUSED
    },
    Case {
        words: &["check", "p"],
        input: b"p(a). \xff",
        said: b"pengines: source refused at byte 6\n",
        ..REFUSED
    },
    Case {
        words: &["check", "p("],
        input: b"p(a). q(",
        said: b"pengines: source refused at byte 8\n",
        ..REFUSED
    },
    Case {
        words: &["check", "p("],
        input: b"p. true.",
        said: b"pengines: source refused at clause 2\n",
        ..REFUSED
    },
    Case {
        words: &["check", "p. q"],
        input: b"p.",
        said: b"pengines: goal refused at byte 3\n",
        ..REFUSED
    },
    Case {
        words: &["check", "p"],
        input: b"p.\n---\nask(p)\n",
        said: b"pengines: source refused at byte 7\n",
        ..REFUSED
    },
    Case {
        words: &["check", "p"],
        input: b"p :- q. q :- halt.",
        written: b"unsafe permission_error(call,sandboxed,halt/0)\n",
        ..REFUSED
    },
    // calls that fail
    Case {
        input: b"---\nagain\n",
        err_fails: &[1],
        ..REFUSED
    },
    Case {
        read_fails: &[2],
        status: 4,
        written: b"",
        said: b"pengines: read fault\n",
        ..DONE
    },
    Case {
        write_fails: &[1],
        status: 5,
        written: b"",
        said: b"pengines: write fault\n",
        ..DONE
    },
    Case {
        write_fails: &[8],
        err_fails: &[1],
        status: 5,
        written: b"create\n",
        ..DONE
    },
    Case {
        words: &["check", "p"],
        input: b"p.",
        read_fails: &[2],
        status: 4,
        written: b"",
        said: b"pengines: read fault\n",
        ..SAFE
    },
    Case {
        words: &["check", "p"],
        input: b"p.",
        write_fails: &[1],
        status: 5,
        written: b"",
        said: b"pengines: write fault\n",
        ..SAFE
    },
    // want of memory
    Case {
        input: b"t(X) :- t(n(X, X)).\n---\nask(t(a))\n",
        status: 7,
        written: b"create\nmemory\n",
        said: b"pengines: no memory\n",
        ..DONE
    },
];

fn run_case(rt: &impl Abort, alloc: Global, case: &Case) -> Result<(), Fail> {
    let mut words = Vec::new(alloc);
    for word in case.words {
        words.push(String::from_str(alloc, word)?)?;
    }
    let mut src = MemSource::new(alloc, case.input, 1, case.read_fails)?;
    let mut out = Narrow {
        inner: MemSink::new(alloc, case.write_fails)?,
    };
    let mut err = MemSink::new(alloc, case.err_fails)?;
    let status = run_plain(alloc, &words, &mut src, &mut out, &mut err);
    assert_eq!(rt; status, case.status, "{:?}", case.words);
    assert_eq!(rt; out.inner.taken(), case.written, "{:?}", case.words);
    assert_eq!(rt; err.taken(), case.said, "{:?}", case.words);
    assert!(rt; status != 2 || src.left() == case.input);
    Ok(())
}

#[test]
fn commands_are_run(rt: HostRuntime) -> Result<(), Fail> {
    for case in &CASES {
        run_case(&rt, rt.alloc(), case)?;
    }
    Ok(())
}

#[test]
fn a_long_input_is_refused(rt: HostRuntime) -> Result<(), Fail> {
    let alloc = rt.alloc();
    let words = vec![in alloc; String::from_str(alloc, "session")?]?;
    let bytes = vec![in alloc; b'a'; 16_777_217]?;
    let mut src = MemSource::new(alloc, &bytes, 100_000, &[])?;
    let mut out = MemSink::new(alloc, &[])?;
    let mut err = MemSink::new(alloc, &[])?;
    assert_eq!(rt; run_plain(alloc, &words, &mut src, &mut out, &mut err), 3);
    assert_eq!(rt; out.taken(), b"".as_slice());
    assert_eq!(rt; err.taken(), b"pengines: input too long\n".as_slice());
    Ok(())
}

// Whether a script that ends here is run, or refused with nothing written.
fn is_answered(alloc: Global, script: &[u8]) -> Result<bool, Memory> {
    let words = vec![in alloc; String::from_str(alloc, "session")?]?;
    let mut src = MemSource::new(alloc, script, 100, &[])?;
    let mut out = MemSink::new(alloc, &[])?;
    let mut err = MemSink::new(alloc, &[])?;
    let status = run_plain(alloc, &words, &mut src, &mut out, &mut err);
    let is_run = status == 0 && !out.taken().is_empty() && err.taken().is_empty();
    let is_refused = status == 3 && out.taken().is_empty() && !err.taken().is_empty();
    Ok(src.left().is_empty() && (is_run || is_refused))
}

#[test]
fn a_script_may_end_anywhere(rt: HostRuntime) -> Result<(), Fail> {
    let alloc = rt.alloc();
    let script = b"p(a). p('b c'). % d\r\n---\ncreate([chunk(2)])\nask(p(X),[template(X)])\nnext\n";
    let mut front = Vec::new(alloc);
    for byte in script {
        assert!(rt; is_answered(alloc, &front)?);
        front.push(*byte)?;
    }
    assert!(rt; is_answered(alloc, &front)?);
    Ok(())
}
