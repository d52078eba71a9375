use std::alloc::Global;
use std::test::Fail;
use term_core::{Bytes, List, MAX_NODES, Memory, Name, Pi, Term, Text};

fn text_is_kept(alloc: Global) -> Result<bool, Memory> {
    let mut text = Text::new(alloc);
    text.push_str("ab")?;
    text.push_str("c")?;
    let same = Text::from_str(alloc, text.as_str())?;
    Ok(text.len() == 3 && same.copied(alloc)?.as_str() == "abc")
}

fn bytes_are_kept(alloc: Global) -> Result<bool, Memory> {
    let mut bytes = Bytes::new(alloc);
    bytes.push(7)?;
    bytes.append(&[8, 9])?;
    let same = Bytes::from_vec(bytes.copied(alloc)?.into_vec());
    Ok(same.len() == 3 && same.as_slice() == [7, 8, 9].as_slice())
}

fn list_is_kept(alloc: Global) -> Result<bool, Memory> {
    let mut list = List::new(alloc);
    list.push(1u8)?;
    list.push(2)?;
    Ok(list.pop() == Some(2) && list.as_slice() == [1].as_slice())
}

fn indicator_is_kept(alloc: Global) -> Result<bool, Memory> {
    let name = Name::new(alloc, "append")?;
    let pi = Pi { name, arity: 3 };
    let same = pi.copied(alloc)?;
    Ok(pi == same && same.name.as_str() == "append")
}

#[test]
fn small_types_keep_what_is_put_in(rt: HostRuntime) -> Result<(), Fail> {
    let alloc = rt.alloc();
    assert!(rt; text_is_kept(alloc)?);
    assert!(rt; bytes_are_kept(alloc)?);
    assert!(rt; list_is_kept(alloc)?);
    assert!(rt; indicator_is_kept(alloc)?);
    let part = Term::var(alloc, 1)?.part(alloc, 0)?;
    assert_eq!(rt; part.rename(alloc, 10)?, Term::var(alloc, 11)?);
    Ok(())
}

// `n(T, T)` of the term before, so many times.
fn doubled(alloc: Global, times: u32) -> Result<Term, Memory> {
    let mut term = Term::var(alloc, 0)?;
    for _ in 0..times {
        let args = vec![in alloc; term.copied(alloc)?, term]?;
        term = Term::comp(alloc, "n", &args)?;
    }
    Ok(term)
}

#[test]
fn a_term_that_doubles_comes_to_its_end(rt: HostRuntime) -> Result<(), Fail> {
    let alloc = rt.alloc();
    assert_eq!(rt; doubled(alloc, 19)?.nodes().len(), MAX_NODES - 1);
    assert!(rt; doubled(alloc, 20).is_err());
    Ok(())
}
