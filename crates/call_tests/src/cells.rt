ghost use Rattle.std.specs.Prelude.{IfOk};
ghost use Rattle.store.specs.Cells.{IsCell};

use std::alloc::Global;
use std::test::Fail;
use store::{Cell, Seen, Store, Taken};
use term_core::{Memory, Name, Node, Term};

// An integer, or its text's length for a name, or the number of arguments.
fn told(seen: Seen<'_>) -> (u32, i128) {
    match seen {
        Seen::Var(number) => (0, i128::from(number)),
        Seen::Int(value) => (1, value),
        Seen::Atom(name) => (2, name.as_str().len() as i128),
        Seen::Comp(_, count) => (3, i128::from(count)),
    }
}

// foo(Var, 7, []) is made of its parts and taken apart.
fn compound_is_made(alloc: Global) -> Result<bool, Memory> {
    let mut store = Store::new(alloc);
    let first = store.new_var()?;
    let second = store.int(7)?;
    let third = store.atom("[]")?;
    let cell = store.compound("foo", &[first, second, third])?;
    let args = [store.arg(cell, 0), store.arg(cell, 1), store.arg(cell, 2)];
    Ok(
        told(store.look(cell)) == (3, 3)
            && told(store.look(args[0])) == (0, 0)
            && told(store.look(args[1])) == (1, 7)
            && told(store.look(args[2])) == (2, 2),
    )
}

// g of two new variables; then the variables 3 and 2 of f(X3, X2, X3), each once.
fn variables_are_made(alloc: Global) -> Result<bool, Memory> {
    let mut store = Store::new(alloc);
    let fresh = store.fresh("g", 2)?;
    let args = vec![in alloc;
        Term::var(alloc, 3)?,
        Term::var(alloc, 2)?,
        Term::var(alloc, 3)?,
    ]?;
    let cell = store.put(&Term::comp(alloc, "f", &args)?, 0)?;
    let cells = store.variables(cell)?;
    Ok(
        cells.len() == 2
            && told(store.look(cells[0])) == (0, 3)
            && told(store.look(cells[1])) == (0, 2)
            && told(store.look(fresh)) == (3, 2)
            && told(store.look(store.arg(fresh, 1))) == (0, 1),
    )
}

// n(T, T) of the term before, sixty times: a tree of 2^60 leaves in some two hundred cells.
fn shared(store: &mut Store, leaf: Cell) -> Result<Cell, Memory>
    requires { IsCell store.old leaf }
    ensures { IfOk result (IsCell store.new) }
{
    let mut cell = leaf;
    for _i in 0..60 {
        cell = store.compound("n", &[cell, cell])?;
    }
    Ok(cell)
}

// Such a term is too long, or is refused; one without variables is its own copy.
fn shared_terms_end(alloc: Global) -> Result<bool, Memory> {
    let mut store = Store::new(alloc);
    let variable = store.new_var()?;
    let open = shared(&mut store, variable)?;
    let short = matches!(store.take(open, 100)?, Taken::TooLong);
    let refused = store.take(open, u64::MAX).is_err() && store.copy(open).is_err();
    let atom = store.atom("a")?;
    let closed = shared(&mut store, atom)?;
    Ok(short && refused && store.copy(closed).is_ok())
}

fn symbol_is_a_node(alloc: Global) -> Result<bool, Memory> {
    let mut store = Store::new(alloc);
    let cell = store.atom("abc")?;
    match store.look(cell).node(alloc)? {
        Node::Atom(name) => Ok(name == Name::new(alloc, "abc")?),
        _ => Ok(false),
    }
}

#[test]
fn cells_stand_for_terms(rt: HostRuntime) -> Result<(), Fail> {
    let alloc = rt.alloc();
    assert!(rt; compound_is_made(alloc)?);
    assert!(rt; variables_are_made(alloc)?);
    assert!(rt; shared_terms_end(alloc)?);
    assert!(rt; symbol_is_a_node(alloc)?);
    Ok(())
}
