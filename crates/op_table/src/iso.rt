ghost use Rattle.std.specs.Prelude.{◌≡◌};
ghost use Rattle.op_table.specs.Table.{row, rows_of, iso_prefix, iso_infix};

use crate::op::{Op, OpKind};

pub(crate) static PREFIX: [(&str, u32, OpKind); 6] = [
    (":-", 1200, OpKind::Fx),
    ("?-", 1200, OpKind::Fx),
    ("\\+", 900, OpKind::Fy),
    ("-", 200, OpKind::Fy),
    ("+", 200, OpKind::Fy),
    ("\\", 200, OpKind::Fy),
];

pub(crate) static INFIX: [(&str, u32, OpKind); 35] = [
    (":-", 1200, OpKind::Xfx),
    ("-->", 1200, OpKind::Xfx),
    (";", 1100, OpKind::Xfy),
    ("->", 1050, OpKind::Xfy),
    (",", 1000, OpKind::Xfy),
    ("=", 700, OpKind::Xfx),
    ("\\=", 700, OpKind::Xfx),
    ("==", 700, OpKind::Xfx),
    ("\\==", 700, OpKind::Xfx),
    ("@<", 700, OpKind::Xfx),
    ("@=<", 700, OpKind::Xfx),
    ("@>", 700, OpKind::Xfx),
    ("@>=", 700, OpKind::Xfx),
    ("=..", 700, OpKind::Xfx),
    ("is", 700, OpKind::Xfx),
    ("=:=", 700, OpKind::Xfx),
    ("=\\=", 700, OpKind::Xfx),
    ("<", 700, OpKind::Xfx),
    ("=<", 700, OpKind::Xfx),
    (">", 700, OpKind::Xfx),
    (">=", 700, OpKind::Xfx),
    ("+", 500, OpKind::Yfx),
    ("-", 500, OpKind::Yfx),
    ("/\\", 500, OpKind::Yfx),
    ("\\/", 500, OpKind::Yfx),
    ("*", 400, OpKind::Yfx),
    ("/", 400, OpKind::Yfx),
    ("//", 400, OpKind::Yfx),
    ("rem", 400, OpKind::Yfx),
    ("mod", 400, OpKind::Yfx),
    ("div", 400, OpKind::Yfx),
    ("<<", 400, OpKind::Yfx),
    (">>", 400, OpKind::Yfx),
    ("**", 200, OpKind::Xfx),
    ("^", 200, OpKind::Xfy),
];

/// The prefix operator of this name in the ISO table.
#[tactic(auto, unfolding(crate::specs::Table::iso_prefix))]
pub fn iso_prefix(name: &str) -> Option<Op>
    ensures { result ≡ row name.now iso_prefix }
{
    find(&PREFIX, name)
}

/// The infix operator of this name in the ISO table.
#[tactic(auto, unfolding(crate::specs::Table::iso_infix))]
pub fn iso_infix(name: &str) -> Option<Op>
    ensures { result ≡ row name.now iso_infix }
{
    find(&INFIX, name)
}

// The operator of the first row with this name.
fn find(rows: &[(&str, u32, OpKind)], name: &str) -> Option<Op>
    ensures { result ≡ row name.now (rows_of rows.now) }
{
    for (other, priority, kind) in rows {
        if *other == name {
            return Some(Op {
                priority: *priority,
                kind: *kind,
            });
        }
    }
    None
}
