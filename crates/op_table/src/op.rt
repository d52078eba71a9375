ghost use Rattle.std.specs.Prelude.{◌≡◌};
ghost use Rattle.op_table.specs.Table.{is_prefix, left_of, right_of, kind_named};

use term_core::Memory;

/// Where an operator stands, and which priorities its operands have (ISO 13211-1, 6.3.4.4).
///
/// `f` is the operator, `x` an operand of lower priority and `y` one of at most the same.
#[derive(Clone, Copy, Debug, Drop, PartialEq, Eq)]
pub enum OpKind {
    Xfx,
    Xfy,
    Yfx,
    Fx,
    Fy,
}

/// An operator, whose priority in a table is 1 to 1200.
#[derive(Clone, Copy, Debug, Drop, PartialEq, Eq)]
pub struct Op {
    pub priority: u32,
    pub kind: OpKind,
}

/// Why `op/3` was refused.
#[derive(Clone, Copy, Debug, Drop, PartialEq, Eq)]
pub enum OpFault {
    /// The priority isn't 0 to 1200.
    BadPriority,
    /// The kind isn't `xfx`, `xfy`, `yfx`, `fx` or `fy`.
    BadKind,
    /// The name is `,`, `|`, `[]` or `{}`.
    Clash,
    /// Want of memory.
    Memory,
}

impl From<Memory> for OpFault {
    ghost use Rattle.op_table.specs.declared.op.OpFault.TheVariants.{Memory as Starved};
    ghost use Rattle.std.specs.Prelude.{◌≡◌};

    ghost from_gives = { λ _ result. result ≡ Starved };

    fn from(_refused: Memory) -> OpFault {
        OpFault::Memory
    }
}

impl OpKind {
    /// Whether the operator stands before its operand.
    pub fn is_prefix(self) -> bool
        ensures { result ≡ is_prefix self }
    {
        matches!(self, OpKind::Fx | OpKind::Fy)
    }
}

impl Op {
    /// The greatest priority of the operand on the left.
    pub fn left(self) -> u32
        ensures { result ≡ left_of self }
    {
        match self.kind {
            OpKind::Yfx => self.priority,
            OpKind::Xfx | OpKind::Xfy | OpKind::Fx | OpKind::Fy => self.priority.saturating_sub(1),
        }
    }

    /// The greatest priority of the operand on the right.
    pub fn right(self) -> u32
        ensures { result ≡ right_of self }
    {
        match self.kind {
            OpKind::Xfy | OpKind::Fy => self.priority,
            OpKind::Xfx | OpKind::Yfx | OpKind::Fx => self.priority.saturating_sub(1),
        }
    }
}

// The kind that a name of `op/3` stands for.
pub(crate) fn kind_named(name: &str) -> Option<OpKind>
    ensures { result ≡ kind_named name.now }
{
    match name {
        "xfx" => Some(OpKind::Xfx),
        "xfy" => Some(OpKind::Xfy),
        "yfx" => Some(OpKind::Yfx),
        "fx" => Some(OpKind::Fx),
        "fy" => Some(OpKind::Fy),
        _ => None,
    }
}
