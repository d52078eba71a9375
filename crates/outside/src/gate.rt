// What a turn passes on its way.

/// What each turn passes after it is taken and before it is made. A gate may hold a turn, so that a
/// test sees what others are answered meanwhile.
pub trait Gate {
    /// Lets the turn of this serial pass.
    fn pass(&self, serial: u64);
}

/// The program's gate, which does nothing.
#[derive(Clone, Copy, Debug, Drop)]
pub struct Open;

impl Gate for Open {
    fn pass(&self, _serial: u64) {}
}
