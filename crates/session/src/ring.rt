ghost use Rattle.std.specs.Prelude.{◌≡◌, ◌<◌, ◌≤◌, [], ◌∷◌, ◌++◌, length, take, drop};
ghost use Rattle.circular_buffer.specs.Buffer.{buffer};

use circular_buffer::HeapCircularBuffer;

// Puts an item behind the others, where there is a place for it.
pub(crate) fn put<T: Drop>(ring: &mut HeapCircularBuffer<T>, item: T)
    requires { length ring.old.items < ring.old.capacity }
    ensures { ring.new ≡ buffer (ring.old.items ++ item ∷ []) ring.old.capacity }
{
    let _ = ring.push_back(item);
}

// Moves the first items, so many, to a ring that has places for them.
pub(crate) fn move_first<T: Drop>(
    many: usize,
    from: &mut HeapCircularBuffer<T>,
    to: &mut HeapCircularBuffer<T>,
)
    requires there { many ≤ length from.old.items }
    requires none { to.old.items ≡ [] }
    requires places { many ≤ to.old.capacity }
    ensures moved { to.new ≡ buffer (take many from.old.items) to.old.capacity }
    ensures left { from.new ≡ buffer (drop many from.old.items) from.old.capacity }
{
    for _i in 0..many {
        if let Some(item) = from.pop_front() {
            put(to, item);
        }
    }
}
