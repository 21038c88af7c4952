// A stack in memory that somebody else lends, written once for every element.
ghost use Rattle.std.specs.Prelude.{◌≡◌, ◌+◌, ◌-◌, if◌then◌else◌, length, is_ok, nat_lt, slice_set};
ghost use Rattle.receiver.specs.Stacks.{top_of};

// The first `len` slots are on the stack, the last of them at its top.
// Kept as slots with a length beside them: the library's vectors own their memory, and a receiver's is lent at each call.
#[derive(Drop)]
pub struct Stack<'a, E> {
    pub(crate) slots: &'a mut [E],
    pub(crate) len: usize,
}

impl<'a, E: Copy> Stack<'a, E> {
    // How many elements are on the stack.
    pub fn len(&self) -> usize
        ensures { result ≡ self.now.len }
    {
        self.len
    }

    // One element more, or the element back where there is no room.
    pub fn push(&mut self, x: E) -> Result<(), E>
        ensures answer { result ≡ (if nat_lt self.old.len (length self.old.slots.now) then Ok tt else Err x) }
        ensures slots { self.new.slots.now ≡ (if is_ok result then slice_set self.old.slots.now self.old.len x else self.old.slots.now) }
        ensures len { self.new.len ≡ (if is_ok result then self.old.len + 1 else self.old.len) }
        ensures same { self.new.slots.ghost_name ≡ self.old.slots.ghost_name }
    {
        // Kept as an index: after `get_mut` on a slice that a struct holds, the check does not know what was written.
        let len = self.len;
        if len >= self.slots.len() {
            return Err(x);
        }
        self.slots[len] = x;
        self.len = len + 1;
        Ok(())
    }

    // Takes the top off.
    pub fn pop(&mut self) -> Option<E>
        ensures answer { result ≡ top_of self.old.len self.old.slots.now }
        ensures slots { self.new.slots.now ≡ self.old.slots.now }
        ensures len { self.new.len ≡ self.old.len - 1 }
        ensures same { self.new.slots.ghost_name ≡ self.old.slots.ghost_name }
    {
        let below = self.len.checked_sub(1)?;
        self.len = below;
        // Kept as an index: after `get` on a slice that a struct holds, the check does not know that it is unchanged.
        if below >= self.slots.len() {
            return None;
        }
        Some(self.slots[below])
    }
}
