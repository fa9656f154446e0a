// Areas, and the plain table of them by their numbers.
ghost use Rattle.std.specs.Prelude.{◌≡◌, ℕ, ◌<◌, replicate, None, ◌≢◌, slice_index_or, slice_set};
ghost use Rattle.areas.specs.Table.{used};

// A published area: the number of its node, and whether it is on.
#[derive(Clone, Copy)]
pub struct Area {
    pub node: usize,
    pub on: bool,
}

// The areas by their numbers, 0 to 15. A number without an area has none.
#[derive(Clone, Copy)]
pub struct Areas {
    pub slots: [Option<Area>; 16],
}

impl Areas {
    // No area is published.
    pub fn new() -> Areas
        ensures { result.slots ≡ replicate 16 None }
    {
        Areas { slots: [None; 16] }
    }

    // The area of a number.
    pub fn at(&self, number: usize) -> Option<Area>
        requires { number < 16 }
        ensures { result ≡ slice_index_or self.now.slots number None }
    {
        self.slots[number]
    }

    // Changes what stands under one number, and under no other.
    pub fn put(&mut self, number: usize, slot: Option<Area>)
        requires { number < 16 }
        ensures after { self.new.slots ≡ slice_set self.old.slots number slot }
        ensures others { (k : ℕ) → (k ≢ number) → slice_index_or self.new.slots k None ≡ slice_index_or self.old.slots k None }
    {
        self.slots[number] = slot;
    }

    // Whether an area, on or off, has this node.
    pub fn has_node(&self, node: usize) -> bool
        ensures { result ≡ used node self.now.slots }
    {
        any_has(&self.slots, node)
    }
}

fn any_has(slots: &[Option<Area>], node: usize) -> bool
    ensures { result ≡ used node slots.now }
{
    slots
        .iter()
        .any(|slot| matches!(slot, Some(area) if area.node == node))
}
