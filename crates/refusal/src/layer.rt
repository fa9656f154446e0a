ghost use Rattle.std.specs.Prelude.{◌≡◌};
ghost use Rattle.refusal.specs.Numbers.{number_of_layer};

// The part of the software that refuses.
#[derive(Clone, Copy, PartialEq, Eq, Debug)]
pub enum Layer {
    Line = 1,
    Value = 2,
    Sheet = 3,
    Field = 4,
}

impl Layer {
    // The layer's number, from 1 to 4.
    pub fn number(self) -> u8
        ensures { result ≡ number_of_layer self }
    {
        self as u8
    }
}
