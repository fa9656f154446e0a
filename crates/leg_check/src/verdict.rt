// What a check answers. Bounds are the bounds taken on the way.
#[derive(Clone, Copy, PartialEq, Eq, Debug)]
pub enum Verdict {
    // no place of the leg is inside
    Clear { bounds: u16 },
    // the start of the leg is inside
    Inside,
    // the first piece that is not cleared ends inside
    Entered { piece: u16, bounds: u16 },
    // the first piece that is not cleared ends outside
    Near { piece: u16, bounds: u16 },
}

// What came of examining a piece. Both ways carry the bounds taken, and a stop is no error: a `Result` would need the bounds so far added at each `?`, and be no plainer.
#[derive(Clone, Copy)]
pub(crate) enum Walk {
    Cleared { bounds: u16 },
    // ended at the finest piece of this middle
    Stopped { middle: u16, bounds: u16 },
}
