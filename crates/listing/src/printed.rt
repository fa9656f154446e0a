// From four files to what is printed.
ghost use Rattle.std.specs.Prelude.{◌≡◌, IfOk};
ghost use Rattle.files.specs.Outputs.{Written, Writes};
ghost use Rattle.listing.specs.Listing.{listing_of, RowsKept, SameListing};

use crate::ground::ground_of;
use crate::legs::push_legs;
use files::{Files, LoadError, Output};
use loading::load;
use std::alloc::{AllocError, Global};

// The listing, unless a file before the legs has a fault.
fn legs_output(heap: Global, input: Files<'_>) -> Result<Output, LoadError>
    ensures { Writes (listing_of input.entry.nodes.now input.entry.areas.now input.entry.terrain.now input.entry.legs.now) result }
{
    let sheet = load(heap, input.nodes, input.areas)?;
    let lattice = ground_of(heap, input.terrain)?;
    let mut text = Vec::new(heap);
    match push_legs(&mut text, &sheet, &lattice, input.legs) {
        Ok(()) => Ok(Output { text, fault: None }),
        Err(error) => Ok(Output::stopped(text, error)?),
    }
}

// The listing of four files, given their bytes, or the first fault.
pub fn listing(heap: Global, input: Files<'_>) -> Result<Output, AllocError>
    ensures exact { IfOk result (λ o. Written (listing_of input.entry.nodes.now input.entry.areas.now input.entry.terrain.now input.entry.legs.now) o) }
    ensures kept { RowsKept input.entry.nodes.now input.entry.areas.now input.entry.terrain.now }
    ensures same { SameListing input.entry.nodes.now input.entry.areas.now input.entry.terrain.now input.entry.legs.now }
{
    legs_output(heap, input).or_else(|error| Output::stopped(Vec::new(heap), error))
}
