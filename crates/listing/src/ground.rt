// The terrain of a file.
ghost use Rattle.std.specs.Prelude.{◌≡◌};
ghost use Rattle.listing.specs.Ground.{Grounds};

use files::{File, FileFault, LoadError};
use refusal::Fault;
use std::alloc::Global;
use terrain::Lattice;

// The lattice that the bytes hold; none where there are no bytes. A refusal of the file has no line.
pub(crate) fn ground_of(heap: Global, bytes: &[u8]) -> Result<Option<Lattice>, LoadError>
    ensures { Grounds bytes.now result }
{
    if bytes.is_empty() {
        return Ok(None);
    }
    Lattice::file_fits(bytes).map_err(|refusal| FileFault {
        file: File::Terrain,
        fault: Fault::new(refusal, 0, 0),
    })?;
    let lattice = Lattice::from_file(heap, bytes)?;
    Ok(Some(lattice))
}
