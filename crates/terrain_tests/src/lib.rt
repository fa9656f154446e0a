// Lattices made of rows and of files, and terrain at the borders and corners of its lattice. The numbers were worked out by another program.
#![tactic(auto)]

use affine::Form;
use field::Field;
use leg::{HalfStep, Leg, Piece, Point};
use refusal::Refusal;
use std::alloc::{AllocError, Global};
use std::iter;
use terrain::Lattice;

// Height number k is k² in 317, less 16.
fn rough_row(heap: Global) -> Result<Vec<i16>, AllocError> {
    (0..16641u64)
        .map(|k| (k * k % 317) as i16 - 16)
        .collect(heap)
}

// A file with one height everywhere, by its two bytes.
fn flat_file(heap: Global, high: u8, low: u8) -> Result<Vec<u8>, AllocError> {
    iter::repeat_n([high, low], 16641).flatten().collect(heap)
}

fn lattice_of(row: Vec<i16>) -> Result<Lattice, Refusal> {
    Lattice::fits(row.as_slice())?;
    Ok(Lattice::new(row))
}

fn value_at(lattice: &Lattice, leg: &Leg, step: i64) -> Result<i64, Refusal> {
    Ok(lattice.value(leg, HalfStep::try_from(step)?))
}

fn bound_on(lattice: &Lattice, leg: &Leg, middle: i64, half: i64) -> Result<Form, Refusal> {
    Ok(lattice.bound(leg, Piece::new(middle, half)?))
}

#[cfg(test)]
mod tests {
    use super::*;
    use std::test::Fail;

    #[test]
    fn rows_of_other_sizes(rt: HostRuntime) -> Result<(), Fail> {
        let short = vec![in rt.alloc(); 0i16; 16640]?;
        assert_eq!(rt; Lattice::fits(short.as_slice()), Err(Refusal::LatticeSize));
        let long = vec![in rt.alloc(); 0i16; 16642]?;
        assert_eq!(rt; Lattice::fits(long.as_slice()), Err(Refusal::LatticeSize));
        Ok(())
    }

    #[test]
    fn heights_at_the_ends_of_their_range(rt: HostRuntime) -> Result<(), Fail> {
        let high = vec![in rt.alloc(); 300i16; 16641]?;
        assert_eq!(rt; Lattice::fits(high.as_slice()), Ok(()));
        let higher = vec![in rt.alloc(); 301i16; 16641]?;
        assert_eq!(rt; Lattice::fits(higher.as_slice()), Err(Refusal::HeightRange));
        let low = vec![in rt.alloc(); -16i16; 16641]?;
        assert_eq!(rt; Lattice::fits(low.as_slice()), Ok(()));
        let lower = vec![in rt.alloc(); -17i16; 16641]?;
        assert_eq!(rt; Lattice::fits(lower.as_slice()), Err(Refusal::HeightRange));
        Ok(())
    }

    #[test]
    fn files(rt: HostRuntime) -> Result<(), Fail> {
        let high = flat_file(rt.alloc(), 1, 44)?;
        assert_eq!(rt; Lattice::file_fits(high.as_slice()), Ok(()));
        let higher = flat_file(rt.alloc(), 1, 45)?;
        assert_eq!(rt;
            Lattice::file_fits(higher.as_slice()),
            Err(Refusal::HeightRange)
        );
        let low = flat_file(rt.alloc(), 255, 240)?;
        assert_eq!(rt; Lattice::file_fits(low.as_slice()), Ok(()));
        let lower = flat_file(rt.alloc(), 255, 239)?;
        assert_eq!(rt;
            Lattice::file_fits(lower.as_slice()),
            Err(Refusal::HeightRange)
        );
        let long = vec![in rt.alloc(); 0u8; 33283]?;
        assert_eq!(rt;
            Lattice::file_fits(long.as_slice()),
            Err(Refusal::LatticeSize)
        );
        Ok(())
    }

    #[test]
    fn level_over_a_file_of_10(rt: HostRuntime) -> Result<(), Fail> {
        let bytes = flat_file(rt.alloc(), 0, 10)?;
        Lattice::file_fits(bytes.as_slice())?;
        let lattice = Lattice::from_file(rt.alloc(), bytes.as_slice())?;
        let above = Leg::new(Point::new(4096, 4096, 11), Point::new(-4096, -4096, 11))?;
        assert_eq!(rt; value_at(&lattice, &above, 4096)?, 1 << 36);
        Ok(())
    }

    #[test]
    fn level_over_heights_of_10(rt: HostRuntime) -> Result<(), Fail> {
        let lattice = lattice_of(vec![in rt.alloc(); 10i16; 16641]?)?;
        let above = Leg::new(Point::new(-4096, 4096, 11), Point::new(4096, 17, 11))?;
        assert_eq!(rt; value_at(&lattice, &above, 1234)?, 1 << 36);
        let level = Leg::new(Point::new(-4096, 4096, 10), Point::new(4096, 17, 10))?;
        assert_eq!(rt; value_at(&lattice, &level, 0)?, 0);
        Ok(())
    }

    #[test]
    fn corners(rt: HostRuntime) -> Result<(), Fail> {
        let lattice = lattice_of(rough_row(rt.alloc())?)?;
        let leg = Leg::new(Point::new(-4096, -4096, 100), Point::new(4096, 4096, 100))?;
        assert_eq!(rt; value_at(&lattice, &leg, 0)?, 7971459301376);
        assert_eq!(rt; value_at(&lattice, &leg, 1)?, 7636116307968);
        assert_eq!(rt; value_at(&lattice, &leg, 2048)?, 3779571220480);
        assert_eq!(rt; value_at(&lattice, &leg, 4095)?, -8485043437568);
        assert_eq!(rt; value_at(&lattice, &leg, 4096)?, -8796093022208);
        assert_eq!(rt;
            bound_on(&lattice, &leg, 2048, 2048)?,
            Form {
                u0: 3779571220480,
                u1: 0,
                u2: 7890095440920576,
            }
        );
        assert_eq!(rt;
            bound_on(&lattice, &leg, 1, 1)?,
            Form {
                u0: 7636116307968,
                u1: -331383570432,
                u2: 3959422976,
            }
        );
        assert_eq!(rt; lattice.steepness(&leg), 3852585664512);
        Ok(())
    }

    #[test]
    fn other_corners(rt: HostRuntime) -> Result<(), Fail> {
        let lattice = lattice_of(rough_row(rt.alloc())?)?;
        let leg = Leg::new(Point::new(-4096, 4096, 0), Point::new(4096, -4096, 660))?;
        assert_eq!(rt; value_at(&lattice, &leg, 0)?, -9208409882624);
        assert_eq!(rt; value_at(&lattice, &leg, 1)?, -9123986931712);
        assert_eq!(rt; value_at(&lattice, &leg, 2048)?, 19585050869760);
        assert_eq!(rt; value_at(&lattice, &leg, 4095)?, 31617401749504);
        assert_eq!(rt; value_at(&lattice, &leg, 4096)?, 31542239821824);
        assert_eq!(rt;
            bound_on(&lattice, &leg, 4095, 1)?,
            Form {
                u0: 31617401749504,
                u1: -71202504704,
                u2: 3959422976,
            }
        );
        assert_eq!(rt; lattice.steepness(&leg), 3863658627072);
        Ok(())
    }

    #[test]
    fn along_a_border_of_cells(rt: HostRuntime) -> Result<(), Fail> {
        let lattice = lattice_of(rough_row(rt.alloc())?)?;
        let leg = Leg::new(Point::new(-3776, -4096, 50), Point::new(-3776, 4096, 50))?;
        assert_eq!(rt; value_at(&lattice, &leg, 0)?, 2817498546176);
        assert_eq!(rt; value_at(&lattice, &leg, 1)?, 2433098973184);
        assert_eq!(rt; value_at(&lattice, &leg, 2048)?, 1511828488192);
        assert_eq!(rt; value_at(&lattice, &leg, 4095)?, -4700841705472);
        assert_eq!(rt; value_at(&lattice, &leg, 4096)?, -4947802324992);
        assert_eq!(rt;
            bound_on(&lattice, &leg, 16, 16)?,
            Form {
                u0: -3332894621696,
                u1: -6150393167872,
                u2: 0,
            }
        );
        assert_eq!(rt;
            bound_on(&lattice, &leg, 48, 16)?,
            Form {
                u0: -4638564679680,
                u1: 4844723109888,
                u2: 0,
            }
        );
        assert_eq!(rt;
            bound_on(&lattice, &leg, 32, 32)?,
            Form {
                u0: -9483287789568,
                u1: 0,
                u2: 61641370632192,
            }
        );
        assert_eq!(rt; lattice.steepness(&leg), 1926292832256);
        Ok(())
    }

    #[test]
    fn along_the_high_edge(rt: HostRuntime) -> Result<(), Fail> {
        let lattice = lattice_of(rough_row(rt.alloc())?)?;
        let leg = Leg::new(Point::new(4096, -64, 200), Point::new(4096, 0, -16))?;
        assert_eq!(rt; value_at(&lattice, &leg, 0)?, 3229815406592);
        assert_eq!(rt; value_at(&lattice, &leg, 1)?, 3225788874752);
        assert_eq!(rt; value_at(&lattice, &leg, 2048)?, -5016521801728);
        assert_eq!(rt; value_at(&lattice, &leg, 4095)?, -13258832478208);
        assert_eq!(rt; value_at(&lattice, &leg, 4096)?, -13262859010048);
        assert_eq!(rt;
            bound_on(&lattice, &leg, 2048, 2048)?,
            Form {
                u0: -5016521801728,
                u1: -8246337208320,
                u2: 0,
            }
        );
        assert_eq!(rt; lattice.steepness(&leg), 18673041408);
        Ok(())
    }

    #[test]
    fn across_one_cell(rt: HostRuntime) -> Result<(), Fail> {
        let lattice = lattice_of(rough_row(rt.alloc())?)?;
        let leg = Leg::new(Point::new(-64, 0, 20), Point::new(0, 64, 300))?;
        assert_eq!(rt; value_at(&lattice, &leg, 0)?, -12850542149632);
        assert_eq!(rt; value_at(&lattice, &leg, 1)?, -12843998793728);
        assert_eq!(rt; value_at(&lattice, &leg, 2048)?, 1563368095744);
        assert_eq!(rt; value_at(&lattice, &leg, 4095)?, 17995980320768);
        assert_eq!(rt; value_at(&lattice, &leg, 4096)?, 18004502904832);
        assert_eq!(rt;
            bound_on(&lattice, &leg, 2048, 2048)?,
            Form {
                u0: 1563368095744,
                u1: 15427522527232,
                u2: 1013612281856,
            }
        );
        assert_eq!(rt;
            bound_on(&lattice, &leg, 3, 1)?,
            Form {
                u0: -12830910631936,
                u1: 6544564224,
                u2: 241664,
            }
        );
        assert_eq!(rt; lattice.steepness(&leg), 34795945984);
        Ok(())
    }

    #[test]
    fn largest_step_and_reach(rt: HostRuntime) -> Result<(), Fail> {
        let lattice = lattice_of(rough_row(rt.alloc())?)?;
        assert_eq!(rt; lattice.largest_step(), 299);
        assert_eq!(rt; lattice.reach(), 18014398509481984);
        Ok(())
    }
}
