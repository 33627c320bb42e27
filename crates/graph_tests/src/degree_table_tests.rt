ghost use Rattle.std.specs.Prelude.{◌≢◌};
ghost use Rattle.gm_config.specs.DegreeSpec.{IsDegreeSpec};
ghost use Rattle.gm_config.specs.declared.degree_specs.DegreeSpec.TheVariants.{Free};

use degree_table::DegreeTable;
use gm_config::DegreeSpec;
use gm_text::Items;
use std::alloc::{AllocError, Global};
use std::test::Fail;

/// The total, the greatest degree, and the degrees of the least, the middle and the greatest word.
type Answers = (u64, u32, [u32; 3]);

/// What the table of a specification answers, with so many nodes at the other side.
fn answers(alloc: Global, spec: DegreeSpec, opposite: u32) -> Result<Answers, AllocError>
    requires limits { IsDegreeSpec spec }
    requires not_free { spec ≢ Free }
{
    let table = DegreeTable::of(alloc, &spec, opposite)?;
    let degrees = [
        table.degree_at(0),
        table.degree_at(1 << 63),
        table.degree_at(u64::MAX),
    ];
    Ok((table.total(), table.greatest(), degrees))
}

#[test]
fn uniform(rt: HostRuntime) -> Result<(), Fail> {
    let found = answers(rt.alloc(), DegreeSpec::Uniform { min: 2, max: 5 }, 9)?;
    assert_eq!(rt; found, (4, 5, [2, 4, 5]));
    Ok(())
}

/// What the table of bell degrees around a center answers, at most one away from it.
fn bell_answers(alloc: Global, center: u32) -> Result<Option<Answers>, AllocError> {
    if center > 3 {
        return Ok(None);
    }
    let spec = DegreeSpec::Bell { center, width: 1 };
    Ok(Some(answers(alloc, spec, 9)?))
}

#[test]
fn bell(rt: HostRuntime) -> Result<(), Fail> {
    for (center, found) in [(3, (6, 4, [2, 3, 4])), (0, (5, 1, [0, 0, 1]))] {
        assert_eq!(rt; bell_answers(rt.alloc(), center)?, Some(found));
    }
    Ok(())
}

#[test]
fn zipf(rt: HostRuntime) -> Result<(), Fail> {
    let spec = DegreeSpec::Zipf {
        exponent: 2,
        max: Some(3),
    };
    let found = answers(rt.alloc(), spec, 9)?;
    assert_eq!(rt; found, (1361111111, 3, [1, 1, 3]));
    Ok(())
}

#[test]
fn zipf_has_a_greatest_degree(rt: HostRuntime) -> Result<(), Fail> {
    let spec = DegreeSpec::Zipf {
        exponent: 3,
        max: Some(2000),
    };
    let (_, greatest, _) = answers(rt.alloc(), spec, 9)?;
    assert_eq!(rt; greatest, 1000);
    Ok(())
}

#[test]
fn zipf_up_to_the_other_side(rt: HostRuntime) -> Result<(), Fail> {
    for (opposite, found) in [
        (0, (1_000_000_000, 1, [1, 1, 1])),
        (3, (1_833_333_333, 3, [1, 1, 3])),
    ] {
        let spec = DegreeSpec::Zipf {
            exponent: 1,
            max: None,
        };
        assert_eq!(rt; answers(rt.alloc(), spec, opposite)?, found);
    }
    Ok(())
}

#[test]
fn table(rt: HostRuntime) -> Result<(), Fail> {
    let weights = Items::of(vec![in rt.alloc(); 0, 1, 0, 3, 0, 0]?);
    let found = answers(rt.alloc(), DegreeSpec::Table { weights }, 9)?;
    assert_eq!(rt; found, (4, 3, [1, 3, 3]));
    Ok(())
}
