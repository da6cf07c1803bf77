//! Mixes and blends.
use crate::bearing::Bearing;
use crate::geometry::at;
use figures::{Advance, BlendFault, Mix, Pair, blend};
use plane::Triangle;
use std::test::Fail;

pub(crate) fn advance(value: u16) -> Advance {
    Advance { value }
}

pub(crate) fn bearing(value: i16) -> Bearing {
    Bearing { value }
}

pub(crate) fn pair(along: i16, across: i16) -> Pair {
    Pair { along, across }
}

// The mix at q of masters 0, 1 and 4 of a family of five, which stand at two corners and at (1024, 1024).
fn owner_mix(u: u16, v: u16) -> Option<Mix> {
    let triangle = Triangle {
        a: at(0, 0),
        b: at(4096, 0),
        c: at(1024, 1024),
    };
    Mix::of_owner(at(u, v), triangle, [0, 1, 4], 5)
}

fn mix_at(u: u16, v: u16) -> Result<Mix, Fail> {
    Ok(owner_mix(u, v).ok_or("no owner")?)
}

#[test]
fn mixes(rt: HostRuntime) -> Result<(), Fail> {
    let mix = mix_at(2048, 512)?;
    assert_eq!(rt; mix.masters(), [0, 1, 4]);
    assert_eq!(rt; mix.weights(), [524_288, 1_572_864, 2_097_152]);
    assert_eq!(rt; mix.total(), 4_194_304);
    assert_eq!(rt; mix.count(), 5);
    assert_eq!(rt; mix_at(512, 512)?.weights(), [2_097_152, 0, 2_097_152]);
    assert!(rt; owner_mix(512, 2000).is_none());
    assert!(rt; owner_mix(5000, 512).is_none());
    Ok(())
}

#[test]
fn one_number(rt: HostRuntime) -> Result<(), Fail> {
    let mix = mix_at(2048, 512)?;
    let row = [500, 900, 1000, 600, 701].map(advance);
    assert_eq!(rt; blend(&row, &mix), Ok(advance(751)));
    assert_eq!(rt; blend(&row[0..4], &mix), Err(BlendFault::Figures));
    let below = [-500, -900, -1000, -600, -701].map(bearing);
    assert_eq!(rt; blend(&below, &mix), Ok(bearing(-750)));
    let lower = [-502, -900, -1000, -600, -701].map(bearing);
    assert_eq!(rt; blend(&lower, &mix), Ok(bearing(-751)));
    assert_eq!(rt; blend(&[advance(65_535); 5], &mix), Ok(advance(65_535)));
    assert_eq!(rt; blend(&[advance(0); 5], &mix), Ok(advance(0)));
    Ok(())
}

// The whole weight on one master, a weight of 0, and the ends of the range.
#[test]
fn two_numbers(rt: HostRuntime) -> Result<(), Fail> {
    let row = [
        pair(-500, 500),
        pair(-900, 900),
        pair(0, 0),
        pair(0, 0),
        pair(-701, 701),
    ];
    assert_eq!(rt; blend(&row, &mix_at(2048, 512)?), Ok(pair(-750, 751)));
    assert_eq!(rt; blend(&row, &mix_at(1, 0)?), Ok(pair(-500, 500)));
    assert_eq!(rt; blend(&row, &mix_at(512, 512)?), Ok(pair(-600, 601)));
    let ends = [pair(-32_768, 32_767); 5];
    assert_eq!(rt; blend(&ends, &mix_at(512, 512)?), Ok(pair(-32_768, 32_767)));
    Ok(())
}

// The least total and the greatest.
#[test]
fn totals(rt: HostRuntime) -> Result<(), Fail> {
    let least = Triangle {
        a: at(0, 0),
        b: at(1, 0),
        c: at(0, 1),
    };
    let greatest = Triangle {
        a: at(0, 0),
        b: at(4096, 0),
        c: at(4096, 4096),
    };
    let tiny = Mix::of_owner(at(0, 0), least, [0, 1, 2], 3);
    let vast = Mix::of_owner(at(3000, 100), greatest, [0, 1, 2], 4);
    let tiny = tiny.ok_or("no owner")?;
    let vast = vast.ok_or("no owner")?;
    assert_eq!(rt; tiny.total(), 1);
    assert_eq!(rt;
        blend(&[advance(65_535), advance(0), advance(0)], &tiny),
        Ok(advance(65_535))
    );
    assert_eq!(rt; vast.total(), 16_777_216);
    let ends = [-32_768, 32_767, 32_767, 0].map(bearing);
    assert_eq!(rt; blend(&ends, &vast), Ok(bearing(15_231)));
    Ok(())
}
