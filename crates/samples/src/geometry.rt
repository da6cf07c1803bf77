//! Turns, crossings, rings and measures.
use crate::grained::Grained;
use plane::{Measure, MeasureFault, Optical, Position, Triangle, Weighted, crossing, turn};
use std::test::Fail;

pub(crate) fn at(u: u16, v: u16) -> Position {
    Position { u, v }
}

// The entries of the optical table, as the heights along u.
const ENTRIES: [(u16, i64); 6] = [
    (0, 0),
    (1, 2),
    (2, 8),
    (1024, 2_097_152),
    (2048, 7_339_008),
    (4096, 22_016_000),
];

#[test]
fn optical_entries(rt: HostRuntime) {
    for (k, entry) in ENTRIES {
        assert_eq!(rt; Optical.height(at(k, 0)), entry);
        assert_eq!(rt; Optical.height(at(0, k)), entry);
    }
    assert_eq!(rt; Optical.height(at(4096, 4096)), 44_032_000);
    assert_eq!(rt; Optical.height(at(4097, 0)), 0);
}

#[test]
fn turns_and_weights(rt: HostRuntime) {
    let q = at(2048, 512);
    let a = at(0, 0);
    let b = at(4096, 0);
    let c = at(1024, 1024);
    assert_eq!(rt; turn(a, b, at(4096, 4096)), 16_777_216);
    assert_eq!(rt; turn(a, at(4096, 4096), b), -16_777_216);
    assert_eq!(rt; turn(a, c, at(4096, 4096)), 0);
    assert_eq!(rt; turn(a, at(65_535, 0), at(0, 65_535)), 4_294_836_225);
    let triangle = Triangle { a, b, c };
    assert_eq!(rt; triangle.weights(q), [524_288, 1_572_864, 2_097_152]);
}

// An edge counts its lower end and not its upper; a position on the edge is on neither side.
#[test]
fn crossings(rt: HostRuntime) {
    let low = at(1000, 1000);
    let high = at(2000, 3000);
    let cases = [
        (at(500, 2000), 1, -1),
        (at(2500, 2000), 0, -1),
        (at(3500, 2000), 0, 0),
        (at(500, 1000), 1, -1),
        (at(500, 3000), 0, 0),
        (at(500, 999), 0, 0),
        (at(1500, 2000), 0, -1),
        (low, 0, -1),
        (high, 0, 0),
    ];
    for (q, rising, falling) in cases {
        assert_eq!(rt; crossing(q, low, high), rising);
        assert_eq!(rt; crossing(q, high, low), -rising);
        assert_eq!(rt; crossing(q, at(3000, 3000), at(3000, 1000)), falling);
    }
}

// A position on the edge that two triangles share has one owner.
#[test]
fn owners(rt: HostRuntime) {
    let a = at(0, 0);
    let b = at(4096, 0);
    let c = at(4096, 4096);
    let d = at(0, 4096);
    let right = Triangle { a, b, c };
    let left = Triangle { a, b: c, c: d };
    let turned = Triangle { a: c, b, c: a };
    for q in [
        at(1, 1),
        at(2048, 2048),
        at(4095, 4095),
        at(3000, 100),
        at(100, 3000),
    ] {
        assert_ne!(rt; right.owns(q), left.owns(q));
    }
    assert!(rt; right.owns(at(3000, 100)));
    assert!(rt; !turned.owns(at(3000, 100)));
}

#[test]
fn weighted_measures(rt: HostRuntime) -> Result<(), Fail> {
    for (a, b, c) in [(1, 1, 0), (64, 64, 63), (64, 64, -63), (2, 2, 1), (4, 1, 1)] {
        assert!(rt; Weighted::new(a, b, c).is_ok());
    }
    for (a, b, c) in [
        (0, 1, 0),
        (1, 65, 0),
        (64, 64, 64),
        (64, 64, -64),
        (4, 1, 2),
        (1, 1, -1),
        (2_147_483_647, 1, 0),
    ] {
        assert_eq!(rt; Weighted::new(a, b, c).err(), Some(MeasureFault::Weights));
    }
    let slanted = Weighted::new(2, 2, 1)?;
    assert_eq!(rt; slanted.height(at(3, 5)), 98);
    assert_eq!(rt; slanted.height(at(3, 4097)), 0);
    Ok(())
}

fn three_corners() -> Triangle {
    Triangle {
        a: at(0, 0),
        b: at(4096, 0),
        c: at(4096, 4096),
    }
}

// The corners of the plane: the fourth stands on the ring of the other three, or off it, as the measure has it.
fn corner_ring<M: Measure>(measure: &M) -> Option<i64> {
    three_corners().ring(measure, at(0, 4096))
}

#[test]
fn rings(rt: HostRuntime) -> Result<(), Fail> {
    let round = Weighted::new(1, 1, 0)?;
    let slanted = Weighted::new(2, 2, 1)?;
    assert_eq!(rt; corner_ring(&round), Some(0));
    assert_eq!(rt; corner_ring(&Optical), Some(0));
    assert_eq!(rt; corner_ring(&Grained), Some(0));
    assert_eq!(rt; corner_ring(&slanted), Some(562_949_953_421_312));
    let middle = at(2048, 1024);
    let inside = three_corners();
    let outside = Triangle {
        c: at(4096, 4097),
        ..inside
    };
    assert_eq!(rt; inside.ring(&round, middle), Some(123_145_302_310_912));
    assert_eq!(rt; inside.ring(&Grained, at(1, 1)), Some(274_794_020_864));
    assert_eq!(rt; outside.ring(&round, middle), None);
    Ok(())
}
