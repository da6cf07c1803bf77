//! The weighted measure.
ghost use Rattle.std.specs.Prelude.{◌≡◌, true};
ghost use Rattle.plane.specs.Weighted.{keeps_rule};

// Heights A·u² + 2C·u·v + B·v². Its numbers keep their rule.
#[derive(Clone, Copy)]
pub struct Weighted {
    pub(crate) a: i64,
    pub(crate) b: i64,
    pub(crate) c: i64,
    ghost rule: { keeps_rule a b c ≡ true },
}
