//! The factors by which lost data blocks are found.

ghost use Rattle.std.specs.Prelude.{◌≡◌, ◌≢◌, ◌-◌, ◌<◌};
ghost use Rattle.r6_field.specs.Field.{power, generator};
ghost use Rattle.r6_recover.specs.Factors.{IsQuotient, AreFactors};

use r6_field::Gf;

/// `g^(-x)`, which weighs what Q lacks of the data block `x` back.
pub(crate) fn weight_back(x: usize) -> Gf
    requires { x < 255 }
    ensures { result.0 ≡ power generator (255 - x) }
{
    Gf::exp(255 - x as u32)
}

/// What two lost data blocks are multiplied with: `A`, for the sum that P lacks, and `B`, for the one that Q lacks.
pub(crate) fn factors(x: usize, y: usize) -> (Gf, Gf)
    requires before { x < y }
    requires few { y < 255 }
    ensures { AreFactors x y result.0.0 result.1.0 }
{
    let ratio = Gf::exp((y - x) as u32);
    let divisor = ratio + Gf(1);
    let back = weight_back(x);
    (quotient(ratio, divisor), quotient(back, divisor))
}

/// The quotient by a divisor that is not 0.
fn quotient(dividend: Gf, divisor: Gf) -> Gf
    requires { divisor.0 ≢ 0 }
    ensures { IsQuotient dividend.0 divisor.0 result.0 }
{
    match dividend.div(divisor) {
        Some(quotient) => quotient,
        None => Gf(0),
    }
}
