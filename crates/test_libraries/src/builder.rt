//! An AIR that is built.
use circle_air::Air;
use circle_airs::fibonacci_air;
use circle_field::Mersenne31;
use std::test::Fail;

// The digest of the Fibonacci AIR, computed by another implementation.
const DIGEST: &str = "a67776b875e632153a15763d0947ac6ecef53f382223f4a400012e2625b576f9";

#[test]
fn a_built_air_has_its_digest(rt: HostRuntime) -> Result<(), Fail> {
    let air: Air<Mersenne31> = fibonacci_air(rt.alloc())?;
    let digits = hex::encode(rt.alloc(), &air.digest())?;
    assert_eq!(rt; digits.as_str(), DIGEST);
    Ok(())
}
