//! A plan of failing calls.

use outside::FaultPlan;
use std::test::Fail;

#[test]
fn the_calls_of_the_plan_fail(rt: HostRuntime) -> Result<(), Fail> {
    let alloc = rt.alloc();
    let mut plan = FaultPlan::new(vec![in alloc; 2, 4]?);
    for expected in [false, true, false, true, false] {
        assert_eq!(rt; plan.fails(), expected);
    }
    Ok(())
}
