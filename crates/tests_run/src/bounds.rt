//! What is printed about steps and slots.

use poke_batch::bound::put_bounds;
use std::test::Fail;
use tests_kit::rows::same_bytes;

#[test]
fn tells_bounds(rt: HostRuntime) -> Result<(), Fail> {
    for (steps, slots, text) in [
        (Some(33), Some(21), "steps 33\nslots 21\n"),
        (
            Some(u128::MAX),
            Some(0),
            "steps 340282366920938463463374607431768211455\nslots 0\n",
        ),
        (
            None,
            None,
            "steps more than 2^128-1\nslots more than 2^128-1\n",
        ),
    ] {
        let mut out = Vec::new(rt.alloc());
        put_bounds(&mut out, steps, slots)?;
        same_bytes(&out, text.as_bytes(), text)?;
    }
    Ok(())
}
