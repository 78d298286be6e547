//! What is told of the regions of a cave.

use cave_files::caves::TWO_CORRIDORS;
use std::sync::atomic::{AtomicU64, Ordering};
use std::test::Fail;
use torch_plan::{Observer, Resources, Rule, Unkept, Watcher, run_plan_alone};

/// What was told: two digits for the number of each region, and two for how many there are.
#[derive(Drop)]
struct Digits {
    told: AtomicU64,
}

impl Observer for Digits {
    fn region(&self, number: usize, count: usize) {
        let before = self.told.load(Ordering::SeqCst).wrapping_mul(10_000);
        let region = (number as u64).wrapping_mul(100).wrapping_add(count as u64);
        self.told
            .store(before.wrapping_add(region), Ordering::SeqCst);
    }
}

impl Watcher for Digits {}

#[test]
fn regions_are_told_one_after_another(rt: HostRuntime) -> Result<(), Fail> {
    let alloc = rt.alloc();
    let bytes = TWO_CORRIDORS.bytes(alloc)?;
    let digits = Digits {
        told: AtomicU64::new(0),
    };
    let mut reader = bytes.as_slice();
    let mut text = Vec::new(alloc);
    let resources = Resources {
        threads: &rt,
        alloc,
        observer: &digits,
    };
    let ended = run_plan_alone(
        &resources,
        &mut reader,
        None,
        Rule::new(2, 1),
        None,
        &mut text,
        &mut Unkept,
    );
    assert!(rt; ended.is_ok());
    assert_eq!(rt; digits.told.load(Ordering::SeqCst), 1_02_02_02);
    Ok(())
}
