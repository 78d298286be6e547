//! Readers and writers that fail once by `rows`.

use cave_files::caves::PILLAR;
use cave_files::streams::{once_failing_reader_of, once_failing_writer};
use std::test::Fail;
use torch_plan::{RunFault, run_rows};

/// The rows text of the pillar.
const TEXT: &[u8] = b"15 0 stand top side\tminecraft:stone\n0 0 free put\tminecraft:air\n";

#[test]
fn a_stream_of_rows_that_failed_is_not_tried_again(rt: HostRuntime) -> Result<(), Fail> {
    let alloc = rt.alloc();
    let bytes = PILLAR.bytes(alloc)?;
    for fails_at in 0..=bytes.len() {
        let mut reader = once_failing_reader_of(&bytes, fails_at);
        let mut written = Vec::new(alloc);
        let ended = run_rows(alloc, &mut reader, None, &mut written);
        assert!(rt; matches!(&ended, Err(RunFault::ReadFailed)));
        assert!(rt; written.is_empty());
    }
    for fails_at in 0..TEXT.len() {
        let mut writer = once_failing_writer(alloc, fails_at);
        let ended = run_rows(alloc, &mut bytes.as_slice(), None, &mut writer);
        assert!(rt; matches!(&ended, Err(RunFault::WriteFailed)));
        assert_eq!(rt; writer.taken.as_slice(), &TEXT[..fails_at]);
    }
    Ok(())
}
