//! The texts of why a job is not merged, which neither a clause nor a program says.

use lsm_merge::MergeError;
use std::test::Fail;

const REFUSALS: [(MergeError, &str); 3] = [
    (
        MergeError::WrongInputs,
        "the tables are not the inputs of the job",
    ),
    (
        MergeError::SameEntry,
        "two inputs share an entry's key and sequence",
    ),
    (MergeError::OutOfMemory, "out of memory"),
];

#[test]
fn a_refusal_of_a_merge_says_why(rt: HostRuntime) -> Result<(), Fail> {
    for (error, wanted) in REFUSALS {
        let text = format!(in rt.alloc(); "{error}")?;
        assert!(rt; text.as_str() == wanted);
    }
    Ok(())
}
