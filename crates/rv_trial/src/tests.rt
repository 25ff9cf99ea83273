use super::*;
use std::test::Fail;

// All numbers are those of a script in another language, which draws the program, runs it and writes the record by the descriptions of
// the generator, the machine and the format.
#[test]
fn records_of_one_shard_and_of_two(rt: HostRuntime) -> Result<(), Fail> {
    let one = Trial {
        steps: 75,
        shards: 1,
        accesses: 227,
        output: 5,
        bytes: 7560,
        record: [60, 228, 151, 193, 18, 40, 114, 205],
    };
    assert_eq!(rt; trial(rt.alloc(), 7, 42)?, one);
    let two = Trial {
        steps: 1060,
        shards: 2,
        accesses: 3603,
        output: 92,
        bytes: 87_536,
        record: [56, 95, 194, 165, 158, 251, 105, 113],
    };
    assert_eq!(rt; trial(rt.alloc(), 2, 1000)?, two);
    Ok(())
}
