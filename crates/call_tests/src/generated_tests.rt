//! Generated scripts: small ones, written out whole by hand, and the ends of the longest.
use script_generator::generate;
use std::test::Fail;

/// A seed, a number of stanzas, and their script.
const SMALL: [(u64, u32, &str); 4] = [
    (
        0,
        6,
        "session pg 1 nop nocheck\nget\ntransaction 0 plain\nbatch 0 DELETE 0\nfail 0\n\
        batch 0 INSERT 1\nbatch 0 INSERT 2\nrollback 0\nbatch 0 SELECT 4\ncommit 0\nput 0\n",
    ),
    (
        1,
        5,
        "session mysql 1 nop nocheck\nget\ntransaction 0 plain\nbatch 0 UPDATE 0\nend 0\n\
        batch 0 INSERT 1\nrollback 0\ntransaction 0 plain\nbatch 0 UPDATE 3\nend 0\n\
        begin 0\nput 0\n",
    ),
    (
        2,
        5,
        "session sqlite 1 nop nocheck\nget\nrollback 0\nbegin 0\nbatch 0 INSERT 2\n\
        batch 0 INSERT 3\ntransaction 0 plain\nbatch 0 DELETE 4\nfail 0\nput 0\n",
    ),
    (u64::MAX, 0, "session pg 1 nop nocheck\nget\nput 0\n"),
];

/// A seed, how many lines its longest script has, and how it ends. All of it was reckoned by another program.
const LONGEST: [(u64, usize, &str); 2] = [
    (
        0,
        149_965,
        "batch 0 SELECT 99996\ntransaction 0 plain\nbatch 0 UPDATE 99997\nend 0\n\
        batch 0 INSERT 99998\nbegin 0\nput 0\n",
    ),
    (
        2,
        150_127,
        "rollback 0\ntransaction 0 plain\nbatch 0 UPDATE 99998\nend 0\n\
        transaction 0 plain\nbatch 0 UPDATE 99999\nend 0\nput 0\n",
    ),
];

/// How many lines there are.
fn count_lines(bytes: &[u8]) -> usize {
    bytes.iter().filter(|byte| **byte == b'\n').count()
}

#[test]
fn generated_scripts_are_those_of_their_seeds(rt: HostRuntime) -> Result<(), Fail> {
    for &(seed, count, text) in &SMALL {
        assert!(rt; count <= 100_000);
        let bytes = generate(rt.alloc(), seed, count)?;
        assert_eq!(rt; bytes.as_slice(), text.as_bytes());
    }
    for &(seed, lines, end) in &LONGEST {
        let bytes = generate(rt.alloc(), seed, 100_000)?;
        assert_eq!(rt; count_lines(bytes.as_slice()), lines);
        assert!(rt; bytes.as_slice().ends_with(end.as_bytes()), "{seed}");
    }
    Ok(())
}
