// What is said of walks through the Keypad bench, worked out by hand.
use std::alloc::{AllocError, Global};
use std::fmt::Write;
use std::test::Fail;
use validate::walk;

// Four variables, five actions and the goal.
// The search's tests have these bytes too: a crate for one constant would be no plainer.
const KEYPAD: [u8; 119] = [
    1, 0, 1, 0, 3, 1, 0, 1, 0, 2, 1, 0, 1, 0, 2, 1, 0, 1, 0, 2, 12, 0, 2, 0, 2, 0, 0, 0, 1, 0, 1,
    1, 0, 0, 0, 1, 12, 0, 2, 0, 2, 0, 0, 0, 1, 0, 1, 1, 0, 1, 0, 2, 16, 0, 2, 0, 5, 0, 0, 0, 1, 0,
    2, 2, 0, 2, 1, 1, 0, 0, 1, 0, 16, 0, 2, 0, 10, 0, 0, 0, 1, 0, 3, 1, 0, 0, 1, 0, 2, 0, 2, 1, 12,
    0, 2, 0, 4, 0, 0, 0, 0, 0, 1, 1, 3, 0, 3, 1, 7, 0, 3, 0, 3, 1, 0, 2, 1, 3, 1,
];

// All that is said, a line after another.
fn said(heap: Global, book: &[u8], input: &[u8]) -> Result<String, AllocError> {
    let mut text = String::new(heap);
    for line in &walk(heap, book, input)? {
        writeln!(text, "{line}")?;
    }
    Ok(text)
}

#[test]
fn walks(rt: HostRuntime) -> Result<(), Fail> {
    let heap = rt.alloc();
    let table: [(&[u8], &str); 13] = [
        (
            b"0 0 1 1\n\n",
            "the goal holds\ncost by Time: 0 tenths\ncost by Presses: 0 presses, 0 tenths\n",
        ),
        (
            b"0 1 0 0\n4",
            "action 4 sets 3=1: 4 tenths, 0 presses; so far 4 tenths, 0 presses\nthe goal does not hold\ncost by Time: 4 tenths\ncost by Presses: 0 presses, 4 tenths\n",
        ),
        (
            b"0 1 0 0\n0 1 3 4\n",
            "action 0 sets 0=1: 2 tenths, 1 presses; so far 2 tenths, 1 presses\naction 1 sets 0=2: 2 tenths, 1 presses; so far 4 tenths, 2 presses\nstopped at step 3: action 3 is not applicable, 0=0 does not hold\n",
        ),
        (
            b"0 1 0 0\n3",
            "stopped at step 1: action 3 is not applicable, 1=0 does not hold\n",
        ),
        (
            b"0 1 0 0\n0 5 1\n",
            "action 0 sets 0=1: 2 tenths, 1 presses; so far 2 tenths, 1 presses\nstopped at step 2: there is no action 5\n",
        ),
        (
            b"0 1 0 0\n999999999",
            "stopped at step 1: there is no action 999999999\n",
        ),
        (b"3 1 0 0\n0", "refused: number 30, layer 3, place 0\n"),
        (b"0 1 0 999\n0", "refused: number 30, layer 3, place 3\n"),
        (
            b"0 1 0\n0",
            "the start has 3 values, the bench 4 variables\n",
        ),
        (b"", "the start has 0 values, the bench 4 variables\n"),
        (
            b"0 1  0\n0",
            "line 1, field 3: not a number of up to nine digits\n",
        ),
        (
            b"0 1 0 0\n0 1 x\n",
            "line 2, field 3: not a number of up to nine digits\n",
        ),
        (
            b"0 1 0 0\r\n0",
            "line 1, field 4: not a number of up to nine digits\n",
        ),
    ];
    for (input, expected) in &table {
        assert_eq!(rt; said(heap, &KEYPAD, input)?.as_str(), *expected);
    }
    Ok(())
}

#[test]
fn refused_books(rt: HostRuntime) -> Result<(), Fail> {
    let heap = rt.alloc();
    let input = b"0 1 0 0\n0";
    let table: [(&[u8], &str); 4] = [
        (b"", "refused: number 12, layer 1, place 0\n"),
        (&KEYPAD[0..118], "refused: number 1, layer 1, place 108\n"),
        (&KEYPAD[0..108], "refused: number 12, layer 1, place 108\n"),
        (&KEYPAD[5..], "refused: number 7, layer 1, place 31\n"),
    ];
    for (book, expected) in &table {
        assert_eq!(rt; said(heap, book, input)?.as_str(), *expected);
    }
    Ok(())
}

#[test]
fn long_walks(rt: HostRuntime) -> Result<(), Fail> {
    let heap = rt.alloc();
    let mut input = Vec::new(heap);
    input.extend_from_slice(b"0 1 0 0\n4")?;
    input.extend_from_slice(&b" 4".repeat(heap, 65_536)?)?;
    assert_eq!(rt;
        said(heap, &KEYPAD, input.as_slice())?.as_str(),
        "over 65536 actions\n"
    );
    Ok(())
}
