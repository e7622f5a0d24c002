// The two parts of an input.
ghost use Rattle.std.specs.Prelude.{◌≡◌, position};
ghost use Rattle.report.specs.Input.{is_ending, Parted};

// The offset of the first byte 10.
fn first_ending(input: &[u8]) -> Option<usize>
    ensures { result ≡ position is_ending input.now }
{
    input.iter().position(|b| *b == 10)
}

// What stands before the first byte 10, and what stands behind it. Where there is none, the whole input is the text.
pub fn split_input(input: &[u8]) -> (&[u8], &[u8])
    ensures { Parted input.now result.0.now result.1.now }
{
    match first_ending(input) {
        Some(i) => (&input[..i], &input[i + 1..]),
        None => (input, &[]),
    }
}
